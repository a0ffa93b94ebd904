//! Eight callers of `implib`, each with what its own caller can conclude from its contract; and
//! what links of a library by options.
//!
//! `docs/CALLING.md` quotes some, and the contracts that they stand on.

mod errors;
mod link;
mod linked;
mod members;
mod objects;
mod one_flavor;
mod options;
mod tokens;

pub use errors::error_in;
pub use link::members_to_link;
pub use linked::{gnu_members_of_text, msvc_members_of_text};
pub use members::{members_of_export, members_of_text};
pub use objects::data_object;
pub use one_flavor::programs_of_one_flavor;
pub use options::members_by_options_link;
pub use tokens::first_exports;
