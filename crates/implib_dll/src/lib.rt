//! A reader of what DLLs export and what images import, by the bytes of a file or of an image in
//! memory.
//!
//! [`Exports::read`] has the export directory of a PE32 or PE32+ image: its targets by index, each
//! an address with its kind, a forwarder, or empty; its names in order; the name of the DLL and the
//! base. [`Exports::rows`] has these ordinal by ordinal. Any other file is refused for its first
//! [`Fault`], a cause with an offset.
//!
//! [`Exports::by_name`] and [`Exports::by_ordinal`] look an export up as a loader does: a hint
//! first, and then a binary search that needs [`Exports::names_rise`]. A name that leads to no
//! target is allowed, as loaders allow it, and told by [`Exports::oddity`]; so is an address in no
//! section, as [`AddressKind::Outside`].
//!
//! [`Imports::read`] has the import directory of a program or a DLL: each DLL by its name, with
//! what it is asked for, by names and ordinals.
//!
//! Each of these equals a definition in `specs/` that goes by the bytes alone. Values borrow the
//! bytes, so that texts are not copied. [`laws`] says what lookups come to and what of it lies in
//! memory, and has what was worked by hand.
#![tactic(auto)]

mod exports;
mod fault;
mod fields;
mod header;
mod imports;
pub mod laws;
mod lookup;
mod name;
mod rows;
mod section;
mod target;

pub use exports::Exports;
pub use fault::{Cause, Fault, ReadError};
pub use imports::{Ask, ImportedDll, Imports};
pub use name::Name;
pub use rows::{Oddity, Row};
pub use section::AddressKind;
pub use target::Target;
