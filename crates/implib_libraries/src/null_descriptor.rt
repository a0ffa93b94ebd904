//! Libraries for Microsoft's linkers whose null descriptor has a symbol that is named after the
//! library, so that a link of whole archives (`/WHOLEARCHIVE`) does not define one symbol twice.

mod headers;
pub mod laws;
mod members;

pub use members::{NamedMembers, named_members_for};
