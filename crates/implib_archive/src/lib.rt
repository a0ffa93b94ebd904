//! Archives of the members of import libraries, in two kinds: COFF (Microsoft's) and GNU (System
//! V's).
//!
//! [`Archive::new`] gives an archive of members, or tells the first thing that the kind cannot
//! carry. [`Archive::len`], [`Archive::to_vec`] and [`Archive::write_to`] give its length and its
//! bytes, which are those of the tables in `specs/Archive`. A writer whose bytes are known has
//! exactly these after `Ok`, and a beginning of them after an error. [`members_refusal`] says what
//! is wrong with members alone, without their archive.
//!
//! An archive is made over a [`Source`]: over a slice of members that are held, or over a caller's
//! own, which makes the bytes of a member when it is written.
//!
//! [`laws`] has what is proved of every archive: a reader that follows headers and sizes finds the
//! linker members, the long names and each member, in order and with its whole name, and nothing
//! else; the index leads each symbol to the header of the first member that lists it, and the
//! second linker member says the same. What is worked by hand stands there too: whole archives of
//! both kinds, written and read, by their indexes also, and refusals.
#![tactic(auto)]

mod bytes;
mod entries;
mod error;
mod front;
mod kind;
pub mod laws;
pub mod layout;
mod long_names;
mod offsets;
mod output;
mod refusal;
mod source;
mod writer;

pub use error::{Error, Fault, WriteError};
pub use kind::Kind;
pub use refusal::members_refusal;
pub use source::{Members, Source};
pub use writer::Archive;
