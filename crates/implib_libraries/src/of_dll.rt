//! The libraries of DLLs, and a law of them: from what a DLL exports to the bytes of its library's
//! members, and back.
//!
//! `from_dll` has the exports of a definition for a DLL, and `implib_rules` makes the
//! members of such exports: [`members_of_dll`]. A DLL for I386 does not say by which symbols its
//! functions are called: [`decorations_in`] has those of another library or of a definition, which
//! [`decorate`] gives to exports. [`laws`] says what members are read as, by their bytes alone.

mod decorated;
mod decorations;
pub mod laws;
mod members;

pub use decorated::{count_missing, decorate};
pub use decorations::{Decoration, NotDecorations, decorations_in};
pub use members::{Unmade, members_of_dll, members_of_list};
