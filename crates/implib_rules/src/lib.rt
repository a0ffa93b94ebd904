//! The import library of a module definition, by the rules of `dlltool`.
//!
//! [`write_library`](library::write_library) goes from the bytes of a definition to those of its
//! library, or says why there is none; [`warnings_of`](warnings::warnings_of) has what is doubtful
//! in a definition. Which name the DLL has ([`name`]), which exports count ([`repeats`]), by which
//! symbols they are linked and what they ask the DLL for ([`linked`], [`aliases`], `nameless`), and
//! how the library is named for the linker ([`library_name`]) are rules of their own. Where in the text
//! each of this stands is in [`places`]. Exports that are given without a text have their members
//! by [`exports`].
#![tactic(auto)]

pub mod additions;
pub mod aliases;
pub mod export_as;
pub mod exports;
pub mod firsts;
pub mod form;
pub mod laws;
pub mod library;
pub mod library_name;
pub mod linked;
pub mod machine;
pub mod members;
mod message;
pub mod name;
pub mod nameless;
pub mod options;
pub mod places;
pub mod plain;
pub mod repeats;
mod shown;
pub mod text;
pub mod text_warnings;
pub mod warnings;

pub use message::{FaultMessage, position_of};
pub use shown::{Shown, ShownPath, ShownPlace};
