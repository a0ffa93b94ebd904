//! The members of import libraries for Windows DLLs, from module definition files (`.def`).
//!
//! A module definition names a DLL and its exports. This crate parses it and makes the members of
//! the DLL's import library. For Microsoft's linker these are an import descriptor, a null
//! descriptor, a null thunk and a short import for each export; for GNU's linker a head, a tail and
//! an object for each export. It writes no archives.
//!
//! It is proved that a text is parsed to its meaning under the grammar, or refused for its first
//! syntax error. Readers of the PE/COFF formats, defined apart from the code, find in the members
//! exactly the imports and aliases that the text means. The members for GNU's linker link and load
//! to exactly the selected imports, in a model of linker and loader.
//!
//! [`ImportLibrary`] makes the members of a text. [`def`] has definitions and their parser, which
//! also gives the position of an error, [`coff`] a writer of objects, [`laws`] what a caller may
//! conclude. `docs/GUARANTEES.md` says what is promised, `docs/GRAMMAR.md` what a text means,
//! `docs/FORMATS.md` what each byte is.
//!
//! ```
//! use implib::{Error, Flavor, ImportLibrary, MachineType, Member};
//! use std::alloc::Global;
//!
//! fn members_of_zoo(alloc: Global) -> Result<Vec<Member>, Error> {
//!     let text = "LIBRARY zoo.dll\nEXPORTS\n    feed\n    keepers DATA\n";
//!     let library = ImportLibrary::new(alloc, text, MachineType::AMD64, Flavor::Msvc)?;
//!     library.members()
//! }
//! ```
#![tactic(auto)]

mod ascii;
pub mod coff;
pub mod def;
mod error;
mod flavor;
pub mod gnu;
pub mod import_name;
pub mod import_tables;
pub mod laws;
mod library;
mod machine;
mod member;
pub mod msvc;
pub mod refusal;
mod underscore;
pub mod weak_external;

pub use error::{Error, Fault, ParseError};
pub use flavor::{Flavor, UnknownFlavor};
pub use library::ImportLibrary;
pub use machine::{MachineType, UnknownMachine};
pub use member::Member;
