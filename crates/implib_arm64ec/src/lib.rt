//! Import libraries for ARM64EC, for Microsoft's linkers: the names, the short imports and the
//! archives.
//!
//! The name of a function for ARM64EC has a mark, which tells it from the same function's for
//! x86-64 ([`mark`], [`unmark`]). [`short_imports`] makes the short imports of a definition, and
//! [`Archive`] the archive of a library: of the three headers of a library for ARM64, of these
//! short imports, and of the members for ARM64 of a native definition. Its linker members list the
//! symbols of headers and native members, and a further index those of headers and short imports.
#![tactic(auto)]

mod archive;
mod arm64ec_imports;
mod ec_index;
mod error;
mod grammar;
mod imports;
mod kept_import;
pub mod laws;
mod library;
mod listing;
mod names;
mod nonterminal;
mod production;
mod reading;

pub use archive::Archive;
pub use arm64ec_imports::Arm64ecImports;
pub use error::MarkError;
pub use library::{ImportsError, ImportsFault, short_imports};
pub use names::{mark, unmark};
