//! Module definitions: what a definition file says, and how its text is read (docs/GRAMMAR.md).

pub(crate) mod definition;
pub mod lexer;
pub mod listener;
pub mod parser;
pub(crate) mod position;

pub use definition::{ModuleDef, ShortExport};
pub use position::Position;
