//! What the program `implib_tool` does, over any devices: it lists the members of the import
//! libraries of module definitions.
//!
//! [`program`] and [`command`] read the arguments, [`run`] reads the definitions ([`documents`])
//! and writes the [`listing`] through a buffer ([`output`]). Bytes come from and go to a
//! [`device`]; those of the system are in [`host`]. What [`documents`], [`listing`] and [`output`]
//! have is public for the crate `implib_cases`.
#![tactic(auto)]

pub mod command;
pub mod device;
pub mod documents;
pub mod host;
pub mod laws;
pub mod listing;
pub mod output;
pub mod program;
pub mod run;
