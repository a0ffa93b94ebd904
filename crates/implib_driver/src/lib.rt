//! What the program `implib_dlltool` does, over any disk and any reporter: a program in place of
//! `dlltool`.
//!
//! What the words of the command line ask for is decided here ([`lib_words`], [`request`]), by
//! the [`options`] of a table; which bytes a library has, or why there is none, by the crate
//! `implib_rules`. [`program`] and [`placing`] do that over a [`disk`] and a [`reporter`]; those of
//! the system are in [`devices`].
#![tactic(auto)]

pub use implib_options as options;

mod apart;
mod arm64ec;
mod definition_program;
pub mod devices;
pub mod disk;
pub mod dll;
mod dll_program;
mod help;
pub mod identity;
pub mod laws;
pub mod lib_words;
pub mod machine;
pub mod message;
pub mod placing;
pub mod program;
pub mod reporter;
pub mod request;
pub mod search;
pub mod stubs;
mod telling;
mod warned;
