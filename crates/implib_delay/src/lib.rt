//! Delayed imports for GNU's linker.
//!
//! A delayed function's DLL is loaded at the function's first call, by the helper of GNU's
//! `libdelayimp`.
#![tactic(auto)]

mod error;
mod exports;
pub mod laws;
mod members;
mod names;
mod objects;
mod refusal;
mod string_table;

pub use error::{DelayError, DelayFault};
pub use members::{DelayedMembers, delayed_members};
