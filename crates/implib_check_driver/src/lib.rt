//! What the program `implib_check` does: it reads import libraries of any maker, lists their
//! imports, names their DLLs, and compares them with one another, with definitions and with DLLs.
//!
//! Words are a task ([`task`], [`call`]). The bytes of its files have an answer ([`answer`]), which
//! is found without a disk: an exit status, and what is written on each stream. Only [`program`]
//! reads files and writes the answer.
#![tactic(auto)]

mod against;
pub mod answer;
mod arm64ec;
mod beside;
pub mod call;
mod checking;
pub mod defining;
pub mod definition;
pub mod definition_text;
pub mod differences;
pub mod exported;
pub mod finding;
pub mod joined;
mod json;
pub mod laws;
pub mod list;
mod of_dll;
pub mod positions;
pub mod program;
pub mod report;
pub mod shelf;
pub mod starting;
pub mod status;
pub mod target;
pub mod task;
mod text;
mod through;
pub mod together;
pub mod works;
mod wrong;
