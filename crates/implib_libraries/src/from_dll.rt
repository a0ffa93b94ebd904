//! The import library of a DLL, made of what the DLL exports.
//!
//! [`exports_of`] has the exports of a definition whose library imports what a DLL exports: each
//! name that leads to a target, with its position in the name table as the hint, and by ordinal
//! each target without a name. [`machine_of`] has the machine that the DLL is for.
//!
//! Both equal definitions in `specs/`. [`laws`] says what the imports come to, looked up in the DLL
//! as a loader does.

mod exports;
pub mod laws;
mod machine;

pub use exports::{Unsaid, exports_of};
pub use machine::machine_of;
