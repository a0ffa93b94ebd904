//! What the library for C does (`implib_c`, `include/implib.h`), for callers in Rattle.
//!
//! The functions take slices and numbers, and put an answer into a buffer or tell why they put none
//! ([`outcome`]), by a number ([`status`]) and a place. They keep nothing between calls.
#![tactic(auto)]

pub mod arm64ec;
pub mod check;
pub mod definition;
pub mod delayed;
pub mod dll_check;
pub mod dll_exports;
pub mod dll_library;
mod encoding;
pub mod export;
pub mod imports;
pub mod laws;
pub mod library_of;
pub mod library_with;
pub mod named;
pub mod outcome;
pub mod place;
pub mod status;
pub mod version;
pub mod warnings;
