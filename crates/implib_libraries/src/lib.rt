//! Libraries that `implib_rules` makes with what further crates have.
//!
//! [`from_dll`] has what a DLL exports as a definition has it, and [`of_dll`] the members of the
//! DLL's library; [`arm64ec`] has the library for ARM64EC of texts, [`delayed`] that of delayed
//! imports, [`null_descriptor`] one whose null descriptor is named after it.
#![tactic(auto)]

pub mod arm64ec;
pub mod delayed;
pub mod from_dll;
pub mod null_descriptor;
pub mod of_dll;
