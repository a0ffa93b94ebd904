//! Tests of libraries by their public calls, what was worked by hand of great counts and of the
//! reader, and proved callers. The libraries have no tests of their own, since a crate with tests is proved twice.
#![tactic(auto)]

#[cfg(test)]
mod arm64ec_archives;
#[cfg(test)]
mod arm64ec_libraries;
#[cfg(test)]
mod callers;
#[cfg(test)]
mod calls;
pub mod laws;
#[cfg(test)]
mod memory;
#[cfg(test)]
mod pass;
pub mod reader;
pub mod uses;
