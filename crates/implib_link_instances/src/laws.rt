//! Instances, each as the contract of an empty function.

pub mod calls;
pub mod closed;
pub mod command_lines;
pub mod fields;
pub mod files;
pub mod in_bytes;
pub mod libraries;
pub mod lld;
pub mod moves;
pub mod names;
pub mod programs;
pub mod refused;
pub mod searches;
