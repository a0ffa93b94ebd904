//! The library `implib` for C: see `include/implib.h`.
//!
//! The exports take slices and numbers, and give numbers. They keep nothing between calls. What
//! they do is in the crate `implib_c_calls`.
#![tactic(auto)]

mod exports;
