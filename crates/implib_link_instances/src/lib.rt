//! Instances of the laws of `implib_link`: links, loaded programs, searches and ways from bytes to
//! calls that are worked by hand; and what the fields of their conclusions refuse.
//!
//! A module of [`laws`] has instances of laws of `implib_link`; [`laws::refused`] has what they
//! refuse.
#![tactic(auto)]

pub mod laws;
