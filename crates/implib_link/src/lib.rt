//! Programs that members are linked into, for GNU's linker and for Microsoft's: laws of linking,
//! loading and calling.
//!
//! [`laws::image`] has a loader that begins with the bytes of a file, by the definitions of
//! `implib_dll`. [`laws::archives`] has a linker that looks names up in the index of an archive
//! that `implib_archive` makes, and takes the members after the headers that it is led to.
#![tactic(auto)]

pub mod laws;
