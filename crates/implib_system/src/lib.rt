//! DLLs in memory, and laws of what they give a linked program: from an import to the address of
//! the export that it reaches.
//!
//! The laws of linked programs (`implib_link`) speak of whatever bytes DLLs give. Here these are
//! the addresses that the export directories of DLLs lead to, forwarders followed, by the
//! definitions of `implib_dll`, which go by the bytes of the DLLs. [`laws`] has them, with DLLs
//! worked by hand.
#![tactic(auto)]

pub mod laws;
