//! Whether two import libraries mean the same, whether a library means what a definition means, and
//! whether a library works.
//!
//! [`compare`](compare::compare) says of each member of two libraries, of any maker, whether the
//! other one has what it says, and gives the verdict; members are compared by their keys ([`keys`],
//! [`partners`]). [`library_meant`](meant::library_meant) makes the library of a definition, which
//! is then read as any other. Whether the indexes of a library lead where they ought to, and its
//! import tables are whole, is in [`working`], and for which linker a library is in [`flavor`].
//! [`dll_check`] says what imports come to in the DLL that they are of.
//! [`laws`] has what is worked by hand, and that a key tells what it is of.
#![tactic(auto)]

pub mod compare;
pub mod dll_check;
pub mod flavor;
pub mod keys;
pub mod laws;
pub mod meant;
pub mod partners;
pub mod working;
