//! Cases about what the members of import libraries link to: by the tests' linker and loader
//! (`implib_test_linker`), whose rules know nothing of how members are made.
//!
//! A case is made of a machine, of libraries (`library`, and `text` with the definition), and of
//! bases. It links files by their names, and asks what comes of it; the modules say how.

pub mod answers;
mod files;
mod linking;
