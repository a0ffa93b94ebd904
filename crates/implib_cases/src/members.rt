//! Cases about the members of import libraries: what the members of a definition are called, how
//! long they are, which symbols they are listed for, what they are for, and which bytes they have.
//!
//! A case is made of a machine and of a definition, by a text (`text`) or by hand (`dll`, `export`
//! and what is set in an export). It asks by `members`, `exports`, `bytes` and `compare`, and by
//! the words of [`linkers`].

pub mod answers;
mod definitions;
mod linkers;
mod readings;
mod stored;
