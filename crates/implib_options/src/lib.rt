//! The options of the programs `implib_dlltool` and `implib_check`, and how words spell them.
//!
//! [`table`] says each option once; what is stated here goes over that constant. [`words`] reads
//! the words of a command line by a grammar, [`given`] answers questions on what they give, and
//! [`help`] has the lines of `--help`, and options' names in messages.
#![tactic(auto)]

pub mod given;
pub mod help;
pub mod laws;
mod lib_words;
pub mod lookup;
pub mod table;
pub mod words;
