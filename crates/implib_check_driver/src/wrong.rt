//! What is said of words that ask for nothing.

use crate::task::Wrong;
use implib_options::help::OptionName;
use implib_options::table::{Meaning, Words};
use implib_options::words::Fault;
use implib_rules::Shown;
use std::fmt;

/// What is wrong with words, in a user's words.
#[derive(Drop)]
pub struct WordMessage<'a>(pub Fault<'a>);

// The name of an option.
fn name_of(meaning: Meaning) -> OptionName {
    OptionName(Words::Check, meaning)
}

impl<'a> fmt::Display for WordMessage<'a> {
    fn fmt<W: fmt::Write>(&self, f: &mut fmt::Formatter<W>) -> fmt::Result {
        match self.0 {
            Fault::File(word) if word.as_bytes().starts_with(b"@") => {
                write!(f, "{}: files of options are not supported", Shown(word))
            }
            Fault::File(word) => write!(f, "{}: no file may follow --", Shown(word)),
            Fault::NoValue(meaning) => {
                write!(f, "the option {} lacks its value", name_of(meaning))
            }
            Fault::Unknown(word)
            | Fault::Unsupported(word)
            | Fault::NoValueIn(word)
            | Fault::NoMachine(word)
            | Fault::Further(word) => {
                write!(f, "{}: no such option; --help lists them", Shown(word))
            }
            Fault::NoDefinition | Fault::NoOutput | Fault::NoLibrary | Fault::ListedDefinition =>
                f.write_str("wrong call; --help says how to call it"),
        }
    }
}

impl<'a> fmt::Display for Wrong<'a> {
    fn fmt<W: fmt::Write>(&self, f: &mut fmt::Formatter<W>) -> fmt::Result {
        match *self {
            Wrong::Two(one, other) => {
                write!(
                    f,
                    "{} and {}: expected one of them",
                    name_of(one),
                    name_of(other)
                )
            }
            Wrong::Unfit(meaning) => {
                write!(
                    f,
                    "{}: not for this call; --help says for which",
                    name_of(meaning)
                )
            }
            Wrong::NoFile => f.write_str("a file is missing; --help says how to call it"),
            Wrong::Alone => f.write_str(
                "a definition or an option is missing, as in implib_check LIB DEF or \
                 implib_check --list LIB, or, of a program, implib_check PROGRAM --search DIR",
            ),
            Wrong::Further(path) => {
                write!(
                    f,
                    "{}: one file too many; --help says how to call it",
                    Shown(path)
                )
            }
            Wrong::NoMachine(name) => write!(
                f,
                "{}: no such machine: expected i386, i386:x86-64, arm, arm64 or arm64ec",
                Shown(name)
            ),
            Wrong::NoFlavor(name) => {
                write!(f, "{}: no such flavour: expected msvc or gnu", Shown(name))
            }
            Wrong::EmptyDll => f.write_str("the name of the DLL that is given is empty"),
            Wrong::NoOlder => {
                f.write_str("-C: not for Microsoft's linker; --flavor gnu has these symbols")
            }
            Wrong::NoDefinition => {
                f.write_str("arm64ec: --def writes no definition of a library for it")
            }
        }
    }
}
