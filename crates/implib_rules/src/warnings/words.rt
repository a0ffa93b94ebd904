//! Words that may be meant for something else than they are.

ghost use Rattle.implib_rules.specs.Warnings.{attribute_spelled, is_attribute};
ghost use Rattle.implib_rules.specs.Warnings.{is_ordinal_like, is_stdcall_word};
ghost use Rattle.implib_rules.specs.Warnings.{lowered_attribute};
ghost use Rattle.std.specs.Prelude.{◌≡◌};

use crate::linked::is_number;

/// An attribute of an export.
#[derive(Clone, Copy, Debug, PartialEq, Eq)]
pub enum Attribute {
    /// `DATA`
    Data,
    /// `CONSTANT`
    Constant,
    /// `PRIVATE`
    Private,
    /// `NONAME`
    NoName,
}

// Whether a word is an attribute, unless it is quoted.
fn is_attribute(word: &str) -> bool
    ensures { result ≡ is_attribute word.now }
{
    match word {
        "DATA" | "CONSTANT" | "PRIVATE" | "NONAME" => true,
        _ => false,
    }
}

// The attribute of a word in letters of any case.
fn attribute_spelled(word: &str) -> Option<Attribute>
    ensures { result ≡ attribute_spelled word.now }
{
    if word.eq_ignore_ascii_case("DATA") {
        return Some(Attribute::Data);
    }
    if word.eq_ignore_ascii_case("CONSTANT") {
        return Some(Attribute::Constant);
    }
    if word.eq_ignore_ascii_case("PRIVATE") {
        return Some(Attribute::Private);
    }
    if word.eq_ignore_ascii_case("NONAME") {
        return Some(Attribute::NoName);
    }
    None
}

/// The attribute that a word would be in capitals, and is not.
pub fn lowered_attribute(word: &str) -> Option<Attribute>
    ensures { result ≡ lowered_attribute word.now }
{
    if is_attribute(word) {
        return None;
    }
    attribute_spelled(word)
}

/// Whether a word begins as an ordinal: with `@` and a digit.
pub fn is_ordinal_like(word: &str) -> bool
    ensures { result ≡ is_ordinal_like word.now }
{
    let bytes = word.as_bytes();
    bytes.len() > 1 && bytes[0] == b'@' && bytes[1].is_ascii_digit()
}

/// Whether a word is a name of stdcall: `name@8`, of C and not C++.
pub fn is_stdcall_word(word: &str) -> bool
    ensures { result ≡ is_stdcall_word word.now }
{
    if word.as_bytes().first() == Some(&b'?') {
        return false;
    }
    match word.split_once('@') {
        Some((name, number)) => !name.is_empty() && is_number(number.as_bytes()),
        None => false,
    }
}
