//! Words that are numbers, versions and ordinals.

ghost use Rattle.implib.specs.Text.Number.{u16_limit, u32_limit, u64_limit};
ghost use Rattle.implib.specs.Views.Parser.{at_word_view};
ghost use Rattle.implib.specs.Views.TokenReader.{at_word, number_of, version_of};
ghost use Rattle.std.specs.Prelude.{◌≡◌};

/// What a word is among the attributes of an export.
#[derive(Clone, Copy)]
pub enum AtWord {
    /// `@` alone.
    Lone,
    /// `@` and a 16-bit number.
    WithOrdinal(u16),
    /// Any other word.
    Plain,
}

/// The text as a 16-bit number.
#[tactic(auto, using(crate::proofs::Text::NumberParsed::number_parsed))]
pub fn u16_of(text: &str) -> Option<u16>
    ensures { result ≡ number_of text.now u16_limit }
{
    text.parse::<u16>().ok()
}

// The text as a 32-bit number.
#[tactic(auto, using(crate::proofs::Text::NumberParsed::number_parsed))]
fn u32_of(text: &str) -> Option<u32>
    ensures { result ≡ number_of text.now u32_limit }
{
    text.parse::<u32>().ok()
}

/// The text as a 64-bit number.
#[tactic(auto, using(crate::proofs::Text::NumberParsed::number_parsed))]
pub fn u64_of(text: &str) -> Option<u64>
    ensures { result ≡ number_of text.now u64_limit }
{
    text.parse::<u64>().ok()
}

/// The 32-bit numbers before and after the first `.`; without a `.`, the number and 0.
pub fn version_of(text: &str) -> Option<(u32, u32)>
    ensures { result ≡ version_of text.now }
{
    match text.split_once('.') {
        None => Some((u32_of(text)?, 0)),
        Some((major, minor)) => Some((u32_of(major)?, u32_of(minor)?)),
    }
}

/// Which of these the word is.
#[tactic(auto, using(crate::proofs::Text::WordsCut::plain_unstripped))]
pub fn at_word(word: &str) -> AtWord
    ensures { at_word_view result ≡ at_word word.now }
{
    let Some(digits) = word.strip_prefix('@') else {
        return AtWord::Plain;
    };
    if digits.is_empty() {
        return AtWord::Lone;
    }
    match u16_of(digits) {
        Some(ordinal) => AtWord::WithOrdinal(ordinal),
        None => AtWord::Plain,
    }
}
