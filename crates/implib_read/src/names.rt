//! The names of an archive's members.

ghost use Rattle.std.specs.Prelude.{◌≡◌, ℕ, ◌+◌, ◌-◌, ◌*◌, ◌<◌, ◌≤◌, length, drop, fold, bytes_eq};
ghost use Rattle.std.specs.Prelude.{nat_eq, take_while};
ghost use Rattle.std.specs.List.{list_all};
ghost use Rattle.std.specs.Option.{option_map};
ghost use Rattle.implib_archive.specs.Reader.{is_digit, number_in, trimmed};
ghost use Rattle.implib_read.specs.MemberNames.{begins_with_byte, ends_from, goes_on, long_name_of};
ghost use Rattle.implib_read.specs.MemberNames.{member_name, without_slash};
ghost use Rattle.std.specs.List.{prefix_len};
ghost use Rattle.implib_read.specs.NameViews.{name_view};

use crate::fields::behind;
use crate::lines::line_len_at;

/// What the name field of a header says.
#[derive(Clone, Copy)]
pub enum MemberName<'a> {
    /// `/`: a linker member, the index.
    Linker,
    /// `//`: the long names.
    LongNames,
    /// A long name, at an offset of the long names.
    LongAt(usize),
    /// The name itself.
    Text(&'a [u8]),
    /// A name that begins with a slash, and is none of these.
    Special(&'a [u8]),
}

/// A text without the spaces at its end.
pub(crate) fn trimmed(text: &[u8]) -> &[u8]
    ensures { result.now ≡ trimmed text.now }
{
    let mut end = text.len();
    while end > 0 && text[end - 1] == b' ' {
        end -= 1;
    }
    &text[..end]
}

/// How many digits a text begins with.
fn digits_len(text: &[u8]) -> usize
    ensures { result ≡ length (take_while is_digit text.now) }
{
    text.iter().take_while(|c| 48 <= **c && **c <= 57).count()
}

/// Whether all bytes of a text are spaces.
fn are_spaces(text: &[u8]) -> bool
    ensures { result ≡ list_all (λ c. nat_eq c 32) text.now }
{
    text.iter().all(|c| *c == 32)
}

/// The number that digits are.
fn value_of(digits: &[u8]) -> usize
    requires { length digits.now ≤ 15 }
    ensures { result ≡ fold (λ n c. 10 * n + (c - 48)) 0 digits.now }
{
    let mut value = 0usize;
    for c in digits {
        value = 10 * value + c.saturating_sub(48) as usize;
    }
    value
}

/// The decimal number at the left of a field of spaces.
#[tactic(auto, unfolding(implib_archive::specs::Reader::number_in))]
pub(crate) fn number_in(text: &[u8]) -> Option<usize>
    requires { length text.now ≤ 15 }
    ensures { result ≡ number_in text.now }
{
    let digits = digits_len(text);
    if digits != 0 && are_spaces(&text[digits..]) {
        Some(value_of(&text[..digits]))
    } else {
        None
    }
}

/// Whether a text is another.
pub(crate) fn is_text(text: &[u8], other: &[u8]) -> bool
    ensures { result ≡ bytes_eq text.now other.now }
{
    text == other
}

/// Whether a text begins with a byte.
pub(crate) fn begins_with_byte(byte: u8, text: &[u8]) -> bool
    ensures { result ≡ begins_with_byte byte text.now }
{
    match text {
        [first, ..] => *first == byte,
        [] => false,
    }
}

/// A text without the slash at its end.
#[tactic(auto, unfolding(crate::specs::MemberNames::without_slash))]
fn without_slash(text: &[u8]) -> &[u8]
    ensures { result.now ≡ without_slash text.now }
{
    let last = text.len().saturating_sub(1);
    if begins_with_byte(b'/', &text[last..]) {
        &text[..last]
    } else {
        text
    }
}

/// What a name field says.
#[tactic(auto, unfolding(crate::specs::MemberNames::member_name))]
pub(crate) fn member_name(field: &[u8]) -> MemberName<'_>
    requires { length field.now ≡ 16 }
    ensures { name_view result ≡ member_name field.now }
{
    let text = trimmed(field);
    if is_text(text, b"/") {
        return MemberName::Linker;
    }
    if is_text(text, b"//") {
        return MemberName::LongNames;
    }
    if !begins_with_byte(b'/', text) {
        return MemberName::Text(without_slash(text));
    }
    match number_in(&field[1..]) {
        Some(offset) => MemberName::LongAt(offset),
        None => MemberName::Special(text),
    }
}

/// The long name at the front of a text whose first line has a number of bytes.
#[tactic(auto, unfolding(crate::specs::MemberNames::long_name_of), using(crate::proofs::LineEnds::line_fits))]
fn long_name_of(text: &[u8], end: usize) -> &[u8]
    requires { end ≡ prefix_len goes_on text.now }
    ensures { result.now ≡ long_name_of text.now }
{
    let line = &text[..end];
    if begins_with_byte(b'\n', &text[end..]) {
        without_slash(line)
    } else {
        line
    }
}

/// The long name at an offset, given the ends of the lines.
pub(crate) fn long_name_at<'a>(names: &'a [u8], ends: &[usize], offset: usize) -> &'a [u8]
    requires { ends.now ≡ ends_from 0 names.now }
    ensures { result.now ≡ long_name_of (drop offset names.now) }
{
    long_name_of(behind(names, offset), line_len_at(names, ends, offset))
}
