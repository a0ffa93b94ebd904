//! What is doubtful in the form of a definition's text.

ghost use Rattle.implib.specs.Definition.{export_view};
ghost use Rattle.implib_rules.specs.Plain.{beginning};
ghost use Rattle.implib_rules.specs.TextWarnings.{follows_exports, has_something, none_warnings};
ghost use Rattle.implib_rules.specs.TextWarnings.{after_name, alone_notice, attribute_in};
ghost use Rattle.implib_rules.specs.TextWarnings.{comment_in};
ghost use Rattle.implib_rules.specs.TextWarnings.{comment_notice, late_notice, word_notice};
ghost use Rattle.implib_rules.specs.TextWarnings.{ended_notice, is_export_as_after};
ghost use Rattle.implib_rules.specs.TextWarnings.{keyword_of, notice_by, notice_in};
ghost use Rattle.implib_rules.specs.TextWarnings.{position_after, skipped_notice, text_notice};
ghost use Rattle.implib_rules.specs.TextWarnings.{text_warnings, text_warnings_from};
ghost use Rattle.implib_rules.specs.Warnings.{notice_view, warning_view, whole};
ghost use Rattle.std.specs.Option.{option_map};
ghost use Rattle.std.specs.Prelude.{◌≡◌, ◌+◌, ◌<◌, ◌^◌, IfOk, map, true};

use crate::form::after_quote;
use crate::plain::{
    BEGINNING, Before, Part, Reading, after_blanks, after_word, begins_word, is_after_name,
    is_line_start, is_space, step_of,
};
use crate::text::without_mark;
use crate::warnings::{Notice, WHOLE, Warning, no_export_notice, push_notice};
use implib::def::{Position, ShortExport};
use std::alloc::{AllocError, Global};

// That a line is skipped; after the first of SECTIONS its lines have no warning of their own.
fn skipped_notice(before: Before, after: Before) -> Option<Notice<'static>>
    ensures { option_map notice_view result ≡ skipped_notice before after }
{
    match (before, after) {
        (Before::SectionStart, Before::SectionStart) => None,
        _ => Some(Notice::Skipped),
    }
}

// That a NUL ends the text, if something follows it.
fn ended_notice(rest: &[u8]) -> Option<Notice<'static>>
    ensures { option_map notice_view result ≡ ended_notice rest.now }
{
    if rest.is_empty() {
        return None;
    }
    Some(Notice::EndsEarly)
}

// The word in front of a text, if it is a keyword of other tools.
#[tactic(auto, unfolding(crate::specs::TextWarnings::keyword_of))]
fn keyword_of(text: &[u8]) -> Option<&'static str>
    ensures { option_map (λ word. word.now) result ≡ keyword_of text.now }
{
    if begins_word(b"DESCRIPTION", text) {
        return Some("DESCRIPTION");
    }
    if begins_word(b"STUB", text) {
        return Some("STUB");
    }
    if begins_word(b"EXETYPE", text) {
        return Some("EXETYPE");
    }
    if begins_word(b"SECTIONS", text) {
        return Some("SECTIONS");
    }
    if begins_word(b"EXPORTAS", text) {
        return Some("EXPORTAS");
    }
    None
}

// Whether EXPORTAS is in front of a text, after a name in its line.
fn is_export_as_after(before: Before, text: &[u8]) -> bool
    ensures { result ≡ is_export_as_after before text.now }
{
    is_after_name(before) && begins_word(b"EXPORTAS", text)
}

// That such a word stays, and so is a name: the first of its line, or EXPORTAS after a name.
#[tactic(auto, unfolding(crate::specs::TextWarnings::alone_notice))]
fn alone_notice(before: Before, text: &[u8]) -> Option<Notice<'static>>
    ensures { option_map notice_view result ≡ alone_notice before text.now }
{
    if !is_line_start(before) && !is_export_as_after(before, text) {
        return None;
    }
    match keyword_of(text) {
        Some(word) => Some(Notice::StandsAlone(word)),
        None => None,
    }
}

// The attribute in front of a text, if one is.
#[tactic(auto, unfolding(crate::specs::TextWarnings::attribute_in))]
fn attribute_in(text: &[u8]) -> Option<&'static str>
    ensures { option_map (λ word. word.now) result ≡ attribute_in text.now }
{
    if begins_word(b"DATA", text) {
        return Some("DATA");
    }
    if begins_word(b"CONSTANT", text) {
        return Some("CONSTANT");
    }
    if begins_word(b"PRIVATE", text) {
        return Some("PRIVATE");
    }
    if begins_word(b"NONAME", text) {
        return Some("NONAME");
    }
    match text {
        [b'@', ..] => Some("@"),
        _ => None,
    }
}

// What follows the name in front of a text, in quotes or not, and blanks.
fn after_name(text: &[u8]) -> &[u8]
    ensures { result.now ≡ after_name text.now }
{
    match text {
        [b'"', rest @ ..] => after_blanks(after_quote(rest)),
        _ => after_blanks(after_word(text)),
    }
}

// That an attribute follows the name of EXPORTAS, which is in front of the text.
fn late_notice(text: &[u8]) -> Option<Notice<'static>>
    ensures { option_map notice_view result ≡ late_notice text.now }
{
    let behind = match text {
        [_, _, _, _, _, _, _, _, behind @ ..] => behind,
        _ => &[],
    };
    match attribute_in(after_name(after_blanks(behind))) {
        Some(word) => Some(Notice::Late(word)),
        None => None,
    }
}

// What begins a comment of C++ or of a shell, if that is in front of a text.
#[tactic(auto, unfolding(crate::specs::TextWarnings::comment_in))]
fn comment_in(text: &[u8]) -> Option<&'static str>
    ensures { option_map (λ word. word.now) result ≡ comment_in text.now }
{
    if text.starts_with(b"//") {
        return Some("//");
    }
    if text.starts_with(b"#") {
        return Some("#");
    }
    None
}

// That the first name of a line begins so.
fn comment_notice(before: Before, text: &[u8]) -> Option<Notice<'static>>
    ensures { option_map notice_view result ≡ comment_notice before text.now }
{
    if !is_line_start(before) {
        return None;
    }
    match comment_in(text) {
        Some(word) => Some(Notice::CommentLike(word)),
        None => None,
    }
}

// What is said of a word that stays.
fn word_notice(before: Before, text: &[u8]) -> Option<Notice<'static>>
    ensures { option_map notice_view result ≡ word_notice before text.now }
{
    match alone_notice(before, text) {
        Some(notice) => Some(notice),
        None => comment_notice(before, text),
    }
}

// What is said of a byte between lexemes, by the part that is read after it.
fn notice_by(
    part: Part,
    before: Before,
    after: Before,
    text: &[u8],
    rest: &[u8],
) -> Option<Notice<'static>>
    ensures { option_map notice_view result ≡ notice_by part before after text.now rest.now }
{
    match part {
        Part::Word => word_notice(before, text),
        Part::SecondSign => late_notice(text),
        Part::Skipped => skipped_notice(before, after),
        Part::Ended => ended_notice(rest),
        Part::Between
        | Part::Quotes
        | Part::Apostrophes
        | Part::Comment
        | Part::Blank
        | Part::Digits(_) => None,
    }
}

// What is said of a byte, by what is read at it and after it.
fn text_notice(reading: Reading, next: Reading, text: &[u8], rest: &[u8]) -> Option<Notice<'static>>
    ensures { option_map notice_view result ≡ text_notice reading next text.now rest.now }
{
    match reading.part {
        Part::Between => notice_by(next.part, reading.before, next.before, text, rest),
        Part::Word
        | Part::Quotes
        | Part::Apostrophes
        | Part::Comment
        | Part::Skipped
        | Part::Ended
        | Part::SecondSign
        | Part::Blank
        | Part::Digits(_) => None,
    }
}

// The position after one more byte.
fn position_after(position: Position, byte: u8) -> Position
    requires offset { position.offset + 1 < 2 ^ 64 }
    requires line { position.line + 1 < 2 ^ 64 }
    requires column { position.column + 1 < 2 ^ 64 }
    ensures { result ≡ position_after position byte }
{
    if byte == b'\n' {
        return Position {
            offset: position.offset + 1,
            line: position.line + 1,
            column: 1,
        };
    }
    Position {
        offset: position.offset + 1,
        line: position.line,
        column: position.column + 1,
    }
}

/// The warnings of the form of a definition of these bytes, in their order: of each statement that
/// is skipped, of a keyword of one that is a name, and of a NUL that ends the text before its end.
///
/// # Errors
///
/// An allocation failed.
#[tactic(auto, unfolding(crate::specs::TextWarnings::text_warnings_from))]
pub fn text_warnings(alloc: Global, bytes: &[u8]) -> Result<Vec<Warning<'static>>, AllocError>
    ensures { IfOk result
        (λ warnings. map warning_view warnings.items ≡ text_warnings bytes.now) }
{
    let mut warnings = Vec::new(alloc);
    let mut reading = BEGINNING;
    let mut position = WHOLE;
    let mut text = without_mark(bytes);
    while let [byte, rest @ ..] = text {
        let next = step_of(reading, text, *byte, rest).reading;
        push_notice(
            &mut warnings,
            text_notice(reading, next, text, rest),
            position,
        )?;
        reading = next;
        position = position_after(position, *byte);
        text = rest;
    }
    Ok(warnings)
}

// Whether something but white space is in a text.
fn has_something(text: &[u8]) -> bool
    ensures { result ≡ has_something text.now }
{
    text.iter().any(|byte| !is_space(*byte))
}

// Whether a line of a text begins with EXPORTS, and something follows that.
#[tactic(auto, unfolding(crate::specs::TextWarnings::follows_exports))]
fn follows_exports(text: &[u8]) -> bool
    ensures { result ≡ follows_exports true text.now }
{
    let mut starts = true;
    let mut left = text;
    while let [byte, rest @ ..] = left {
        if starts && begins_word(b"EXPORTS", left) {
            return has_something(&left[7..]);
        }
        starts = *byte == b'\n' || starts && is_space(*byte);
        left = rest;
    }
    false
}

/// The warning, asked for or not, that the definition of a text has no export though something
/// follows EXPORTS.
///
/// # Errors
///
/// An allocation failed.
pub fn none_warnings(
    alloc: Global,
    text: &str,
    exports: &[ShortExport],
) -> Result<Vec<Warning<'static>>, AllocError>
    ensures { IfOk result (λ warnings. map warning_view warnings.items
        ≡ none_warnings text.now (map export_view exports.now)) }
{
    let mut warnings = Vec::new(alloc);
    if follows_exports(text.as_bytes()) {
        push_notice(&mut warnings, no_export_notice(exports), WHOLE)?;
    }
    Ok(warnings)
}
