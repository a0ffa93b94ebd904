//! From a text and options to the warnings that the program has of it, encoded in a buffer.

ghost use Rattle.implib_archive.specs.Pushed.{Pushes};
ghost use Rattle.implib_c_calls.specs.Given.{length_given, place_given, status_given};
ghost use Rattle.implib_c_calls.specs.LibraryWith.{given_options, mark_length};
ghost use Rattle.implib_c_calls.specs.Status.{status_number};
ghost use Rattle.implib_c_calls.specs.Warnings.{kind_number};
ghost use Rattle.implib_c_calls.specs.WarningsAnswer.{EncodesWarnings, HasNoWarnings};
ghost use Rattle.implib_c_calls.specs.WarningsAnswer.{IsEncodingOf, PushesWarning, WarningsAnswers};
ghost use Rattle.implib_rules.specs.Options.{library_options_view};
ghost use Rattle.implib_rules.specs.Warnings.{notice_view, warning_view};
ghost use Rattle.std.specs.Prelude.{◌≡◌, ◌<◌, ◌≤◌, IfErr, IfOk, OnOk, map};

use crate::definition::{push_number, push_text};
use crate::library_with::{OptionsArguments, failure_in, mark_length, options_with};
use crate::outcome::{Failure, put_encoding};
use implib_rules::library::{Refusal, member_count};
use implib_rules::options::LibraryOptions;
use implib_rules::places::{export_lines, read_with_places};
use implib_rules::text::DefinitionText;
use implib_rules::text_warnings::text_warnings;
use implib_rules::warnings::{Notice, NoticeMessage, Warning, warnings_of};
use std::alloc::{AllocError, Global};

// The number of a kind of warnings.
fn kind_number(notice: &Notice<'_>) -> u64
    ensures { result ≡ kind_number (notice_view notice.now) }
{
    match notice {
        Notice::NoExport => 1,
        Notice::OtherKind => 2,
        Notice::Repeated(..) => 3,
        Notice::RepeatedOrdinal(..) => 4,
        Notice::OpensLine(..) => 5,
        Notice::Lowered(..) => 6,
        Notice::OrdinalLike(_) => 7,
        Notice::Stdcall(_) => 8,
        Notice::NotExported(_) => 9,
        Notice::SecondHeading => 10,
        Notice::Skipped => 11,
        Notice::EndsEarly => 12,
        Notice::StandsAlone(_) => 13,
        Notice::Late(_) => 14,
        Notice::CommentLike(_) => 15,
        Notice::Weak(_) => 16,
    }
}

// Appends a warning, in words with the lines of the exports. An offset that no number of 64 bits is
// counts as want of memory.
fn push_warning(
    alloc: Global,
    bytes: &mut Vec<u8>,
    warning: &Warning<'_>,
    lines: &[usize],
    mark: usize,
) -> Result<(), AllocError>
    ensures { OnOk result (PushesWarning mark (warning_view warning.now) bytes.old.items
        bytes.new.items) }
{
    let Some(offset) = warning.position.offset.checked_add(mark) else {
        return Err(AllocError);
    };
    let words = format!(in alloc; "{}", NoticeMessage(warning.notice, lines))?;
    push_number(bytes, kind_number(&warning.notice))?;
    push_number(bytes, offset as u64)?;
    push_number(bytes, warning.position.line as u64)?;
    push_number(bytes, warning.position.column as u64)?;
    push_text(bytes, words.as_bytes())?;
    Ok(())
}

// Warnings, encoded in words with the lines of the exports.
fn encoding_of(
    alloc: Global,
    warnings: &[Warning<'_>],
    lines: &[usize],
    mark: usize,
) -> Result<Vec<u8>, AllocError>
    ensures { IfOk result (λ bytes. IsEncodingOf mark (map warning_view warnings.now) bytes.items) }
{
    let mut bytes = Vec::new(alloc);
    push_number(&mut bytes, warnings.len() as u64)?;
    for warning in warnings {
        push_warning(alloc, &mut bytes, warning, lines, mark)?;
    }
    Ok(bytes)
}

// The warnings of a text for these options, encoded.
fn read_warnings(
    alloc: Global,
    text: &[u8],
    options: &LibraryOptions<'_>,
) -> Result<Vec<u8>, Refusal>
    ensures ok { IfOk result (λ bytes. EncodesWarnings text.now (library_options_view options.now)
        bytes.items) }
    ensures refused { IfErr result (HasNoWarnings text.now (library_options_view options.now)) }
{
    let read = DefinitionText::new(alloc, text)?;
    let words = match read.text() {
        Ok(words) => words,
        Err(position) => return Err(Refusal::NotUtf8(position)),
    };
    let (def, places) = match read_with_places(alloc, words) {
        Ok(read) => read,
        Err(error) => return Err(Refusal::from(error)),
    };
    let count = member_count(alloc, text, options)?;
    let exports = def.exports.as_slice();
    let mut warnings = text_warnings(alloc, text)?;
    let mut others = warnings_of(alloc, exports, places.as_slice(), options, count)?;
    warnings.append(&mut others)?;
    let lines = export_lines(alloc, places.as_slice())?;
    let bytes = encoding_of(
        alloc,
        warnings.as_slice(),
        lines.as_slice(),
        mark_length(text),
    )?;
    Ok(bytes)
}

/// Puts the warnings that the program has of a text with these options at the beginning of the
/// buffer. Gives the length of their encoding. An error leaves the buffer as it was.
///
/// # Errors
///
/// The first that applies: `UnknownMachine`, `UnknownFlavor`, `UnknownFlags`, `DllNotUtf8`,
/// `NotUtf8`, `SyntaxError`, `BufferTooSmall`. `OutOfMemory` can precede the last three, and come
/// where none applies.
pub fn warnings_into(
    alloc: Global,
    text: &[u8],
    arguments: OptionsArguments<'_>,
    buffer: &mut [u8],
) -> Result<usize, Failure>
    ensures { WarningsAnswers text.now (given_options arguments.entry) buffer.old buffer.new
        (length_given result) (place_given result) (status_number (status_given result)) }
{
    let options = match options_with(arguments) {
        Ok(options) => options,
        Err(failure) => return Err(failure),
    };
    let bytes = match read_warnings(alloc, text, &options) {
        Ok(bytes) => bytes,
        Err(refusal) => return Err(failure_in(text, refusal)),
    };
    put_encoding(buffer, bytes.as_slice())
}
