//! From a library and a definition to how they compare, encoded in a buffer.

ghost use Rattle.implib_c_calls.specs.Check.{ToldFits, encoded_told, flagged, told_of};
ghost use Rattle.implib_c_calls.specs.Check.{verdict_number, working_number};
ghost use Rattle.implib_c_calls.specs.CheckAnswer.{CheckAnswers, EncodesCheck};
ghost use Rattle.implib_c_calls.specs.Given.{IsEncoding, length_given, place_given, status_given};
ghost use Rattle.implib_c_calls.specs.ImportsAnswer.{row_of_found, row_view};
ghost use Rattle.implib_c_calls.specs.LibraryWith.{given_options};
ghost use Rattle.implib_c_calls.specs.Status.{status_number};
ghost use Rattle.implib_read.specs.ArchiveViews.{archive_view};
ghost use Rattle.implib_read.specs.ClassViews.{member_read_view};
ghost use Rattle.implib_rules.specs.Library.{IsRefusalOfBytes};
ghost use Rattle.implib_rules.specs.Options.{library_options_view};
ghost use Rattle.std.specs.Prelude.{◌≡◌, ◌++◌, ◌∷◌, [], false, get_or, IfErr, IfOk, OnOk, map};

use crate::definition::push_number;
use crate::imports::{Row, push_rows, row_of};
use crate::library_with::{OptionsArguments, failure_in, options_with};
use crate::outcome::{Failure, put_encoding};
use implib_compare::compare::{Verdict, compare};
use implib_compare::meant::library_meant;
use implib_compare::working::{Working, examine};
use implib_read::laws::own_members_found;
use implib_read::{Library, MemberRead};
use implib_rules::library::Refusal;
use implib_rules::options::LibraryOptions;
use std::alloc::{AllocError, Global};

// The number of a verdict.
fn verdict_number(verdict: Verdict) -> u64
    ensures { result ≡ verdict_number verdict }
{
    match verdict {
        Verdict::Same => 1,
        Verdict::Different => 2,
        Verdict::NotDecided => 3,
    }
}

// The number of whether a library works.
fn working_number(working: Working) -> u64
    ensures { result ≡ working_number working }
{
    match working {
        Working::Works => 1,
        Working::Broken => 2,
        Working::NotDecided => 3,
    }
}

// The flag of a number; a number that is none has none.
fn flag_at(flags: &[bool], index: usize) -> bool
    ensures { result ≡ get_or flags.now index false }
{
    match flags.get(index) {
        Some(flag) => *flag,
        None => false,
    }
}

// Appends the row of a member, if its flag is set.
fn push_flagged<'m, 'a: 'm>(
    rows: &mut Vec<Row<'m>>,
    flag: bool,
    member: &'m MemberRead<'a>,
) -> Result<(), AllocError>
    ensures { OnOk result (map row_view rows.new.items ≡ map row_view rows.old.items
        ++ flagged (flag ∷ []) (row_of_found member.now ∷ [])) }
{
    if !flag {
        return Ok(());
    }
    rows.push(row_of(member))?;
    Ok(())
}

// The rows of the members whose flag is set, in order.
fn flagged_rows<'m, 'a: 'm>(
    alloc: Global,
    flags: &[bool],
    members: &'m [MemberRead<'a>],
) -> Result<Vec<Row<'m>>, AllocError>
    ensures { IfOk result
        (λ rows. map row_view rows.items ≡ flagged flags.now (map row_of_found members.now)) }
{
    let mut rows = Vec::new(alloc);
    for i in 0..members.len() {
        push_flagged(&mut rows, flag_at(flags, i), &members[i])?;
    }
    Ok(rows)
}

// What is told of a library beside the members of another, encoded.
fn encoding_of(
    alloc: Global,
    library: &Library<'_>,
    meant: &[MemberRead<'_>],
) -> Result<Vec<u8>, AllocError>
    ensures { IfOk result (λ bytes. IsEncoding encoded_told ToldFits
        (told_of (archive_view library.now.archive) (map member_read_view library.now.members.items)
        (map member_read_view meant.now))
        bytes.items) }
{
    let members = library.members.as_slice();
    let found = compare(alloc, members, meant)?;
    let examined = examine(alloc, library)?;
    let extra = flagged_rows(alloc, &found.left, members)?;
    let missing = flagged_rows(alloc, &found.right, meant)?;
    let mut bytes = Vec::new(alloc);
    push_number(&mut bytes, verdict_number(found.verdict))?;
    push_number(&mut bytes, working_number(examined.working))?;
    push_rows(&mut bytes, &extra)?;
    push_rows(&mut bytes, &missing)?;
    Ok(bytes)
}

// What is told of a library beside the one that a text has for these options, encoded.
fn read_check(
    alloc: Global,
    library: &Library<'_>,
    text: &[u8],
    options: &LibraryOptions<'_>,
) -> Result<Vec<u8>, Refusal>
    ensures ok { IfOk result
        (λ bytes. EncodesCheck (archive_view library.now.archive)
        (map member_read_view library.now.members.items)
        text.now (library_options_view options.now) bytes.items) }
    ensures refused { IfErr result (IsRefusalOfBytes text.now (library_options_view options.now)) }
{
    own_members_found();
    let file = library_meant(alloc, text, options)?;
    let Some(meant) = Library::read(alloc, &file)? else {
        unreachable!();
    };
    let bytes = encoding_of(alloc, library, &meant.members)?;
    Ok(bytes)
}

/// Puts how a library compares with what a text means under these options at the beginning of the
/// buffer. Gives the length of its encoding. An error leaves the buffer as it was.
///
/// # Errors
///
/// The first that applies: `UnknownMachine`, `UnknownFlavor`, `UnknownFlags`, `DllNotUtf8`,
/// `NotALibrary`, `NotUtf8`, `SyntaxError`, `NoDllName`, `RefusedAt`, `NoArchive`,
/// `BufferTooSmall`. `OutOfMemory` can precede the last seven, and come where none applies.
pub fn check_into(
    alloc: Global,
    library: &[u8],
    text: &[u8],
    arguments: OptionsArguments<'_>,
    buffer: &mut [u8],
) -> Result<usize, Failure>
    ensures { CheckAnswers library.now text.now (given_options arguments.entry) buffer.old
        buffer.new
        (length_given result) (place_given result) (status_number (status_given result)) }
{
    let options = match options_with(arguments) {
        Ok(options) => options,
        Err(failure) => return Err(failure),
    };
    let Ok(found) = Library::read(alloc, library) else {
        return Err(Failure::OutOfMemory);
    };
    let Some(found) = found else {
        return Err(Failure::NotALibrary);
    };
    let bytes = match read_check(alloc, &found, text, &options) {
        Ok(bytes) => bytes,
        Err(refusal) => return Err(failure_in(text, refusal)),
    };
    put_encoding(buffer, bytes.as_slice())
}
