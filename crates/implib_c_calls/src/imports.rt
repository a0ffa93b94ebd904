//! From a library to what its members import, encoded in a buffer.

ghost use Rattle.implib_archive.specs.Pushed.{Pushes};
ghost use Rattle.implib_c_calls.specs.Encoding.{encoded_list};
ghost use Rattle.implib_c_calls.specs.Given.{IsEncoding, length_given, status_given};
ghost use Rattle.implib_c_calls.specs.Imports.{Fits, alias_row, encoded_row, encoded_rows};
ghost use Rattle.implib_c_calls.specs.Imports.{import_row, kind_number, other_row};
ghost use Rattle.implib_c_calls.specs.ImportsAnswer.{EncodesImports, ImportsAnswers, LacksImports};
ghost use Rattle.implib_c_calls.specs.ImportsAnswer.{row_of_found, row_view};
ghost use Rattle.implib_c_calls.specs.Status.{status_number};
ghost use Rattle.implib_read.specs.AliasViews.{alias_view};
ghost use Rattle.implib_read.specs.ClassViews.{imported_view};
ghost use Rattle.std.specs.Prelude.{◌≡◌, All, IfErr, IfOk, OnOk, map};

use crate::definition::{push_number, push_text};
use crate::outcome::{Failure, put_encoding};
use implib_read::{
    AliasFound, AskFound, ImportFound, ImportKind, Library, MemberClass, MemberRead, linked_symbol,
};
use std::alloc::{AllocError, Global};

/// A member of a library, as C gets it.
#[derive(Clone, Copy)]
pub struct Row<'a> {
    kind: u64,
    offset: usize,
    dll: &'a [u8],
    symbol: &'a [u8],
    machine: u16,
    by_name: u64,
    asked: &'a [u8],
    number: u16,
}

// The number of a kind of imports.
fn kind_number(kind: ImportKind) -> u64
    ensures { result ≡ kind_number kind }
{
    match kind {
        ImportKind::Code => 1,
        ImportKind::Data => 2,
        ImportKind::Const => 3,
        ImportKind::CodeOrConst => 4,
        ImportKind::Delayed => 10,
    }
}

// The row of an import.
fn import_row<'m, 'a: 'm>(offset: usize, import: &'m ImportFound<'a>) -> Row<'m>
    ensures { row_view result ≡ import_row offset (imported_view import.now) }
{
    let (by_name, asked, number) = match import.ask {
        AskFound::Name(name, hint) => (1, name, hint),
        AskFound::Ordinal(ordinal) => (0, b"".as_slice(), ordinal),
    };
    Row {
        kind: kind_number(import.kind),
        offset,
        dll: import.dll,
        symbol: linked_symbol(&import.declared),
        machine: import.machine,
        by_name,
        asked,
        number,
    }
}

// The row of an alias.
fn alias_row<'a>(offset: usize, alias: &AliasFound<'a>) -> Row<'a>
    ensures { row_view result ≡ alias_row offset alias.now.weak.now alias.now.target.now }
{
    Row {
        kind: 5,
        offset,
        dll: b"",
        symbol: alias.weak,
        machine: 0,
        by_name: 1,
        asked: alias.target,
        number: 0,
    }
}

// The row of a member of another kind.
fn other_row<'a>(kind: u64, offset: usize) -> Row<'a>
    ensures { row_view result ≡ other_row kind offset }
{
    Row {
        kind,
        offset,
        dll: b"",
        symbol: b"",
        machine: 0,
        by_name: 0,
        asked: b"",
        number: 0,
    }
}

/// The row of a member.
pub fn row_of<'m, 'a: 'm>(member: &'m MemberRead<'a>) -> Row<'m>
    ensures { row_view result ≡ row_of_found member.now }
{
    match &member.class {
        MemberClass::Import(import) => import_row(member.offset, import),
        MemberClass::Alias(alias) => alias_row(member.offset, alias),
        MemberClass::Descriptor
        | MemberClass::NullDescriptor
        | MemberClass::NullThunk
        | MemberClass::Head
        | MemberClass::Tail => other_row(6, member.offset),
        MemberClass::DelayImport => other_row(7, member.offset),
        MemberClass::Other => other_row(8, member.offset),
        MemberClass::NotUnderstood => other_row(9, member.offset),
    }
}

// Appends a row.
fn push_row(bytes: &mut Vec<u8>, row: Row<'_>) -> Result<(), AllocError>
    ensures appended { OnOk result
        (Pushes bytes.old.items bytes.new.items (encoded_row (row_view row.entry))) }
    ensures fit { Fits (row_view row.entry) }
{
    push_number(bytes, row.kind)?;
    push_number(bytes, row.offset as u64)?;
    push_text(bytes, row.dll)?;
    push_text(bytes, row.symbol)?;
    push_number(bytes, u64::from(row.machine))?;
    push_number(bytes, row.by_name)?;
    push_text(bytes, row.asked)?;
    push_number(bytes, u64::from(row.number))
}

/// Appends rows: their number, and each of them.
pub fn push_rows(bytes: &mut Vec<u8>, rows: &[Row<'_>]) -> Result<(), AllocError>
    ensures appended { OnOk result (Pushes bytes.old.items bytes.new.items
        (encoded_list encoded_row (map row_view rows.now))) }
    ensures fit { OnOk result (All (λ r. Fits (row_view r)) rows.now) }
{
    push_number(bytes, rows.len() as u64)?;
    for row in rows {
        push_row(bytes, *row)?;
    }
    Ok(())
}

// The rows of members, in order.
fn rows_of<'m, 'a: 'm>(
    alloc: Global,
    members: &'m [MemberRead<'a>],
) -> Result<Vec<Row<'m>>, AllocError>
    ensures { IfOk result (λ rows. map row_view rows.items ≡ map row_of_found members.now) }
{
    let mut rows = Vec::with_capacity(alloc, members.len())?;
    for member in members {
        rows.push(row_of(member))?;
    }
    Ok(rows)
}

// The rows of members, encoded.
fn encoding_of(alloc: Global, members: &[MemberRead<'_>]) -> Result<Vec<u8>, AllocError>
    ensures { IfOk result (λ bytes. IsEncoding encoded_rows (All Fits)
        (map row_of_found members.now) bytes.items) }
{
    let rows = rows_of(alloc, members)?;
    let mut bytes = Vec::new(alloc);
    push_rows(&mut bytes, &rows)?;
    Ok(bytes)
}

// The rows of a library, encoded.
fn read_imports(alloc: Global, library: &[u8]) -> Result<Vec<u8>, Failure>
    ensures ok { IfOk result (λ bytes. EncodesImports library.now bytes.items) }
    ensures lacks { IfErr result (LacksImports library.now) }
{
    let Ok(found) = Library::read(alloc, library) else {
        return Err(Failure::OutOfMemory);
    };
    let Some(library) = found else {
        return Err(Failure::NotALibrary);
    };
    match encoding_of(alloc, library.members.as_slice()) {
        Ok(bytes) => Ok(bytes),
        Err(_) => Err(Failure::OutOfMemory),
    }
}

/// Puts what the members of a library are for, and import, at the beginning of the buffer. Gives
/// the length of their encoding. An error leaves the buffer as it was.
///
/// # Errors
///
/// The first that applies: `NotALibrary`, `BufferTooSmall`. `OutOfMemory` can precede both.
pub fn imports_into(alloc: Global, library: &[u8], buffer: &mut [u8]) -> Result<usize, Failure>
    ensures { ImportsAnswers library.now buffer.old buffer.new (length_given result)
        (status_number (status_given result)) }
{
    let bytes = match read_imports(alloc, library) {
        Ok(bytes) => bytes,
        Err(failure) => return Err(failure),
    };
    put_encoding(buffer, bytes.as_slice())
}
