//! The front of an archive: its signature, linker members and long names.

ghost use Rattle.implib_archive.specs.Archive.{first_linker, front, linker_label, linkers};
ghost use Rattle.implib_archive.specs.Archive.{name_end, names_bytes, names_label, names_part};
ghost use Rattle.implib_archive.specs.Archive.{place_of, second_linker, sorted_entries, strings_of};
ghost use Rattle.implib_archive.specs.Parts.{padded_part_bytes, signature, u16_le, u32_be, u32_le};
ghost use Rattle.implib_archive.specs.Pushed.{FrontFits, Pushes, label_view, shown};
ghost use Rattle.implib_archive.specs.Written.{Writes, WritesBehind};
ghost use Rattle.implib_archive.specs.declared.kind.Kind.{Kind};
ghost use Rattle.implib_archive.specs.declared.kind.Kind.TheVariants.{Coff};
ghost use Rattle.std.specs.List.{All};
ghost use Rattle.std.specs.Prelude.{◌≡◌, ◌++◌, ◌+◌, ◌*◌, ◌^◌, ◌<◌, ◌≤◌, ◌∷◌, [], OnOk, flat_map};
ghost use Rattle.std.specs.Prelude.{length, ℕ};

use crate::bytes::{
    Label, Texts, push_header, push_padding, push_u16_le, push_u32_be, push_u32_le,
};
use crate::error::WriteError;
use crate::kind::Kind;
use crate::long_names::LongNames;
use crate::offsets::strings_size;
use crate::output::{PIECE, put, put_piece};
use std::alloc::AllocError;
use std::io;

// How many numbers of 4 bytes go into a piece.
const NUMBERS: usize = PIECE / 4;

/// Writes the front of an archive, a piece at a time, through an empty buffer.
pub fn write_front<W: io::Write>(
    writer: &mut W,
    piece: &mut Vec<u8>,
    kind: Kind,
    entries: &[(&str, usize)],
    sorted: &[(&str, usize)],
    names: &LongNames,
    places: &[u32],
) -> Result<(), WriteError>
    requires empty { piece.old.items ≡ [] }
    requires ordered { kind ≡ Coff → shown sorted.now ≡ sorted_entries (shown entries.now) }
    requires fits { FrontFits kind places.now (shown entries.now) }
    requires short { names.now.size < 2 ^ 32 }
    requires measured { names.now.size
        ≡ length (names_bytes kind (shown names.now.offsets.entries)) }
    ensures { Writes (W.contents writer.old) (W.contents writer.new)
        (front kind places.now (shown entries.now) (shown names.now.offsets.entries)) result }
{
    piece.extend_from_slice(b"!<arch>\n")?;
    write_linkers(writer, piece, kind, entries, sorted, places)?;
    push_names(piece, kind, names)?;
    put(writer, piece.as_slice())?;
    Ok(())
}

// Writes the linker members behind what the buffer has.
fn write_linkers<W: io::Write>(
    writer: &mut W,
    piece: &mut Vec<u8>,
    kind: Kind,
    entries: &[(&str, usize)],
    sorted: &[(&str, usize)],
    places: &[u32],
) -> Result<(), WriteError>
    requires ordered { kind ≡ Coff → shown sorted.now ≡ sorted_entries (shown entries.now) }
    requires fits { FrontFits kind places.now (shown entries.now) }
    ensures { WritesBehind (W.contents writer.old) (W.contents writer.new) piece.old.items
        piece.new.items (linkers kind places.now (shown entries.now)) result }
{
    match kind {
        Kind::Coff => {
            write_first_linker(writer, piece, entries, places)?;
            write_second_linker(writer, piece, sorted, places)
        }
        Kind::Gnu => {
            if entries.is_empty() {
                return Ok(());
            }
            write_first_linker(writer, piece, entries, places)
        }
    }
}

// Writes the first linker member.
fn write_first_linker<W: io::Write>(
    writer: &mut W,
    piece: &mut Vec<u8>,
    entries: &[(&str, usize)],
    places: &[u32],
) -> Result<(), WriteError>
    requires numbered { All (λ e. (0 < e.1) × (e.1 ≤ length places.now)) (shown entries.now) }
    requires short { 4 + 4 * length entries.now + length (strings_of (shown entries.now)) < 2 ^ 32 }
    ensures { WritesBehind (W.contents writer.old) (W.contents writer.new) piece.old.items
        piece.new.items
        (padded_part_bytes linker_label 0 (first_linker places.now (shown entries.now))) result }
{
    let size = 4 + 4 * entries.len() + strings_size(entries) as usize;
    push_header(piece, &linker_label(), size + size % 2)?;
    push_u32_be(piece, entries.len() as u32)?;
    write_entry_places(writer, piece, entries, places)?;
    write_strings(writer, piece, entries)?;
    push_padding(piece, 0, size)?;
    Ok(())
}

// Writes the second linker member.
fn write_second_linker<W: io::Write>(
    writer: &mut W,
    piece: &mut Vec<u8>,
    sorted: &[(&str, usize)],
    places: &[u32],
) -> Result<(), WriteError>
    requires numbers { All (λ e. e.1 < 2 ^ 16) (shown sorted.now) }
    requires short { 8 + 4 * length places.now + 2 * length sorted.now
        + length (strings_of (shown sorted.now)) < 2 ^ 32 }
    ensures { WritesBehind (W.contents writer.old) (W.contents writer.new) piece.old.items
        piece.new.items
        (padded_part_bytes linker_label 0 (second_linker places.now (shown sorted.now))) result }
{
    let size = 8 + 4 * places.len() + 2 * sorted.len() + strings_size(sorted) as usize;
    push_header(piece, &linker_label(), size + size % 2)?;
    push_u32_le(piece, places.len() as u32)?;
    write_places(writer, piece, places)?;
    push_u32_le(piece, sorted.len() as u32)?;
    write_numbers(writer, piece, sorted)?;
    write_strings(writer, piece, sorted)?;
    push_padding(piece, 0, size)?;
    Ok(())
}

// Appends the long names member, where there is a long name.
fn push_names(out: &mut Vec<u8>, kind: Kind, names: &LongNames) -> Result<(), AllocError>
    requires short { names.now.size < 2 ^ 32 }
    requires measured { names.now.size
        ≡ length (names_bytes kind (shown names.now.offsets.entries)) }
    ensures { OnOk result
        (Pushes out.old.items out.new.items
        (names_part (names_bytes kind (shown names.now.offsets.entries)))) }
{
    if names.size == 0 {
        return Ok(());
    }
    let size = names.size as usize;
    push_header(out, &names_label(), size + size % 2)?;
    names.push_names(out, kind)?;
    push_padding(out, b'\n', size)
}

// Appends the offset of each entry's member.
fn push_entry_places(
    out: &mut Vec<u8>,
    entries: &[(&str, usize)],
    places: &[u32],
) -> Result<(), AllocError>
    requires { All (λ e. (0 < e.1) × (e.1 ≤ length places.now)) (shown entries.now) }
    ensures { OnOk result (Pushes out.old.items out.new.items
        (flat_map (λ e. u32_be (place_of places.now e.1)) (shown entries.now))) }
{
    for entry in entries {
        push_u32_be(out, places[entry.1 - 1])?;
    }
    Ok(())
}

// Appends the offsets of the members.
fn push_places(out: &mut Vec<u8>, places: &[u32]) -> Result<(), AllocError>
    ensures { OnOk result (Pushes out.old.items out.new.items (flat_map u32_le places.now)) }
{
    for place in places {
        push_u32_le(out, *place)?;
    }
    Ok(())
}

// Appends the number of each entry's member.
fn push_numbers(out: &mut Vec<u8>, entries: &[(&str, usize)]) -> Result<(), AllocError>
    requires { All (λ e. e.1 < 2 ^ 16) (shown entries.now) }
    ensures { OnOk result
        (Pushes out.old.items out.new.items (flat_map (λ e. u16_le e.1) (shown entries.now))) }
{
    for entry in entries {
        push_u16_le(out, entry.1 as u16)?;
    }
    Ok(())
}

// Appends the symbols of entries, each ended by a NUL.
fn push_strings(out: &mut Vec<u8>, entries: &[(&str, usize)]) -> Result<(), AllocError>
    ensures { OnOk result (Pushes out.old.items out.new.items (strings_of (shown entries.now))) }
{
    for entry in entries {
        push_ended(out, entry.0, b"\0")?;
    }
    Ok(())
}

// Writes the offset of each entry's member, a piece at a time.
fn write_entry_places<W: io::Write>(
    writer: &mut W,
    piece: &mut Vec<u8>,
    entries: &[(&str, usize)],
    places: &[u32],
) -> Result<(), WriteError>
    requires { All (λ e. (0 < e.1) × (e.1 ≤ length places.now)) (shown entries.now) }
    ensures { WritesBehind (W.contents writer.old) (W.contents writer.new) piece.old.items
        piece.new.items (flat_map (λ e. u32_be (place_of places.now e.1)) (shown entries.now))
        result }
{
    let mut done = 0;
    while done < entries.len() {
        let end = done + NUMBERS.min(entries.len() - done);
        push_entry_places(piece, &entries[done..end], places)?;
        put_piece(writer, piece)?;
        done = end;
    }
    Ok(())
}

// Writes the offsets of the members, a piece at a time.
fn write_places<W: io::Write>(
    writer: &mut W,
    piece: &mut Vec<u8>,
    places: &[u32],
) -> Result<(), WriteError>
    ensures { WritesBehind (W.contents writer.old) (W.contents writer.new) piece.old.items
        piece.new.items (flat_map u32_le places.now) result }
{
    let mut done = 0;
    while done < places.len() {
        let end = done + NUMBERS.min(places.len() - done);
        push_places(piece, &places[done..end])?;
        put_piece(writer, piece)?;
        done = end;
    }
    Ok(())
}

/// Writes the number of each entry's member, a piece at a time.
pub fn write_numbers<W: io::Write>(
    writer: &mut W,
    piece: &mut Vec<u8>,
    entries: &[(&str, usize)],
) -> Result<(), WriteError>
    requires { All (λ e. e.1 < 2 ^ 16) (shown entries.now) }
    ensures { WritesBehind (W.contents writer.old) (W.contents writer.new) piece.old.items
        piece.new.items (flat_map (λ e. u16_le e.1) (shown entries.now)) result }
{
    let mut done = 0;
    while done < entries.len() {
        let end = done + NUMBERS.min(entries.len() - done);
        push_numbers(piece, &entries[done..end])?;
        put_piece(writer, piece)?;
        done = end;
    }
    Ok(())
}

/// Writes the symbols of entries, each ended by a NUL, a piece at a time.
pub fn write_strings<W: io::Write>(
    writer: &mut W,
    piece: &mut Vec<u8>,
    entries: &[(&str, usize)],
) -> Result<(), WriteError>
    ensures { WritesBehind (W.contents writer.old) (W.contents writer.new) piece.old.items
        piece.new.items (strings_of (shown entries.now)) result }
{
    let mut done = 0;
    while done < entries.len() {
        let end = end_of_piece(entries, done);
        push_strings(piece, &entries[done..end])?;
        put_piece(writer, piece)?;
        done = end;
    }
    Ok(())
}

// The end of the entries from an index on, at least one, whose symbols go into a piece. A symbol
// that is longer makes the buffer grow.
fn end_of_piece(entries: &[(&str, usize)], start: usize) -> usize
    requires { start < length entries.now }
    ensures some { start < result }
    ensures within { result ≤ length entries.now }
{
    let mut room = PIECE;
    let mut end = start;
    while end < entries.len() && entries[end].0.len() < room {
        room -= entries[end].0.len() + 1;
        end += 1;
    }
    end.max(start + 1)
}

// Appends a text and what ends it.
pub(crate) fn push_ended(out: &mut Vec<u8>, text: &str, end: &[u8]) -> Result<(), AllocError>
    ensures { OnOk result (Pushes out.old.items out.new.items (text.now ++ end.now)) }
{
    out.extend_from_slice(text.as_bytes())?;
    out.extend_from_slice(end)
}

// The texts in the header of a linker member.
#[tactic(auto, unfolding(crate::specs::Archive::linker_label))]
fn linker_label() -> Label<'static>
    ensures { label_view result ≡ linker_label }
{
    Label {
        name: b"/",
        name_end: b"",
        texts: Texts::Linker,
    }
}

// The texts in the header of the long names member.
#[tactic(auto, unfolding(crate::specs::Archive::names_label))]
fn names_label() -> Label<'static>
    ensures { label_view result ≡ names_label }
{
    Label {
        name: b"//",
        name_end: b"",
        texts: Texts::LongNames,
    }
}
