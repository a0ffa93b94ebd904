//! Objects.

ghost use Rattle.std.specs.Prelude.{◌≡◌, ℕ, ◌+◌, ◌<◌, ◌≤◌, ◌^◌, length, drop, map, slice_get};
ghost use Rattle.std.specs.Prelude.{IsSome, IfOk};
ghost use Rattle.std.specs.Option.{option_and_then, option_map};
ghost use Rattle.implib.specs.Formats.Object.{before_nul, data_at, each_at, entries_at, name_of};
ghost use Rattle.implib.specs.Formats.Object.{relocation_at, relocation_of};
ghost use Rattle.implib.specs.Formats.Object.{section_at, section_of, strings_at, symbol_of};
ghost use Rattle.implib_read.specs.Objects.{begins_with_zeros, entries_found, entry_at};
ghost use Rattle.implib_read.specs.Objects.{name_length, object_found, object_of_found};
ghost use Rattle.implib_read.specs.Objects.{relocations_of, room_after, within_room};
ghost use Rattle.implib_read.specs.ObjectViews.{entry_view, object_view, section_view, symbol_view};

use crate::fields::{before_nul, behind, bytes_at, u16_at, u32_at, up_to_nul};
use implib::coff::object::Relocation;
use std::alloc::{AllocError, Global};

/// A section.
#[derive(Clone, Copy)]
pub struct Section<'a> {
    /// 8 bytes, filled with NUL.
    pub name: &'a [u8],
    pub flags: u32,
    pub bytes: &'a [u8],
    /// The relocations, in records of 10 bytes.
    pub relocations: &'a [u8],
}

/// A symbol.
#[derive(Clone, Copy)]
pub struct Symbol<'a> {
    pub name: &'a [u8],
    pub value: u32,
    /// Counted from 1. 0 is undefined, 0xFFFF absolute, 0xFFFE for debuggers.
    pub section: u16,
    pub kind: u16,
    pub class: u8,
}

/// An entry of a symbol table: a symbol, or an auxiliary record of the symbol before it, of 18
/// bytes.
#[derive(Clone, Copy)]
pub enum Entry<'a> {
    Symbol(Symbol<'a>),
    Auxiliary(&'a [u8]),
}

/// An object. A symbol's index is that of its entry, from 0.
#[derive(Drop)]
pub struct Object<'a> {
    pub machine: u16,
    pub time: u32,
    pub optional_header_size: u16,
    pub characteristics: u16,
    pub sections: Vec<Section<'a>>,
    pub entries: Vec<Entry<'a>>,
}

/// A relocation's record of 10 bytes.
#[tactic(auto, unfolding(implib::specs::Formats::Object::relocation_of))]
pub(crate) fn relocation_of(record_bytes: &[u8]) -> Relocation
    requires { length record_bytes.now ≡ 10 }
    ensures { result ≡ relocation_of record_bytes.now }
{
    Relocation {
        offset: u32_at(record_bytes, 0),
        symbol: u32_at(record_bytes, 4),
        kind: u16_at(record_bytes, 8),
    }
}

impl Section<'_> {
    /// The relocation of an index, from 0.
    #[tactic(auto, using(crate::proofs::Records::record_at))]
    pub fn relocation(&self, index: usize) -> Option<Relocation>
        ensures { result ≡ slice_get (section_view self.now).relocations index }
    {
        if index < self.relocations.len() / 10 {
            Some(relocation_of(&self.relocations[10 * index..10 * index + 10]))
        } else {
            None
        }
    }
}

/// A section's data. None is in the file where its offset is 0.
#[tactic(auto, unfolding(implib::specs::Formats::Object::data_at))]
fn data_at(bytes: &[u8], offset: usize, size: usize) -> Option<&[u8]>
    ensures { option_map (λ found. found.now) result ≡ data_at bytes.now offset size }
{
    if offset == 0 {
        Some(&[])
    } else {
        bytes_at(bytes, offset, size)
    }
}

/// The records of a section's relocations.
fn relocations_at(bytes: &[u8], offset: usize, count: usize) -> Option<&[u8]>
    requires { count < 2 ^ 16 }
    ensures { option_map (λ found. relocations_of found.now) result
        ≡ each_at (relocation_at bytes.now) offset 10 count }
{
    if count == 0 {
        Some(&[])
    } else {
        bytes_at(bytes, offset, 10 * count)
    }
}

/// The section that a header of 40 bytes describes.
#[tactic(auto, unfolding(implib::specs::Formats::Object::section_of))]
fn section_of<'a>(bytes: &'a [u8], header: &'a [u8]) -> Option<Section<'a>>
    requires { length header.now ≡ 40 }
    ensures { option_map section_view result ≡ section_of bytes.now header.now }
{
    let Some(found) = data_at(
        bytes,
        u32_at(header, 20) as usize,
        u32_at(header, 16) as usize,
    ) else {
        return None;
    };
    let Some(relocations) = relocations_at(
        bytes,
        u32_at(header, 24) as usize,
        u16_at(header, 32) as usize,
    ) else {
        return None;
    };
    Some(Section {
        name: &header[..8],
        flags: u32_at(header, 36),
        bytes: found,
        relocations,
    })
}

/// The section whose header is at an offset.
#[tactic(auto, unfolding(implib::specs::Formats::Object::section_at))]
fn section_at(bytes: &[u8], offset: usize) -> Option<Section<'_>>
    ensures found { option_map section_view result ≡ section_at bytes.now offset }
    ensures within { IsSome result → offset + 40 ≤ length bytes.now }
{
    match bytes_at(bytes, offset, 40) {
        Some(header) => section_of(bytes, header),
        None => None,
    }
}

/// The sections whose headers begin at an offset.
fn sections_at(
    alloc: Global,
    bytes: &[u8],
    offset: usize,
    count: u16,
) -> Result<Option<Vec<Section<'_>>>, AllocError>
    requires { offset < 2 ^ 17 }
    ensures { IfOk result (λ found. option_map (λ v. map section_view v.items) found
        ≡ each_at (section_at bytes.now) offset 40 count) }
{
    let mut sections = Vec::new(alloc);
    let mut place = offset;
    let mut left = count;
    while left > 0 {
        let Some(section) = section_at(bytes, place) else {
            return Ok(None);
        };
        sections.push(section)?;
        place += 40;
        left -= 1;
    }
    Ok(Some(sections))
}

/// The string table at an offset: its size counts the four bytes of the size.
#[tactic(auto, unfolding(implib::specs::Formats::Object::strings_at))]
fn strings_at(bytes: &[u8], offset: usize) -> Option<&[u8]>
    ensures found { option_map (λ found. found.now) result ≡ strings_at bytes.now offset }
    ensures within { IsSome result → offset ≤ length bytes.now }
{
    match bytes_at(bytes, offset, 4) {
        Some(size) => bytes_at(bytes, offset, u32_at(size, 0) as usize),
        None => None,
    }
}

/// The text at an offset of the string table.
fn string_at(strings: &[u8], offset: usize) -> Option<&[u8]>
    ensures { option_map (λ found. found.now) result ≡ before_nul (drop offset strings.now) }
{
    before_nul(behind(strings, offset))
}

/// Whether a name's field begins with four zero bytes, so that the name is in the string table.
fn begins_with_zeros(field: &[u8]) -> bool
    requires { 4 ≤ length field.now }
    ensures { result ≡ begins_with_zeros field.now }
{
    field[0] == 0 && field[1] == 0 && field[2] == 0 && field[3] == 0
}

/// The name in a field of 8 bytes: itself, or after four zero bytes in the string table.
#[tactic(auto, using(crate::proofs::Texts::name_found))]
fn name_of<'a>(strings: &'a [u8], field: &'a [u8]) -> Option<&'a [u8]>
    requires { length field.now ≡ 8 }
    ensures { option_map (λ found. found.now) result ≡ name_of strings.now field.now }
{
    if begins_with_zeros(field) {
        string_at(strings, u32_at(field, 4) as usize)
    } else {
        Some(up_to_nul(field))
    }
}

/// The symbol in a record of 18 bytes.
#[tactic(auto, unfolding(implib::specs::Formats::Object::symbol_of))]
fn symbol_of<'a>(strings: &'a [u8], record_bytes: &'a [u8]) -> Option<Symbol<'a>>
    requires { length record_bytes.now ≡ 18 }
    ensures { option_map symbol_view result ≡ symbol_of strings.now record_bytes.now }
{
    let Some(name) = name_of(strings, &record_bytes[..8]) else {
        return None;
    };
    Some(Symbol {
        name,
        value: u32_at(record_bytes, 8),
        section: u16_at(record_bytes, 12),
        kind: u16_at(record_bytes, 14),
        class: record_bytes[16],
    })
}

/// The entry at an offset, given how many of the records from there on are auxiliary ones; and how
/// many of those after it are.
#[tactic(auto, unfolding(crate::specs::Objects::entry_at))]
fn entry_at<'a>(
    bytes: &'a [u8],
    strings: &'a [u8],
    offset: usize,
    auxiliary: u8,
) -> Option<(Entry<'a>, u8)>
    ensures found { option_map (λ found. (entry_view found.0, found.1)) result
        ≡ entry_at bytes.now strings.now offset auxiliary }
    ensures within { IsSome result → offset + 18 ≤ length bytes.now }
{
    let Some(record_bytes) = bytes_at(bytes, offset, 18) else {
        return None;
    };
    if auxiliary > 0 {
        return Some((Entry::Auxiliary(record_bytes), auxiliary - 1));
    }
    match symbol_of(strings, record_bytes) {
        Some(symbol) => Some((Entry::Symbol(symbol), record_bytes[17])),
        None => None,
    }
}

/// The length of an entry's name.
fn name_length(entry: &Entry) -> usize
    ensures { result ≡ name_length (entry_view entry.now) }
{
    match entry {
        Entry::Symbol(symbol) => symbol.name.len(),
        Entry::Auxiliary(_) => 0,
    }
}

/// The room for names that is left after an entry, of which a number stand before.
fn room_after(room: usize, number: usize, entry: &Entry) -> Option<usize>
    ensures { result ≡ room_after room number (entry_view entry.now) }
{
    if number < 16 {
        return Some(room);
    }
    let length = name_length(entry);
    if length <= room {
        Some(room - length)
    } else {
        None
    }
}

/// The entries from an offset on, if there is room for their names.
fn entries_at<'a>(
    alloc: Global,
    bytes: &'a [u8],
    strings: &'a [u8],
    offset: usize,
    count: u32,
) -> Result<Option<Vec<Entry<'a>>>, AllocError>
    requires { offset < 2 ^ 32 }
    ensures { IfOk result (λ found. option_map (λ v. map entry_view v.items) found
        ≡ option_and_then (within_room (length bytes.now))
        (entries_at bytes.now strings.now offset 0 count)) }
{
    let mut entries = Vec::new(alloc);
    let mut room = bytes.len().saturating_mul(16);
    let mut place = offset;
    let mut auxiliary = 0u8;
    let mut left = count;
    while left > 0 {
        let Some((entry, behind)) = entry_at(bytes, strings, place, auxiliary) else {
            return Ok(None);
        };
        let Some(left_room) = room_after(room, entries.len(), &entry) else {
            return Ok(None);
        };
        entries.push(entry)?;
        room = left_room;
        place += 18;
        auxiliary = behind;
        left -= 1;
    }
    if auxiliary > 0 {
        return Ok(None);
    }
    Ok(Some(entries))
}

/// The entries of the symbol table at an offset, if any, and of the string table after it.
#[tactic(auto, unfolding(crate::specs::Objects::entries_found))]
fn entries_found(
    alloc: Global,
    bytes: &[u8],
    offset: u32,
    records: u32,
) -> Result<Option<Vec<Entry<'_>>>, AllocError>
    ensures { IfOk result (λ found. option_map (λ v. map entry_view v.items) found
        ≡ entries_found bytes.now offset records) }
{
    if records == 0 {
        return Ok(Some(Vec::new(alloc)));
    }
    match strings_at(bytes, offset as usize + 18 * records as usize) {
        Some(strings) => entries_at(alloc, bytes, strings, offset as usize, records),
        None => Ok(None),
    }
}

/// The object that a header of 20 bytes describes.
#[tactic(auto, unfolding(crate::specs::Objects::object_of_found))]
fn object_of_found<'a>(
    alloc: Global,
    bytes: &'a [u8],
    header: &'a [u8],
) -> Result<Option<Object<'a>>, AllocError>
    requires { length header.now ≡ 20 }
    ensures { IfOk result (λ found. option_map object_view found
        ≡ object_of_found bytes.now header.now) }
{
    let sections = sections_at(
        alloc,
        bytes,
        20 + u16_at(header, 16) as usize,
        u16_at(header, 2),
    )?;
    let Some(sections) = sections else {
        return Ok(None);
    };
    let entries = entries_found(alloc, bytes, u32_at(header, 8), u32_at(header, 12))?;
    let Some(entries) = entries else {
        return Ok(None);
    };
    Ok(Some(Object {
        machine: u16_at(header, 0),
        time: u32_at(header, 4),
        optional_header_size: u16_at(header, 16),
        characteristics: u16_at(header, 18),
        sections,
        entries,
    }))
}

impl<'a> Object<'a> {
    /// The object in the bytes, or `None` where an offset or a count of it leads out of them, or
    /// where names that overlap in the string table are, but for the first sixteen, together longer
    /// than sixteen times the bytes.
    ///
    /// Time and memory are linear in the length of the bytes, whatever the counts say.
    #[tactic(auto, unfolding(crate::specs::Objects::object_found))]
    pub fn read(alloc: Global, bytes: &'a [u8]) -> Result<Option<Object<'a>>, AllocError>
        ensures { IfOk result (λ found. option_map object_view found ≡ object_found bytes.now) }
    {
        match bytes_at(bytes, 0, 20) {
            Some(header) => object_of_found(alloc, bytes, header),
            None => Ok(None),
        }
    }
}
