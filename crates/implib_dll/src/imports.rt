//! What an image imports.

ghost use Rattle.std.specs.Prelude.{◌≡◌, ℕ, ◌+◌, ◌*◌, ◌<◌, ◌≤◌, ◌^◌, ◌/◌, length, map, IfOk};
ghost use Rattle.std.specs.Prelude.{IfSome};
ghost use Rattle.implib_dll.specs.Imports.{ask_at, ask_step, asks_in, descriptor_count, dll_at};
ghost use Rattle.implib_dll.specs.Imports.{dll_step, has_address, imports_behind, imports_in};
ghost use Rattle.implib_dll.specs.Imports.{is_by_ordinal, is_null_descriptor, is_null_thunk};
ghost use Rattle.implib_dll.specs.Imports.{lookup_address, lookup_field, named_at, thunk_count};
ghost use Rattle.implib_dll.specs.Imports.{thunk_size};
ghost use Rattle.implib_dll.specs.Outcome.{Gives, each_from};
ghost use Rattle.implib_dll.specs.Sections.{part_at};
ghost use Rattle.implib_dll.specs.Views.{ask_view, imported_view, imports_view, part_view};
ghost use Rattle.implib_dll.specs.Views.{section_view};

use crate::fault::{Cause, ReadError, refused};
use crate::fields::{u16_at, u32_at};
use crate::header::{Header, IMPORT_TABLE, header_for};
use crate::section::{Layout, Part, Section, located, part_at, sections_in};
use crate::target::text_within;
use std::alloc::Global;

/// What a DLL is asked for.
#[derive(Clone, Copy, Debug)]
pub enum Ask<'a> {
    /// An export of this name, without its NUL; the hint is where it may be in the name table.
    Name { text: &'a [u8], hint: u16 },
    Ordinal(u16),
}

/// A DLL by the name that an image gives it, and what it is asked for, in order.
#[derive(Drop)]
pub struct ImportedDll<'a> {
    /// Without its NUL.
    pub dll: &'a [u8],
    pub asks: Vec<Ask<'a>>,
}

/// What an image imports.
#[derive(Drop)]
pub struct Imports<'a> {
    /// As in [`Exports`].
    ///
    /// [`Exports`]: crate::Exports
    pub machine: u16,
    /// In the order of its import directory.
    pub dlls: Vec<ImportedDll<'a>>,
}

/// The size of a thunk.
fn thunk_size(is_pe32_plus: bool) -> usize
    ensures size { result ≡ thunk_size is_pe32_plus }
    ensures least { 4 ≤ result }
    ensures most { result ≤ 8 }
{
    if is_pe32_plus { 8 } else { 4 }
}

/// Whether the thunk at an offset is zero.
fn is_null_thunk(is_pe32_plus: bool, table: &[u8], offset: usize) -> bool
    requires { offset + thunk_size is_pe32_plus ≤ length table.now }
    ensures { result ≡ is_null_thunk is_pe32_plus table.now offset }
{
    if u32_at(table, offset) != 0 {
        return false;
    }
    if is_pe32_plus {
        return u32_at(table, offset + 4) == 0;
    }
    true
}

/// How many whole thunks there is room for in a table.
fn thunk_room(is_pe32_plus: bool, table: &[u8]) -> usize
    ensures { result ≡ length table.now / thunk_size is_pe32_plus }
{
    if is_pe32_plus {
        table.len() / 8
    } else {
        table.len() / 4
    }
}

/// Whether the thunk of a number is zero.
fn ends_at(is_pe32_plus: bool, table: &[u8], number: usize) -> bool
    requires { number < length table.now / thunk_size is_pe32_plus }
    ensures { result ≡ is_null_thunk is_pe32_plus table.now (thunk_size is_pe32_plus * number) }
{
    if is_pe32_plus {
        is_null_thunk(true, table, 8 * number)
    } else {
        is_null_thunk(false, table, 4 * number)
    }
}

/// How many thunks a table has before the one that ends it.
fn thunk_count(is_pe32_plus: bool, table: &[u8]) -> Option<usize>
    ensures count { result ≡ thunk_count is_pe32_plus table.now }
    ensures within { IfSome result (λ count. count < length table.now / thunk_size is_pe32_plus) }
{
    for number in 0..thunk_room(is_pe32_plus, table) {
        if ends_at(is_pe32_plus, table, number) {
            return Some(number);
        }
    }
    None
}

/// Whether a thunk asks by an ordinal.
fn is_by_ordinal(is_pe32_plus: bool, table: &[u8], offset: usize) -> bool
    requires { offset + thunk_size is_pe32_plus ≤ length table.now }
    ensures { result ≡ is_by_ordinal is_pe32_plus table.now offset }
{
    u32_at(table, offset + thunk_size(is_pe32_plus) - 4) >= 0x8000_0000
}

/// Whether a thunk that asks by a name has an address of 31 bits.
fn has_address(is_pe32_plus: bool, table: &[u8], offset: usize) -> bool
    requires { offset + thunk_size is_pe32_plus ≤ length table.now }
    ensures has { result ≡ has_address is_pe32_plus table.now offset }
{
    if u32_at(table, offset) >= 0x8000_0000 {
        return false;
    }
    if is_pe32_plus {
        return u32_at(table, offset + 4) == 0;
    }
    true
}

/// The name at an address, behind its hint, and the room that it leaves.
fn named_at<'a>(
    sections: &[Section<'a>],
    place: usize,
    room: usize,
    rva: u32,
) -> Result<(Ask<'a>, usize), ReadError>
    requires { rva < 2 ^ 31 }
    ensures { Gives (λ found. (ask_view found.0, found.1)) result
        (named_at (map section_view sections.now) place room rva
        (part_at (map section_view sections.now) rva 2)) }
{
    let Some(part) = part_at(sections, rva, 2) else {
        return Err(refused(Cause::AskOutside, place));
    };
    let (text, left) = text_within(sections, rva + 2, Cause::AskOutside, place, room)?;
    let hint = u16_at(part.bytes, 0);
    Ok((Ask::Name { text, hint }, left))
}

/// What the thunk at an offset asks for, and the room that it leaves.
#[tactic(auto, unfolding(crate::specs::Imports::ask_at))]
fn ask_at<'a>(
    sections: &[Section<'a>],
    is_pe32_plus: bool,
    table: &Part,
    offset: usize,
    room: usize,
) -> Result<(Ask<'a>, usize), ReadError>
    requires low { table.now.place < 2 ^ 33 }
    requires within { offset + thunk_size is_pe32_plus ≤ length table.now.bytes.now }
    ensures { Gives (λ found. (ask_view found.0, found.1)) result
        (ask_at (map section_view sections.now) is_pe32_plus (part_view table.now) offset room) }
{
    let size = thunk_size(is_pe32_plus);
    let place = table.place + offset;
    if room < size {
        return Err(refused(Cause::TextsTooLong, place));
    }
    if is_by_ordinal(is_pe32_plus, table.bytes, offset) {
        return Ok((Ask::Ordinal(u16_at(table.bytes, offset)), room - size));
    }
    if !has_address(is_pe32_plus, table.bytes, offset) {
        return Err(refused(Cause::AskOutside, place));
    }
    named_at(sections, place, room - size, u32_at(table.bytes, offset))
}

/// What the thunk of a number asks for, and the room that it leaves.
fn ask_step<'a>(
    sections: &[Section<'a>],
    is_pe32_plus: bool,
    table: &Part,
    number: usize,
    room: usize,
) -> Result<(Ask<'a>, usize), ReadError>
    requires low { table.now.place < 2 ^ 33 }
    requires within { number < length table.now.bytes.now / thunk_size is_pe32_plus }
    ensures { Gives (λ found. (ask_view found.0, found.1)) result
        (ask_step (map section_view sections.now) is_pe32_plus (part_view table.now) number room) }
{
    if is_pe32_plus {
        ask_at(sections, true, table, 8 * number, room)
    } else {
        ask_at(sections, false, table, 4 * number, room)
    }
}

/// What the first thunks of a table ask for, and the room that they leave.
fn each_ask<'a>(
    alloc: Global,
    sections: &[Section<'a>],
    is_pe32_plus: bool,
    table: &Part,
    count: usize,
    room: usize,
) -> Result<(Vec<Ask<'a>>, usize), ReadError>
    requires low { table.now.place < 2 ^ 33 }
    requires within { count ≤ length table.now.bytes.now / thunk_size is_pe32_plus }
    ensures { Gives (λ found. (map ask_view found.0.items, found.1)) result
        (each_from (ask_step (map section_view sections.now) is_pe32_plus (part_view table.now)) 0
        count room) }
{
    let mut asks = Vec::new(alloc);
    let mut left = room;
    for number in 0..count {
        let (ask, next_left) = ask_step(sections, is_pe32_plus, table, number, left)?;
        asks.push(ask)?;
        left = next_left;
    }
    Ok((asks, left))
}

/// What a lookup table asks a DLL for, and the room that it leaves.
#[tactic(auto, unfolding(crate::specs::Imports::asks_in))]
fn asks_in<'a>(
    alloc: Global,
    sections: &[Section<'a>],
    is_pe32_plus: bool,
    dll: &'a [u8],
    place: usize,
    room: usize,
    lookups: &Part,
) -> Result<(ImportedDll<'a>, usize), ReadError>
    requires { lookups.now.place < 2 ^ 33 }
    ensures { Gives (λ found. (imported_view found.0, found.1)) result
        (asks_in (map section_view sections.now) is_pe32_plus dll.now place room
        (part_view lookups.now)) }
{
    let looked_at = &lookups.bytes[..room.min(lookups.bytes.len())];
    let Some(count) = thunk_count(is_pe32_plus, looked_at) else {
        return Err(refused(Cause::LookupTableOpen, place));
    };
    let (asks, left) = each_ask(alloc, sections, is_pe32_plus, lookups, count, room)?;
    Ok((ImportedDll { dll, asks }, left))
}

/// The address of the table by which a descriptor asks.
fn lookup_address(table: &[u8], offset: usize) -> u32
    requires { offset + 20 ≤ length table.now }
    ensures { result ≡ lookup_address table.now offset }
{
    let address = u32_at(table, offset);
    if address == 0 {
        u32_at(table, offset + 16)
    } else {
        address
    }
}

/// The offset in the descriptor of the address of that table.
fn lookup_field(table: &[u8], offset: usize) -> usize
    requires { offset + 20 ≤ length table.now }
    ensures field { result ≡ lookup_field table.now offset }
    ensures near { result ≤ offset + 16 }
{
    if u32_at(table, offset) == 0 {
        offset + 16
    } else {
        offset
    }
}

/// Whether the descriptor at an offset ends the table.
fn is_null_descriptor(table: &[u8], offset: usize) -> bool
    requires { offset + 20 ≤ length table.now }
    ensures { result ≡ is_null_descriptor table.now offset }
{
    u32_at(table, offset + 12) == 0 || u32_at(table, offset + 16) == 0
}

/// How many descriptors a table has before the one that ends it.
fn descriptor_count(table: &[u8]) -> Option<usize>
    ensures count { result ≡ descriptor_count table.now }
    ensures within { IfSome result (λ count. count < length table.now / 20) }
{
    for number in 0..table.len() / 20 {
        if is_null_descriptor(table, 20 * number) {
            return Some(number);
        }
    }
    None
}

/// What the descriptor at an offset says, and the room that it leaves.
#[tactic(auto, unfolding(crate::specs::Imports::dll_at))]
fn dll_at<'a>(
    alloc: Global,
    sections: &[Section<'a>],
    is_pe32_plus: bool,
    table: &Part,
    offset: usize,
    room: usize,
) -> Result<(ImportedDll<'a>, usize), ReadError>
    requires low { table.now.place < 2 ^ 33 }
    requires within { offset + 20 ≤ length table.now.bytes.now }
    ensures { Gives (λ found. (imported_view found.0, found.1)) result
        (dll_at (map section_view sections.now) is_pe32_plus (part_view table.now) offset room) }
{
    let place = table.place + (offset + 12);
    let rva = u32_at(table.bytes, offset + 12);
    let (dll, left) = text_within(sections, rva, Cause::ImportedDllOutside, place, room)?;
    let field = table.place + lookup_field(table.bytes, offset);
    let Some(lookups) = located(sections, lookup_address(table.bytes, offset)) else {
        return Err(refused(Cause::LookupTableOutside, field));
    };
    asks_in(alloc, sections, is_pe32_plus, dll, field, left, &lookups)
}

/// What the descriptor of a number says, and the room that it leaves.
fn dll_step<'a>(
    alloc: Global,
    sections: &[Section<'a>],
    is_pe32_plus: bool,
    table: &Part,
    number: usize,
    room: usize,
) -> Result<(ImportedDll<'a>, usize), ReadError>
    requires low { table.now.place < 2 ^ 33 }
    requires within { 20 * number + 20 ≤ length table.now.bytes.now }
    ensures { Gives (λ found. (imported_view found.0, found.1)) result
        (dll_step (map section_view sections.now) is_pe32_plus (part_view table.now) number room) }
{
    dll_at(alloc, sections, is_pe32_plus, table, 20 * number, room)
}

/// What the first descriptors of a table say, and the room that they leave.
fn each_dll<'a>(
    alloc: Global,
    sections: &[Section<'a>],
    is_pe32_plus: bool,
    table: &Part,
    count: usize,
    room: usize,
) -> Result<(Vec<ImportedDll<'a>>, usize), ReadError>
    requires low { table.now.place < 2 ^ 33 }
    requires within { count ≤ length table.now.bytes.now / 20 }
    ensures { Gives (λ found. (map imported_view found.0.items, found.1)) result
        (each_from (dll_step (map section_view sections.now) is_pe32_plus (part_view table.now)) 0
        count room) }
{
    let mut dlls = Vec::new(alloc);
    let mut left = room;
    for number in 0..count {
        let (dll, next_left) = dll_step(alloc, sections, is_pe32_plus, table, number, left)?;
        dlls.push(dll)?;
        left = next_left;
    }
    Ok((dlls, left))
}

/// What the import directory says, if there is one.
#[tactic(auto, unfolding(crate::specs::Imports::imports_behind))]
fn imports_behind<'a>(
    alloc: Global,
    header: &Header,
    sections: &[Section<'a>],
    room: usize,
) -> Result<Imports<'a>, ReadError>
    ensures { Gives imports_view result
        (imports_behind header.now (map section_view sections.now) room) }
{
    if header.entry.rva == 0 {
        return Ok(Imports {
            machine: header.machine,
            dlls: Vec::new(alloc),
        });
    }
    let Some(table) = located(sections, header.entry.rva) else {
        return Err(refused(Cause::ImportDirectoryOutside, header.entry.place));
    };
    let Some(count) = descriptor_count(table.bytes) else {
        return Err(refused(Cause::ImportDirectoryOpen, header.entry.place));
    };
    let is_pe32_plus = header.is_pe32_plus;
    let (dlls, _) = each_dll(alloc, sections, is_pe32_plus, &table, count, room)?;
    Ok(Imports {
        machine: header.machine,
        dlls,
    })
}

/// What an image imports.
#[tactic(auto, unfolding(crate::specs::Imports::imports_in))]
fn imports_in(alloc: Global, layout: Layout, bytes: &[u8]) -> Result<Imports<'_>, ReadError>
    ensures { Gives imports_view result (imports_in layout bytes.now) }
{
    let header = header_for(IMPORT_TABLE, bytes)?;
    let (sections, _) = sections_in(alloc, layout, bytes, header.sections, header.section_count)?;
    imports_behind(alloc, &header, &sections, bytes.len())
}

impl<'a> Imports<'a> {
    /// What an image in a file imports, by the bytes of the file, a program's or a DLL's; nothing
    /// where it has no import directory.
    ///
    /// The file is refused for its first fault, whatever its bytes are. Time and memory are linear
    /// in their number: the names are slices of the file. Delayed imports are none of these.
    pub fn read(alloc: Global, bytes: &'a [u8]) -> Result<Imports<'a>, ReadError>
        ensures { Gives imports_view result (imports_in Layout.File bytes.now) }
    {
        imports_in(alloc, Layout::File, bytes)
    }

    /// What an image imports that lies in memory, each section at its address, before a loader
    /// wrote into it. As [`Imports::read`] but for that.
    pub fn read_image(alloc: Global, bytes: &'a [u8]) -> Result<Imports<'a>, ReadError>
        ensures { Gives imports_view result (imports_in Layout.Image bytes.now) }
    {
        imports_in(alloc, Layout::Image, bytes)
    }
}
