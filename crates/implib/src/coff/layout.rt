//! Encodes an object from a borrowed layout of it, front to back (docs/FORMATS.md, "The layout of
//! an object").

ghost use Rattle.implib.specs.Formats.Bytes.{u16_bytes, u32_bytes};
ghost use Rattle.implib.specs.Formats.Pass.{Puts};
ghost use Rattle.implib.specs.Formats.Layout.{InRecord, InStringTable, Fits, FitsAuxiliary};
ghost use Rattle.implib.specs.Formats.Layout.{auxiliary_bytes, auxiliary_count, contents};
ghost use Rattle.implib.specs.Formats.Layout.{contents_offset, contents_size, header_bytes};
ghost use Rattle.implib.specs.Formats.Layout.{encoded, encoded_size, name_field, pointer_or_zero};
ghost use Rattle.implib.specs.Formats.Layout.{record_count, records, relocation_bytes};
ghost use Rattle.implib.specs.Formats.Layout.{section_header, section_headers, string_bytes_of};
ghost use Rattle.implib.specs.Formats.Layout.{string_size, string_table, string_offsets};
ghost use Rattle.implib.specs.Formats.Layout.{strings_size, symbol, symbol_bytes};
ghost use Rattle.implib.specs.Formats.Layout.{symbol_table_offset};
ghost use Rattle.implib.specs.Views.Layout.{FitsField, Measured, name_view, layout_view};
ghost use Rattle.implib.specs.Views.Layout.{symbol_view};
ghost use Rattle.implib.specs.Formats.Writer.{section_view};
ghost use Rattle.implib.specs.Views.Making.{EncodesObject};
ghost use Rattle.std.specs.Prelude.{All, ◌*◌, ◌+◌, ◌-◌, ◌<◌, ◌^◌, ◌≡◌, ◌≤◌, ℕ, IfErr, IfOk};
ghost use Rattle.std.specs.Prelude.{alloc_error, flat_map, length, map, min, slice_index, sum_by};

use crate::coff::object::{Relocation, Section};
use crate::coff::pass::Pass;
use crate::error::{Error, Fault};
use std::alloc::{AllocError, Global};

// Sizes in bytes: of the file header, of a section header, of a relocation, of a symbol record, and
// of the size that begins the string table.
const FILE_HEADER_SIZE: u32 = 20;

const SECTION_HEADER_SIZE: u32 = 40;

const RELOCATION_SIZE: u32 = 10;

const SYMBOL_SIZE: u32 = 18;

const STRING_TABLE_SIZE_FIELD: u32 = 4;

/// The location of a symbol's name.
#[derive(Clone, Copy)]
pub(crate) enum SymbolName<'a> {
    /// In its record: 1 to 8 bytes.
    InRecord(&'a str),
    /// In the string table: the index of the string, from 0.
    InStringTable(usize),
}

/// A symbol to be written.
#[derive(Clone, Copy)]
pub(crate) struct LayoutSymbol<'a> {
    /// The name.
    pub(crate) name: SymbolName<'a>,
    /// The value.
    pub(crate) value: u32,
    /// The number of the section, as the record has it.
    pub(crate) section: u16,
    /// The storage class.
    pub(crate) class: u8,
    /// The auxiliary record, if any.
    pub(crate) aux: Option<[u8; 18]>,
}

impl<'a> LayoutSymbol<'a> {
    /// A symbol of value 0 whose name, of 1 to 8 bytes, is in its record.
    pub(crate) fn in_record(name: &'a str, section: u16, class: u8) -> Self
        ensures { symbol_view result ≡ symbol (InRecord name.now) section class }
    {
        LayoutSymbol {
            name: SymbolName::InRecord(name),
            value: 0,
            section,
            class,
            aux: None,
        }
    }

    /// A symbol of value 0 whose name is the string of this index in the string table.
    pub(crate) fn in_string_table(index: usize, section: u16, class: u8) -> Self
        ensures { symbol_view result ≡ symbol (InStringTable index) section class }
    {
        LayoutSymbol {
            name: SymbolName::InStringTable(index),
            value: 0,
            section,
            class,
            aux: None,
        }
    }
}

/// An object to be written.
#[derive(Clone, Copy)]
pub(crate) struct ObjectLayout<'a> {
    /// The number of the machine.
    pub(crate) machine: u16,
    /// The characteristics of the file header.
    pub(crate) characteristics: u16,
    /// The sections.
    pub(crate) sections: &'a [Section],
    /// The symbols.
    pub(crate) symbols: &'a [LayoutSymbol<'a>],
    /// The strings of the string table, in order.
    pub(crate) strings: &'a [&'a str],
}

// The sizes and offsets of an object, computed before it is encoded.
#[derive(Clone, Copy)]
struct Measure {
    symbol_table_offset: u32,
    records: u32,
    strings_size: u32,
    length: u32,
}

/// The encoded object.
///
/// # Errors
///
/// `Invalid` with `MemberTooLong` where its bytes are more than 2^32 - 1, before they are
/// allocated; `OutOfMemory`.
pub(crate) fn encode(alloc: Global, layout: &ObjectLayout) -> Result<Vec<u8>, Error>
    requires { Fits (layout_view layout.now) }
    ensures { EncodesObject (layout_view layout.now) result }
{
    let measure = measure_of(layout)?;
    let offsets = offsets_of(alloc, layout.strings)?;
    let mut pass = Pass::reserve(alloc, measure.length)?;
    put_object(&mut pass, layout, &measure, &offsets);
    Ok(pass.finish())
}

// Puts an object: file header, section headers, contents, symbol table, string table.
fn put_object(pass: &mut Pass, layout: &ObjectLayout, measure: &Measure, offsets: &[u32])
    requires fits { Fits (layout_view layout.now) }
    requires measured { Measured (layout_view layout.now) measure.now }
    requires offsets { offsets.now ≡ string_offsets (layout_view layout.now).strings }
    requires room { measure.now.length ≤ pass.old.left }
    ensures { Puts pass.old pass.new (encoded (layout_view layout.now)) }
{
    put_file_header(pass, layout, measure);
    put_section_headers(pass, layout.sections);
    put_contents(pass, layout.sections);
    put_symbols(pass, layout.symbols, offsets);
    put_string_table(pass, layout.strings, measure.strings_size);
}

// The offsets and sizes of an object.
fn measure_of(layout: &ObjectLayout) -> Result<Measure, Error>
    requires { length layout.now.sections.now < 2 ^ 16 }
    ensures measured { IfOk result (λ m. Measured (layout_view layout.now) m) }
    ensures refused { IfErr result (λ e. (e ≡ Error.Invalid Fault.MemberTooLong)
        × (2 ^ 32 ≤ encoded_size (layout_view layout.now))) }
{
    let headers = FILE_HEADER_SIZE as u64
        + SECTION_HEADER_SIZE as u64 * layout.sections.len() as u64;
    let symbol_table_offset = contents_length(layout.sections).saturating_add(headers);
    let records = records_of(layout.symbols);
    let strings_size = strings_length(layout.strings).saturating_add(
        STRING_TABLE_SIZE_FIELD as u64,
    );
    let length = symbol_table_offset
        .saturating_add(records.saturating_mul(SYMBOL_SIZE as u64))
        .saturating_add(strings_size);
    if length > u32::MAX as u64 {
        return Err(Error::Invalid(Fault::MemberTooLong));
    }
    Ok(Measure {
        symbol_table_offset: symbol_table_offset as u32,
        records: records as u32,
        strings_size: strings_size as u32,
        length: length as u32,
    })
}

// The size in bytes of the sections' data and relocations; 2^64 - 1 where it is more.
fn contents_length(sections: &[Section]) -> u64
    ensures { result ≡ min (sum_by contents_size (map section_view sections.now)) (2 ^ 64 - 1) }
{
    let mut total = 0u64;
    for section in sections {
        let relocations = (section.relocations.len() as u64).saturating_mul(RELOCATION_SIZE as u64);
        total = total
            .saturating_add(section.bytes.len() as u64)
            .saturating_add(relocations);
    }
    total
}

// The number of symbol records, auxiliary ones counted; 2^64 - 1 where it is more.
fn records_of(symbols: &[LayoutSymbol]) -> u64
    ensures { result ≡ min (sum_by record_count (map symbol_view symbols.now)) (2 ^ 64 - 1) }
{
    let mut total = 0u64;
    for symbol in symbols {
        total = total.saturating_add(1 + auxiliary_count(symbol.aux) as u64);
    }
    total
}

/// The number of auxiliary records of a symbol.
#[tactic(auto, unfolding(crate::specs::Formats::Layout::auxiliary_count))]
pub(crate) fn auxiliary_count(aux: Option<[u8; 18]>) -> u32
    ensures count { result ≡ auxiliary_count aux }
    ensures whole { FitsAuxiliary aux }
{
    match aux {
        Some(_) => 1,
        None => 0,
    }
}

// The size in bytes of the strings, each with its NUL; 2^64 - 1 where it is more.
fn strings_length(strings: &[&str]) -> u64
    ensures { result ≡ min (sum_by string_size (map (λ text. text.now) strings.now)) (2 ^ 64 - 1) }
{
    let mut total = 0u64;
    for text in strings {
        total = total.saturating_add(text.len() as u64).saturating_add(1);
    }
    total
}

// The offset of each string in the string table.
fn offsets_of(alloc: Global, strings: &[&str]) -> Result<Vec<u32>, AllocError>
    requires { strings_size (map (λ text. text.now) strings.now) < 2 ^ 32 }
    ensures { IfOk result
        (λ offsets. offsets.items ≡ string_offsets (map (λ text. text.now) strings.now)) }
{
    let mut offsets = Vec::with_capacity(alloc, strings.len())?;
    let mut offset = STRING_TABLE_SIZE_FIELD;
    for text in strings {
        offsets.push(offset)?;
        offset += text.len() as u32 + 1;
    }
    Ok(offsets)
}

// Puts the file header; time and the size of the optional header are 0.
fn put_file_header(pass: &mut Pass, layout: &ObjectLayout, measure: &Measure)
    requires room { 20 ≤ pass.old.left }
    requires count { length layout.now.sections.now < 2 ^ 16 }
    requires measured { Measured (layout_view layout.now) measure.now }
    ensures { Puts pass.old pass.new (header_bytes (layout_view layout.now)) }
{
    pass.put_u16(layout.machine);
    pass.put_u16(layout.sections.len() as u16);
    pass.put_u32(0);
    pass.put_u32(measure.symbol_table_offset);
    pass.put_u32(measure.records);
    pass.put_u16(0);
    pass.put_u16(layout.characteristics);
}

// Puts the header of each section.
fn put_section_headers(pass: &mut Pass, sections: &[Section])
    requires room { 40 * length sections.now ≤ pass.old.left }
    requires short { 20 + 40 * length sections.now
        + sum_by contents_size (map section_view sections.now) < 2 ^ 32 }
    requires count { All (λ s. length s.relocations.items < 2 ^ 16) sections.now }
    ensures { Puts pass.old pass.new
        (section_headers (20 + 40 * length sections.now) (map section_view sections.now)) }
{
    let mut offset = FILE_HEADER_SIZE + SECTION_HEADER_SIZE * sections.len() as u32;
    for section in sections {
        put_section_header(pass, section, offset);
        offset += section.bytes.len() as u32 + RELOCATION_SIZE * section.relocations.len() as u32;
    }
}

// Puts the header of a section whose data and relocations begin at an offset; virtual size, virtual
// address and line numbers are 0.
fn put_section_header(pass: &mut Pass, section: &Section, offset: u32)
    requires room { 40 ≤ pass.old.left }
    requires short { offset + contents_size (section_view section.now) < 2 ^ 32 }
    requires count { length section.now.relocations.items < 2 ^ 16 }
    ensures puts { Puts pass.old pass.new (section_header offset (section_view section.now)) }
    ensures left { pass.new.left + 40 ≡ pass.old.left }
{
    let size = section.bytes.len() as u32;
    let relocations = section.relocations.len();
    pass.put_bytes(&section.name);
    pass.put_u32(0);
    pass.put_u32(0);
    pass.put_u32(size);
    pass.put_u32(offset_or_zero(size as usize, offset));
    pass.put_u32(offset_or_zero(relocations, offset + size));
    pass.put_u32(0);
    pass.put_u16(relocations as u16);
    pass.put_u16(0);
    pass.put_u32(section.flags);
}

// An offset, or 0 where there is nothing at it.
#[tactic(auto, unfolding(crate::specs::Formats::Layout::pointer_or_zero))]
fn offset_or_zero(count: usize, offset: u32) -> u32
    ensures { result ≡ pointer_or_zero count offset }
{
    if count == 0 { 0 } else { offset }
}

// Puts the contents of each section.
fn put_contents(pass: &mut Pass, sections: &[Section])
    requires { sum_by contents_size (map section_view sections.now) ≤ pass.old.left }
    ensures { Puts pass.old pass.new (flat_map (λ s. contents (section_view s)) sections.now) }
{
    for section in sections {
        put_section_contents(pass, section);
    }
}

// Puts a section's data, then its relocations.
fn put_section_contents(pass: &mut Pass, section: &Section)
    requires { contents_size (section_view section.now) ≤ pass.old.left }
    ensures { Puts pass.old pass.new (contents (section_view section.now)) }
{
    pass.put_bytes(&section.bytes);
    put_relocations(pass, &section.relocations);
}

// Puts the relocations of a section.
fn put_relocations(pass: &mut Pass, relocations: &[Relocation])
    requires { 10 * length relocations.now ≤ pass.old.left }
    ensures { Puts pass.old pass.new (flat_map relocation_bytes relocations.now) }
{
    for relocation in relocations {
        put_relocation(pass, relocation);
    }
}

// Puts a relocation.
fn put_relocation(pass: &mut Pass, relocation: &Relocation)
    requires { 10 ≤ pass.old.left }
    ensures { Puts pass.old pass.new (relocation_bytes relocation.now) }
{
    pass.put_u32(relocation.offset);
    pass.put_u32(relocation.symbol);
    pass.put_u16(relocation.kind);
}

// Puts each symbol's record, and its auxiliary record.
fn put_symbols(pass: &mut Pass, symbols: &[LayoutSymbol], offsets: &[u32])
    requires room { length (flat_map (λ s. symbol_bytes offsets.now (symbol_view s)) symbols.now)
        ≤ pass.old.left }
    requires fits { All (λ s. FitsField (length offsets.now) (name_view s.name)) symbols.now }
    requires aux { All (λ s. FitsAuxiliary s.aux) symbols.now }
    ensures { Puts pass.old pass.new
        (flat_map (λ s. symbol_bytes offsets.now (symbol_view s)) symbols.now) }
{
    for symbol in symbols {
        put_symbol(pass, symbol, offsets);
    }
}

// Puts a symbol's record, whose type is 0, and its auxiliary record.
#[tactic(auto, unfolding(crate::specs::Formats::Layout::auxiliary_bytes))]
fn put_symbol(pass: &mut Pass, symbol: &LayoutSymbol, offsets: &[u32])
    requires room { 18 + length (auxiliary_bytes symbol.now.aux) ≤ pass.old.left }
    requires fits { FitsField (length offsets.now) (name_view symbol.now.name) }
    requires aux { FitsAuxiliary symbol.now.aux }
    ensures { Puts pass.old pass.new (symbol_bytes offsets.now (symbol_view symbol.now)) }
{
    put_name(pass, &symbol.name, offsets);
    pass.put_u32(symbol.value);
    pass.put_u16(symbol.section);
    pass.put_u16(0);
    match symbol.aux {
        Some(aux) => {
            pass.put_bytes(&[symbol.class, 1]);
            pass.put_bytes(&aux);
        }
        None => pass.put_bytes(&[symbol.class, 0]),
    }
}

// Puts the 8 bytes of a symbol's name.
fn put_name(pass: &mut Pass, name: &SymbolName, offsets: &[u32])
    requires room { 8 ≤ pass.old.left }
    requires fits { FitsField (length offsets.now) (name_view name.now) }
    ensures puts { Puts pass.old pass.new (name_field offsets.now (name_view name.now)) }
    ensures left { pass.new.left + 8 ≡ pass.old.left }
{
    match *name {
        SymbolName::InRecord(text) => {
            pass.put_bytes(text.as_bytes());
            let zeros = [0u8; 8];
            pass.put_bytes(&zeros[text.len()..]);
        }
        SymbolName::InStringTable(index) => {
            pass.put_u32(0);
            pass.put_u32(offsets[index]);
        }
    }
}

// Puts the string table: its size, then the strings.
fn put_string_table(pass: &mut Pass, strings: &[&str], size: u32)
    requires room { size ≤ pass.old.left }
    requires size { size ≡ strings_size (map (λ text. text.now) strings.now) }
    ensures { Puts pass.old pass.new (string_table (map (λ text. text.now) strings.now)) }
{
    pass.put_u32(size);
    for text in strings {
        put_string(pass, text);
    }
}

// Puts a string and its NUL.
fn put_string(pass: &mut Pass, text: &str)
    requires { length text.now + 1 ≤ pass.old.left }
    ensures { Puts pass.old pass.new (string_bytes_of text.now) }
{
    pass.put_bytes(text.as_bytes());
    pass.put_bytes(&[0]);
}
