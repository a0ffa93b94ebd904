//! The writer of objects (docs/FORMATS.md, "The layout of an object").

ghost use Rattle.implib.specs.Fault.{Cause, IfInvalid};
ghost use Rattle.implib.specs.Formats.Object.{object_in, section_numbered};
ghost use Rattle.implib.specs.Formats.Layout.{Fits, HasNoNul, encoded, encoded_size};
ghost use Rattle.implib.specs.Views.Layout.{name_view, symbol_view};
ghost use Rattle.implib.specs.Formats.Writer.{section_view};
ghost use Rattle.implib.specs.Formats.Writer.{HasRoomFor, IsPlaceAmong, IsSymbolIndex, all_entries};
ghost use Rattle.implib.specs.Formats.Writer.{entries_added, long_names, name_location};
ghost use Rattle.implib.specs.Formats.Writer.{written_object, layout_of, section_number};
ghost use Rattle.implib.specs.Formats.Writer.{symbol_written, with_long_name, with_relocation};
ghost use Rattle.implib.specs.Formats.Writer.{with_section, with_symbol};
ghost use Rattle.implib.specs.Formats.Writer.{added_view};
ghost use Rattle.implib.specs.Views.Writer.{writer_state};
ghost use Rattle.implib.specs.Views.Making.{EncodesObject};
ghost use Rattle.std.specs.Prelude.{◌+◌, ◌<◌, ◌^◌, ◌≡◌, ◌≤◌, Some, [], IfErr, IfOk, IsSomeAnd};
ghost use Rattle.std.specs.Prelude.{OnErr, OnOk, alloc_error, length, map, string_bytes};

use crate::coff::constants::section_number;
use crate::coff::layout::{LayoutSymbol, ObjectLayout, SymbolName, auxiliary_count, encode};
use crate::coff::object::{Place, Relocation, Section, Symbol};
use crate::error::Error;
use crate::machine::MachineType;
use indexmap::IndexSet;
use std::alloc::{AllocError, Global};
use std::marker::Model;

/// An object under construction: its sections and symbols, in the order in which they are added.
#[derive(Debug, Drop)]
pub struct ObjectWriter {
    machine: MachineType,
    sections: Vec<Section>,
    symbols: Vec<Symbol>,
    records: u32,
}

// The greatest length in bytes of a name kept in its symbol record.
const LONGEST_IN_RECORD: usize = 8;

// The names of an object's string table, and the symbols that name them by their index.
#[derive(Drop)]
struct Names<'a> {
    strings: IndexSet<&'a str>,
    symbols: Vec<LayoutSymbol<'a>>,
}

impl Model for ObjectWriter {
    ghost use Rattle.implib.specs.Formats.Writer.{WriterState};
    ghost use Rattle.implib.specs.Views.Writer.{IsSound, writer_state};

    ghost Value = { WriterState };

    ghost view = { λ w. writer_state w.machine w.sections.items w.symbols.items };

    ghost invariant = { λ w.
        IsSound (writer_state w.machine w.sections.items w.symbols.items) w.records };
}

impl ObjectWriter {
    /// A writer with no section and no symbol.
    pub fn new(alloc: Global, machine: MachineType) -> Self
        ensures { result ≡ record { machine = machine; sections = []; symbols = [] } }
    {
        ObjectWriter {
            machine,
            sections: Vec::new(alloc),
            symbols: Vec::new(alloc),
            records: 0,
        }
    }

    /// Reserves room for further sections and symbols; what the writer holds is unchanged.
    pub(crate) fn reserve(&mut self, sections: usize, symbols: usize) -> Result<(), Error>
        ensures held { self.new ≡ self.old }
        ensures memory { IfErr result (λ e. e ≡ Error.OutOfMemory alloc_error) }
    {
        self.sections.reserve(sections)?;
        self.symbols.reserve(symbols)?;
        Ok(())
    }

    /// Adds a section and gives its number, from 1.
    ///
    /// The section has no relocation yet, and the writer has fewer than 32,767 sections.
    ///
    /// # Errors
    ///
    /// `OutOfMemory` alone; the writer is as before.
    pub fn add_section(&mut self, section: Section) -> Result<u16, Error>
        requires no_relocation { section.relocations.items ≡ [] }
        requires room { length self.old.sections < 32767 }
        ensures ok { OnOk result (self.new ≡ with_section self.old (section_view section)) }
        ensures number { IfOk result (λ number. number ≡ length self.old.sections + 1) }
        ensures err { OnErr result (self.new ≡ self.old) }
        ensures memory { IfErr result (λ e. e ≡ Error.OutOfMemory alloc_error) }
    {
        self.sections.push(section)?;
        Ok(self.sections.len() as u16)
    }

    /// Adds a symbol and gives its index, for which auxiliary records count too.
    ///
    /// The name has a byte or more and no NUL. The symbol is in no section, or in one that was
    /// added. The symbol table has at most 2^32 - 1 records.
    ///
    /// # Errors
    ///
    /// `OutOfMemory` alone; the writer is as before.
    pub fn add_symbol(&mut self, symbol: Symbol) -> Result<u32, Error>
        requires named { 0 < length (string_bytes symbol.name) }
        requires no_nul { HasNoNul (string_bytes symbol.name) }
        requires place { IsPlaceAmong (length self.old.sections) symbol.place }
        requires room { length (all_entries self.old.symbols)
            + length (entries_added (added_view symbol)) < 2 ^ 32 }
        ensures ok { OnOk result (self.new ≡ with_symbol self.old (added_view symbol)) }
        ensures index { IfOk result (λ index. index ≡ length (all_entries self.old.symbols)) }
        ensures err { OnErr result (self.new ≡ self.old) }
        ensures memory { IfErr result (λ e. e ≡ Error.OutOfMemory alloc_error) }
    {
        let index = self.records;
        let count = 1 + auxiliary_count(symbol.aux);
        self.symbols.push(symbol)?;
        self.records += count;
        Ok(index)
    }

    /// Adds a relocation to the section of this number.
    ///
    /// The section was added, with four bytes of data at the offset, and has at most 65,535
    /// relocations. The symbol's index is one that `add_symbol` gave.
    ///
    /// # Errors
    ///
    /// `OutOfMemory` alone; the writer is as before.
    pub fn add_relocation(&mut self, section: u16, relocation: Relocation) -> Result<(), Error>
        requires section { IsSomeAnd (section_numbered self.old.sections section)
            (HasRoomFor relocation) }
        requires symbol { IsSymbolIndex self.old.symbols relocation.symbol }
        ensures ok { OnOk result (self.new ≡ with_relocation self.old section relocation) }
        ensures err { OnErr result (self.new ≡ self.old) }
        ensures memory { IfErr result (λ e. e ≡ Error.OutOfMemory alloc_error) }
    {
        let section = &mut self.sections[section as usize - 1];
        section.relocations.push(relocation)?;
        Ok(())
    }

    /// The bytes of the object (docs/FORMATS.md, "The layout of an object").
    ///
    /// # Errors
    ///
    /// `Invalid` with `MemberTooLong` where they are more than 2^32 - 1, before they are allocated;
    /// `OutOfMemory`.
    pub fn write(&self) -> Result<Vec<u8>, Error>
        ensures bytes { IfOk result (λ bytes. bytes.items ≡ encoded (layout_of self.now)) }
        ensures read { IfOk result
            (λ bytes. object_in bytes.items ≡ Some (written_object self.now)) }
        ensures length { IfOk result
            (λ bytes. length bytes.items ≡ encoded_size (layout_of self.now)) }
        ensures short { OnOk result (encoded_size (layout_of self.now) < 2 ^ 32) }
        ensures refused { IfInvalid result (λ cause.
            (cause ≡ Cause.MemberTooLong) × (2 ^ 32 ≤ encoded_size (layout_of self.now))) }
    {
        let alloc = *self.symbols.allocator();
        write_parts(alloc, self.machine, &self.sections, &self.symbols)
    }
}

// The bytes of the object of these sections and symbols, laid out as by a writer that holds them.
fn write_parts(
    alloc: Global,
    machine: MachineType,
    sections: &[Section],
    symbols: &[Symbol],
) -> Result<Vec<u8>, Error>
    requires { Fits (layout_of (writer_state machine sections.now symbols.now)) }
    ensures { EncodesObject (layout_of (writer_state machine sections.now symbols.now)) result }
{
    let names = names_of(alloc, symbols)?;
    let layout = ObjectLayout {
        machine: machine.number(),
        characteristics: 0,
        sections,
        symbols: &names.symbols,
        strings: names.strings.as_slice(),
    };
    encode(alloc, &layout)
}

// Names each symbol: in its record, or, where the name has more than 8 bytes, in the string table.
fn names_of(alloc: Global, symbols: &[Symbol]) -> Result<Names<'_>, AllocError>
    ensures strings { IfOk result (λ names.
        map (λ text. text.now) names.strings.keys ≡ long_names (map added_view symbols.now)) }
    ensures symbols { IfOk result (λ names. map symbol_view names.symbols.items
        ≡ map (symbol_written (long_names (map added_view symbols.now)))
        (map added_view symbols.now)) }
{
    let mut strings = IndexSet::new(alloc);
    let mut named = Vec::with_capacity(alloc, symbols.len())?;
    for symbol in symbols {
        named.push(LayoutSymbol {
            name: name_of(&mut strings, symbol.name.as_str())?,
            value: symbol.value,
            section: number_of(symbol.place),
            class: symbol.class,
            aux: symbol.aux,
        })?;
    }
    Ok(Names {
        strings,
        symbols: named,
    })
}

// The location of a name; a long one is added to the strings unless it is among them.
fn name_of<'a>(strings: &mut IndexSet<&'a str>, text: &'a str) -> Result<SymbolName<'a>, AllocError>
    ensures strings { OnOk result (map (λ t. t.now) strings.new.keys
        ≡ with_long_name (map (λ t. t.now) strings.old.keys) text.now) }
    ensures name { IfOk result
        (λ name. name_view name ≡ name_location (map (λ t. t.now) strings.new.keys) text.now) }
{
    if text.len() > LONGEST_IN_RECORD {
        let (index, _) = strings.insert_full(text)?;
        Ok(SymbolName::InStringTable(index))
    } else {
        Ok(SymbolName::InRecord(text))
    }
}

// The number of a symbol's section in its record.
fn number_of(place: Place) -> u16
    ensures { result ≡ section_number place }
{
    match place {
        Place::Undefined => section_number::UNDEFINED,
        Place::Section(number) => number,
        Place::Absolute => section_number::ABSOLUTE,
        Place::Debug => section_number::DEBUG,
    }
}
