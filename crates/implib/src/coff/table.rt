//! An object as a table: the rows of its sections and symbols, and the writer that takes them.

ghost use Rattle.implib.specs.Formats.Object.{section_numbered};
ghost use Rattle.implib.specs.Views.Table.{CanBeAdded, CanBeHeld, HasRoomForAll, bare_row};
ghost use Rattle.implib.specs.Views.Table.{section_row, symbol_row, table_view, with_relocations};
ghost use Rattle.implib.specs.Formats.Writer.{all_entries, layout_of};
ghost use Rattle.implib.specs.Views.Making.{EncodesObject};
ghost use Rattle.std.specs.List.{AllByRecursion};
ghost use Rattle.std.specs.Prelude.{◌+◌, ◌++◌, ◌<◌, ◌^◌, ◌≡◌, ◌≤◌, [], IfErr, IfOk, IsSomeAnd};
ghost use Rattle.std.specs.Prelude.{OnOk, alloc_error, length, map};

use crate::coff::object::{Place, Relocation, Section, Symbol};
use crate::coff::writer::ObjectWriter;
use crate::error::Error;
use crate::machine::MachineType;
use std::alloc::Global;

/// A section in a table.
#[derive(Clone, Copy)]
pub struct SectionRow<'a> {
    /// The name, filled with NUL.
    pub name: [u8; 8],
    /// The flags.
    pub flags: u32,
    /// The data.
    pub bytes: &'a [u8],
    /// The relocations of the data.
    pub relocations: &'a [Relocation],
}

/// A symbol in a table; its value is 0.
#[derive(Clone, Copy)]
pub struct SymbolRow<'a> {
    /// The name.
    pub name: &'a str,
    /// Where the symbol is defined.
    pub place: Place,
    /// The storage class.
    pub class: u8,
    /// The auxiliary record, if any.
    pub aux: Option<[u8; 18]>,
}

/// The bytes of the object of a table.
///
/// # Errors
///
/// `Invalid` with `MemberTooLong` where they are more than 2^32 - 1, before they are allocated;
/// `OutOfMemory`.
pub fn write_table(
    alloc: Global,
    machine: MachineType,
    sections: &[SectionRow],
    symbols: &[SymbolRow],
) -> Result<Vec<u8>, Error>
    requires { CanBeHeld (table_view machine sections.now symbols.now) }
    ensures { EncodesObject (layout_of (table_view machine sections.now symbols.now)) result }
{
    let mut writer = ObjectWriter::new(alloc, machine);
    writer.reserve(sections.len(), symbols.len())?;
    add_sections(alloc, &mut writer, sections)?;
    add_symbols(alloc, &mut writer, symbols)?;
    add_relocations(&mut writer, sections)?;
    writer.write()
}

// Adds the sections of the rows without their relocations.
fn add_sections(alloc: Global, writer: &mut ObjectWriter, rows: &[SectionRow]) -> Result<(), Error>
    requires { length writer.old.sections + length rows.now ≤ 32767 }
    ensures ok { OnOk result (writer.new
        ≡ record writer.old { sections = writer.old.sections ++ map bare_row rows.now }) }
    ensures memory { IfErr result (λ e. e ≡ Error.OutOfMemory alloc_error) }
{
    for row in rows {
        writer.add_section(Section::new(alloc, row.name, row.flags, row.bytes)?)?;
    }
    Ok(())
}

fn add_symbols(alloc: Global, writer: &mut ObjectWriter, rows: &[SymbolRow]) -> Result<(), Error>
    requires each { AllByRecursion (CanBeAdded (length writer.old.sections))
        (map symbol_row rows.now) }
    requires room { length (all_entries (writer.old.symbols ++ map symbol_row rows.now)) < 2 ^ 32 }
    ensures ok { OnOk result (writer.new
        ≡ record writer.old { symbols = writer.old.symbols ++ map symbol_row rows.now }) }
    ensures memory { IfErr result (λ e. e ≡ Error.OutOfMemory alloc_error) }
{
    for row in rows {
        let mut symbol = Symbol::new(alloc, row.name, row.place, row.class)?;
        symbol.aux = row.aux;
        writer.add_symbol(symbol)?;
    }
    Ok(())
}

// Adds the relocations of the rows to their sections, which were added.
fn add_relocations(writer: &mut ObjectWriter, rows: &[SectionRow]) -> Result<(), Error>
    requires few { length rows.now ≤ 32767 }
    requires added { writer.old.sections ≡ map bare_row rows.now }
    requires each { AllByRecursion (λ s. HasRoomForAll writer.old.symbols s.relocations
        (record s { relocations = [] })) (map section_row rows.now) }
    ensures ok { OnOk result
        (writer.new ≡ record writer.old { sections = map section_row rows.now }) }
    ensures memory { IfErr result (λ e. e ≡ Error.OutOfMemory alloc_error) }
{
    let mut number = 1u16;
    for row in rows {
        relocate(writer, number, row.relocations)?;
        number += 1;
    }
    Ok(())
}

// Adds relocations to the section of this number.
fn relocate(writer: &mut ObjectWriter, number: u16, relocations: &[Relocation]) -> Result<(), Error>
    requires { IsSomeAnd (section_numbered writer.old.sections number)
        (HasRoomForAll writer.old.symbols relocations.now) }
    ensures ok { OnOk result (writer.new ≡ record writer.old {
      sections = with_relocations writer.old.sections number relocations.now;
    }) }
    ensures memory { IfErr result (λ e. e ≡ Error.OutOfMemory alloc_error) }
{
    for relocation in relocations {
        writer.add_relocation(number, *relocation)?;
    }
    Ok(())
}
