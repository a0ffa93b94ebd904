//! The objects for GNU's linker: the head, the tail, and the exports (docs/FORMATS.md, "Members for
//! GNU's linker").

ghost use Rattle.implib.specs.Definition.{export_view};
ghost use Rattle.implib.specs.Formats.Constants.{align_4bytes, cnt_code, mem_execute_read};
ghost use Rattle.implib.specs.Members.Gnu.{added, empty_sections, export_object, export_symbols};
ghost use Rattle.implib.specs.Members.Gnu.{file_symbol, head_object, head_sections, head_symbol};
ghost use Rattle.implib.specs.Members.Gnu.{head_symbols, hint_name, hint_name_symbol, iname_symbol};
ghost use Rattle.implib.specs.Members.Gnu.{relocations_of_stub, relocations_of_thunk, section};
ghost use Rattle.implib.specs.Members.Gnu.{stub, tail_object, tail_sections, tail_symbols, thunk};
ghost use Rattle.implib.specs.Members.OlderSymbols.{object_with, older_object, older_symbol};
ghost use Rattle.implib.specs.Import.{imp_symbol, holds, is_empty_text};
ghost use Rattle.implib.specs.Members.ImportTables.{thunk_width};
ghost use Rattle.implib.specs.Views.Table.{section_row, symbol_row};
ghost use Rattle.implib.specs.Formats.Writer.{layout_of};
ghost use Rattle.implib.specs.Views.Making.{EncodesObject};
ghost use Rattle.implib.specs.Views.Table.{CanBeHeld};
ghost use Rattle.std.specs.Prelude.{◌+◌, [], false, map, string_bytes, ◌∷◌, ◌++◌, ◌<◌, ◌≡◌, IfOk};
ghost use Rattle.std.specs.Prelude.{if◌then◌else◌, take};

use crate::coff::constants::{class, flags, relocation};
use crate::coff::object::{Place, Relocation};
use crate::coff::table::{SectionRow, SymbolRow, write_table};
use crate::def::definition::ShortExport;
use crate::error::Error;
use crate::import_name::asked_by_hint_name;
use crate::import_tables::{DATA, descriptor, ended_by_nul, image_relocation, thunk_width, zeros};
use crate::machine::MachineType;
use std::alloc::{AllocError, Global};

// The flags of `.text` and of `.bss`, without the alignment.
const TEXT: u32 = flags::CNT_CODE | flags::MEM_EXECUTE | flags::MEM_READ;

const BSS: u32 = flags::CNT_UNINITIALIZED_DATA | flags::MEM_READ | flags::MEM_WRITE;

// The flags of the head's and the tail's import-table sections: 0xC0300040.
const TABLE_FLAGS: u32 = DATA | flags::ALIGN_4BYTES;

// The names of the sections that every object has, filled with NUL.
const TEXT_NAME: [u8; 8] = *b".text\0\0\0";

const DATA_NAME: [u8; 8] = *b".data\0\0\0";

const BSS_NAME: [u8; 8] = *b".bss\0\0\0\0";

// The flags of an export's import-table sections: 0xC0300000.
const ENTRY_FLAGS: u32 = flags::ALIGN_4BYTES | flags::MEM_READ | flags::MEM_WRITE;

// The top bit of a thunk, in its last byte, marks an ordinal.
const ORDINAL_BYTE: u8 = 0x80;

// The indexes of the head's symbols of its address table and its lookup table, and of that of the
// DLL's name. The file's symbol and its auxiliary record are 0 and 1.
const HEAD_ADDRESS_TABLE: u32 = 2;

const HEAD_LOOKUP_TABLE: u32 = 3;

const HEAD_NAME: u32 = 5;

// The index of an export's `__imp_` symbol, where the export has code.
const IMP_SYMBOL: u32 = 2;

// The index of the symbol of an export's hint/name table entry, without code and with.
const HINT_NAME_OF_DATA: u32 = 2;

const HINT_NAME_OF_CODE: u32 = 3;

// The auxiliary record of the file's name.
const FILE_AUXILIARY: [u8; 18] = *b"fake\0\0\0\0\0\0\0\0\0\0\0\0\0\0";

/// A section of a table: its name, filled with NUL, its flags, its data and their relocations.
pub fn section<'a>(
    name: [u8; 8],
    flags: u32,
    bytes: &'a [u8],
    relocations: &'a [Relocation],
) -> SectionRow<'a>
    ensures { section_row result ≡ section name flags bytes.now relocations.now }
{
    SectionRow {
        name,
        flags,
        bytes,
        relocations,
    }
}

fn empty_section(name: [u8; 8], flags: u32) -> SectionRow<'static>
    ensures { section_row result ≡ section name flags [] [] }
{
    section(name, flags, &[], &[])
}

// The sections of the head or of the tail: `.text`, `.data` and `.bss`, all empty, and then these.
fn head_or_tail_sections<'a>(
    first: SectionRow<'a>,
    second: SectionRow<'a>,
    third: SectionRow<'a>,
) -> [SectionRow<'a>; 6]
    ensures { map section_row result ≡ empty_sections
        ++ section_row first.entry ∷ section_row second.entry ∷ section_row third.entry ∷ [] }
{
    [
        empty_section(TEXT_NAME, TEXT | flags::ALIGN_16BYTES),
        empty_section(DATA_NAME, DATA | flags::ALIGN_16BYTES),
        empty_section(BSS_NAME, BSS | flags::ALIGN_16BYTES),
        first,
        second,
        third,
    ]
}

/// A symbol of a table, of value 0 and without an auxiliary record.
pub fn symbol(name: &str, place: Place, class: u8) -> SymbolRow<'_>
    ensures { symbol_row result ≡ added name.now place class }
{
    SymbolRow {
        name,
        place,
        class,
        aux: None,
    }
}

// The symbol of the file's name.
fn file_symbol() -> SymbolRow<'static>
    ensures { symbol_row result ≡ file_symbol }
{
    SymbolRow {
        name: ".file",
        place: Place::Debug,
        class: class::FILE,
        aux: Some(FILE_AUXILIARY),
    }
}

/// The object of the head of a library of this name, by its symbols.
pub(crate) fn head_object(
    alloc: Global,
    machine: MachineType,
    library: &str,
    head: &str,
    name: &str,
) -> Result<Vec<u8>, Error>
    requires library_text { holds 0 library.now ≡ false }
    requires head { head.now ≡ head_symbol machine library.now }
    requires name { name.now ≡ iname_symbol machine library.now }
    ensures { EncodesObject (layout_of (head_object machine library.now)) result }
{
    let relocations = [
        image_relocation(machine, descriptor::LOOKUP_TABLE, HEAD_LOOKUP_TABLE),
        image_relocation(machine, descriptor::ADDRESS_TABLE, HEAD_ADDRESS_TABLE),
        image_relocation(machine, descriptor::NAME, HEAD_NAME),
    ];
    let sections = head_or_tail_sections(
        section(
            *b".idata$2",
            TABLE_FLAGS,
            &[0; descriptor::SIZE],
            &relocations,
        ),
        empty_section(*b".idata$5", TABLE_FLAGS),
        empty_section(*b".idata$4", TABLE_FLAGS),
    );
    let symbols = [
        file_symbol(),
        symbol(".idata$5", Place::Section(5), class::STATIC),
        symbol(".idata$4", Place::Section(6), class::STATIC),
        symbol(head, Place::Section(4), class::EXTERNAL),
        symbol(name, Place::Undefined, class::EXTERNAL),
    ];
    write_table(alloc, machine, &sections, &symbols)
}

/// The object of the tail, by its symbol: `library` names it, `dll` is its text.
pub(crate) fn tail_object(
    alloc: Global,
    machine: MachineType,
    library: &str,
    dll: &str,
    name: &str,
) -> Result<Vec<u8>, Error>
    requires library_text { holds 0 library.now ≡ false }
    requires name { name.now ≡ iname_symbol machine library.now }
    ensures { EncodesObject (layout_of (tail_object machine
        (record { linked = library.now; text = dll.now }))) result }
{
    let thunk = zeros(alloc, thunk_width(machine))?;
    let text = ended_by_nul(alloc, dll)?;
    let sections = head_or_tail_sections(
        section(*b".idata$4", TABLE_FLAGS, &thunk, &[]),
        section(*b".idata$5", TABLE_FLAGS, &thunk, &[]),
        section(*b".idata$7", TABLE_FLAGS, &text, &[]),
    );
    let symbols = [
        file_symbol(),
        symbol(name, Place::Section(6), class::EXTERNAL),
    ];
    write_table(alloc, machine, &sections, &symbols)
}

// The instructions that jump to the address of the import (docs/FORMATS.md, "Stubs"); data has
// none.
#[tactic(auto, unfolding(crate::specs::Members::Gnu::stub))]
fn stub(export: &ShortExport, machine: MachineType) -> &'static [u8]
    ensures { result.now ≡ stub machine (export_view export.now) }
{
    if export.is_data {
        return &[];
    }
    match machine {
        MachineType::I386 | MachineType::AMD64 => b"\xFF\x25\0\0\0\0\x90\x90",
        MachineType::ARMNT => b"\0\xC0\x9F\xE5\0\xF0\x9C\xE5\0\0\0\0",
        MachineType::ARM64 => b"\x10\0\0\x90\x10\x02\x40\xF9\0\x02\x1F\xD6",
    }
}

// The relocations of the stub (docs/FORMATS.md, "Stubs").
#[tactic(auto, unfolding(crate::specs::Members::Gnu::relocations_of_stub))]
fn stub_relocations(export: &ShortExport, machine: MachineType) -> &'static [Relocation]
    ensures { result.now ≡ relocations_of_stub machine (export_view export.now) }
{
    if export.is_data {
        return &[];
    }
    match machine {
        MachineType::I386 => &[Relocation {
            offset: 2,
            symbol: IMP_SYMBOL,
            kind: relocation::I386_DIR32,
        }],
        MachineType::ARMNT => &[Relocation {
            offset: 8,
            symbol: IMP_SYMBOL,
            kind: relocation::ARM_REL32,
        }],
        MachineType::AMD64 => &[Relocation {
            offset: 2,
            symbol: IMP_SYMBOL,
            kind: relocation::AMD64_REL32,
        }],
        MachineType::ARM64 => &[
            Relocation {
                offset: 0,
                symbol: IMP_SYMBOL,
                kind: relocation::ARM64_PAGEBASE_REL21,
            },
            Relocation {
                offset: 4,
                symbol: IMP_SYMBOL,
                kind: relocation::ARM64_PAGEOFFSET_12L,
            },
        ],
    }
}

/// The thunk of the export: its ordinal, or zeros for the address of a hint and a name (PE/COFF
/// specification, "Import Lookup Table"). Only the first `thunk_width` bytes count.
#[tactic(auto, unfolding(crate::specs::Members::Gnu::thunk, crate::specs::Formats::Bytes::u16_bytes))]
pub fn thunk(export: &ShortExport, machine: MachineType) -> [u8; 8]
    ensures { take (thunk_width machine) result ≡ thunk machine (export_view export.now) }
{
    if !export.no_name {
        return [0; 8];
    }
    let [low, high] = export.ordinal.to_le_bytes();
    if machine.is_32bit() {
        [low, high, 0, ORDINAL_BYTE, 0, 0, 0, 0]
    } else {
        [low, high, 0, 0, 0, 0, 0, ORDINAL_BYTE]
    }
}

// The index of the symbol of the hint/name table entry.
fn hint_name_symbol(export: &ShortExport) -> u32
    ensures { result ≡ hint_name_symbol (export_view export.now) }
{
    if export.is_data {
        HINT_NAME_OF_DATA
    } else {
        HINT_NAME_OF_CODE
    }
}

/// The relocations of a thunk: these by name, none by ordinal.
pub fn entry_relocations<'a>(export: &ShortExport, by_name: &'a [Relocation]) -> &'a [Relocation]
    ensures { result.now ≡ (if (export_view export.now).no_name then [] else by_name.now) }
{
    if export.no_name { &[] } else { by_name }
}

/// The hint/name table entry of the export (PE/COFF specification, "Hint/Name Table"); empty for an
/// ordinal.
///
/// # Errors
///
/// An allocation failed.
#[tactic(auto, unfolding(crate::specs::Members::Gnu::hint_name, crate::specs::Formats::Bytes::u16_bytes))]
pub fn hint_name(
    alloc: Global,
    export: &ShortExport,
    machine: MachineType,
) -> Result<Vec<u8>, AllocError>
    ensures { IfOk result (λ bytes. bytes.items ≡ hint_name machine (export_view export.now)) }
{
    if export.no_name {
        return Ok(Vec::new(alloc));
    }
    let name = asked_by_hint_name(export, machine);
    let mut bytes = Vec::with_capacity(alloc, name.len().saturating_add(3))?;
    bytes.extend_from_slice(&export.ordinal.to_le_bytes())?;
    bytes.extend_from_slice(name)?;
    bytes.push(0)?;
    Ok(bytes)
}

// Writes the object of an export with these symbols.
fn write_export(
    alloc: Global,
    export: &ShortExport,
    machine: MachineType,
    symbols: &[SymbolRow],
) -> Result<Vec<u8>, Error>
    requires { CanBeHeld
        (object_with machine (export_view export.now) (map symbol_row symbols.now)) }
    ensures { EncodesObject (layout_of
        (object_with machine (export_view export.now) (map symbol_row symbols.now))) result }
{
    let to_head = [image_relocation(machine, 0, 0)];
    let to_name = [image_relocation(machine, 0, hint_name_symbol(export))];
    let entry_relocations = entry_relocations(export, &to_name);
    let thunk = thunk(export, machine);
    let entry = &thunk[..thunk_width(machine)];
    let hint_name = hint_name(alloc, export, machine)?;
    let sections = [
        section(
            TEXT_NAME,
            TEXT | flags::ALIGN_4BYTES,
            stub(export, machine),
            stub_relocations(export, machine),
        ),
        empty_section(DATA_NAME, DATA | flags::ALIGN_4BYTES),
        empty_section(BSS_NAME, BSS | flags::ALIGN_4BYTES),
        section(*b".idata$7", ENTRY_FLAGS, &[0; 4], &to_head),
        section(*b".idata$5", ENTRY_FLAGS, entry, entry_relocations),
        section(*b".idata$4", ENTRY_FLAGS, entry, entry_relocations),
        section(
            *b".idata$6",
            flags::ALIGN_2BYTES | flags::MEM_READ | flags::MEM_WRITE,
            &hint_name,
            &[],
        ),
    ];
    write_table(alloc, machine, &sections, symbols)
}

/// The object of an export, by its symbols.
pub(crate) fn export_object<'a>(
    alloc: Global,
    export: &'a ShortExport,
    machine: MachineType,
    library: &str,
    head: &'a str,
    address: &'a str,
) -> Result<Vec<u8>, Error>
    requires library_text { holds 0 library.now ≡ false }
    requires name_text { holds 0 (export_view export.now).name ≡ false }
    requires filled { is_empty_text (export_view export.now).name ≡ false }
    requires head { head.now ≡ head_symbol machine library.now }
    requires address { address.now ≡ imp_symbol (export_view export.now).name }
    ensures { EncodesObject
        (layout_of (export_object machine library.now (export_view export.now))) result }
{
    let head = symbol(head, Place::Undefined, class::EXTERNAL);
    let code = symbol(export.name.as_str(), Place::Section(1), class::EXTERNAL);
    let address = symbol(address, Place::Section(5), class::EXTERNAL);
    let names = symbol(".idata$6", Place::Section(7), class::STATIC);
    let of_code = [head, code, address, names];
    let of_data = [head, address, names];
    let symbols = if export.is_data {
        &of_data[..]
    } else {
        &of_code[..]
    };
    write_export(alloc, export, machine, symbols)
}

/// The object of an export with the older symbol of its address beside that of today.
pub(crate) fn older_object<'a>(
    alloc: Global,
    export: &'a ShortExport,
    machine: MachineType,
    library: &str,
    head: &'a str,
    address: &'a str,
    older: &'a str,
) -> Result<Vec<u8>, Error>
    requires library_text { holds 0 library.now ≡ false }
    requires name_text { holds 0 (export_view export.now).name ≡ false }
    requires filled { is_empty_text (export_view export.now).name ≡ false }
    requires head { head.now ≡ head_symbol machine library.now }
    requires address { address.now ≡ imp_symbol (export_view export.now).name }
    requires older { older.now ≡ older_symbol (export_view export.now).name }
    ensures { EncodesObject
        (layout_of (older_object machine library.now (export_view export.now))) result }
{
    let head = symbol(head, Place::Undefined, class::EXTERNAL);
    let own = symbol(export.name.as_str(), Place::Section(1), class::EXTERNAL);
    let today = symbol(address, Place::Section(5), class::EXTERNAL);
    let names = symbol(".idata$6", Place::Section(7), class::STATIC);
    let older = symbol(older, Place::Section(5), class::EXTERNAL);
    let of_code = [head, own, today, names, older];
    let of_data = [head, today, names, older];
    let symbols = if export.is_data {
        &of_data[..]
    } else {
        &of_code[..]
    };
    write_export(alloc, export, machine, symbols)
}
