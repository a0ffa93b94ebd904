//! The objects of delayed imports: the head, the tail, and the exports (docs/GUARANTEES.md, "Delayed
//! imports").

ghost use Rattle.implib.specs.Definition.{export_view};
ghost use Rattle.implib.specs.Formats.Layout.{contents_size, encoded_size};
ghost use Rattle.implib.specs.Formats.Writer.{layout_of};
ghost use Rattle.implib.specs.Import.{holds, imp_symbol, is_empty_text};
ghost use Rattle.implib.specs.Machine.{is_32bit};
ghost use Rattle.implib.specs.Members.Gnu.{hint_name, section, thunk};
ghost use Rattle.implib.specs.Members.ImportTables.{relocation, thunk_flags, thunk_width, zeros};
ghost use Rattle.implib.specs.Views.Making.{EncodesObject};
ghost use Rattle.implib.specs.Views.Table.{CanBeHeld, section_row, symbol_row};
ghost use Rattle.implib_delay.specs.Code.{stub_code, tail_code};
ghost use Rattle.implib_delay.specs.Names.{handle_symbol, helper_symbol, name_symbol, tail_symbol};
ghost use Rattle.implib_delay.specs.Objects.{export_object, export_sections, export_symbols};
ghost use Rattle.implib_delay.specs.Objects.{head_object, tail_relocations};
ghost use Rattle.implib_delay.specs.Objects.{mode_of, object_with, stub_relocations, tail_object};
ghost use Rattle.implib_delay.specs.Objects.{unbound_entry};
ghost use Rattle.implib_delay.specs.Objects.{word_kind};
ghost use Rattle.std.specs.List.{sum_by};
ghost use Rattle.std.specs.Prelude.{[], false, true, map, take, ◌∷◌, ◌≡◌};
ghost use Rattle.std.specs.Prelude.{if◌then◌else◌};
ghost use Rattle.std.specs.Prelude.{min};

use crate::names::helper_symbol;
use crate::string_table::names_size;
use implib::coff::table::{SectionRow, SymbolRow, write_table};
use implib::coff::{Place, Relocation, class, flags, relocation};
use implib::def::ShortExport;
use implib::gnu::objects::{entry_relocations, hint_name, section, symbol, thunk};
use implib::import_name::asked_by_hint_name;
use implib::import_tables::{DATA, ended_by_nul, image_relocation, thunk_width, zeros};
use implib::{Error, MachineType};
use std::alloc::Global;

// The flags of code, without the alignment.
const TEXT: u32 = flags::CNT_CODE | flags::MEM_EXECUTE | flags::MEM_READ;

// The flags of tables: 0xC0300040.
const TABLE_FLAGS: u32 = DATA | flags::ALIGN_4BYTES;

// The flags of data that is only read: 0x40300040.
const READ_ONLY: u32 = flags::CNT_INITIALIZED_DATA | flags::MEM_READ | flags::ALIGN_4BYTES;

const TEXT_NAME: [u8; 8] = *b".text\0\0\0";

const DATA_NAME: [u8; 8] = *b".data\0\0\0";

// The index of the helper's symbol in the head.
const HELPER: u32 = 2;

// "Type Indicators" that `coff::relocation` lacks.
const I386_REL32: u16 = 20;

const AMD64_ADDR64: u16 = 1;

// A descriptor whose fields are relative to the image.
const DESCRIPTOR: [u8; 32] = *b"\x01\0\0\0\0\0\0\0\0\0\0\0\0\0\0\0\0\0\0\0\0\0\0\0\0\0\0\0\0\0\0\0";

// How AMD64's tail is unwound: its prologue of 7 bytes takes 0x11 * 8 bytes of the stack.
const UNWIND_CODES: [u8; 8] = [1, 7, 2, 0, 7, 1, 0x11, 0];

// The tail's entry in `.pdata`: it ends at 0x97.
const UNWOUND_FUNCTION: [u8; 12] = [0, 0, 0, 0, 0x97, 0, 0, 0, 0, 0, 0, 0];

// The indexes of an export's symbols: of the tail, of the DLL's name and of its handle.
const TAIL: u32 = 2;

const NAME: u32 = 3;

const HANDLE: u32 = 4;

// Of its sections: the stub, the descriptor, the thunk, the entry, and the hint and the name.
const STUB: u32 = 5;

const OWN_DESCRIPTOR: u32 = 6;

const THUNK: u32 = 7;

const ENTRY: u32 = 8;

const HINT_NAME: u32 = 9;

// Sizes in bytes: of a relocation, of a descriptor and of a hint.
const RELOCATION_SIZE: usize = 10;

const DESCRIPTOR_SIZE: usize = 32;

const HINT_SIZE: usize = 2;

// The size in bytes of what each export's object has but contents and long names: the headers, of
// the file and of five sections, ten symbols' records, and the size field of the string table.
const EXPORT_HEADERS_SIZE: usize = 20 + 5 * 40 + 10 * 18 + 4;

fn relocated(offset: u32, symbol: u32, kind: u16) -> Relocation
    ensures { result ≡ record { offset = offset; symbol = symbol; kind = kind } }
{
    Relocation {
        offset,
        symbol,
        kind,
    }
}

// The type of the relocation of a word that holds an address.
fn word_kind(machine: MachineType) -> u16
    ensures { result ≡ word_kind machine }
{
    if machine.is_32bit() {
        relocation::I386_DIR32
    } else {
        AMD64_ADDR64
    }
}

// The flags of sections of entries of the address table or the name table.
fn thunk_flags(machine: MachineType) -> u32
    ensures { result ≡ thunk_flags machine }
{
    if machine.is_32bit() {
        DATA | flags::ALIGN_4BYTES
    } else {
        DATA | flags::ALIGN_8BYTES
    }
}

// The code that all stubs share, by mode.
#[tactic(auto, unfolding(crate::specs::Code::tail_code))]
fn tail_code(machine: MachineType) -> &'static [u8]
    ensures { result.now ≡ tail_code (mode_of machine) }
{
    if machine.is_32bit() {
        b"\x51\x52\x50\xFF\x74\x24\x0C\xE8\0\0\0\0\x5A\x59\x83\xC4\x04\xFF\xE0"
    } else {
        TAIL64
    }
}

const TAIL64: &[u8] =
    b"\x48\x81\xEC\x88\0\0\0\x48\x89\x8C\x24\x90\0\0\0\x48\x89\x94\x24\x98\0\0\0\x4C\x89\x84\x24\xA0\0\0\0\x4C\x89\x8C\x24\xA8\0\0\0\x0F\x29\x44\x24\x20\x0F\x29\x4C\x24\x30\x0F\x29\x54\x24\x40\x0F\x29\x5C\x24\x50\x0F\x29\x64\x24\x60\x0F\x29\x6C\x24\x70\x48\x89\xC2\x4C\x89\xD9\xE8\0\0\0\0\x48\x8B\x8C\x24\x90\0\0\0\x48\x8B\x94\x24\x98\0\0\0\x4C\x8B\x84\x24\xA0\0\0\0\x4C\x8B\x8C\x24\xA8\0\0\0\x0F\x28\x44\x24\x20\x0F\x28\x4C\x24\x30\x0F\x28\x54\x24\x40\x0F\x28\x5C\x24\x50\x0F\x28\x64\x24\x60\x0F\x28\x6C\x24\x70\x48\x81\xC4\x88\0\0\0\xFF\xE0";

// The stub of an export, by mode.
fn stub_code(machine: MachineType) -> &'static [u8]
    ensures { result.now ≡ stub_code (mode_of machine) }
{
    if machine.is_32bit() {
        b"\xFF\x25\0\0\0\0\xB8\0\0\0\0\x68\0\0\0\0\xE9\0\0\0\0"
    } else {
        b"\xFF\x25\0\0\0\0\x48\x8D\x05\0\0\0\0\x4C\x8D\x1D\0\0\0\0\xE9\0\0\0\0"
    }
}

// The relocations of a stub.
fn stub_relocations(machine: MachineType) -> &'static [Relocation]
    ensures { result.now ≡ stub_relocations machine }
{
    if machine.is_32bit() {
        &[
            Relocation {
                offset: 2,
                symbol: ENTRY,
                kind: relocation::I386_DIR32,
            },
            Relocation {
                offset: 7,
                symbol: ENTRY,
                kind: relocation::I386_DIR32,
            },
            Relocation {
                offset: 12,
                symbol: OWN_DESCRIPTOR,
                kind: relocation::I386_DIR32,
            },
            Relocation {
                offset: 17,
                symbol: TAIL,
                kind: I386_REL32,
            },
        ]
    } else {
        &[
            Relocation {
                offset: 2,
                symbol: ENTRY,
                kind: relocation::AMD64_REL32,
            },
            Relocation {
                offset: 9,
                symbol: ENTRY,
                kind: relocation::AMD64_REL32,
            },
            Relocation {
                offset: 16,
                symbol: OWN_DESCRIPTOR,
                kind: relocation::AMD64_REL32,
            },
            Relocation {
                offset: 21,
                symbol: TAIL,
                kind: relocation::AMD64_REL32,
            },
        ]
    }
}

// The relocation of the tail's code.
fn tail_relocations(machine: MachineType) -> &'static [Relocation]
    ensures { result.now ≡ tail_relocations machine }
{
    if machine.is_32bit() {
        &[Relocation {
            offset: 8,
            symbol: HELPER,
            kind: I386_REL32,
        }]
    } else {
        &[Relocation {
            offset: 0x4C,
            symbol: HELPER,
            kind: relocation::AMD64_REL32,
        }]
    }
}

/// The object of the head of a library of this name, by its symbols.
pub(crate) fn head_object(
    alloc: Global,
    machine: MachineType,
    library: &str,
    tail: &str,
    handle: &str,
) -> Result<Vec<u8>, Error>
    requires library_text { holds 0 library.now ≡ false }
    requires tail { tail.now ≡ tail_symbol machine library.now }
    requires handle { handle.now ≡ handle_symbol library.now }
    ensures { EncodesObject (layout_of (head_object machine library.now)) result }
{
    if machine.is_32bit() {
        head_of_32_bits(alloc, machine, library, tail, handle)
    } else {
        head_of_64_bits(alloc, machine, library, tail, handle)
    }
}

// The head where addresses have 32 bits: no code is unwound by tables.
fn head_of_32_bits(
    alloc: Global,
    machine: MachineType,
    library: &str,
    tail: &str,
    handle: &str,
) -> Result<Vec<u8>, Error>
    requires width { is_32bit machine ≡ true }
    requires library_text { holds 0 library.now ≡ false }
    requires tail { tail.now ≡ tail_symbol machine library.now }
    requires handle { handle.now ≡ handle_symbol library.now }
    ensures { EncodesObject (layout_of (head_object machine library.now)) result }
{
    let sections = [
        section(
            TEXT_NAME,
            TEXT | flags::ALIGN_16BYTES,
            tail_code(machine),
            tail_relocations(machine),
        ),
        section(DATA_NAME, thunk_flags(machine), &[0; 4], &[]),
    ];
    let symbols = [
        symbol(tail, Place::Section(1), class::EXTERNAL),
        symbol(handle, Place::Section(2), class::EXTERNAL),
        symbol(helper_symbol(machine), Place::Undefined, class::EXTERNAL),
    ];
    write_table(alloc, machine, &sections, &symbols)
}

// These sections, in order.
fn four_sections<'a>(
    first: SectionRow<'a>,
    second: SectionRow<'a>,
    third: SectionRow<'a>,
    fourth: SectionRow<'a>,
) -> [SectionRow<'a>; 4]
    ensures { map section_row result ≡ section_row first.entry ∷ section_row second.entry
        ∷ section_row third.entry ∷ section_row fourth.entry ∷ [] }
{
    [first, second, third, fourth]
}

// The head where they have 64 bits, with how its code is unwound.
fn head_of_64_bits(
    alloc: Global,
    machine: MachineType,
    library: &str,
    tail: &str,
    handle: &str,
) -> Result<Vec<u8>, Error>
    requires width { is_32bit machine ≡ false }
    requires library_text { holds 0 library.now ≡ false }
    requires tail { tail.now ≡ tail_symbol machine library.now }
    requires handle { handle.now ≡ handle_symbol library.now }
    ensures { EncodesObject (layout_of (head_object machine library.now)) result }
{
    let codes = UNWIND_CODES;
    let function = UNWOUND_FUNCTION;
    let unwound = [
        image_relocation(machine, 0, 3),
        image_relocation(machine, 4, 3),
        image_relocation(machine, 8, 4),
    ];
    let sections = four_sections(
        section(
            TEXT_NAME,
            TEXT | flags::ALIGN_16BYTES,
            tail_code(machine),
            tail_relocations(machine),
        ),
        section(DATA_NAME, thunk_flags(machine), &[0; 8], &[]),
        section(*b".xdata\0\0", READ_ONLY, &codes, &[]),
        section(*b".pdata\0\0", READ_ONLY, &function, &unwound),
    );
    let symbols = [
        symbol(tail, Place::Section(1), class::EXTERNAL),
        symbol(handle, Place::Section(2), class::EXTERNAL),
        symbol(helper_symbol(machine), Place::Undefined, class::EXTERNAL),
        symbol(".text", Place::Section(1), class::STATIC),
        symbol(".xdata", Place::Section(3), class::STATIC),
    ];
    write_table(alloc, machine, &sections, &symbols)
}

/// The object of the tail, by its symbol: `library` names it, `dll` is its text.
pub(crate) fn tail_object(
    alloc: Global,
    machine: MachineType,
    library: &str,
    dll: &str,
    name: &str,
) -> Result<Vec<u8>, Error>
    requires library_text { holds 0 library.now ≡ false }
    requires name { name.now ≡ name_symbol library.now }
    ensures { EncodesObject (layout_of (tail_object machine
        (record { linked = library.now; text = dll.now }))) result }
{
    let end = zeros(alloc, thunk_width(machine))?;
    let text = ended_by_nul(alloc, dll)?;
    let sections = [
        section(*b".didat$4", thunk_flags(machine), &end, &[]),
        section(*b".didat$5", thunk_flags(machine), &end, &[]),
        section(*b".didat$7", TABLE_FLAGS, &text, &[]),
    ];
    let symbols = [symbol(name, Place::Section(3), class::EXTERNAL)];
    write_table(alloc, machine, &sections, &symbols)
}

// The entry of an export before its first call; only the first `thunk_width` bytes count.
fn unbound_entry(machine: MachineType) -> [u8; 8]
    ensures { take (thunk_width machine) result ≡ unbound_entry machine }
{
    [6, 0, 0, 0, 0, 0, 0, 0]
}

// The symbols of an export, by those of the code that all stubs share, of the DLL's name and its
// handle, and of the export's own entry.
fn export_symbols<'a>(
    export: &'a ShortExport,
    machine: MachineType,
    library: &str,
    tail: &'a str,
    name: &'a str,
    handle: &'a str,
    address: &'a str,
) -> [SymbolRow<'a>; 10]
    requires tail { tail.now ≡ tail_symbol machine library.now }
    requires name { name.now ≡ name_symbol library.now }
    requires handle { handle.now ≡ handle_symbol library.now }
    requires address { address.now ≡ imp_symbol (export_view export.now).name }
    ensures { map symbol_row result ≡ export_symbols machine library.now (export_view export.now) }
{
    [
        symbol(export.name.as_str(), Place::Section(1), class::EXTERNAL),
        symbol(address, Place::Section(3), class::EXTERNAL),
        symbol(tail, Place::Undefined, class::EXTERNAL),
        symbol(name, Place::Undefined, class::EXTERNAL),
        symbol(handle, Place::Undefined, class::EXTERNAL),
        symbol(".text", Place::Section(1), class::STATIC),
        symbol(".didat$2", Place::Section(2), class::STATIC),
        symbol(".didat$4", Place::Section(4), class::STATIC),
        symbol(".didat$5", Place::Section(3), class::STATIC),
        symbol(".didat$6", Place::Section(5), class::STATIC),
    ]
}

/// The object of an export, by its symbols: those of the code that all stubs share, of the DLL's
/// name and its handle, and of the export's own entry.
pub(crate) fn export_object<'a>(
    alloc: Global,
    export: &'a ShortExport,
    machine: MachineType,
    library: &str,
    tail: &'a str,
    name: &'a str,
    handle: &'a str,
    address: &'a str,
) -> Result<Vec<u8>, Error>
    requires library_text { holds 0 library.now ≡ false }
    requires name_text { holds 0 (export_view export.now).name ≡ false }
    requires filled { is_empty_text (export_view export.now).name ≡ false }
    requires tail { tail.now ≡ tail_symbol machine library.now }
    requires name { name.now ≡ name_symbol library.now }
    requires handle { handle.now ≡ handle_symbol library.now }
    requires address { address.now ≡ imp_symbol (export_view export.now).name }
    ensures { EncodesObject
        (layout_of (export_object machine library.now (export_view export.now))) result }
{
    let symbols = export_symbols(export, machine, library, tail, name, handle, address);
    write_export(alloc, export, machine, &symbols)
}

// The size in bytes of the data and the relocations of an export's sections, in their order.
fn contents_size(export: &ShortExport, machine: MachineType) -> usize
    ensures { result ≡ sum_by contents_size (export_sections machine (export_view export.now)) }
{
    let by_name = if export.no_name {
        0
    } else {
        RELOCATION_SIZE + HINT_SIZE + asked_by_hint_name(export, machine).len() + 1
    };
    let stub = stub_code(machine).len() + 4 * RELOCATION_SIZE;
    let descriptor = DESCRIPTOR_SIZE + 4 * RELOCATION_SIZE;
    let entry = thunk_width(machine) + RELOCATION_SIZE;
    stub + descriptor + entry + thunk_width(machine) + by_name
}

/// The size in bytes of the object of an export, by its symbols as in [`export_object`];
/// 2^64 - 1 where it is more.
pub(crate) fn export_size(
    export: &ShortExport,
    machine: MachineType,
    library: &str,
    tail: &str,
    name: &str,
    handle: &str,
    address: &str,
) -> usize
    requires tail { tail.now ≡ tail_symbol machine library.now }
    requires name { name.now ≡ name_symbol library.now }
    requires handle { handle.now ≡ handle_symbol library.now }
    requires address { address.now ≡ imp_symbol (export_view export.now).name }
    ensures { result ≡ min u64.MAX
        (encoded_size (layout_of (export_object machine library.now (export_view export.now)))) }
{
    let symbols = export_symbols(export, machine, library, tail, name, handle, address);
    EXPORT_HEADERS_SIZE
        .saturating_add(contents_size(export, machine))
        .saturating_add(names_size(&symbols))
}

// Writes the object of an export with these symbols.
fn write_export(
    alloc: Global,
    export: &ShortExport,
    machine: MachineType,
    symbols: &[SymbolRow],
) -> Result<Vec<u8>, Error>
    requires { CanBeHeld
        (object_with machine (export_view export.now) (map symbol_row symbols.now)) }
    ensures { EncodesObject (layout_of
        (object_with machine (export_view export.now) (map symbol_row symbols.now))) result }
{
    let descriptor = DESCRIPTOR;
    let of_descriptor = [
        image_relocation(machine, 4, NAME),
        image_relocation(machine, 8, HANDLE),
        image_relocation(machine, 12, ENTRY),
        image_relocation(machine, 16, THUNK),
    ];
    let to_stub = [relocated(0, STUB, word_kind(machine))];
    let to_name = [image_relocation(machine, 0, HINT_NAME)];
    let of_thunk = entry_relocations(export, &to_name);
    let thunk = thunk(export, machine);
    let thunk = &thunk[..thunk_width(machine)];
    let entry = unbound_entry(machine);
    let entry = &entry[..thunk_width(machine)];
    let hint_name = hint_name(alloc, export, machine)?;
    let sections = [
        section(
            TEXT_NAME,
            TEXT | flags::ALIGN_4BYTES,
            stub_code(machine),
            stub_relocations(machine),
        ),
        section(*b".didat$2", TABLE_FLAGS, &descriptor, &of_descriptor),
        section(*b".didat$5", thunk_flags(machine), entry, &to_stub),
        section(*b".didat$4", thunk_flags(machine), thunk, of_thunk),
        section(*b".didat$6", TABLE_FLAGS, &hint_name, &[]),
    ];
    write_table(alloc, machine, &sections, symbols)
}
