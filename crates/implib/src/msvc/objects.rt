//! The objects for Microsoft's linker: import descriptor, null descriptor and null thunk
//! (docs/FORMATS.md, "Members for Microsoft's linker").

ghost use Rattle.implib.specs.Import.{holds};
ghost use Rattle.implib.specs.Library.{member_view};
ghost use Rattle.implib.specs.Members.MsvcMembers.{descriptor_spec, null_descriptor_spec};
ghost use Rattle.implib.specs.Members.MsvcMembers.{null_thunk_spec};
ghost use Rattle.implib.specs.Members.MsvcObjects.{descriptor_symbols, null_descriptor_section};
ghost use Rattle.implib.specs.Members.MsvcObjects.{base_name, descriptor, descriptor_sections};
ghost use Rattle.implib.specs.Members.MsvcObjects.{descriptor_characteristics, descriptor_symbol};
ghost use Rattle.implib.specs.Members.MsvcObjects.{null_descriptor, null_descriptor_symbol};
ghost use Rattle.implib.specs.Members.MsvcObjects.{null_thunk, null_thunk_section};
ghost use Rattle.implib.specs.Members.MsvcObjects.{null_thunk_symbol};
ghost use Rattle.implib.specs.Views.Layout.{symbol_view};
ghost use Rattle.implib.specs.Formats.Writer.{section_view};
ghost use Rattle.implib.specs.Views.Making.{EncodesObject, MakesMember};
ghost use Rattle.std.specs.List.{ends_with};
ghost use Rattle.std.specs.Prelude.{[], false, map, nat_eq, string_bytes, ◌∷◌, ◌<◌, ◌≡◌, IfOk};

use crate::coff::constants::{characteristics, class, flags, section_number};
use crate::coff::layout::{LayoutSymbol, ObjectLayout, encode};
use crate::coff::object::Section;
use crate::error::Error;
use crate::import_tables::{DATA, descriptor, ended_by_nul, image_relocation, thunk_width, zeros};
use crate::machine::MachineType;
use crate::member::Member;
use std::alloc::{AllocError, Global};

// The symbol of the descriptor that ends the import directory.
const NULL_DESCRIPTOR_SYMBOL: &str = "__NULL_IMPORT_DESCRIPTOR";

#[tactic(auto, using(std::proofs::lemmas::Str::Pattern::ends_text))]
fn ends_with(text: &str, suffix: &str) -> bool
    ensures { result ≡ ends_with nat_eq text.now suffix.now }
{
    text.ends_with(suffix)
}

/// The DLL's name without a trailing `.dll` or `.exe`.
#[tactic(auto, unfolding(crate::specs::Members::MsvcObjects::base_name))]
pub fn base_name(dll: &str) -> &str
    ensures { result.now ≡ base_name dll.now }
{
    if ends_with(dll, ".dll") || ends_with(dll, ".exe") {
        &dll[..dll.len() - 4]
    } else {
        dll
    }
}

#[tactic(auto, unfolding(crate::specs::Members::MsvcObjects::descriptor_symbol))]
fn descriptor_symbol(alloc: Global, library: &str) -> Result<String, AllocError>
    ensures { IfOk result (λ symbol. string_bytes symbol ≡ descriptor_symbol library.now) }
{
    let mut symbol = String::from_str(alloc, "__IMPORT_DESCRIPTOR_")?;
    symbol.push_str(base_name(library))?;
    Ok(symbol)
}

// The symbol of the thunks that end the tables of the DLL.
#[tactic(auto, unfolding(crate::specs::Members::MsvcObjects::null_thunk_symbol))]
fn null_thunk_symbol(alloc: Global, library: &str) -> Result<String, AllocError>
    ensures { IfOk result (λ symbol. string_bytes symbol ≡ null_thunk_symbol library.now) }
{
    let mut symbol = String::from_str(alloc, "\x7F")?;
    symbol.push_str(base_name(library))?;
    symbol.push_str("_NULL_THUNK_DATA")?;
    Ok(symbol)
}

// The characteristics of the objects of the descriptors and of the null thunk.
fn descriptor_characteristics(machine: MachineType) -> u16
    ensures { result ≡ descriptor_characteristics machine }
{
    if machine.is_32bit() {
        characteristics::MACHINE_32BIT
    } else {
        0
    }
}

// A member of one archive symbol, of this name.
fn object_member(
    alloc: Global,
    library: &str,
    bytes: Vec<u8>,
    symbol: String,
) -> Result<Member, AllocError>
    ensures { IfOk result (λ m. member_view m ≡ record {
      name = library.now;
      bytes = bytes.items;
      symbols = string_bytes symbol ∷ [];
    }) }
{
    let name = String::from_str(alloc, library)?;
    Ok(Member::of_symbol(alloc, name, bytes, symbol)?)
}

// The sections of the import descriptor: the descriptor, and the DLL's name.
fn descriptor_sections(
    alloc: Global,
    machine: MachineType,
    dll: &str,
) -> Result<[Section; 2], AllocError>
    ensures { IfOk result
        (λ sections. map section_view sections ≡ descriptor_sections machine dll.now) }
{
    let relocations = vec![in alloc;
        image_relocation(machine, descriptor::NAME, 2),
        image_relocation(machine, descriptor::LOOKUP_TABLE, 3),
        image_relocation(machine, descriptor::ADDRESS_TABLE, 4),
    ]?;
    Ok([
        Section {
            name: *b".idata$2",
            flags: DATA | flags::ALIGN_4BYTES,
            bytes: zeros(alloc, descriptor::SIZE)?,
            relocations,
        },
        Section {
            name: *b".idata$6",
            flags: DATA | flags::ALIGN_2BYTES,
            bytes: ended_by_nul(alloc, dll)?,
            relocations: Vec::new(alloc),
        },
    ])
}

// The symbols of the import descriptor; three names are in the string table.
#[tactic(auto, unfolding(crate::specs::Members::MsvcObjects::descriptor))]
fn descriptor_symbols() -> [LayoutSymbol<'static>; 7]
    ensures { map symbol_view result ≡ descriptor_symbols }
{
    [
        LayoutSymbol::in_string_table(0, 1, class::EXTERNAL),
        LayoutSymbol::in_record(".idata$2", 1, class::SECTION),
        LayoutSymbol::in_record(".idata$6", 2, class::STATIC),
        LayoutSymbol::in_record(".idata$4", section_number::UNDEFINED, class::SECTION),
        LayoutSymbol::in_record(".idata$5", section_number::UNDEFINED, class::SECTION),
        LayoutSymbol::in_string_table(1, section_number::UNDEFINED, class::EXTERNAL),
        LayoutSymbol::in_string_table(2, section_number::UNDEFINED, class::EXTERNAL),
    ]
}

// The object of the import descriptor of a DLL, whose string table has its symbol, the null
// descriptor's and the null thunk's; the first and the last are named after the library.
fn descriptor_object<'a>(
    alloc: Global,
    machine: MachineType,
    library: &str,
    dll: &str,
    symbol: &'a str,
    null_thunk: &'a str,
) -> Result<Vec<u8>, Error>
    requires library_text { holds 0 library.now ≡ false }
    requires symbol { symbol.now ≡ descriptor_symbol library.now }
    requires null_thunk { null_thunk.now ≡ null_thunk_symbol library.now }
    ensures { EncodesObject
        (descriptor machine (record { linked = library.now; text = dll.now })) result }
{
    let sections = descriptor_sections(alloc, machine, dll)?;
    let symbols = descriptor_symbols();
    encode(
        alloc,
        &ObjectLayout {
            machine: machine.number(),
            characteristics: descriptor_characteristics(machine),
            sections: &sections,
            symbols: &symbols,
            strings: &[symbol, NULL_DESCRIPTOR_SYMBOL, null_thunk],
        },
    )
}

/// The import descriptor of a DLL, under the library's name for the linker.
#[tactic(auto, unfolding(crate::specs::Members::MsvcMembers::descriptor_spec, crate::specs::Members::MsvcObjects::null_descriptor_symbol))]
pub(crate) fn descriptor_member(
    alloc: Global,
    machine: MachineType,
    library: &str,
    dll: &str,
) -> Result<Member, Error>
    requires { holds 0 library.now ≡ false }
    ensures { MakesMember
        (descriptor_spec machine (record { linked = library.now; text = dll.now })) result }
{
    let symbol = descriptor_symbol(alloc, library)?;
    let thunk = null_thunk_symbol(alloc, library)?;
    let bytes = descriptor_object(
        alloc,
        machine,
        library,
        dll,
        symbol.as_str(),
        thunk.as_str(),
    )?;
    Ok(object_member(alloc, library, bytes, symbol)?)
}

fn null_descriptor_section(alloc: Global) -> Result<Section, AllocError>
    ensures { IfOk result (λ section. section_view section ≡ null_descriptor_section) }
{
    Ok(Section {
        name: *b".idata$3",
        flags: DATA | flags::ALIGN_4BYTES,
        bytes: zeros(alloc, descriptor::SIZE)?,
        relocations: Vec::new(alloc),
    })
}

fn null_descriptor_object(alloc: Global, machine: MachineType) -> Result<Vec<u8>, Error>
    ensures { EncodesObject (null_descriptor machine) result }
{
    let sections = [null_descriptor_section(alloc)?];
    encode(
        alloc,
        &ObjectLayout {
            machine: machine.number(),
            characteristics: descriptor_characteristics(machine),
            sections: &sections,
            symbols: &[LayoutSymbol::in_string_table(0, 1, class::EXTERNAL)],
            strings: &[NULL_DESCRIPTOR_SYMBOL],
        },
    )
}

/// The descriptor of zeros that ends the import directory.
#[tactic(auto, unfolding(crate::specs::Members::MsvcMembers::null_descriptor_spec, crate::specs::Members::MsvcObjects::null_descriptor_symbol))]
pub(crate) fn null_descriptor_member(
    alloc: Global,
    machine: MachineType,
    library: &str,
) -> Result<Member, Error>
    ensures { MakesMember (null_descriptor_spec machine library.now) result }
{
    let bytes = null_descriptor_object(alloc, machine)?;
    let symbol = String::from_str(alloc, NULL_DESCRIPTOR_SYMBOL)?;
    Ok(object_member(alloc, library, bytes, symbol)?)
}

// The section of a table's last thunk.
fn null_thunk_section(
    alloc: Global,
    machine: MachineType,
    name: [u8; 8],
) -> Result<Section, AllocError>
    ensures { IfOk result (λ section. section_view section ≡ null_thunk_section machine name) }
{
    let alignment = if machine.is_32bit() {
        flags::ALIGN_4BYTES
    } else {
        flags::ALIGN_8BYTES
    };
    Ok(Section {
        name,
        flags: DATA | alignment,
        bytes: zeros(alloc, thunk_width(machine))?,
        relocations: Vec::new(alloc),
    })
}

// The object of the null thunk, whose symbol is given.
fn null_thunk_object(
    alloc: Global,
    machine: MachineType,
    library: &str,
    symbol: &str,
) -> Result<Vec<u8>, Error>
    requires library_text { holds 0 library.now ≡ false }
    requires symbol { symbol.now ≡ null_thunk_symbol library.now }
    ensures { EncodesObject (null_thunk machine library.now) result }
{
    let address_table = null_thunk_section(alloc, machine, *b".idata$5")?;
    let lookup_table = null_thunk_section(alloc, machine, *b".idata$4")?;
    encode(
        alloc,
        &ObjectLayout {
            machine: machine.number(),
            characteristics: descriptor_characteristics(machine),
            sections: &[address_table, lookup_table],
            symbols: &[LayoutSymbol::in_string_table(0, 1, class::EXTERNAL)],
            strings: &[symbol],
        },
    )
}

/// The thunks of zeros that end the DLL's address table and lookup table.
#[tactic(auto, unfolding(crate::specs::Members::MsvcMembers::null_thunk_spec))]
pub(crate) fn null_thunk_member(
    alloc: Global,
    machine: MachineType,
    library: &str,
) -> Result<Member, Error>
    requires { holds 0 library.now ≡ false }
    ensures { MakesMember (null_thunk_spec machine library.now) result }
{
    let symbol = null_thunk_symbol(alloc, library)?;
    let bytes = null_thunk_object(alloc, machine, library, symbol.as_str())?;
    Ok(object_member(alloc, library, bytes, symbol)?)
}
