//! The import descriptor and the null descriptor, with a symbol that is named after the library.

ghost use Rattle.implib.specs.Formats.Writer.{IsPlaceAmong, IsSymbolIndex, all_entries, layout_of};
ghost use Rattle.implib.specs.Formats.Writer.{with_relocation};
ghost use Rattle.implib.specs.Formats.Writer.{HasRoomFor, with_section, with_symbol};
ghost use Rattle.implib.specs.Formats.Object.{section_numbered};
ghost use Rattle.implib.specs.Import.{holds};
ghost use Rattle.implib.specs.Library.{member_view};
ghost use Rattle.implib.specs.Members.Gnu.{added, section};
ghost use Rattle.implib.specs.Members.ImportTables.{relocation};
ghost use Rattle.implib.specs.Formats.Constants.{class_external};
ghost use Rattle.implib.specs.Members.MsvcObjects.{descriptor_sections};
ghost use Rattle.implib.specs.Members.MsvcObjects.{descriptor_symbol};
ghost use Rattle.implib.specs.Members.MsvcObjects.{null_descriptor_section, null_thunk_symbol};
ghost use Rattle.implib.specs.declared.coff.object.Place.TheVariants.{Section as InSection};
ghost use Rattle.implib.specs.Views.Making.{EncodesObject, MakesMember, MakesMembers};
ghost use Rattle.implib_libraries.specs.NullDescriptor.Named.{descriptor_symbols, named_descriptor};
ghost use Rattle.implib_libraries.specs.NullDescriptor.Named.{named_descriptor_spec};
ghost use Rattle.implib_libraries.specs.NullDescriptor.Named.{named_null, named_null_spec};
ghost use Rattle.implib_libraries.specs.NullDescriptor.Named.{named_null_symbol, named_specs};
ghost use Rattle.std.specs.Prelude.{[], IfErr, IfOk, IsSomeAnd, OnOk, alloc_error, false};
ghost use Rattle.std.specs.Prelude.{length};
ghost use Rattle.std.specs.Prelude.{string_bytes, ◌+◌, ◌<◌, ◌^◌, ◌∷◌, ◌≡◌};

use implib::coff::{ObjectWriter, Place, Section, Symbol, class, flags};
use implib::import_tables::{ended_by_nul, image_relocation};
use implib::msvc::objects::base_name;
use implib::{Error, MachineType, Member};
use std::alloc::{AllocError, Global};

// The flags of the descriptors: 0xC0300040.
const TABLE_FLAGS: u32 = flags::CNT_INITIALIZED_DATA
    | flags::ALIGN_4BYTES
    | flags::MEM_READ
    | flags::MEM_WRITE;

// The flags of the DLL's name: 0xC0200040.
const TEXT_FLAGS: u32 = flags::CNT_INITIALIZED_DATA
    | flags::ALIGN_2BYTES
    | flags::MEM_READ
    | flags::MEM_WRITE;

// Adds a section without relocations.
fn add_section(
    alloc: Global,
    writer: &mut ObjectWriter,
    name: [u8; 8],
    flags: u32,
    bytes: &[u8],
) -> Result<(), Error>
    requires { length writer.old.sections < 32767 }
    ensures ok { OnOk result
        (writer.new ≡ with_section writer.old (section name flags bytes.now [])) }
    ensures memory { IfErr result (λ e. e ≡ Error.OutOfMemory alloc_error) }
{
    writer.add_section(Section::new(alloc, name, flags, bytes)?)?;
    Ok(())
}

// Adds a symbol.
fn add_symbol(
    alloc: Global,
    writer: &mut ObjectWriter,
    name: &str,
    place: Place,
    class: u8,
) -> Result<(), Error>
    requires named { 0 < length name.now }
    requires no_nul { holds 0 name.now ≡ false }
    requires place { IsPlaceAmong (length writer.old.sections) place }
    requires room { length (all_entries writer.old.symbols) + 1 < 2 ^ 32 }
    ensures ok { OnOk result (writer.new ≡ with_symbol writer.old (added name.now place class)) }
    ensures memory { IfErr result (λ e. e ≡ Error.OutOfMemory alloc_error) }
{
    writer.add_symbol(Symbol::new(alloc, name, place, class)?)?;
    Ok(())
}

// Adds a relocation of the first section to a symbol, relative to the image.
fn relocate(
    writer: &mut ObjectWriter,
    machine: MachineType,
    offset: u32,
    symbol: u32,
) -> Result<(), Error>
    requires section { IsSomeAnd (section_numbered writer.old.sections 1)
        (HasRoomFor (relocation machine offset symbol)) }
    requires symbol { IsSymbolIndex writer.old.symbols symbol }
    ensures ok { OnOk result
        (writer.new ≡ with_relocation writer.old 1 (relocation machine offset symbol)) }
    ensures memory { IfErr result (λ e. e ≡ Error.OutOfMemory alloc_error) }
{
    writer.add_relocation(1, image_relocation(machine, offset, symbol))
}

// The symbols of the import descriptor.
fn add_descriptor_symbols(
    alloc: Global,
    writer: &mut ObjectWriter,
    symbol: &str,
    null: &str,
    null_thunk: &str,
) -> Result<(), Error>
    requires sections { length writer.old.sections ≡ 2 }
    requires symbols { writer.old.symbols ≡ [] }
    requires symbol { (0 < length symbol.now) × (holds 0 symbol.now ≡ false) }
    requires null { (0 < length null.now) × (holds 0 null.now ≡ false) }
    requires null_thunk { (0 < length null_thunk.now) × (holds 0 null_thunk.now ≡ false) }
    ensures ok { OnOk result (writer.new ≡ record writer.old {
      symbols = descriptor_symbols symbol.now null.now null_thunk.now;
    }) }
    ensures memory { IfErr result (λ e. e ≡ Error.OutOfMemory alloc_error) }
{
    add_symbol(alloc, writer, symbol, Place::Section(1), class::EXTERNAL)?;
    add_symbol(alloc, writer, ".idata$2", Place::Section(1), class::SECTION)?;
    add_symbol(alloc, writer, ".idata$6", Place::Section(2), class::STATIC)?;
    add_symbol(alloc, writer, ".idata$4", Place::Undefined, class::SECTION)?;
    add_symbol(alloc, writer, ".idata$5", Place::Undefined, class::SECTION)?;
    add_symbol(alloc, writer, null, Place::Undefined, class::EXTERNAL)?;
    add_symbol(alloc, writer, null_thunk, Place::Undefined, class::EXTERNAL)
}

// The bytes of the object that a writer holds.
fn written(writer: &ObjectWriter) -> Result<Vec<u8>, Error>
    ensures { EncodesObject (layout_of writer.now) result }
{
    writer.write()
}

// The object of the import descriptor, by its symbols.
fn descriptor_object(
    alloc: Global,
    machine: MachineType,
    dll: &str,
    symbol: &str,
    null: &str,
    null_thunk: &str,
) -> Result<Vec<u8>, Error>
    requires symbol { (0 < length symbol.now) × (holds 0 symbol.now ≡ false) }
    requires null { (0 < length null.now) × (holds 0 null.now ≡ false) }
    requires null_thunk { (0 < length null_thunk.now) × (holds 0 null_thunk.now ≡ false) }
    ensures { EncodesObject (layout_of (record {
      machine = machine;
      sections = descriptor_sections machine dll.now;
      symbols = descriptor_symbols symbol.now null.now null_thunk.now;
    })) result }
{
    let mut writer = ObjectWriter::new(alloc, machine);
    add_section(alloc, &mut writer, *b".idata$2", TABLE_FLAGS, &[0; 20])?;
    let text = ended_by_nul(alloc, dll)?;
    add_section(alloc, &mut writer, *b".idata$6", TEXT_FLAGS, &text)?;
    add_descriptor_symbols(alloc, &mut writer, symbol, null, null_thunk)?;
    relocate(&mut writer, machine, 12, 2)?;
    relocate(&mut writer, machine, 0, 3)?;
    relocate(&mut writer, machine, 16, 4)?;
    written(&writer)
}

// The object of the null descriptor, by its symbol.
fn null_object(alloc: Global, machine: MachineType, null: &str) -> Result<Vec<u8>, Error>
    requires { (0 < length null.now) × (holds 0 null.now ≡ false) }
    ensures { EncodesObject (layout_of (record {
      machine = machine;
      sections = null_descriptor_section ∷ [];
      symbols = added null.now (InSection 1) class_external ∷ [];
    })) result }
{
    let mut writer = ObjectWriter::new(alloc, machine);
    add_section(alloc, &mut writer, *b".idata$3", TABLE_FLAGS, &[0; 20])?;
    add_symbol(alloc, &mut writer, null, Place::Section(1), class::EXTERNAL)?;
    written(&writer)
}

// The symbol of the null descriptor.
#[tactic(auto, unfolding(crate::specs::NullDescriptor::Named::named_null_symbol))]
fn null_symbol(alloc: Global, library: &str) -> Result<String, AllocError>
    ensures { IfOk result (λ null. string_bytes null ≡ named_null_symbol library.now) }
{
    let mut null = String::from_str(alloc, "__NULL_IMPORT_DESCRIPTOR_")?;
    null.push_str(base_name(library))?;
    Ok(null)
}

// A member of one archive symbol.
fn member_of_symbol(
    alloc: Global,
    name: &str,
    bytes: Vec<u8>,
    symbol: &str,
) -> Result<Member, AllocError>
    ensures { IfOk result (λ m. member_view m ≡ record {
      name = name.now;
      bytes = bytes.items;
      symbols = symbol.now ∷ [];
    }) }
{
    let name = String::from_str(alloc, name)?;
    let symbol = String::from_str(alloc, symbol)?;
    Ok(Member {
        name,
        bytes,
        symbols: vec![in alloc; symbol]?,
    })
}

// The import descriptor of a library, by the symbols.
#[tactic(auto, unfolding(crate::specs::NullDescriptor::Named::named_descriptor_spec, crate::specs::NullDescriptor::Named::named_descriptor))]
fn descriptor_member(
    alloc: Global,
    machine: MachineType,
    library: &str,
    dll: &str,
    symbol: &str,
    null: &str,
    null_thunk: &str,
) -> Result<Member, Error>
    requires library_text { holds 0 library.now ≡ false }
    requires symbol { symbol.now ≡ descriptor_symbol library.now }
    requires null { null.now ≡ named_null_symbol library.now }
    requires null_thunk { null_thunk.now ≡ null_thunk_symbol library.now }
    ensures { MakesMember
        (named_descriptor_spec machine (record { linked = library.now; text = dll.now })) result }
{
    let bytes = descriptor_object(alloc, machine, dll, symbol, null, null_thunk)?;
    Ok(member_of_symbol(alloc, library, bytes, symbol)?)
}

// The null descriptor of a library, by its symbol.
#[tactic(auto, unfolding(crate::specs::NullDescriptor::Named::named_null_spec, crate::specs::NullDescriptor::Named::named_null))]
fn null_member(
    alloc: Global,
    machine: MachineType,
    library: &str,
    null: &str,
) -> Result<Member, Error>
    requires library_text { holds 0 library.now ≡ false }
    requires null { null.now ≡ named_null_symbol library.now }
    ensures { MakesMember (named_null_spec machine library.now) result }
{
    let bytes = null_object(alloc, machine, null)?;
    Ok(member_of_symbol(alloc, library, bytes, null)?)
}

/// The import descriptor and the null descriptor of a library under its name for the linker, by the
/// symbols of the descriptor and of the null thunk.
pub(crate) fn headers(
    alloc: Global,
    machine: MachineType,
    library: &str,
    dll: &str,
    symbol: &str,
    null_thunk: &str,
) -> Result<Vec<Member>, Error>
    requires library_text { holds 0 library.now ≡ false }
    requires symbol { symbol.now ≡ descriptor_symbol library.now }
    requires null_thunk { null_thunk.now ≡ null_thunk_symbol library.now }
    ensures { MakesMembers
        (named_specs machine (record { linked = library.now; text = dll.now })) result }
{
    let null = null_symbol(alloc, library)?;
    let null = null.as_str();
    let descriptor = descriptor_member(alloc, machine, library, dll, symbol, null, null_thunk)?;
    let null = null_member(alloc, machine, library, null)?;
    Ok(vec![in alloc; descriptor, null]?)
}
