//! An object by the writer of objects.

ghost use Rattle.implib.specs.Formats.Layout.{HasNoNul};
ghost use Rattle.implib.specs.Formats.Object.{object_in};
ghost use Rattle.implib.specs.Formats.Writer.{written_object};
ghost use Rattle.implib_tests.specs.Using.Callers.{data_object};
ghost use Rattle.std.specs.Prelude.{IfOk, Some, length, ◌<◌, ◌≡◌};

use implib::coff::{ObjectWriter, Place, Section, Symbol, class, flags};
use implib::{Error, MachineType};
use std::alloc::Global;

/// An object with these bytes in `.data`, and an external symbol at the first of them.
///
/// The name has a byte or more, and no NUL.
pub fn data_object(
    alloc: Global,
    machine: MachineType,
    name: &str,
    bytes: &[u8],
) -> Result<Vec<u8>, Error>
    requires named { 0 < length name.now }
    requires no_nul { HasNoNul name.now }
    ensures { IfOk result (λ object. object_in object.items
        ≡ Some (written_object (data_object machine name.now bytes.now))) }
{
    let mut writer = ObjectWriter::new(alloc, machine);
    let flags = flags::CNT_INITIALIZED_DATA
        | flags::ALIGN_4BYTES
        | flags::MEM_READ
        | flags::MEM_WRITE;
    let data = Section::new(alloc, *b".data\0\0\0", flags, bytes)?;
    let section = writer.add_section(data)?;
    let place = Place::Section(section);
    writer.add_symbol(Symbol::new(alloc, name, place, class::EXTERNAL)?)?;
    writer.write()
}
