//! A writer whose allocations fail. With each allocation of a test failed in turn (`checks/memory`)
//! the first test still passes, and the other two fail equally often.

ghost use Rattle.implib.specs.Formats.Writer.{with_section, with_symbol};
ghost use Rattle.std.specs.Prelude.{◌≡◌, None, [], OnErr, OnOk, codes};

use implib::coff::{ObjectWriter, Place, Relocation, Section, Symbol, class};
use implib::{Error, MachineType};
use std::alloc::Global;
use std::process::Abort;
use std::test::Fail;

const NAME: [u8; 8] = *b".idata$2";

const DATA: [u8; 20] = [0; 20];

const PLACE: Relocation = Relocation {
    offset: 16,
    symbol: 0,
    kind: 2,
};

// An object of nothing.
const NOTHING: &[u8] = b"\x64\xaa\0\0\0\0\0\0\x14\0\0\0\0\0\0\0\0\0\0\0\x04\0\0\0";

// Then with a section.
const ONE_SECTION: &[u8] = b"\x64\xaa\x01\0\0\0\0\0\x50\0\0\0\0\0\0\0\0\0\0\0\
    .idata$2\0\0\0\0\0\0\0\0\x14\0\0\0\x3c\0\0\0\0\0\0\0\0\0\0\0\0\0\0\0\x40\0\x30\xc0\
    \0\0\0\0\0\0\0\0\0\0\0\0\0\0\0\0\0\0\0\0\
    \x04\0\0\0";

// Then with a symbol.
const ONE_SYMBOL: &[u8] = b"\x64\xaa\x01\0\0\0\0\0\x50\0\0\0\x01\0\0\0\0\0\0\0\
    .idata$2\0\0\0\0\0\0\0\0\x14\0\0\0\x3c\0\0\0\0\0\0\0\0\0\0\0\0\0\0\0\x40\0\x30\xc0\
    \0\0\0\0\0\0\0\0\0\0\0\0\0\0\0\0\0\0\0\0\
    \0\0\0\0\x04\0\0\0\0\0\0\0\0\0\0\0\x02\0\
    \x0e\0\0\0abcdefghi\0";

// Then with a relocation.
const ONE_RELOCATION: &[u8] = b"\x64\xaa\x01\0\0\0\0\0\x5a\0\0\0\x01\0\0\0\0\0\0\0\
    .idata$2\0\0\0\0\0\0\0\0\x14\0\0\0\x3c\0\0\0\x50\0\0\0\0\0\0\0\x01\0\0\0\x40\0\x30\xc0\
    \0\0\0\0\0\0\0\0\0\0\0\0\0\0\0\0\0\0\0\0\
    \x10\0\0\0\0\0\0\0\x02\0\
    \0\0\0\0\x04\0\0\0\0\0\0\0\0\0\0\0\x02\0\
    \x0e\0\0\0abcdefghi\0";

// Whether it was memory that was refused.
fn is_memory(refused: &Error) -> bool {
    matches!(refused, Error::OutOfMemory(_))
}

// Adds the first section.
fn add_data(alloc: Global, writer: &mut ObjectWriter) -> Result<(), Error>
    requires { writer.old.sections ≡ [] }
    ensures ok { OnOk result (writer.new ≡ with_section writer.old
        (record { name = NAME; flags = 0xC0300040; bytes = DATA; relocations = [] })) }
    ensures err { OnErr result (writer.new ≡ writer.old) }
{
    let data = Section::new(alloc, NAME, 0xC030_0040, DATA.as_slice())?;
    writer.add_section(data)?;
    Ok(())
}

// Adds the first symbol.
fn add_name(alloc: Global, writer: &mut ObjectWriter) -> Result<(), Error>
    requires { writer.old.symbols ≡ [] }
    ensures ok { OnOk result (writer.new ≡ with_symbol writer.old
        (record {
          name = codes "abcdefghi";
          value = 0;
          place = Place.Undefined;
          class = 2;
          aux =
              None;
        })) }
    ensures err { OnErr result (writer.new ≡ writer.old) }
{
    let name = Symbol::new(alloc, "abcdefghi", Place::Undefined, class::EXTERNAL)?;
    writer.add_symbol(name)?;
    Ok(())
}

// Holds that a writer writes this object.
fn expect_object(rt: &impl Abort, writer: &ObjectWriter, want: &[u8]) -> Result<(), Error> {
    assert_eq!(rt; writer.write()?.as_slice(), want);
    Ok(())
}

#[test]
fn a_writer_is_unchanged_by_refused_memory(rt: HostRuntime) -> Result<(), Fail> {
    let alloc = rt.alloc();
    let mut writer = ObjectWriter::new(alloc, MachineType::ARM64);
    if let Err(refused) = add_data(alloc, &mut writer) {
        assert!(rt; is_memory(&refused));
        expect_object(&rt, &writer, NOTHING)?;
        add_data(alloc, &mut writer)?;
    }
    if let Err(refused) = add_name(alloc, &mut writer) {
        assert!(rt; is_memory(&refused));
        expect_object(&rt, &writer, ONE_SECTION)?;
        add_name(alloc, &mut writer)?;
    }
    if let Err(refused) = writer.add_relocation(1, PLACE) {
        assert!(rt; is_memory(&refused));
        expect_object(&rt, &writer, ONE_SYMBOL)?;
        writer.add_relocation(1, PLACE)?;
    }
    let bytes = match writer.write() {
        Ok(bytes) => bytes,
        Err(refused) => {
            assert!(rt; is_memory(&refused));
            writer.write()?
        }
    };
    assert_eq!(rt; bytes.as_slice(), ONE_RELOCATION);
    Ok(())
}

// Writes an object of one section with this many bytes, and gives its length.
fn written(alloc: Global, size: usize) -> Result<usize, Error> {
    let mut writer = ObjectWriter::new(alloc, MachineType::AMD64);
    let data = Section {
        name: NAME,
        flags: 0xC030_0040,
        bytes: vec![in alloc; 0u8; size]?,
        relocations: Vec::new(alloc),
    };
    writer.add_section(data)?;
    let bytes = writer.write()?;
    Ok(bytes.len())
}

#[test]
fn an_object_of_eight_bytes_is_written(rt: HostRuntime) -> Result<(), Fail> {
    assert_eq!(rt; written(rt.alloc(), 8)?, 72);
    Ok(())
}

#[test]
fn an_object_of_seventy_thousand_bytes_is_written(rt: HostRuntime) -> Result<(), Fail> {
    assert_eq!(rt; written(rt.alloc(), 70_000)?, 70_064);
    Ok(())
}
