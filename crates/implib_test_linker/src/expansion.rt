//! Short imports, taken for the objects that they stand for (`docs/FORMATS.md`, "Placement").

use super::code::{AMD64, ARM64, ARMNT, I386};
use super::object::{Flaw, Object, Relocation, Section, Symbol};
use super::short_import::{Ask, ShortImport, is_short_import, short_import_in};
use std::alloc::Global;
use std::test::Fail;

/// The texts and bytes of the object that a short import stands for.
#[derive(Drop)]
pub struct Expansion {
    machine: u16,
    /// 0 code, 1 data, 2 a constant.
    import_type: u16,
    descriptor: String,
    symbol: String,
    entry: String,
    thunk: Vec<u8>,
    /// The hint and the name, where it asks by name.
    hint_name: Option<Vec<u8>>,
}

/// What a linker for a machine takes a file for, if that is a short import which it takes: one for
/// the machine, with an import type and a name type that the specification has.
pub fn expanded(alloc: Global, file: &[u8], machine: u16) -> Result<Option<Expansion>, Fail> {
    if !is_short_import(file) {
        return Ok(None);
    }
    let import = short_import_in(file)?;
    match import.ask() {
        Ok(ask) if import.machine == machine && import.import_type() != 3 => {
            Ok(Some(expansion_of(alloc, &import, ask)?))
        }
        _ => Ok(None),
    }
}

/// The expansion of a short import that asks so.
fn expansion_of(alloc: Global, import: &ShortImport, ask: Ask) -> Result<Expansion, Fail> {
    let name = import.symbol;
    let base = match import.dll.rsplit_once('.') {
        Some((base, _)) => base,
        None => import.dll,
    };
    let (thunk, hint_name) = match ask {
        Ask::Ordinal(ordinal) => (thunk_by_ordinal(alloc, import.machine, ordinal)?, None),
        Ask::Name(name, hint) => (
            Vec::from_slice(alloc, thunk_of_zeros(import.machine))?,
            Some(hint_name(alloc, name, hint)?),
        ),
    };
    Ok(Expansion {
        machine: import.machine,
        import_type: import.import_type(),
        descriptor: format!(in alloc; "__IMPORT_DESCRIPTOR_{base}")?,
        symbol: String::from_str(alloc, name)?,
        entry: format!(in alloc; "__imp_{name}")?,
        thunk,
        hint_name,
    })
}

/// Whether a machine's thunks have 4 bytes, and not 8.
fn is_32bit(machine: u16) -> bool {
    machine == I386 || machine == ARMNT
}

/// A thunk of zeros.
fn thunk_of_zeros(machine: u16) -> &'static [u8] {
    if is_32bit(machine) { &[0; 4] } else { &[0; 8] }
}

/// A thunk by ordinal: the top bit, and the ordinal.
fn thunk_by_ordinal(alloc: Global, machine: u16, ordinal: u16) -> Result<Vec<u8>, Fail> {
    let [low, high] = ordinal.to_le_bytes();
    if is_32bit(machine) {
        Ok(Vec::from_slice(alloc, &[low, high, 0, 0x80])?)
    } else {
        Ok(Vec::from_slice(alloc, &[low, high, 0, 0, 0, 0, 0, 0x80])?)
    }
}

/// The hint, the name and a NUL.
fn hint_name(alloc: Global, name: &str, hint: u16) -> Result<Vec<u8>, Fail> {
    let mut bytes = Vec::from_slice(alloc, &hint.to_le_bytes())?;
    bytes.extend_from_slice(name.as_bytes())?;
    bytes.push(0)?;
    Ok(bytes)
}

/// The stub of a machine, and its relocations: offsets and types.
fn stub(machine: u16) -> Result<(&'static [u8], &'static [(usize, u16)]), Flaw> {
    match machine {
        I386 => Ok((b"\xFF\x25\0\0\0\0\x90\x90", &[(2, 6)])),
        AMD64 => Ok((b"\xFF\x25\0\0\0\0\x90\x90", &[(2, 4)])),
        ARMNT => Ok((b"\0\xC0\x9F\xE5\0\xF0\x9C\xE5\0\0\0\0", &[(8, 0x0A)])),
        ARM64 => Ok((
            b"\x10\0\0\x90\x10\x02\x40\xF9\0\x02\x1F\xD6",
            &[(0, 4), (4, 7)],
        )),
        _ => Err("a machine has no stub"),
    }
}

/// The type of an image-relative relocation.
fn image_relative(machine: u16) -> Result<u16, Flaw> {
    match machine {
        I386 => Ok(7),
        AMD64 => Ok(3),
        ARMNT | ARM64 => Ok(2),
        _ => Err("a machine has no image-relative relocation"),
    }
}

impl Expansion {
    /// The object.
    pub fn object(&self, alloc: Global) -> Result<Object<'_>, Fail> {
        let sections = self.sections(alloc)?;
        Ok(Object::new(self.machine, sections, self.symbols(alloc)?))
    }

    /// The sections: the stub, both tables, and the hint and the name.
    fn sections(&self, alloc: Global) -> Result<Vec<Section<'_>>, Fail> {
        let mut sections = Vec::new(alloc);
        sections.push(self.code(alloc)?)?;
        sections.push(self.table(alloc, ".idata$5")?)?;
        sections.push(self.table(alloc, ".idata$4")?)?;
        if let Some(hint_name) = &self.hint_name {
            sections.push(Section {
                name: ".idata$6",
                flags: 0xC020_0040,
                data: hint_name.as_slice(),
                relocations: Vec::new(alloc),
                address: None,
            })?;
        }
        Ok(sections)
    }

    /// The symbols, of which the hint's and the name's is number 3.
    fn symbols(&self, alloc: Global) -> Result<Vec<Symbol<'_>>, Fail> {
        let mut symbols = vec![in alloc;
            Symbol::new(self.descriptor.as_str(), 0, 2),
            Symbol::new(".text", 1, 3),
            Symbol::new(self.entry.as_str(), 2, 2),
        ]?;
        if self.hint_name.is_some() {
            symbols.push(Symbol::new(".idata$6", 4, 3))?;
        }
        match self.import_type {
            0 => symbols.push(Symbol::new(self.symbol.as_str(), 1, 2))?,
            2 => symbols.push(Symbol::new(self.symbol.as_str(), 2, 2))?,
            _ => {}
        }
        Ok(symbols)
    }

    /// Section 1: the stub of code, which jumps by the entry, symbol 2.
    fn code(&self, alloc: Global) -> Result<Section<'_>, Fail> {
        let (bytes, fields) = stub(self.machine)?;
        let mut relocations = Vec::new(alloc);
        let mut data: &[u8] = &[];
        if self.import_type == 0 {
            data = bytes;
            for (offset, kind) in fields {
                relocations.push(Relocation {
                    offset: *offset,
                    symbol: 2,
                    kind: *kind,
                })?;
            }
        }
        Ok(Section {
            name: ".text",
            flags: 0x6030_0020,
            data,
            relocations,
            address: None,
        })
    }

    /// A thunk, which leads by name to the hint and the name, symbol 3.
    fn table(&self, alloc: Global, name: &'static str) -> Result<Section<'_>, Fail> {
        let mut relocations = Vec::new(alloc);
        if self.hint_name.is_some() {
            relocations.push(Relocation {
                offset: 0,
                symbol: 3,
                kind: image_relative(self.machine)?,
            })?;
        }
        let flags = if is_32bit(self.machine) {
            0xC030_0040
        } else {
            0xC040_0040
        };
        Ok(Section {
            name,
            flags,
            data: self.thunk.as_slice(),
            relocations,
            address: None,
        })
    }
}
