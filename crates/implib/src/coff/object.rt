//! What an object is made of: sections, relocations and symbols.

ghost use Rattle.implib.specs.Formats.Writer.{added_view, section_view};
ghost use Rattle.std.specs.Prelude.{◌≡◌, [], IfOk, None};

use std::alloc::{AllocError, Global};

/// A section of an object, with its relocations (PE/COFF specification, "Section Table").
#[derive(Debug, Drop)]
pub struct Section {
    /// The name, filled with NUL.
    pub name: [u8; 8],
    /// The flags, a sum of those in `coff::flags`.
    pub flags: u32,
    /// The data: at most 2^32 - 1 bytes.
    pub bytes: Vec<u8>,
    /// The relocations of the data: at most 65,535.
    pub relocations: Vec<Relocation>,
}

impl Section {
    /// A section with a copy of these bytes, at most 2^32 - 1 of them, and without relocations. The
    /// name is filled with NUL; the flags are a sum of those in `coff::flags`.
    ///
    /// # Errors
    ///
    /// `AllocError` where memory for the copy cannot be allocated.
    pub fn new(
        alloc: Global,
        name: [u8; 8],
        flags: u32,
        bytes: &[u8],
    ) -> Result<Section, AllocError>
        ensures { IfOk result (λ section. section_view section
            ≡ record { name = name; flags = flags; bytes = bytes.now; relocations = [] }) }
    {
        Ok(Section {
            name,
            flags,
            bytes: Vec::from_slice(alloc, bytes)?,
            relocations: Vec::new(alloc),
        })
    }
}

/// A relocation: the address of a symbol goes into a field of a section's data (PE/COFF
/// specification, "COFF Relocations").
#[derive(Clone, Copy, Debug)]
pub struct Relocation {
    /// The offset in bytes of the field in the data.
    pub offset: u32,
    /// The index of the symbol, auxiliary records counted, from 0.
    pub symbol: u32,
    /// The type, one of `coff::relocation` for the object's machine.
    pub kind: u16,
}

/// A symbol (PE/COFF specification, "COFF Symbol Table").
#[derive(Debug, Drop)]
pub struct Symbol {
    /// The name: one byte or more, without NUL. One of more than 8 bytes goes into the string
    /// table.
    pub name: String,
    /// The value: the offset in bytes in the section, where the symbol is defined in one.
    pub value: u32,
    /// The section that the symbol is defined in, if any.
    pub place: Place,
    /// The storage class, one of `coff::class`.
    pub class: u8,
    /// The auxiliary record, if any, 18 bytes.
    pub aux: Option<[u8; 18]>,
}

impl Symbol {
    /// A symbol of value 0 without an auxiliary record. The name has one byte or more, and no NUL.
    ///
    /// # Errors
    ///
    /// `AllocError` where memory for a copy of the name cannot be allocated.
    pub fn new(alloc: Global, name: &str, place: Place, class: u8) -> Result<Symbol, AllocError>
        ensures { IfOk result (λ symbol. added_view symbol
            ≡ record { name = name.now; value = 0; place = place; class = class; aux = None }) }
    {
        Ok(Symbol {
            name: String::from_str(alloc, name)?,
            value: 0,
            place,
            class,
            aux: None,
        })
    }
}

/// The section that a symbol is defined in (PE/COFF specification, "Section Number Values").
#[derive(Clone, Copy, Debug, PartialEq, Eq)]
pub enum Place {
    /// None: another object defines it (`IMAGE_SYM_UNDEFINED`).
    Undefined,
    /// The section of this number, from 1.
    Section(u16),
    /// None: its value is no address (`IMAGE_SYM_ABSOLUTE`).
    Absolute,
    /// None: it is for a debugger (`IMAGE_SYM_DEBUG`).
    Debug,
}
