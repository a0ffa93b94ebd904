//! The parts of an object's import tables, for either linker (docs/FORMATS.md, "Import tables").

ghost use Rattle.implib.specs.Formats.Constants.{image_relative};
ghost use Rattle.implib.specs.Import.{imp_symbol};
ghost use Rattle.implib.specs.Members.ImportTables.{relocation, thunk_width, zeros};
ghost use Rattle.std.specs.Prelude.{[], string_bytes, ◌++◌, ◌∷◌, ◌≡◌, IfOk};

use crate::coff::constants::{flags, relocation};
use crate::coff::object::Relocation;
use crate::machine::MachineType;
use std::alloc::{AllocError, Global};

/// An import descriptor (PE/COFF specification, "Import Directory Table").
pub(crate) mod descriptor {
    /// The size in bytes.
    pub(crate) const SIZE: usize = 20;
    /// The offset in bytes of the lookup table's address.
    pub(crate) const LOOKUP_TABLE: u32 = 0;
    /// The offset in bytes of the name's address.
    pub(crate) const NAME: u32 = 12;
    /// The offset in bytes of the address table's address.
    pub(crate) const ADDRESS_TABLE: u32 = 16;
}

/// The flags of `.data` and of the import tables, without the alignment: initialised data that is
/// read and written.
pub const DATA: u32 = flags::CNT_INITIALIZED_DATA | flags::MEM_READ | flags::MEM_WRITE;

// The prefix of the symbol of an import's address.
const ADDRESS_PREFIX: &str = "__imp_";

// The type of an image-relative relocation.
fn image_relative(machine: MachineType) -> u16
    ensures { result ≡ image_relative machine }
{
    match machine {
        MachineType::I386 => relocation::I386_DIR32NB,
        MachineType::ARMNT => relocation::ARM_ADDR32NB,
        MachineType::AMD64 => relocation::AMD64_ADDR32NB,
        MachineType::ARM64 => relocation::ARM64_ADDR32NB,
    }
}

/// The size in bytes of a thunk, an entry of the address table or the lookup table (PE/COFF
/// specification, "Import Lookup Table").
pub fn thunk_width(machine: MachineType) -> usize
    ensures { result ≡ thunk_width machine }
{
    if machine.is_32bit() { 4 } else { 8 }
}

/// `count` zero bytes.
///
/// # Errors
///
/// An allocation failed.
pub fn zeros(alloc: Global, count: usize) -> Result<Vec<u8>, AllocError>
    ensures { IfOk result (λ bytes. bytes.items ≡ zeros count) }
{
    Ok(vec![in alloc; 0; count]?)
}

/// An image-relative relocation at an offset in bytes, to the symbol of this index.
pub fn image_relocation(machine: MachineType, offset: u32, symbol: u32) -> Relocation
    ensures { result ≡ relocation machine offset symbol }
{
    Relocation {
        offset,
        symbol,
        kind: image_relative(machine),
    }
}

/// The `__imp_` symbol of a symbol: the address that a loader fills in.
///
/// # Errors
///
/// An allocation failed.
pub fn imp_symbol(alloc: Global, symbol: &str) -> Result<String, AllocError>
    ensures { IfOk result (λ address. string_bytes address ≡ imp_symbol symbol.now) }
{
    let length = symbol.len().saturating_add(ADDRESS_PREFIX.len());
    let mut address = String::with_capacity(alloc, length)?;
    address.push_str(ADDRESS_PREFIX)?;
    address.push_str(symbol)?;
    Ok(address)
}

/// The text, followed by a NUL.
///
/// # Errors
///
/// An allocation failed.
pub fn ended_by_nul(alloc: Global, text: &str) -> Result<Vec<u8>, AllocError>
    ensures { IfOk result (λ bytes. bytes.items ≡ text.now ++ 0 ∷ []) }
{
    let mut bytes = Vec::with_capacity(alloc, text.len().saturating_add(1))?;
    bytes.extend_from_slice(text.as_bytes())?;
    bytes.push(0)?;
    Ok(bytes)
}
