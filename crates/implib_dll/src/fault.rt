//! Why a file is refused.

ghost use Rattle.std.specs.Prelude.{◌≡◌};
ghost use Rattle.implib_dll.specs.declared.fault.ReadError.TheVariants.{OutOfMemory};

use std::alloc::{AllocError, AllocFailed};

/// What is wrong with a file. The offset of a [`Fault`] is that of the field which each variant
/// names.
#[derive(Clone, Copy, Debug, PartialEq, Eq, thiserror::Error)]
pub enum Cause {
    /// The file has less than 64 bytes, or does not begin with `MZ`: offset 0.
    #[error("no MS-DOS header")]
    NoDosHeader,
    /// There is no `PE` signature with a COFF header where the offset at 0x3C leads.
    #[error("no PE signature")]
    NoPeSignature,
    /// The optional header leads out of the file, or is too small for the fields of its magic
    /// number or for the data directory that is read: SizeOfOptionalHeader.
    #[error("the optional header is cut")]
    OptionalHeaderCut,
    /// The magic number of the optional header is neither 0x10B nor 0x20B: Magic.
    #[error("unknown magic number of the optional header")]
    UnknownMagic,
    /// There are more than 96 sections, which the loader of Windows refuses: NumberOfSections.
    #[error("more than 96 sections")]
    TooManySections,
    /// The section table leads out of the file: NumberOfSections.
    #[error("the section table is cut")]
    SectionTableCut,
    /// A section begins before the one before it ends: VirtualAddress.
    #[error("sections overlap or do not ascend")]
    SectionsOverlap,
    /// The data of a section lead out of the file: PointerToRawData.
    #[error("the data of a section are cut")]
    SectionDataCut,
    /// The export directory is not in the data of one section: the entry of data directory 0.
    #[error("the export directory is outside of the sections")]
    DirectoryOutside,
    /// The name of the DLL, with its NUL, is not in the data of one section: Name RVA.
    #[error("the name of the DLL is outside of the sections")]
    DllNameOutside,
    /// The export address table is not in the data of one section: Export Address Table RVA.
    #[error("the export address table is outside of the sections")]
    AddressTableOutside,
    /// The name pointer table is not in the data of one section: Name Pointer RVA.
    #[error("the name pointer table is outside of the sections")]
    NameTableOutside,
    /// The ordinal table is not in the data of one section: Ordinal Table RVA.
    #[error("the ordinal table is outside of the sections")]
    OrdinalTableOutside,
    /// A forwarder, with its NUL, is not in the data of one section: its entry of the export
    /// address table.
    #[error("a forwarder is outside of the sections")]
    ForwarderOutside,
    /// An export's name, with its NUL, is not in the data of one section: its entry of the name
    /// pointer table.
    #[error("the name of an export is outside of the sections")]
    NameOutside,
    /// The forwarders and names so far, each with its NUL, or the names and thunks of imports, are
    /// together longer than the file, so that some overlap: the entry of the table that leads to
    /// the last.
    #[error("the names overlap, and are together longer than the file")]
    TextsTooLong,
    /// The import directory table is not in the data of a section: the entry of data directory 1.
    #[error("the import directory is outside of the sections")]
    ImportDirectoryOutside,
    /// No descriptor ends the import directory table: the entry of data directory 1.
    #[error("the import directory has no end")]
    ImportDirectoryOpen,
    /// The name of an imported DLL, with its NUL, is not in the data of one section: Name RVA.
    #[error("the name of an imported DLL is outside of the sections")]
    ImportedDllOutside,
    /// An import lookup table is not in the data of a section: Import Lookup Table RVA, or Import
    /// Address Table RVA where that is 0.
    #[error("an import lookup table is outside of the sections")]
    LookupTableOutside,
    /// No thunk ends an import lookup table, in its section and in as many bytes as there is room
    /// for: the same field.
    #[error("an import lookup table has no end")]
    LookupTableOpen,
    /// The hint and the name of an import, with its NUL, are not in the data of one section: its
    /// entry of the import lookup table.
    #[error("the name of an import is outside of the sections")]
    AskOutside,
}

/// What is wrong, and at which offset of the file, from 0.
#[derive(Clone, Copy, Debug, PartialEq, Eq)]
pub struct Fault {
    pub cause: Cause,
    pub offset: usize,
}

/// Why a file could not be read.
#[derive(Debug, Drop, thiserror::Error)]
pub enum ReadError {
    /// The file is refused for its first fault.
    #[error("{} (offset {})", .0.cause, .0.offset)]
    Refused(Fault),
    /// An allocation failed.
    #[error("out of memory")]
    OutOfMemory,
}

impl From<AllocError> for ReadError {
    ghost from_gives = { λ _ error. error ≡ OutOfMemory };

    fn from(_refused: AllocError) -> ReadError {
        ReadError::OutOfMemory
    }
}

impl<T: Drop> From<AllocFailed<T>> for ReadError {
    ghost from_gives = { λ _ error. error ≡ OutOfMemory };

    fn from(_refused: AllocFailed<T>) -> ReadError {
        ReadError::OutOfMemory
    }
}

/// A refusal for this cause.
pub(crate) fn refused(cause: Cause, offset: usize) -> ReadError
    ensures { result ≡ ReadError.Refused (record { cause = cause; offset = offset }) }
{
    ReadError::Refused(Fault { cause, offset })
}
