//! The short imports of a library.

ghost use Rattle.implib.specs.Definition.{export_view};
ghost use Rattle.implib.specs.Import.{holds};
ghost use Rattle.implib.specs.Members.NameRules.{holds_nul};
ghost use Rattle.implib_arm64ec.specs.KeptImports.{HasNoImport, IsKeptOf, Keeps, symbol_fault};
ghost use Rattle.implib_arm64ec.specs.LibraryImports.{IsFault, imports_fault, imports_of};
ghost use Rattle.implib_arm64ec.specs.ShortImports.{symbol_of};
ghost use Rattle.implib_arm64ec.specs.declared.library.ImportsError.TheVariants.{OutOfMemory};
ghost use Rattle.std.specs.Prelude.{map, string_bytes, IfErr, IfOk, None, Ok, OnOk, ◌≡◌};

use crate::arm64ec_imports::Arm64ecImports;
use crate::error::MarkError;
use crate::imports::{name_type, plain_symbol, symbol_of, third_text};
use crate::kept_import::{KeptImport, Numbers, is_short};
use implib::def::ShortExport;
use implib::msvc::import_type;
use std::alloc::{AllocError, AllocFailed, Global};

/// Why a library has no short imports.
#[derive(Clone, Copy, Debug, PartialEq, Eq, thiserror::Error)]
pub enum ImportsFault {
    /// The name of the DLL, or the library's name for the linker, holds a NUL.
    #[error("import name contains null byte")]
    NulInDllName,
    /// A text of the export at this index holds a NUL.
    #[error("export {0}: name contains null byte")]
    NulInExport(usize),
    /// The name of the function at this index has no reading as one of C++; it fails at the byte of
    /// this offset, or at the end of the name.
    #[error("export {0}: no name of C++ for ARM64EC, byte {1}")]
    Unreadable(usize, usize),
    /// The member of the export at this index has more than 2^32 - 1 bytes.
    #[error("export {0}: member too long")]
    MemberTooLong(usize),
}

/// Why there are no short imports: a fault, or a failed allocation.
#[derive(Debug, Drop, thiserror::Error)]
pub enum ImportsError {
    /// The first fault: of the names of the DLL, or of the first export that has one.
    #[error("{0}")]
    Invalid(#[from] ImportsFault),
    /// An allocation failed.
    #[error("out of memory")]
    OutOfMemory(AllocError),
}

impl<T: Drop> From<AllocFailed<T>> for ImportsError {
    ghost use Rattle.std.specs.Prelude.{alloc_error, ◌≡◌};

    ghost from_gives = { λ _ error. error ≡ OutOfMemory alloc_error };

    fn from(refused: AllocFailed<T>) -> ImportsError {
        ImportsError::OutOfMemory(AllocError::from(refused))
    }
}

impl From<AllocError> for ImportsError {
    ghost from_gives = { λ refused error. error ≡ OutOfMemory refused };

    fn from(refused: AllocError) -> ImportsError {
        ImportsError::OutOfMemory(refused)
    }
}

/// The short imports of all exports that are not private, in order, as members of a library under
/// its name for the linker.
///
/// # Errors
///
/// The first fault, or an allocation failed.
pub fn short_imports(
    alloc: Global,
    exports: &[ShortExport],
    library: &str,
    dll: &str,
) -> Result<Arm64ecImports, ImportsError>
    ensures made { IfOk result (λ members. members
        ≡ imports_of (record { linked = library.now; text = dll.now })
        (map export_view exports.now)) }
    ensures accepted { OnOk result (imports_fault (record { linked = library.now; text = dll.now })
        (map export_view exports.now) ≡ None) }
    ensures refused { IfErr result (IsFault (imports_fault
        (record { linked = library.now; text = dll.now }) (map export_view exports.now))) }
{
    if holds_nul(library) || holds_nul(dll) {
        return Err(ImportsError::Invalid(ImportsFault::NulInDllName));
    }
    let mut imports = Vec::with_capacity(alloc, exports.len())?;
    for index in 0..exports.len() {
        push_import(alloc, &mut imports, &exports[index], index, dll)?;
    }
    let linked = String::from_str(alloc, library)?;
    let text = String::from_str(alloc, dll)?;
    Ok(Arm64ecImports {
        library: linked,
        dll: text,
        imports,
    })
}

// Keeps the short import of the export at an index, unless it is private.
fn push_import(
    alloc: Global,
    imports: &mut Vec<KeptImport>,
    export: &ShortExport,
    index: usize,
    dll: &str,
) -> Result<(), ImportsError>
    ensures { Keeps dll.now index (export_view export.now) imports.old.items imports.new.items
        result }
{
    if export.private {
        return Ok(());
    }
    if has_nul(export) {
        return Err(ImportsError::Invalid(ImportsFault::NulInExport(index)));
    }
    let kept = kept_of(alloc, export, index, dll)?;
    imports.push(kept)?;
    Ok(())
}

// What is kept of the short import of the export at an index.
fn kept_of(
    alloc: Global,
    export: &ShortExport,
    index: usize,
    dll: &str,
) -> Result<KeptImport, ImportsError>
    ensures kept { IfOk result (IsKeptOf dll.now (export_view export.now)) }
    ensures refused { IfErr result (HasNoImport dll.now index (export_view export.now)) }
{
    let marked = symbol_at(alloc, export, index)?;
    let symbol = marked.as_str();
    let unmarked = plain_symbol(alloc, symbol)?;
    let plain = unmarked.as_str();
    let third = third_text(export, symbol, plain);
    if !is_short(symbol, dll, third) {
        return Err(ImportsError::Invalid(ImportsFault::MemberTooLong(index)));
    }
    let numbers = Numbers {
        ordinal: export.ordinal,
        import_type: import_type(export),
        name_type: name_type(export.no_name, third),
    };
    let kept = KeptImport::new(alloc, numbers, plain, symbol, third)?;
    Ok(kept)
}

// The symbol of the export at an index.
fn symbol_at(alloc: Global, export: &ShortExport, index: usize) -> Result<String, ImportsError>
    ensures ok { IfOk result (λ symbol. symbol_of (export_view export.now)
        ≡ Ok (string_bytes symbol)) }
    ensures refused { IfErr result
        (IsFault (symbol_fault index (symbol_of (export_view export.now)))) }
{
    match symbol_of(alloc, export) {
        Ok(symbol) => Ok(symbol),
        Err(MarkError::Unreadable(place)) => {
            Err(ImportsError::Invalid(ImportsFault::Unreadable(index, place)))
        }
        Err(MarkError::OutOfMemory(refused)) => Err(ImportsError::OutOfMemory(refused)),
    }
}

// Whether one of an export's texts holds a NUL.
fn has_nul(export: &ShortExport) -> bool
    ensures { result ≡ holds_nul (export_view export.now) }
{
    if holds_nul(export.name.as_str())
        || holds_nul(export.symbol_name.as_str())
        || holds_nul(export.alias_target.as_str())
    {
        return true;
    }
    match &export.asked_name {
        Some(name) => holds_nul(name.as_str()),
        None => false,
    }
}

// Whether a text holds a NUL.
fn holds_nul(text: &str) -> bool
    ensures { result ≡ holds 0 text.now }
{
    text.as_bytes().contains(&0)
}
