//! What a definition means: its library.

ghost use Rattle.std.specs.Option.{option_map};
ghost use Rattle.std.specs.Prelude.{◌≡◌, IfErr, IfOk, true};
ghost use Rattle.implib_compare.specs.Meant.{IsArm64ecFile, IsArm64ecFault, IsLibraryFor};
ghost use Rattle.implib_compare.specs.Meant.{IsRefusalFor};
ghost use Rattle.implib_rules.specs.Library.{IsLibrary, IsRefusalOfBytes};
ghost use Rattle.implib_rules.specs.Older.{IsLibraryAsked, IsRefusalOfBytesAsked};
ghost use Rattle.implib_rules.specs.Options.{library_options_view};

use implib_libraries::arm64ec::{Arm64ecRefusal, arm64ec_archive, arm64ec_library_for};
use implib_rules::library::{LibraryError, Refusal, archive_for, members_asked, write_library};
use implib_rules::options::LibraryOptions;
use std::alloc::Global;

/// The library of a definition, as `implib_dlltool` makes it with these options: what the
/// definition means.
///
/// # Errors
///
/// The definition is refused, or memory is.
pub fn library_meant(
    alloc: Global,
    definition: &[u8],
    options: &LibraryOptions,
) -> Result<Vec<u8>, Refusal>
    ensures library { IfOk result
        (λ file. IsLibrary definition.now (library_options_view options.now) file.items) }
    ensures refused { IfErr result
        (IsRefusalOfBytes definition.now (library_options_view options.now)) }
{
    let mut file = Vec::new(alloc);
    match write_library(alloc, definition, options, &mut file) {
        Ok(()) => Ok(file),
        Err(LibraryError::Refused(refusal)) => Err(refusal),
        Err(LibraryError::Writing(_)) => Err(Refusal::OutOfMemory),
    }
}

// The same with the older symbols of addresses.
fn library_with_older_symbols(
    alloc: Global,
    definition: &[u8],
    options: &LibraryOptions,
) -> Result<Vec<u8>, Refusal>
    ensures library { IfOk result
        (λ file. IsLibraryAsked true definition.now (library_options_view options.now) file.items) }
    ensures refused { IfErr result
        (IsRefusalOfBytesAsked true definition.now (library_options_view options.now)) }
{
    let members = members_asked(alloc, definition, options, true)?;
    let archive = archive_for(alloc, &members, options.flavor)?;
    Ok(archive.to_vec(alloc)?)
}

/// The library of a definition, as `implib_dlltool` makes it with these options, with the older
/// symbols of addresses (`-C`) or without. Microsoft's flavour has none.
///
/// # Errors
///
/// The definition is refused, or memory is.
pub fn library_for(
    alloc: Global,
    definition: &[u8],
    options: &LibraryOptions,
    older_symbols: bool,
) -> Result<Vec<u8>, Refusal>
    ensures library { IfOk result
        (λ file. IsLibraryFor older_symbols definition.now (library_options_view options.now)
        file.items) }
    ensures refused { IfErr result
        (IsRefusalFor older_symbols definition.now (library_options_view options.now)) }
{
    if older_symbols {
        library_with_older_symbols(alloc, definition, options)
    } else {
        library_meant(alloc, definition, options)
    }
}

/// Why texts have no library for ARM64EC.
#[derive(Drop)]
pub enum Arm64ecFault {
    /// One of them is refused.
    OfTexts(Arm64ecRefusal),
    /// Their members have no archive.
    OfArchive(Refusal),
}

/// The library for ARM64EC of a definition, and of a native one, as `implib_dlltool` makes it with
/// these options. Their machine and flavour are of no effect.
///
/// # Errors
///
/// A definition or the archive is refused, or memory is.
pub fn arm64ec_file_for(
    alloc: Global,
    definition: &[u8],
    native: Option<&[u8]>,
    options: &LibraryOptions,
) -> Result<Vec<u8>, Arm64ecFault>
    ensures library { IfOk result
        (λ file. IsArm64ecFile definition.now (option_map (λ text. text.now) native.entry)
        (library_options_view options.now) file.items) }
    ensures refused { IfErr result
        (IsArm64ecFault definition.now (option_map (λ text. text.now) native.entry)
        (library_options_view options.now)) }
{
    let library = match arm64ec_library_for(alloc, definition, native, options) {
        Ok(library) => library,
        Err(refusal) => return Err(Arm64ecFault::OfTexts(refusal)),
    };
    let archive = match arm64ec_archive(&library, alloc) {
        Ok(archive) => archive,
        Err(refusal) => return Err(Arm64ecFault::OfArchive(refusal)),
    };
    match archive.to_vec(alloc) {
        Ok(file) => Ok(file),
        Err(_) => Err(Arm64ecFault::OfTexts(Arm64ecRefusal::OutOfMemory)),
    }
}
