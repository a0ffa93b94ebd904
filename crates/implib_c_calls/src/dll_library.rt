//! From the file of a DLL and options to the library of all that it exports, or to what is wrong.

ghost use Rattle.implib_c_calls.specs.DllLibrary.{DllLibraryAnswers, failure_unmade};
ghost use Rattle.implib_c_calls.specs.DllLibrary.{failure_unsaid};
ghost use Rattle.implib_c_calls.specs.Given.{length_given, place_given, status_given};
ghost use Rattle.implib_c_calls.specs.LibraryWith.{given_options};
ghost use Rattle.implib_c_calls.specs.Status.{status_number};
ghost use Rattle.std.specs.Prelude.{◌≡◌};

use crate::dll_exports::exports_of_file;
use crate::export::ExportFault;
use crate::library_with::{OptionsArguments, options_with, pack_for};
use crate::outcome::Failure;
use implib_libraries::from_dll::Unsaid;
use implib_libraries::of_dll::{Unmade, members_of_dll};
use std::alloc::Global;

// What an export that no definition can have becomes.
fn failure_unsaid(unsaid: Unsaid) -> Failure
    ensures { result ≡ failure_unsaid unsaid }
{
    match unsaid {
        Unsaid::NotUtf8(position) => Failure::NoExport(ExportFault::NotUtf8, position),
        Unsaid::LargeHint(position) => Failure::NoExport(ExportFault::OutOfRange, position),
        Unsaid::LargeOrdinal(ordinal) => {
            Failure::NoExport(ExportFault::OutOfRange, ordinal as usize)
        }
        Unsaid::OutOfMemory => Failure::OutOfMemory,
    }
}

// What a DLL without a library becomes.
fn failure_unmade(unmade: Unmade) -> Failure
    ensures { result ≡ failure_unmade unmade }
{
    match unmade {
        Unmade::NameNotUtf8 => Failure::DllNotUtf8,
        Unmade::Unsaid(unsaid) => failure_unsaid(unsaid),
        Unmade::NoName => Failure::NoDllName,
        Unmade::Members(fault) => Failure::Refused(fault),
        Unmade::OutOfMemory => Failure::OutOfMemory,
    }
}

/// Puts the library of all that the DLL in a file exports at the beginning of the buffer. Gives its
/// length. An error leaves the buffer as it was.
///
/// # Errors
///
/// The first that applies: `UnknownMachine`, `UnknownFlavor`, `UnknownFlags`, `DllNotUtf8`;
/// `NotAnImage`, `NoExportDirectory`; `OtherMachine`; `NoExport`, with the position of its name or
/// its ordinal; `DllNotUtf8`, of the name in the export directory; `NoDllName`, `Refused`,
/// `NoArchive`, `BufferTooSmall`. `OutOfMemory` can precede the last nine, and come where none
/// applies.
pub fn dll_library_into(
    alloc: Global,
    dll: &[u8],
    arguments: OptionsArguments<'_>,
    buffer: &mut [u8],
) -> Result<usize, Failure>
    ensures { DllLibraryAnswers dll.now (given_options arguments.entry) buffer.old buffer.new
        (length_given result) (place_given result) (status_number (status_given result)) }
{
    let options = match options_with(arguments) {
        Ok(options) => options,
        Err(failure) => return Err(failure),
    };
    let exports = match exports_of_file(alloc, dll) {
        Ok(exports) => exports,
        Err(failure) => return Err(failure),
    };
    if exports.machine != arguments.machine {
        return Err(Failure::OtherMachine);
    }
    match members_of_dll(alloc, &exports, "", &options) {
        Ok(members) => pack_for(alloc, buffer, &members, options.flavor),
        Err(unmade) => Err(failure_unmade(unmade)),
    }
}
