//! From a text, a native one and options to the library for ARM64EC that the program makes of them,
//! or to what is wrong.

ghost use Rattle.implib_arm64ec.specs.Archive.{ec_archive, library_refusal};
ghost use Rattle.implib_c_calls.specs.Arm64ec.{AreTextsWithin, Arm64ecAnswers, IsNativeWithin};
ghost use Rattle.implib_c_calls.specs.Arm64ec.{IsUnimportedWithin, LacksEcArchive};
ghost use Rattle.implib_c_calls.specs.Arm64ec.{failure_native, failure_of_texts, failure_packing};
ghost use Rattle.implib_c_calls.specs.Arm64ec.{failure_unimported, library_held, native_given};
ghost use Rattle.implib_c_calls.specs.Given.{Puts, length_given, place_given, status_given};
ghost use Rattle.implib_c_calls.specs.LibraryWith.{given_options};
ghost use Rattle.implib_c_calls.specs.Status.{status_number};
ghost use Rattle.std.specs.Option.{option_map};
ghost use Rattle.std.specs.Prelude.{◌≡◌, None};

use crate::encoding::put_bytes;
use crate::library_with::{OptionsArguments, failure_in, options_with, place_in};
use crate::outcome::{Failure, place_of};
use implib::Fault;
use implib_arm64ec::ImportsFault;
use implib_libraries::arm64ec::{
    Arm64ecLibrary, Arm64ecRefusal, Unimported, arm64ec_archive, arm64ec_library_for,
};
use implib_rules::library::Refusal;
use std::alloc::Global;

// The native definition, where one is given.
fn native_with<'a>(has_native: u32, native: &'a [u8]) -> Option<&'a [u8]>
    ensures { option_map (λ text. text.now) result ≡ native_given has_native native.now }
{
    if has_native == 0 {
        return None;
    }
    Some(native)
}

// What a fault of short imports becomes: its offset is in the text with its byte order mark.
fn failure_unimported(text: &[u8], why: Unimported) -> Failure
    requires { IsUnimportedWithin text.now why }
    ensures { result ≡ failure_unimported text.now why }
{
    let Unimported { fault, position } = why;
    match fault {
        ImportsFault::NulInDllName => Failure::RefusedAt(Fault::NulInImportName, 0),
        ImportsFault::NulInExport(index) => {
            let offset = place_in(text, position.offset);
            Failure::RefusedAt(Fault::NulInExport(index), offset)
        }
        ImportsFault::Unreadable(_, _) => Failure::Unreadable(place_in(text, position.offset)),
        ImportsFault::MemberTooLong(_) => {
            Failure::RefusedAt(Fault::MemberTooLong, place_in(text, position.offset))
        }
    }
}

// What a refusal of the native definition becomes, or without one of the members that ARM64 has.
fn failure_native(native: Option<&[u8]>, refusal: Refusal) -> Failure
    requires { IsNativeWithin (option_map (λ text. text.now) native) refusal }
    ensures { result ≡ failure_native (option_map (λ text. text.now) native.entry) refusal }
{
    match native {
        None => failure_in(b"", refusal),
        Some(text) => match failure_in(text, refusal) {
            Failure::OutOfMemory => Failure::OutOfMemory,
            failure => Failure::OfNative(place_of(&Err(failure))),
        },
    }
}

// What a refusal of the texts becomes.
fn failure_of_texts(text: &[u8], native: Option<&[u8]>, refusal: Arm64ecRefusal) -> Failure
    requires { AreTextsWithin text.now (option_map (λ text. text.now) native) refusal }
    ensures { result ≡ failure_of_texts text.now (option_map (λ text. text.now) native.entry)
        refusal }
{
    match refusal {
        Arm64ecRefusal::OfDefinition(refusal) => failure_in(text, refusal),
        Arm64ecRefusal::OfImports(why) => failure_unimported(text, why),
        Arm64ecRefusal::OfNative(refusal) => failure_native(native, refusal),
        Arm64ecRefusal::OutOfMemory => Failure::OutOfMemory,
    }
}

// What a refusal of an archive becomes.
fn failure_packing(refusal: Refusal) -> Failure
    ensures { result ≡ failure_packing refusal }
{
    match refusal {
        Refusal::Archive(fault) => Failure::NoArchive(fault),
        _ => Failure::OutOfMemory,
    }
}

// Puts the archive of a library for ARM64EC at the beginning of the buffer, where there is room.
// Gives its length. It is made beside the buffer, which a failed allocation so leaves as it was.
fn pack_library(
    alloc: Global,
    buffer: &mut [u8],
    library: &Arm64ecLibrary,
) -> Result<usize, Failure>
    ensures { Puts (ec_archive (library_held library.now))
        (library_refusal (library_held library.now) ≡ None)
        (LacksEcArchive (library_held library.now)) buffer.old buffer.new result }
{
    let archive = match arm64ec_archive(library, alloc) {
        Ok(archive) => archive,
        Err(refusal) => return Err(failure_packing(refusal)),
    };
    let needed = archive.len() as usize;
    if buffer.len() < needed {
        return Err(Failure::BufferTooSmall(needed));
    }
    let bytes = archive.to_vec(alloc)?;
    Ok(put_bytes(buffer, 0, bytes.as_slice()))
}

/// Puts the library for ARM64EC of a text, and of a native one where `has_native` is not 0, at the
/// beginning of the buffer. Gives its length. An error leaves the buffer as it was. The machine and
/// the flavour are of no effect, but have to be known.
///
/// # Errors
///
/// The first that applies: `UnknownMachine`, `UnknownFlavor`, `UnknownFlags`, `DllNotUtf8`;
/// `OfNative`, where the native text could name the DLL; `NotUtf8`, `SyntaxError`, `NoDllName`;
/// `RefusedAt`, `Unreadable`; `OfNative`; `NoArchive`, `BufferTooSmall`. `OutOfMemory` can precede
/// all but the first four, and come where none applies.
pub fn arm64ec_library_into(
    alloc: Global,
    text: &[u8],
    native: &[u8],
    has_native: u32,
    arguments: OptionsArguments<'_>,
    buffer: &mut [u8],
) -> Result<usize, Failure>
    ensures { Arm64ecAnswers text.now (native_given has_native native.now)
        (given_options arguments.entry) buffer.old buffer.new
        (length_given result) (place_given result) (status_number (status_given result)) }
{
    let options = match options_with(arguments) {
        Ok(options) => options,
        Err(failure) => return Err(failure),
    };
    let native = native_with(has_native, native);
    match arm64ec_library_for(alloc, text, native, &options) {
        Ok(library) => pack_library(alloc, buffer, &library),
        Err(refusal) => Err(failure_of_texts(text, native, refusal)),
    }
}
