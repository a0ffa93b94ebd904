//! From a library and a DLL to what the imports of the one come to in the other, encoded in a
//! buffer.
//!
//! The DLL has one name: the given one, as of its file, or where that is empty the name in its
//! export directory. It is compared as loaders do it.

ghost use Rattle.implib_archive.specs.Pushed.{Pushes};
ghost use Rattle.implib_c_calls.specs.DllCheck.{DllToldFits, dll_told, encoded_dll_told};
ghost use Rattle.implib_c_calls.specs.DllCheck.{judgement_number, loss_number, name_given};
ghost use Rattle.implib_c_calls.specs.DllCheck.{names_given};
ghost use Rattle.implib_c_calls.specs.DllCheckAnswer.{DllCheckAnswers, EncodesDllCheck};
ghost use Rattle.implib_c_calls.specs.DllCheckAnswer.{LacksDllCheck};
ghost use Rattle.implib_c_calls.specs.Encoding.{encoded_list, encoded_number};
ghost use Rattle.implib_c_calls.specs.Given.{IsEncoding, length_given, place_given, status_given};
ghost use Rattle.implib_c_calls.specs.Status.{status_number};
ghost use Rattle.implib_dll.specs.Views.{exports_view};
ghost use Rattle.implib_read.specs.ClassViews.{member_read_view};
ghost use Rattle.std.specs.Prelude.{◌≡◌, ◌<◌, ◌^◌, All, IfErr, IfOk, OnOk, map};

use crate::definition::push_number;
use crate::outcome::{Failure, put_encoding};
use implib_compare::dll_check::{Judgement, Loss, asks_in, judgements, loader_name, missing};
use implib_dll::{Exports, ReadError};
use implib_read::{Library, MemberRead};
use std::alloc::{AllocError, Global};

// The number of why an import is lost.
fn loss_number(loss: Loss) -> u64
    ensures { result ≡ loss_number loss }
{
    match loss {
        Loss::OtherDll => 3,
        Loss::OtherMachine => 4,
        Loss::NotFound => 5,
        Loss::DataAsFunction => 6,
    }
}

// The number of what a member comes to.
fn judgement_number(judgement: Judgement) -> u64
    ensures { result ≡ judgement_number judgement }
{
    match judgement {
        Judgement::NoImport => 0,
        Judgement::Reached => 1,
        Judgement::Searched => 2,
        Judgement::Lost(loss) => loss_number(loss),
    }
}

// Appends what members come to: their number, and each of them.
fn push_judgements(bytes: &mut Vec<u8>, found: &[Judgement]) -> Result<(), AllocError>
    ensures { OnOk result (Pushes bytes.old.items bytes.new.items
        (encoded_list encoded_number (map judgement_number found.now))) }
{
    push_number(bytes, found.len() as u64)?;
    for judgement in found {
        push_number(bytes, judgement_number(*judgement))?;
    }
    Ok(())
}

// Appends indexes: their number, and each of them.
fn push_indexes(bytes: &mut Vec<u8>, indexes: &[usize]) -> Result<(), AllocError>
    ensures appended { OnOk result (Pushes bytes.old.items bytes.new.items
        (encoded_list encoded_number indexes.now)) }
    ensures fit { OnOk result (All (λ n. n < 2 ^ 64) indexes.now) }
{
    push_number(bytes, indexes.len() as u64)?;
    for index in indexes {
        push_number(bytes, *index as u64)?;
    }
    Ok(())
}

// The name that a DLL has.
fn name_given<'n>(name: &'n [u8], exports: &Exports<'n>) -> &'n [u8]
    ensures { result.now ≡ name_given name.now (exports_view exports.now) }
{
    if name.is_empty() { exports.dll } else { name }
}

// The names by which loaders know a DLL: one.
fn names_given(
    alloc: Global,
    name: &[u8],
    exports: &Exports<'_>,
) -> Result<Vec<Vec<u8>>, AllocError>
    ensures { IfOk result (λ names. map (λ one. one.items) names.items
        ≡ names_given name.now (exports_view exports.now)) }
{
    let mut names = Vec::new(alloc);
    names.push(loader_name(alloc, name_given(name, exports))?)?;
    Ok(names)
}

// What is told of members beside a DLL of this name, encoded.
fn encoding_of(
    alloc: Global,
    exports: &Exports<'_>,
    name: &[u8],
    members: &[MemberRead<'_>],
) -> Result<Vec<u8>, AllocError>
    ensures { IfOk result (λ bytes. IsEncoding encoded_dll_told DllToldFits
        (dll_told (exports_view exports.now) name.now (map member_read_view members.now))
        bytes.items) }
{
    let names = names_given(alloc, name, exports)?;
    let found = judgements(alloc, exports, &names, members)?;
    let asks = asks_in(alloc, &names, members)?;
    let unasked = missing(alloc, exports, &asks)?;
    let mut bytes = Vec::new(alloc);
    push_judgements(&mut bytes, &found)?;
    push_indexes(&mut bytes, &unasked)?;
    Ok(bytes)
}

// What is told of a library beside a DLL of this name, encoded.
fn read_dll_check(
    alloc: Global,
    library: &[u8],
    dll: &[u8],
    name: &[u8],
) -> Result<Vec<u8>, Failure>
    ensures ok { IfOk result (λ bytes. EncodesDllCheck library.now dll.now name.now bytes.items) }
    ensures lacks { IfErr result (LacksDllCheck library.now dll.now) }
{
    let Ok(found) = Library::read(alloc, library) else {
        return Err(Failure::OutOfMemory);
    };
    let Some(members) = found else {
        return Err(Failure::NotALibrary);
    };
    let found = match Exports::read(alloc, dll) {
        Ok(found) => found,
        Err(ReadError::Refused(fault)) => return Err(Failure::NotAnImage(fault.offset)),
        Err(ReadError::OutOfMemory) => return Err(Failure::OutOfMemory),
    };
    let Some(exports) = found else {
        return Err(Failure::NoExportDirectory);
    };
    match encoding_of(alloc, &exports, name, members.members.as_slice()) {
        Ok(bytes) => Ok(bytes),
        Err(_) => Err(Failure::OutOfMemory),
    }
}

/// Puts what the imports of a library come to in a DLL of this name at the beginning of the buffer.
/// Gives the length of its encoding. An error leaves the buffer as it was.
///
/// # Errors
///
/// The first that applies: `NotALibrary`, `NotAnImage`, `NoExportDirectory`, `BufferTooSmall`.
/// `OutOfMemory` can precede each.
pub fn check_dll_into(
    alloc: Global,
    library: &[u8],
    dll: &[u8],
    name: &[u8],
    buffer: &mut [u8],
) -> Result<usize, Failure>
    ensures { DllCheckAnswers library.now dll.now name.now buffer.old buffer.new
        (length_given result) (place_given result) (status_number (status_given result)) }
{
    let bytes = match read_dll_check(alloc, library, dll, name) {
        Ok(bytes) => bytes,
        Err(failure) => return Err(failure),
    };
    put_encoding(buffer, bytes.as_slice())
}
