//! From the file of a DLL to what it exports, encoded in a buffer.

ghost use Rattle.implib_archive.specs.Pushed.{Pushes};
ghost use Rattle.implib_c_calls.specs.DllExports.{DllFits, ExportFits, address_number, dll_rows};
ghost use Rattle.implib_c_calls.specs.DllExports.{encoded_dll, encoded_export, target_address};
ghost use Rattle.implib_c_calls.specs.DllExports.{target_forwarder, target_number};
ghost use Rattle.implib_c_calls.specs.DllExportsAnswer.{EncodesExports, ExportsAnswers};
ghost use Rattle.implib_c_calls.specs.DllExportsAnswer.{LacksExports, export_row_found};
ghost use Rattle.implib_c_calls.specs.Encoding.{encoded_list, encoded_text};
ghost use Rattle.implib_c_calls.specs.Given.{IsEncoding, length_given, place_given, status_given};
ghost use Rattle.implib_c_calls.specs.Status.{status_number};
ghost use Rattle.implib_dll.specs.Exports.{exports_in};
ghost use Rattle.implib_dll.specs.Views.{exports_view, target_view};
ghost use Rattle.implib_dll.specs.declared.section.Layout.TheVariants.{File};
ghost use Rattle.std.specs.Prelude.{◌≡◌, All, IfErr, IfOk, Ok, OnOk, Some, map};

use crate::definition::{push_number, push_text};
use crate::outcome::{Failure, put_encoding};
use implib_dll::{AddressKind, Exports, ReadError, Row, Target};
use std::alloc::{AllocError, Global};

// The number of what is at an address.
fn address_number(kind: AddressKind) -> u64
    ensures { result ≡ address_number kind }
{
    match kind {
        AddressKind::Code => 1,
        AddressKind::Data => 2,
        AddressKind::Outside => 3,
    }
}

// The number of a target.
fn target_number(target: Target<'_>) -> u64
    ensures { result ≡ target_number (target_view target.entry) }
{
    match target {
        Target::Empty => 0,
        Target::Address(_, kind) => address_number(kind),
        Target::Forwarder(_) => 4,
    }
}

// The address of a target, or 0.
fn target_address(target: Target<'_>) -> u64
    ensures { result ≡ target_address (target_view target.entry) }
{
    match target {
        Target::Address(address, _) => u64::from(address),
        Target::Empty | Target::Forwarder(_) => 0,
    }
}

// The text of a forwarder, or none.
fn target_forwarder<'a>(target: Target<'a>) -> &'a [u8]
    ensures { result.now ≡ target_forwarder (target_view target.entry) }
{
    match target {
        Target::Forwarder(text) => text,
        Target::Empty | Target::Address(_, _) => b"",
    }
}

// Appends names: their number, and each of them.
fn push_names(bytes: &mut Vec<u8>, names: &[&[u8]]) -> Result<(), AllocError>
    ensures { OnOk result (Pushes bytes.old.items bytes.new.items
        (encoded_list encoded_text (map (λ name. name.now) names.now))) }
{
    push_number(bytes, names.len() as u64)?;
    for name in names {
        push_text(bytes, *name)?;
    }
    Ok(())
}

// Appends an ordinal.
fn push_export(bytes: &mut Vec<u8>, row: &Row<'_>) -> Result<(), AllocError>
    ensures appended { OnOk result (Pushes bytes.old.items bytes.new.items
        (encoded_export (export_row_found row.now))) }
    ensures fit { OnOk result (ExportFits (export_row_found row.now)) }
{
    push_number(bytes, u64::from(row.ordinal))?;
    push_number(bytes, target_number(row.target))?;
    push_number(bytes, target_address(row.target))?;
    push_text(bytes, target_forwarder(row.target))?;
    push_names(bytes, &row.names)
}

// Appends ordinals: their number, and each of them.
fn push_exports(bytes: &mut Vec<u8>, rows: &[Row<'_>]) -> Result<(), AllocError>
    ensures appended { OnOk result (Pushes bytes.old.items bytes.new.items
        (encoded_list encoded_export (map export_row_found rows.now))) }
    ensures fit { OnOk result (All (λ r. ExportFits (export_row_found r)) rows.now) }
{
    push_number(bytes, rows.len() as u64)?;
    for row in rows {
        push_export(bytes, row)?;
    }
    Ok(())
}

// What a DLL exports, encoded.
fn encoding_of(alloc: Global, exports: &Exports<'_>) -> Result<Vec<u8>, AllocError>
    ensures { IfOk result (λ bytes. IsEncoding encoded_dll DllFits
        (dll_rows (exports_view exports.now)) bytes.items) }
{
    let rows = exports.rows(alloc)?;
    let mut bytes = Vec::new(alloc);
    push_number(&mut bytes, u64::from(exports.machine))?;
    push_text(&mut bytes, exports.dll)?;
    push_exports(&mut bytes, &rows)?;
    Ok(bytes)
}

/// What the DLL in a file exports.
///
/// # Errors
///
/// `NotAnImage`, `NoExportDirectory`, `OutOfMemory`.
pub(crate) fn exports_of_file(alloc: Global, file: &[u8]) -> Result<Exports<'_>, Failure>
    ensures ok { IfOk result
        (λ exports. exports_in File file.now ≡ Ok (Some (exports_view exports))) }
    ensures lacks { IfErr result (LacksExports file.now) }
{
    match Exports::read(alloc, file) {
        Ok(Some(exports)) => Ok(exports),
        Ok(None) => Err(Failure::NoExportDirectory),
        Err(ReadError::Refused(fault)) => Err(Failure::NotAnImage(fault.offset)),
        Err(ReadError::OutOfMemory) => Err(Failure::OutOfMemory),
    }
}

// What the DLL in a file exports, encoded.
fn read_exports(alloc: Global, file: &[u8]) -> Result<Vec<u8>, Failure>
    ensures ok { IfOk result (λ bytes. EncodesExports file.now bytes.items) }
    ensures lacks { IfErr result (LacksExports file.now) }
{
    let exports = match exports_of_file(alloc, file) {
        Ok(exports) => exports,
        Err(failure) => return Err(failure),
    };
    match encoding_of(alloc, &exports) {
        Ok(bytes) => Ok(bytes),
        Err(_) => Err(Failure::OutOfMemory),
    }
}

/// Puts what the DLL in a file exports at the beginning of the buffer. Gives the length of its
/// encoding. An error leaves the buffer as it was.
///
/// # Errors
///
/// The first that applies: `NotAnImage`, `NoExportDirectory`, `BufferTooSmall`. `OutOfMemory` can
/// precede each.
pub fn exports_into(alloc: Global, file: &[u8], buffer: &mut [u8]) -> Result<usize, Failure>
    ensures { ExportsAnswers file.now buffer.old buffer.new (length_given result)
        (place_given result) (status_number (status_given result)) }
{
    let bytes = match read_exports(alloc, file) {
        Ok(bytes) => bytes,
        Err(failure) => return Err(failure),
    };
    put_encoding(buffer, bytes.as_slice())
}
