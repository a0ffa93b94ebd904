//! An export as C passes it.

ghost use Rattle.implib.specs.Definition.{export_view};
ghost use Rattle.implib_c_calls.specs.Flags.{has_flag};
ghost use Rattle.implib_c_calls.specs.LibraryOf.{IsAccepted, IsExportFault, export_given};
ghost use Rattle.implib_c_calls.specs.LibraryOf.{given_export};
ghost use Rattle.std.specs.Prelude.{◌≡◌, IfErr, IfOk, OnOk};

use implib::def::ShortExport;
use std::alloc::{AllocError, Global};

// The flags of an export: `IMPLIB_EXPORT_..` of the header.
const NO_NAME: u32 = 1;

const DATA: u32 = 2;

const CONSTANT: u32 = 4;

const PRIVATE: u32 = 8;

/// An export of a DLL: `struct implib_export` of the header.
#[repr(C)]
#[derive(Clone, Copy, Debug)]
pub struct Export<'a> {
    /// The name, as a text has it: the word before `=` or `==`.
    pub name: &'a [u8],
    /// What follows `==`; empty for none.
    pub target: &'a [u8],
    /// The ordinal, or 0.
    pub ordinal: u16,
    /// A sum of the flags.
    pub flags: u32,
}

/// Why an export is refused by itself.
#[derive(Clone, Copy, Debug)]
pub enum ExportFault {
    /// An unknown flag is set.
    UnknownFlags,
    /// A name is not UTF-8.
    NotUtf8,
    /// Of a DLL's export: the position of its name, or its ordinal without one, is above 65,535.
    OutOfRange,
}

// Whether a flag is set.
pub(crate) fn has_flag(flags: u32, flag: u32) -> bool
    ensures { result ≡ has_flag flags flag }
{
    flags & flag != 0
}

/// The name and the target.
///
/// # Errors
///
/// The flags are refused first.
pub fn names_of<'a>(export: &Export<'a>) -> Result<(&'a str, &'a str), ExportFault>
    ensures accepted { OnOk result (IsAccepted (given_export export.now)) }
    ensures name { IfOk result (λ names. names.0.now ≡ export.now.name.now) }
    ensures target { IfOk result (λ names. names.1.now ≡ export.now.target.now) }
    ensures fault { IfErr result (IsExportFault (given_export export.now)) }
{
    if export.flags > (NO_NAME | DATA | CONSTANT | PRIVATE) {
        return Err(ExportFault::UnknownFlags);
    }
    let Ok(name) = str::from_utf8(export.name) else {
        return Err(ExportFault::NotUtf8);
    };
    let Ok(target) = str::from_utf8(export.target) else {
        return Err(ExportFault::NotUtf8);
    };
    Ok((name, target))
}

/// What a definition has of an export of these names.
///
/// # Errors
///
/// An allocation failed.
pub fn short_export(
    alloc: Global,
    export: &Export<'_>,
    name: &str,
    target: &str,
) -> Result<ShortExport, AllocError>
    ensures { IfOk result (λ short. export_view short
        ≡ export_given
        (record (given_export export.now) { name = name.now; target = target.now })) }
{
    let mut short = ShortExport::empty(alloc);
    short.name = String::from_str(alloc, name)?;
    short.alias_target = String::from_str(alloc, target)?;
    short.ordinal = export.ordinal;
    short.no_name = has_flag(export.flags, NO_NAME);
    short.is_data = has_flag(export.flags, DATA);
    short.constant = has_flag(export.flags, CONSTANT);
    short.private = has_flag(export.flags, PRIVATE);
    Ok(short)
}
