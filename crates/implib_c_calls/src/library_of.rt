//! From exports and options to the library that the rules of the program make of them, or to what
//! is wrong.

ghost use Rattle.implib.specs.Definition.{export_view};
ghost use Rattle.implib_c_calls.specs.Given.{length_given, place_given, status_given};
ghost use Rattle.implib_c_calls.specs.LibraryOf.{AreGiven, LibraryOfAnswers, OnExportFault};
ghost use Rattle.implib_c_calls.specs.LibraryOf.{WithExports, export_given, failure_of_exports};
ghost use Rattle.implib_c_calls.specs.LibraryOf.{given_export};
ghost use Rattle.implib_c_calls.specs.LibraryWith.{given_options};
ghost use Rattle.implib_c_calls.specs.Status.{status_number};
ghost use Rattle.std.specs.Prelude.{◌≡◌, ◌++◌, [], ◌∷◌, IfErr, IfOk, OnOk, map};

use crate::export::{Export, ExportFault, names_of, short_export};
use crate::library_with::{OptionsArguments, options_with, pack_for};
use crate::outcome::Failure;
use implib::def::{ModuleDef, ShortExport};
use implib_rules::exports::{ExportsRefusal, members_of_exports};
use implib_rules::nameless::with_ordinals;
use std::alloc::{AllocError, Global};

// Why a definition has nothing of exports.
#[derive(Debug, Drop)]
enum GivenError {
    // An export is refused by itself: the fault, and its index.
    Export(ExportFault, usize),
    // An allocation failed.
    OutOfMemory,
}

impl From<AllocError> for GivenError {
    ghost use Rattle.implib_c_calls.specs.declared.library_of.GivenError.TheVariants.{OutOfMemory};

    ghost from_gives = { λ _ error. error ≡ OutOfMemory };

    fn from(_refused: AllocError) -> GivenError {
        GivenError::OutOfMemory
    }
}

impl From<GivenError> for Failure {
    ghost use Rattle.implib_c_calls.specs.LibraryOf.{failure_given};

    ghost from_gives = { λ error given. given ≡ failure_given error };

    fn from(error: GivenError) -> Failure {
        match error {
            GivenError::Export(fault, index) => Failure::NoExport(fault, index),
            GivenError::OutOfMemory => Failure::OutOfMemory,
        }
    }
}

// Appends what a definition has of an export of these names.
fn push_export(
    alloc: Global,
    given: &mut Vec<ShortExport>,
    export: &Export<'_>,
    name: &str,
    target: &str,
) -> Result<(), AllocError>
    ensures { OnOk result (map export_view given.new.items ≡ map export_view given.old.items
        ++ export_given (record (given_export export.now) { name = name.now; target = target.now })
        ∷ []) }
{
    given.push(short_export(alloc, export, name, target)?)?;
    Ok(())
}

// What a definition has of exports.
fn short_exports(alloc: Global, exports: &[Export<'_>]) -> Result<Vec<ShortExport>, GivenError>
    ensures ok { IfOk result (λ given. AreGiven (map given_export exports.now)
        (map export_view given.items)) }
    ensures fault { IfErr result (OnExportFault (map given_export exports.now)) }
{
    let mut given = Vec::with_capacity(alloc, exports.len())?;
    for (index, export) in exports.iter().enumerate() {
        match names_of(export) {
            Ok((name, target)) => push_export(alloc, &mut given, export, name, target)?,
            Err(fault) => return Err(GivenError::Export(fault, index)),
        }
    }
    Ok(given)
}

// What the library is made of: that, with the aliases of exports without a name by their ordinals.
fn exports_asked(alloc: Global, exports: &[Export<'_>]) -> Result<Vec<ShortExport>, GivenError>
    ensures ok { IfOk result (λ asked. WithExports (map given_export exports.now)
        (λ es. map export_view asked.items ≡ es)) }
    ensures fault { IfErr result (OnExportFault (map given_export exports.now)) }
{
    let mut def = ModuleDef::empty(alloc);
    def.exports = short_exports(alloc, exports)?;
    let ModuleDef { exports, .. } = with_ordinals(alloc, def)?;
    Ok(exports)
}

// What a refusal of exports becomes.
fn failure_of(refusal: ExportsRefusal) -> Failure
    ensures { result ≡ failure_of_exports refusal }
{
    match refusal {
        ExportsRefusal::NoName => Failure::NoDllName,
        ExportsRefusal::Members(fault) => Failure::Refused(fault),
        ExportsRefusal::OutOfMemory => Failure::OutOfMemory,
    }
}

/// Puts the library of exports with these options at the beginning of the buffer: the bytes of that
/// of a text with them. Gives its length.
/// An error leaves the buffer as it was.
///
/// # Errors
///
/// The first that applies: `UnknownMachine`, `UnknownFlavor`, `UnknownFlags`, `DllNotUtf8`,
/// `NoExport`, `NoDllName`, `Refused`, `NoArchive`, `BufferTooSmall`. `OutOfMemory` can precede the
/// last five, and come where none applies.
pub fn library_of_into(
    alloc: Global,
    exports: &[Export<'_>],
    arguments: OptionsArguments<'_>,
    buffer: &mut [u8],
) -> Result<usize, Failure>
    ensures { LibraryOfAnswers (map given_export exports.now) (given_options arguments.entry)
        buffer.old buffer.new
        (length_given result) (place_given result) (status_number (status_given result)) }
{
    let options = match options_with(arguments) {
        Ok(options) => options,
        Err(failure) => return Err(failure),
    };
    let asked = match exports_asked(alloc, exports) {
        Ok(asked) => asked,
        Err(error) => return Err(Failure::from(error)),
    };
    match members_of_exports(alloc, asked, &options) {
        Ok(members) => pack_for(alloc, buffer, &members, options.flavor),
        Err(refusal) => Err(failure_of(refusal)),
    }
}
