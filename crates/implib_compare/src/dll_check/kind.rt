//! Which exports of a DLL are forwarded to data.
//!
//! A forwarder does not say what it leads to. Where it is followed as what a function is imported
//! by, it stops at data ([`Stop::DataAsFunction`]), and that is how data is told. One that leads to
//! nothing stays what it was.

ghost use Rattle.implib.specs.Definition.{export_view};
ghost use Rattle.implib_dll.specs.Views.{exports_view};
ghost use Rattle.implib_compare.specs.DllCheck.ForwardingViews.{beside_view, end_view};
ghost use Rattle.implib_compare.specs.DllCheck.Kinds.{end_of_export, forwarder_in, is_astray, is_data_end};
ghost use Rattle.implib_compare.specs.DllCheck.Kinds.{is_stray_end, kinds_followed, unknown_dlls};
ghost use Rattle.implib_compare.specs.DllCheck.Kinds.{unknown_in};
ghost use Rattle.implib_compare.specs.DllCheck.Kinds.{with_kind};
ghost use Rattle.implib_compare.specs.DllCheck.Verdict.{ask_view};
ghost use Rattle.implib_libraries.specs.FromDll.Laws.{ask_of};
ghost use Rattle.std.specs.Option.{option_map};
ghost use Rattle.std.specs.Prelude.{◌≡◌, IfOk, OnOk, count_by, map};

use crate::dll_check::dll_name::loader_name;
use crate::dll_check::forwarder::{Beside, End, Stop, follow, forwarder_at};
use crate::dll_check::verdict::{Ask, found};
use implib::def::ShortExport;
use implib_dll::Exports;
use std::alloc::{AllocError, Global};

// What an export asks the DLL for.
fn ask_of(export: &ShortExport) -> Ask<'_>
    ensures { ask_view result ≡ ask_of (export_view export.now) }
{
    if export.no_name {
        Ask::Ordinal(export.ordinal)
    } else {
        Ask::Name(export.name.as_bytes(), export.ordinal)
    }
}

// The text of an export that is a forwarder.
fn forwarder_in<'a>(exports: &Exports<'a>, export: &ShortExport) -> Option<&'a [u8]>
    ensures { option_map (λ text. text.now) result
        ≡ forwarder_in (exports_view exports.now) (export_view export.now) }
{
    forwarder_at(found(exports, ask_of(export)))
}

// Where an export leads that is a forwarder.
fn end_of_export<'a>(
    alloc: Global,
    beside: &Beside<'_, 'a>,
    export: &ShortExport,
) -> Result<Option<End<'a>>, AllocError>
    ensures { IfOk result (λ end. option_map end_view end
        ≡ end_of_export (beside_view beside.now) (export_view export.now)) }
{
    match forwarder_in(beside.exports, export) {
        Some(text) => {
            let end = follow(alloc, beside, false, text)?;
            Ok(Some(end))
        }
        None => Ok(None),
    }
}

// Whether an end is data.
fn is_data_end(end: Option<End<'_>>) -> bool
    ensures { result ≡ is_data_end (option_map end_view end.entry) }
{
    match end {
        Some(End::Stops(_, Stop::DataAsFunction)) => true,
        _ => false,
    }
}

// Whether an end is nothing.
fn is_stray_end(end: Option<End<'_>>) -> bool
    ensures { result ≡ is_stray_end (option_map end_view end.entry) }
{
    match end {
        Some(End::Stops(_, Stop::DataAsFunction)) => false,
        Some(End::Stops(_, _)) => true,
        _ => false,
    }
}

// Makes an export data, if it is forwarded to data.
fn mark(alloc: Global, beside: &Beside<'_, '_>, export: &mut ShortExport) -> Result<(), AllocError>
    ensures { OnOk result (export_view export.new
        ≡ with_kind (beside_view beside.now) (export_view export.old)) }
{
    let end = end_of_export(alloc, beside, export)?;
    if is_data_end(end) {
        export.is_data = true;
    }
    Ok(())
}

/// Makes each export data that is a forwarder to data; others stay. They are those of
/// [`exports_of`] of the DLL.
///
/// # Errors
///
/// An allocation failed; then some exports may be as they were.
///
/// [`exports_of`]: implib_libraries::from_dll::exports_of
pub fn mark_followed(
    alloc: Global,
    beside: &Beside<'_, '_>,
    list: &mut Vec<ShortExport>,
) -> Result<(), AllocError>
    ensures { OnOk result (map export_view list.new.items
        ≡ kinds_followed (beside_view beside.now) (map export_view list.old.items)) }
{
    for export in list.iter_mut() {
        mark(alloc, beside, export)?;
    }
    Ok(())
}

// Whether an export is a forwarder to nothing.
fn is_astray(
    alloc: Global,
    beside: &Beside<'_, '_>,
    export: &ShortExport,
) -> Result<bool, AllocError>
    ensures { IfOk result
        (λ astray. astray ≡ is_astray (beside_view beside.now) (export_view export.now)) }
{
    Ok(is_stray_end(end_of_export(alloc, beside, export)?))
}

/// How many of the exports are forwarders to nothing.
pub fn count_astray(
    alloc: Global,
    beside: &Beside<'_, '_>,
    list: &[ShortExport],
) -> Result<usize, AllocError>
    ensures { IfOk result (λ count. count
        ≡ count_by (is_astray (beside_view beside.now)) (map export_view list.now)) }
{
    let mut count = 0;
    for export in list {
        if is_astray(alloc, beside, export)? {
            count += 1;
        }
    }
    Ok(count)
}

// The loader's name of the DLL that an end is, of which nothing is known.
fn unknown_in(alloc: Global, end: Option<End<'_>>) -> Result<Option<Vec<u8>>, AllocError>
    ensures { IfOk result (λ name. option_map (λ bytes. bytes.items) name
        ≡ unknown_in (option_map end_view end.entry)) }
{
    match end {
        Some(End::Unknown(name)) => {
            let name = loader_name(alloc, name)?;
            Ok(Some(name))
        }
        _ => Ok(None),
    }
}

/// The loader's names ([`loader_name`]) of the DLLs, of which nothing is known, that the exports
/// are forwarded to, in order; one twice where two exports come to it.
///
/// [`loader_name`]: crate::dll_check::loader_name
pub fn unknown_dlls(
    alloc: Global,
    beside: &Beside<'_, '_>,
    list: &[ShortExport],
) -> Result<Vec<Vec<u8>>, AllocError>
    ensures { IfOk result (λ names. map (λ name. name.items) names.items
        ≡ unknown_dlls (beside_view beside.now) (map export_view list.now)) }
{
    let mut names = Vec::new(alloc);
    for export in list {
        let end = end_of_export(alloc, beside, export)?;
        if let Some(name) = unknown_in(alloc, end)? {
            names.push(name)?;
        }
    }
    Ok(names)
}
