//! The exports of a DLL, as a definition has them.

ghost use Rattle.implib.specs.Definition.{export_view};
ghost use Rattle.implib_dll.specs.Views.{exports_view, row_view, target_view};
ghost use Rattle.implib_libraries.specs.FromDll.Definition.{exports_of, is_data, named_export};
ghost use Rattle.implib_libraries.specs.FromDll.Definition.{named_from, named_of, numbered_export};
ghost use Rattle.implib_libraries.specs.FromDll.Definition.{numbered_of, ordinal_name};
ghost use Rattle.implib_libraries.specs.FromDll.Definition.{target_unnamed};
ghost use Rattle.implib_libraries.specs.FromDll.Unsaid.{IsUnsaid, IsUnsaidName, IsUnsaidNamed};
ghost use Rattle.implib_libraries.specs.FromDll.Unsaid.{IsUnsaidNumber, IsUnsaidRow, RefusesName};
ghost use Rattle.implib_libraries.specs.FromDll.Unsaid.{RefusesRow};
ghost use Rattle.implib_libraries.specs.declared.from_dll.exports.Unsaid.TheVariants.{OutOfMemory};
ghost use Rattle.std.specs.List.{flat_map};
ghost use Rattle.std.specs.Option.{option_map};
ghost use Rattle.std.specs.Prelude.{◌≡◌, ◌++◌, [], ◌∷◌, IfErr, IfOk, OnOk, map};
ghost use Rattle.std.specs.String.{string_bytes};

use implib::def::ShortExport;
use implib_dll::{AddressKind, Exports, Row, Target};
use std::alloc::{AllocError, AllocFailed, Global};

/// Why an export of a DLL has no place in a definition.
#[derive(Clone, Copy, Debug, PartialEq, Eq, Drop, thiserror::Error)]
pub enum Unsaid {
    /// The name at this position of the name table is not UTF-8.
    #[error("name {0} is not UTF-8")]
    NotUtf8(usize),
    /// The name at this position of the name table is past those of a hint.
    #[error("name {0} is past the last hint")]
    LargeHint(usize),
    /// An export without a name has this ordinal, above 65,535.
    #[error("ordinal {0} has no name and is above 65535")]
    LargeOrdinal(u32),
    /// An allocation failed.
    #[error("out of memory")]
    OutOfMemory,
}

impl From<AllocError> for Unsaid {
    ghost from_gives = { λ _ error. error ≡ OutOfMemory };

    fn from(_refused: AllocError) -> Unsaid {
        Unsaid::OutOfMemory
    }
}

impl<T: Drop> From<AllocFailed<T>> for Unsaid {
    ghost from_gives = { λ _ error. error ≡ OutOfMemory };

    fn from(_refused: AllocFailed<T>) -> Unsaid {
        Unsaid::OutOfMemory
    }
}

// Whether a target is data.
fn is_data(target: Target<'_>) -> bool
    ensures { result ≡ is_data (target_view target.entry) }
{
    match target {
        Target::Address(_, AddressKind::Code) => false,
        Target::Address(_, AddressKind::Data | AddressKind::Outside) => true,
        Target::Empty | Target::Forwarder(_) => false,
    }
}

// The export of a name, with its position as the hint.
fn named_export(
    alloc: Global,
    text: &[u8],
    position: usize,
    target: Target<'_>,
) -> Result<ShortExport, Unsaid>
    ensures said { IfOk result
        (λ export. export_view export ≡ named_export text.now position (target_view target.entry)) }
    ensures refused { IfErr result (IsUnsaidName text.now position) }
{
    if position > 0xFFFF {
        return Err(Unsaid::LargeHint(position));
    }
    let Ok(name) = str::from_utf8(text) else {
        return Err(Unsaid::NotUtf8(position));
    };
    let mut export = ShortExport::empty(alloc);
    export.name = String::from_str(alloc, name)?;
    export.ordinal = position as u16;
    export.is_data = is_data(target);
    Ok(export)
}

// The name of an export that has none.
fn ordinal_name(alloc: Global, ordinal: u32) -> Result<String, AllocError>
    ensures { IfOk result (λ name. string_bytes name ≡ ordinal_name ordinal) }
{
    format!(in alloc; "ord_{ordinal}")
}

// The export of an ordinal that has no name.
fn numbered_export(alloc: Global, ordinal: u32, target: Target<'_>) -> Result<ShortExport, Unsaid>
    ensures said { IfOk result
        (λ export. export_view export ≡ numbered_export ordinal (target_view target.entry)) }
    ensures refused { IfErr result (IsUnsaidNumber ordinal) }
{
    if ordinal > 0xFFFF {
        return Err(Unsaid::LargeOrdinal(ordinal));
    }
    let mut export = ShortExport::empty(alloc);
    export.name = ordinal_name(alloc, ordinal)?;
    export.ordinal = ordinal as u16;
    export.no_name = true;
    export.is_data = is_data(target);
    Ok(export)
}

// Appends an export.
fn push(list: &mut Vec<ShortExport>, export: ShortExport) -> Result<(), Unsaid>
    ensures pushed { OnOk result (map export_view list.new.items
        ≡ map export_view list.old.items ++ export_view export ∷ []) }
    ensures memory { IfErr result (λ unsaid. unsaid ≡ OutOfMemory) }
{
    list.push(export)?;
    Ok(())
}

// Appends the export of a name, if it leads to a target.
#[tactic(auto, using(crate::proofs::FromDll::Parts::memory_refuses_name))]
fn push_name(
    alloc: Global,
    text: &[u8],
    position: usize,
    target: Option<Target<'_>>,
    list: &mut Vec<ShortExport>,
) -> Result<(), Unsaid>
    ensures said { OnOk result (map export_view list.new.items ≡ map export_view list.old.items
        ++ named_of text.now position (option_map target_view target.entry)) }
    ensures refused { IfErr result (IsUnsaidNamed text.now position
        (option_map target_view target.entry)) }
{
    let Some(target) = target else {
        return Ok(());
    };
    match named_export(alloc, text, position, target) {
        Ok(export) => push(list, export),
        Err(unsaid) => Err(unsaid),
    }
}

// Appends the exports of the names that lead to a target.
fn push_names(
    alloc: Global,
    exports: &Exports<'_>,
    list: &mut Vec<ShortExport>,
) -> Result<(), Unsaid>
    ensures said { OnOk result (map export_view list.new.items ≡ map export_view list.old.items
        ++ named_from (exports_view exports.now).targets (exports_view exports.now).names 0) }
    ensures refused { IfErr result (RefusesName (exports_view exports.now)) }
{
    for position in 0..exports.names.len() {
        let name = &exports.names[position];
        let target = exports.target_at(name.index as usize);
        if let Err(unsaid) = push_name(alloc, name.text, position, target, list) {
            return Err(unsaid);
        }
    }
    Ok(())
}

// The target of a row that has no name, if there is one.
fn target_unnamed<'a>(row: &Row<'a>) -> Option<Target<'a>>
    ensures { option_map target_view result ≡ target_unnamed (row_view row.now) }
{
    if !row.names.is_empty() {
        return None;
    }
    match row.target {
        Target::Empty => None,
        target => Some(target),
    }
}

// Appends the export of a row, if it has a target and no name.
#[tactic(auto, using(crate::proofs::FromDll::Parts::memory_refuses_number))]
fn push_row(alloc: Global, row: &Row<'_>, list: &mut Vec<ShortExport>) -> Result<(), Unsaid>
    ensures said { OnOk result (map export_view list.new.items
        ≡ map export_view list.old.items ++ numbered_of (row_view row.now)) }
    ensures refused { IfErr result (IsUnsaidRow (row_view row.now)) }
{
    let Some(target) = target_unnamed(row) else {
        return Ok(());
    };
    match numbered_export(alloc, row.ordinal, target) {
        Ok(export) => push(list, export),
        Err(unsaid) => Err(unsaid),
    }
}

// Appends the exports of the rows that have a target and no name.
fn push_rows(alloc: Global, rows: &[Row<'_>], list: &mut Vec<ShortExport>) -> Result<(), Unsaid>
    ensures said { OnOk result (map export_view list.new.items ≡ map export_view list.old.items
        ++ flat_map numbered_of (map row_view rows.now)) }
    ensures refused { IfErr result (RefusesRow (map row_view rows.now)) }
{
    for row in rows {
        if let Err(unsaid) = push_row(alloc, row, list) {
            return Err(unsaid);
        }
    }
    Ok(())
}

/// The exports of a definition whose library imports what a DLL exports: first those of its names,
/// in the order of the name table, each with its position there as the hint, but for names that
/// lead to no target; then, in the order of ordinals, the targets without a name, by ordinal. Their
/// words are as a text has them: without an underscore in front for I386. An address in no section
/// of code is data, and a forwarder code.
///
/// # Errors
///
/// A name that leads to a target, or an ordinal without a name, that no definition can have.
pub fn exports_of(alloc: Global, exports: &Exports<'_>) -> Result<Vec<ShortExport>, Unsaid>
    ensures said { IfOk result
        (λ list. map export_view list.items ≡ exports_of (exports_view exports.now)) }
    ensures refused { IfErr result (IsUnsaid (exports_view exports.now)) }
{
    let mut list = Vec::with_capacity(alloc, exports.names.len())?;
    if let Err(unsaid) = push_names(alloc, exports, &mut list) {
        return Err(unsaid);
    }
    let rows = exports.rows(alloc)?;
    match push_rows(alloc, rows.as_slice(), &mut list) {
        Ok(()) => Ok(list),
        Err(unsaid) => Err(unsaid),
    }
}
