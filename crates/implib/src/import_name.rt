//! The name that an export asks its DLL for, in each flavour (docs/FORMATS.md, "Short imports" and
//! "Members for GNU's linker").

ghost use Rattle.implib.specs.Definition.{export_view, given_name};
ghost use Rattle.implib.specs.Import.{name_asked};
ghost use Rattle.implib.specs.Ascii.{begins_with};
ghost use Rattle.implib.specs.Members.Msvc.{asked_by_short_import, name_type_of};
ghost use Rattle.implib.specs.Members.Msvc.{is_cut_alike, name_type_asking};
ghost use Rattle.implib.specs.Members.Msvc.{short_import_symbol};
ghost use Rattle.implib.specs.Members.NameRules.{asked_in, asks_another, name_to_ask};
ghost use Rattle.std.specs.Prelude.{◌==◌, ◌≡◌, ◌≤◌};

use crate::ascii::begins_with;
use crate::coff::constants::import_name_type::{
    IMPORT_NAME, IMPORT_NAME_NOPREFIX, IMPORT_NAME_UNDECORATE, IMPORT_ORDINAL,
};
use crate::def::definition::ShortExport;
use crate::flavor::Flavor;
use crate::machine::MachineType;
use crate::msvc::name_type::{asked_by_name_type, without_prefix};
use crate::underscore::{begins_with_underscore, without_underscore};

/// The name that the export asks the DLL for.
pub(crate) fn asked(export: &ShortExport, machine: MachineType, flavor: Flavor) -> &[u8]
    ensures { result.now ≡ asked_in flavor machine (export_view export.now) }
{
    match flavor {
        Flavor::Msvc => asked_by_short_import(export, machine),
        Flavor::Gnu => asked_by_hint_name(export, machine),
    }
}

/// The asked name that the export gives; empty for none.
pub(crate) fn given_name(export: &ShortExport) -> &str
    ensures { result.now ≡ given_name (export_view export.now) }
{
    match &export.asked_name {
        Some(name) => name.as_str(),
        None => "",
    }
}

/// The name that the export is to ask for: the one that it gives or, where it gives none, the one
/// that its members ask for.
pub(crate) fn name_to_ask(export: &ShortExport, machine: MachineType, flavor: Flavor) -> &[u8]
    ensures { result.now ≡ name_to_ask flavor machine (export_view export.now) }
{
    match &export.asked_name {
        Some(name) => name.as_bytes(),
        None => asked(export, machine, flavor),
    }
}

/// Whether the export gives a name and its members ask for another.
pub(crate) fn asks_another(export: &ShortExport, machine: MachineType, flavor: Flavor) -> bool
    ensures { result ≡ asks_another flavor machine (export_view export.now) }
{
    match &export.asked_name {
        Some(name) => asked(export, machine, flavor) != name.as_bytes(),
        None => false,
    }
}

/// The symbol of the export's short import.
pub(crate) fn short_import_symbol(export: &ShortExport) -> &str
    ensures { result.now ≡ short_import_symbol (export_view export.now) }
{
    if export.symbol_name.is_empty() {
        export.name.as_str()
    } else {
        export.symbol_name.as_str()
    }
}

/// The name type of the export's short import, by the first rule that holds.
pub(crate) fn name_type(export: &ShortExport, machine: MachineType) -> u16
    ensures number { result ≡ name_type_of machine (export_view export.now) }
    ensures at_most { result ≤ IMPORT_NAME_UNDECORATE }
{
    let name = export.name.as_str();
    let symbol = short_import_symbol(export);
    if export.no_name {
        IMPORT_ORDINAL
    } else if export.asked_name.is_some() {
        name_type_asking(machine, symbol.as_bytes(), given_name(export).as_bytes())
    } else if begins_with(name, b'_') && name.as_bytes().contains(&b'@') {
        IMPORT_NAME
    } else if symbol != name {
        IMPORT_NAME_UNDECORATE
    } else if begins_with_underscore(symbol, machine) {
        IMPORT_NAME_NOPREFIX
    } else {
        IMPORT_NAME
    }
}

// Whether linkers take the same prefix off the symbol.
fn is_cut_alike(machine: MachineType, symbol: &[u8]) -> bool
    ensures { result ≡ is_cut_alike machine symbol.now }
{
    machine.has_leading_underscore() || symbol.first() != Some(&b'_')
}

// The first of name, no prefix and undecorate by which a short import of the symbol asks for the
// name; where none does, undecorate on I386 and name elsewhere.
fn name_type_asking(machine: MachineType, symbol: &[u8], name: &[u8]) -> u16
    ensures number { result ≡ name_type_asking machine symbol.now name.now }
    ensures at_most { result ≤ IMPORT_NAME_UNDECORATE }
{
    if symbol == name {
        IMPORT_NAME
    } else if is_cut_alike(machine, symbol) && without_prefix(symbol) == name {
        IMPORT_NAME_NOPREFIX
    } else if machine.has_leading_underscore() {
        IMPORT_NAME_UNDECORATE
    } else {
        IMPORT_NAME
    }
}

// The name that the export's short import asks the DLL for.
fn asked_by_short_import(export: &ShortExport, machine: MachineType) -> &[u8]
    ensures { result.now ≡ asked_by_short_import machine (export_view export.now) }
{
    let symbol = short_import_symbol(export).as_bytes();
    asked_by_name_type(name_type(export, machine), symbol)
}

/// The name in the export's hint/name table entry.
pub fn asked_by_hint_name(export: &ShortExport, machine: MachineType) -> &[u8]
    ensures { result.now ≡ name_asked machine (export_view export.now) }
{
    match &export.asked_name {
        Some(given) => given.as_bytes(),
        None => without_underscore(export.name.as_bytes(), machine),
    }
}
