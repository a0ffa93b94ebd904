//! Which definitions have no members: the rules on names, decided without memory.

ghost use Rattle.implib.specs.Definition.{definition_view, export_view};
ghost use Rattle.implib.specs.Fault.{cause_of};
ghost use Rattle.implib.specs.Import.{holds};
ghost use Rattle.implib.specs.Members.NameRules.{definition_names_refusal, import_name_refusal};
ghost use Rattle.implib.specs.Members.NameRules.{library_name_refusal, name_refusal, names_refusal};
ghost use Rattle.std.specs.Option.{option_map};
ghost use Rattle.std.specs.Prelude.{None, Some, map, string_bytes, ◌≡◌};

use crate::def::definition::{ModuleDef, ShortExport};
use crate::error::Fault;
use crate::flavor::Flavor;
use crate::import_name::{asks_another, given_name, name_to_ask};
use crate::machine::MachineType;

/// The first rule on names that the definition breaks: of the import name, of the library's name
/// for the linker, then of each export that is not private, in order.
pub fn names_fault(def: &ModuleDef, machine: MachineType, flavor: Flavor) -> Option<Fault>
    ensures { option_map cause_of result
        ≡ definition_names_refusal (definition_view def.now) machine flavor }
{
    if let Some(fault) = import_name_fault(def.import_name.as_str()) {
        return Some(fault);
    }
    if let Some(fault) = library_name_fault(def) {
        return Some(fault);
    }
    for (index, export) in def.exports.iter().enumerate() {
        if !export.private {
            if let Some(fault) = export_fault(index, export, machine, flavor) {
                return Some(fault);
            }
        }
    }
    None
}

// Whether a text holds a NUL.
fn holds_nul(text: &str) -> bool
    ensures { result ≡ holds 0 text.now }
{
    text.as_bytes().contains(&0)
}

// The rule on the import name that it breaks, if any.
fn import_name_fault(name: &str) -> Option<Fault>
    ensures { option_map cause_of result ≡ import_name_refusal name.now }
{
    if name.is_empty() {
        Some(Fault::EmptyImportName)
    } else if holds_nul(name) {
        Some(Fault::NulInImportName)
    } else {
        None
    }
}

// The rule on the library's name for the linker that it breaks, if there is one and it breaks any.
fn library_name_fault(def: &ModuleDef) -> Option<Fault>
    ensures { option_map cause_of result
        ≡ library_name_refusal (definition_view def.now).library_name }
{
    match &def.library_name {
        Some(name) => name_fault(name.as_str()),
        None => None,
    }
}

// The rule that a library's name breaks, if any.
fn name_fault(name: &str) -> Option<Fault>
    ensures { option_map cause_of result ≡ library_name_refusal (Some name.now) }
{
    if name.is_empty() {
        Some(Fault::EmptyLibraryName)
    } else if holds_nul(name) {
        Some(Fault::NulInLibraryName)
    } else if name.as_bytes().contains(&b'\n') {
        Some(Fault::LineEndInLibraryName)
    } else {
        None
    }
}

// The first rule on names that the export of this index breaks, if any.
fn export_fault(
    index: usize,
    export: &ShortExport,
    machine: MachineType,
    flavor: Flavor,
) -> Option<Fault>
    ensures { option_map cause_of result
        ≡ name_refusal flavor machine index (export_view export.now) }
{
    if export.name.is_empty() {
        Some(Fault::EmptyName(index))
    } else if holds_nul(export.name.as_str())
        || holds_nul(export.symbol_name.as_str())
        || holds_nul(export.alias_target.as_str())
        || holds_nul(given_name(export))
    {
        Some(Fault::NulInExport(index))
    } else if !export.no_name && name_to_ask(export, machine, flavor).is_empty() {
        Some(Fault::EmptyAskedName(index))
    } else if !export.no_name && asks_another(export, machine, flavor) {
        Some(Fault::NoNameType(index))
    } else {
        None
    }
}
