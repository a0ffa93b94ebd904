//! Which definitions have no delayed imports, decided without memory.

ghost use Rattle.implib.specs.Definition.{definition_view, export_view};
ghost use Rattle.implib.specs.Import.{is_alias};
ghost use Rattle.implib.specs.declared.flavor.Flavor.TheVariants.{Gnu};
ghost use Rattle.implib_delay.specs.Refusal.{delay_cause, input_refusal, kind_refusal};
ghost use Rattle.implib_delay.specs.Refusal.{kinds_refusal, machine_refusal};
ghost use Rattle.std.specs.Option.{option_map};
ghost use Rattle.std.specs.Prelude.{None, Some, ◌≡◌};

use crate::error::DelayFault;
use implib::def::{ModuleDef, ShortExport};
use implib::refusal::names_fault;
use implib::weak_external::is_alias;
use implib::{Flavor, MachineType};

/// The first rule that the definition breaks: on the machine, on names, on what its exports are.
#[tactic(auto, unfolding(crate::specs::Refusal::input_refusal))]
pub(crate) fn input_fault(def: &ModuleDef, machine: MachineType) -> Option<DelayFault>
    ensures { option_map delay_cause result ≡ input_refusal (definition_view def.now) machine }
{
    if let Some(fault) = machine_fault(machine) {
        return Some(fault);
    }
    if let Some(fault) = names_fault(def, machine, Flavor::Gnu) {
        return Some(DelayFault::Names(fault));
    }
    kinds_fault(def)
}

// A machine without code for delayed imports.
fn machine_fault(machine: MachineType) -> Option<DelayFault>
    ensures { option_map delay_cause result ≡ machine_refusal machine }
{
    match machine {
        MachineType::I386 | MachineType::AMD64 => None,
        MachineType::ARMNT | MachineType::ARM64 => Some(DelayFault::Machine),
    }
}

// The first export that cannot be delayed.
fn kinds_fault(def: &ModuleDef) -> Option<DelayFault>
    ensures { option_map delay_cause result ≡ kinds_refusal 0 (definition_view def.now).exports }
{
    for (index, export) in def.exports.iter().enumerate() {
        if !export.private {
            if let Some(fault) = kind_fault(index, export) {
                return Some(fault);
            }
        }
    }
    None
}

// Why the export of this index cannot be delayed, if so.
fn kind_fault(index: usize, export: &ShortExport) -> Option<DelayFault>
    ensures { option_map delay_cause result ≡ kind_refusal index (export_view export.now) }
{
    if export.is_data || export.constant {
        Some(DelayFault::Data(index))
    } else if is_alias(export.alias_target.as_str(), export.name.as_str()) {
        Some(DelayFault::Alias(index))
    } else {
        None
    }
}
