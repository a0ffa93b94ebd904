//! The members for GNU's linker where the object of each export has an older symbol of its address
//! beside that of today (docs/FORMATS.md, "Older symbols").

ghost use Rattle.implib.specs.Definition.{definition_view, export_view};
ghost use Rattle.implib.specs.Fault.{IfInvalid};
ghost use Rattle.implib.specs.Import.{holds, is_empty_text, public_exports};
ghost use Rattle.implib.specs.Library.{member_view};
ghost use Rattle.implib.specs.LibraryName.{linked_name};
ghost use Rattle.implib.specs.Members.Gnu.{head_symbol};
ghost use Rattle.implib.specs.Members.Members.{has_u16_ordinal};
ghost use Rattle.implib.specs.Members.NameRules.{RefusesAlways, definition_names_refusal};
ghost use Rattle.implib.specs.Members.NameRules.{holds_nul};
ghost use Rattle.implib.specs.Members.OlderSymbols.{AreOlderMembersOf, OlderReadBack};
ghost use Rattle.implib.specs.Members.OlderSymbols.{numbered_older_specs, older_refusal};
ghost use Rattle.implib.specs.Members.OlderSymbols.{older_spec, older_specs, older_specs_of};
ghost use Rattle.implib.specs.Members.OlderSymbols.{older_symbol};
ghost use Rattle.implib.specs.Renaming.{is_renamed};
ghost use Rattle.implib.specs.Views.Making.{MakesMember, MakesMembers, PushesMembers};
ghost use Rattle.implib.specs.declared.flavor.Flavor.TheVariants.{Gnu};
ghost use Rattle.std.specs.List.{list_all};
ghost use Rattle.std.specs.Prelude.{None, Some, false, map, string_bytes, true, ◌≡◌, IfOk, OnOk};

use crate::def::definition::{ModuleDef, ShortExport};
use crate::error::Error;
use crate::flavor::Flavor;
use crate::gnu::members::{
    archive_symbols, has_aliases, linked_name, member_count, push_head_and_tail,
    push_weak_externals,
};
use crate::gnu::names::{export_name, head_symbol};
use crate::gnu::objects::older_object;
use crate::import_tables::imp_symbol;
use crate::machine::MachineType;
use crate::member::Member;
use crate::refusal::names_fault;
use std::alloc::{AllocError, Global};

/// The members, in order, of a definition whose exports are under their names to link by.
pub(crate) fn older_members(def: &ModuleDef, machine: MachineType) -> Result<Vec<Member>, Error>
    requires { is_renamed (map export_view def.now.exports.items) ≡ true }
    ensures ok { IfOk result (λ members.
        AreOlderMembersOf (definition_view def.now) machine (map member_view members.items)) }
    ensures reads { IfOk result (λ members. OlderReadBack
        (definition_view def.now) machine (map member_view members.items)) }
    ensures refused { IfInvalid result
        (λ cause. older_refusal (definition_view def.now) machine ≡ Some cause) }
    ensures names_refused_always { RefusesAlways (definition_view def.now) machine Gnu result }
{
    match names_fault(def, machine, Flavor::Gnu) {
        Some(fault) => Err(Error::Invalid(fault)),
        None => named_members(def, machine),
    }
}

// The members of a definition that breaks no rule on names, in order.
#[tactic(auto, using(crate::proofs::Members::GnuLoop::long_built))]
fn named_members(def: &ModuleDef, machine: MachineType) -> Result<Vec<Member>, Error>
    requires { definition_names_refusal (definition_view def.now) machine Gnu ≡ None }
    ensures made { MakesMembers (older_specs (definition_view def.now) machine) result }
    ensures ordinals { OnOk result
        (list_all has_u16_ordinal (public_exports (definition_view def.now)) ≡ true) }
{
    let library = linked_name(def);
    let head = head_symbol(*def.exports.allocator(), machine, library)?;
    let mut members = build(def, machine, head.as_str())?;
    push_head_and_tail(&mut members, machine, library, def.import_name.as_str())?;
    members.reverse();
    Ok(members)
}

// The members of the exports in the reverse of their final order, with room for the head and the
// tail.
fn build(def: &ModuleDef, machine: MachineType, head: &str) -> Result<Vec<Member>, Error>
    requires names { definition_names_refusal (definition_view def.now) machine Gnu ≡ None }
    requires head { head.now ≡ head_symbol machine (linked_name (definition_view def.now)) }
    ensures made { MakesMembers (numbered_older_specs machine (linked_name (definition_view def.now)) 0
        (public_exports (definition_view def.now))) result }
    ensures ordinals { OnOk result
        (list_all has_u16_ordinal (public_exports (definition_view def.now)) ≡ true) }
{
    let library = linked_name(def);
    let mut members = Vec::with_capacity(*def.exports.allocator(), member_count(def))?;
    let mut number = 0usize;
    for export in def.exports.iter() {
        if !export.private {
            push_export(&mut members, export, number, machine, library, head)?;
            number += 1;
        }
    }
    Ok(members)
}

// Pushes the weak externals of an export, if any, and then the member of the export.
#[tactic(auto, unfolding(crate::specs::Members::GnuMembers::alias_specs))]
fn push_export(
    members: &mut Vec<Member>,
    export: &ShortExport,
    number: usize,
    machine: MachineType,
    library: &str,
    head: &str,
) -> Result<(), Error>
    requires library_text { holds 0 library.now ≡ false }
    requires head { head.now ≡ head_symbol machine library.now }
    requires nul { holds_nul (export_view export.now) ≡ false }
    requires filled { is_empty_text (export_view export.now).name ≡ false }
    ensures pushed { PushesMembers
        (older_specs_of machine library.now number (export_view export.now))
        members.old.items members.new.items result }
    ensures ordinal { OnOk result (has_u16_ordinal (export_view export.now) ≡ true) }
{
    if has_aliases(export) {
        push_weak_externals(members, export, number, machine, library)?;
    }
    members.push(older_member(*members.allocator(), export, number, machine, library, head)?)?;
    Ok(())
}

// The older symbol of the address of an export of this name.
fn older_symbol(alloc: Global, name: &str) -> Result<String, AllocError>
    ensures { IfOk result (λ symbol. string_bytes symbol ≡ older_symbol name.now) }
{
    let mut symbol = String::from_str(alloc, "___imp")?;
    symbol.push_str(name)?;
    Ok(symbol)
}

// The member of the export of this number.
#[tactic(auto, unfolding(crate::specs::Members::OlderSymbols::older_spec))]
fn older_member(
    alloc: Global,
    export: &ShortExport,
    number: usize,
    machine: MachineType,
    library: &str,
    head: &str,
) -> Result<Member, Error>
    requires library_text { holds 0 library.now ≡ false }
    requires head { head.now ≡ head_symbol machine library.now }
    requires name_text { holds 0 (export_view export.now).name ≡ false }
    requires filled { is_empty_text (export_view export.now).name ≡ false }
    ensures made { MakesMember
        (older_spec machine library.now number (export_view export.now)) result }
    ensures ordinal { OnOk result (has_u16_ordinal (export_view export.now) ≡ true) }
{
    // This brings the range of the ordinal, 16 bits, into the proof.
    let _ordinal = export.ordinal;
    let address = imp_symbol(alloc, export.name.as_str())?;
    let older = older_symbol(alloc, export.name.as_str())?;
    let bytes = older_object(
        alloc,
        export,
        machine,
        library,
        head,
        address.as_str(),
        older.as_str(),
    )?;
    let mut symbols = archive_symbols(alloc, export, address)?;
    symbols.push(older)?;
    let name = export_name(alloc, library, number)?;
    Ok(Member {
        name,
        bytes,
        symbols,
    })
}
