//! The members for GNU's linker.

ghost use Rattle.implib.specs.Definition.{definition_view, export_view};
ghost use Rattle.implib.specs.Fault.{IfInvalid};
ghost use Rattle.implib.specs.Members.Gnu.{archive_symbols, head_symbol};
ghost use Rattle.implib.specs.Import.{imp_symbol, holds, is_alias, is_empty_text, public_exports};
ghost use Rattle.implib.specs.Library.{member_view};
ghost use Rattle.implib.specs.LibraryName.{linked_name};
ghost use Rattle.implib.specs.Members.Members.{AreMembersOf, has_u16_ordinal, member_specs};
ghost use Rattle.implib.specs.Members.Members.{refusal};
ghost use Rattle.implib.specs.Members.NameRules.{RefusesAlways, definition_names_refusal};
ghost use Rattle.implib.specs.Members.NameRules.{holds_nul};
ghost use Rattle.implib.specs.Members.GnuMembers.{alias_specs, export_spec, gnu_member_count};
ghost use Rattle.implib.specs.Members.GnuMembers.{head_spec, numbered_specs, numbered_specs_of};
ghost use Rattle.implib.specs.Members.GnuMembers.{tail_spec};
ghost use Rattle.implib.specs.Members.WeakExternal.{weak_spec};
ghost use Rattle.implib.specs.Members.KeptMembers.{kept_members};
ghost use Rattle.implib.specs.Members.NameRules.{names_refusal};
ghost use Rattle.implib.specs.Views.KeptObjects.{KeepsObjects};
ghost use Rattle.implib.specs.Views.MakingKept.{MakesKept, is_public_alias, kept_specs};
ghost use Rattle.implib.specs.Views.MakingKept.{public_among};
ghost use Rattle.implib.specs.Members.ReadBack.{ReadBack};
ghost use Rattle.implib.specs.Renaming.{is_renamed};
ghost use Rattle.implib.specs.declared.flavor.Flavor.TheVariants.{Gnu};
ghost use Rattle.implib.specs.Views.Making.{MakesMember, MakesMembers, PushesMembers};
ghost use Rattle.std.specs.List.{filter, list_all, list_any, sum_by};
ghost use Rattle.std.specs.Prelude.{None, Some, [], false, map, min, string_bytes, true, ◌+◌, ◌∷◌};
ghost use Rattle.std.specs.Prelude.{◌≡◌, IfOk, OnOk, length, not};

use crate::def::definition::{ModuleDef, ShortExport};
use crate::error::Error;
use crate::flavor::Flavor;
use crate::gnu::export_objects::ExportObjects;
use crate::gnu::names::{
    export_name, head_name, head_symbol, iname_symbol, tail_name, weak_address_name, weak_name,
};
use crate::gnu::objects::{export_object, head_object, tail_object};
use crate::import_tables::imp_symbol;
use crate::machine::MachineType;
use crate::member::Member;
use crate::refusal::names_fault;
use crate::weak_external::{MEMBERS_OF_ALIAS, is_alias, weak_member};
use std::alloc::{AllocError, Global};

// The head and the tail.
const HEAD_AND_TAIL: usize = 2;

/// The members for GNU's linker, the objects of the exports kept as what they say (docs/FORMATS.md,
/// "Objects of exports that are kept"): those of `before`, and then those of `objects`. An alias is
/// a public export whose name is weak for another.
#[derive(Debug, Drop)]
pub struct GnuMembers {
    /// The tail and the head; where an export is an alias, all the members.
    pub before: Vec<Member>,
    /// The objects of the exports, from the last to the first; none where an export is an alias.
    pub objects: ExportObjects,
}

/// The members, in order, of a definition whose exports are under their names to link by.
pub(crate) fn members(def: &ModuleDef, machine: MachineType) -> Result<Vec<Member>, Error>
    requires { is_renamed (map export_view def.now.exports.items) ≡ true }
    ensures ok { IfOk result (λ members.
        AreMembersOf (definition_view def.now) machine Gnu (map member_view members.items)) }
    ensures reads { IfOk result (λ members.
        ReadBack (definition_view def.now) machine Gnu (map member_view members.items)) }
    ensures refused { IfInvalid result
        (λ cause. refusal (definition_view def.now) machine Gnu ≡ Some cause) }
    ensures names_refused_always { RefusesAlways (definition_view def.now) machine Gnu result }
{
    match names_fault(def, machine, Flavor::Gnu) {
        Some(fault) => Err(Error::Invalid(fault)),
        None => named_members(def, machine),
    }
}

/// The name that the members and their symbols are named after.
pub(crate) fn linked_name(def: &ModuleDef) -> &str
    ensures { result.now ≡ linked_name (definition_view def.now) }
{
    match &def.library_name {
        Some(name) => name.as_str(),
        None => def.import_name.as_str(),
    }
}

// The members of a definition that breaks no rule on names, in order.
#[tactic(auto, using(crate::proofs::Members::GnuLoop::long_built))]
fn named_members(def: &ModuleDef, machine: MachineType) -> Result<Vec<Member>, Error>
    requires { definition_names_refusal (definition_view def.now) machine Gnu ≡ None }
    ensures made { MakesMembers (member_specs (definition_view def.now) machine Gnu) result }
    ensures ordinals { OnOk result
        (list_all has_u16_ordinal (public_exports (definition_view def.now)) ≡ true) }
{
    let library = linked_name(def);
    let head = head_symbol(*def.exports.allocator(), machine, library)?;
    let mut members = build(def, machine, head.as_str())?;
    push_head_and_tail(&mut members, machine, library, def.import_name.as_str())?;
    members.reverse();
    Ok(members)
}

// The members of the exports in the reverse of their final order, with room for the head and the
// tail.
fn build(def: &ModuleDef, machine: MachineType, head: &str) -> Result<Vec<Member>, Error>
    requires names { definition_names_refusal (definition_view def.now) machine Gnu ≡ None }
    requires head { head.now ≡ head_symbol machine (linked_name (definition_view def.now)) }
    ensures made { MakesMembers (numbered_specs machine (linked_name (definition_view def.now)) 0
        (public_exports (definition_view def.now))) result }
    ensures ordinals { OnOk result
        (list_all has_u16_ordinal (public_exports (definition_view def.now)) ≡ true) }
{
    let library = linked_name(def);
    let mut members = Vec::with_capacity(*def.exports.allocator(), member_count(def))?;
    let mut number = 0usize;
    for export in def.exports.iter() {
        if !export.private {
            push_export(&mut members, export, number, machine, library, head)?;
            number += 1;
        }
    }
    Ok(members)
}

/// The number of members; 2^64 - 1 where it is more.
pub(crate) fn member_count(def: &ModuleDef) -> usize
    ensures { result
        ≡ min u64.MAX (2 + sum_by gnu_member_count (public_exports (definition_view def.now))) }
{
    let mut count = HEAD_AND_TAIL;
    for export in def.exports.iter() {
        if !export.private {
            count = count.saturating_add(if has_aliases(export) {
                1 + MEMBERS_OF_ALIAS
            } else {
                1
            });
        }
    }
    count
}

/// Whether the export's name is weak for another.
pub(crate) fn has_aliases(export: &ShortExport) -> bool
    ensures { result
        ≡ is_alias (export_view export.now).alias_target (export_view export.now).name }
{
    is_alias(export.alias_target.as_str(), export.name.as_str())
}

/// Pushes the head and the tail of a library of this name for the linker and of this DLL.
pub(crate) fn push_head_and_tail(
    members: &mut Vec<Member>,
    machine: MachineType,
    library: &str,
    dll: &str,
) -> Result<(), Error>
    requires { holds 0 library.now ≡ false }
    ensures { PushesMembers (head_spec machine library.now
        ∷ tail_spec machine (record { linked = library.now; text = dll.now }) ∷ [])
        members.old.items members.new.items result }
{
    members.push(head_member(*members.allocator(), machine, library)?)?;
    members.push(tail_member(*members.allocator(), machine, library, dll)?)?;
    Ok(())
}

#[tactic(auto, unfolding(crate::specs::Members::GnuMembers::head_spec))]
fn head_member(alloc: Global, machine: MachineType, library: &str) -> Result<Member, Error>
    requires { holds 0 library.now ≡ false }
    ensures { MakesMember (head_spec machine library.now) result }
{
    let symbol = head_symbol(alloc, machine, library)?;
    let name = iname_symbol(alloc, machine, library)?;
    let bytes = head_object(alloc, machine, library, symbol.as_str(), name.as_str())?;
    Ok(Member::of_symbol(alloc, head_name(alloc, library)?, bytes, symbol)?)
}

#[tactic(auto, unfolding(crate::specs::Members::GnuMembers::tail_spec))]
fn tail_member(
    alloc: Global,
    machine: MachineType,
    library: &str,
    dll: &str,
) -> Result<Member, Error>
    requires { holds 0 library.now ≡ false }
    ensures { MakesMember (tail_spec machine (record { linked = library.now; text = dll.now }))
        result }
{
    let symbol = iname_symbol(alloc, machine, library)?;
    let bytes = tail_object(alloc, machine, library, dll, symbol.as_str())?;
    Ok(Member::of_symbol(alloc, tail_name(alloc, library)?, bytes, symbol)?)
}

// Pushes the weak externals of an export, if any, and then the member of the export.
#[tactic(auto, unfolding(crate::specs::Members::GnuMembers::alias_specs))]
fn push_export(
    members: &mut Vec<Member>,
    export: &ShortExport,
    number: usize,
    machine: MachineType,
    library: &str,
    head: &str,
) -> Result<(), Error>
    requires library_text { holds 0 library.now ≡ false }
    requires head { head.now ≡ head_symbol machine library.now }
    requires nul { holds_nul (export_view export.now) ≡ false }
    requires filled { is_empty_text (export_view export.now).name ≡ false }
    ensures pushed { PushesMembers
        (numbered_specs_of machine library.now number (export_view export.now))
        members.old.items members.new.items result }
    ensures ordinal { OnOk result (has_u16_ordinal (export_view export.now) ≡ true) }
{
    if has_aliases(export) {
        push_weak_externals(members, export, number, machine, library)?;
    }
    members.push(export_member(*members.allocator(), export, number, machine, library, head)?)?;
    Ok(())
}

/// Pushes the weak externals of an export: of its name, and of its address.
#[tactic(auto, unfolding(crate::specs::Members::GnuMembers::alias_specs))]
pub(crate) fn push_weak_externals(
    members: &mut Vec<Member>,
    export: &ShortExport,
    number: usize,
    machine: MachineType,
    library: &str,
) -> Result<(), Error>
    requires nul { holds_nul (export_view export.now) ≡ false }
    requires aliases { is_alias (export_view export.now).alias_target (export_view export.now).name
        ≡ true }
    ensures { PushesMembers (alias_specs machine library.now number (export_view export.now))
        members.old.items members.new.items result }
{
    let alloc = *members.allocator();
    let weak = export.name.as_str();
    let target = export.alias_target.as_str();
    let name = weak_name(alloc, library, number)?;
    members.push(weak_member(alloc, machine, name, weak, target)?)?;
    let weak = imp_symbol(alloc, weak)?;
    let target = imp_symbol(alloc, target)?;
    let name = weak_address_name(alloc, library, number)?;
    members.push(weak_member(alloc, machine, name, weak.as_str(), target.as_str())?)?;
    Ok(())
}

/// The archive symbols of an export; `address` is its `__imp_` symbol.
pub(crate) fn archive_symbols(
    alloc: Global,
    export: &ShortExport,
    address: String,
) -> Result<Vec<String>, AllocError>
    requires { string_bytes address ≡ imp_symbol (export_view export.now).name }
    ensures { IfOk result
        (λ symbols. map string_bytes symbols.items ≡ archive_symbols (export_view export.now)) }
{
    if export.is_data {
        return Ok(vec![in alloc; address]?);
    }
    let name = String::from_str(alloc, export.name.as_str())?;
    Ok(vec![in alloc; name, address]?)
}

// The member of the export of this number.
#[tactic(auto, unfolding(crate::specs::Members::GnuMembers::export_spec))]
fn export_member(
    alloc: Global,
    export: &ShortExport,
    number: usize,
    machine: MachineType,
    library: &str,
    head: &str,
) -> Result<Member, Error>
    requires library_text { holds 0 library.now ≡ false }
    requires head { head.now ≡ head_symbol machine library.now }
    requires name_text { holds 0 (export_view export.now).name ≡ false }
    requires filled { is_empty_text (export_view export.now).name ≡ false }
    ensures made { MakesMember
        (export_spec machine library.now number (export_view export.now)) result }
    ensures ordinal { OnOk result (has_u16_ordinal (export_view export.now) ≡ true) }
{
    // This brings the range of the ordinal, 16 bits, into the proof.
    let _ordinal = export.ordinal;
    let address = imp_symbol(alloc, export.name.as_str())?;
    let bytes = export_object(alloc, export, machine, library, head, address.as_str())?;
    let symbols = archive_symbols(alloc, export, address)?;
    let name = export_name(alloc, library, number)?;
    Ok(Member {
        name,
        bytes,
        symbols,
    })
}

/// The members, in order, with the objects of the exports kept as what they say, of a definition
/// whose exports are under their names to link by.
pub(crate) fn into_members(def: ModuleDef, machine: MachineType) -> Result<GnuMembers, Error>
    requires { is_renamed (map export_view def.exports.items) ≡ true }
    ensures ok { IfOk result (λ members.
        AreMembersOf (definition_view def) machine Gnu (kept_members members)) }
    ensures reads { IfOk result (λ members.
        ReadBack (definition_view def) machine Gnu (kept_members members)) }
    ensures refused { IfInvalid result
        (λ cause. refusal (definition_view def) machine Gnu ≡ Some cause) }
    ensures names_refused_always { RefusesAlways (definition_view def) machine Gnu result }
{
    if let Some(fault) = names_fault(&def, machine, Flavor::Gnu) {
        return Err(Error::Invalid(fault));
    }
    named_kept(def, machine)
}

// The members of a definition that breaks no rule on names, in order.
fn named_kept(def: ModuleDef, machine: MachineType) -> Result<GnuMembers, Error>
    requires { definition_names_refusal (definition_view def) machine Gnu ≡ None }
    ensures made { MakesKept (member_specs (definition_view def) machine Gnu) result }
    ensures ordinals { OnOk result
        (list_all has_u16_ordinal (public_exports (definition_view def)) ≡ true) }
{
    if any_alias(&def) {
        made_members(def, machine)
    } else {
        keep_members(def, machine)
    }
}

// Whether a public export is an alias.
fn any_alias(def: &ModuleDef) -> bool
    ensures { result
        ≡ list_any (λ export. is_public_alias (export_view export)) def.now.exports.items }
{
    def.exports
        .iter()
        .any(|export| !export.private && has_aliases(export))
}

// The members, all of them made.
fn made_members(def: ModuleDef, machine: MachineType) -> Result<GnuMembers, Error>
    requires { definition_names_refusal (definition_view def) machine Gnu ≡ None }
    ensures made { MakesKept (member_specs (definition_view def) machine Gnu) result }
    ensures ordinals { OnOk result
        (list_all has_u16_ordinal (public_exports (definition_view def)) ≡ true) }
{
    let alloc = *def.exports.allocator();
    let before = named_members(&def, machine)?;
    let objects = ExportObjects::with_capacity(alloc, machine, linked_name(&def), 0)?;
    Ok(GnuMembers { before, objects })
}

// The tail and the head, and the objects of the exports, none of which is an alias.
fn keep_members(def: ModuleDef, machine: MachineType) -> Result<GnuMembers, Error>
    requires names { definition_names_refusal (definition_view def) machine Gnu ≡ None }
    requires plain { list_any (λ export. is_public_alias (export_view export)) def.exports.items
        ≡ false }
    ensures made { MakesKept (member_specs (definition_view def) machine Gnu) result }
    ensures ordinals { OnOk result
        (list_all has_u16_ordinal (public_exports (definition_view def)) ≡ true) }
{
    let alloc = *def.exports.allocator();
    let library = linked_name(&def);
    let before = tail_and_head(alloc, machine, library, def.import_name.as_str())?;
    let count = public_count(&def);
    let mut objects = ExportObjects::with_capacity(alloc, machine, library, count)?;
    let ModuleDef { exports, .. } = def;
    keep_exports(&mut objects, exports, count)?;
    Ok(GnuMembers { before, objects })
}

// The number of public exports.
fn public_count(def: &ModuleDef) -> usize
    ensures { result ≡ length (filter (λ export. not export.private) def.now.exports.items) }
{
    def.exports.iter().filter(|export| !export.private).count()
}

// The tail and the head of a library of this name for the linker and of this DLL.
fn tail_and_head(
    alloc: Global,
    machine: MachineType,
    library: &str,
    dll: &str,
) -> Result<Vec<Member>, Error>
    requires { holds 0 library.now ≡ false }
    ensures { MakesMembers (tail_spec machine (record { linked = library.now; text = dll.now })
        ∷ head_spec machine library.now ∷ []) result }
{
    let mut members = Vec::with_capacity(alloc, HEAD_AND_TAIL)?;
    members.push(tail_member(alloc, machine, library, dll)?)?;
    members.push(head_member(alloc, machine, library)?)?;
    Ok(members)
}

// Keeps the objects of the exports, none of which is an alias, from the last to the first; `count`
// are public.
fn keep_exports(
    objects: &mut ExportObjects,
    mut exports: Vec<ShortExport>,
    count: usize,
) -> Result<(), Error>
    requires names { names_refusal Gnu objects.old.machine 0 (map export_view exports.items) ≡ None }
    requires plain { list_any (λ export. is_public_alias (export_view export)) exports.items
        ≡ false }
    requires count { count ≡ length (filter (λ export. not export.private) exports.items) }
    ensures kept { KeepsObjects (kept_specs objects.old.machine objects.old.linked
        (map export_view exports.items)) objects.old objects.new result }
    ensures ordinals { OnOk result
        (list_all has_u16_ordinal (public_among (map export_view exports.items)) ≡ true) }
{
    let mut number = count;
    while let Some(export) = exports.pop() {
        if !export.private {
            number -= 1;
            objects.push(export, number)?;
        }
    }
    Ok(())
}
