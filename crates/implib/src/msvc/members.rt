//! The members for Microsoft's linker.

ghost use Rattle.implib.specs.Definition.{definition_view, export_view};
ghost use Rattle.implib.specs.Fault.{IfInvalid};
ghost use Rattle.implib.specs.Import.{holds, is_alias, public_exports};
ghost use Rattle.implib.specs.Library.{member_view};
ghost use Rattle.implib.specs.LibraryName.{linked_dll};
ghost use Rattle.implib.specs.Members.Members.{AreMembersOf, has_u16_ordinal, member_specs};
ghost use Rattle.implib.specs.Members.Members.{refusal};
ghost use Rattle.implib.specs.Members.NameRules.{RefusesAlways, definition_names_refusal};
ghost use Rattle.implib.specs.Members.NameRules.{holds_nul};
ghost use Rattle.implib.specs.Members.ListsReadBack.{ListsReadBack};
ghost use Rattle.implib.specs.Members.MemberLists.{AreListsOf, has_code, is_weak, lists_view};
ghost use Rattle.implib.specs.Members.MsvcMembers.{export_specs, header_specs, member_count};
ghost use Rattle.implib.specs.Members.MsvcMembers.{short_import_spec};
ghost use Rattle.implib.specs.Members.MsvcMembers.{weak_address_spec, weak_specs, weak_symbol_spec};
ghost use Rattle.implib.specs.Members.ReadBack.{ReadBack};
ghost use Rattle.implib.specs.Renaming.{is_renamed};
ghost use Rattle.implib.specs.Members.Msvc.{short_import_symbol};
ghost use Rattle.implib.specs.declared.flavor.Flavor.TheVariants.{Msvc};
ghost use Rattle.implib.specs.Views.Making.{MakesLists, MakesMembers, PushesAlias, PushesKept};
ghost use Rattle.implib.specs.Views.Making.{PushesListed, PushesMembers};
ghost use Rattle.std.specs.List.{list_all, sum_by};
ghost use Rattle.std.specs.Prelude.{[], None, Some, false, map, string_bytes, true, ◌+◌, ◌∷◌, ◌≡◌};
ghost use Rattle.std.specs.Prelude.{IfOk, OnOk, min};

use crate::def::definition::{ModuleDef, ShortExport};
use crate::error::Error;
use crate::flavor::Flavor;
use crate::import_name::short_import_symbol;
use crate::import_tables::imp_symbol;
use crate::machine::MachineType;
use crate::member::Member;
use crate::msvc::objects::{descriptor_member, null_descriptor_member, null_thunk_member};
use crate::msvc::short_import::{short_import_member, test_short_import};
use crate::msvc::short_imports::ShortImports;
use crate::refusal::names_fault;
use crate::weak_external::{MEMBERS_OF_ALIAS, is_alias, weak_member};
use std::alloc::{AllocError, Global};

// The import descriptor, the null descriptor and the null thunk.
const HEADER_MEMBERS: usize = 3;

/// The members for Microsoft's linker in three lists, an alias without its short import
/// (docs/FORMATS.md, "Members for Microsoft's linker in three lists"). An alias is an export whose
/// symbol is weak for another.
#[derive(Debug, Drop)]
pub struct MemberLists {
    /// The import descriptor, the null descriptor and the null thunk.
    pub header: Vec<Member>,
    /// The short imports of the exports that are no aliases, in the order of the exports.
    pub imports: ShortImports,
    /// The weak externals of the aliases, in the order of the exports: of the symbol and of its
    /// address, and for DATA and CONSTANT of the address alone.
    pub aliases: Vec<Member>,
}

/// The members, in order, of a definition whose exports are under their names to link by.
pub(crate) fn members(def: &ModuleDef, machine: MachineType) -> Result<Vec<Member>, Error>
    requires { is_renamed (map export_view def.now.exports.items) ≡ true }
    ensures ok { IfOk result (λ members.
        AreMembersOf (definition_view def.now) machine Msvc (map member_view members.items)) }
    ensures reads { IfOk result (λ members.
        ReadBack (definition_view def.now) machine Msvc (map member_view members.items)) }
    ensures refused { IfInvalid result
        (λ cause. refusal (definition_view def.now) machine Msvc ≡ Some cause) }
    ensures names_refused_always { RefusesAlways (definition_view def.now) machine Msvc result }
{
    match names_fault(def, machine, Flavor::Msvc) {
        Some(fault) => Err(Error::Invalid(fault)),
        None => named_members(def, machine),
    }
}

// The members of a definition that breaks no rule on names, in order.
fn named_members(def: &ModuleDef, machine: MachineType) -> Result<Vec<Member>, Error>
    requires { definition_names_refusal (definition_view def.now) machine Msvc ≡ None }
    ensures made { MakesMembers (member_specs (definition_view def.now) machine Msvc) result }
    ensures ordinals { OnOk result
        (list_all has_u16_ordinal (public_exports (definition_view def.now)) ≡ true) }
{
    let library = linked_dll(*def.exports.allocator(), def)?;
    build(def, machine, library.as_str())
}

/// The name that the members have and that their symbols are named after: the library's, with
/// `.dll`, or the DLL's.
///
/// # Errors
///
/// An allocation failed.
pub fn linked_dll(alloc: Global, def: &ModuleDef) -> Result<String, AllocError>
    ensures { IfOk result (λ name. string_bytes name ≡ linked_dll (definition_view def.now)) }
{
    let mut linked = String::new(alloc);
    match &def.library_name {
        Some(name) => {
            linked.push_str(name.as_str())?;
            linked.push_str(".dll")?;
        }
        None => linked.push_str(def.import_name.as_str())?,
    }
    Ok(linked)
}

// The members under the library's name for the linker.
fn build(def: &ModuleDef, machine: MachineType, library: &str) -> Result<Vec<Member>, Error>
    requires names { definition_names_refusal (definition_view def.now) machine Msvc ≡ None }
    requires library { library.now ≡ linked_dll (definition_view def.now) }
    requires free { holds 0 library.now ≡ false }
    ensures made { MakesMembers (member_specs (definition_view def.now) machine Msvc) result }
    ensures ordinals { OnOk result
        (list_all has_u16_ordinal (public_exports (definition_view def.now)) ≡ true) }
{
    let dll = def.import_name.as_str();
    let mut members = Vec::with_capacity(*def.exports.allocator(), member_count(def))?;
    push_header_members(&mut members, machine, library, dll)?;
    for export in def.exports.iter() {
        if !export.private {
            push_export(&mut members, export, machine, library, dll)?;
        }
    }
    Ok(members)
}

// The number of members; 2^64 - 1 where it is more.
fn member_count(def: &ModuleDef) -> usize
    ensures { result
        ≡ min u64.MAX (3 + sum_by member_count (public_exports (definition_view def.now))) }
{
    let mut count = HEADER_MEMBERS;
    for export in def.exports.iter() {
        if !export.private {
            count = count.saturating_add(if has_aliases(export) {
                1 + MEMBERS_OF_ALIAS
            } else {
                1
            });
        }
    }
    count
}

// Whether the export's symbol is weak for another.
fn has_aliases(export: &ShortExport) -> bool
    ensures { result ≡ is_alias (export_view export.now).alias_target
        (short_import_symbol (export_view export.now)) }
{
    is_alias(export.alias_target.as_str(), short_import_symbol(export))
}

// Pushes the header members: import descriptor, null descriptor and null thunk.
#[tactic(auto, unfolding(crate::specs::Members::MsvcMembers::header_specs))]
fn push_header_members(
    members: &mut Vec<Member>,
    machine: MachineType,
    library: &str,
    dll: &str,
) -> Result<(), Error>
    requires { holds 0 library.now ≡ false }
    ensures { PushesMembers (header_specs machine (record { linked = library.now; text = dll.now }))
        members.old.items members.new.items result }
{
    members.push(descriptor_member(*members.allocator(), machine, library, dll)?)?;
    members.push(null_descriptor_member(*members.allocator(), machine, library)?)?;
    members.push(null_thunk_member(*members.allocator(), machine, library)?)?;
    Ok(())
}

// Pushes the weak externals of an export, if any, and then its short import.
#[tactic(auto, unfolding(crate::specs::Members::MsvcMembers::weak_specs))]
fn push_export(
    members: &mut Vec<Member>,
    export: &ShortExport,
    machine: MachineType,
    library: &str,
    dll: &str,
) -> Result<(), Error>
    requires { holds_nul (export_view export.now) ≡ false }
    ensures pushed { PushesMembers (export_specs machine
        (record { linked = library.now; text = dll.now }) (export_view export.now))
        members.old.items members.new.items result }
    ensures ordinal { OnOk result (has_u16_ordinal (export_view export.now) ≡ true) }
{
    if has_aliases(export) {
        push_weak_externals(members, export, machine, library)?;
    }
    push_short_import(members, export, machine, library, dll)
}

// Pushes the weak externals of an export: of its symbol, and of its address.
#[tactic(auto, unfolding(crate::specs::Members::MsvcMembers::weak_specs))]
fn push_weak_externals(
    members: &mut Vec<Member>,
    export: &ShortExport,
    machine: MachineType,
    library: &str,
) -> Result<(), Error>
    requires nul { holds_nul (export_view export.now) ≡ false }
    requires aliases { is_alias (export_view export.now).alias_target
        (short_import_symbol (export_view export.now)) ≡ true }
    ensures { PushesMembers (weak_specs machine library.now (export_view export.now))
        members.old.items members.new.items result }
{
    push_weak_symbol(members, export, machine, library)?;
    push_weak_address(members, export, machine, library)
}

// Pushes the weak external of an export's symbol.
fn push_weak_symbol(
    members: &mut Vec<Member>,
    export: &ShortExport,
    machine: MachineType,
    library: &str,
) -> Result<(), Error>
    requires { holds_nul (export_view export.now) ≡ false }
    ensures { PushesMembers (weak_symbol_spec machine library.now (export_view export.now) ∷ [])
        members.old.items members.new.items result }
{
    let alloc = *members.allocator();
    let symbol = short_import_symbol(export);
    let target = export.alias_target.as_str();
    let name = String::from_str(alloc, library)?;
    members.push(weak_member(alloc, machine, name, symbol, target)?)?;
    Ok(())
}

// Pushes the weak external of the symbol of an export's address.
fn push_weak_address(
    members: &mut Vec<Member>,
    export: &ShortExport,
    machine: MachineType,
    library: &str,
) -> Result<(), Error>
    requires { holds_nul (export_view export.now) ≡ false }
    ensures { PushesMembers (weak_address_spec machine library.now (export_view export.now) ∷ [])
        members.old.items members.new.items result }
{
    let alloc = *members.allocator();
    let symbol = imp_symbol(alloc, short_import_symbol(export))?;
    let target = imp_symbol(alloc, export.alias_target.as_str())?;
    let name = String::from_str(alloc, library)?;
    members.push(weak_member(alloc, machine, name, symbol.as_str(), target.as_str())?)?;
    Ok(())
}

/// The members in three lists, of a definition whose exports are under their names to link by.
pub(crate) fn member_lists(def: ModuleDef, machine: MachineType) -> Result<MemberLists, Error>
    requires { is_renamed (map export_view def.exports.items) ≡ true }
    ensures ok { IfOk result (λ lists.
        AreListsOf (definition_view def) machine (lists_view lists)) }
    ensures reads { IfOk result (λ lists.
        ListsReadBack (definition_view def) machine (lists_view lists)) }
    ensures refused { IfInvalid result
        (λ cause. refusal (definition_view def) machine Msvc ≡ Some cause) }
    ensures names_refused_always { RefusesAlways (definition_view def) machine Msvc result }
{
    if let Some(fault) = names_fault(&def, machine, Flavor::Msvc) {
        return Err(Error::Invalid(fault));
    }
    named_lists(def, machine)
}

// The lists of a definition that breaks no rule on names.
fn named_lists(def: ModuleDef, machine: MachineType) -> Result<MemberLists, Error>
    requires { definition_names_refusal (definition_view def) machine Msvc ≡ None }
    ensures made { MakesLists (definition_view def) machine result }
    ensures ordinals { OnOk result
        (list_all has_u16_ordinal (public_exports (definition_view def)) ≡ true) }
{
    let library = linked_dll(*def.exports.allocator(), &def)?;
    build_lists(def, machine, library.as_str())
}

// The lists under the library's name for the linker.
fn build_lists(def: ModuleDef, machine: MachineType, library: &str) -> Result<MemberLists, Error>
    requires names { definition_names_refusal (definition_view def) machine Msvc ≡ None }
    requires library { library.now ≡ linked_dll (definition_view def) }
    requires free { holds 0 library.now ≡ false }
    ensures made { MakesLists (definition_view def) machine result }
    ensures ordinals { OnOk result
        (list_all has_u16_ordinal (public_exports (definition_view def)) ≡ true) }
{
    let alloc = *def.exports.allocator();
    let ModuleDef {
        exports,
        import_name: dll,
        ..
    } = def;
    let mut header = Vec::with_capacity(alloc, HEADER_MEMBERS)?;
    push_header_members(&mut header, machine, library, dll.as_str())?;
    let mut imports = ShortImports::with_capacity(alloc, machine, library, dll, exports.len())?;
    let mut aliases = Vec::new(alloc);
    for export in exports {
        if !export.private {
            push_listed(&mut imports, &mut aliases, &export)?;
        }
    }
    Ok(MemberLists {
        header,
        imports,
        aliases,
    })
}

// Keeps the short import of an export, or pushes its weak externals where it is an alias.
fn push_listed(
    imports: &mut ShortImports,
    aliases: &mut Vec<Member>,
    export: &ShortExport,
) -> Result<(), Error>
    requires { holds_nul (export_view export.now) ≡ false }
    ensures pushed { PushesListed (export_view export.now) imports.old imports.new
        aliases.old.items aliases.new.items result }
    ensures ordinal { OnOk result (has_u16_ordinal (export_view export.now) ≡ true) }
{
    if has_aliases(export) {
        push_alias(
            aliases,
            export,
            imports.machine(),
            imports.library(),
            imports.dll(),
        )
    } else {
        imports.push(export)
    }
}

// Pushes the short import of an export.
fn push_short_import(
    members: &mut Vec<Member>,
    export: &ShortExport,
    machine: MachineType,
    library: &str,
    dll: &str,
) -> Result<(), Error>
    ensures pushed { PushesMembers (short_import_spec machine
        (record { linked = library.now; text = dll.now }) (export_view export.now) ∷ [])
        members.old.items members.new.items result }
    ensures ordinal { OnOk result (has_u16_ordinal (export_view export.now) ≡ true) }
{
    members.push(short_import_member(*members.allocator(), export, machine, library, dll)?)?;
    Ok(())
}

// Pushes the weak externals of an alias. A short import that would be too long refuses it all the
// same.
fn push_alias(
    aliases: &mut Vec<Member>,
    export: &ShortExport,
    machine: MachineType,
    library: &str,
    dll: &str,
) -> Result<(), Error>
    requires nul { holds_nul (export_view export.now) ≡ false }
    requires alias { is_weak (export_view export.now) ≡ true }
    ensures pushed { PushesAlias machine (record { linked = library.now; text = dll.now })
        (export_view export.now) aliases.old.items aliases.new.items result }
    ensures ordinal { OnOk result (has_u16_ordinal (export_view export.now) ≡ true) }
{
    test_short_import(export, dll)?;
    push_kept(aliases, export, machine, library)
}

// Pushes the weak externals of an alias: of its symbol, but for data, and of its address. That of a
// symbol is shorter than that of its address, so it is too long only where that is.
fn push_kept(
    aliases: &mut Vec<Member>,
    export: &ShortExport,
    machine: MachineType,
    library: &str,
) -> Result<(), Error>
    requires nul { holds_nul (export_view export.now) ≡ false }
    requires alias { is_weak (export_view export.now) ≡ true }
    ensures { PushesKept machine library.now (export_view export.now)
        aliases.old.items aliases.new.items result }
{
    if has_code(export) {
        push_weak_externals(aliases, export, machine, library)
    } else {
        push_weak_address(aliases, export, machine, library)
    }
}

// Whether an export is a function, which has a symbol beside that of its address.
fn has_code(export: &ShortExport) -> bool
    ensures { result ≡ has_code (export_view export.now) }
{
    !export.is_data && !export.constant
}
