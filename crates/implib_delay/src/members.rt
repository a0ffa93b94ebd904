//! The members of a library of delayed imports.

ghost use Rattle.implib.specs.Definition.{definition_view, export_view};
ghost use Rattle.implib.specs.Import.{holds, public_exports};
ghost use Rattle.implib.specs.Library.{member_view};
ghost use Rattle.implib.specs.LibraryName.{linked_name};
ghost use Rattle.implib.specs.Members.Members.{has_u16_ordinal};
ghost use Rattle.implib.specs.Members.NameRules.{definition_names_refusal};
ghost use Rattle.implib.specs.Renaming.{renamed};
ghost use Rattle.implib.specs.Views.Making.{MakesMember};
ghost use Rattle.implib.specs.declared.flavor.Flavor.TheVariants.{Gnu};
ghost use Rattle.implib_archive.specs.Sources.{member_at};
ghost use Rattle.implib_delay.specs.Kept.{MakesDelayed, MakesExports};
ghost use Rattle.implib_delay.specs.Members.{AreDelayedMembersOf, delay_refusal, delayed_specs};
ghost use Rattle.implib_delay.specs.Members.{head_spec, names_of, numbered_specs, tail_spec};
ghost use Rattle.implib_delay.specs.Reader.{DelayedReadBack};
ghost use Rattle.implib_delay.specs.Refusal.{IfRefused, input_refusal};
ghost use Rattle.implib_delay.specs.Spots.{IsThere};
ghost use Rattle.std.specs.List.{list_all};
ghost use Rattle.std.specs.Prelude.{None, Some, false, length, true, ◌<◌, ◌≡◌, IfOk, OnOk};

use crate::error::{DelayError, DelayFault};
use crate::exports::DelayedExports;
use crate::names::{handle_symbol, head_name, name_symbol, tail_name, tail_symbol};
use crate::objects::{head_object, tail_object};
use crate::refusal::input_fault;
use implib::def::ModuleDef;
use implib::{Error, Flavor, ImportLibrary, MachineType, Member};
use implib_archive::{Members, Source};
use std::alloc::{AllocError, Global};
use std::marker::Model;

/// The members of a library of delayed imports, in order: those of the exports, the head and the
/// tail. Of an export what its object says is kept; its bytes are made when they are wanted.
#[derive(Debug, Drop)]
pub struct DelayedMembers {
    exports: DelayedExports,
    head: Member,
    tail: Member,
}

impl Model for DelayedMembers {
    ghost use Rattle.implib.specs.Library.{member_view};
    ghost use Rattle.implib.specs.Members.MemberSpec.{MemberView};
    ghost use Rattle.std.specs.Prelude.{◌++◌, ◌∷◌, [], List};

    ghost Value = { List MemberView };

    ghost view = { λ m. m.exports.members ++ (member_view m.head ∷ member_view m.tail ∷ []) };
}

// Where a member is.
enum Spot<'a> {
    // Here.
    Held(&'a Member),
    // Among these, at the same index.
    Kept(&'a DelayedExports),
}

impl DelayedMembers {
    /// How many there are.
    pub fn len(&self) -> usize
        ensures { result ≡ length self.now }
    {
        self.exports.len() + 2
    }

    // Where the member at an index is.
    fn spot(&self, index: usize) -> Spot<'_>
        requires { index < length self.now }
        ensures { IsThere self.now index result }
    {
        let count = self.exports.len();
        if index < count {
            Spot::Kept(&self.exports)
        } else if index == count {
            Spot::Held(&self.head)
        } else {
            Spot::Held(&self.tail)
        }
    }
}

impl<'a> Members for &'a DelayedMembers {
    ghost members = { λ members. members.now };
}

impl<'a> Source<'a> for &'a DelayedMembers {
    fn count(&self) -> usize {
        self.len()
    }

    fn name(&self, index: usize) -> &'a str {
        match self.spot(index) {
            Spot::Held(member) => member.name.as_str(),
            Spot::Kept(exports) => exports.name(index),
        }
    }

    fn size(&self, index: usize) -> usize {
        match self.spot(index) {
            Spot::Held(member) => member.bytes.as_slice().len(),
            Spot::Kept(exports) => exports.size(index),
        }
    }

    fn symbol_count(&self, index: usize) -> usize {
        match self.spot(index) {
            Spot::Held(member) => member.symbols.as_slice().len(),
            Spot::Kept(exports) => exports.symbol_count(index),
        }
    }

    fn symbol(&self, index: usize, number: usize) -> &'a str {
        match self.spot(index) {
            Spot::Held(member) => member.symbols[number].as_str(),
            Spot::Kept(exports) => exports.symbol(index, number),
        }
    }

    fn push_bytes(&self, index: usize, out: &mut Vec<u8>) -> Result<(), AllocError> {
        match self.spot(index) {
            Spot::Held(member) => out.extend_from_slice(member.bytes.as_slice()),
            Spot::Kept(exports) => {
                let bytes = exports.bytes(*out.allocator(), index)?;
                out.extend_from_slice(bytes.as_slice())
            }
        }
    }
}

/// The members of the library by which the exports of a definition are delayed (docs/GUARANTEES.md,
/// "Delayed imports"): for GNU's linker, on I386 and AMD64. Each export is under its name to link
/// by, and asks for what it would ask for in an ordinary library for GNU's linker. The library's
/// own name, or else the DLL's, names the members and their symbols.
///
/// # Errors
///
/// `Invalid` with the first rule that the definition breaks: `Machine`; `Names`, where an ordinary
/// library is refused too; `Data` or `Alias` with the index of an export that is not private; and
/// `Names` with `MemberTooLong`. `OutOfMemory`.
pub fn delayed_members(def: ModuleDef, machine: MachineType) -> Result<DelayedMembers, DelayError>
    ensures ok { IfOk result
        (AreDelayedMembersOf (renamed (definition_view def)) machine) }
    ensures reads { IfOk result (DelayedReadBack (definition_view def) machine) }
    ensures refused { IfRefused result
        (λ cause. delay_refusal (renamed (definition_view def)) machine ≡ Some cause) }
{
    let library = ImportLibrary::from_def(def, machine, Flavor::Gnu);
    let members = renamed_members(library.definition(), machine)?;
    Ok(members)
}

// The members of a definition whose exports are under their names to link by.
fn renamed_members(def: &ModuleDef, machine: MachineType) -> Result<DelayedMembers, DelayError>
    ensures ok { IfOk result (AreDelayedMembersOf (definition_view def.now) machine) }
    ensures refused { IfRefused result
        (λ cause. delay_refusal (definition_view def.now) machine ≡ Some cause) }
{
    if let Some(fault) = input_fault(def, machine) {
        return Err(DelayError::Invalid(fault));
    }
    let members = sound_members(def, machine)?;
    Ok(members)
}

// The members of a definition that breaks no rule on names.
fn sound_members(def: &ModuleDef, machine: MachineType) -> Result<DelayedMembers, Error>
    requires { definition_names_refusal (definition_view def.now) machine Gnu ≡ None }
    ensures made { MakesDelayed (delayed_specs machine (names_of (definition_view def.now))
        (public_exports (definition_view def.now))) result }
    ensures ordinals { OnOk result
        (list_all has_u16_ordinal (public_exports (definition_view def.now)) ≡ true) }
{
    let alloc = *def.exports.allocator();
    let library = linked_name(def);
    let head = head_member(alloc, machine, library)?;
    let tail = tail_member(alloc, machine, library, def.import_name.as_str())?;
    let exports = kept_exports(def, machine)?;
    Ok(DelayedMembers {
        exports,
        head,
        tail,
    })
}

// The name that the members and their symbols are named after.
fn linked_name(def: &ModuleDef) -> &str
    ensures { result.now ≡ linked_name (definition_view def.now) }
{
    match &def.library_name {
        Some(name) => name.as_str(),
        None => def.import_name.as_str(),
    }
}

// The members of the exports, in order.
fn kept_exports(def: &ModuleDef, machine: MachineType) -> Result<DelayedExports, Error>
    requires { definition_names_refusal (definition_view def.now) machine Gnu ≡ None }
    ensures made { MakesExports (numbered_specs machine (linked_name (definition_view def.now)) 0
        (public_exports (definition_view def.now))) result }
    ensures ordinals { OnOk result
        (list_all has_u16_ordinal (public_exports (definition_view def.now)) ≡ true) }
{
    let alloc = *def.exports.allocator();
    let library = linked_name(def);
    let mut exports = DelayedExports::with_capacity(alloc, machine, library, def.exports.len())?;
    let mut number = 0usize;
    for export in def.exports.iter() {
        if !export.private {
            exports.push(export, number)?;
            number += 1;
        }
    }
    Ok(exports)
}

#[tactic(auto, unfolding(crate::specs::Members::head_spec))]
fn head_member(alloc: Global, machine: MachineType, library: &str) -> Result<Member, Error>
    requires { holds 0 library.now ≡ false }
    ensures { MakesMember (head_spec machine library.now) result }
{
    let tail = tail_symbol(alloc, machine, library)?;
    let handle = handle_symbol(alloc, library)?;
    let bytes = head_object(alloc, machine, library, tail.as_str(), handle.as_str())?;
    let symbols = vec![in alloc; tail, handle]?;
    let name = head_name(alloc, library)?;
    Ok(Member {
        name,
        bytes,
        symbols,
    })
}

#[tactic(auto, unfolding(crate::specs::Members::tail_spec))]
fn tail_member(
    alloc: Global,
    machine: MachineType,
    library: &str,
    dll: &str,
) -> Result<Member, Error>
    requires { holds 0 library.now ≡ false }
    ensures { MakesMember (tail_spec machine (record { linked = library.now; text = dll.now }))
        result }
{
    let symbol = name_symbol(alloc, library)?;
    let bytes = tail_object(alloc, machine, library, dll, symbol.as_str())?;
    let symbols = vec![in alloc; symbol]?;
    let name = tail_name(alloc, library)?;
    Ok(Member {
        name,
        bytes,
        symbols,
    })
}
