//! The import library of a definition.

ghost use Rattle.implib.specs.Definition.{definition_view, export_view};
ghost use Rattle.implib.specs.Fault.{IfInvalid, error_cause};
ghost use Rattle.implib.specs.Library.{LibraryOf, library_view, member_view};
ghost use Rattle.implib.specs.Members.KeptMembers.{kept_members};
ghost use Rattle.implib.specs.Members.ListsReadBack.{ListsReadBack};
ghost use Rattle.implib.specs.Members.MemberLists.{AreListsOf, lists_view};
ghost use Rattle.implib.specs.Members.Members.{AreMembersOf, refusal};
ghost use Rattle.implib.specs.Members.NameRules.{RefusesAlways};
ghost use Rattle.implib.specs.Members.OlderSymbols.{AreOlderMembersOf, OlderReadBack};
ghost use Rattle.implib.specs.Members.OlderSymbols.{older_refusal};
ghost use Rattle.implib.specs.Text.Parses.{Refuses};
ghost use Rattle.implib.specs.Members.ReadBack.{ReadBack};
ghost use Rattle.implib.specs.Renaming.{is_renamed, renamed};
ghost use Rattle.implib.specs.declared.flavor.Flavor.TheVariants.{Gnu, Msvc};
ghost use Rattle.std.specs.Prelude.{◌≡◌, IfErr, IfOk, None, Some, map, true};

use crate::def::definition::{ModuleDef, rename};
use crate::error::Error;
use crate::flavor::Flavor;
use crate::gnu::members::{GnuMembers, into_members as into_gnu_members, members as gnu_members};
use crate::gnu::older::older_members;
use crate::machine::MachineType;
use crate::member::Member;
use crate::msvc::members::{MemberLists, member_lists, members as msvc_members};
use std::alloc::Global;
use std::marker::Model;

/// The import library of a module definition.
#[derive(Debug, Drop)]
pub struct ImportLibrary {
    def: ModuleDef,
    machine: MachineType,
    flavor: Flavor,
}

impl Model for ImportLibrary {
    ghost use Rattle.implib.specs.Definition.{export_view};
    ghost use Rattle.implib.specs.Library.{LibraryView, library_view};
    ghost use Rattle.implib.specs.Members.ReadBack.{ReadBack};
    ghost use Rattle.implib.specs.Renaming.{is_renamed};
    ghost use Rattle.std.specs.Prelude.{◌≡◌, map, true};

    ghost Value = { LibraryView };

    ghost view = { λ l. library_view l.def l.machine l.flavor };

    ghost invariant = { λ l. is_renamed (map export_view l.def.exports.items) ≡ true };
}

impl ImportLibrary {
    /// The library of the definition that a text means; each `ext_name` replaces its export's
    /// `name`.
    ///
    /// # Errors
    ///
    /// Those of [`ModuleDef::parse`].
    pub fn new(
        alloc: Global,
        def: &str,
        machine: MachineType,
        flavor: Flavor,
    ) -> Result<Self, Error>
        ensures ok { IfOk result (LibraryOf def.now machine flavor) }
        ensures refused { IfInvalid result (Refuses def.now) }
    {
        let def = ModuleDef::parse(alloc, def, machine)?;
        Ok(ImportLibrary::from_def(def, machine, flavor))
    }

    /// The library of a definition; each `ext_name` that is set replaces its export's `name`.
    pub fn from_def(def: ModuleDef, machine: MachineType, flavor: Flavor) -> Self
        ensures held { result ≡ record {
          definition = renamed (definition_view def);
          machine = machine;
          flavor = flavor;
        } }
    {
        ImportLibrary {
            def: rename(def),
            machine,
            flavor,
        }
    }

    /// The definition, with each export under its linker symbol.
    pub fn definition(&self) -> &ModuleDef
        ensures { definition_view result.now ≡ self.now.definition }
    {
        &self.def
    }

    /// The machine that the members are for.
    pub fn machine(&self) -> MachineType
        ensures { result ≡ self.now.machine }
    {
        self.machine
    }

    /// The linker that the members are for.
    pub fn flavor(&self) -> Flavor
        ensures { result ≡ self.now.flavor }
    {
        self.flavor
    }

    /// The definition, with each export under its linker symbol.
    pub fn into_def(self) -> ModuleDef
        ensures { definition_view result ≡ self.definition }
    {
        self.def
    }

    /// The name of the DLL.
    pub fn import_name(&self) -> &str
        ensures { result.now ≡ self.now.definition.import_name }
    {
        self.def.import_name.as_str()
    }

    /// The members, in order (docs/FORMATS.md, "Members for Microsoft's linker" and "Members for
    /// GNU's linker"). An error leaves the library as it was.
    ///
    /// # Errors
    ///
    /// The first error that applies: `EmptyImportName` or `NulInImportName`; `EmptyLibraryName`,
    /// `NulInLibraryName` or `LineEndInLibraryName`, where the library has a name; then, export by
    /// export, private ones left out, `EmptyName`, `NulInExport` (of its name, symbol name, asked
    /// name or alias target), `EmptyAskedName` or, for Microsoft's linker, `NoNameType`, with the
    /// index of the export in the definition; then `MemberTooLong` for a member of more than
    /// 2^32 - 1 bytes. Errors in names are reported even when memory runs out; `OutOfMemory` can
    /// precede `MemberTooLong`.
    pub fn members(&self) -> Result<Vec<Member>, Error>
        ensures ok { IfOk result (λ members.
            AreMembersOf self.now.definition self.now.machine self.now.flavor
            (map member_view members.items)) }
        ensures reads { IfOk result (λ members.
            ReadBack self.now.definition self.now.machine self.now.flavor
            (map member_view members.items)) }
        ensures refused { IfInvalid result (λ cause.
            refusal self.now.definition self.now.machine self.now.flavor ≡ Some cause) }
        ensures names_refused_always { RefusesAlways
            self.now.definition self.now.machine self.now.flavor result }
    {
        match self.flavor {
            Flavor::Msvc => msvc_members(&self.def, self.machine),
            Flavor::Gnu => gnu_members(&self.def, self.machine),
        }
    }

    /// The members for Microsoft's linker in three lists, whatever the library's flavour.
    ///
    /// # Errors
    ///
    /// Those of [`ImportLibrary::members`] for Microsoft's linker.
    pub(crate) fn into_msvc_member_lists(self) -> Result<MemberLists, Error>
        ensures ok { IfOk result (λ lists.
            AreListsOf self.definition self.machine (lists_view lists)) }
        ensures reads { IfOk result (λ lists.
            ListsReadBack self.definition self.machine (lists_view lists)) }
        ensures refused { IfInvalid result
            (λ cause. refusal self.definition self.machine Msvc ≡ Some cause) }
        ensures names_refused_always { RefusesAlways self.definition self.machine Msvc result }
    {
        member_lists(self.def, self.machine)
    }

    /// The members for GNU's linker, the objects of the exports kept as what they say, whatever the
    /// library's flavour.
    ///
    /// # Errors
    ///
    /// Those of [`ImportLibrary::members`] for GNU's linker.
    pub(crate) fn into_gnu_members(self) -> Result<GnuMembers, Error>
        ensures ok { IfOk result (λ members.
            AreMembersOf self.definition self.machine Gnu (kept_members members)) }
        ensures reads { IfOk result (λ members.
            ReadBack self.definition self.machine Gnu (kept_members members)) }
        ensures refused { IfInvalid result
            (λ cause. refusal self.definition self.machine Gnu ≡ Some cause) }
        ensures names_refused_always { RefusesAlways self.definition self.machine Gnu result }
    {
        into_gnu_members(self.def, self.machine)
    }

    /// The members for GNU's linker with older symbols of addresses, whatever the library's
    /// flavour.
    ///
    /// # Errors
    ///
    /// Those of [`ImportLibrary::members`] for GNU's linker, with these longer members.
    pub(crate) fn older_gnu_members(&self) -> Result<Vec<Member>, Error>
        ensures ok { IfOk result (λ members. AreOlderMembersOf
            self.now.definition self.now.machine (map member_view members.items)) }
        ensures reads { IfOk result (λ members. OlderReadBack
            self.now.definition self.now.machine (map member_view members.items)) }
        ensures refused { IfInvalid result
            (λ cause. older_refusal self.now.definition self.now.machine ≡ Some cause) }
        ensures names_refused_always { RefusesAlways
            self.now.definition self.now.machine Gnu result }
    {
        older_members(&self.def, self.machine)
    }

    /// A copy of the library.
    ///
    /// # Errors
    ///
    /// `OutOfMemory` alone.
    pub fn clone(&self) -> Result<Self, Error>
        ensures ok { IfOk result (λ copy. copy ≡ self.now) }
        ensures memory { IfErr result (λ error. error_cause error ≡ None) }
    {
        Ok(ImportLibrary {
            def: self.def.clone()?,
            machine: self.machine,
            flavor: self.flavor,
        })
    }
}
