//! The import library for Microsoft's linker.

ghost use Rattle.implib.specs.Definition.{definition_view};
ghost use Rattle.implib.specs.Fault.{IfInvalid};
ghost use Rattle.implib.specs.Library.{member_view};
ghost use Rattle.implib.specs.Members.ListsReadBack.{ListsReadBack};
ghost use Rattle.implib.specs.Members.MemberLists.{AreListsOf, lists_view};
ghost use Rattle.implib.specs.Members.Members.{AreMembersOf, refusal};
ghost use Rattle.implib.specs.Members.NameRules.{RefusesAlways};
ghost use Rattle.implib.specs.Members.ReadBack.{ReadBack};
ghost use Rattle.implib.specs.Renaming.{renamed};
ghost use Rattle.implib.specs.declared.flavor.Flavor.TheVariants.{Msvc};
ghost use Rattle.std.specs.Prelude.{Some, map, ◌≡◌, IfOk};

use crate::def::definition::ModuleDef;
use crate::error::Error;
use crate::flavor::Flavor;
use crate::library::ImportLibrary;
use crate::machine::MachineType;
use crate::member::Member;
use std::marker::Model;

pub(crate) mod members;
pub mod name_type;
pub mod objects;
mod short_import;
mod short_imports;

pub use crate::msvc::members::{MemberLists, linked_dll};
pub use crate::msvc::short_import::{ShortImport, import_symbols, import_type};
pub use crate::msvc::short_imports::ShortImports;

/// The import library of a module definition for Microsoft's linker (docs/FORMATS.md, "Members for
/// Microsoft's linker").
#[derive(Drop)]
pub struct MsvcImportLibrary {
    library: ImportLibrary,
}

impl Model for MsvcImportLibrary {
    ghost use Rattle.implib.specs.Library.{LibraryView};
    ghost use Rattle.implib.specs.declared.flavor.Flavor.TheVariants.{Msvc};
    ghost use Rattle.std.specs.Prelude.{◌≡◌};

    ghost Value = { LibraryView };

    ghost view = { λ l. l.library };

    ghost invariant = { λ l. l.library.flavor ≡ Msvc };
}

impl MsvcImportLibrary {
    /// The library of a definition; each `ext_name` that is set replaces its export's `name`.
    pub fn new(def: ModuleDef, machine: MachineType) -> Self
        ensures held { result ≡ record {
          definition = renamed (definition_view def);
          machine = machine;
          flavor = Msvc;
        } }
    {
        MsvcImportLibrary {
            library: ImportLibrary::from_def(def, machine, Flavor::Msvc),
        }
    }

    /// The underlying [`ImportLibrary`].
    pub fn library(&self) -> &ImportLibrary
        ensures { result.now ≡ self.now }
    {
        &self.library
    }

    /// The members, in order.
    ///
    /// # Errors
    ///
    /// Those of [`ImportLibrary::members`].
    pub fn members(&self) -> Result<Vec<Member>, Error>
        ensures ok { IfOk result (λ members.
            AreMembersOf self.now.definition self.now.machine Msvc
            (map member_view members.items)) }
        ensures reads { IfOk result (λ members.
            ReadBack self.now.definition self.now.machine Msvc (map member_view members.items)) }
        ensures refused { IfInvalid result
            (λ cause. refusal self.now.definition self.now.machine Msvc ≡ Some cause) }
        ensures names_refused_always { RefusesAlways
            self.now.definition self.now.machine Msvc result }
    {
        self.library.members()
    }

    /// The members in three lists. An alias, an export whose symbol is weak for another, has its
    /// weak externals alone, and no short import; [`MsvcImportLibrary::members`] makes that too.
    /// The short imports are kept as what they say, and each export is freed when that is taken
    /// from it.
    ///
    /// # Errors
    ///
    /// Those of [`ImportLibrary::members`].
    pub fn into_member_lists(self) -> Result<MemberLists, Error>
        ensures ok { IfOk result (λ lists.
            AreListsOf self.definition self.machine (lists_view lists)) }
        ensures reads { IfOk result (λ lists.
            ListsReadBack self.definition self.machine (lists_view lists)) }
        ensures refused { IfInvalid result
            (λ cause. refusal self.definition self.machine Msvc ≡ Some cause) }
        ensures names_refused_always { RefusesAlways self.definition self.machine Msvc result }
    {
        self.library.into_msvc_member_lists()
    }
}
