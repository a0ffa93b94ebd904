//! The import library for GNU's linker.

ghost use Rattle.implib.specs.Definition.{definition_view};
ghost use Rattle.implib.specs.Fault.{IfInvalid};
ghost use Rattle.implib.specs.Library.{member_view};
ghost use Rattle.implib.specs.Members.KeptMembers.{kept_members};
ghost use Rattle.implib.specs.Members.Members.{AreMembersOf, refusal};
ghost use Rattle.implib.specs.Members.NameRules.{RefusesAlways};
ghost use Rattle.implib.specs.Members.OlderSymbols.{AreOlderMembersOf, OlderReadBack};
ghost use Rattle.implib.specs.Members.OlderSymbols.{older_refusal};
ghost use Rattle.implib.specs.Members.ReadBack.{ReadBack};
ghost use Rattle.implib.specs.Renaming.{renamed};
ghost use Rattle.implib.specs.declared.flavor.Flavor.TheVariants.{Gnu};
ghost use Rattle.std.specs.Prelude.{Some, map, ◌≡◌, IfOk};

use crate::def::definition::ModuleDef;
use crate::error::Error;
use crate::flavor::Flavor;
use crate::library::ImportLibrary;
use crate::machine::MachineType;
use crate::member::Member;
use std::marker::Model;

mod export_objects;
pub(crate) mod members;
pub mod names;
pub mod objects;
pub(crate) mod older;

pub use crate::gnu::export_objects::ExportObjects;
pub use crate::gnu::members::GnuMembers;

/// The import library of a module definition for GNU's linker (docs/FORMATS.md, "Members for GNU's
/// linker").
#[derive(Drop)]
pub struct GnuImportLibrary {
    library: ImportLibrary,
}

impl Model for GnuImportLibrary {
    ghost use Rattle.implib.specs.Library.{LibraryView};
    ghost use Rattle.implib.specs.declared.flavor.Flavor.TheVariants.{Gnu};
    ghost use Rattle.std.specs.Prelude.{◌≡◌};

    ghost Value = { LibraryView };

    ghost view = { λ l. l.library };

    ghost invariant = { λ l. l.library.flavor ≡ Gnu };
}

impl GnuImportLibrary {
    /// The library of a definition; each `ext_name` that is set replaces its export's `name`.
    pub fn new(def: ModuleDef, machine: MachineType) -> Self
        ensures held { result ≡ record {
          definition = renamed (definition_view def);
          machine = machine;
          flavor = Gnu;
        } }
    {
        GnuImportLibrary {
            library: ImportLibrary::from_def(def, machine, Flavor::Gnu),
        }
    }

    /// The underlying [`ImportLibrary`].
    pub fn library(&self) -> &ImportLibrary
        ensures { result.now ≡ self.now }
    {
        &self.library
    }

    /// The members, in order.
    ///
    /// # Errors
    ///
    /// Those of [`ImportLibrary::members`].
    pub fn members(&self) -> Result<Vec<Member>, Error>
        ensures ok { IfOk result (λ members.
            AreMembersOf self.now.definition self.now.machine Gnu (map member_view members.items)) }
        ensures reads { IfOk result (λ members.
            ReadBack self.now.definition self.now.machine Gnu (map member_view members.items)) }
        ensures refused { IfInvalid result
            (λ cause. refusal self.now.definition self.now.machine Gnu ≡ Some cause) }
        ensures names_refused_always { RefusesAlways
            self.now.definition self.now.machine Gnu result }
    {
        self.library.members()
    }

    /// The members, where the object of each export declares an older symbol of its address beside
    /// `__imp_X`: `___imp` and then X, as GNU dlltool's `--compat-implib` has it (docs/FORMATS.md,
    /// "Older symbols").
    ///
    /// # Errors
    ///
    /// Those of [`ImportLibrary::members`], with these longer members.
    pub fn members_with_older_symbols(&self) -> Result<Vec<Member>, Error>
        ensures ok { IfOk result (λ members. AreOlderMembersOf
            self.now.definition self.now.machine (map member_view members.items)) }
        ensures reads { IfOk result (λ members. OlderReadBack
            self.now.definition self.now.machine (map member_view members.items)) }
        ensures refused { IfInvalid result
            (λ cause. older_refusal self.now.definition self.now.machine ≡ Some cause) }
        ensures names_refused_always { RefusesAlways
            self.now.definition self.now.machine Gnu result }
    {
        self.library.older_gnu_members()
    }

    /// The members, the objects of the exports kept as what they say: an archive of the library can
    /// so be written without holding them all (docs/FORMATS.md, "Objects of exports that are
    /// kept").
    ///
    /// # Errors
    ///
    /// Those of [`ImportLibrary::members`].
    pub fn into_members(self) -> Result<GnuMembers, Error>
        ensures ok { IfOk result (λ members.
            AreMembersOf self.definition self.machine Gnu (kept_members members)) }
        ensures reads { IfOk result (λ members.
            ReadBack self.definition self.machine Gnu (kept_members members)) }
        ensures refused { IfInvalid result
            (λ cause. refusal self.definition self.machine Gnu ≡ Some cause) }
        ensures names_refused_always { RefusesAlways self.definition self.machine Gnu result }
    {
        self.library.into_gnu_members()
    }
}
