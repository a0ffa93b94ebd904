//! Members of a text, and of a definition made by hand.

ghost use Rattle.implib.specs.Fault.{IfInvalid};
ghost use Rattle.implib.specs.Library.{member_view};
ghost use Rattle.implib.specs.Members.Members.{AreMembersOf};
ghost use Rattle.implib.specs.Text.Parses.{Refuses};
ghost use Rattle.implib.specs.Members.OfText.{MembersOf};
ghost use Rattle.implib_tests.specs.Using.Callers.{one_export};
ghost use Rattle.std.specs.Prelude.{IfOk, map};

use implib::def::{ModuleDef, ShortExport};
use implib::{Error, Flavor, ImportLibrary, MachineType, Member};
use std::alloc::Global;

/// The members of the import library that a text describes.
pub fn members_of_text(
    alloc: Global,
    text: &str,
    machine: MachineType,
    flavor: Flavor,
) -> Result<Vec<Member>, Error>
    ensures read { IfOk result (λ members.
        MembersOf text.now machine flavor (map member_view members.items)) }
{
    let library = ImportLibrary::new(alloc, text, machine, flavor)?;
    library.members()
}

/// The members of a DLL with one function, for Microsoft's linker.
pub fn members_of_export(
    alloc: Global,
    dll: &str,
    name: &str,
    machine: MachineType,
) -> Result<Vec<Member>, Error>
    ensures made { IfOk result (λ members.
        AreMembersOf (one_export dll.now name.now) machine Flavor.Msvc
        (map member_view members.items)) }
{
    let mut def = ModuleDef::empty(alloc);
    def.import_name.push_str(dll)?;
    def.exports.push(ShortExport::named(alloc, name)?)?;
    ImportLibrary::from_def(def, machine, Flavor::Msvc).members()
}
