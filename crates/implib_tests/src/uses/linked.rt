//! Members of a text, with all that linking them gives.

ghost use Rattle.implib.specs.Library.{member_view};
ghost use Rattle.implib.specs.declared.flavor.Flavor.TheVariants.{Gnu, Msvc};
ghost use Rattle.implib_link.specs.Flavors.Texts.{LinkInFlavor};
ghost use Rattle.std.specs.Prelude.{IfOk, map};

use implib::{Error, Flavor, ImportLibrary, MachineType, Member};
use implib_link::laws::texts::texts_link;
use std::alloc::Global;

/// The members of a text for GNU's linker, which link as the text states.
pub fn gnu_members_of_text(
    alloc: Global,
    text: &str,
    machine: MachineType,
) -> Result<Vec<Member>, Error>
    ensures links { IfOk result (λ members. LinkInFlavor text.now machine Gnu
        (map member_view members.items)) }
{
    let library = ImportLibrary::new(alloc, text, machine, Flavor::Gnu)?;
    let members = library.members()?;
    texts_link();
    Ok(members)
}

/// The members of a text for Microsoft's linker, which link as the text states.
pub fn msvc_members_of_text(
    alloc: Global,
    text: &str,
    machine: MachineType,
) -> Result<Vec<Member>, Error>
    ensures links { IfOk result (λ members. LinkInFlavor text.now machine Msvc
        (map member_view members.items)) }
{
    let library = ImportLibrary::new(alloc, text, machine, Flavor::Msvc)?;
    let members = library.members()?;
    texts_link();
    Ok(members)
}
