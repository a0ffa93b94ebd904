//! Members with what linking them gives.

ghost use Rattle.implib.specs.Library.{member_view};
ghost use Rattle.implib_tests.specs.Using.Callers.{ImportsJustThese};
ghost use Rattle.std.specs.Prelude.{IfOk, map};

use super::linked::gnu_members_of_text;
use implib::{Error, MachineType, Member};
use std::alloc::Global;

/// The members of a text for GNU's linker. Linked at any admissible bases, any exports chosen, they
/// make the loader ask the text's DLL for exactly the words by which the text names these exports.
pub fn members_to_link(
    alloc: Global,
    text: &str,
    machine: MachineType,
) -> Result<Vec<Member>, Error>
    ensures { IfOk result (λ members.
        ImportsJustThese text.now machine (map member_view members.items)) }
{
    gnu_members_of_text(alloc, text, machine)
}
