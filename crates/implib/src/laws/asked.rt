//! The laws of the names that are asked for.

ghost use Rattle.implib.specs.Asked.{AskForGivenNames, AsksForWords, LinkersAskAlike};
ghost use Rattle.implib.specs.Definition.{DefinitionView};
ghost use Rattle.implib.specs.Members.MemberSpec.{MemberView};
ghost use Rattle.implib.specs.Members.Members.{AreMembersOf};
ghost use Rattle.implib.specs.Text.Parses.{Parses};
ghost use Rattle.std.specs.Prelude.{List};

use crate::flavor::Flavor;
use crate::machine::MachineType;

/// An export imported by name is imported under its statement's first word, on every machine and in
/// both flavours.
pub fn asked_is_word(text: &str, machine: MachineType)
    ensures { (definition : DefinitionView) (parsed : Parses text.now machine definition) →
        AsksForWords text.now machine definition parsed }
{}

/// Of a definition that has members, each export that is not private, gives an asked name and is
/// imported by name is imported under exactly that name, on every machine and in both flavours.
pub fn given_name_is_asked(machine: MachineType, flavor: Flavor)
    ensures { (definition : DefinitionView) (members : List MemberView) →
        AreMembersOf definition machine flavor members →
        AskForGivenNames flavor machine definition }
{}

/// GNU `ld` and lld ask the DLL for the same by the short import of an export that gives no symbol
/// name, as none of a text does, and on I386 by each.
pub fn linkers_ask_alike()
    ensures { LinkersAskAlike }
{}
