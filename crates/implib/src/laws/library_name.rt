//! The laws of the name of a library for the linker.

ghost use Rattle.implib.specs.Definition.{DefinitionView};
ghost use Rattle.implib.specs.LibraryName.{linked_dll, names_for, own_names};
ghost use Rattle.implib.specs.Members.MsvcObjects.{base_name};
ghost use Rattle.implib.specs.Members.NameRules.{definition_names_refusal, first_of_both};
ghost use Rattle.implib.specs.Members.NameRules.{import_name_refusal, names_refusal};
ghost use Rattle.implib.specs.Worked.LibraryNames.{WorkedLibraryNames};
ghost use Rattle.implib.specs.declared.flavor.Flavor.{Flavor};
ghost use Rattle.implib.specs.declared.machine.MachineType.{MachineType};
ghost use Rattle.std.specs.Prelude.{◌≡◌, List, None, Some, ℕ};

/// A library without a name of its own is named by the DLL alone, in either flavour; and the rules
/// on names are those on the DLL's name and on the exports.
pub fn nameless_by_dll()
    ensures names { (flavor : Flavor) (d : DefinitionView) → d.library_name ≡ None →
        names_for flavor d ≡ own_names d.import_name }
    ensures refusals { (flavor : Flavor) (machine : MachineType) (d : DefinitionView) →
        d.library_name ≡ None → definition_names_refusal d machine flavor
        ≡ first_of_both (import_name_refusal d.import_name)
        (names_refusal flavor machine 0 d.exports) }
{}

/// Where a library has a name, the symbols of its members for Microsoft's linker are named after it
/// as it is, whatever its ending.
pub fn named_by_base()
    ensures { (d : DefinitionView) (name : List ℕ) → d.library_name ≡ Some name →
        base_name (linked_dll d) ≡ name }
{}

/// Definitions that were worked by hand, whose libraries have names of their own, have these
/// members for either linker, or are refused for these causes.
pub fn worked_library_names()
    ensures { WorkedLibraryNames }
{}
