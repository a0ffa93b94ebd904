//! The law of programs from texts.

ghost use Rattle.implib.specs.Formats.Object.{Object};
ghost use Rattle.implib.specs.Link.Placement.{Bases};
ghost use Rattle.implib.specs.declared.machine.MachineType.{MachineType};
ghost use Rattle.implib_link.specs.Flavors.Program.{Ending, IsProgramOf};
ghost use Rattle.implib_link.specs.Flavors.Texts.{FlavorSource, FlavorTextsLink, IsFlavorSource};
ghost use Rattle.implib_link.specs.Flavors.Texts.{input_of};
ghost use Rattle.std.specs.List.{AllByRecursion};
ghost use Rattle.std.specs.Prelude.{List, map};

/// The members of texts, each for GNU's linker or for Microsoft's, link among any other objects to
/// a program whose import directory lists exactly their DLLs, each with exactly its chosen exports,
/// each by the word of its own statement.
pub fn texts_link()
    ensures links { (machine : MachineType) (ending : Ending) (bases : Bases)
        (sources : List FlavorSource) (objects : List Object) →
        AllByRecursion (IsFlavorSource machine) sources →
        IsProgramOf machine ending bases (map input_of sources) objects →
        FlavorTextsLink machine ending bases sources objects }
{}
