//! The law of programs of several DLLs for GNU's linker, in words of that flavour alone.

ghost use Rattle.implib.specs.Formats.Object.{Object};
ghost use Rattle.implib.specs.Import.{Ask};
ghost use Rattle.implib.specs.Link.Image.{Range, image_of};
ghost use Rattle.implib.specs.Link.LinkedMembers.{IsMade, LinkInput};
ghost use Rattle.implib.specs.Link.Placement.{Bases, placed_from};
ghost use Rattle.implib.specs.Members.ImportTables.{thunk_width};
ghost use Rattle.implib.specs.declared.machine.MachineType.{MachineType};
ghost use Rattle.implib_link.specs.Directory.{imported};
ghost use Rattle.implib_link.specs.Flavors.Program.{IsProgram};
ghost use Rattle.implib_link.specs.Gnu.Writing.{Writes};
ghost use Rattle.implib_tests.specs.Using.OneFlavor.{IsOneFlavor, LinksOneFlavor, LoadsOneFlavor};
ghost use Rattle.std.specs.List.{AllByRecursion};
ghost use Rattle.std.specs.Prelude.{◌≡◌, ℕ, List, length, map};

/// The chosen members of several DLLs for GNU's linker and its null descriptor link among any other
/// objects that hold no import tables and claim no symbol of theirs: the directory lists exactly
/// these DLLs with exactly the chosen exports, and each `__imp_` symbol is its export's own entry.
/// A loader that is given these imports writes into the address tables alone: at each `__imp_`
/// symbol is what the DLL gives for the export. Such a loader can write.
///
/// What a DLL gives has as many bytes as an entry. These are cases of the laws of both flavours and
/// of any tables, and each of those programs for GNU's linker is one of these.
pub fn programs_of_one_flavor()
    ensures program { (machine : MachineType) (bases : Bases) (inputs : List LinkInput)
        (objects : List Object) →
        IsProgram machine bases inputs objects →
        IsOneFlavor machine bases inputs objects }
    ensures links { (machine : MachineType) (bases : Bases) (inputs : List LinkInput)
        (objects : List Object) →
        AllByRecursion (IsMade machine) inputs →
        IsOneFlavor machine bases inputs objects →
        LinksOneFlavor machine bases inputs objects }
    ensures loads { (machine : MachineType) (bases : Bases) (inputs : List LinkInput)
        (objects : List Object) (gives : List ℕ → Ask → List ℕ) (written : List Range) →
        AllByRecursion (IsMade machine) inputs →
        IsOneFlavor machine bases inputs objects →
        ((dll : List ℕ) (ask : Ask) → length (gives dll ask) ≡ thunk_width machine) →
        Writes (image_of machine bases (placed_from bases objects)) (thunk_width machine) gives
        bases.descriptors (map (imported machine) inputs) written →
        LoadsOneFlavor machine bases inputs objects gives written }
    ensures writes { (machine : MachineType) (bases : Bases) (inputs : List LinkInput)
        (objects : List Object) (gives : List ℕ → Ask → List ℕ) →
        AllByRecursion (IsMade machine) inputs →
        IsOneFlavor machine bases inputs objects →
        (written : List Range) × Writes (image_of machine bases (placed_from bases objects))
        (thunk_width machine) gives bases.descriptors (map (imported machine) inputs) written }
{}
