//! Laws of an archive in which some libraries' members are for GNU's linker and others' for
//! Microsoft's.

ghost use Rattle.implib.specs.Definition.{DefinitionView};
ghost use Rattle.implib.specs.Formats.Object.{Object};
ghost use Rattle.implib.specs.LibraryName.{names_for};
ghost use Rattle.implib.specs.Link.Image.{image_of};
ghost use Rattle.implib.specs.Link.Placement.{Bases, placed_from};
ghost use Rattle.implib.specs.Members.MemberSpec.{MemberView};
ghost use Rattle.implib.specs.declared.flavor.Flavor.TheVariants.{Msvc};
ghost use Rattle.implib.specs.declared.machine.MachineType.{MachineType};
ghost use Rattle.implib_link.specs.Flavors.Expansion.{before_last_stop};
ghost use Rattle.implib_link.specs.Flavors.Program.{AreEnded, Ending, IsFoundByName, objects_taken};
ghost use Rattle.implib_link.specs.Flavors.Program.{ClaimsNone, HaveSame, has_tables, packed};
ghost use Rattle.implib_link.specs.Flavors.Program.{packed_end};
ghost use Rattle.implib_link.specs.Search.Libraries.{AreClosed, AreGiven};
ghost use Rattle.implib_link.specs.Search.Libraries.{FlavorLibrary, IsFlavorArchive, IsClosed};
ghost use Rattle.implib_link.specs.Search.Libraries.{LinksClosed, NamesNoMembers, TakesOfLibraries};
ghost use Rattle.implib_link.specs.Search.Libraries.{archive_of_both, inputs_in, left_in};
ghost use Rattle.implib_link.specs.Search.Libraries.{wanted_for, weak_in, TakesIntoFor};
ghost use Rattle.implib_link.specs.Search.Search.{listed_in, unresolved};
ghost use Rattle.std.specs.List.{AllByRecursion, filter};
ghost use Rattle.std.specs.Prelude.{◌≡◌, ◌<◌, ◌^◌, ◌++◌, ℕ, IsPermutation, List, Some, false, not};

/// From such an archive a linker takes for given objects, which claim nothing of what is taken,
/// exactly the members of the exports that are wanted, by the objects or by an alias that is taken,
/// with what their libraries have besides, and weak externals of aliases. A list of wanted names is
/// such an object (`laws::search`).
pub fn libraries_are_searched()
    ensures { (machine : MachineType) (libraries : List FlavorLibrary) (own : List Object)
        (taken : List MemberView) →
        IsFlavorArchive machine libraries →
        AllByRecursion (ClaimsNone (listed_in taken ++ left_in machine taken)) own →
        NamesNoMembers machine libraries (wanted_for machine own taken) →
        TakesIntoFor machine (archive_of_both libraries) own taken →
        TakesOfLibraries machine libraries (unresolved own) taken }
{}

/// Given objects and what a linker takes for them of such an archive are a program of these DLLs,
/// which imports exactly the exports that are named by symbols that the given objects, or the
/// aliases that are taken for them, leave unresolved; and no name is left unresolved that the
/// archive lists. Where no short import is linked, the linker's null descriptor ends the directory;
/// else that of a library for Microsoft's linker, anywhere among the members.
///
/// The given objects may claim symbols of the libraries, but for those of the members that are
/// taken. The libraries may be linked in another order than that of the archive.
/// Packed placement closes the program, where it ends below 2^31.
pub fn closed_program_links()
    ensures links { (machine : MachineType) (ending : Ending) (libraries : List FlavorLibrary)
        (own : List Object) (taken : List MemberView) (arranged : List FlavorLibrary)
        (bases : Bases) (objects : List Object) →
        IsFlavorArchive machine libraries →
        IsClosed machine ending libraries own taken arranged bases objects →
        LinksClosed machine ending libraries own taken arranged bases objects }
    ensures packed { (machine : MachineType) (ending : Ending) (libraries : List FlavorLibrary)
        (own : List Object) (taken : List MemberView) (arranged : List FlavorLibrary) (first : ℕ)
        (objects : List Object) →
        IsFlavorArchive machine libraries →
        AreClosed machine ending libraries own taken arranged objects →
        0 < first →
        packed_end first objects < 2 ^ 31 →
        IsClosed machine ending libraries own taken arranged (packed first objects)
        objects }
{}

/// Whatever a linker takes of libraries of either flavour for objects that may be given closes the
/// program, as what is linked. Nothing is asked of the search.
pub fn given_objects_are_closed()
    ensures { (machine : MachineType) (ending : Ending) (libraries : List FlavorLibrary)
        (own : List Object) (taken : List MemberView) (arranged : List FlavorLibrary)
        (objects : List Object) →
        IsFlavorArchive machine libraries →
        AreGiven machine libraries own →
        TakesIntoFor machine (archive_of_both libraries) own taken →
        IsPermutation libraries arranged →
        HaveSame (filter (λ o. not (has_tables o)) objects)
        (own ++ objects_taken machine (weak_in machine taken)) →
        AreEnded ending machine (inputs_in machine arranged own taken) objects →
        AreClosed machine ending libraries own taken arranged objects }
{}

/// Linkers find the descriptor of a library for Microsoft's linker by its DLL's name, whatever the
/// name's ending, where the library's name is the DLL's up to its last full stop.
pub fn descriptors_are_found()
    ensures { (d : DefinitionView) →
        d.library_name ≡ Some (before_last_stop d.import_name) →
        IsFoundByName Msvc (names_for Msvc d) }
{}
