//! Laws of programs that members are linked into, and of their packed placement.

ghost use Rattle.implib.specs.Formats.Object.{Object};
ghost use Rattle.implib.specs.Link.Image.{IsAdmissible, Range};
ghost use Rattle.implib.specs.Link.Linked.{AllLink};
ghost use Rattle.implib.specs.Link.LinkedMembers.{IsMade, LinkInput, all_linked, objects_in};
ghost use Rattle.implib.specs.Link.Placement.{Bases};
ghost use Rattle.implib.specs.declared.machine.MachineType.{MachineType};
ghost use Rattle.implib_link.specs.Directory.{DirectoryAt, Imported, WalkFinds};
ghost use Rattle.implib_link.specs.Flavors.Program.{AreProgramObjects, Ending, FlavorInput};
ghost use Rattle.implib_link.specs.Flavors.Program.{IsMadeFor, IsProgramOf, OfLinker, ProgramLinks};
ghost use Rattle.implib_link.specs.Flavors.Program.{gnu_input, ClaimsNone, has_tables};
ghost use Rattle.implib_link.specs.Flavors.Program.{linked_symbols, null_descriptor, AreEnded};
ghost use Rattle.implib_link.specs.Flavors.Program.{packed, packed_end};
ghost use Rattle.implib_link.specs.FullNames.{object_by_full_names};
ghost use Rattle.std.specs.List.{AllByRecursion, IsDistinct, filter};
ghost use Rattle.std.specs.Prelude.{◌≡◌, ◌++◌, ◌∷◌, ℕ, List, Some, [], bytes_eq, map, not, ◌<◌};
ghost use Rattle.std.specs.Prelude.{◌%◌, ◌^◌};

/// The head, the chosen exports' members and the tail of each DLL, DLLs and exports in any order,
/// link at any admissible bases, for each DLL to an import of exactly the chosen exports from it.
pub fn links_in_any_order()
    ensures links { (machine : MachineType) (bases : Bases) (inputs : List LinkInput) →
        AllByRecursion (IsMade machine) inputs →
        IsDistinct bytes_eq (linked_symbols machine inputs) →
        IsAdmissible machine bases (objects_in (all_linked machine inputs)) →
        AllLink machine bases inputs (objects_in (all_linked machine inputs)) }
{}

/// The chosen members of several DLLs, each for GNU's linker or for Microsoft's, and what ends
/// their directory link among any other objects that hold no import tables and claim no symbol of
/// theirs:
/// the import directory lists exactly these DLLs with exactly the chosen exports, and each `__imp_`
/// symbol is its export's own entry, from whichever object it is named.
///
/// Where members are for Microsoft's linker, a null descriptor of theirs ends the directory.
pub fn links_among_others()
    ensures links { (machine : MachineType) (ending : Ending) (bases : Bases)
        (inputs : List FlavorInput) (objects : List Object) →
        AllByRecursion (IsMadeFor machine) inputs →
        IsProgramOf machine ending bases inputs objects →
        ProgramLinks machine ending bases inputs objects }
{}

/// Members for GNU's linker and the linker's null descriptor are the objects of a program by
/// themselves, and with any other objects that claim no symbol of theirs. They read the same with
/// the full names of their sections (`named`), by which other objects are to be read: a section
/// with a name of more than 8 bytes may belong to the import tables, too.
pub fn members_are_program()
    ensures alone { (machine : MachineType) (inputs : List LinkInput) →
        AllByRecursion (IsMade machine) inputs →
        IsDistinct bytes_eq (linked_symbols machine inputs) →
        AreProgramObjects machine OfLinker (map gnu_input inputs)
        (objects_in (all_linked machine inputs) ++ null_descriptor ∷ []) }
    ensures beside { (machine : MachineType) (inputs : List LinkInput) (objects : List Object) →
        IsDistinct bytes_eq (linked_symbols machine inputs) →
        filter has_tables objects ≡ objects_in (all_linked machine inputs) ++ null_descriptor ∷ [] →
        AllByRecursion (ClaimsNone (linked_symbols machine inputs))
        (filter (λ o. not (has_tables o)) objects) →
        AreProgramObjects machine OfLinker (map gnu_input inputs) objects }
    ensures named { (machine : MachineType) (inputs : List LinkInput) →
        AllByRecursion (IsMade machine) inputs →
        map (λ m. object_by_full_names m.bytes) (all_linked machine inputs)
        ≡ map Some (objects_in (all_linked machine inputs)) }
{}

/// A loader that walks a directory and reads either table of each descriptor, however lenient it is
/// otherwise, finds what the directory lists, and nothing else.
pub fn directory_once()
    ensures walk { (image : List Range) (width address : ℕ) (imports : List Imported) →
        DirectoryAt image width address imports → WalkFinds image width address imports }
    ensures once { (image : List Range) (width address : ℕ) (imports others : List Imported) →
        DirectoryAt image width address imports → WalkFinds image width address others →
        imports ≡ others }
{}

/// Packed placement from any address on is admissible for members and what ends their directory,
/// other objects beside or not, where it ends below 2^31: it makes a program of the objects of one.
/// The address tables begin at a multiple of 8.
pub fn packed_is_program()
    ensures admissible { (machine : MachineType) (ending : Ending) (first : ℕ)
        (inputs : List FlavorInput) (objects : List Object) →
        AllByRecursion (IsMadeFor machine) inputs →
        AreEnded ending machine inputs objects →
        0 < first →
        packed_end first objects < 2 ^ 31 →
        IsAdmissible machine (packed first objects) objects }
    ensures program { (machine : MachineType) (ending : Ending) (first : ℕ)
        (inputs : List FlavorInput) (objects : List Object) →
        AllByRecursion (IsMadeFor machine) inputs →
        AreProgramObjects machine ending inputs objects →
        0 < first → packed_end first objects < 2 ^ 31 →
        IsProgramOf machine ending (packed first objects) inputs objects }
    ensures eights { (first : ℕ) (objects : List Object) →
        (packed first objects).addresses % 8 ≡ 0 }
{}
