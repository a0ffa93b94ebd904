//! Laws of archive search: of wanted names beside those of objects, and of weak externals.

ghost use Rattle.implib.specs.Formats.Object.{Object};
ghost use Rattle.implib.specs.Members.MemberSpec.{MemberView};
ghost use Rattle.implib.specs.declared.machine.MachineType.{MachineType};
ghost use Rattle.implib_link.specs.Flavors.Expansion.{expanded_in};
ghost use Rattle.implib_link.specs.Search.Libraries.{FlavorLibrary, IsFlavorArchive};
ghost use Rattle.implib_link.specs.Search.Libraries.{archive_of_both, TakesIntoFor};
ghost use Rattle.implib_link.specs.Search.NamedApart.{AreNamedApart};
ghost use Rattle.implib_link.specs.Search.Search.{IsArchive, IsLibrary, Library, AreTakenIntoAs};
ghost use Rattle.implib_link.specs.Search.Search.{TakesIntoAs, SweepsTake, members_at};
ghost use Rattle.implib_link.specs.Search.Search.{ListsAddNothing, NamesAreWanted, unresolved};
ghost use Rattle.implib_link.specs.Search.Search.{objects_as, undefined_in, AreOnlyWeak};
ghost use Rattle.implib_link.specs.Search.Search.{HaveNoWeak, IsWeakAmong, TakesPlainly};
ghost use Rattle.implib_link.specs.Search.Search.{WeakAreFirst, left_plainly};
ghost use Rattle.std.specs.List.{AllByRecursion, IsDistinct, flat_map, Contains};
ghost use Rattle.std.specs.Prelude.{◌≤◌, ℕ, List, Option, bytes_eq, length, ◌++◌};

/// The members of libraries for GNU's linker are an archive of the laws of searches where the
/// libraries are named apart: the DLLs' names, as symbols have them, which begin with no
/// underscore, and the exports' names, none of which is a symbol that is made of a name.
pub fn libraries_named_apart_are_archive()
    ensures { (machine : MachineType) (libraries : List Library) →
        AllByRecursion (IsLibrary machine) libraries →
        AreNamedApart machine libraries →
        IsArchive machine libraries }
{}

/// A search of any archive for any objects ends, however a linker reads members, and whichever
/// unresolved name it takes up first: it can go on until no such name pulls in a member, and never
/// takes more members than the archive has.
pub fn search_ends()
    ensures found { (reads : List ℕ → Option Object) (archive : List MemberView)
        (own : List Object) →
        (taken : List MemberView) × TakesIntoAs reads archive own taken }
    ensures bounded { (reads : List ℕ → Option Object) (archive : List MemberView)
        (own : List Object) (taken : List MemberView) →
        AreTakenIntoAs reads archive own taken → length taken ≤ length archive }
{}

/// GNU `ld` sweeps an archive's index and takes the member of an entry whose name is unresolved
/// then. Where no two members list one name, it takes what a search takes that goes by the first
/// member that lists a name, so that all that is proved of such a search holds of it.
///
/// The sweeps are over once one of them takes nothing. However the linker reads members.
pub fn sweeps_take()
    ensures takes { (reads : List ℕ → Option Object) (archive : List MemberView)
        (own : List Object) (count : ℕ) (numbers : List ℕ) →
        IsDistinct bytes_eq (flat_map (λ m. m.symbols) archive) →
        SweepsTake reads archive own count numbers →
        TakesIntoAs reads archive own (members_at archive numbers) }
{}

/// A list of names that a linker wants, as by `-u` or `/include:`, is an object in all the laws of
/// searches and of programs: the names count as those that objects leave unresolved, unless objects
/// claim them (`wants`), and what is linked is the same without it (`nothing`).
pub fn names_are_wanted_as_by_an_object()
    ensures wants { NamesAreWanted }
    ensures nothing { ListsAddNothing }
{}

/// GNU `ld` resolves no plain reference by a weak external. For objects that have none it takes of
/// an archive, each of whose weak externals its name leads to, what a linker takes that does
/// resolve by them, so that all that is proved of such a search holds of its own. A name that stays
/// unresolved there does here, too (`still`); a further one is that of a weak external that is
/// taken (`left`); and each name is left that is wanted and that weak externals alone give
/// (`leaves`).
///
/// So it is with libraries of both flavours, whose short imports it expands.
pub fn weak_externals_satisfy_no_reference()
    ensures plain { (reads : List ℕ → Option Object) (archive : List MemberView)
        (own : List Object) (taken : List MemberView) →
        WeakAreFirst reads archive taken →
        HaveNoWeak own →
        TakesIntoAs reads archive own taken → TakesPlainly reads archive own taken }
    ensures weak { (reads : List ℕ → Option Object) (archive : List MemberView)
        (own : List Object) (taken : List MemberView) →
        WeakAreFirst reads archive taken →
        HaveNoWeak own →
        TakesPlainly reads archive own taken → TakesIntoAs reads archive own taken }
    ensures libraries_plain { (machine : MachineType) (libraries : List FlavorLibrary)
        (own : List Object) (taken : List MemberView) →
        IsFlavorArchive machine libraries →
        HaveNoWeak own →
        TakesIntoFor machine (archive_of_both libraries) own taken →
        TakesPlainly (expanded_in machine) (archive_of_both libraries) own taken }
    ensures libraries_weak { (machine : MachineType) (libraries : List FlavorLibrary)
        (own : List Object) (taken : List MemberView) →
        IsFlavorArchive machine libraries →
        HaveNoWeak own →
        TakesPlainly (expanded_in machine) (archive_of_both libraries) own taken →
        TakesIntoFor machine (archive_of_both libraries) own taken }
    ensures still { (reads : List ℕ → Option Object) (own : List Object)
        (taken : List MemberView) (name : List ℕ) →
        Contains (unresolved (own ++ objects_as reads taken)) name →
        Contains (left_plainly reads own taken) name }
    ensures leaves { (reads : List ℕ → Option Object) (own : List Object)
        (taken : List MemberView) (name : List ℕ) →
        Contains (flat_map undefined_in (own ++ objects_as reads taken)) name →
        AreOnlyWeak (own ++ objects_as reads taken) name →
        Contains (left_plainly reads own taken) name }
    ensures left { (reads : List ℕ → Option Object) (own : List Object)
        (taken : List MemberView) (name : List ℕ) →
        HaveNoWeak own →
        Contains (left_plainly reads own taken) name →
        (Contains (unresolved (own ++ objects_as reads taken)) name → ⊥) →
        IsWeakAmong reads taken name }
{}
