//! Laws of searches of several archives, in the order of a command line.

ghost use Rattle.implib.specs.Formats.Object.{Object};
ghost use Rattle.implib.specs.Members.MemberSpec.{MemberView};
ghost use Rattle.implib_link.specs.Flavors.Program.{HaveSame};
ghost use Rattle.implib_link.specs.Search.Search.{TakesIntoAs, members_at};
ghost use Rattle.implib_link.specs.Search.CommandLines.{AreFirst, AreListedWhole};
ghost use Rattle.implib_link.specs.Search.CommandLines.{AreUnclaimedBehind, NoneIsLost, TakesFirst};
ghost use Rattle.implib_link.specs.Search.CommandLines.{names_left, Input, IsOrdered};
ghost use Rattle.implib_link.specs.Search.CommandLines.{SearchesCommandLine, given_with};
ghost use Rattle.implib_link.specs.Search.CommandLines.{objects_given, others_of};
ghost use Rattle.std.specs.Prelude.{ℕ, [], Bool, List, Option};

/// What GNU `ld` takes of the archives of a command line is what one search of all their members
/// takes, for all objects, whatever the archives are: so all that is proved of such a search holds
/// of it.
///
/// A taken member that is listed for a name which objects or taken members leave to others is the
/// first that is; and no object claims a name that an archive in front of it lists.
/// What is left unresolved is listed behind it, or in the same group (`gnu`); or nothing which an
/// archive lists is left in the end, as in each link without an undefined reference (`complete`).
/// An archive may stand on the command line more than once, where none of its members has a weak
/// external. The search is that without automatic imports (`ImportsByName`), however the linker
/// reads members.
pub fn command_lines_are_searched()
    ensures gnu { (reads : List ℕ → Option Object) (members : List MemberView)
        (inputs : List Input) (taken : List ℕ) →
        TakesFirst members (names_left reads (objects_given inputs) (members_at members taken))
        taken →
        AreUnclaimedBehind members [] inputs → IsOrdered reads members inputs →
        SearchesCommandLine reads members inputs taken →
        TakesIntoAs reads members (objects_given inputs) (members_at members taken) }
    ensures complete { (reads : List ℕ → Option Object) (members : List MemberView)
        (inputs : List Input) (taken : List ℕ) →
        TakesFirst members (names_left reads (objects_given inputs) (members_at members taken))
        taken →
        AreUnclaimedBehind members [] inputs →
        NoneIsLost reads members (objects_given inputs) (members_at members taken) →
        SearchesCommandLine reads members inputs taken →
        TakesIntoAs reads members (objects_given inputs) (members_at members taken) }
{}

/// Two searches of one list of members take the same, whichever unresolved name they take up first
/// (`same`); so where the order is GNU `ld`'s, lld, which takes members in one search of all, takes
/// what it takes (`linkers`). Each member is listed for the names that it claims.
pub fn linkers_take_alike()
    ensures same { (reads : List ℕ → Option Object) (members : List MemberView)
        (own : List Object) (taken other : List MemberView) →
        AreFirst members (names_left reads own taken) taken →
        AreFirst members (names_left reads own other) other →
        AreListedWhole reads members → TakesIntoAs reads members own taken →
        TakesIntoAs reads members own other → HaveSame taken other }
    ensures linkers { (reads : List ℕ → Option Object) (members : List MemberView)
        (inputs : List Input) (taken : List ℕ) (other : List MemberView) →
        TakesFirst members (names_left reads (objects_given inputs) (members_at members taken))
        taken →
        AreFirst members (names_left reads (objects_given inputs) other) other →
        AreListedWhole reads members → AreUnclaimedBehind members [] inputs →
        IsOrdered reads members inputs →
        SearchesCommandLine reads members inputs taken →
        TakesIntoAs reads members (objects_given inputs) other →
        HaveSame (members_at members taken) other }
{}

/// Members that are taken are as if they were given as objects: of the others a linker takes what
/// it takes for these and the given objects. So what is proved of libraries holds of them beside
/// archives of anything else, as of a C library's objects.
pub fn taken_members_are_as_given()
    ensures { (reads : List ℕ → Option Object) (members : List MemberView) (own : List Object)
        (taken : List MemberView) (is_given : MemberView → Bool) →
        AreFirst members (names_left reads own taken) taken →
        AreListedWhole reads members → TakesIntoAs reads members own taken →
        TakesIntoAs reads (others_of is_given members) (given_with reads is_given own taken)
        (others_of is_given taken) }
{}
