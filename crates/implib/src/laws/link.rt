//! The law of linking and loading the members for GNU's linker.

ghost use Rattle.implib.specs.Definition.{definition_view};
ghost use Rattle.implib.specs.Members.Gnu.{export_name, head_name, tail_name};
ghost use Rattle.implib.specs.Import.{Ask, public_exports};
ghost use Rattle.implib.specs.Library.{member_view};
ghost use Rattle.implib.specs.LibraryName.{linked_name, names_for};
ghost use Rattle.implib.specs.Link.LinkedMembers.{inputs_held};
ghost use Rattle.implib.specs.Link.Image.{IsAdmissible, Range};
ghost use Rattle.implib.specs.Link.Load.{Loads};
ghost use Rattle.implib.specs.Members.Members.{AreMembersOf};
ghost use Rattle.implib.specs.Formats.Object.{object_in};
ghost use Rattle.implib.specs.Renaming.{renamed};
ghost use Rattle.implib.specs.Link.Linked.{AllLink, Links};
ghost use Rattle.implib.specs.Link.LinkedMembers.{IsAscending, IsLinkInput, NoneIsPrefix};
ghost use Rattle.implib.specs.Link.LinkedMembers.{all_linked, bases_of, member_prefix};
ghost use Rattle.implib.specs.Link.LinkedMembers.{chosen_exports, linked_members, objects_in};
ghost use Rattle.implib.specs.Worked.Links.{WorkedLinks};
ghost use Rattle.implib.specs.declared.flavor.Flavor.TheVariants.{Gnu};
ghost use Rattle.std.specs.List.{AllByRecursion, Contains, IsDistinct, flat_map};
ghost use Rattle.std.specs.Prelude.{◌≡◌, ◌<◌, ◌++◌, ◌∷◌, ℕ, List, [], Some, bytes_eq, length, map};

use crate::def::definition::ModuleDef;
use crate::machine::MachineType;
use crate::member::Member;

/// The head, the tail and the members of any selected exports, where their archive symbols are
/// distinct, link, at any admissible bases, to an import of exactly these exports from the DLL.
///
/// `chosen` has the numbers of the exports, which count those that are not private from 0, in the
/// order of their members' names. `bases` are the addresses of `.idata$2`, `$4`, `$5`, `$6`, `$7`:
/// nonzero multiples of 4.
pub fn gnu_links(
    def: &ModuleDef,
    machine: MachineType,
    members: &[Member],
    chosen: &[usize],
    bases: [u32; 5],
)
    requires made { AreMembersOf (definition_view def.now) machine Gnu
        (map member_view members.now) }
    requires numbers { AllByRecursion
        (λ n. n < length (public_exports (renamed (definition_view def.now)))) chosen.now }
    requires in_order { IsAscending
        (map (export_name (linked_name (definition_view def.now))) chosen.now) }
    requires distinct { IsDistinct bytes_eq
        (flat_map (λ m. m.symbols) (linked_members (definition_view def.now) machine chosen.now)) }
    requires admissible { IsAdmissible machine (bases_of bases)
        (objects_in (linked_members (definition_view def.now) machine chosen.now)) }
    ensures from_members { AllByRecursion (Contains (map member_view members.now))
        (linked_members (definition_view def.now) machine chosen.now) }
    ensures names { map (λ m. m.name) (linked_members (definition_view def.now) machine chosen.now)
        ≡ head_name (linked_name (definition_view def.now))
        ∷ (map (export_name (linked_name (definition_view def.now))) chosen.now
        ++ tail_name (linked_name (definition_view def.now)) ∷ []) }
    ensures rising { IsAscending (map (λ m. m.name)
        (linked_members (definition_view def.now) machine chosen.now)) }
    ensures objects { map (λ m. object_in m.bytes)
        (linked_members (definition_view def.now) machine chosen.now)
        ≡ map Some (objects_in (linked_members (definition_view def.now) machine chosen.now)) }
    ensures links { Links machine (bases_of bases) (names_for Gnu (definition_view def.now))
        (chosen_exports (definition_view def.now) chosen.now)
        (objects_in (linked_members (definition_view def.now) machine chosen.now)) }
{}

/// The head, the tail and the members of any selected exports, of several DLLs one after another,
/// link at any admissible bases, for each DLL to an import of exactly these exports from it.
///
/// `members` and `chosen` have for each definition its members and the numbers of the selected
/// exports, as `gnu_links` takes them. The definitions are in the order of the prefixes of their
/// members' names, no such prefix is a prefix of another, and the archive symbols of all that is
/// linked are distinct. Two definitions of one DLL have names of their own (`library_name`).
pub fn gnu_links_many(
    defs: &[ModuleDef],
    machine: MachineType,
    members: &[Vec<Member>],
    chosen: &[Vec<usize>],
    bases: [u32; 5],
)
    requires same_count { length members.now ≡ length defs.now }
    requires same_choices { length chosen.now ≡ length defs.now }
    requires parts { AllByRecursion (IsLinkInput machine)
        (inputs_held defs.now members.now chosen.now) }
    requires rising { IsAscending (map (λ p. member_prefix p.definition)
        (inputs_held defs.now members.now chosen.now)) }
    requires apart { NoneIsPrefix (map (λ p. member_prefix p.definition)
        (inputs_held defs.now members.now chosen.now)) }
    requires distinct { IsDistinct bytes_eq (flat_map (λ m. m.symbols)
        (all_linked machine (inputs_held defs.now members.now chosen.now))) }
    requires admissible { IsAdmissible machine (bases_of bases)
        (objects_in (all_linked machine (inputs_held defs.now members.now chosen.now))) }
    ensures links { AllLink machine (bases_of bases) (inputs_held defs.now members.now chosen.now)
        (objects_in (all_linked machine (inputs_held defs.now members.now chosen.now))) }
    ensures names_rise { IsAscending
        (map (λ m. m.name) (all_linked machine (inputs_held defs.now members.now chosen.now))) }
{}

/// A descriptor of an image leads to one DLL and one list of what is asked of it.
pub fn loads_once()
    ensures dll { (image : List Range) (width descriptor : ℕ) (dll other : List ℕ)
        (asks others : List Ask) →
        Loads image width descriptor dll asks →
        Loads image width descriptor other others → dll ≡ other }
    ensures asks { (image : List Range) (width descriptor : ℕ) (dll other : List ℕ)
        (asks others : List Ask) →
        Loads image width descriptor dll asks →
        Loads image width descriptor other others → asks ≡ others }
{}

/// Members that were linked by hand have these tables and addresses.
pub fn worked_links()
    ensures { WorkedLinks }
{}
