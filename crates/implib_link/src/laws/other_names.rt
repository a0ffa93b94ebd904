//! The law of names that lead to others: aliases, which are weak externals, and names that the
//! command line makes stand for others.

ghost use Rattle.implib.specs.Formats.Layout.{object_of};
ghost use Rattle.implib.specs.Import.{Ask};
ghost use Rattle.implib.specs.Link.Image.{Range};
ghost use Rattle.implib.specs.Link.Placement.{Placed, SectionAddress};
ghost use Rattle.implib.specs.Link.Resolution.{definitions_of};
ghost use Rattle.implib.specs.Members.ImportTables.{thunk_width};
ghost use Rattle.implib.specs.Members.WeakExternal.{weak_object};
ghost use Rattle.implib.specs.declared.machine.MachineType.{MachineType};
ghost use Rattle.implib_link.specs.Flavors.LldImports.{BranchArrivesByThunk};
ghost use Rattle.implib_link.specs.Gnu.Aliases.{ResolvesAliases, StandsFor, weak_target};
ghost use Rattle.implib_link.specs.Gnu.Fields.{CanBranch, DirectCallArrives, HasDirectCall};
ghost use Rattle.implib_link.specs.Gnu.Fields.{AreLinkedBeside, DefinesIn, LinkedCode, placed_code};
ghost use Rattle.implib_link.specs.Gnu.Fields.{ranges_of_codes, AllLeadTo, HasBranch};
ghost use Rattle.implib_link.specs.Gnu.Moves.{AreInMemory};
ghost use Rattle.implib_link.specs.Gnu.Writing.{ReadsAndWrites};
ghost use Rattle.implib_link.specs.InMemory.{AreAsWide, OfStubs, OfThunks, WhereLoaded};
ghost use Rattle.implib_link.specs.Tables.{AreSteady, AreTables, CanReadFrom, Table, TableEntry};
ghost use Rattle.implib_link.specs.Tables.{Tables};
ghost use Rattle.std.specs.List.{Contains};
ghost use Rattle.std.specs.Prelude.{◌≡◌, ◌+◌, ◌∷◌, ◌++◌, [], ℕ, List, Some, slice_get};

/// A field of code against an alias, which nothing defines but which a weak external replaces by
/// the symbol of an entry of any import tables, leads to the entry, where is what the DLL gives
/// (`aliases`). The members for aliases are such weak externals (`members`).
///
/// So do fields against a name that stands for the symbol, as `/alternatename:a=b` and
/// `--defsym=a=b` have it (`leads`); and in memory at any base a call of a name that stands for a
/// function's leads there through the stub (`calls`), or through lld's thunk (`thunks`).
pub fn other_names_lead()
    ensures aliases { (machine : MachineType) (image_base : ℕ) (t : Tables)
        (codes : List LinkedCode) (targets : LinkedCode → ℕ → ℕ)
        (gives : List ℕ → Ask → List ℕ) →
        AreTables machine t →
        AreSteady machine t.linked →
        AreLinkedBeside machine image_base t.image t.linked codes targets →
        ResolvesAliases t.linked codes targets →
        (n : ℕ) (written : List Range) →
        AreAsWide machine gives →
        ReadsAndWrites (t.image ++ ranges_of_codes codes) (thunk_width machine) gives n t.directory
        written →
        (i j : ℕ) (x : Table) (e : TableEntry) (name alias : List ℕ) →
        slice_get t.tables i ≡ Some x →
        slice_get x.entries j ≡ Some e →
        e.symbol ≡ Some name →
        CanReadFrom machine image_base x.address →
        definitions_of alias t.linked ≡ [] →
        weak_target alias t.linked ≡ Some name →
        AllLeadTo machine image_base t.linked codes
        (written ++ (t.image ++ ranges_of_codes codes)) alias name (gives x.dll e.ask) }
    ensures members { (machine : MachineType) (weak target : List ℕ)
        (section_addresses : List SectionAddress) (linked : List Placed) →
        weak_target weak (record {
          object = object_of (weak_object machine weak target);
          section_addresses = section_addresses;
        } ∷ linked) ≡ Some target }
    ensures leads { (machine : MachineType) (image_base : ℕ) (t : Tables)
        (codes : List LinkedCode) (targets : LinkedCode → ℕ → ℕ)
        (gives : List ℕ → Ask → List ℕ) →
        AreTables machine t →
        AreSteady machine t.linked →
        AreLinkedBeside machine image_base t.image t.linked codes targets →
        (n : ℕ) (written : List Range) →
        AreAsWide machine gives →
        ReadsAndWrites (t.image ++ ranges_of_codes codes) (thunk_width machine) gives n t.directory
        written →
        (i j : ℕ) (x : Table) (e : TableEntry) (name alias : List ℕ) →
        slice_get t.tables i ≡ Some x →
        slice_get x.entries j ≡ Some e →
        e.symbol ≡ Some name →
        CanReadFrom machine image_base x.address →
        StandsFor t.linked codes targets alias name →
        AllLeadTo machine image_base t.linked codes
        (written ++ (t.image ++ ranges_of_codes codes)) alias name (gives x.dll e.ask) }
    ensures calls { WhereLoaded AreInMemory
        (λ machine image_base t codes targets memory gives n written.
        OfStubs machine image_base t codes gives (λ d s given.
        (c : LinkedCode) (offset : ℕ) (alias : List ℕ) →
        Contains codes c →
        DefinesIn d s →
        StandsFor t.linked codes targets alias s.name →
        HasDirectCall machine (placed_code c) offset alias →
        CanBranch machine (c.position + offset) d.position →
        DirectCallArrives machine image_base (written ++ memory) (c.position + offset) given)) }
    ensures thunks { WhereLoaded AreInMemory
        (λ machine image_base t codes targets memory gives n written.
        OfThunks machine image_base t codes gives (λ d r given.
        (c : LinkedCode) (offset after : ℕ) (alias : List ℕ) →
        Contains codes c →
        StandsFor t.linked codes targets alias r.symbol →
        HasBranch machine c offset after alias →
        CanBranch machine (c.position + offset) d.position →
        BranchArrivesByThunk machine image_base (written ++ memory) (c.position + offset) after
        given)) }
{}
