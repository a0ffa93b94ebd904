//! Laws of linked import tables, whichever linker made them, and of loaders that write as they go.

ghost use Rattle.implib.specs.Formats.Object.{Object, ObjectSymbol};
ghost use Rattle.implib.specs.Formats.ShortImport.{ShortImport};
ghost use Rattle.implib.specs.Import.{Ask};
ghost use Rattle.implib.specs.Link.Image.{Range, image_of};
ghost use Rattle.implib.specs.Link.Placement.{Bases, Placed, placed_from};
ghost use Rattle.implib.specs.Members.ImportTables.{thunk_width};
ghost use Rattle.implib.specs.declared.machine.MachineType.{MachineType};
ghost use Rattle.implib_link.specs.Directory.{Imported};
ghost use Rattle.implib_link.specs.Flavors.LldImports.{IsLldProgram, placed_by_lld};
ghost use Rattle.implib_link.specs.Flavors.Program.{Ending, FlavorInput, IsMadeFor, IsProgramOf};
ghost use Rattle.implib_link.specs.Flavors.Program.{imported_in};
ghost use Rattle.implib_link.specs.Gnu.Fields.{CanBranch, DefinesIn, LinkedCode, field_at, AllLead};
ghost use Rattle.implib_link.specs.Gnu.Fields.{AreKept, BranchArrives, BranchStays, HasBranch};
ghost use Rattle.implib_link.specs.Gnu.Moves.{AreInMemory};
ghost use Rattle.implib_link.specs.Gnu.Writing.{Writes, ReadsAndWrites, AreAlike, WritesAsItGoes};
ghost use Rattle.implib_link.specs.InMemory.{AreAsWide, OfEntries, WhereLoaded};
ghost use Rattle.implib_link.specs.Tables.{AreSteady, AreTables, AreTablesLoaded, Tables};
ghost use Rattle.implib_link.specs.Tables.{block_of_flavor, imported_by_table, tables_at};
ghost use Rattle.implib_link.specs.Tables.{tables_of_lld};
ghost use Rattle.std.specs.List.{AllByRecursion, Contains};
ghost use Rattle.std.specs.Prelude.{◌≡◌, ◌+◌, ◌++◌, ◌∷◌, ◌<◌, ◌^◌, ℕ, List, length, map};

/// Programs of members for GNU's linker and for Microsoft's, whatever ends their directory, and of
/// short imports that lld took have import tables, each DLL's of exactly what is imported from it.
/// Those of members store no address whole; nor do lld's, but objects beside them may have tables
/// of their own.
pub fn programs_have_tables()
    ensures members { (machine : MachineType) (ending : Ending) (bases : Bases)
        (inputs : List FlavorInput) (objects : List Object) →
        AllByRecursion (IsMadeFor machine) inputs →
        IsProgramOf machine ending bases inputs objects →
        AreTables machine (tables_at machine bases objects (map (block_of_flavor machine) inputs)) ×
        AreSteady machine (placed_from bases objects) }
    ensures lld { (machine : MachineType) (descriptors addresses : ℕ) (taken : List ShortImport)
        (image : List Range) (linked : List Placed) →
        IsLldProgram machine descriptors addresses taken image linked →
        AreTables machine (tables_of_lld machine descriptors addresses taken image linked) }
    ensures lld_steady { (machine : MachineType) (addresses : ℕ) (taken : List ShortImport)
        (before behind : List Placed) →
        AreSteady machine before →
        AreSteady machine behind →
        AreSteady machine (before ++ placed_by_lld machine addresses taken ∷ behind) }
{}

/// A loader that walks the directory of any import tables writes what each DLL gives into the
/// entries, and nothing elsewhere. One that reads the image, and knows nothing else, stops after as
/// many descriptors as there are tables and does so. There are such loaders.
pub fn any_tables_load()
    ensures loads { (machine : MachineType) (t : Tables) (gives : List ℕ → Ask → List ℕ)
        (written : List Range) →
        AreTables machine t →
        AreAsWide machine gives →
        Writes t.image (thunk_width machine) gives t.directory (map imported_by_table t.tables)
        written →
        AreTablesLoaded machine t gives written }
    ensures reads { (machine : MachineType) (t : Tables) (gives : List ℕ → Ask → List ℕ) (n : ℕ)
        (written : List Range) →
        AreTables machine t →
        AreAsWide machine gives →
        ReadsAndWrites t.image (thunk_width machine) gives n t.directory written →
        (n ≡ length t.tables) × AreTablesLoaded machine t gives written }
    ensures ends { (machine : MachineType) (t : Tables) (gives : List ℕ → Ask → List ℕ) →
        AreTables machine t →
        (written : List Range) × ReadsAndWrites t.image (thunk_width machine) gives
        (length t.tables) t.directory written }
    ensures writes { (machine : MachineType) (t : Tables) (gives : List ℕ → Ask → List ℕ) →
        AreTables machine t →
        (written : List Range) × Writes t.image (thunk_width machine) gives t.directory
        (map imported_by_table t.tables) written }
{}

/// Any import tables are in memory with code beside them, at the base that they were linked for or
/// at another, which changes none of them. A loader that reads them there loads the same imports;
/// there is one, and it writes what one does that is handed the imports (`handed`).
/// Every field of code against the symbol of an entry leads, by the processor's rule, to the entry,
/// where the loader wrote what the DLL gives, whatever instruction holds the field; a branch to a
/// name leads to where code defines it, and but for its distance is as it was; other bytes of code
/// are as they were.
pub fn fields_lead_to_any_tables()
    ensures loads { WhereLoaded AreInMemory
        (λ machine image_base t codes targets memory gives n written.
        (n ≡ length t.tables) × AreTablesLoaded machine t gives written) }
    ensures ends { (machine : MachineType) (image_base : ℕ) (t : Tables)
        (codes : List LinkedCode) (targets : LinkedCode → ℕ → ℕ) (memory : List Range)
        (gives : List ℕ → Ask → List ℕ) →
        AreTables machine t →
        AreSteady machine t.linked →
        AreInMemory machine image_base t.image t.linked codes targets memory →
        (written : List Range) × ReadsAndWrites memory (thunk_width machine) gives
        (length t.tables) t.directory written }
    ensures handed { (machine : MachineType) (image_base : ℕ) (t : Tables)
        (codes : List LinkedCode) (targets : LinkedCode → ℕ → ℕ) (memory : List Range)
        (gives : List ℕ → Ask → List ℕ) →
        AreTables machine t →
        AreSteady machine t.linked →
        AreInMemory machine image_base t.image t.linked codes targets memory →
        (written : List Range) →
        Writes t.image (thunk_width machine) gives t.directory (map imported_by_table t.tables)
        written →
        ReadsAndWrites memory (thunk_width machine) gives (length t.tables) t.directory written }
    ensures leads { WhereLoaded AreInMemory
        (λ machine image_base t codes targets memory gives n written.
        OfEntries machine image_base t gives (λ name entry given.
        AllLead machine image_base t.linked codes (written ++ memory) name given)) }
    ensures branches { WhereLoaded AreInMemory
        (λ machine image_base t codes targets memory gives n written.
        (c d : LinkedCode) (offset after : ℕ) (name : List ℕ) (s : ObjectSymbol) →
        Contains codes c →
        HasBranch machine c offset after name →
        Contains codes d →
        DefinesIn d s →
        s.name ≡ name →
        d.position + s.value < 2 ^ 31 →
        CanBranch machine (c.position + offset) (d.position + s.value) →
        BranchArrives machine image_base (written ++ memory) (c.position + offset) after
        (d.position + s.value)) }
    ensures stay { WhereLoaded AreInMemory
        (λ machine image_base t codes targets memory gives n written.
        (c d : LinkedCode) (offset after : ℕ) (name : List ℕ) (s : ObjectSymbol) →
        Contains codes c →
        HasBranch machine c offset after name →
        Contains codes d →
        DefinesIn d s →
        s.name ≡ name →
        CanBranch machine (c.position + offset) (d.position + s.value) →
        BranchStays machine (written ++ memory) (c.position + offset)
        (field_at c.code.bytes offset 4)) }
    ensures kept { WhereLoaded AreInMemory
        (λ machine image_base t codes targets memory gives n written.
        AreKept machine codes (written ++ memory)) }
{}

/// A loader that reads a program by the lookup tables, in memory at any base, and writes each entry
/// of the address tables before it reads on, stops at the null descriptor. It has asked for exactly
/// the imports of the program, each once and in their order, and it leaves, byte for byte, what a
/// loader leaves that first reads and then writes. There is such a loader.
///
/// What a DLL gives has as many bytes as an entry.
pub fn loader_writes()
    ensures loads { (machine : MachineType) (ending : Ending) (image_base : ℕ) (bases : Bases)
        (inputs : List FlavorInput) (objects : List Object)
        (codes : List LinkedCode) (targets : LinkedCode → ℕ → ℕ) (memory : List Range)
        (gives : List ℕ → Ask → List ℕ) →
        AllByRecursion (IsMadeFor machine) inputs →
        IsProgramOf machine ending bases inputs objects →
        AreInMemory machine image_base (image_of machine bases (placed_from bases objects))
        (placed_from bases objects) codes targets memory →
        ((dll : List ℕ) (ask : Ask) → length (gives dll ask) ≡ thunk_width machine) →
        (found : List Imported) (after : List Range) →
        WritesAsItGoes (thunk_width machine) gives bases.descriptors memory found after →
        (found ≡ map (imported_in machine) inputs) × ((written : List Range)
        × (ReadsAndWrites memory (thunk_width machine) gives (length inputs) bases.descriptors
        written × AreAlike after (written ++ memory))) }
    ensures ends { (machine : MachineType) (ending : Ending) (image_base : ℕ) (bases : Bases)
        (inputs : List FlavorInput) (objects : List Object)
        (codes : List LinkedCode) (targets : LinkedCode → ℕ → ℕ) (memory : List Range)
        (gives : List ℕ → Ask → List ℕ) →
        AllByRecursion (IsMadeFor machine) inputs →
        IsProgramOf machine ending bases inputs objects →
        AreInMemory machine image_base (image_of machine bases (placed_from bases objects))
        (placed_from bases objects) codes targets memory →
        ((dll : List ℕ) (ask : Ask) → length (gives dll ask) ≡ thunk_width machine) →
        (after : List Range) × WritesAsItGoes (thunk_width machine) gives bases.descriptors
        memory (map (imported_in machine) inputs) after }
{}
