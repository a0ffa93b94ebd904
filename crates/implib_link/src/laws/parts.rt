//! Laws of programs of import libraries of any makers.

ghost use Rattle.implib.specs.Definition.{ExportView};
ghost use Rattle.implib.specs.Formats.Object.{Object, ObjectSymbol, section_numbered};
ghost use Rattle.implib.specs.Link.LinkedMembers.{IsMade, LinkInput, chosen_exports};
ghost use Rattle.implib.specs.Link.Placement.{Bases, placed_from};
ghost use Rattle.implib.specs.Members.ImportTables.{thunk_width};
ghost use Rattle.implib.specs.Members.OlderSymbols.{AreOlderMembersOf};
ghost use Rattle.implib.specs.declared.machine.MachineType.{MachineType};
ghost use Rattle.implib_link.specs.Flavors.Program.{IsProgram};
ghost use Rattle.implib_link.specs.Gnu.Fields.{Defines, PlacedCode, StubAt};
ghost use Rattle.implib_link.specs.Parts.{IsPart, IsProgramOfParts, Part, older_linked};
ghost use Rattle.implib_link.specs.Parts.{older_part_of, part_of, stores_none};
ghost use Rattle.implib_link.specs.Tables.{AreSteady, AreTables, Table, tables_at};
ghost use Rattle.std.specs.List.{AllByRecursion, Contains, list_all};
ghost use Rattle.std.specs.Prelude.{◌≡◌, ◌+◌, ◌*◌, ℕ, Bool, List, Some, false, map, slice_get};
ghost use Rattle.std.specs.Prelude.{true};

/// A program of import libraries of any makers has import tables, each DLL's of exactly the entries
/// that are read of its library's objects.
pub fn parts_have_tables()
    ensures tables { (machine : MachineType) (bases : Bases) (parts : List Part)
        (objects : List Object) →
        AllByRecursion (IsPart machine) parts →
        IsProgramOfParts machine bases parts objects →
        AreTables machine (tables_at machine bases objects (map (λ (p : Part). p.table) parts)) }
    ensures steady { (machine : MachineType) (bases : Bases) (parts : List Part)
        (objects : List Object) →
        IsProgramOfParts machine bases parts objects →
        AllByRecursion (λ (p : Part). list_all (stores_none machine) p.objects ≡ true) parts →
        AreSteady machine (placed_from bases objects) }
{}

/// What is linked of a definition for GNU's linker is such a library's part, and stores no address
/// whole.
/// A program of such members alone is one of their parts.
///
/// So is what is linked of members that have older symbols of addresses, as `-C` asks for them:
/// each entry has both symbols, and the part names it by either.
pub fn members_are_part()
    ensures part { (machine : MachineType) (p : LinkInput) →
        IsMade machine p →
        IsPart machine (part_of machine p) }
    ensures stores { (machine : MachineType) (p : LinkInput) →
        IsMade machine p →
        list_all (stores_none machine) (part_of machine p).objects ≡ true }
    ensures program { (machine : MachineType) (bases : Bases) (inputs : List LinkInput)
        (objects : List Object) →
        AllByRecursion (IsMade machine) inputs →
        IsProgram machine bases inputs objects →
        IsProgramOfParts machine bases (map (part_of machine) inputs) objects }
    ensures older { (machine : MachineType) (p : LinkInput) (older : ExportView → Bool) →
        AreOlderMembersOf p.definition machine p.members →
        IsPart machine (older_part_of machine older p) }
    ensures older_stores { (machine : MachineType) (p : LinkInput) (older : ExportView → Bool) →
        AreOlderMembersOf p.definition machine p.members →
        list_all (stores_none machine) (older_part_of machine older p).objects ≡ true }
    ensures older_held { (machine : MachineType) (p : LinkInput) →
        AreOlderMembersOf p.definition machine p.members →
        AllByRecursion (Contains p.members) (older_linked p.definition machine p.chosen) }
{}

/// Whatever placed code defines the name of a member's export of code, beside libraries of any
/// makers, is the stub of the export's own entry; so it is where members have older symbols.
pub fn names_are_stubs_beside_others()
    ensures stubs { (machine : MachineType) (bases : Bases) (parts : List Part)
        (objects : List Object) (i j : ℕ) (x : Table) (p : LinkInput) (e : ExportView)
        (d : PlacedCode)
        (t : ObjectSymbol) →
        AllByRecursion (IsPart machine) parts →
        IsProgramOfParts machine bases parts objects →
        IsMade machine p →
        slice_get parts i ≡ Some (part_of machine p) →
        slice_get (tables_at machine bases objects (map (λ (q : Part). q.table) parts)).tables i
        ≡ Some x →
        slice_get (chosen_exports p.definition p.chosen) j ≡ Some e →
        e.is_data ≡ false →
        Contains (placed_from bases objects) d.from →
        section_numbered d.from.object.sections d.number ≡ Some d.code →
        Defines d t →
        t.name ≡ e.name →
        StubAt machine (placed_from bases objects) d t (x.address + thunk_width machine * j) }
    ensures older { (machine : MachineType) (bases : Bases) (parts : List Part)
        (objects : List Object) (i j : ℕ) (x : Table) (p : LinkInput) (older : ExportView → Bool)
        (e : ExportView) (d : PlacedCode) (t : ObjectSymbol) →
        AllByRecursion (IsPart machine) parts →
        IsProgramOfParts machine bases parts objects →
        AreOlderMembersOf p.definition machine p.members →
        slice_get parts i ≡ Some (older_part_of machine older p) →
        slice_get (tables_at machine bases objects (map (λ (q : Part). q.table) parts)).tables i
        ≡ Some x →
        slice_get (chosen_exports p.definition p.chosen) j ≡ Some e →
        (e.is_data ≡ false) →
        Contains (placed_from bases objects) d.from →
        section_numbered d.from.object.sections d.number ≡ Some d.code →
        Defines d t →
        t.name ≡ e.name →
        StubAt machine (placed_from bases objects) d t (x.address + thunk_width machine * j) }
{}
