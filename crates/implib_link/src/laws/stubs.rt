//! Laws of stubs and of calls.

ghost use Rattle.implib.specs.Definition.{ExportView};
ghost use Rattle.implib.specs.Formats.Object.{Object, ObjectSymbol, section_numbered};
ghost use Rattle.implib.specs.Link.Placement.{Bases, placed_from};
ghost use Rattle.implib.specs.Members.ImportTables.{thunk_width};
ghost use Rattle.implib.specs.declared.machine.MachineType.{MachineType};
ghost use Rattle.implib_link.specs.Flavors.LldImports.{BranchArrivesByThunk, ThunkArrives};
ghost use Rattle.implib_link.specs.Flavors.Program.{Ending, FlavorInput, IsCode, IsMadeFor};
ghost use Rattle.implib_link.specs.Flavors.Program.{IsProgramOf, exports_chosen, symbol_in};
ghost use Rattle.implib_link.specs.Flavors.Program.{thunks_of};
ghost use Rattle.implib_link.specs.Gnu.Fields.{CanBranch, Defines, DirectCallArrives};
ghost use Rattle.implib_link.specs.Gnu.Fields.{HasDirectCall, PlacedCode, StubAt, DefinesIn};
ghost use Rattle.implib_link.specs.Gnu.Fields.{LinkedCode, placed_code, HasBranch, StubArrives};
ghost use Rattle.implib_link.specs.Gnu.Moves.{AreInMemory};
ghost use Rattle.implib_link.specs.InMemory.{OfStubs, OfThunks, WhereLoaded};
ghost use Rattle.std.specs.List.{AllByRecursion, Contains};
ghost use Rattle.std.specs.Prelude.{◌≡◌, ◌+◌, ◌*◌, ◌++◌, ℕ, List, Some, slice_get};

/// Whatever placed code defines the name of a chosen export of code in a program is the stub of the
/// export's own entry; for Microsoft's linker it is that of the short import's expansion. So by
/// `stubs_of_any_tables_jump` it jumps through that entry, wherever it is placed.
pub fn names_are_stubs()
    ensures { (machine : MachineType) (ending : Ending) (bases : Bases)
        (inputs : List FlavorInput) (objects : List Object) (i j : ℕ) (p : FlavorInput)
        (e : ExportView) (d : PlacedCode)
        (t : ObjectSymbol) →
        AllByRecursion (IsMadeFor machine) inputs →
        IsProgramOf machine ending bases inputs objects →
        slice_get inputs i ≡ Some p →
        slice_get (exports_chosen p) j ≡ Some e →
        IsCode p.flavor e →
        Contains (placed_from bases objects) d.from →
        section_numbered d.from.object.sections d.number ≡ Some d.code →
        Defines d t →
        t.name ≡ symbol_in p.flavor e →
        StubAt machine (placed_from bases objects) d t
        (bases.addresses + thunk_width machine * thunks_of i inputs + thunk_width machine * j) }
{}

/// In memory at any base a stub of an entry of any import tables reads what the DLL gives, and a
/// call by the name that it stands for leads to it. So does lld's thunk of a short import, beside
/// any import tables with an entry of the import's `__imp_` symbol, and a branch to the bare name.
///
/// Calls and branches are within the reach of a branch.
pub fn stubs_of_any_tables_jump()
    ensures arrives { WhereLoaded AreInMemory
        (λ machine image_base t codes targets memory gives n written.
        OfStubs machine image_base t codes gives (λ d s given.
        StubArrives machine image_base (written ++ memory) d.position given)) }
    ensures calls { WhereLoaded AreInMemory
        (λ machine image_base t codes targets memory gives n written.
        OfStubs machine image_base t codes gives (λ d s given.
        (c : LinkedCode) (offset : ℕ) →
        Contains codes c →
        DefinesIn d s →
        HasDirectCall machine (placed_code c) offset s.name →
        CanBranch machine (c.position + offset) d.position →
        DirectCallArrives machine image_base (written ++ memory) (c.position + offset) given)) }
    ensures thunks { WhereLoaded AreInMemory
        (λ machine image_base t codes targets memory gives n written.
        OfThunks machine image_base t codes gives (λ d r given.
        ThunkArrives machine image_base (written ++ memory) d.position given)) }
    ensures branches { WhereLoaded AreInMemory
        (λ machine image_base t codes targets memory gives n written.
        OfThunks machine image_base t codes gives (λ d r given.
        (c : LinkedCode) (offset after : ℕ) →
        Contains codes c →
        HasBranch machine c offset after r.symbol →
        CanBranch machine (c.position + offset) d.position →
        BranchArrivesByThunk machine image_base (written ++ memory) (c.position + offset) after
        given)) }
{}
