//! The law of the addresses that code and data hold as numbers.

ghost use Rattle.implib.specs.Formats.Object.{ObjectSymbol};
ghost use Rattle.implib.specs.Link.Image.{Range};
ghost use Rattle.implib.specs.Link.Placement.{Placed};
ghost use Rattle.implib.specs.Members.ImportTables.{thunk_width};
ghost use Rattle.implib.specs.declared.machine.MachineType.{MachineType};
ghost use Rattle.implib_link.specs.Flavors.LldImports.{ThunkArrives};
ghost use Rattle.implib_link.specs.Gnu.Fields.{DefinesIn, LinkedCode, HasPointer, StubArrives};
ghost use Rattle.implib_link.specs.Gnu.Moves.{AreInMemory};
ghost use Rattle.implib_link.specs.Gnu.Stored.{AreStoredInMemory, HoldAddress, PointsTo};
ghost use Rattle.implib_link.specs.InMemory.{OfStubs, OfThunks, WhereLoaded};
ghost use Rattle.implib_link.specs.Tables.{Table, TableEntry};
ghost use Rattle.std.specs.List.{Contains};
ghost use Rattle.std.specs.Prelude.{◌≡◌, ◌+◌, ◌*◌, ◌++◌, ◌<◌, ◌≤◌, ◌^◌, ℕ, List, Some, slice_get};

/// In memory at any base every field for the address of a name holds it: stored whole, from the
/// image's base, and by ARM64's `adrp` and `add`. Of a name that linked code defines it is where
/// the code defines it (`names`), of an entry's symbol the entry's address (`entries`).
///
/// So a field that stores the bare name of an import whole points to the stub (`stubs`), or to
/// lld's thunk (`thunks`), which jumps to what the DLL gives, and a call through the pointer goes
/// there. All of the image is below what a pointer can hold.
///
/// Memory with such addresses is memory for all other laws (`plain`).
pub fn fields_hold_addresses()
    ensures names { WhereLoaded AreStoredInMemory
        (λ machine image_base t codes targets memory gives n written.
        (d : LinkedCode) (s : ObjectSymbol) →
        Contains codes d →
        DefinesIn d s →
        d.position + s.value < 2 ^ 31 →
        HoldAddress machine image_base codes (written ++ memory) s.name (d.position + s.value)) }
    ensures entries { WhereLoaded AreStoredInMemory
        (λ machine image_base t codes targets memory gives n written.
        (i j : ℕ) (x : Table) (e : TableEntry) (name : List ℕ) →
        slice_get t.tables i ≡ Some x →
        slice_get x.entries j ≡ Some e →
        e.symbol ≡ Some name →
        HoldAddress machine image_base codes (written ++ memory) name
        (x.address + thunk_width machine * j)) }
    ensures stubs { WhereLoaded AreStoredInMemory
        (λ machine image_base t codes targets memory gives n written.
        OfStubs machine image_base t codes gives (λ d s given.
        DefinesIn d s →
        (c : LinkedCode) (offset : ℕ) →
        image_base + 2 ^ 31 ≤ 2 ^ (8 * thunk_width machine) →
        Contains codes c →
        HasPointer machine c offset s.name →
        PointsTo machine image_base (written ++ memory) (c.position + offset)
        (λ a. StubArrives machine image_base (written ++ memory) a given))) }
    ensures thunks { WhereLoaded AreStoredInMemory
        (λ machine image_base t codes targets memory gives n written.
        OfThunks machine image_base t codes gives (λ d r given.
        (c : LinkedCode) (offset : ℕ) →
        image_base + 2 ^ 31 ≤ 2 ^ (8 * thunk_width machine) →
        Contains codes c →
        HasPointer machine c offset r.symbol →
        PointsTo machine image_base (written ++ memory) (c.position + offset)
        (λ a. ThunkArrives machine image_base (written ++ memory) a given))) }
    ensures plain { (machine : MachineType) (image_base : ℕ) (image : List Range)
        (linked : List Placed) (codes : List LinkedCode) (targets : LinkedCode → ℕ → ℕ)
        (memory : List Range) →
        AreStoredInMemory machine image_base image linked codes targets memory →
        AreInMemory machine image_base image linked codes targets memory }
{}
