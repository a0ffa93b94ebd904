//! Laws of the import tables that lld makes of short imports.

ghost use Rattle.implib_link.specs.Tables.{AreTables, Block, DefineEntries, imported_by_table};
ghost use Rattle.implib_link.specs.Tables.{packed_tables};
ghost use Rattle.implib.specs.Formats.ShortImport.{ShortImport};
ghost use Rattle.implib.specs.Link.Image.{AllApart, Range, range_end};
ghost use Rattle.implib.specs.Link.Placement.{Placed};
ghost use Rattle.implib.specs.Members.ImportTables.{thunk_width};
ghost use Rattle.implib.specs.declared.machine.MachineType.{MachineType};
ghost use Rattle.implib_link.specs.Directory.{DirectoryAt, Imported};
ghost use Rattle.implib_link.specs.Flavors.LldImports.{IsLldProgram, LldLinks, ArePiecesAt};
ghost use Rattle.implib_link.specs.Flavors.LldImports.{IsImportable, addresses_at, built, hints_at};
ghost use Rattle.implib_link.specs.Flavors.LldImports.{lookups_at, names_at};
ghost use Rattle.std.specs.List.{AllByRecursion, Contains};
ghost use Rattle.std.specs.Prelude.{◌<◌, ◌^◌, ℕ, List, map};

/// The five pieces that lld makes of DLLs and what is asked of them are a directory of exactly
/// these imports, wherever each piece stands. What lld writes where nothing else has import tables,
/// one piece that is apart from all else, has the five at their addresses.
///
/// They are import tables where each entry's symbol has one definition, the entry; whatever files
/// lld took the imports from: short imports with the DLL's own name as a third text, too.
pub fn pieces_are_a_directory()
    ensures directory { (machine : MachineType) (image : List Range)
        (descriptors lookups addresses hints names : ℕ) (imports : List Imported) →
        AllByRecursion (λ r. 0 < r.start) image →
        AllByRecursion (λ r. range_end r < 2 ^ 31) image →
        AllByRecursion IsImportable imports →
        ArePiecesAt machine image descriptors lookups addresses hints names imports →
        DirectoryAt image (thunk_width machine) descriptors imports }
    ensures pieces { (machine : MachineType) (base : ℕ) (imports : List Imported)
        (image : List Range) →
        AllApart image →
        Contains image (built machine base imports) →
        ArePiecesAt machine image base (lookups_at machine base imports)
        (addresses_at machine base imports) (hints_at machine base imports)
        (names_at machine base imports) imports }
    ensures tables { (machine : MachineType) (image : List Range) (linked : List Placed)
        (descriptors lookups addresses hints names : ℕ) (blocks : List Block) →
        AllByRecursion (λ r. 0 < r.start) image →
        AllByRecursion (λ r. range_end r < 2 ^ 31) image →
        AllByRecursion IsImportable
        (map imported_by_table (packed_tables (thunk_width machine) addresses blocks)) →
        ArePiecesAt machine image descriptors lookups addresses hints names
        (map imported_by_table (packed_tables (thunk_width machine) addresses blocks)) →
        DefineEntries machine linked (packed_tables (thunk_width machine) addresses blocks) →
        AreTables machine (record {
          image = image;
          linked = linked;
          directory = descriptors;
          tables = packed_tables (thunk_width machine) addresses blocks;
        }) }
{}

/// Of the short imports that lld took, its tables are a directory of exactly these, by DLL and
/// symbol, and each `__imp_` symbol is its short import's own entry, from whichever object it is
/// named.
pub fn lld_links()
    ensures links { (machine : MachineType) (descriptors addresses : ℕ)
        (taken : List ShortImport) (image : List Range) (linked : List Placed) →
        IsLldProgram machine descriptors addresses taken image linked →
        LldLinks machine descriptors addresses taken image linked }
{}
