//! Laws of the marks of names, of short imports and of archives.

ghost use Rattle.implib.specs.Definition.{ExportView};
ghost use Rattle.implib_arm64ec.specs.ArchiveLaws.{EachIndexLeads, EachIsReadBack};
ghost use Rattle.implib_arm64ec.specs.ReadBack.{CanBeRead, ReadsBack};
ghost use Rattle.implib_arm64ec.specs.Reading.{Derives, DerivesBefore, qualified_name, read};
ghost use Rattle.implib_arm64ec.specs.WorkedArchives.{WorkedArchiveReadings, WorkedArchives};
ghost use Rattle.implib_arm64ec.specs.WorkedArchives.{WorkedLibraryRefusals};
ghost use Rattle.implib_arm64ec.specs.WorkedImports.{WorkedImports, WorkedReadings, WorkedSymbols};
ghost use Rattle.implib_arm64ec.specs.Unmarked.{MarksAreUndone};
ghost use Rattle.implib_arm64ec.specs.WorkedLibraryImports.{WorkedLibraryImports};
ghost use Rattle.implib_arm64ec.specs.WorkedMarks.{WorkedCraftedNames, WorkedMarks, WorkedNames};
ghost use Rattle.implib_arm64ec.specs.WorkedMarks.{WorkedRefusals};
ghost use Rattle.implib_arm64ec.specs.declared.reading.Reading.TheVariants.{Ends, Stops};
ghost use Rattle.std.specs.Prelude.{length, ◌++◌, ◌≡◌, List, ℕ};

/// What is read as a qualified name is what the grammar derives: where reading ends, the bytes
/// before are derived; whatever is derived is read whole, so at the beginning of a text there is at
/// most one; and where reading stops short, nothing at the beginning of the text is derived.
pub fn readings_are_derived()
    ensures derived { (text : List ℕ) (place : ℕ) → read qualified_name text ≡ Ends place →
        DerivesBefore qualified_name text place }
    ensures whole { (text rest : List ℕ) → Derives qualified_name text →
        read qualified_name (text ++ rest) ≡ Ends (length text) }
    ensures none { (text : List ℕ) (place : ℕ) → read qualified_name text ≡ Stops place →
        (other : ℕ) → DerivesBefore qualified_name text other → ⊥ }
{}

/// Names have these marks, and lose them; names without a reading are refused at these bytes.
pub fn worked_marks()
    ensures marks { WorkedMarks }
    ensures names { WorkedNames }
    ensures crafted { WorkedCraftedNames }
    ensures refusals { WorkedRefusals }
{}

/// Short imports have these bytes and symbols, and are read as these imports.
pub fn worked_imports()
    ensures bytes { WorkedImports }
    ensures symbols { WorkedSymbols }
    ensures readings { WorkedReadings }
{}

/// The short import of an export is read, by its bytes, as the import that the export means.
pub fn short_imports_read_back()
    ensures { (dll : List ℕ) (e : ExportView) (symbol : List ℕ) → CanBeRead dll e symbol →
        ReadsBack dll e symbol }
{}

/// A reader finds in the archive of each library its linker members, its long names, the EC index
/// and the members, in order, and nothing else.
///
/// The linker members lead each symbol to the header of the first header or native member that
/// lists it, and the EC index to that of the first header or import.
pub fn archives_read_back()
    ensures read { EachIsReadBack }
    ensures leads { EachIndexLeads }
{}

/// A library for ARM64EC has this archive, which is read back and whose indexes lead to these
/// offsets; and libraries that are refused.
pub fn worked_archives()
    ensures archives { WorkedArchives }
    ensures readings { WorkedArchiveReadings }
    ensures refusals { WorkedLibraryRefusals }
{}

/// Exports have these symbols in a library; and exports and names of DLLs that are refused.
pub fn worked_library_imports()
    ensures { WorkedLibraryImports }
{}

/// A name without a mark loses the one that it is given; one of C++ does unless its qualified name
/// is all of it.
pub fn marks_are_undone()
    ensures { MarksAreUndone }
{}
