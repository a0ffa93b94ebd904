//! Laws of reading. The functions do nothing: their contracts are the laws.

ghost use Rattle.implib_read.specs.Archives.{SameParts};
ghost use Rattle.implib_read.specs.Objects.{SameObjects};
ghost use Rattle.implib_read.specs.OwnLibraries.{OwnGnuLibraries, OwnMembersFound};
ghost use Rattle.implib_read.specs.OwnLibraries.{OwnMsvcLibraries};
ghost use Rattle.implib_read.specs.ShortImports.{SameShortImports};
ghost use Rattle.implib_read.specs.Symbols.{WorkedSymbols};
ghost use Rattle.implib_read.specs.WorkedArm64ec.{WorkedArm64ecImports, WorkedEcIndexes};
ghost use Rattle.implib_read.specs.WorkedArm64ec.{WorkedUnmarked};
ghost use Rattle.implib_read.specs.WorkedCutting.{WorkedCuts};
ghost use Rattle.implib_read.specs.WorkedFiles.{WorkedChanges, WorkedIndexes, WorkedLeads};
ghost use Rattle.implib_read.specs.WorkedFiles.{WorkedNames, WorkedParts, WorkedRoom};
ghost use Rattle.implib_read.specs.WorkedFiles.{WorkedShortImports};
ghost use Rattle.implib_read.specs.WorkedLibraries.{WorkedLibraries};
ghost use Rattle.implib_read.specs.WorkedOwn.{WorkedOwnGnuLibraries, WorkedOwnLibraries};

/// What the reader of `implib`'s definitions has of an object, [`crate::Object::read`] has.
pub fn same_objects()
    ensures { SameObjects }
{}

/// What the reader of `implib`'s definitions has of a short import, [`crate::ShortImport::read`]
/// has, but for name type 4 without its third text.
pub fn same_short_imports()
    ensures { SameShortImports }
{}

/// The parts that the reader of `implib_archive`'s definitions has of an archive,
/// [`crate::Archive::read`] has.
pub fn same_parts()
    ensures { SameParts }
{}

/// What libraries of GNU's linker, GNU dlltool and llvm-dlltool mean, worked by hand.
pub fn worked_libraries()
    ensures { WorkedLibraries }
{}

/// Short imports, byte by byte: what they mean, and bytes that are none.
pub fn worked_short_imports()
    ensures { WorkedShortImports }
{}

/// Texts of ARM64EC without their marks, what its short imports mean, byte by byte, and what EC
/// indexes say.
pub fn worked_arm64ec()
    ensures unmarked { WorkedUnmarked }
    ensures imports { WorkedArm64ecImports }
    ensures indexes { WorkedEcIndexes }
{}

/// By which short imports linkers ask for different names, byte by byte.
pub fn worked_cuts()
    ensures { WorkedCuts }
{}

/// Archives, byte by byte, and bytes that are none.
pub fn worked_parts()
    ensures { WorkedParts }
{}

/// What name fields and long names say.
pub fn worked_names()
    ensures { WorkedNames }
{}

/// Which names of an object's symbols have room, and which have none.
pub fn worked_room()
    ensures { WorkedRoom }
{}

/// By which symbol an import is linked, by what it declares.
pub fn worked_symbols()
    ensures { WorkedSymbols }
{}

/// What an object means with changed bytes.
pub fn worked_changes()
    ensures { WorkedChanges }
{}

/// What indexes say, byte by byte, and bytes that are none.
pub fn worked_indexes()
    ensures { WorkedIndexes }
{}

/// Where the index of a library leads, and where it ought to.
pub fn worked_leads()
    ensures { WorkedLeads }
{}

/// In an archive of `implib_archive` the members are found, in order, and nothing else.
pub fn own_members_found()
    ensures { OwnMembersFound }
{
    same_parts();
}

/// An archive of a definition's members for Microsoft's linker reads as a library of that
/// definition: its first members are those of the import tables, and each further one is an import
/// or an alias of the definition.
pub fn own_msvc_libraries()
    ensures { OwnMsvcLibraries }
{
    own_members_found();
    same_short_imports();
    same_objects();
}

/// Libraries beside definitions, worked by hand: some that are theirs, and some that are not.
pub fn worked_own_libraries()
    ensures { WorkedOwnLibraries }
{}

/// An archive of a definition's members for GNU's linker reads as a library of that definition: its
/// first members are the tail and the head, and each further one is an import or an alias of the
/// definition.
pub fn own_gnu_libraries()
    ensures { OwnGnuLibraries }
{
    own_members_found();
    same_short_imports();
    same_objects();
}

/// Libraries for GNU's linker beside definitions, worked by hand: some that are theirs, and some
/// that are not.
pub fn worked_own_gnu_libraries()
    ensures { WorkedOwnGnuLibraries }
{}
