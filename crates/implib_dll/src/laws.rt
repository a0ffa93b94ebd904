//! Laws of lookups and of memory, and what is worked by hand. The functions do nothing: their
//! contracts are the laws.

ghost use Rattle.implib_dll.specs.Laws.{FindsExactly, FindsTheName, HintsChangeNothing, NamesLead};
ghost use Rattle.implib_dll.specs.Laws.{OrdinalsLead, RightHintFinds};
ghost use Rattle.implib_dll.specs.Memory.{ExportsLieInMemory, FileIsInMemory, ImageIsRead};
ghost use Rattle.implib_dll.specs.Memory.{LookupsAreThoseInMemory};
ghost use Rattle.implib_dll.specs.WorkedDlls.{WorkedDlls};
ghost use Rattle.implib_dll.specs.WorkedFiles.{WorkedFiles};
ghost use Rattle.implib_dll.specs.WorkedImports.{WorkedImports};
ghost use Rattle.implib_dll.specs.WorkedLookups.{WorkedLookups};
ghost use Rattle.implib_dll.specs.WorkedMemory.{WorkedMemory};
ghost use Rattle.implib_dll.specs.WorkedRefusals.{WorkedRefusals};

/// Where names rise strictly by their bytes, a lookup with any hint finds a name just where it
/// stands.
pub fn finds_exactly()
    ensures { FindsExactly }
{}

/// Where names rise strictly by their bytes, hints change nothing.
pub fn hints_change_nothing()
    ensures { HintsChangeNothing }
{}

/// Whatever the order of names, what is found has the name.
pub fn finds_the_name()
    ensures { FindsTheName }
{}

/// Whatever the order of names, a right hint finds its name.
pub fn right_hint_finds()
    ensures { RightHintFinds }
{}

/// Where names rise strictly by their bytes, a listed name leads to the target of its index, with
/// any hint.
pub fn names_lead()
    ensures { NamesLead }
{}

/// The ordinal of an index leads to its target.
pub fn ordinals_lead()
    ensures { OrdinalsLead }
{}

/// What is read of a file, each table and each text with its NUL, is in the image in memory, which
/// is stated apart.
pub fn file_is_in_memory()
    ensures { FileIsInMemory }
{}

/// What a file is read to export lies in its image in memory: by the export directory there.
pub fn exports_lie_in_memory()
    ensures { ExportsLieInMemory }
{}

/// A lookup in memory, by the export directory there, finds a name where
/// [`crate::Exports::position_of`] finds it.
pub fn lookups_are_those_in_memory()
    ensures { LookupsAreThoseInMemory }
{}

/// What is read of an image in memory at an address is what its bytes have there.
pub fn image_is_read()
    ensures { ImageIsRead }
{}

/// What DLLs export, byte by byte: made by hand for I386 and AMD64, and a real one of GNU's linker.
pub fn worked_files()
    ensures { WorkedFiles }
{}

/// What DLLs of lld for ARM64 and ARMNT, and of GNU's linker for I386, export, byte by byte.
pub fn worked_dlls()
    ensures { WorkedDlls }
{}

/// What programs import, byte by byte: one of GNU's linker for I386, and one of lld for AMD64; with
/// changed bytes, and refused.
pub fn worked_imports()
    ensures { WorkedImports }
{}

/// What lookups find and what they miss.
pub fn worked_lookups()
    ensures { WorkedLookups }
{}

/// Files that are refused, each for its first fault, and near misses.
pub fn worked_refusals()
    ensures { WorkedRefusals }
{}

/// What is in memory, and what lookups find there.
pub fn worked_memory()
    ensures { WorkedMemory }
{}
