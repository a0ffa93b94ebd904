//! Laws of files of linked programs. The functions do nothing: their contracts are the laws.

ghost use Rattle.implib_link.specs.Image.Laws.{FieldsLeadInFiles, FilesHoldAddresses, FilesLoad};
ghost use Rattle.implib_link.specs.Image.Laws.{PackedTablesAreInDirectory, WritesAreInDirectory};

/// A loader that begins with the file of any import tables, as Windows does, loads exactly what
/// they import.
pub fn files_load()
    ensures { FilesLoad }
{}

/// So in a file with code, mapped at its own base, every field of code against the symbol of an
/// entry leads to what the DLL gives.
pub fn fields_lead_in_files()
    ensures { FieldsLeadInFiles }
{}

/// And every field for the address of a name that linked code defines holds it, as a pointer in
/// data and a handler in unwind data.
pub fn files_hold_addresses()
    ensures { FilesHoldAddresses }
{}

/// Where data directory 12 has the address tables, such a loader writes nothing outside it.
pub fn writes_are_in_directory()
    ensures { WritesAreInDirectory }
{}

/// Tables that follow one another, as all the linkers here place them, are in a directory that
/// begins where they do and has room for their entries and null thunks.
pub fn packed_tables_are_in_directory()
    ensures { PackedTablesAreInDirectory }
{}
