//! Laws of the definitions. The functions do nothing: their contracts are the laws.

ghost use Rattle.implib_check_driver.specs.OwnExportAs.{MadeLibrariesAreTheSame, MeantIsMade};
ghost use Rattle.implib_check_driver.specs.OwnExportAs.{SameSaysTheMade};
ghost use Rattle.implib_check_driver.specs.OwnIndexes.{OwnIndexesLead};
ghost use Rattle.implib_check_driver.specs.OwnLibraries.{MeantIsDefined, OwnLibrariesAreTheSame};
ghost use Rattle.implib_check_driver.specs.OwnLibraries.{SameSaysTheDefined};
ghost use Rattle.implib_check_driver.specs.OwnTables.{OwnTablesAreWhole};
ghost use Rattle.implib_check_driver.specs.WorkedExportAs.{WorkedExportAs};

use implib_read::laws::{
    own_gnu_libraries, own_members_found, same_objects, same_parts, same_short_imports,
};

/// What is read of the library of a definition is what the definition says: its imports and its
/// aliases, in the order of its exports, and parts of import tables.
pub fn meant_is_defined()
    ensures { MeantIsDefined }
{
    own_members_found();
    same_short_imports();
    same_objects();
    own_gnu_libraries();
}

/// A library is told to be the same as a definition only where it has the imports and aliases that
/// the definition means, in any order.
pub fn same_says_the_defined()
    ensures { SameSaysTheDefined }
{
    meant_is_defined();
}

/// The library of a definition, as `implib_dlltool` writes it, is told to be the same as the
/// definition.
pub fn own_libraries_are_the_same()
    ensures { OwnLibrariesAreTheSame }
{
    meant_is_defined();
}

/// The indexes of the library of a definition, as `implib_dlltool` writes it, lead each of their
/// symbols to the first member that declares it.
pub fn own_indexes_lead()
    ensures { OwnIndexesLead }
{
    same_parts();
    own_members_found();
    same_short_imports();
    same_objects();
}

/// The library of a definition, as `implib_dlltool` writes it, works, apart from where its indexes
/// lead: each member is understood, and its import tables are whole.
pub fn own_tables_are_whole()
    ensures { OwnTablesAreWhole }
{
    own_members_found();
    same_short_imports();
    same_objects();
    own_gnu_libraries();
    meant_is_made();
}

/// What is read of the library of a definition is what the definition says, also where short
/// imports have a third text.
pub fn meant_is_made()
    ensures { MeantIsMade }
{
    own_members_found();
    same_short_imports();
    same_objects();
    own_gnu_libraries();
    meant_is_defined();
}

/// The library of a definition is told to be the same as the definition, also where short imports
/// have a third text.
pub fn made_libraries_are_the_same()
    ensures { MadeLibrariesAreTheSame }
{
    meant_is_made();
}

/// A library is told to be the same as a definition only where it has the imports and aliases that
/// the definition means, also where short imports have a third text.
pub fn same_says_the_made()
    ensures { SameSaysTheMade }
{
    meant_is_made();
}

/// What definitions mean where short imports have a third text, worked by hand.
pub fn worked_export_as()
    ensures { WorkedExportAs }
{}
