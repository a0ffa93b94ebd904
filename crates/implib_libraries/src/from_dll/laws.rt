//! Laws of the imports that are made of a DLL. The functions do nothing: their contracts are the
//! laws.

ghost use Rattle.implib_libraries.specs.FromDll.Laws.{AsksAreFound, ExportsAreAsked, NamesAreAsked};
ghost use Rattle.implib_libraries.specs.FromDll.Worked.{WorkedExports};

/// What is asked for is in the DLL, and found at once: each name at its hint, in any order of the
/// name table.
pub fn asks_are_found()
    ensures { AsksAreFound }
{}

/// Each name that leads to a target is asked for, and leads to the target of its index.
pub fn names_are_asked()
    ensures { NamesAreAsked }
{}

/// Each target is asked for, by a name or by its ordinal.
pub fn exports_are_asked()
    ensures { ExportsAreAsked }
{}

/// DLLs worked by hand have these exports.
pub fn worked_exports()
    ensures { WorkedExports }
{}
