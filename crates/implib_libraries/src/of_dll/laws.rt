//! The law, and what meets its premises. The functions do nothing: their contracts are the laws.

ghost use Rattle.implib_libraries.specs.OfDll.Libraries.{DecoratedLibrariesAskForExports};
ghost use Rattle.implib_libraries.specs.OfDll.Libraries.{LibrariesAskForExports};
ghost use Rattle.implib_libraries.specs.OfDll.Worked.{WorkedPremises};
ghost use Rattle.implib_libraries.specs.OfDll.WorkedDecorated.{WorkedDecorations};

/// The members of a DLL's library, read by their bytes alone, ask for exactly what the DLL exports,
/// and a loader finds each ask in the DLL at once.
pub fn libraries_ask_for_exports()
    ensures { LibrariesAskForExports }
{}

/// With the symbols of a file they do so too.
pub fn decorated_libraries_ask_for_exports()
    ensures { DecoratedLibrariesAskForExports }
{}

/// Symbols of files, and exports with them, worked by hand.
pub fn worked_decorations()
    ensures { WorkedDecorations }
{}

/// DLLs and options worked by hand meet the premises, and others do not.
pub fn worked_premises()
    ensures { WorkedPremises }
{}
