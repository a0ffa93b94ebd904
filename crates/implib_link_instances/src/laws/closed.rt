//! Worked instances of the laws of closed programs.

ghost use Rattle.implib_link_instances.specs.Worked.BothFlavors.{WorkedBoth, WorkedByLinker};
ghost use Rattle.implib_link_instances.specs.Worked.BothFlavors.{WorkedGiven};

/// A closed program by hand, of an object that names data of one library by an alias and a function
/// of another, of the other flavour, by its pointer, and has a function of its own that a library
/// exports, too.
///
/// The same of two libraries for GNU's linker, with one for Microsoft's between them of which
/// nothing is wanted.
pub fn worked_closed_programs()
    ensures worked_both { WorkedBoth }
    ensures worked_given { WorkedGiven }
    ensures worked_by_linker { WorkedByLinker }
{}
