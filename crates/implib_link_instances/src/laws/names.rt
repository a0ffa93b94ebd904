//! Names that stand for others, and names that are wanted otherwise.

ghost use Rattle.implib_link_instances.specs.Worked.OtherNames.{WorkedAlias};
ghost use Rattle.implib_link_instances.specs.Worked.OtherNames.{HoldsOfSome, WorkedAlternateNames};
ghost use Rattle.implib_link_instances.specs.Worked.OtherNames.{WorkedOtherNames};
ghost use Rattle.implib_link_instances.specs.Worked.Wanting.{WorkedWanting};

/// A call by an alias of a program that was linked by hand, and a pointer, are resolved to the
/// alias's target.
///
/// Programs whose objects have names that stand for others are what the law asks for: one of GNU
/// `ld` with `--defsym`, and one of lld with `/alternatename`. What laws of import tables in memory
/// say of all of them, of each entry, stub and thunk, they say of these.
///
/// A list of names in the place of an object that names them: a linker takes the same members, and
/// programs with a list are programs.
pub fn worked_names()
    ensures worked_alias { WorkedAlias }
    ensures worked_other_names { WorkedOtherNames }
    ensures worked_alternate_names { WorkedAlternateNames }
    ensures holds_of_some { HoldsOfSome }
    ensures worked_wanting { WorkedWanting }
{}
