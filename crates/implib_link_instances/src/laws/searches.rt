//! Archive searches.

ghost use Rattle.implib_link_instances.specs.Worked.Plainly.{WorkedPlainly};
ghost use Rattle.implib_link_instances.specs.Worked.Search.{WorkedFound, WorkedNamedApart};
ghost use Rattle.implib_link_instances.specs.Worked.Search.{WorkedSweeps};

/// Sweeps by hand, as GNU `ld` searches: in one of them it takes another member than the first that
/// lists a name.
///
/// What GNU `ld` takes of libraries with an alias, as one that resolves no plain reference by it.
///
/// Libraries whose descriptors are found by the DLL's name, and others.
///
/// Libraries that are named apart, by hand.
pub fn worked_searches()
    ensures worked_sweeps { WorkedSweeps }
    ensures worked_plainly { WorkedPlainly }
    ensures worked_found { WorkedFound }
    ensures worked_named_apart { WorkedNamedApart }
{}
