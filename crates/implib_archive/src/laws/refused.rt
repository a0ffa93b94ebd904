//! Names, archives and lists of members at the bounds.

ghost use Rattle.implib_archive.specs.Refused.{ReadNames, RefusedArchives, WorkedBounds};
ghost use Rattle.implib_archive.specs.Refused.{WorkedFields};

/// Names at the bounds of a header's field, archives that are wrong in one place, and members at
/// the bounds of what an archive can carry.
pub fn worked_bounds()
    ensures fields { WorkedFields }
    ensures names { ReadNames }
    ensures archives { RefusedArchives }
    ensures bounds { WorkedBounds }
{}
