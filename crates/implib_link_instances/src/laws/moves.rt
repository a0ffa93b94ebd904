//! Programs that are moved to another base, and a loader that writes as it goes.

ghost use Rattle.implib_link_instances.specs.Worked.Files.{WorkedWritings};

/// Such a loader leaves exactly this of the programs that were linked by hand, on AMD64 and I386,
/// and of I386's in memory at another base.
pub fn worked_moves()
    ensures worked_writings { WorkedWritings }
{}
