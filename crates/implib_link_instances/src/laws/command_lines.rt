//! Command lines of several archives.

ghost use Rattle.implib_link_instances.specs.Worked.CommandLines.{WorkedCommandLines};
ghost use Rattle.implib_link_instances.specs.Worked.CommandLines.{WorkedFlavorLines};

/// On AMD64 and I386: with the library last and in a group GNU `ld` takes all, as one search, and
/// so lld's, does. On AMD64 and, in a group, on I386 GNU `ld` takes a short import and its
/// library's headers behind an archive's member.
pub fn worked_command_lines()
    ensures worked_command_lines { WorkedCommandLines }
    ensures worked_flavor_lines { WorkedFlavorLines }
{}
