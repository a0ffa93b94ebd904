//! Links beside the libraries of other makers.

ghost use Rattle.implib_link_instances.specs.Worked.Parts.{WorkedOlder, WorkedParts, WorkedReach};

/// Programs of libraries of GNU dlltool have import tables: one on AMD64, and one on I386; and of
/// each one whose members have older symbols of addresses.
///
/// What GNU C's code calls and jumps to through entries of one of these programs.
pub fn worked_libraries()
    ensures worked_parts { WorkedParts }
    ensures worked_older { WorkedOlder }
    ensures worked_reach { WorkedReach }
{}
