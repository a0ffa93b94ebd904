//! Members that were worked by hand.

ghost use Rattle.implib.specs.Worked.Members.{WorkedBytes, WorkedFields, WorkedMeanings};
ghost use Rattle.implib.specs.Worked.Members.{WorkedOutlines, WorkedRefusals};
ghost use Rattle.implib.specs.Worked.Gnu.{WorkedGnuBytes, WorkedGnuOutlines, WorkedGnuRefusals};
ghost use Rattle.implib.specs.Worked.MemberSpecs.{WorkedLists, WorkedMemberSpecs};
ghost use Rattle.implib.specs.Worked.OlderSymbols.{WorkedOlderBytes, WorkedOlderOutlines};

use crate::machine::MachineType;

/// Definitions that were worked by hand have these members for Microsoft's linker, or are refused
/// for these causes.
pub fn worked_members()
    ensures outlines { WorkedOutlines }
    ensures refusals { WorkedRefusals }
    ensures meanings { WorkedMeanings }
    ensures bytes { WorkedBytes }
    ensures fields { WorkedFields }
{}

/// Definitions that were worked by hand have these members for GNU's linker, or are refused for
/// these causes.
pub fn worked_gnu_members()
    ensures outlines { WorkedGnuOutlines }
    ensures refusals { WorkedGnuRefusals }
    ensures bytes { WorkedGnuBytes }
{}

/// Definitions that were worked by hand have these members with older symbols for GNU's linker, or
/// are refused.
pub fn worked_older_symbols()
    ensures outlines { WorkedOlderOutlines }
    ensures bytes { WorkedOlderBytes }
{}

/// A definition that was worked by hand has these members on each machine, for either linker.
pub fn worked_member_specs()
    ensures { (machine : MachineType) → WorkedMemberSpecs machine }
{}

/// The members of a definition with aliases, one of them of data and one of a constant, are in
/// three lists for Microsoft's linker those that were worked by hand, on each machine.
pub fn worked_lists()
    ensures { (machine : MachineType) → WorkedLists machine }
{}
