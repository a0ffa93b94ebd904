//! Laws of archives. The functions do nothing: their contracts are the laws.

pub mod refused;

ghost use Rattle.implib_archive.specs.Leads.{EachIndexLeads, EachSecondLeads};
ghost use Rattle.implib_archive.specs.ReadBack.{MembersReadBack, PartsReadBack};
ghost use Rattle.implib_archive.specs.Worked.{WorkedArchives, WorkedIndexes, WorkedReadBack};
ghost use Rattle.implib_archive.specs.Worked.{WorkedReadings, WorkedRefusals};

/// Two members, and none, have these archives in both kinds.
pub fn worked_archives()
    ensures { WorkedArchives }
{}

/// The worked archives are read as their members, by sequence and by index.
pub fn worked_readings()
    ensures { WorkedReadings }
{}

/// Members that have no archive, and why.
pub fn worked_refusals()
    ensures { WorkedRefusals }
{}

/// A reader finds in each archive the linker members, the long names and the members, in order, and
/// nothing else.
pub fn parts_read_back()
    ensures { PartsReadBack }
{}

/// A reader finds in each archive the members, in order, each with its whole name and its bytes.
///
/// The signature, the linker members, the long names and the members follow one another and fill
/// the archive, so no two headers overlap, and nothing else is in it.
pub fn members_read_back()
    ensures { MembersReadBack }
{}

/// The worked archives are read back, with headers at these offsets; neither with a byte more, nor
/// where a member has no name.
pub fn worked_read_back()
    ensures { WorkedReadBack }
{}

/// The index of each archive leads each symbol to the header of the first member that lists it, and
/// finds a symbol exactly if a member lists it.
///
/// In the COFF kind the second linker member leads each symbol where the first does, and its
/// symbols rise strictly, by the order of their bytes.
pub fn index_leads()
    ensures first { EachIndexLeads }
    ensures second { EachSecondLeads }
{}

/// The indexes of the worked archives lead to these offsets; and what is no index of members.
pub fn worked_indexes()
    ensures { WorkedIndexes }
{}
