//! Laws of verdicts, and what is worked by hand. The functions do nothing: their contracts are the
//! laws.

ghost use Rattle.implib_compare.specs.DllCheck.Folders.{RightDllsExtend};
ghost use Rattle.implib_compare.specs.DllCheck.Kinds.{DataEndsAreData, KnownDllsDecideKinds};
ghost use Rattle.implib_compare.specs.DllCheck.Laws.{KnownDllsDecide, OwnAsksPass};
ghost use Rattle.implib_compare.specs.DllCheck.Worked.{WorkedVerdicts};
ghost use Rattle.implib_compare.specs.DllCheck.WorkedFolders.{WorkedFolders};
ghost use Rattle.implib_compare.specs.DllCheck.WorkedForwarding.{WorkedForwarding};
ghost use Rattle.implib_compare.specs.DllCheck.WorkedImports.{WorkedImports};
ghost use Rattle.implib_compare.specs.DllCheck.WorkedKinds.{WorkedKinds};
ghost use Rattle.implib_compare.specs.DllCheck.WorkedPrograms.{WorkedPrograms};

/// What is asked for by the imports that are made of a DLL is found there, and without a search.
pub fn own_asks_pass()
    ensures { OwnAsksPass }
{}

/// Where forwarders lead through some DLLs that are known, they lead whatever is known besides.
pub fn known_dlls_decide()
    ensures { KnownDllsDecide }
{}

/// A forwarder that is followed as what a function is imported by stops at data just where its last
/// target is data.
pub fn data_ends_are_data()
    ensures { DataEndsAreData }
{}

/// Of which kinds exports are through some DLLs that are known, they are whatever is known besides.
pub fn known_dlls_decide_kinds()
    ensures { KnownDllsDecideKinds }
{}

/// What is right of some DLLs is part of what there is in the folders.
pub fn right_dlls_extend()
    ensures { RightDllsExtend }
{}

/// Imports and names of DLLs worked by hand have these verdicts.
pub fn worked_verdicts()
    ensures { WorkedVerdicts }
{}

/// Imports of libraries, of each kind, worked by hand come to this in a DLL.
pub fn worked_imports()
    ensures { WorkedImports }
{}

/// Forwarders worked by hand lead to this: through two DLLs, by an ordinal, in a circle, and to
/// what is not there.
pub fn worked_forwarding()
    ensures { WorkedForwarding }
{}

/// What programs ask of DLLs, worked by hand.
pub fn worked_programs()
    ensures { WorkedPrograms }
{}

/// Exports worked by hand are of these kinds: forwarded to data and to code, through two DLLs, and
/// to nothing.
pub fn worked_kinds()
    ensures { WorkedKinds }
{}

/// DLLs worked by hand have these files in folders.
pub fn worked_folders()
    ensures { WorkedFolders }
{}
