//! Laws of delayed calls, each as the contract of a function that does nothing.

ghost use Rattle.implib_delay.specs.Calls.{Begins, FieldsLead, FirstCall, LaterCalls, Placement};
ghost use Rattle.implib.specs.Definition.{DefinitionView};
ghost use Rattle.implib.specs.Members.MemberSpec.{MemberView};
ghost use Rattle.implib.specs.Renaming.{renamed};
ghost use Rattle.implib_delay.specs.Members.{AreDelayedMembersOf};
ghost use Rattle.implib_delay.specs.Reader.{DelayedReadBack};
ghost use Rattle.implib_delay.specs.Processor.{Mode, State, word_size};
ghost use Rattle.implib_delay.specs.WorkedCalls.{WorkedAnswers, WorkedCalls, WorkedPremises};
ghost use Rattle.implib_delay.specs.WorkedCode.{WorkedCode, WorkedLinkedCode};
ghost use Rattle.implib_delay.specs.WorkedObjects.{WorkedNames, WorkedObjects, WorkedRefusals};
ghost use Rattle.implib_delay.specs.WorkedReadings.{WorkedReadings};
ghost use Rattle.std.specs.Prelude.{◌%◌, ◌≡◌, ℕ, List};

use implib::MachineType;

/// The first call of a delayed function, whose code is linked and whose entry is not bound yet,
/// calls the helper with its descriptor and its entry. From each state in which the helper may
/// return, by the calling convention, the function is reached with its arguments and its stack as
/// they were.
pub fn first_call_arrives()
    ensures { (mode : Mode) (p : Placement) (end : ℕ) (s : State) → FieldsLead mode p →
        Begins mode p end s → FirstCall mode p end s }
{}

/// A later call reaches the function by its entry alone, and changes nothing.
pub fn later_calls_arrive()
    ensures { (mode : Mode) (p : Placement) → FieldsLead mode p →
        p.entry % word_size mode ≡ 0 → LaterCalls mode p }
{}

/// The code has these bytes; linked and called, it comes where it was worked out by hand that it
/// does, and code that is wrong does not.
pub fn worked_code()
    ensures bytes { WorkedCode }
    ensures linked { WorkedLinkedCode }
    ensures calls { WorkedCalls }
{}

/// Places and states that were worked by hand meet the premises of these laws.
pub fn worked_premises()
    ensures premises { WorkedPremises }
    ensures answers { WorkedAnswers }
{}

/// The objects of foo.dll, which was worked by hand, are these on both machines; the members have
/// these names, and these definitions are refused.
pub fn worked_members()
    ensures objects { WorkedObjects }
    ensures names { WorkedNames }
    ensures refusals { WorkedRefusals }
{}

/// Members of a definition are read by their bytes as exactly the imports that the definition
/// means.
pub fn members_read_back()
    ensures { (d : DefinitionView) (machine : MachineType) (members : List MemberView) →
        AreDelayedMembersOf (renamed d) machine members → DelayedReadBack d machine members }
{}

/// The objects of foo.dll are read as these imports, and objects that are no delayed imports as
/// none.
pub fn worked_readings()
    ensures { WorkedReadings }
{}
