//! The machines that libraries are made for.

ghost use Rattle.implib_driver.specs.Machines.{library_machine_called, machine_type};
ghost use Rattle.std.specs.Prelude.{◌≡◌};

use implib::MachineType;
use implib_rules::machine::machine_called;

/// A machine that a library is made for.
#[derive(Clone, Copy, Debug, PartialEq, Eq)]
pub enum LibraryMachine {
    /// One whose number each member has.
    Ordinary(MachineType),
    /// ARM64EC, whose short imports have a number of their own, and all other members ARM64's.
    Arm64ec,
}

impl LibraryMachine {
    /// The machine by whose rules names are read and the flavour is chosen: for ARM64EC ARM64.
    pub fn machine_type(self) -> MachineType
        ensures { result ≡ machine_type self }
    {
        match self {
            LibraryMachine::Ordinary(machine) => machine,
            LibraryMachine::Arm64ec => MachineType::ARM64,
        }
    }
}

/// The machine of a name in small letters.
pub fn library_machine_called(name: &str) -> Option<LibraryMachine>
    ensures { result ≡ library_machine_called name.now }
{
    if name == "arm64ec" {
        return Some(LibraryMachine::Arm64ec);
    }
    match machine_called(name) {
        Some(machine) => Some(LibraryMachine::Ordinary(machine)),
        None => None,
    }
}
