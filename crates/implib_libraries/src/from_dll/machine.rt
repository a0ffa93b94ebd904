//! The machine of a DLL.

ghost use Rattle.implib.specs.Conversions.{IsConverted, machine_numbered};

use implib::{MachineType, UnknownMachine};
use implib_dll::Exports;

/// The machine of the file header, if libraries are made for it.
///
/// # Errors
///
/// The number is that of another machine.
pub fn machine_of(exports: &Exports<'_>) -> Result<MachineType, UnknownMachine>
    ensures { IsConverted (machine_numbered exports.now.machine) result }
{
    MachineType::try_from(exports.machine)
}
