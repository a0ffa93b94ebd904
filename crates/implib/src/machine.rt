//! The machines that import objects are made for, with their names and numbers.

ghost use Rattle.implib.specs.Conversions.{IsConverted, machine_name, machine_named};
ghost use Rattle.implib.specs.Conversions.{machine_numbered};
ghost use Rattle.implib.specs.Machine.{has_leading_underscore, is_32bit, machine_number};
ghost use Rattle.std.specs.Fmt.{padded};
ghost use Rattle.std.specs.Prelude.{Some, ◌≡◌};

use crate::coff::constants::machine;
use std::fmt;
use std::str::FromStr;

/// No machine has this name or number.
#[derive(Clone, Copy, Debug, PartialEq, Eq, Drop, thiserror::Error)]
#[error("unknown machine")]
pub struct UnknownMachine;

/// A machine, by its name in the PE/COFF specification, "Machine Types" (`IMAGE_FILE_MACHINE_..`).
#[derive(Clone, Copy, Debug, PartialEq, Eq)]
pub enum MachineType {
    /// x86, 32 bits.
    I386,
    /// ARM Thumb-2, 32 bits.
    ARMNT,
    /// x86-64.
    AMD64,
    /// ARM64.
    ARM64,
}

impl MachineType {
    /// The name of the machine: `I386`, `ARMNT`, `AMD64` or `ARM64`.
    pub fn name(self) -> &'static str
        ensures { result.now ≡ machine_name self }
    {
        match self {
            MachineType::I386 => "I386",
            MachineType::ARMNT => "ARMNT",
            MachineType::AMD64 => "AMD64",
            MachineType::ARM64 => "ARM64",
        }
    }

    /// The machine's number in a file header, one of `coff::machine`.
    pub fn number(self) -> u16
        ensures { result ≡ machine_number self }
    {
        match self {
            MachineType::I386 => machine::I386,
            MachineType::ARMNT => machine::ARMNT,
            MachineType::AMD64 => machine::AMD64,
            MachineType::ARM64 => machine::ARM64,
        }
    }

    /// Whether addresses have 32 bits; those of the other machines have 64.
    pub fn is_32bit(self) -> bool
        ensures { result ≡ is_32bit self }
    {
        match self {
            MachineType::I386 | MachineType::ARMNT => true,
            MachineType::AMD64 | MachineType::ARM64 => false,
        }
    }

    /// Whether a C symbol begins with an underscore that its name in C lacks: on I386 alone.
    pub fn has_leading_underscore(self) -> bool
        ensures { result ≡ has_leading_underscore self }
    {
        self == MachineType::I386
    }
}

/// Reads a machine's name, in capitals as [`MachineType::name`] gives it.
impl FromStr for MachineType {
    type Err = UnknownMachine;

    ghost from_str_gives = { λ text r. IsConverted (machine_named text) r };

    fn from_str(name: &str) -> Result<MachineType, UnknownMachine> {
        match name {
            "I386" => Ok(MachineType::I386),
            "ARMNT" => Ok(MachineType::ARMNT),
            "AMD64" => Ok(MachineType::AMD64),
            "ARM64" => Ok(MachineType::ARM64),
            _ => Err(UnknownMachine),
        }
    }
}

impl fmt::Display for MachineType {
    ghost output = { λ machine. Some (machine_name machine) };

    ghost styled_output = { λ machine spec. Some (padded spec (machine_name machine)) };

    fn fmt<W: fmt::Write>(&self, f: &mut fmt::Formatter<W>) -> fmt::Result {
        f.pad(self.name())
    }
}

/// The machine's number in a file header.
impl From<MachineType> for u16 {
    ghost from_gives = { λ machine number. number ≡ machine_number machine };

    fn from(machine: MachineType) -> u16 {
        machine.number()
    }
}

/// The machine with a number of a file header.
impl TryFrom<u16> for MachineType {
    type Error = UnknownMachine;

    ghost try_from_gives = { λ number r. IsConverted (machine_numbered number) r };

    fn try_from(number: u16) -> Result<MachineType, UnknownMachine> {
        match number {
            machine::I386 => Ok(MachineType::I386),
            machine::ARMNT => Ok(MachineType::ARMNT),
            machine::AMD64 => Ok(MachineType::AMD64),
            machine::ARM64 => Ok(MachineType::ARM64),
            _ => Err(UnknownMachine),
        }
    }
}
