//! The errors of making delayed imports.

ghost use Rattle.implib_delay.specs.Refusal.{delay_cause, delay_index, of_error};
ghost use Rattle.implib_delay.specs.declared.error.DelayError.TheVariants.{OutOfMemory};
ghost use Rattle.std.specs.Prelude.{◌≡◌};

use implib::{Error, Fault};
use std::alloc::AllocError;

/// What is wrong with a definition or a machine. A `usize` is the index of an export among all
/// exports of the definition, private ones counted, from 0.
#[derive(Debug, Drop, thiserror::Error)]
pub enum DelayFault {
    /// The machine has no code for delayed imports: only I386 and AMD64 have.
    #[error("no delayed imports for this machine")]
    Machine,
    /// This export is data or a constant: nothing is called by which it could be loaded.
    #[error("data cannot be delayed")]
    Data(usize),
    /// This export is an alias: a weak name for another.
    #[error("an alias cannot be delayed")]
    Alias(usize),
    /// A fault that an ordinary library for GNU's linker would have too.
    #[error("{0}")]
    Names(Fault),
}

impl DelayFault {
    /// The index of the export at fault among all exports of the definition, from 0.
    pub fn export_index(&self) -> Option<usize>
        ensures { result ≡ delay_index (delay_cause self.now) }
    {
        match self {
            DelayFault::Data(index) | DelayFault::Alias(index) => Some(*index),
            DelayFault::Names(fault) => fault.export_index(),
            DelayFault::Machine => None,
        }
    }
}

/// A fault of the input, or a failed allocation.
#[derive(Debug, Drop, thiserror::Error)]
pub enum DelayError {
    /// The definition or the machine is refused.
    #[error("{0}")]
    Invalid(DelayFault),
    /// An allocation failed.
    #[error("out of memory")]
    OutOfMemory(AllocError),
}

impl From<Error> for DelayError {
    ghost from_gives = { λ refused error. error ≡ of_error refused };

    fn from(refused: Error) -> DelayError {
        match refused {
            Error::Invalid(fault) => DelayError::Invalid(DelayFault::Names(fault)),
            Error::OutOfMemory(refused) => DelayError::OutOfMemory(refused),
        }
    }
}
