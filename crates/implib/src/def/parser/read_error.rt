//! Why the readers of tokens stop.

ghost use Rattle.implib.specs.Views.Parser.{error_of};
ghost use Rattle.implib.specs.declared.def.parser.read_error.ReadError.TheVariants.{OutOfMemory};
ghost use Rattle.std.specs.Prelude.{◌≡◌};

use crate::error::{Error, Fault};
use std::alloc::{AllocError, AllocFailed};

/// A refused token, or a failed allocation.
#[derive(Drop)]
pub enum ReadError {
    /// The fault of a refused token, and the offset of its value. The offset is 0 where no token is
    /// left. That never happens for a text: `Eof` is its last token, and no reader reads on after
    /// it.
    Refused(Fault, usize),
    /// An allocation failed.
    OutOfMemory(AllocError),
}

impl From<AllocError> for ReadError {
    ghost from_gives = { λ refused error. error ≡ OutOfMemory refused };

    fn from(refused: AllocError) -> ReadError {
        ReadError::OutOfMemory(refused)
    }
}

impl<T: Drop> From<AllocFailed<T>> for ReadError {
    ghost use Rattle.std.specs.Prelude.{◌≡◌, alloc_error};

    ghost from_gives = { λ _ error. error ≡ OutOfMemory alloc_error };

    fn from(refused: AllocFailed<T>) -> ReadError {
        ReadError::OutOfMemory(AllocError::from(refused))
    }
}

impl From<ReadError> for Error {
    ghost from_gives = { λ read error. error ≡ error_of read };

    fn from(error: ReadError) -> Error {
        match error {
            ReadError::Refused(fault, _) => Error::Invalid(fault),
            ReadError::OutOfMemory(refused) => Error::OutOfMemory(refused),
        }
    }
}
