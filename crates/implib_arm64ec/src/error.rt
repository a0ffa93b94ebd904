//! The error of marking names.

ghost use Rattle.implib_arm64ec.specs.declared.error.MarkError.TheVariants.{OutOfMemory};
ghost use Rattle.std.specs.Prelude.{◌≡◌};

use std::alloc::AllocError;

/// A name without a reading, or a failed allocation.
#[derive(Debug, Drop, thiserror::Error)]
pub enum MarkError {
    /// The name has no reading as one of C++; it fails at the byte of this offset, or at the end of
    /// the name.
    #[error("no name of C++ for ARM64EC, byte {0}")]
    Unreadable(usize),
    /// An allocation failed.
    #[error("out of memory")]
    OutOfMemory(AllocError),
}

impl From<AllocError> for MarkError {
    ghost from_gives = { λ refused error. error ≡ OutOfMemory refused };

    fn from(refused: AllocError) -> MarkError {
        MarkError::OutOfMemory(refused)
    }
}
