//! The errors of the crate's calls.

ghost use Rattle.implib.specs.declared.error.Error.TheVariants.{OutOfMemory};
ghost use Rattle.implib.specs.Fault.{cause_of, export_index};
ghost use Rattle.implib.specs.Text.RefusedAt.{without_position};
ghost use Rattle.std.specs.Prelude.{◌≡◌};

use crate::def::lexer::TokenKind;
use crate::def::position::Position;
use std::alloc::{AllocError, AllocFailed};

/// What is wrong with a text (docs/GRAMMAR.md, "Syntax errors") or with a definition.
///
/// A `usize` is the index of an export among all exports of the definition, private ones counted,
/// from 0.
#[derive(Debug, PartialEq, Eq, Drop, thiserror::Error)]
pub enum Fault {
    /// `parse`: a statement begins with this value, which is no directive.
    #[error("unknown directive: {0}")]
    UnknownDirective(String),
    /// `parse`: found this token where an identifier was expected.
    #[error("expected identifier, found: {0}")]
    ExpectedIdentifier(TokenKind),
    /// `parse`: found this token where `=` was expected.
    #[error("expected equal, found: {0}")]
    ExpectedEqual(TokenKind),
    /// `parse`: an identifier is not a number of the expected type.
    #[error("expected integer")]
    ExpectedInteger,
    /// `parse`: this value after the attribute `@` is no `u16` number.
    #[error("invalid ordinal: {0}")]
    InvalidOrdinal(String),
    /// `parse`: the target of an export, after `=`, is `@`.
    #[error("lone @ after =")]
    LoneAt,
    /// `members`: the import name is empty.
    #[error("import name is empty")]
    EmptyImportName,
    /// `members`: the import name holds a NUL.
    #[error("import name contains null byte")]
    NulInImportName,
    /// `members`: the library's name for the linker is empty.
    #[error("library name is empty")]
    EmptyLibraryName,
    /// `members`: the library's name for the linker holds a NUL.
    #[error("library name contains null byte")]
    NulInLibraryName,
    /// `members`: the library's name for the linker holds a line feed.
    #[error("library name contains line end")]
    LineEndInLibraryName,
    /// `members`: this export's name is empty.
    #[error("export name is empty")]
    EmptyName(usize),
    /// `members`: this export's name, symbol name, asked name or alias target holds a NUL.
    #[error("export name contains null byte")]
    NulInExport(usize),
    /// `members`: this export asks the DLL for an empty name.
    #[error("asked name is empty")]
    EmptyAskedName(usize),
    /// `members` for Microsoft's linker: no name type makes the asked name that this export gives
    /// of the symbol of its short import.
    #[error("no name type for the asked name")]
    NoNameType(usize),
    /// `members`, `write`: a file would have more than 2^32 - 1 bytes.
    #[error("member too long")]
    MemberTooLong,
}

impl Fault {
    /// The index of the export at fault among all exports of the definition, from 0.
    pub fn export_index(&self) -> Option<usize>
        ensures { result ≡ export_index (cause_of self.now) }
    {
        match self {
            Fault::EmptyName(index)
            | Fault::NulInExport(index)
            | Fault::EmptyAskedName(index)
            | Fault::NoNameType(index) => Some(*index),
            _ => None,
        }
    }
}

/// A fault of the input, or a failed allocation.
#[derive(Debug, Drop, thiserror::Error)]
pub enum Error {
    /// The text or the definition is refused.
    #[error("{0}")]
    Invalid(#[from] Fault),
    /// An allocation failed.
    #[error("out of memory")]
    OutOfMemory(AllocError),
}

impl From<AllocError> for Error {
    ghost from_gives = { λ refused error. error ≡ OutOfMemory refused };

    fn from(refused: AllocError) -> Error {
        Error::OutOfMemory(refused)
    }
}

impl<T: Drop> From<AllocFailed<T>> for Error {
    ghost use Rattle.std.specs.Prelude.{◌≡◌, alloc_error};

    ghost from_gives = { λ _ error. error ≡ OutOfMemory alloc_error };

    fn from(refused: AllocFailed<T>) -> Error {
        Error::OutOfMemory(AllocError::from(refused))
    }
}

/// A fault of a text with its position, or a failed allocation.
#[derive(Debug, Drop, thiserror::Error)]
pub enum ParseError {
    /// The text is refused for this fault. The position is that of the refused token's value.
    #[error("{1}: {0}")]
    Invalid(Fault, Position),
    /// An allocation failed.
    #[error("out of memory")]
    OutOfMemory(AllocError),
}

/// The error without its position, as `parse` gives it.
impl From<ParseError> for Error {
    ghost from_gives = { λ placed error. error ≡ without_position placed };

    fn from(placed: ParseError) -> Error {
        match placed {
            ParseError::Invalid(fault, _) => Error::Invalid(fault),
            ParseError::OutOfMemory(refused) => Error::OutOfMemory(refused),
        }
    }
}
