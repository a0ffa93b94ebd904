//! Where a text is wrong.

ghost use Rattle.implib_tests.specs.Using.Callers.{IsErrorIn};
ghost use Rattle.std.specs.Prelude.{IfOk};

use implib::def::{ModuleDef, Position};
use implib::{MachineType, ParseError};
use std::alloc::{AllocError, Global};

/// The position of the error in a text, or None where it has none: where an editor would mark it.
pub fn error_in(
    alloc: Global,
    text: &str,
    machine: MachineType,
) -> Result<Option<Position>, AllocError>
    ensures { IfOk result (IsErrorIn text.now machine) }
{
    match ModuleDef::parse_with_position(alloc, text, machine) {
        Ok(_) => Ok(None),
        Err(ParseError::Invalid(_, position)) => Ok(Some(position)),
        Err(ParseError::OutOfMemory(refused)) => Err(refused),
    }
}
