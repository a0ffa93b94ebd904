//! Parts of the program by themselves.
//!
//! - `divided` tells the documents of the input, in brackets, with a bar between each two.
//! - `errors` tells what each error of a run says.

use super::trial::Trial;
use crate::lines::{Line, push_escaped};
use implib::{Error, Fault};
use implib_tool_driver::documents::divide;
use implib_tool_driver::run::RunError;
use std::alloc::{AllocError, Global};
use std::test::Fail;

/// The answer to a line about a part.
pub fn answer_part(text: &mut String, trial: &Trial, line: &Line) -> Result<(), Fail> {
    match line.word {
        "divided" => {
            let input = trial.input()?;
            let input = String::from_utf8_lossy(trial.alloc, input.as_slice())?;
            Ok(push_documents(text, input.as_str())?)
        }
        _ => Ok(push_errors(trial.alloc, text)?),
    }
}

/// Appends the documents of a text, at most ten.
fn push_documents(text: &mut String, input: &str) -> Result<(), AllocError> {
    text.push_str("  [")?;
    let mut left = input;
    for _ in 0..10 {
        let (document, after) = divide(left);
        push_escaped(text, document)?;
        let Some(rest) = after else {
            break;
        };
        text.push('|')?;
        left = rest;
    }
    text.push_str("]\n")
}

/// Appends what each error of a run says. One of the library says what it says there.
fn push_errors(alloc: Global, text: &mut String) -> Result<(), AllocError> {
    let fault = Fault::UnknownDirective(String::from_str(alloc, "foo")?);
    writeln!(text, "  {}", RunError::Refused(fault))?;
    let too_long = Error::Invalid(Fault::MemberTooLong);
    writeln!(text, "  {}", RunError::from(too_long))?;
    writeln!(text, "  {}", RunError::NotUtf8)?;
    writeln!(text, "  {}", RunError::Read)?;
    writeln!(text, "  {}", RunError::Write)?;
    writeln!(text, "  {}", RunError::OutOfMemory)?;
    let refused = Error::OutOfMemory(AllocError);
    writeln!(text, "  {}", RunError::from(refused))
}
