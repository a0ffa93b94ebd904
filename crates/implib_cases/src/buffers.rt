//! Cases about what the library for C does (`implib_c_calls`): calls with buffers of several
//! lengths, and what they put into them.
//!
//! A case is answered line by line: a line sets an argument of the calls ([`given`]), makes a call
//! ([`calls`]), or asks for what one put ([`shown`], [`beside`]).

mod beside;
mod calls;
mod given;
mod shown;

use crate::lines::{Case, Line, push_question};
use beside::answer_beside;
use calls::answer_call;
use given::Given;
use shown::answer_shown;
use std::alloc::Global;
use std::test::Fail;

/// The name of a case and, for each line that asks, the answer.
pub fn answered(alloc: Global, case: &Case) -> Result<String, Fail> {
    let mut text = format!(in alloc; "case {}\n", case.name)?;
    let mut given = Given::new(alloc);
    for line in case.lines.iter() {
        if !given.is_set_by(line)? {
            push_question(&mut text, line)?;
            answer(&mut text, &mut given, line)?;
        }
    }
    Ok(text)
}

/// The answer to a line.
fn answer(text: &mut String, given: &mut Given, line: &Line) -> Result<(), Fail> {
    match line.word {
        "call" | "once" => answer_call(text, given, line),
        "members" | "archive" | "written" => answer_beside(text, given, line),
        _ => answer_shown(text, given, line),
    }
}
