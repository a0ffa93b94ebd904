//! What is answered to a case: line by line.

use super::files::{Files, answer_expand, files_of};
use super::linking::{State, answer_linked, bases_in, link};
use crate::lines::{Case, Line};
use std::alloc::Global;
use std::test::Fail;

/// The name of a case and, for each line that asks, the answer.
pub fn answered(alloc: Global, case: &Case) -> Result<String, Fail> {
    let mut text = format!(in alloc; "case {}\n", case.name)?;
    let lines = case.lines.as_slice();
    let files = files_of(alloc, case.argument("machine")?.parse()?, lines)?;
    let mut state = State::new();
    for line in lines {
        if !is_of_case(line.word) {
            answer(alloc, &mut text, &files, &mut state, line)?;
        }
    }
    Ok(text)
}

/// Whether a line of this word says what a case is made of.
fn is_of_case(word: &str) -> bool {
    match word {
        "machine" | "library" | "text" | "numbered" => true,
        _ => false,
    }
}

/// The answer to a line about files, or about what is linked.
fn answer<'a>(
    alloc: Global,
    text: &mut String,
    files: &'a Files,
    state: &mut State<'a>,
    line: &Line,
) -> Result<(), Fail> {
    match line.word {
        "bases" => {
            state.bases = bases_in(alloc, line.rest)?;
            Ok(())
        }
        "expand" => answer_expand(alloc, text, files, line.rest),
        "link" => link(alloc, text, files, state, line.rest, true),
        "bare" => link(alloc, text, files, state, line.rest, false),
        _ => answer_linked(alloc, text, state, line),
    }
}
