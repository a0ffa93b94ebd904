//! Cases about the program `implib_tool`: calls of it and of its parts over devices in memory, with
//! the exit status, the line of the fault, and the listing.
//!
//! A case is answered line by line: a line sets an input, members or devices ([`trial`]), calls the
//! program ([`calls`], over streams of std [`streams`]), asks for a listing ([`listings`]) or tries
//! a part of the program by itself ([`parts`]).

mod calls;
mod devices;
mod listings;
mod outcome;
mod parts;
mod streams;
mod trial;

use crate::lines::{Case, Line, push_question};
use calls::answer_call;
use listings::answer_listing;
use parts::answer_part;
use std::alloc::Global;
use std::test::Fail;
use streams::answer_stream;
use trial::Trial;

/// The name of a case and, for each line that asks, the answer.
pub fn answered(alloc: Global, case: &Case) -> Result<String, Fail> {
    let mut text = format!(in alloc; "case {}\n", case.name)?;
    let mut trial = Trial::new(alloc);
    for line in case.lines.iter() {
        if !trial.is_set_by(line)? {
            push_question(&mut text, line)?;
            answer(&mut text, &mut trial, line)?;
        }
    }
    Ok(text)
}

/// The answer to a line.
fn answer(text: &mut String, trial: &mut Trial, line: &Line) -> Result<(), Fail> {
    match line.word {
        "list" | "each_list" | "whole" | "heads" | "end" | "sum" | "members" | "same" | "begins" =>
            { answer_listing(text, trial, line) }
        "streams" | "single" | "reader" | "writer" | "read" | "write" => {
            answer_stream(text, trial, line)
        }
        "divided" | "errors" => answer_part(text, trial, line),
        _ => answer_call(text, trial, line),
    }
}
