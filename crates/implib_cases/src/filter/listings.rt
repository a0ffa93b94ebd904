//! What is asked of listings.
//!
//! - `list` lists the members of the case, and `each_list STEP COUNT` lists them to writers that
//!   move at most STEP bytes in a call, and fail after no call, after one, and so on below COUNT:
//!   it tells whether what such a writer has is a beginning of what was kept.
//! - `whole` tells what was written last, `heads` its lines that name members and symbols, `end
//!   COUNT` its last lines, `sum` its length and a sum of its bytes, and `members` how many members
//!   it has.
//! - `same` tells whether it is what was kept, and `begins COUNT` whether it is a beginning of
//!   that, not the whole, with more than this many bytes.

use super::devices::{MemorySink, Pace};
use super::outcome::{Answers, push_late};
use super::trial::Trial;
use crate::lines::{Line, count_in, push_escaped, word_of};
use implib_tool_driver::device::Sink;
use implib_tool_driver::listing::list_members;
use implib_tool_driver::output::Buffer;
use std::alloc::AllocError;
use std::test::Fail;

/// The answer to a line that asks for a listing.
pub fn answer_listing(text: &mut String, trial: &mut Trial, line: &Line) -> Result<(), Fail> {
    match line.word {
        "list" => Ok(answer_list(text, trial)?),
        "each_list" => answer_each_list(text, trial, line.rest),
        "sum" => {
            let bytes = trial.written.as_slice();
            let (length, sum) = (bytes.len(), sum(bytes));
            Ok(writeln!(text, "  {length} bytes, sum {sum:#018x}")?)
        }
        "same" => {
            let is_same = trial.written == trial.kept;
            let answer = if is_same { "the same" } else { "another" };
            Ok(writeln!(text, "  {answer} listing")?)
        }
        "begins" => answer_begins(text, trial, line.rest),
        _ => {
            let listing = String::from_utf8_lossy(trial.alloc, trial.written.as_slice())?;
            answer_text(text, listing.as_str(), line)
        }
    }
}

/// The answer to a line that asks for lines of a listing.
fn answer_text(text: &mut String, listing: &str, line: &Line) -> Result<(), Fail> {
    match line.word {
        "whole" => Ok(push_lines(text, listing, 0)?),
        "heads" => Ok(push_heads(text, listing)?),
        "end" => {
            let count = listing.lines().count();
            let shown = count_in(line.rest)?;
            Ok(push_lines(text, listing, count.saturating_sub(shown))?)
        }
        _ => Ok(writeln!(text, "  {}", count_members(listing))?),
    }
}

/// A writer that has the listing of the members of a case.
fn listed(trial: &Trial, pace: Pace) -> Result<MemorySink, AllocError> {
    let mut buffer = Buffer::reserve(trial.alloc)?;
    let mut writer = MemorySink::new(trial.alloc, pace, trial.tears)?;
    list_members(&mut buffer, &mut writer, trial.members.as_slice());
    buffer.flush(&mut writer);
    Ok(writer)
}

/// What a writer is then: failed or not, and whether it was called again.
fn push_writer(text: &mut String, writer: &MemorySink) -> Result<(), AllocError> {
    text.push_str(if writer.has_failed() {
        "failed"
    } else {
        "written"
    })?;
    push_late(text, writer.late_calls())
}

/// Lists members.
fn answer_list(text: &mut String, trial: &mut Trial) -> Result<(), AllocError> {
    let writer = listed(trial, trial.writes)?;
    text.push_str("  ")?;
    push_writer(text, &writer)?;
    trial.written = writer.into_bytes();
    text.push('\n')
}

/// Lists members to writers that fail after 0, 1, 2 and more calls.
fn answer_each_list(text: &mut String, trial: &Trial, words: &str) -> Result<(), Fail> {
    let (step, count) = word_of(words);
    let (step, count) = (count_in(step)?, count_in(count)?);
    let mut answers = Answers::new(trial.alloc);
    for calls in 0..count {
        let writer = listed(trial, Pace { step, calls })?;
        let mut answer = String::new(trial.alloc);
        push_writer(&mut answer, &writer)?;
        let bytes = writer.into_bytes();
        push_beginning(&mut answer, trial, bytes.as_slice())?;
        answers.add(text, calls, answer)?;
    }
    Ok(answers.end(text, count)?)
}

/// Tells whether bytes are a beginning of what was kept.
fn push_beginning(text: &mut String, trial: &Trial, bytes: &[u8]) -> Result<(), AllocError> {
    text.push_str(if bytes.is_empty() {
        ", nothing"
    } else if trial.kept.as_slice().starts_with(bytes) {
        ", a beginning"
    } else {
        ", something else"
    })
}

/// Tells whether what was written last is a beginning of what was kept, and is long.
fn answer_begins(text: &mut String, trial: &Trial, count: &str) -> Result<(), Fail> {
    let bytes = trial.written.as_slice();
    let is_part = bytes.len() < trial.kept.len() && trial.kept.as_slice().starts_with(bytes);
    let answer = if !is_part {
        "no part"
    } else if bytes.len() > count_in(count)? {
        "a longer part"
    } else {
        "a shorter part"
    };
    Ok(writeln!(text, "  {answer}")?)
}

/// Appends the lines of a listing from a number on, and whether the last one has no end.
fn push_lines(text: &mut String, listing: &str, first: usize) -> Result<(), AllocError> {
    let ended = listing.strip_suffix('\n');
    for line in ended.unwrap_or(listing).split('\n').skip(first) {
        text.push_str("  ")?;
        push_escaped(text, line)?;
        text.push('\n')?;
    }
    if ended.is_none() {
        text.push_str("  without a line end\n")?;
    }
    Ok(())
}

/// Appends the lines of a listing that name members and symbols.
fn push_heads(text: &mut String, listing: &str) -> Result<(), AllocError> {
    for line in listing.lines() {
        if line.starts_with("member ") || line.starts_with("symbol ") {
            text.push_str("  ")?;
            push_escaped(text, line)?;
            text.push('\n')?;
        }
    }
    Ok(())
}

/// How many members a listing has.
fn count_members(listing: &str) -> usize {
    let mut count: usize = 0;
    for line in listing.lines() {
        if line.starts_with("member ") {
            count = count.saturating_add(1);
        }
    }
    count
}

/// The sum that Fowler, Noll and Vo made (FNV-1a), of 64 bits.
fn sum(bytes: &[u8]) -> u64 {
    let mut sum: u64 = 0xcbf2_9ce4_8422_2325;
    for byte in bytes {
        sum = (sum ^ u64::from(*byte)).wrapping_mul(0x0100_0000_01b3);
    }
    sum
}
