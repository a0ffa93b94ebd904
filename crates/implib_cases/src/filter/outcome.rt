//! What came of a run, and the answers to many runs.

use crate::lines::push_escaped;
use std::alloc::{AllocError, Global};

/// What a run did.
#[derive(Drop)]
pub struct Outcome {
    pub status: u8,
    pub written: Vec<u8>,
    pub faults: Vec<u8>,
    /// How many calls of devices came after one that failed.
    pub late_calls: usize,
}

/// Appends the status of a run, whether nothing is written, the line of the fault, and whether a
/// device that had failed is called again.
pub fn push_outcome(alloc: Global, text: &mut String, outcome: &Outcome) -> Result<(), AllocError> {
    write!(text, "status {}", outcome.status)?;
    if outcome.written.is_empty() {
        text.push_str(", nothing written")?;
    }
    push_faults(alloc, text, outcome.faults.as_slice())?;
    push_late(text, outcome.late_calls)
}

/// Appends the line of a fault, if there is one.
pub fn push_faults(alloc: Global, text: &mut String, faults: &[u8]) -> Result<(), AllocError> {
    if faults.is_empty() {
        return Ok(());
    }
    let faults = String::from_utf8_lossy(alloc, faults)?;
    text.push_str(": ")?;
    match faults.strip_suffix('\n') {
        Some(line) => push_escaped(text, line),
        None => {
            push_escaped(text, faults.as_str())?;
            text.push_str(" without a line end")
        }
    }
}

/// Appends whether a device that had failed is called again.
pub fn push_late(text: &mut String, late_calls: usize) -> Result<(), AllocError> {
    if late_calls > 0 {
        text.push_str(", and a device that had failed is called again")?;
    }
    Ok(())
}

/// The answers to runs whose devices fail after 0, 1, 2 and more calls; equal ones are one line.
#[derive(Drop)]
pub struct Answers {
    first: usize,
    answer: String,
}

impl Answers {
    /// No answer.
    pub fn new(alloc: Global) -> Answers {
        Answers {
            first: 0,
            answer: String::new(alloc),
        }
    }

    /// Adds the answer to a run whose device fails after `calls` calls.
    pub fn add(
        &mut self,
        text: &mut String,
        calls: usize,
        answer: String,
    ) -> Result<(), AllocError> {
        if self.answer != answer {
            self.end(text, calls)?;
            self.first = calls;
            self.answer = answer;
        }
        Ok(())
    }

    /// Appends the line of the last answers, which end before `calls` calls.
    pub fn end(&self, text: &mut String, calls: usize) -> Result<(), AllocError> {
        if self.answer.is_empty() {
            return Ok(());
        }
        let last = calls.saturating_sub(1);
        write!(text, "  {}", self.first)?;
        if last > self.first {
            write!(text, " to {last}")?;
        }
        write!(text, " calls: {}\n", self.answer)
    }
}
