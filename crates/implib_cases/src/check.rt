//! Cases about `implib_check`: calls of the program over files that a case is made of, with the
//! exit status and each line that is written.
//!
//! A case is made of files ([`files`] says how). `call WORDS` calls the program. `full WORDS` does
//! so where standard output has no room, and `starved WORDS` where it has no memory. `each WORDS |
//! WORDS | ..` makes a call with each of the further words.

mod files;

use crate::lines::{Case, Line, push_alike, push_calls, push_lines, short_answer};
use files::{Files, files_of};
use implib_check_driver::program::{run, status_of};
use std::alloc::Global;
use std::io;
use std::io::{ErrorKind, Write};
use std::test::Fail;

/// A writer that fails, each time for this reason.
#[derive(Drop)]
struct Failing(ErrorKind);

impl Write for Failing {
    fn write(&mut self, _bytes: &[u8]) -> io::Result<usize> {
        Err(io::Error::from(self.0))
    }

    fn flush(&mut self) -> io::Result<()> {
        Ok(())
    }
}

/// The name of a case and, for each call, what comes of it.
pub fn answered(alloc: Global, case: &Case) -> Result<String, Fail> {
    let mut text = format!(in alloc; "case {}\n", case.name)?;
    let files = files_of(alloc, case.lines.as_slice())?;
    for line in &case.lines {
        match line.word {
            "call" => answer_call(alloc, &mut text, &files, line.rest)?,
            "each" => answer_each(alloc, &mut text, &files, line)?,
            "full" => answer_failed(alloc, &mut text, &files, line.rest, ErrorKind::StorageFull)?,
            "starved" => {
                answer_failed(alloc, &mut text, &files, line.rest, ErrorKind::OutOfMemory)?;
            }
            _ => {}
        }
    }
    Ok(text)
}

/// The words of a call.
fn words_of(alloc: Global, call: &str) -> Result<Vec<String>, Fail> {
    let mut words = Vec::new(alloc);
    for word in call.split_whitespace() {
        words.push(String::from_str(alloc, word)?)?;
    }
    Ok(words)
}

/// A call, its status, and the lines of standard output and of standard error.
fn answer_call(alloc: Global, text: &mut String, files: &Files, call: &str) -> Result<(), Fail> {
    let words = words_of(alloc, call)?;
    let mut printed = Vec::new(alloc);
    let mut said = Vec::new(alloc);
    let done = run(alloc, files, &words, &mut printed, &mut said);
    let status = status_of(&mut said, done);
    write!(text, "call {call}\n  status {status}\n")?;
    push_lines(text, "out", printed.as_slice())?;
    push_lines(text, "error", said.as_slice())?;
    Ok(())
}

/// The same where standard output fails.
fn answer_failed(
    alloc: Global,
    text: &mut String,
    files: &Files,
    call: &str,
    why: ErrorKind,
) -> Result<(), Fail> {
    let words = words_of(alloc, call)?;
    let mut said = Vec::new(alloc);
    let done = run(alloc, files, &words, &mut Failing(why), &mut said);
    let status = status_of(&mut said, done);
    write!(text, "failing {call}\n  status {status}\n")?;
    push_lines(text, "error", said.as_slice())?;
    Ok(())
}

/// Calls that differ in their last words, and their answers.
fn answer_each(alloc: Global, text: &mut String, files: &Files, line: &Line) -> Result<(), Fail> {
    let (words, parts) = push_calls(text, line)?;
    for part in parts.split('|') {
        let call = format!(in alloc; "{words} {part}")?;
        let all = words_of(alloc, call.as_str())?;
        let mut printed = Vec::new(alloc);
        let mut said = Vec::new(alloc);
        let done = run(alloc, files, &all, &mut printed, &mut said);
        let status = status_of(&mut said, done);
        let answer = short_answer(alloc, status, printed.as_slice(), said.as_slice())?;
        push_alike(alloc, text, part.trim(), answer.as_str())?;
    }
    Ok(())
}

/// The imports in the bytes of a library: of each its DLL, kind, machine, name and symbol.
pub fn imports_in(alloc: Global, bytes: Vec<u8>) -> Result<String, Fail> {
    let mut all = Vec::new(alloc);
    all.push((String::from_str(alloc, "made")?, bytes))?;
    let words = words_of(alloc, "--json --list made")?;
    let mut printed = Vec::new(alloc);
    let mut said = Vec::new(alloc);
    let files = Files { all };
    let done = run(alloc, &files, &words, &mut printed, &mut said);
    status_of(&mut said, done);
    let mut text = String::new(alloc);
    for line in str::from_utf8(printed.as_slice()).unwrap_or("?").lines() {
        text.push(';')?;
        for field in line.split(',') {
            let (key, value) = field.split_once(':').unwrap_or((field, ""));
            match key.trim_start_matches('{').trim_matches('"') {
                "dll" | "kind" | "machine" | "name" | "ordinal" | "symbol" => {
                    write!(text, " {}", value.trim_matches('"'))?;
                }
                _ => {}
            }
        }
    }
    Ok(text)
}
