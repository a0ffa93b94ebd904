//! Calls of the program: `call WORDS`. A word has `\` and two hexadecimal digits for a character,
//! as for a space; `''` is an empty word. `each WORDS | WORDS | ..` makes a call with each of the
//! further words, and `named WORDS | NAME | ..` calls the program by each name; the answers tell
//! the imports of the library that is made, too, and it is removed.

use super::room::Room;
use crate::check::imports_in;
use crate::lines::{
    Line, push_alike, push_calls, push_escaped, push_lines, short_answer, unescaped,
};
use implib_driver::devices::console::Console;
use implib_driver::devices::files::SystemDisk;
use implib_driver::program::run;
use implib_rules::name::last_part;
use std::alloc::{AllocError, Global};
use std::io::Write;
use std::test::Fail;
use std::{fs, io};

/// A writer that keeps what each call of it gave.
#[derive(Drop)]
pub struct Writes {
    alloc: Global,
    all: Vec<Vec<u8>>,
}

impl Write for Writes {
    fn write(&mut self, bytes: &[u8]) -> io::Result<usize> {
        self.all.push(Vec::from_slice(self.alloc, bytes)?)?;
        Ok(bytes.len())
    }

    fn flush(&mut self) -> io::Result<()> {
        Ok(())
    }
}

/// A console whose calls of its writer are kept.
pub fn kept_console(alloc: Global) -> Console<Writes> {
    Console::new(
        alloc,
        Writes {
            alloc,
            all: Vec::new(alloc),
        },
    )
}

/// Calls the program with these arguments: the status, what is printed, and what is written on
/// standard error.
fn called(room: &Room, arguments: &[String]) -> (u8, Vec<u8>, Console<Writes>) {
    let alloc = room.rt.alloc();
    let mut disk = SystemDisk::new(room.rt, room.process);
    let mut input = room.input.as_slice();
    let mut printed = Vec::new(alloc);
    let mut console = kept_console(alloc);
    let status = run(
        alloc,
        arguments,
        &mut disk,
        &mut input,
        &mut printed,
        &mut console,
    );
    (status, printed, console)
}

/// A call, its status, the lines of standard output, and what was written on standard error.
pub fn answer_call(text: &mut String, room: &Room, words: &str) -> Result<(), Fail> {
    let arguments = arguments_in(room.rt.alloc(), room.program.as_str(), words)?;
    let (status, printed, console) = called(room, arguments.as_slice());
    text.push_str("call")?;
    if !words.is_empty() {
        write!(text, " {words}")?;
    }
    write!(text, "\n  status {status}\n")?;
    push_lines(text, "out", printed.as_slice())?;
    Ok(push_writes(text, console)?)
}

/// Calls that differ in their last words, or in what the program is called by, and their answers.
pub fn answer_each(text: &mut String, room: &Room, line: &Line) -> Result<(), Fail> {
    let alloc = room.rt.alloc();
    let (words, parts) = push_calls(text, line)?;
    for part in parts.split('|') {
        let part = part.trim();
        let whole = unescaped(alloc, part)?;
        let answer = if line.word == "named" {
            let arguments = arguments_in(alloc, whole.as_str(), words)?;
            answer_of(room, arguments.as_slice(), last_part(whole.as_str()))?
        } else {
            let words = format!(in alloc; "{words} {part}")?;
            let arguments = arguments_in(alloc, room.program.as_str(), words.as_str())?;
            answer_of(room, arguments.as_slice(), whole.as_str())?
        };
        push_alike(alloc, text, part, answer.as_str())?;
    }
    Ok(())
}

/// The answer to a call in one line, with `*` for a part of it.
fn answer_of(room: &Room, arguments: &[String], part: &str) -> Result<String, Fail> {
    let alloc = room.rt.alloc();
    let (status, printed, console) = called(room, arguments);
    let mut said = Vec::new(alloc);
    let writes = console.into_writer();
    for bytes in writes.all.iter() {
        said.extend_from_slice(bytes.as_slice())?;
    }
    let answer = short_answer(alloc, status, printed.as_slice(), said.as_slice())?;
    let part = format!(in alloc; " {part}: ")?;
    let mut answer = answer.as_str().replace(alloc, part.as_str(), " *: ")?;
    if let Some(path) = output_of(arguments)
        && let Ok(bytes) = fs::read(room.rt, path)
    {
        answer.push_str(imports_in(alloc, bytes)?.as_str())?;
        fs::remove_file(room.rt, path)?;
    }
    Ok(answer)
}

/// The file of the library that arguments ask for.
fn output_of(arguments: &[String]) -> Option<&str> {
    let mut found = None;
    let mut before = "";
    for word in arguments {
        let word = word.as_str();
        if before == "-l" || before == "-y" {
            found = Some(word);
        } else if let Some(path) = word.strip_prefix("/out:") {
            found = Some(path);
        }
        before = word;
    }
    found
}

/// The arguments of a call: what the program is called by, and the words.
fn arguments_in(alloc: Global, program: &str, words: &str) -> Result<Vec<String>, Fail> {
    let mut arguments = Vec::new(alloc);
    arguments.push(String::from_str(alloc, program)?)?;
    for word in words.split_whitespace() {
        let word = if word == "''" { "" } else { word };
        arguments.push(unescaped(alloc, word)?)?;
    }
    Ok(arguments)
}

/// Appends what a console wrote, each call of its writer as a line.
pub fn push_writes(text: &mut String, console: Console<Writes>) -> Result<(), AllocError> {
    let writes = console.into_writer();
    for bytes in writes.all.iter() {
        push_write(text, str::from_utf8(bytes.as_slice()).unwrap_or("?"))?;
    }
    Ok(())
}

/// Appends what was written by one call. One that ends no line is told apart.
fn push_write(text: &mut String, written: &str) -> Result<(), AllocError> {
    match written.strip_suffix('\n') {
        Some(line) => {
            text.push_str("  error ")?;
            push_escaped(text, line)?;
        }
        None => {
            text.push_str("  error in part ")?;
            push_escaped(text, written)?;
        }
    }
    text.push('\n')
}
