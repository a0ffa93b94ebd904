//! Cases about texts: their tokens, and what they mean or why they are refused. A case has a
//! machine. In the texts `\` and two hexadecimal digits stand for a character.
//!
//! - `means TEXT` asks for what is set in the definition, or for the fault.
//! - `placed TEXT` asks for the offset of the token that is refused, and for what is said of it.
//! - `tokens TEXT` asks for the tokens, with their offsets; `fresh` for a token kind by default.
//! - `word OFFSET BYTES` asks where the word at an offset of bytes ends.
//! - `place OFFSET TEXT` asks for the line and column of an offset.
//! - `named WORD` and `numbered NUMBER` ask for the machine and the flavour of a name, and the
//!   machine of a number.
//! - `faults` asks for what each fault says, and for the export that it tells.

mod faults;
mod meanings;
mod tokens;

use crate::lines::{Case, Line, number_in, push_question, unescaped};
use faults::show_faults;
use implib::def::Position;
use implib::{Flavor, MachineType};
use meanings::{show_meaning, show_refusal};
use std::alloc::{AllocError, Global};
use std::test::Fail;
use tokens::{show_tokens, show_word};

/// The name of a case and, for each line that asks, the answer.
pub fn answered(alloc: Global, case: &Case) -> Result<String, Fail> {
    let mut text = format!(in alloc; "case {}\n", case.name)?;
    let machine: MachineType = case.argument("machine")?.parse()?;
    for line in case.lines.iter() {
        if line.word != "machine" {
            answer(alloc, &mut text, machine, line)?;
        }
    }
    Ok(text)
}

/// A line that asks, and the answer to it.
fn answer(alloc: Global, text: &mut String, machine: MachineType, line: &Line) -> Result<(), Fail> {
    push_question(text, line)?;
    match line.word {
        "means" => {
            let source = unescaped(alloc, line.rest)?;
            show_meaning(alloc, text, machine, source.as_str())
        }
        "placed" => {
            let source = unescaped(alloc, line.rest)?;
            show_refusal(alloc, text, machine, source.as_str())
        }
        "tokens" => Ok(show_tokens(text, unescaped(alloc, line.rest)?.as_str())?),
        "fresh" | "word" => show_word(alloc, text, line),
        "place" => show_place(alloc, text, line.rest),
        "named" => Ok(show_named(text, unescaped(alloc, line.rest)?.as_str())?),
        "numbered" => show_numbered(text, line.rest),
        "faults" => Ok(show_faults(alloc, text)?),
        word => Err(Fail::new(format_args!("{word} is no word of a case"))),
    }
}

/// The line and column of an offset of a text.
fn show_place(alloc: Global, text: &mut String, words: &str) -> Result<(), Fail> {
    let (offset, source) = words.split_once(' ').ok_or("an offset has no text")?;
    let source = unescaped(alloc, source)?;
    let place = Position::at(source.as_str(), usize::try_from(number_in(offset)?)?);
    Ok(writeln!(text, "  {} {}:{}", place.offset, place.line, place.column)?)
}

/// The machine and the flavour of a name.
fn show_named(text: &mut String, name: &str) -> Result<(), AllocError> {
    match name.parse::<MachineType>() {
        Ok(machine) => writeln!(text, "  {machine} {:#x}", u16::from(machine))?,
        Err(unknown) => writeln!(text, "  {unknown}")?,
    }
    match name.parse::<Flavor>() {
        Ok(flavor) => writeln!(text, "  {flavor} {}", flavor.name()),
        Err(unknown) => writeln!(text, "  {unknown}"),
    }
}

/// The machine of a number.
fn show_numbered(text: &mut String, number: &str) -> Result<(), Fail> {
    match MachineType::try_from(u16::try_from(number_in(number)?)?) {
        Ok(machine) => Ok(writeln!(text, "  {machine}")?),
        Err(unknown) => Ok(writeln!(text, "  {unknown}")?),
    }
}
