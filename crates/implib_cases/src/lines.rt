//! Cases as a person writes them, one directive a line.
//!
//! A line has a word and, after one space, its argument. `case NAME` begins a case. The lines
//! before the first case of a file belong to each of its cases. Lines that are empty or begin with
//! `#` and a space are comments. The words beside `case` are those of a folder's module; three
//! kinds of argument are read here: texts, numbers and bytes.
//!
//! Of lines that make bytes `line TEXT` makes a line, `part TEXT` a text, `bytes BYTES` bytes,
//! `repeated COUNT TEXT` a text this many times, and `numbered FRONT COUNT` a line for each number
//! below one, as `padded FRONT COUNT` does with six digits. In a text `\` and two hexadecimal
//! digits stand for a character.
//!
//! Lines of several calls have words and, each after a `|`, parts in which the calls differ. Calls
//! with one answer share a line: the parts, the status, the first line that is printed, and what is
//! said, in which `*` is the part.

use std::alloc::{AllocError, Global};
use std::test::Fail;

/// A line of a case.
#[derive(Clone, Copy)]
pub struct Line<'a> {
    /// Its first word.
    pub word: &'a str,
    /// The argument: all that follows the space after the word.
    pub rest: &'a str,
}

/// A case, with the lines that it is made of.
#[derive(Drop)]
pub struct Case<'a> {
    pub name: &'a str,
    pub lines: Vec<Line<'a>>,
}

/// The line in a text without a line break. Space before the word is left out.
fn line_in(text: &str) -> Line<'_> {
    let text = text.trim_start();
    let (word, rest) = text.split_once(' ').unwrap_or((text, ""));
    Line { word, rest }
}

/// The cases of a file.
pub fn cases_in(alloc: Global, file: &str) -> Result<Vec<Case<'_>>, AllocError> {
    let mut shared = Vec::new(alloc);
    let mut cases: Vec<Case> = Vec::new(alloc);
    for text in file.lines() {
        let line = line_in(text);
        match line.word {
            "" | "#" => {}
            "case" => cases.push(Case {
                name: line.rest,
                lines: Vec::from_slice(alloc, shared.as_slice())?,
            })?,
            _ => match cases.last_mut() {
                Some(case) => case.lines.push(line)?,
                None => shared.push(line)?,
            },
        }
    }
    Ok(cases)
}

impl<'a> Case<'a> {
    /// The argument of the last line of a word.
    pub fn argument(&self, word: &str) -> Result<&'a str, Fail> {
        match self.lines.iter().rev().find(|line| line.word == word) {
            Some(line) => Ok(line.rest),
            None => Err(Fail::new(format_args!("a case has no {word}"))),
        }
    }
}

/// The text of the lines whose word is `text`, with a line break between each two, if there are
/// any.
pub fn text_of(alloc: Global, lines: &[Line]) -> Result<Option<String>, Fail> {
    let mut all = None;
    for line in lines {
        if line.word == "text" {
            all = Some(continued(alloc, all, line.rest)?);
        }
    }
    Ok(all)
}

/// A text with a further line after it.
fn continued(alloc: Global, text: Option<String>, line: &str) -> Result<String, Fail> {
    let line = unescaped(alloc, line)?;
    match text {
        Some(mut text) => {
            text.push('\n')?;
            text.push_str(line.as_str())?;
            Ok(text)
        }
        None => Ok(line),
    }
}

/// A text in which `\` and two hexadecimal digits stand for a character.
pub fn unescaped(alloc: Global, text: &str) -> Result<String, Fail> {
    let mut parts = text.split('\\');
    let mut all = String::from_str(alloc, parts.next().unwrap_or(""))?;
    for part in parts {
        push_part(&mut all, part)?;
    }
    Ok(all)
}

/// Appends the character of two digits, and what follows them.
fn push_part(all: &mut String, part: &str) -> Result<(), Fail> {
    let (digits, rest) = part.split_at_checked(2).ok_or("an escape is short")?;
    all.push(char::from(u8::from_str_radix(digits, 16)?))?;
    Ok(all.push_str(rest)?)
}

/// Appends a text, with `\` and two hexadecimal digits for each control character.
pub fn push_escaped(all: &mut String, text: &str) -> Result<(), AllocError> {
    for character in text.chars() {
        if character.is_control() {
            write!(all, "\\{:02x}", u32::from(character))?;
        } else {
            all.push(character)?;
        }
    }
    Ok(())
}

/// The number in a word: decimal, or hexadecimal after `0x`.
pub fn number_in(word: &str) -> Result<u64, Fail> {
    match word.strip_prefix("0x") {
        Some(digits) => Ok(u64::from_str_radix(digits, 16)?),
        None => Ok(word.parse()?),
    }
}

/// The numbers in the words of a text.
pub fn numbers_in(alloc: Global, text: &str) -> Result<Vec<u64>, Fail> {
    let mut numbers = Vec::new(alloc);
    for word in text.split_whitespace() {
        numbers.push(number_in(word)?)?;
    }
    Ok(numbers)
}

/// The bytes in the words of a text: two hexadecimal digits each, or characters between `'`.
pub fn bytes_in(alloc: Global, text: &str) -> Result<Vec<u8>, Fail> {
    let mut bytes = Vec::new(alloc);
    for word in text.split_whitespace() {
        match word.strip_prefix('\'') {
            Some(quoted) => bytes.extend_from_slice(quoted.trim_end_matches('\'').as_bytes())?,
            None => bytes.extend_from_slice(hex::decode(alloc, word)?.as_slice())?,
        }
    }
    Ok(bytes)
}

/// Appends bytes, two hexadecimal digits each after a space.
pub fn push_bytes(all: &mut String, bytes: &[u8]) -> Result<(), AllocError> {
    for byte in bytes {
        write!(all, " {byte:02x}")?;
    }
    Ok(())
}

/// A word, and the rest after the space that ends it.
pub fn word_of(text: &str) -> (&str, &str) {
    text.split_once(' ').unwrap_or((text, ""))
}

/// A number, or the largest one for `any`.
pub fn count_in(word: &str) -> Result<usize, Fail> {
    if word == "any" {
        return Ok(usize::MAX);
    }
    Ok(usize::try_from(number_in(word)?)?)
}

/// Appends a line that asks.
pub fn push_question(text: &mut String, line: &Line) -> Result<(), AllocError> {
    text.push_str(line.word)?;
    if !line.rest.is_empty() {
        write!(text, " {}", line.rest)?;
    }
    text.push('\n')
}

/// The bytes that a line makes.
pub fn bytes_made(alloc: Global, line: &Line) -> Result<Vec<u8>, Fail> {
    match line.word {
        "bytes" => bytes_in(alloc, line.rest),
        "part" => Ok(unescaped(alloc, line.rest)?.into_bytes()),
        "repeated" => {
            let (count, text) = word_of(line.rest);
            let text = unescaped(alloc, text)?;
            let all = text.as_str().repeat(alloc, count_in(count)?)?;
            Ok(all.into_bytes())
        }
        "numbered" | "padded" => numbered(alloc, line),
        _ => {
            let mut text = unescaped(alloc, line.rest)?;
            text.push('\n')?;
            Ok(text.into_bytes())
        }
    }
}

/// A line for each number below one.
fn numbered(alloc: Global, line: &Line) -> Result<Vec<u8>, Fail> {
    let (front, count) = word_of(line.rest);
    let mut all = String::new(alloc);
    for number in 0..number_in(count)? {
        all.push_str(front)?;
        if line.word == "padded" {
            write!(all, "{number:06}\n")?;
        } else {
            write!(all, "{number}\n")?;
        }
    }
    Ok(all.into_bytes())
}

/// Appends lines of an output, each after a word.
pub fn push_lines(text: &mut String, word: &str, written: &[u8]) -> Result<(), AllocError> {
    for line in str::from_utf8(written).unwrap_or("?").lines() {
        write!(text, "  {word} ")?;
        push_escaped(text, line)?;
        text.push('\n')?;
    }
    Ok(())
}

/// A status, the first line that is printed, and all that is said.
pub fn short_answer<'x>(
    alloc: Global,
    status: u8,
    printed: &'x [u8],
    said: &'x [u8],
) -> Result<String, AllocError> {
    let mut answer = format!(in alloc; "{status}")?;
    let printed = str::from_utf8(printed).unwrap_or("?").lines().next();
    let said = str::from_utf8(said).unwrap_or("?").trim_end();
    for output in [printed.unwrap_or(""), said] {
        if !output.is_empty() {
            answer.push(' ')?;
            push_escaped(&mut answer, output)?;
        }
    }
    Ok(answer)
}

/// Appends a call and its answer as a line, or the call alone to the line before, if that ends in
/// the same answer.
pub fn push_alike(
    alloc: Global,
    text: &mut String,
    call: &str,
    answer: &str,
) -> Result<(), AllocError> {
    let end = format!(in alloc; ": {answer}\n")?;
    let joined = match text.as_str().strip_suffix(end.as_str()) {
        Some(front) => format!(in alloc; "{front} | {call}{end}")?,
        None => format!(in alloc; "{text}  {call}{end}")?,
    };
    *text = joined;
    Ok(())
}

/// Appends the words that calls of a line begin with. Gives them, and what follows the `|` after
/// them.
pub fn push_calls<'a>(text: &mut String, line: &Line<'a>) -> Result<(&'a str, &'a str), Fail> {
    let (words, parts) = line.rest.split_once('|').ok_or("a line has no |")?;
    let rest = words.trim_end();
    let word = line.word;
    push_question(text, &Line { word, rest })?;
    Ok((rest, parts))
}
