//! What is asked of what a call put, and of what C calls without a buffer for an answer.
//!
//! - `length` tells how many bytes the last call put, `put` these bytes, 16 to a line; `first
//!   COUNT` the first of them; and `numbers COUNT` the first numbers of 8 bytes, the low byte
//!   first.
//! - `holds TEXT` tells how often they have a text.
//! - `position OFFSET` asks for the line and column of an offset in the text.
//! - `status NUMBER` tells the text of a status, in a buffer of 32 bytes, and whether a buffer that
//!   is too short for it stays as it was. `version` tells the version.

use super::given::Given;
use crate::lines::{Line, count_in, number_in, push_bytes, push_escaped, unescaped};
use implib_c_calls::place::position_of;
use implib_c_calls::status::put_status_text;
use implib_c_calls::version::version;
use std::alloc::{AllocError, Global};
use std::test::Fail;

/// The answer to a line.
pub fn answer_shown(text: &mut String, given: &Given, line: &Line) -> Result<(), Fail> {
    let put = given.put.as_slice();
    match line.word {
        "length" => Ok(writeln!(text, "  {}", put.len())?),
        "put" => Ok(show_bytes(text, put)?),
        "first" => Ok(show_bytes(text, put.get(..count_in(line.rest)?).unwrap_or(put))?),
        "numbers" => Ok(show_numbers(text, put, count_in(line.rest)?)?),
        "holds" => {
            let part = unescaped(given.alloc, line.rest)?;
            Ok(writeln!(text, "  {}", count_of(put, part.as_bytes()))?)
        }
        "position" => {
            let offset = usize::try_from(number_in(line.rest)?)?;
            let place = position_of(given.text.as_slice(), offset);
            Ok(writeln!(text, "  {}:{}", place.line, place.column)?)
        }
        "status" => {
            let number = u32::try_from(number_in(line.rest)?)?;
            Ok(show_status(given.alloc, text, number)?)
        }
        "version" => Ok(writeln!(text, "  {}", version())?),
        word => Err(Fail::new(format_args!("{word} is no word of a case"))),
    }
}

/// Appends bytes, 16 to a line.
fn show_bytes(text: &mut String, bytes: &[u8]) -> Result<(), AllocError> {
    for line in bytes.chunks(16) {
        text.push(' ')?;
        push_bytes(text, line)?;
        text.push('\n')?;
    }
    Ok(())
}

/// Appends numbers of 8 bytes.
fn show_numbers(text: &mut String, bytes: &[u8], count: usize) -> Result<(), AllocError> {
    text.push(' ')?;
    for bytes in bytes.chunks_exact(8).take(count) {
        let mut number = 0u64;
        for byte in bytes.iter().rev() {
            number = number.wrapping_mul(256).wrapping_add(u64::from(*byte));
        }
        write!(text, " {number}")?;
    }
    text.push('\n')
}

/// How often bytes have a part.
fn count_of(bytes: &[u8], part: &[u8]) -> usize {
    if part.is_empty() {
        return 0;
    }
    bytes
        .windows(part.len())
        .filter(|found| *found == part)
        .count()
}

/// Appends the text of a status, and what follows it in a buffer.
fn show_status(alloc: Global, text: &mut String, number: u32) -> Result<(), AllocError> {
    let mut buffer = [0xA5; 32];
    let length = put_status_text(number, &mut buffer);
    let (words, rest) = buffer.split_at_checked(length).unwrap_or((&[], &buffer));
    let words = String::from_utf8_lossy(alloc, words)?;
    text.push_str("  ")?;
    push_escaped(text, words.as_str())?;
    let is_ended = match rest {
        [0, rest @ ..] => rest.iter().all(|byte| *byte == 0xA5),
        _ => false,
    };
    if !is_ended {
        text.push_str(", not ended by one NUL")?;
    }
    for short in [0, 1, length] {
        if !is_left(number, length, short) {
            write!(text, ", other in {short} bytes")?;
        }
    }
    text.push('\n')
}

/// Whether a buffer of this length stays as it was, and the length that is given is the text's.
fn is_left(number: u32, length: usize, short: usize) -> bool {
    let mut buffer = [0xA5; 32];
    let room = &mut buffer[..short.min(32)];
    put_status_text(number, room) == length && room.iter().all(|byte| *byte == 0xA5)
}
