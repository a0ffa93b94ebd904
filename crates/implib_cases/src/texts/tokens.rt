//! Tokens, and the ends of words.

use crate::lines::{Line, bytes_in, number_in, push_escaped};
use implib::def::lexer::{Lexer, TokenKind, word_end};
use std::alloc::{AllocError, Global};
use std::test::Fail;

/// Appends the tokens of a text: their offsets, their kinds and their values. After them there is
/// no further one, however often one asks.
pub fn show_tokens(text: &mut String, source: &str) -> Result<(), AllocError> {
    let mut lexer = Lexer::new(source);
    for _ in 0..source.len().saturating_add(1) {
        let Some(token) = lexer.next() else {
            break;
        };
        write!(text, "  {} {} ", token.at, token.kind)?;
        push_escaped(text, token.value)?;
        text.push('\n')?;
    }
    let is_ended = lexer.next().is_none() && lexer.next().is_none();
    text.push_str(if is_ended { "  none\n" } else { "  more\n" })
}

/// Appends where a word of bytes ends, or the token kind by default.
pub fn show_word(alloc: Global, text: &mut String, line: &Line) -> Result<(), Fail> {
    if line.word == "fresh" {
        return Ok(writeln!(text, "  {}", TokenKind::default())?);
    }
    let (offset, bytes) = line.rest.split_once(' ').ok_or("an offset has no bytes")?;
    let bytes = bytes_in(alloc, bytes)?;
    let offset = usize::try_from(number_in(offset)?)?;
    if offset > bytes.len() {
        return Err(Fail::new("an offset is behind the bytes"));
    }
    Ok(writeln!(text, "  {}", word_end(bytes.as_slice(), offset))?)
}
