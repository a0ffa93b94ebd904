//! Positions in a text: offsets, lines and columns.

ghost use Rattle.implib.specs.Text.Position.{position_at};
ghost use Rattle.std.specs.Prelude.{◌≡◌, ◌≤◌};

use std::fmt;

/// A position in a text. It is displayed as `line:column`.
#[derive(Clone, Copy, Debug, PartialEq, Eq, Drop)]
pub struct Position {
    /// The offset in bytes, from 0.
    pub offset: usize,
    /// The line, from 1. A line ends after its line feed, so `\r\n` ends one line.
    pub line: usize,
    /// The column, from 1: one more than the bytes of the line that come before.
    pub column: usize,
}

// The beginning of a text.
const BEGINNING: Position = Position {
    offset: 0,
    line: 1,
    column: 1,
};

impl Position {
    /// The position of the byte at `offset` in the text, in one pass over the bytes before it.
    ///
    /// The end of the text has a position too. A greater offset has the line and column of the end.
    pub fn at(text: &str, offset: usize) -> Position
        ensures { result ≡ position_at text.now offset }
    {
        Position::in_bytes(text.as_bytes(), offset)
    }

    /// The same in bytes that may be no text.
    pub fn in_bytes(bytes: &[u8], offset: usize) -> Position
        ensures { result ≡ position_at bytes.now offset }
    {
        BEGINNING.advanced(bytes, offset)
    }

    /// The position of a later offset in the bytes in which this is a position, in one pass over
    /// those between them.
    pub fn advanced(self, bytes: &[u8], offset: usize) -> Position
        requires at { self ≡ position_at bytes.now self.offset }
        requires order { self.offset ≤ offset }
        ensures { result ≡ position_at bytes.now offset }
    {
        let front = &bytes[..offset.min(bytes.len())];
        let rest = &front[self.offset.min(front.len())..];
        let mut line = self.line;
        let mut column = self.column;
        for byte in rest {
            if *byte == b'\n' {
                line += 1;
                column = 1;
            } else {
                column += 1;
            }
        }
        Position {
            offset,
            line,
            column,
        }
    }
}

impl fmt::Display for Position {
    fn fmt<W: fmt::Write>(&self, f: &mut fmt::Formatter<W>) -> fmt::Result {
        write!(f, "{}:{}", self.line, self.column)
    }
}
