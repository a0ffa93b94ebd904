//! How words, paths and places are shown in a line.

use implib::def::Position;
use std::fmt;

// How many characters of a word are shown.
const LONGEST: usize = 200;

// Writes the beginning of a text, of at most so many characters, with control characters escaped.
fn write_shown<W: fmt::Write>(f: &mut fmt::Formatter<W>, text: &str, most: usize) -> fmt::Result {
    let mut left = most;
    for c in text.chars() {
        if left == 0 {
            return f.write_str("..");
        }
        left -= 1;
        if c.is_control() {
            write!(f, "{}", c.escape_default())?;
        } else {
            f.write_char(c)?;
        }
    }
    Ok(())
}

/// A word as it is shown in a line: control characters are escaped, and what follows its first 200
/// characters is left out.
#[derive(Drop)]
pub struct Shown<'a>(pub &'a str);

impl<'a> fmt::Display for Shown<'a> {
    fn fmt<W: fmt::Write>(&self, f: &mut fmt::Formatter<W>) -> fmt::Result {
        write_shown(f, self.0, LONGEST)
    }
}

/// A path as it is shown in a line: control characters are escaped.
#[derive(Drop)]
pub struct ShownPath<'a>(pub &'a str);

impl<'a> fmt::Display for ShownPath<'a> {
    fn fmt<W: fmt::Write>(&self, f: &mut fmt::Formatter<W>) -> fmt::Result {
        write_shown(f, self.0, usize::MAX)
    }
}

/// Where in a file something is, as it stands before a message: `path:line:column:`, and `path:`
/// alone where it is of the whole file.
#[derive(Drop)]
pub struct ShownPlace<'a>(pub &'a str, pub Option<Position>);

impl<'a> fmt::Display for ShownPlace<'a> {
    fn fmt<W: fmt::Write>(&self, f: &mut fmt::Formatter<W>) -> fmt::Result {
        write!(f, "{}:", ShownPath(self.0))?;
        match self.1 {
            Some(Position { line, column, .. }) => write!(f, "{line}:{column}:"),
            None => Ok(()),
        }
    }
}
