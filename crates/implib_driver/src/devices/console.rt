//! What the program says, as lines of text.

ghost use Rattle.std.specs.Prelude.{None};

use crate::message::{UnimportedMessage, position_of_unimported, undelayed_text};
use crate::reporter::{Complaint, Reporter};
use implib::def::Position;
use implib_rules::library::Refusal;
use implib_rules::warnings::{Notice, NoticeMessage, Warning};
use implib_rules::{ShownPath, ShownPlace, position_of};
use std::alloc::{AllocError, Global};
use std::fmt;
use std::fmt::Write as _;
use std::io::Write;

/// A line of what is said, of a path or of the program.
#[derive(Drop)]
pub enum Message<'a> {
    /// A warning of a definition, whose exports are in these lines.
    Warning(&'a str, &'a Warning<'a>, &'a [usize]),
    /// A definition is refused.
    Refusal(&'a str, &'a Refusal),
    Complaint(&'a str, &'a Complaint<'a>),
}

// Where a warning is; none where it is of the whole definition.
fn position_warned(warning: &Warning<'_>) -> Option<Position> {
    match warning.notice {
        Notice::NoExport | Notice::OtherKind => None,
        _ => Some(warning.position),
    }
}

impl<'a> fmt::Display for Message<'a> {
    fn fmt<W: fmt::Write>(&self, f: &mut fmt::Formatter<W>) -> fmt::Result {
        match self {
            Message::Warning(path, warning, lines) => write!(
                f,
                "{} warning: {}",
                ShownPlace(path, position_warned(warning)),
                NoticeMessage(warning.notice, lines),
            ),
            Message::Refusal(path, refusal) => {
                write!(f, "{} {refusal}", ShownPlace(path, position_of(refusal)))
            }
            Message::Complaint(path, Complaint::Undelayed(why)) => write!(
                f,
                "{} {}",
                ShownPlace(path, why.position()),
                undelayed_text(why),
            ),
            Message::Complaint(path, Complaint::Unimported(why)) => write!(
                f,
                "{} {}",
                ShownPlace(path, position_of_unimported(why)),
                UnimportedMessage(why),
            ),
            Message::Complaint(subject, complaint) => {
                write!(f, "{}: {complaint}", ShownPath(subject))
            }
        }
    }
}

// A writer that text is written to.
#[derive(Drop)]
struct Lines<E> {
    writer: E,
}

impl<E: Write> fmt::Write for Lines<E> {
    fn write_str(&mut self, text: &str) -> fmt::Result {
        self.writer
            .write_all(text.as_bytes())
            .map_err(|_| fmt::Error)
    }
}

/// Lines of text on a writer, as standard error, each by one call of its `write_all`; of several
/// calls where memory for the line is refused. A failure of the writer is ignored.
#[derive(Drop)]
pub struct Console<E> {
    alloc: Global,
    lines: Lines<E>,
}

impl<E: Write> Console<E> {
    /// Lines on this writer.
    pub fn new(alloc: Global, writer: E) -> Console<E> {
        Console {
            alloc,
            lines: Lines { writer },
        }
    }

    /// The writer.
    pub fn into_writer(self) -> E {
        self.lines.writer
    }

    // Says a line.
    fn say(&mut self, message: &Message<'_>) {
        let line = format!(in self.alloc; "{message}\n");
        self.put(line, message);
    }

    /// Writes the line of a message at once, or in pieces where memory for it was refused.
    pub fn put(&mut self, line: Result<String, AllocError>, message: &Message<'_>) {
        match line {
            Ok(line) => {
                let _ = self.lines.writer.write_all(line.as_bytes());
            }
            Err(_) => {
                let _ = writeln!(self.lines, "{message}");
            }
        }
    }
}

impl<E: Write> Reporter for Console<E> {
    // What the writer has is text, and not known as what was said.
    ghost said = { λ _. None };

    fn warn(&mut self, path: &str, warning: &Warning<'_>, lines: &[usize]) {
        self.say(&Message::Warning(path, warning, lines));
    }

    fn refuse(&mut self, path: &str, refusal: &Refusal) {
        self.say(&Message::Refusal(path, refusal));
    }

    fn complain(&mut self, subject: &str, complaint: Complaint<'_>) {
        self.say(&Message::Complaint(subject, &complaint));
    }
}
