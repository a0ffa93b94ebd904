//! What `--help` prints of the options, and how messages name them.

ghost use Rattle.implib_options.specs.Table.{help_in, help_lines};
ghost use Rattle.std.specs.Prelude.{◌≡◌, ◌++◌, OnOk, map};
ghost use Rattle.std.specs.String.{string_bytes};

use crate::table::{Meaning, Row, Words, rows};
use std::alloc::AllocError;
use std::fmt;

// Appends the lines of rows.
fn push_rows(text: &mut String, rows: &[Row], of: Words) -> Result<(), AllocError>
    ensures { OnOk result (string_bytes text.new ≡ string_bytes text.old
        ++ help_in (map (λ row. (row.0, row.5.now)) rows.now) of) }
{
    for row in rows {
        if row.0 == of && !row.5.is_empty() {
            text.push_str(row.5)?;
            text.push_str("\n")?;
        }
    }
    Ok(())
}

/// Appends the lines of `--help` of the options in these words, in the order of the table.
///
/// # Errors
///
/// An allocation failed.
#[tactic(auto, unfolding(crate::specs::Table::help_lines))]
pub fn push_help(text: &mut String, of: Words) -> Result<(), AllocError>
    ensures { OnOk result
        (string_bytes text.new ≡ string_bytes text.old ++ help_lines of) }
{
    push_rows(text, rows(), of)
}

// The letter and the name of the first row in these words with this meaning.
fn first_of(rows: &[Row], of: Words, meaning: Meaning) -> Option<(Option<u8>, &'static str)> {
    for row in rows {
        if row.0 == of && row.4 == meaning {
            return Some((row.2, row.1));
        }
    }
    None
}

/// The name of an option in messages: that of the first row in these words with this meaning, by
/// its letter where it has one.
#[derive(Clone, Copy, Drop)]
pub struct OptionName(pub Words, pub Meaning);

impl fmt::Display for OptionName {
    fn fmt<W: fmt::Write>(&self, f: &mut fmt::Formatter<W>) -> fmt::Result {
        match first_of(rows(), self.0, self.1) {
            Some((Some(letter), _)) => write!(f, "-{}", letter as char),
            Some((None, name)) => write!(f, "--{name}"),
            None => Ok(()),
        }
    }
}
