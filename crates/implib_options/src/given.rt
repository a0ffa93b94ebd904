//! The options that are given, and questions on them.

ghost use Rattle.implib_options.specs.Given.{all, given_view, has, is_last, last, value_of};
ghost use Rattle.std.specs.Option.{option_map};
ghost use Rattle.std.specs.Prelude.{◌≡◌, IfOk, map};

use crate::table::Meaning;
use std::alloc::{AllocError, Global};

/// An option, or a file, as it is given.
#[derive(Clone, Copy, Debug, PartialEq, Eq)]
pub struct Given<'a> {
    pub meaning: Meaning,
    /// Its value; empty where it takes none.
    pub value: &'a str,
}

impl<'a> Given<'a> {
    // The value, if the option means this.
    fn value_of(&self, meaning: Meaning) -> Option<&'a str>
        ensures { option_map (λ text. text.now) result ≡ value_of meaning (given_view self.now) }
    {
        if self.meaning == meaning {
            return Some(self.value);
        }
        None
    }
}

/// The value that is given last for a meaning.
pub fn last<'a>(given: &[Given<'a>], meaning: Meaning) -> Option<&'a str>
    ensures { option_map (λ text. text.now) result ≡ last meaning (map given_view given.now) }
{
    let mut last = None;
    for option in given {
        if option.meaning == meaning {
            last = Some(option.value);
        }
    }
    last
}

/// The values that are given for a meaning, in order.
///
/// # Errors
///
/// An allocation failed.
pub fn all<'a>(
    alloc: Global,
    given: &[Given<'a>],
    meaning: Meaning,
) -> Result<Vec<&'a str>, AllocError>
    ensures { IfOk result (λ values. map (λ text. text.now) values.items
        ≡ all meaning (map given_view given.now)) }
{
    let mut values = Vec::new(alloc);
    for option in given {
        if let Some(value) = option.value_of(meaning) {
            values.push(value)?;
        }
    }
    Ok(values)
}

/// Whether an option of a meaning is given.
pub fn has(given: &[Given<'_>], meaning: Meaning) -> bool
    ensures { result ≡ has meaning (map given_view given.now) }
{
    for option in given {
        if option.value_of(meaning).is_some() {
            return true;
        }
    }
    false
}

/// Whether, of two meanings that undo each other, the one given first comes last.
pub fn is_last(given: &[Given<'_>], one: Meaning, other: Meaning) -> bool
    ensures { result ≡ is_last one other (map given_view given.now) }
{
    let mut is_on = false;
    for option in given {
        if option.meaning == one {
            is_on = true;
        } else if option.meaning == other {
            is_on = false;
        }
    }
    is_on
}
