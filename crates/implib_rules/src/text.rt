//! The text that is read of the bytes of a definition.

ghost use Rattle.implib_rules.specs.Library.{definition_text, without_mark};
ghost use Rattle.implib_rules.specs.Utf8.{IsNotUtf8At};
ghost use Rattle.std.specs.Prelude.{◌≡◌, IfOk, MatchResult};
ghost use Rattle.std.specs.Str.{IsUtf8};

use crate::plain::{is_plain, plain_text};
use implib::def::Position;
use std::alloc::{AllocError, Global};
use std::marker::Model;

/// The bytes without a leading byte order mark of UTF-8.
pub fn without_mark(bytes: &[u8]) -> &[u8]
    ensures { result.now ≡ without_mark bytes.now }
{
    if bytes.starts_with(&[0xEF, 0xBB, 0xBF]) {
        return &bytes[3..];
    }
    bytes
}

/// The text of a definition: its bytes without a byte order mark, in the grammar of `implib`. It is
/// copied only where that grammar lacks something of it.
#[derive(Drop)]
pub struct DefinitionText<'a> {
    given: &'a [u8],
    // Whether the text is what was given; else it is what follows.
    is_given: bool,
    changed: Vec<u8>,
}

impl<'a> Model for DefinitionText<'a> {
    ghost use Rattle.std.specs.Prelude.{ℕ, List, if◌then◌else◌};

    ghost Value = { List ℕ };

    ghost view = { λ t. if t.is_given then t.given.now else t.changed.items };
}

impl<'a> DefinitionText<'a> {
    /// The text of a definition of these bytes.
    ///
    /// # Errors
    ///
    /// An allocation failed.
    pub fn new(alloc: Global, bytes: &'a [u8]) -> Result<DefinitionText<'a>, AllocError>
        ensures { IfOk result (λ text. text ≡ definition_text bytes.now) }
    {
        let given = without_mark(bytes);
        if is_plain(given) {
            return Ok(DefinitionText {
                given,
                is_given: true,
                changed: Vec::new(alloc),
            });
        }
        let changed = plain_text(alloc, given)?;
        Ok(DefinitionText {
            given,
            is_given: false,
            changed,
        })
    }

    /// The text, if it is UTF-8.
    ///
    /// # Errors
    ///
    /// It is not: where its first byte is that is not.
    pub fn text(&self) -> Result<&str, Position>
        ensures { MatchResult result (λ text. (text.now ≡ self.now) × IsUtf8 self.now)
            (λ position. IsNotUtf8At self.now position) }
    {
        let bytes = if self.is_given {
            self.given
        } else {
            self.changed.as_slice()
        };
        match str::from_utf8(bytes) {
            Ok(text) => Ok(text),
            Err(error) => Err(Position::in_bytes(bytes, error.valid_up_to())),
        }
    }
}
