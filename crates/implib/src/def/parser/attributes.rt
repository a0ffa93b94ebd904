//! The attributes of an export.

ghost use Rattle.implib.specs.Definition.{export_view};
ghost use Rattle.implib.specs.Text.Grammar.{Joined};
ghost use Rattle.implib.specs.Views.Hearing.{HearsOthers};
ghost use Rattle.implib.specs.Views.Parser.{all_put, Gives, one_put};
ghost use Rattle.implib.specs.Views.TokenReader.{
  attribute_read,
  attributes_read,
  no_name_read,
  ordinal_read,
  with_attribute,
};
ghost use Rattle.std.specs.Prelude.{◌≡◌, ◌<◌, ◌≤◌, length, IfOk, IsTrue, OnOk};

use crate::def::definition::ShortExport;
use crate::def::lexer::TokenKind;
use crate::def::listener::Listener;
use crate::def::parser::numbers::{AtWord, at_word, u16_of};
use crate::def::parser::read_error::ReadError;
use crate::def::parser::tokens::Tokens;
use crate::error::Fault;
use std::alloc::Global;

impl<'a> Tokens<'a> {
    /// Reads all attributes at the front of the tokens into the export.
    pub fn attributes<L: Listener>(
        &mut self,
        alloc: Global,
        export: &mut ShortExport,
        listener: &mut L,
    ) -> Result<(), ReadError>
        ensures read { Gives (λ _. (export_view export.new, self.new)) result
            (all_put with_attribute (export_view export.old) (attributes_read self.old)) }
        ensures no_longer { OnOk result (length self.new ≤ length self.old) }
        ensures heard { (start : L) → HearsOthers (L.has_heard start listener.old) self.old
            (L.has_heard start listener.new) self.new }
    {
        while self.attribute(alloc, export, listener)? {}
        Ok(())
    }

    // Reads an attribute into the export; false where there is none.
    #[tactic(auto, unfolding(crate::specs::Views::TokenReader::attribute_read))]
    fn attribute<L: Listener>(
        &mut self,
        alloc: Global,
        export: &mut ShortExport,
        listener: &mut L,
    ) -> Result<bool, ReadError>
        ensures read { Gives (λ more. (more, export_view export.new, self.new)) result
            (one_put with_attribute (export_view export.old) (attribute_read self.old)) }
        ensures no_longer { OnOk result (length self.new ≤ length self.old) }
        ensures shorter { IfOk result (λ more. IsTrue more → length self.new < length self.old) }
        ensures heard { (start : L) → HearsOthers (L.has_heard start listener.old) self.old
            (L.has_heard start listener.new) self.new }
    {
        let Some(token) = self.peek() else {
            return Ok(false);
        };
        match token.kind {
            TokenKind::Identifier => match at_word(token.value) {
                AtWord::Plain => return Ok(false),
                AtWord::Lone => {
                    self.advance(listener);
                    let ordinal = self.ordinal(alloc, listener)?;
                    self.set_ordinal(ordinal, export, listener);
                }
                AtWord::WithOrdinal(ordinal) => {
                    self.advance(listener);
                    self.set_ordinal(ordinal, export, listener);
                }
            },
            TokenKind::EqualEqual => {
                self.advance(listener);
                let target = self.identifier(listener)?;
                export.alias_target = String::from_str(alloc, target.value)?;
            }
            TokenKind::KwData => {
                self.advance(listener);
                export.is_data = true;
            }
            TokenKind::KwConstant => {
                self.advance(listener);
                export.constant = true;
            }
            TokenKind::KwPrivate => {
                self.advance(listener);
                export.private = true;
            }
            _ => return Ok(false),
        }
        Ok(true)
    }

    // The ordinal in the token after a lone `@`.
    #[tactic(auto, unfolding(crate::specs::Views::TokenReader::ordinal_read))]
    fn ordinal<L: Listener>(&mut self, alloc: Global, listener: &mut L) -> Result<u16, ReadError>
        ensures read { Gives (λ n. (n, self.new)) result (ordinal_read self.old) }
        ensures no_longer { OnOk result (length self.new ≤ length self.old) }
        ensures heard { (start : L) → HearsOthers (L.has_heard start listener.old) self.old
            (L.has_heard start listener.new) self.new }
    {
        let Some(token) = self.advance(listener) else {
            return Err(ReadError::Refused(Fault::ExpectedIdentifier(TokenKind::Eof), 0));
        };
        if token.kind == TokenKind::Eof {
            return Err(ReadError::Refused(Fault::ExpectedIdentifier(TokenKind::Eof), token.at));
        }
        match u16_of(token.value) {
            Some(ordinal) => Ok(ordinal),
            None => {
                let value = String::from_str(alloc, token.value)?;
                Err(ReadError::Refused(Fault::InvalidOrdinal(value), token.at))
            }
        }
    }

    // Sets the ordinal of the export, and takes `NONAME` after it.
    fn set_ordinal<L: Listener>(&mut self, ordinal: u16, export: &mut ShortExport, listener: &mut L)
        ensures set { export_view export.new
            ≡ with_attribute (export_view export.old) (Joined ordinal (no_name_read self.old).0) }
        ensures rest { self.new ≡ (no_name_read self.old).1 }
        ensures no_longer { length self.new ≤ length self.old }
        ensures heard { (start : L) → HearsOthers (L.has_heard start listener.old) self.old
            (L.has_heard start listener.new) self.new }
    {
        export.ordinal = ordinal;
        if self.no_name(listener) {
            export.no_name = true;
        }
    }

    // Takes `NONAME`, and says whether it was there.
    #[tactic(auto, unfolding(crate::specs::Views::TokenReader::no_name_read))]
    fn no_name<L: Listener>(&mut self, listener: &mut L) -> bool
        ensures read { (result, self.new) ≡ no_name_read self.old }
        ensures no_longer { length self.new ≤ length self.old }
        ensures heard { (start : L) → HearsOthers (L.has_heard start listener.old) self.old
            (L.has_heard start listener.new) self.new }
    {
        let Some(token) = self.peek() else {
            return false;
        };
        match token.kind {
            TokenKind::KwNoname => {
                self.advance(listener);
                true
            }
            _ => false,
        }
    }
}
