//! The numbers and names that statements other than `EXPORTS` set.

ghost use Rattle.implib.specs.Views.Hearing.{HearsOthers};
ghost use Rattle.implib.specs.Views.Parser.{Gives, named};
ghost use Rattle.implib.specs.Views.TokenReader.{base_read, commit_read, name_read, sizes_read};
ghost use Rattle.implib.specs.Views.TokenReader.{version_read};
ghost use Rattle.std.specs.Prelude.{◌≡◌, ◌<◌, ◌≤◌, length, OnOk};

use crate::def::lexer::TokenKind;
use crate::def::listener::Listener;
use crate::def::parser::numbers::version_of;
use crate::def::parser::read_error::ReadError;
use crate::def::parser::tokens::Tokens;
use crate::error::Fault;

impl<'a> Tokens<'a> {
    /// One number, and the one after a comma, if there is one.
    #[tactic(auto, unfolding(crate::specs::Views::TokenReader::sizes_read))]
    pub fn sizes<L: Listener>(&mut self, listener: &mut L) -> Result<(u64, Option<u64>), ReadError>
        ensures read { Gives (λ sizes. (sizes, self.new)) result (sizes_read self.old) }
        ensures no_longer { OnOk result (length self.new ≤ length self.old) }
        ensures heard { (start : L) → HearsOthers (L.has_heard start listener.old) self.old
            (L.has_heard start listener.new) self.new }
    {
        let reserve = self.number(listener)?;
        let commit = self.commit(listener)?;
        Ok((reserve, commit))
    }

    // The number after a comma, if there is one.
    #[tactic(auto, unfolding(crate::specs::Views::TokenReader::commit_read))]
    fn commit<L: Listener>(&mut self, listener: &mut L) -> Result<Option<u64>, ReadError>
        ensures read { Gives (λ commit. (commit, self.new)) result (commit_read self.old) }
        ensures no_longer { OnOk result (length self.new ≤ length self.old) }
        ensures heard { (start : L) → HearsOthers (L.has_heard start listener.old) self.old
            (L.has_heard start listener.new) self.new }
    {
        let Some(token) = self.peek() else {
            return Ok(None);
        };
        match token.kind {
            TokenKind::Comma => {
                self.advance(listener);
                Ok(Some(self.number(listener)?))
            }
            _ => Ok(None),
        }
    }

    /// The name after `NAME` or `LIBRARY` and its base, if they are there.
    #[tactic(auto, unfolding(crate::specs::Views::TokenReader::name_read))]
    pub fn name<L: Listener>(
        &mut self,
        listener: &mut L,
    ) -> Result<Option<(&'a str, Option<u64>)>, ReadError>
        ensures read { Gives (λ name. (named name, self.new)) result (name_read self.old) }
        ensures no_longer { OnOk result (length self.new ≤ length self.old) }
        ensures heard { (start : L) → HearsOthers (L.has_heard start listener.old) self.old
            (L.has_heard start listener.new) self.new }
    {
        let Some(token) = self.peek() else {
            return Ok(None);
        };
        match token.kind {
            TokenKind::Identifier => {
                self.advance(listener);
                let base = self.base(listener)?;
                Ok(Some((token.value, base)))
            }
            _ => Ok(None),
        }
    }

    // The number of `BASE =`, if it is there.
    #[tactic(auto, unfolding(crate::specs::Views::TokenReader::base_read))]
    fn base<L: Listener>(&mut self, listener: &mut L) -> Result<Option<u64>, ReadError>
        ensures read { Gives (λ base. (base, self.new)) result (base_read self.old) }
        ensures no_longer { OnOk result (length self.new ≤ length self.old) }
        ensures heard { (start : L) → HearsOthers (L.has_heard start listener.old) self.old
            (L.has_heard start listener.new) self.new }
    {
        let Some(token) = self.peek() else {
            return Ok(None);
        };
        match token.kind {
            TokenKind::KwBase => {
                self.advance(listener);
                self.equal(listener)?;
                Ok(Some(self.number(listener)?))
            }
            _ => Ok(None),
        }
    }

    /// The two numbers of the expected version, which is one identifier.
    #[tactic(auto, unfolding(crate::specs::Views::TokenReader::version_read))]
    pub fn version<L: Listener>(&mut self, listener: &mut L) -> Result<(u32, u32), ReadError>
        ensures read { Gives (λ version. (version, self.new)) result (version_read self.old) }
        ensures no_longer { OnOk result (length self.new ≤ length self.old) }
        ensures heard { (start : L) → HearsOthers (L.has_heard start listener.old) self.old
            (L.has_heard start listener.new) self.new }
    {
        let word = self.identifier(listener)?;
        match version_of(word.value) {
            Some(version) => Ok(version),
            None => Err(ReadError::Refused(Fault::ExpectedInteger, word.at)),
        }
    }
}
