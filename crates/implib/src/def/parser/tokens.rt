//! The tokens that a parser has ahead of it.

ghost use Rattle.implib.specs.Views.Hearing.{HearsOthers};
ghost use Rattle.implib.specs.Views.Parser.{Gives, ShowsFirst, TakesFirst};
ghost use Rattle.implib.specs.Views.TokenReader.{number_read, sign_read, word_read};
ghost use Rattle.implib.specs.Text.Token.{token_view, Lexed};
ghost use Rattle.std.specs.Prelude.{◌≡◌, ◌<◌, length, OnOk};

use crate::def::lexer::{Lexer, Token, TokenKind};
use crate::def::listener::{Listener, Role};
use crate::def::parser::numbers::u64_of;
use crate::def::parser::read_error::ReadError;
use crate::error::Fault;
use std::marker::Model;

/// The tokens that are still to be read, the first of which may have been looked at.
#[derive(Drop)]
pub struct Tokens<'a> {
    lexer: Lexer<'a>,
    pushed: Option<Token<'a>>,
}

impl<'a> Model for Tokens<'a> {
    ghost use Rattle.std.specs.Prelude.{List};
    ghost use Rattle.implib.specs.Text.Token.{TokenView};

    ghost Value = { List TokenView };

    ghost use Rattle.implib.specs.Views.Parser.{ahead};

    ghost view = { λ t. ahead t.pushed t.lexer };
}

impl<'a> Tokens<'a> {
    /// All tokens of the text.
    pub fn new(text: &'a str) -> Self
        ensures { Lexed text.now result }
    {
        Tokens {
            lexer: Lexer::new(text),
            pushed: None,
        }
    }

    /// Takes the next token, if there is one, which a listener hears as another part than a name.
    pub fn advance<L: Listener>(&mut self, listener: &mut L) -> Option<Token<'a>>
        ensures first { TakesFirst self.old result self.new }
        ensures heard { (start : L) → HearsOthers (L.has_heard start listener.old) self.old
            (L.has_heard start listener.new) self.new }
    {
        let Some(token) = self.take() else {
            return None;
        };
        listener.hear(Role::Other, token);
        Some(token)
    }

    /// Takes the next token, if there is one.
    pub fn take(&mut self) -> Option<Token<'a>>
        ensures { TakesFirst self.old result self.new }
    {
        match self.pushed {
            Some(token) => {
                self.pushed = None;
                Some(token)
            }
            None => self.lexer.next(),
        }
    }

    /// Looks at the next token, if there is one, and leaves it.
    pub fn peek(&mut self) -> Option<Token<'a>>
        ensures first { ShowsFirst self.old result }
        ensures unchanged { self.new ≡ self.old }
    {
        if self.pushed.is_none() {
            self.pushed = self.lexer.next();
        }
        self.pushed
    }

    /// The expected identifier.
    #[tactic(auto, unfolding(crate::specs::Views::TokenReader::word_read))]
    pub fn identifier<L: Listener>(&mut self, listener: &mut L) -> Result<Token<'a>, ReadError>
        ensures read { Gives (λ token. (token_view token, self.new)) result (word_read self.old) }
        ensures shorter { OnOk result (length self.new < length self.old) }
        ensures heard { (start : L) → HearsOthers (L.has_heard start listener.old) self.old
            (L.has_heard start listener.new) self.new }
    {
        let Some(token) = self.advance(listener) else {
            return Err(ReadError::Refused(Fault::ExpectedIdentifier(TokenKind::Eof), 0));
        };
        match token.kind {
            TokenKind::Identifier => Ok(token),
            kind => Err(ReadError::Refused(Fault::ExpectedIdentifier(kind), token.at)),
        }
    }

    /// The expected `=`.
    #[tactic(auto, unfolding(crate::specs::Views::TokenReader::sign_read))]
    pub fn equal<L: Listener>(&mut self, listener: &mut L) -> Result<(), ReadError>
        ensures read { Gives (λ _. self.new) result (sign_read self.old) }
        ensures shorter { OnOk result (length self.new < length self.old) }
        ensures heard { (start : L) → HearsOthers (L.has_heard start listener.old) self.old
            (L.has_heard start listener.new) self.new }
    {
        let Some(token) = self.advance(listener) else {
            return Err(ReadError::Refused(Fault::ExpectedEqual(TokenKind::Eof), 0));
        };
        match token.kind {
            TokenKind::Equal => Ok(()),
            kind => Err(ReadError::Refused(Fault::ExpectedEqual(kind), token.at)),
        }
    }

    /// The number that the expected identifier is.
    #[tactic(auto, unfolding(crate::specs::Views::TokenReader::number_read))]
    pub fn number<L: Listener>(&mut self, listener: &mut L) -> Result<u64, ReadError>
        ensures read { Gives (λ n. (n, self.new)) result (number_read self.old) }
        ensures shorter { OnOk result (length self.new < length self.old) }
        ensures heard { (start : L) → HearsOthers (L.has_heard start listener.old) self.old
            (L.has_heard start listener.new) self.new }
    {
        let word = self.identifier(listener)?;
        match u64_of(word.value) {
            Some(number) => Ok(number),
            None => Err(ReadError::Refused(Fault::ExpectedInteger, word.at)),
        }
    }
}
