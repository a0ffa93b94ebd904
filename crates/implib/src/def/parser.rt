//! The statements of a module definition (docs/GRAMMAR.md, "Statements").

ghost use Rattle.implib.specs.Definition.{definition_view};
ghost use Rattle.implib.specs.Fault.{IfInvalid};
ghost use Rattle.implib.specs.Text.Parser.{HasHeardFrom, ParsesFrom, RefusesFrom};
ghost use Rattle.implib.specs.Text.Parses.{Parses, Refuses};
ghost use Rattle.implib.specs.Text.Heard.{Heard, HasHeardText};
ghost use Rattle.implib.specs.Views.Hearing.{HearsMore, HearsOthers, statement_heard};
ghost use Rattle.implib.specs.Views.Hearing.{statements_heard};
ghost use Rattle.implib.specs.Views.Parser.{all_put, Gives, OfRefusal, one_put, RefusesFromAt};
ghost use Rattle.implib.specs.Views.Parser.{settings_put};
ghost use Rattle.implib.specs.Text.RefusedAt.{IsRefusedAt};
ghost use Rattle.implib.specs.Views.TokenReader.{name_read, statement_read, statements_read};
ghost use Rattle.implib.specs.Views.TokenReader.{with_statement};
ghost use Rattle.implib.specs.Text.Token.{Lexed};
ghost use Rattle.std.specs.Prelude.{[], ◌≡◌, ◌<◌, ◌≤◌, length, IfErr, IfOk, IsTrue, OnOk};

mod attributes;
mod exports;
mod numbers;
mod read_error;
mod settings;
mod tokens;

use crate::def::definition::ModuleDef;
use crate::def::lexer::TokenKind;
use crate::def::listener::{Listener, Silent};
use crate::def::parser::read_error::ReadError;
use crate::def::parser::tokens::Tokens;
use crate::def::position::Position;
use crate::error::{Error, Fault, ParseError};
use crate::machine::MachineType;
use std::alloc::Global;
use std::marker::Model;

impl ModuleDef {
    /// What a text means on a machine (docs/GRAMMAR.md), in time linear in its length.
    ///
    /// # Errors
    ///
    /// Those of [`Parser::parse`].
    pub fn parse(alloc: Global, def: &str, machine: MachineType) -> Result<ModuleDef, Error>
        ensures parses { IfOk result (λ d. Parses def.now machine (definition_view d)) }
        ensures refused { IfInvalid result (Refuses def.now) }
    {
        Parser::new(def, machine).parse(alloc)
    }

    /// What a text means on a machine, as [`ModuleDef::parse`] gives it; a fault comes with its
    /// position.
    ///
    /// The fault is that of the first token, from the left, that no derivation allows. The position
    /// is that of the token's value ([`Token::at`]): for a quoted name the byte after the quote,
    /// for `Eof` the end of the text, which is its length or a NUL. Line and column take a second
    /// pass over a refused text.
    ///
    /// # Errors
    ///
    /// Those of [`Parser::parse`].
    ///
    /// [`Token::at`]: crate::def::lexer::Token::at
    pub fn parse_with_position(
        alloc: Global,
        def: &str,
        machine: MachineType,
    ) -> Result<ModuleDef, ParseError>
        ensures parses { IfOk result (λ d. Parses def.now machine (definition_view d)) }
        ensures refused { IfErr result (IsRefusedAt def.now) }
    {
        ModuleDef::parse_with(alloc, def, machine, &mut Silent)
    }

    /// What a text means on a machine, as [`ModuleDef::parse_with_position`] gives it; a listener
    /// hears each token of the text but the last, `Eof`, with its role, in their order.
    ///
    /// Of a refused text it has heard some of the tokens.
    ///
    /// # Errors
    ///
    /// Those of [`Parser::parse`].
    pub fn parse_with<L: Listener>(
        alloc: Global,
        def: &str,
        machine: MachineType,
        listener: &mut L,
    ) -> Result<ModuleDef, ParseError>
        ensures parses { IfOk result (λ d. Parses def.now machine (definition_view d)) }
        ensures refused { IfErr result (IsRefusedAt def.now) }
        ensures heard { OnOk result (L.has_heard listener.old listener.old []
            → HasHeardText def.now (L.has_heard listener.old listener.new)) }
    {
        match Parser::new(def, machine).read(alloc, listener) {
            Ok(read) => Ok(read),
            Err(ReadError::Refused(fault, offset)) => {
                Err(ParseError::Invalid(fault, Position::at(def, offset)))
            }
            Err(ReadError::OutOfMemory(refused)) => Err(ParseError::OutOfMemory(refused)),
        }
    }
}

/// A parser of one module definition, for one machine.
///
/// It borrows the text and copies nothing.
#[derive(Drop)]
pub struct Parser<'a> {
    tokens: Tokens<'a>,
    machine: MachineType,
}

impl<'a> Model for Parser<'a> {
    ghost use Rattle.implib.specs.Text.Parser.{Source};

    ghost Value = { Source };

    ghost view = { λ p. record { tokens = p.tokens; machine = p.machine } };
}

impl<'a> Parser<'a> {
    /// A parser at the beginning of the text.
    pub fn new(text: &'a str, machine: MachineType) -> Self
        ensures tokens { Lexed text.now result.tokens }
        ensures machine { result.machine ≡ machine }
    {
        Parser {
            tokens: Tokens::new(text),
            machine,
        }
    }

    /// What the text means on the machine, in time linear in its length.
    ///
    /// # Errors
    ///
    /// `Invalid` where the text is no module definition, with the fault of the first token, from
    /// the left, that no derivation allows: `UnknownDirective`, `ExpectedIdentifier`,
    /// `ExpectedEqual`, `ExpectedInteger`, `InvalidOrdinal` or `LoneAt` (docs/GRAMMAR.md, "Syntax
    /// errors"). `OutOfMemory` where an allocation failed.
    pub fn parse(self, alloc: Global) -> Result<ModuleDef, Error>
        ensures parses { IfOk result (λ d. ParsesFrom self.entry (definition_view d)) }
        ensures refused { IfInvalid result (RefusesFrom self.entry) }
    {
        Ok(self.read(alloc, &mut Silent)?)
    }

    // What the text means; a fault comes with the offset of the token that is refused.
    fn read<L: Listener>(self, alloc: Global, listener: &mut L) -> Result<ModuleDef, ReadError>
        ensures parses { IfOk result (λ d. ParsesFrom self.entry (definition_view d)) }
        ensures refused { IfErr result (OfRefusal (RefusesFromAt self.entry)) }
        ensures heard { OnOk result (L.has_heard listener.old listener.old []
            → HasHeardFrom self.entry (L.has_heard listener.old listener.new)) }
    {
        let Parser {
            mut tokens,
            machine,
        } = self;
        let mut def = ModuleDef::empty(alloc);
        tokens.statements(alloc, machine, &mut def, listener)?;
        Ok(def)
    }
}

impl<'a> Tokens<'a> {
    // Reads all statements into the definition.
    fn statements<L: Listener>(
        &mut self,
        alloc: Global,
        machine: MachineType,
        def: &mut ModuleDef,
        listener: &mut L,
    ) -> Result<(), ReadError>
        ensures read { Gives (λ _. (definition_view def.new, self.new)) result
            (all_put (with_statement machine) (definition_view def.old)
            (statements_read self.old)) }
        ensures heard { OnOk result ((start : L) → HearsMore (L.has_heard start listener.old)
            (L.has_heard start listener.new) (statements_heard self.old)) }
    {
        while self.statement(alloc, machine, def, listener)? {}
        Ok(())
    }

    // Reads a statement into the definition, and answers false where the tokens end.
    #[tactic(auto, unfolding(crate::specs::Views::TokenReader::statement_read))]
    fn statement<L: Listener>(
        &mut self,
        alloc: Global,
        machine: MachineType,
        def: &mut ModuleDef,
        listener: &mut L,
    ) -> Result<bool, ReadError>
        ensures read { Gives (λ more. (more, definition_view def.new, self.new)) result
            (one_put (with_statement machine) (definition_view def.old)
            (statement_read self.old)) }
        ensures no_longer { OnOk result (length self.new ≤ length self.old) }
        ensures shorter { IfOk result (λ more. IsTrue more → length self.new < length self.old) }
        ensures heard { OnOk result ((start : L) → HearsMore (L.has_heard start listener.old)
            (L.has_heard start listener.new) (statement_heard self.old)) }
    {
        let Some(token) = self.peek() else {
            return Ok(false);
        };
        if token.kind == TokenKind::Eof {
            return Ok(false);
        }
        self.advance(listener);
        match token.kind {
            TokenKind::KwExports => self.exports(alloc, machine, &mut def.exports, listener)?,
            TokenKind::KwHeapsize => {
                let (reserve, commit) = self.sizes(listener)?;
                def.heap_reserve = reserve;
                def.heap_commit = commit.unwrap_or(0);
            }
            TokenKind::KwStacksize => {
                let (reserve, commit) = self.sizes(listener)?;
                def.stack_reserve = reserve;
                def.stack_commit = commit.unwrap_or(0);
            }
            TokenKind::KwName | TokenKind::KwLibrary => self.set_name(alloc, def, listener)?,
            TokenKind::KwVersion => {
                let (major, minor) = self.version(listener)?;
                def.major_image_version = major;
                def.minor_image_version = minor;
            }
            _ => {
                let value = String::from_str(alloc, token.value)?;
                return Err(ReadError::Refused(Fault::UnknownDirective(value), token.at));
            }
        }
        Ok(true)
    }

    // Sets the name and the base; they are empty and 0 where they are not given.
    fn set_name<L: Listener>(
        &mut self,
        alloc: Global,
        def: &mut ModuleDef,
        listener: &mut L,
    ) -> Result<(), ReadError>
        ensures read { Gives (λ _. (definition_view def.new, self.new)) result
            (settings_put (definition_view def.old) (name_read self.old)) }
        ensures no_longer { OnOk result (length self.new ≤ length self.old) }
        ensures heard { (start : L) → HearsOthers (L.has_heard start listener.old) self.old
            (L.has_heard start listener.new) self.new }
    {
        match self.name(listener)? {
            None => {
                def.import_name = String::new(alloc);
                def.image_base = 0;
                Ok(())
            }
            Some((name, base)) => {
                def.import_name = String::from_str(alloc, name)?;
                def.image_base = base.unwrap_or(0);
                Ok(())
            }
        }
    }
}
