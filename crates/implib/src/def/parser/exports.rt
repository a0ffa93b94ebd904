//! The exports of a statement, and their names.

ghost use Rattle.implib.specs.Definition.{export_view};
ghost use Rattle.implib.specs.Underscore.{decorated, is_decorated};
ghost use Rattle.implib.specs.Views.Hearing.{HearsMore, HearsOthers, export_heard, exports_heard};
ghost use Rattle.implib.specs.Views.Parser.{all_put, Gives, one_put, value_of, with_export};
ghost use Rattle.implib.specs.Views.TokenReader.{export_read, exports_read, named_export};
ghost use Rattle.implib.specs.Views.TokenReader.{target_read};
ghost use Rattle.std.specs.Prelude.{◌≡◌, ◌<◌, ◌≤◌, length, map, IfOk, IsTrue, OnOk};
ghost use Rattle.std.specs.String.{string_bytes};

use crate::def::definition::ShortExport;
use crate::def::lexer::TokenKind;
use crate::def::listener::{Listener, Role};
use crate::def::parser::numbers::{AtWord, at_word};
use crate::def::parser::read_error::ReadError;
use crate::def::parser::tokens::Tokens;
use crate::error::Fault;
use crate::machine::MachineType;
use crate::underscore::decorated;
use std::alloc::{AllocError, Global};

impl<'a> Tokens<'a> {
    /// Reads all exports at the front of the tokens onto the list.
    pub fn exports<L: Listener>(
        &mut self,
        alloc: Global,
        machine: MachineType,
        exports: &mut Vec<ShortExport>,
        listener: &mut L,
    ) -> Result<(), ReadError>
        ensures read { Gives (λ _. (map export_view exports.new.items, self.new)) result
            (all_put (with_export machine) (map export_view exports.old.items)
            (exports_read self.old)) }
        ensures no_longer { OnOk result (length self.new ≤ length self.old) }
        ensures heard { OnOk result ((start : L) → HearsMore (L.has_heard start listener.old)
            (L.has_heard start listener.new) (exports_heard self.old)) }
    {
        while self.export(alloc, machine, exports, listener)? {}
        Ok(())
    }

    // Reads an export onto the list; false where there is none.
    #[tactic(auto, unfolding(crate::specs::Views::TokenReader::export_read))]
    fn export<L: Listener>(
        &mut self,
        alloc: Global,
        machine: MachineType,
        exports: &mut Vec<ShortExport>,
        listener: &mut L,
    ) -> Result<bool, ReadError>
        ensures read { Gives (λ more. (more, map export_view exports.new.items, self.new)) result
            (one_put (with_export machine) (map export_view exports.old.items)
            (export_read self.old)) }
        ensures no_longer { OnOk result (length self.new ≤ length self.old) }
        ensures shorter { IfOk result (λ more. IsTrue more → length self.new < length self.old) }
        ensures heard { OnOk result ((start : L) → HearsMore (L.has_heard start listener.old)
            (L.has_heard start listener.new) (export_heard self.old)) }
    {
        let Some(token) = self.peek() else {
            return Ok(false);
        };
        match token.kind {
            TokenKind::Identifier => {
                self.take();
                listener.hear(Role::Name, token);
                let target = self.target(listener)?;
                let mut export = named_export(alloc, machine, token.value, target)?;
                self.attributes(alloc, &mut export, listener)?;
                exports.push(export)?;
                Ok(true)
            }
            _ => Ok(false),
        }
    }

    // The word after the `=` of an export, if they are there.
    #[tactic(auto, unfolding(crate::specs::Views::TokenReader::target_read))]
    fn target<L: Listener>(&mut self, listener: &mut L) -> Result<Option<&'a str>, ReadError>
        ensures read { Gives (λ target. (value_of target, self.new)) result
            (target_read self.old) }
        ensures no_longer { OnOk result (length self.new ≤ length self.old) }
        ensures heard { (start : L) → HearsOthers (L.has_heard start listener.old) self.old
            (L.has_heard start listener.new) self.new }
    {
        let Some(token) = self.peek() else {
            return Ok(None);
        };
        match token.kind {
            TokenKind::Equal => {
                self.advance(listener);
                let target = self.identifier(listener)?;
                match at_word(target.value) {
                    AtWord::Lone => Err(ReadError::Refused(Fault::LoneAt, target.at)),
                    _ => Ok(Some(target.value)),
                }
            }
            _ => Ok(None),
        }
    }
}

// An export with its names alone: `name` is the target if given, and the word becomes `ext_name`;
// otherwise `name` is the word.
fn named_export(
    alloc: Global,
    machine: MachineType,
    word: &str,
    target: Option<&str>,
) -> Result<ShortExport, AllocError>
    ensures { IfOk result
        (λ e. export_view e ≡ named_export machine word.now (value_of target.entry)) }
{
    let mut export = ShortExport::empty(alloc);
    match target {
        None => export.name = decorated(alloc, machine, word)?,
        Some(target) => {
            export.name = decorated(alloc, machine, target)?;
            export.ext_name = Some(decorated(alloc, machine, word)?);
        }
    }
    Ok(export)
}
