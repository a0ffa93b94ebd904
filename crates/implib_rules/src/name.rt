//! The name of the DLL that an import library is for.

ghost use Rattle.implib_rules.specs.Heard.{headed_view};
ghost use Rattle.implib_rules.specs.Names.{dll_name, ending, heading_of, is_identifier};
ghost use Rattle.implib_rules.specs.Names.{lacks_name, last_part, named_by, part_after_last};
ghost use Rattle.implib_rules.specs.Names.{unheaded};
ghost use Rattle.std.specs.List.{after_first, position_or_len};
ghost use Rattle.std.specs.Option.{option_map};
ghost use Rattle.std.specs.Prelude.{◌==◌, ◌≡◌, ◌++◌, ◌<◌, IfOk, List, MatchOption, None, length};
ghost use Rattle.std.specs.String.{string_bytes};

use implib::def::lexer::{Token, TokenKind};
use implib::def::listener::{Listener, Role};
use std::alloc::{AllocError, Global};

// Whether a token is a word that may be a name.
pub(crate) fn is_identifier(kind: TokenKind) -> bool
    ensures { result ≡ is_identifier kind }
{
    match kind {
        TokenKind::Identifier => true,
        _ => false,
    }
}

// Whether a keyword that begins a heading is `NAME`.
fn heading_of(kind: TokenKind) -> Option<bool>
    ensures { result ≡ heading_of kind }
{
    match kind {
        TokenKind::KwName => Some(true),
        TokenKind::KwLibrary => Some(false),
        _ => None,
    }
}

/// A listener for the first heading of a text, `LIBRARY` or `NAME`, that has a name.
#[derive(Drop)]
pub struct FirstHeading {
    // The name; it is empty where there is none.
    name: String,
    // Whether the heading is `NAME`.
    is_program: bool,
    // Whether the last token begins a heading, and then whether the heading is `NAME`.
    opened: Option<bool>,
    // The allocation that failed, if one did: then the name may be missing.
    failure: Option<AllocError>,
}

// Appends a name, or keeps that an allocation failed.
fn note_name(name: &mut String, failure: &mut Option<AllocError>, value: &str)
    ensures { failure.new ≡ None → (failure.old ≡ None)
        × (string_bytes name.new ≡ string_bytes name.old ++ value.now) }
{
    if let Err(refused) = name.push_str(value) {
        *failure = Some(AllocError::from(refused));
    }
}

impl FirstHeading {
    /// A listener that has heard nothing.
    pub fn new(alloc: Global) -> FirstHeading
        ensures view { headed_view result ≡ unheaded }
        ensures failure { result.failure ≡ None }
    {
        FirstHeading {
            name: String::new(alloc),
            is_program: false,
            opened: None,
            failure: None,
        }
    }

    // Whether a token is the name of a heading, the first one with a name, and then whether that is
    // `NAME`.
    fn named_by(&self, kind: TokenKind) -> Option<bool>
        ensures { result ≡ named_by (headed_view self.now) kind }
    {
        if self.name.is_empty() && is_identifier(kind) {
            self.opened
        } else {
            None
        }
    }

    /// The name, which is empty where there is none, and whether the heading is `NAME`.
    ///
    /// # Errors
    ///
    /// An allocation failed while the text was heard.
    pub fn finish(self) -> Result<(String, bool), AllocError>
        ensures { IfOk result (λ found. (self.failure ≡ None)
            × (string_bytes found.0 ≡ string_bytes self.name) × (found.1 ≡ self.is_program)) }
    {
        let FirstHeading {
            name,
            is_program,
            failure,
            ..
        } = self;
        match failure {
            Some(refused) => Err(refused),
            None => Ok((name, is_program)),
        }
    }
}

impl Listener for FirstHeading {
    ghost use Rattle.implib_rules.specs.Heard.{HasHeading};

    ghost has_heard = { HasHeading };

    fn hear(&mut self, _role: Role, token: Token<'_>) {
        if let Some(is_program) = self.named_by(token.kind) {
            note_name(&mut self.name, &mut self.failure, token.value);
            self.is_program = is_program;
        }
        self.opened = heading_of(token.kind);
    }
}

// The text after the first separator of this kind, if there is one.
fn after_first_of(name: &str, separator: char) -> Option<&str>
    requires { separator < 128 }
    ensures { MatchOption result (
        position_or_len (λ b. b == separator) name.now ≡ length name.now)
        (λ after. (after.now ≡ after_first (λ b. b == separator) name.now)
        × (position_or_len (λ b. b == separator) name.now < length name.now)) }
{
    match name.split_once(separator) {
        Some((_, after)) => Some(after),
        None => None,
    }
}

// The text after the last separator of this kind, or all of the name.
fn part_after_last(name: &str, separator: char) -> &str
    requires { separator < 128 }
    ensures { result.now ≡ part_after_last separator name.now }
{
    let mut part = name;
    while let Some(after) = after_first_of(part, separator) {
        part = after;
    }
    part
}

/// The name without its directory: the text after its last `/`, and then after its last `\\`.
pub fn last_part(name: &str) -> &str
    ensures { result.now ≡ last_part name.now }
{
    part_after_last(part_after_last(name, '/'), '\\')
}

/// Whether neither a name is given, nor the definition has one, but for a directory.
pub fn lacks_name(given: Option<&str>, own: &str) -> bool
    ensures { result ≡ lacks_name (option_map (λ text. text.now) given.entry) own.now }
{
    match given {
        Some(name) => last_part(name).is_empty(),
        None => last_part(own).is_empty(),
    }
}

// The ending that a name without one gets.
fn ending(is_program: bool) -> &'static str
    ensures { result.now ≡ ending is_program }
{
    if is_program { ".exe" } else { ".dll" }
}

/// The name of the DLL: the one that is given, or the definition's own, with an ending where it has
/// no full stop. A directory is cut off.
///
/// # Errors
///
/// An allocation failed.
pub fn dll_name(
    alloc: Global,
    given: Option<&str>,
    own: &str,
    is_program: bool,
) -> Result<String, AllocError>
    ensures { IfOk result (λ name. string_bytes name
        ≡ dll_name (option_map (λ text. text.now) given.entry) own.now is_program) }
{
    let Some(name) = given else {
        let part = last_part(own);
        let mut name = String::from_str(alloc, part)?;
        if !part.as_bytes().contains(&b'.') {
            name.push_str(ending(is_program))?;
        }
        return Ok(name);
    };
    String::from_str(alloc, last_part(name))
}
