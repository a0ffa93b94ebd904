//! What is refused of a definition that its grammar takes: a quoted name that its line does not
//! close, and in the line of an export an ordinal that is none, or a second one.

ghost use Rattle.implib.specs.Text.Token.{token_view};
ghost use Rattle.implib.specs.Fault.{cause_of};
ghost use Rattle.implib_rules.specs.Forms.{begins_statement, cause_of_problem, is_between};
ghost use Rattle.implib_rules.specs.Forms.{is_in_quotes, is_open, is_ordinal, is_quote_closed};
ghost use Rattle.implib_rules.specs.Forms.{is_meant_as_ordinal, is_same_line, is_sign, open_quote};
ghost use Rattle.implib_rules.specs.Forms.{open_quote_from, point_after, problem_at, unformed};
ghost use Rattle.implib_rules.specs.Plain.{after_all};
ghost use Rattle.implib_rules.specs.Heard.{formed_view, misplaced_view};
ghost use Rattle.std.specs.Option.{option_map};
ghost use Rattle.implib_rules.specs.declared.plain.Reading.{Reading};
ghost use Rattle.std.specs.Prelude.{◌≡◌, ◌-◌, ℕ, IfOk, None, Some, drop, length, take, take_while};
ghost use Rattle.std.specs.Prelude.{true};

use crate::linked::has_at_sign;
use crate::name::{FirstHeading, is_identifier};
use crate::plain::{BEGINNING, Part, Reading, step_of};
use crate::warnings::words::is_ordinal_like;
use implib::Fault;
use implib::def::lexer::{Token, TokenKind};
use implib::def::listener::{Listener, Role};
use std::alloc::{AllocError, Global};

// Whether a byte is one of a quoted name in its line.
fn is_in_quotes(byte: u8) -> bool
    ensures { result ≡ is_in_quotes byte }
{
    byte != b'"' && byte != b'\n'
}

// How many bytes in front of a text may be in a quoted name in its line.
fn quoted_len(text: &[u8]) -> usize
    ensures { result ≡ length (take_while is_in_quotes text.now) }
{
    text.iter().take_while(|byte| is_in_quotes(**byte)).count()
}

// What follows a name in its line that a `"` before the text opens.
pub(crate) fn after_quote(text: &[u8]) -> &[u8]
    ensures { result.now ≡ drop 1 (after_all is_in_quotes text.now) }
{
    match &text[quoted_len(text)..] {
        [_, rest @ ..] => rest,
        [] => &[],
    }
}

// Whether a name is closed in its line that a `"` before the text opens.
fn is_quote_closed(text: &[u8]) -> bool
    ensures { result ≡ is_quote_closed text.now }
{
    match &text[quoted_len(text)..] {
        [byte, ..] => *byte == b'"',
        [] => false,
    }
}

// Whether a lexeme may begin here.
fn is_between(part: Part) -> bool
    ensures { result ≡ is_between part }
{
    matches!(part, Part::Between)
}

// Whether a byte is a `"` that begins a name which its line does not close.
fn is_open(reading: Reading, byte: u8, rest: &[u8]) -> bool
    ensures { result ≡ is_open reading byte rest.now }
{
    byte == b'"' && is_between(reading.part) && !is_quote_closed(rest)
}

// Whether no quote follows a byte of a text: that is tested at the first byte, and at each quote.
#[tactic(auto, using(crate::proofs::Shortcuts::none_open))]
fn is_past_quotes(offset: usize, byte: u8, rest: &[u8]) -> bool
    ensures { result ≡ true
        → (reading : Reading) (at : ℕ) → open_quote_from reading at rest.now ≡ None }
{
    (offset == 0 || byte == b'"') && !rest.contains(&b'"')
}

/// The offset of the first quote of a text that its line does not close.
#[tactic(auto, unfolding(crate::specs::Forms::open_quote_from))]
pub(crate) fn open_quote(text: &[u8]) -> Option<usize>
    ensures { result ≡ open_quote text.now }
{
    let mut reading = BEGINNING;
    let mut offset = 0;
    let mut left = text;
    while let [byte, rest @ ..] = left {
        if is_open(reading, *byte, rest) {
            return Some(offset);
        }
        if is_past_quotes(offset, *byte, rest) {
            return None;
        }
        reading = step_of(reading, left, *byte, rest).reading;
        offset += 1;
        left = rest;
    }
    None
}

/// What is wrong with a word.
#[derive(Clone, Copy, Debug, PartialEq, Eq)]
pub enum Problem {
    /// It begins as an ordinal does, behind an export in its line, and is none.
    NoOrdinal,
    /// The export has an ordinal.
    SecondOrdinal,
}

/// Where the tokens end that were heard.
#[derive(Clone, Copy, Debug, PartialEq, Eq)]
pub struct Point {
    /// Whether the last one is of an export.
    pub in_export: bool,
    /// Whether it is `=` or `==`.
    pub after_sign: bool,
    /// Whether its export has an ordinal.
    pub has_ordinal: bool,
    /// Where it begins.
    pub at: usize,
}

// Whether a keyword begins a statement.
fn begins_statement(kind: TokenKind) -> bool
    ensures { result ≡ begins_statement kind }
{
    match kind {
        TokenKind::KwExports
        | TokenKind::KwHeapsize
        | TokenKind::KwLibrary
        | TokenKind::KwName
        | TokenKind::KwStacksize
        | TokenKind::KwVersion => true,
        _ => false,
    }
}

// Whether a token is `=` or `==`.
fn is_sign(kind: TokenKind) -> bool
    ensures { result ≡ is_sign kind }
{
    match kind {
        TokenKind::Equal | TokenKind::EqualEqual => true,
        _ => false,
    }
}

// A text up to an offset.
fn before(text: &[u8], to: usize) -> &[u8]
    ensures { result.now ≡ take to text.now }
{
    &text[..to.min(text.len())]
}

// A text from an offset on.
fn behind(text: &[u8], from: usize) -> &[u8]
    ensures { result.now ≡ drop from text.now }
{
    &text[from.min(text.len())..]
}

// Whether no line ends from one offset of a text to another.
fn is_same_line(text: &[u8], from: usize, to: usize) -> bool
    ensures { result ≡ is_same_line text.now from to }
{
    !behind(before(text, to), from).contains(&b'\n')
}

// Whether a token that is no name of an export begins an ordinal.
fn is_ordinal(point: Point, token: Token<'_>) -> bool
    ensures { result ≡ is_ordinal point (token_view token.entry) }
{
    is_identifier(token.kind) && !point.after_sign && token.value.as_bytes().first() == Some(&b'@')
}

// Whether a word behind an export in its line can be meant as an ordinal alone.
fn is_meant_as_ordinal(word: &str) -> bool
    ensures { result ≡ is_meant_as_ordinal word.now }
{
    if is_ordinal_like(word) {
        return true;
    }
    match word.as_bytes() {
        [b'@', rest @ ..] => !has_at_sign(rest),
        _ => false,
    }
}

// What is wrong with a token.
fn problem_at(text: &[u8], point: Point, role: Role, token: Token<'_>) -> Option<Problem>
    ensures { result ≡ problem_at text.now point role (token_view token.entry) }
{
    let is_wrong = match role {
        Role::Name => {
            point.in_export
                && is_meant_as_ordinal(token.value)
                && is_same_line(text, point.at, token.at)
        }
        Role::Other => point.in_export && point.has_ordinal && is_ordinal(point, token),
    };
    if !is_wrong {
        return None;
    }
    match role {
        Role::Name => Some(Problem::NoOrdinal),
        Role::Other => Some(Problem::SecondOrdinal),
    }
}

// Where tokens end with one more.
fn point_after(point: Point, role: Role, token: Token<'_>) -> Point
    ensures { result ≡ point_after point role (token_view token.entry) }
{
    match role {
        Role::Name => Point {
            in_export: true,
            after_sign: false,
            has_ordinal: false,
            at: token.at,
        },
        Role::Other => Point {
            in_export: point.in_export && !begins_statement(token.kind),
            after_sign: is_sign(token.kind),
            has_ordinal: point.has_ordinal || is_ordinal(point, token),
            at: token.at,
        },
    }
}

/// A word that is wrong.
#[derive(Debug, Drop)]
pub struct Misplaced {
    problem: Problem,
    word: String,
    /// Its offset.
    pub at: usize,
}

impl Misplaced {
    /// What is said of it.
    pub fn fault(self) -> Fault
        ensures { cause_of result
            ≡ cause_of_problem (misplaced_view self).problem (misplaced_view self).word }
    {
        match self.problem {
            Problem::NoOrdinal => Fault::InvalidOrdinal(self.word),
            Problem::SecondOrdinal => Fault::UnknownDirective(self.word),
        }
    }
}

/// A listener for the first word of a text that is wrong.
#[derive(Drop)]
pub struct FirstMisplaced<'a> {
    alloc: Global,
    text: &'a str,
    point: Point,
    misplaced: Option<Misplaced>,
    // The allocation that failed, if one did: then the word may be missing.
    failure: Option<AllocError>,
}

// Keeps a word that is wrong, or that an allocation failed.
fn note_misplaced(
    alloc: Global,
    misplaced: &mut Option<Misplaced>,
    failure: &mut Option<AllocError>,
    problem: Problem,
    token: Token<'_>,
)
    ensures { failure.new ≡ None → (failure.old ≡ None)
        × (option_map misplaced_view misplaced.new ≡ Some (record {
          problem = problem;
          word = (token_view token.entry).value;
          at = (token_view token.entry).at;
        })) }
{
    match String::from_str(alloc, token.value) {
        Ok(word) => {
            *misplaced = Some(Misplaced {
                problem,
                word,
                at: token.at,
            });
        }
        Err(refused) => *failure = Some(refused),
    }
}

impl<'a> FirstMisplaced<'a> {
    /// A listener that has heard nothing of a text.
    pub fn new(alloc: Global, text: &'a str) -> FirstMisplaced<'a>
        ensures text { result.text.now ≡ text.now }
        ensures view { formed_view result ≡ unformed }
        ensures failure { result.failure ≡ None }
    {
        FirstMisplaced {
            alloc,
            text,
            point: Point {
                in_export: false,
                after_sign: false,
                has_ordinal: false,
                at: 0,
            },
            misplaced: None,
            failure: None,
        }
    }

    /// The word, if there is one.
    ///
    /// # Errors
    ///
    /// An allocation failed while the text was heard.
    pub fn finish(self) -> Result<Option<Misplaced>, AllocError>
        ensures { IfOk result (λ found. (self.entry.failure ≡ None)
            × (option_map misplaced_view found ≡ option_map misplaced_view self.entry.misplaced)) }
    {
        match self.failure {
            Some(refused) => Err(refused),
            None => Ok(self.misplaced),
        }
    }
}

impl<'a> Listener for FirstMisplaced<'a> {
    ghost use Rattle.implib_rules.specs.Heard.{HasForm};

    ghost has_heard = { HasForm };

    fn hear(&mut self, role: Role, token: Token<'_>) {
        if self.misplaced.is_some() {
            return;
        }
        match problem_at(self.text.as_bytes(), self.point, role, token) {
            Some(problem) => note_misplaced(
                self.alloc,
                &mut self.misplaced,
                &mut self.failure,
                problem,
                token,
            ),
            None => self.point = point_after(self.point, role, token),
        }
    }
}

/// What is heard of a definition: the name of its DLL, and the first word that is wrong.
#[derive(Drop)]
pub(crate) struct DefinitionHeard<'a> {
    pub(crate) heading: FirstHeading,
    pub(crate) form: FirstMisplaced<'a>,
}

impl<'a> Listener for DefinitionHeard<'a> {
    ghost use Rattle.implib_rules.specs.Heard.{HasDefinition};

    ghost has_heard = { HasDefinition };

    fn hear(&mut self, role: Role, token: Token<'_>) {
        self.heading.hear(role, token);
        self.form.hear(role, token);
    }
}
