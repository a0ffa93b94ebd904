//! The tokens of a module definition, as slices of its text (docs/GRAMMAR.md, "Tokens").

ghost use Rattle.implib.specs.Views.Scanner.{BeginsNoTrivia, PassesTrivia, SkipsTrivia, StartsWord};
ghost use Rattle.implib.specs.Views.Scanner.{TakesLexeme, TakesToken, tokens_left};
ghost use Rattle.implib.specs.Text.Token.{is_delimiter, is_equal_sign, is_quote, kind_of_word};
ghost use Rattle.implib.specs.Text.Token.{token_view, value_start, IsWordEnd, Lexed, TokenView};
ghost use Rattle.implib.specs.Ascii.{begins};
ghost use Rattle.std.specs.Iterator.{item_count, YieldsFirstBy};
ghost use Rattle.std.specs.Prelude.{◌≡◌, ◌==◌, ◌+◌, ◌<◌, ◌≤◌, ◌^◌, [], ◌∷◌, drop, length, take};
ghost use Rattle.std.specs.Prelude.{true, List};
ghost use Rattle.std.specs.Str.{trim, IsCharBoundary, IsUtf8};

use crate::ascii::begins_with;
use std::fmt;
use std::marker::Model;

/// What a token is.
#[derive(Clone, Copy, Debug, Default, PartialEq, Eq)]
pub enum TokenKind {
    /// No token; the lexer never gives it.
    #[default]
    Unknown,
    /// The end of the text.
    Eof,
    /// A quoted name, or a word that is no keyword.
    Identifier,
    /// `,`
    Comma,
    /// `=`
    Equal,
    /// `==`
    EqualEqual,
    /// `BASE`
    KwBase,
    /// `CONSTANT`
    KwConstant,
    /// `DATA`
    KwData,
    /// `EXPORTS`
    KwExports,
    /// `HEAPSIZE`
    KwHeapsize,
    /// `LIBRARY`
    KwLibrary,
    /// `NAME`
    KwName,
    /// `NONAME`
    KwNoname,
    /// `PRIVATE`
    KwPrivate,
    /// `STACKSIZE`
    KwStacksize,
    /// `VERSION`
    KwVersion,
}

impl fmt::Display for TokenKind {
    fn fmt<W: fmt::Write>(&self, f: &mut fmt::Formatter<W>) -> fmt::Result {
        write!(f, "{self:?}")
    }
}

/// A token of a text.
#[derive(Clone, Copy, Debug, PartialEq, Eq)]
pub struct Token<'a> {
    /// What the token is.
    pub kind: TokenKind,
    /// The value, a slice of the text: a word without trailing white space, or a quoted name
    /// without white space at either end. It is empty at the end of the text.
    pub value: &'a str,
    /// The offset in bytes of `value` in the text.
    pub at: usize,
}

/// The tokens of a text, in order: `Eof` comes once, last.
#[derive(Drop)]
pub struct Lexer<'a> {
    text: &'a str,
    rest: &'a str,
    is_done: bool,
}

impl<'a> Model for Lexer<'a> {
    ghost Value = { List TokenView };

    ghost view = { λ l. tokens_left l.text.now l.rest.now l.is_done };

    ghost invariant = { λ l. length l.rest.now ≤ length l.text.now };
}

impl<'a> Lexer<'a> {
    /// A lexer at the beginning of `text`.
    pub fn new(text: &'a str) -> Self
        ensures { Lexed text.now result }
    {
        Lexer {
            text,
            rest: text,
            is_done: false,
        }
    }
}

impl<'a> Iterator for Lexer<'a> {
    type Item = Token<'a>;

    ghost next_gives = { YieldsFirstBy token_view (λ s. s) };

    ghost remaining = { item_count (λ s. s) };

    fn next(&mut self) -> Option<Token<'a>> {
        if self.is_done {
            return None;
        }
        let start = skip_trivia(self.rest);
        let at = self.text.len() - start.len();
        let (token, after) = first_token(start, at);
        self.rest = after;
        self.is_done = token.kind == TokenKind::Eof;
        Some(token)
    }
}

/// The index of the first delimiter at or after `from`, or the length.
///
/// The delimiters are `=`, `,`, `;`, `\r`, `\n`, space, `\t` and `\x0B`. `from` is at most the
/// length. The bytes need not be UTF-8.
pub fn word_end(bytes: &[u8], from: usize) -> usize
    requires { from ≤ length bytes.now }
    ensures { IsWordEnd bytes.now from result }
{
    let mut end = from;
    while end < bytes.len() && !is_delimiter(bytes[end]) {
        end += 1;
    }
    end
}

/// Whether the byte ends a word: `=`, `,`, `;`, `\r`, `\n`, space, `\t` or `\x0B`.
pub fn is_delimiter(byte: u8) -> bool
    ensures { result ≡ is_delimiter byte }
{
    matches!(
        byte,
        b'=' | b',' | b';' | b'\r' | b'\n' | b' ' | b'\t' | 0x0B
    )
}

// The text after its leading trivia: white space and comments.
fn skip_trivia(text: &str) -> &str
    ensures skips { SkipsTrivia text.now result.now }
    ensures utf8 { IsUtf8 text.now }
{
    let mut rest = text.trim_start();
    while begins_with(rest, b';') {
        rest = after_line(&rest[1..]).trim_start();
    }
    rest
}

// What follows the line of a comment.
fn after_line(comment: &str) -> &str
    ensures passes { PassesTrivia (59 ∷ comment.now) result.now }
    ensures shorter { length result.now ≤ length comment.now }
{
    match comment.split_once('\n') {
        Some((_, after)) => after,
        None => &comment[comment.len()..],
    }
}

// The token at the front of a text that begins at the byte `at`, and what follows it.
fn first_token<'a>(text: &'a str, at: usize) -> (Token<'a>, &'a str)
    requires no_trivia { BeginsNoTrivia text.now }
    requires fits { at + length text.now < 2 ^ 64 }
    ensures { TakesToken text.now at (token_view result.0) result.1.now }
{
    let bytes = text.as_bytes();
    if bytes.is_empty() || bytes[0] == 0 {
        return cut_token(TokenKind::Eof, text, 0, at);
    }
    match bytes[0] {
        b'=' => equal_sign(text, at),
        b',' => cut_token(TokenKind::Comma, text, 1, at),
        b'"' => quoted_name(text, at),
        _ => word(text, at),
    }
}

// The token whose value is the first `len` bytes, and what follows them.
fn cut_token<'a>(kind: TokenKind, text: &'a str, len: usize, at: usize) -> (Token<'a>, &'a str)
    requires { IsCharBoundary text.now len }
    ensures token { token_view result.0
        ≡ record { kind = kind; value = take len text.now; at = at } }
    ensures after { result.1.now ≡ drop len text.now }
{
    let (value, after) = text.split_at(len);
    (Token { kind, value, at }, after)
}

// The token of the `=` or `==` at the front of the text.
fn equal_sign<'a>(text: &'a str, at: usize) -> (Token<'a>, &'a str)
    requires { begins is_equal_sign text.now ≡ true }
    ensures { TakesLexeme text.now at (token_view result.0) result.1.now }
{
    if begins_with(&text[1..], b'=') {
        cut_token(TokenKind::EqualEqual, text, 2, at)
    } else {
        cut_token(TokenKind::Equal, text, 1, at)
    }
}

// The token of the quoted name at the front of the text. An unclosed name, and one of white space
// alone, has an empty value, which begins after the first quote.
fn quoted_name<'a>(text: &'a str, at: usize) -> (Token<'a>, &'a str)
    requires quote { begins is_quote text.now ≡ true }
    requires fits { at + length text.now < 2 ^ 64 }
    ensures { TakesLexeme text.now at (token_view result.0) result.1.now }
{
    let inside = &text[1..];
    match inside.split_once('"') {
        Some((name, after)) => (name_token(name, at + 1), after),
        None => (empty_name(inside, at + 1), &inside[inside.len()..]),
    }
}

// The token of the text between two quotes, which begins at the byte `at`.
fn name_token(name: &str, at: usize) -> Token<'_>
    requires { at + length name.now < 2 ^ 64 }
    ensures { token_view result ≡ record {
      kind = TokenKind.Identifier;
      value = trim name.now;
      at = at + value_start name.now;
    } }
{
    let start = name.trim_start();
    let value = start.trim_end();
    if value.is_empty() {
        return empty_name(name, at);
    }
    Token {
        kind: TokenKind::Identifier,
        value,
        at: at + (name.len() - start.len()),
    }
}

// An empty name at the front of the text.
fn empty_name(text: &str, at: usize) -> Token<'_>
    ensures { token_view result ≡ record { kind = TokenKind.Identifier; value = []; at = at } }
{
    Token {
        kind: TokenKind::Identifier,
        value: &text[..0],
        at,
    }
}

// The token of the word at the front of the text.
fn word<'a>(text: &'a str, at: usize) -> (Token<'a>, &'a str)
    requires { StartsWord text.now }
    ensures { TakesLexeme text.now at (token_view result.0) result.1.now }
{
    let (run, after) = text.split_at(word_end(text.as_bytes(), 0));
    let value = run.trim_end();
    let kind = word_kind(value);
    (Token { kind, value, at }, after)
}

// The kind of a word; keywords are case-sensitive.
#[tactic(auto, unfolding(crate::specs::Text::Token::kind_of_word))]
fn word_kind(word: &str) -> TokenKind
    ensures { result ≡ kind_of_word word.now }
{
    match word {
        "BASE" => TokenKind::KwBase,
        "CONSTANT" => TokenKind::KwConstant,
        "DATA" => TokenKind::KwData,
        "EXPORTS" => TokenKind::KwExports,
        "HEAPSIZE" => TokenKind::KwHeapsize,
        "LIBRARY" => TokenKind::KwLibrary,
        "NAME" => TokenKind::KwName,
        "NONAME" => TokenKind::KwNoname,
        "PRIVATE" => TokenKind::KwPrivate,
        "STACKSIZE" => TokenKind::KwStacksize,
        "VERSION" => TokenKind::KwVersion,
        _ => TokenKind::Identifier,
    }
}
