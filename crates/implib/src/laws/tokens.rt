//! Laws of the tokens of a text.

ghost use Rattle.implib.specs.Text.Token.{DividesOnce, EndsInEof, IsKnown, IsSliceOf, Lexed};
ghost use Rattle.implib.specs.Text.Token.{LexedOnce, TokenView};
ghost use Rattle.implib.specs.Worked.Tokens.{WorkedTokens};
ghost use Rattle.std.specs.List.{AllByRecursion};
ghost use Rattle.std.specs.Prelude.{List};

/// A text divides into lexemes in one way.
pub fn one_division(text: &str)
    ensures { DividesOnce text.now }
{}

/// A text has one list of tokens.
pub fn one_token_list(text: &str)
    ensures { LexedOnce text.now }
{}

/// `Eof` comes once, as the last token.
pub fn eof_once(text: &str)
    ensures { (tokens : List TokenView) → Lexed text.now tokens → EndsInEof tokens }
{}

/// No token is of the kind `Unknown`.
pub fn kinds_are_known(text: &str)
    ensures { (tokens : List TokenView) → Lexed text.now tokens → AllByRecursion IsKnown tokens }
{}

/// A token's value is cut from the text, from the token's offset on.
pub fn values_are_slices(text: &str)
    ensures { (tokens : List TokenView) → Lexed text.now tokens →
        AllByRecursion (IsSliceOf text.now) tokens }
{}

/// Texts that were worked by hand have these tokens.
pub fn worked_tokens()
    ensures { WorkedTokens }
{}
