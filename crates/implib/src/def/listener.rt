//! Who hears the tokens of a text while a parser reads it.

ghost use Rattle.implib.specs.Text.Heard.{Heard};
ghost use Rattle.implib.specs.Text.Token.{token_view};
ghost use Rattle.std.specs.Prelude.{[], ◌++◌, ◌∷◌, List};

use crate::def::lexer::Token;

/// What a token is in the statements of a text.
#[derive(Clone, Copy, Debug, PartialEq, Eq)]
pub enum Role {
    /// The name of an export: its first word.
    Name,
    /// Any other part of a statement.
    Other,
}

/// Who hears the tokens of a text, one after another, from a parser that takes them.
pub trait Listener {
    // What holds of a listener, first as it was at its start, then as it is once it has heard these
    // tokens in these roles.
    ghost has_heard: { Self → Self → List Heard → Type 0 };

    /// Hears the next token, and its role.
    fn hear(&mut self, role: Role, token: Token<'_>)
        ensures { (start : Self) (heard : List Heard) → has_heard start self.old heard
            → has_heard start self.new
            (heard ++ (record { role = role; token = token_view token.entry }) ∷ []) };
}

/// A listener that does nothing.
#[derive(Clone, Copy, Debug, PartialEq, Eq)]
pub struct Silent;

impl Listener for Silent {
    ghost has_heard = { λ _ _ _. Unit {0} };

    #[inline]
    fn hear(&mut self, _role: Role, _token: Token<'_>) {}
}
