//! Tokens with their offsets.

ghost use Rattle.implib_tests.specs.Using.Callers.{IsFirstExports};

use implib::def::lexer::{Lexer, TokenKind};

/// The offset in bytes of the first token `EXPORTS` of a text, or None where there is none: where
/// an editor would go.
pub fn first_exports(text: &str) -> Option<usize>
    ensures { IsFirstExports text.now result }
{
    for token in Lexer::new(text) {
        if token.kind == TokenKind::KwExports {
            return Some(token.at);
        }
    }
    None
}
