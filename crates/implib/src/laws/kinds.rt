//! What `==` and `default` give for machines and for kinds of tokens.

ghost use Rattle.implib.specs.Conversions.{ConversionsReturn};
ghost use Rattle.std.specs.Prelude.{◌↔◌, ◌≡◌, IsTrue};

use crate::def::lexer::TokenKind;
use crate::machine::MachineType;

/// Machines are equal by `==` exactly where they are the same.
pub fn machines_are_compared(first: MachineType, second: MachineType) -> bool
    ensures { IsTrue result ↔ (first ≡ second) }
{
    first == second
}

/// Kinds of tokens are equal by `==` exactly where they are the same.
pub fn kinds_are_compared(first: TokenKind, second: TokenKind) -> bool
    ensures { IsTrue result ↔ (first ≡ second) }
{
    first == second
}

/// The default kind is the one that no token has.
pub fn default_kind() -> TokenKind
    ensures { result ≡ TokenKind.Unknown }
{
    TokenKind::default()
}

/// Each name and each number of a machine leads back to it, and so does each name of a flavour.
pub fn conversions_return()
    ensures { ConversionsReturn }
{}
