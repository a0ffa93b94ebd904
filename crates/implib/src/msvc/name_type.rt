//! What a name type of a short import makes of its symbol (PE/COFF specification, "Import Name
//! Type"; docs/FORMATS.md, "Short imports").

ghost use Rattle.implib.specs.Ascii.{at_sign};
ghost use Rattle.implib.specs.Formats.ShortImport.{asked_by_name_type, before_at_sign};
ghost use Rattle.implib.specs.Formats.ShortImport.{without_prefix};
ghost use Rattle.std.specs.List.{position};
ghost use Rattle.std.specs.Prelude.{◌==◌, ◌≡◌};

use crate::coff::constants::import_name_type::{IMPORT_NAME, IMPORT_NAME_NOPREFIX};

/// The name that a short import with this name type and symbol asks for: 1 is the symbol itself, 2
/// the symbol without its prefix, and any other type that without its end, too. Types 0 and 4 ask
/// for no name that is made of the symbol.
pub fn asked_by_name_type(name_type: u16, symbol: &[u8]) -> &[u8]
    ensures { result.now ≡ asked_by_name_type name_type symbol.now }
{
    match name_type {
        IMPORT_NAME => symbol,
        IMPORT_NAME_NOPREFIX => without_prefix(symbol),
        _ => before_at_sign(without_prefix(symbol)),
    }
}

/// The symbol without its first byte, where that is `?`, `@` or `_`.
pub fn without_prefix(symbol: &[u8]) -> &[u8]
    ensures { result.now ≡ without_prefix symbol.now }
{
    match symbol {
        [b'?' | b'@' | b'_', rest @ ..] => rest,
        _ => symbol,
    }
}

/// The symbol up to its first `@`; all of it where it has none.
#[tactic(auto, using(crate::proofs::Members::AskedName::take_to_position))]
pub fn before_at_sign(symbol: &[u8]) -> &[u8]
    ensures { result.now ≡ before_at_sign symbol.now }
{
    match position_of_at_sign(symbol) {
        Some(end) => &symbol[..end],
        None => symbol,
    }
}

// The position of the first `@` of a symbol.
fn position_of_at_sign(symbol: &[u8]) -> Option<usize>
    ensures { result ≡ position (λ byte. byte == at_sign) symbol.now }
{
    symbol.iter().position(|byte| *byte == b'@')
}
