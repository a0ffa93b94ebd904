//! The symbol by which an import is linked.

ghost use Rattle.std.specs.List.{find};
ghost use Rattle.std.specs.Option.{option_map};
ghost use Rattle.std.specs.Prelude.{◌≡◌, ◌++◌, IfSome, None, map, true};
ghost use Rattle.implib_read.specs.ImportViews.{declared_view};
ghost use Rattle.implib_read.specs.Symbols.{begins_imp, linked_by, linked_symbol, without_imp};

use crate::import::DeclaredFound;

/// A symbol without the prefix `__imp_` of addresses.
pub fn without_imp(symbol: &[u8]) -> &[u8]
    ensures { result.now ≡ without_imp symbol.now }
{
    match symbol.strip_prefix(b"__imp_".as_slice()) {
        Some(rest) => rest,
        None => symbol,
    }
}

/// Whether a symbol begins with `__imp_`.
pub fn begins_imp(symbol: &[u8]) -> bool
    ensures { result ≡ begins_imp symbol.now }
{
    symbol.starts_with(b"__imp_")
}

/// The first of some symbols that begins with `__imp_`.
fn first_address<'a>(symbols: &[&'a [u8]]) -> Option<&'a [u8]>
    ensures found { option_map (λ symbol. symbol.now) result
        ≡ find begins_imp (map (λ symbol. symbol.now) symbols.now) }
    ensures begins { IfSome result (λ symbol. begins_imp symbol.now ≡ true) }
{
    for symbol in symbols {
        if begins_imp(symbol) {
            return Some(*symbol);
        }
    }
    None
}

/// The first of some symbols, and then of others; empty where there is none.
fn first_of<'a>(symbols: &[&'a [u8]], others: &[&'a [u8]]) -> &'a [u8]
    ensures { result.now ≡ linked_by None (map (λ symbol. symbol.now) symbols.now
        ++ map (λ symbol. symbol.now) others.now) }
{
    match symbols.first() {
        Some(symbol) => symbol,
        None => match others.first() {
            Some(symbol) => symbol,
            None => b"",
        },
    }
}

/// The first of some symbols that begins with `__imp_`, of symbols that are held.
fn first_held(symbols: &[Vec<u8>]) -> Option<&[u8]>
    ensures found { option_map (λ symbol. symbol.now) result
        ≡ find begins_imp (map (λ symbol. symbol.items) symbols.now) }
    ensures begins { IfSome result (λ symbol. begins_imp symbol.now ≡ true) }
{
    for symbol in symbols {
        if begins_imp(symbol) {
            return Some(symbol.as_slice());
        }
    }
    None
}

/// The symbol of an address without its prefix; where none is one, the first of some symbols that
/// are held.
fn linked_held(symbols: &[Vec<u8>]) -> &[u8]
    ensures { result.now ≡ linked_symbol (map (λ symbol. symbol.items) symbols.now) }
{
    match first_held(symbols) {
        Some(address) => without_imp(address),
        None => match symbols.first() {
            Some(symbol) => symbol.as_slice(),
            None => b"",
        },
    }
}

/// The symbol by which an import is linked: the first with `__imp_`, which is that of its address,
/// without that; where none has it, the first.
#[tactic(auto, using(crate::proofs::Symbols::find_both, crate::proofs::Symbols::named))]
pub fn linked_symbol<'d, 'a: 'd>(declared: &'d DeclaredFound<'a>) -> &'d [u8]
    ensures { result.now ≡ linked_symbol (declared_view declared.now) }
{
    match declared {
        DeclaredFound::OfName(name, _) => name,
        DeclaredFound::OfArm64ec(symbols) => linked_held(symbols),
        DeclaredFound::OfObject(addresses, code) => match first_address(addresses) {
            Some(address) => without_imp(address),
            None => match first_address(code) {
                Some(address) => without_imp(address),
                None => first_of(addresses, code),
            },
        },
    }
}
