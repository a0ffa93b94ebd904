//! The symbols that a short import declares, of ARM64EC and of other machines.

ghost use Rattle.std.specs.Prelude.{◌≡◌, ◌++◌, ◌∷◌, ◌≤◌, [], length, map, IfOk, IfSome, OnOk};
ghost use Rattle.implib.specs.Import.{imp_symbol, import_symbols};
ghost use Rattle.implib_read.specs.Arm64ec.{arm64ec_symbols, auxiliary_symbol, inner_mark_in};
ghost use Rattle.implib_read.specs.Arm64ec.{unmarked, without_inner};
ghost use Rattle.implib_read.specs.ShortImports.{declared_by_short_import, short_import_view};

use crate::fields::behind;
use crate::names::begins_with_byte;
use crate::short_import::ShortImport;
use std::alloc::{AllocError, Global};

/// The machine of code for ARM64 that calls code for AMD64.
pub(crate) const ARM64EC: u16 = 0xA641;

/// Where the first `$$h` of a text begins.
fn inner_mark_in(text: &[u8]) -> Option<usize>
    ensures found { result ≡ inner_mark_in text.now }
    ensures within { IfSome result (λ place. place ≤ length text.now) }
{
    let mut rest = text;
    let mut place = 0usize;
    while let [_, after @ ..] = rest {
        if rest.starts_with(b"$$h") {
            return Some(place);
        }
        place += 1;
        rest = after;
    }
    None
}

/// The two parts of a name of C++ around its first `$$h`, or the name and nothing.
fn without_inner(name: &[u8]) -> (&[u8], &[u8])
    ensures { result.0.now ++ result.1.now ≡ without_inner name.now (inner_mark_in name.now) }
{
    let Some(place) = inner_mark_in(name) else {
        return (name, b"");
    };
    let after = behind(name, place + 3);
    if after.is_empty() {
        (name, b"")
    } else {
        (&name[..place], after)
    }
}

/// The two parts of a text without its mark; of one that has none at its front, the second may be
/// empty.
fn unmarked(text: &[u8]) -> (&[u8], &[u8])
    ensures { result.0.now ++ result.1.now ≡ unmarked text.now }
{
    if begins_with_byte(b'#', text) {
        return (behind(text, 1), b"");
    }
    if begins_with_byte(b'?', text) {
        return without_inner(text);
    }
    (text, b"")
}

/// Adds a symbol: a prefix, and the two parts of a name.
fn push_symbol(
    alloc: Global,
    symbols: &mut Vec<Vec<u8>>,
    prefix: &[u8],
    name: (&[u8], &[u8]),
) -> Result<(), AllocError>
    ensures { OnOk result (map (λ s. s.items) symbols.new.items
        ≡ map (λ s. s.items) symbols.old.items
        ++ (prefix.now ++ (name.entry.0.now ++ name.entry.1.now)) ∷ []) }
{
    let mut symbol = Vec::new(alloc);
    symbol.extend_from_slice(prefix)?;
    symbol.extend_from_slice(name.0)?;
    symbol.extend_from_slice(name.1)?;
    symbols.push(symbol)?;
    Ok(())
}

/// Adds the symbols of an address, of a name, and of the address in the auxiliary table.
fn push_three(
    alloc: Global,
    symbols: &mut Vec<Vec<u8>>,
    name: (&[u8], &[u8]),
) -> Result<(), AllocError>
    ensures { OnOk result (map (λ s. s.items) symbols.new.items
        ≡ map (λ s. s.items) symbols.old.items
        ++ imp_symbol (name.entry.0.now ++ name.entry.1.now)
        ∷ (name.entry.0.now ++ name.entry.1.now)
        ∷ auxiliary_symbol (name.entry.0.now ++ name.entry.1.now) ∷ []) }
{
    push_symbol(alloc, symbols, b"__imp_", name)?;
    push_symbol(alloc, symbols, b"", name)?;
    push_symbol(alloc, symbols, b"__imp_aux_", name)?;
    Ok(())
}

/// The symbols of a short import of ARM64EC, of a type.
pub(crate) fn arm64ec_symbols(
    alloc: Global,
    import_type: u16,
    text: &[u8],
) -> Result<Vec<Vec<u8>>, AllocError>
    ensures { IfOk result (λ v. map (λ s. s.items) v.items ≡ arm64ec_symbols import_type text.now) }
{
    let mut symbols = Vec::new(alloc);
    let name = unmarked(text);
    if import_type == 1 {
        push_symbol(alloc, &mut symbols, b"__imp_", name)?;
        return Ok(symbols);
    }
    push_three(alloc, &mut symbols, name)?;
    if name.0.len() + name.1.len() == text.len() {
        return Ok(symbols);
    }
    push_symbol(alloc, &mut symbols, b"", (text, b""))?;
    Ok(symbols)
}

/// The symbols of a short import of another machine.
fn import_symbols(alloc: Global, is_data: bool, name: &[u8]) -> Result<Vec<Vec<u8>>, AllocError>
    ensures { IfOk result (λ v. map (λ s. s.items) v.items ≡ import_symbols is_data name.now) }
{
    let mut symbols = Vec::new(alloc);
    push_symbol(alloc, &mut symbols, b"__imp_", (name, b""))?;
    if is_data {
        return Ok(symbols);
    }
    push_symbol(alloc, &mut symbols, b"", (name, b""))?;
    Ok(symbols)
}

/// The symbols that a short import declares.
pub(crate) fn declared_by_short_import(
    alloc: Global,
    import: &ShortImport,
) -> Result<Vec<Vec<u8>>, AllocError>
    ensures { IfOk result (λ v. map (λ s. s.items) v.items
        ≡ declared_by_short_import (short_import_view import.now).fields) }
{
    if import.machine == ARM64EC {
        arm64ec_symbols(alloc, import.import_type, import.symbol)
    } else {
        import_symbols(alloc, import.import_type == 1, import.symbol)
    }
}
