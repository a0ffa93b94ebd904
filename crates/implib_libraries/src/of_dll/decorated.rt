//! The exports of a DLL with the symbols that a file has for their names.

ghost use Rattle.implib.specs.Definition.{export_view};
ghost use Rattle.implib_dll.specs.Views.{exports_view, name_view};
ghost use Rattle.implib_libraries.specs.OfDll.Decorated.{decorated_export, decorates, is_bare_name};
ghost use Rattle.implib_libraries.specs.OfDll.Decorated.{is_count, is_decorated, is_exported};
ghost use Rattle.implib_libraries.specs.OfDll.Decorated.{is_missing, has_symbol, symbol_for};
ghost use Rattle.implib_libraries.specs.OfDll.Decorated.{with_symbols, with_word, word_naming};
ghost use Rattle.implib_libraries.specs.OfDll.Decorations.{decoration_view};
ghost use Rattle.implib_rules.specs.Linked.{naming_view};
ghost use Rattle.std.specs.Char.{is_ascii_digit};
ghost use Rattle.std.specs.List.{list_all};
ghost use Rattle.std.specs.Option.{option_map};
ghost use Rattle.std.specs.Prelude.{◌≡◌, IfSome, OnOk, Some, count_by, map, true};
ghost use Rattle.std.specs.Str.{IsUtf8};

use super::decorations::Decoration;
use implib::def::ShortExport;
use implib_dll::{Exports, Name};
use implib_rules::linked::Naming;
use std::alloc::{AllocError, Global};

// Whether all bytes are digits.
fn are_digits(text: &[u8]) -> bool
    ensures { result ≡ list_all is_ascii_digit text.now }
{
    text.iter().all(|b| b.is_ascii_digit())
}

// Whether a text is an `@` and digits.
fn is_count(text: &[u8]) -> bool
    ensures { result ≡ is_count text.now }
{
    match text {
        [b'@', digits @ ..] => !digits.is_empty() && are_digits(digits),
        _ => false,
    }
}

// Whether a name has no decoration of its own.
fn is_bare_name(name: &[u8]) -> bool
    ensures { result ≡ is_bare_name name.now }
{
    !name.is_empty() && !name.contains(&b'@') && name.first() != Some(&b'?')
}

// Whether a symbol is that of a function of this name and counts the bytes of its arguments.
fn is_decorated(name: &[u8], symbol: &[u8]) -> bool
    ensures { result ≡ is_decorated name.now symbol.now }
{
    match symbol {
        [b'_' | b'@', rest @ ..] => {
            is_bare_name(name) && rest.starts_with(name) && is_count(&rest[name.len()..])
        }
        _ => false,
    }
}

// Whether this is a decorated symbol of a name.
fn decorates(name: &[u8], decoration: &Decoration) -> bool
    ensures { result ≡ decorates name.now (decoration_view decoration.now) }
{
    decoration.name.as_slice() == name && is_decorated(name, decoration.symbol.as_slice())
}

// The first decorated symbol of a name.
fn symbol_for<'a>(decorations: &'a [Decoration], name: &[u8]) -> Option<&'a [u8]>
    ensures found { option_map (λ symbol. symbol.now) result
        ≡ symbol_for (map decoration_view decorations.now) name.now }
    ensures decorated { IfSome result (λ symbol. is_decorated name.now symbol.now ≡ true) }
{
    for decoration in decorations {
        if decorates(name, decoration) {
            return Some(decoration.symbol.as_slice());
        }
    }
    None
}

// The word of a definition that names a decorated symbol.
fn word_naming(naming: Naming, symbol: &[u8]) -> &[u8]
    ensures { result.now ≡ word_naming (naming_view naming) symbol.now }
{
    if symbol.first() == Some(&b'_') && !(naming.is_plain || naming.keeps_decorated) {
        return &symbol[1..];
    }
    symbol
}

// Whether one of these names is a word.
fn is_exported(names: &[Name<'_>], word: &[u8]) -> bool
    ensures { result ≡ is_exported (map name_view names.now) word.now }
{
    for name in names {
        if name.text == word {
            return true;
        }
    }
    false
}

// Gives an export a word, unless the DLL exports that.
fn give_word(
    alloc: Global,
    names: &[Name<'_>],
    word: &[u8],
    export: &mut ShortExport,
) -> Result<(), AllocError>
    requires { IsUtf8 word.now }
    ensures { OnOk result (export_view export.new
        ≡ with_word (map name_view names.now) (export_view export.old) (Some word.now)) }
{
    if is_exported(names, word) {
        return Ok(());
    }
    let Ok(text) = str::from_utf8(word) else {
        return Ok(());
    };
    let target = export.name.clone()?;
    export.name = String::from_str(alloc, text)?;
    export.alias_target = target;
    Ok(())
}

// Gives an export the symbol of its name, if there is one.
fn decorate_export(
    alloc: Global,
    naming: Naming,
    decorations: &[Decoration],
    names: &[Name<'_>],
    export: &mut ShortExport,
) -> Result<(), AllocError>
    ensures { OnOk result (export_view export.new ≡ decorated_export (naming_view naming)
        (map decoration_view decorations.now) (map name_view names.now) (export_view export.old)) }
{
    if export.no_name || export.is_data {
        return Ok(());
    }
    match symbol_for(decorations, export.name.as_bytes()) {
        Some(symbol) => give_word(alloc, names, word_naming(naming, symbol), export),
        None => Ok(()),
    }
}

/// Gives each export of a DLL the symbol that a file has for its name, if there is one: the first
/// that is decorated. It asks for its name as before. Data, and what has no name, stay; so does an
/// export where the DLL exports what would name the symbol.
///
/// # Errors
///
/// An allocation failed; then some exports may be as they were.
pub fn decorate(
    alloc: Global,
    naming: Naming,
    decorations: &[Decoration],
    exports: &Exports<'_>,
    list: &mut Vec<ShortExport>,
) -> Result<(), AllocError>
    ensures { OnOk result (map export_view list.new.items ≡ with_symbols (naming_view naming)
        (map decoration_view decorations.now) (exports_view exports.now).names
        (map export_view list.old.items)) }
{
    for export in list.iter_mut() {
        decorate_export(alloc, naming, decorations, exports.names.as_slice(), export)?;
    }
    Ok(())
}

// Whether a file has a symbol of a name.
fn has_symbol(decorations: &[Decoration], name: &[u8]) -> bool
    ensures { result ≡ has_symbol (map decoration_view decorations.now) name.now }
{
    for decoration in decorations {
        if decoration.name.as_slice() == name {
            return true;
        }
    }
    false
}

// Whether an export is a function by name that a file lacks.
fn is_missing(decorations: &[Decoration], export: &ShortExport) -> bool
    ensures { result ≡ is_missing (map decoration_view decorations.now) (export_view export.now) }
{
    !(export.no_name || export.is_data) && !has_symbol(decorations, export.name.as_bytes())
}

/// How many of the exports are functions by name that a file lacks.
pub fn count_missing(decorations: &[Decoration], exports: &[ShortExport]) -> usize
    ensures { result ≡ count_by (is_missing (map decoration_view decorations.now))
        (map export_view exports.now) }
{
    let mut count = 0;
    for export in exports {
        if is_missing(decorations, export) {
            count += 1;
        }
    }
    count
}
