//! The alias that an object makes.

ghost use Rattle.std.specs.Prelude.{◌≡◌, ℕ, [], ◌∷◌, None, map, drop, slice_get, MatchOption};
ghost use Rattle.std.specs.Option.{is_some, option_and_then, option_map};
ghost use Rattle.implib.specs.Formats.File.{alias_of_object, name_at, only_alias, tag_index};
ghost use Rattle.implib.specs.Formats.File.{weak_symbols};
ghost use Rattle.implib.specs.Formats.Object.{u32_at};
ghost use Rattle.implib_read.specs.AliasViews.{alias_view};
ghost use Rattle.implib_read.specs.Aliases.{weak_symbol};
ghost use Rattle.implib_read.specs.ObjectViews.{entry_view, object_view, symbol_view};

use crate::fields::u32_at;
use crate::object::{Entry, Object, Symbol};

/// An alias: a symbol that another one replaces where nothing defines it.
#[derive(Clone, Copy)]
pub struct AliasFound<'a> {
    pub weak: &'a [u8],
    pub target: &'a [u8],
}

/// The weak external that an entry is.
fn weak_symbol<'a>(entry: &Entry<'a>) -> Option<Symbol<'a>>
    ensures { option_map symbol_view result ≡ weak_symbol (entry_view entry.now) }
{
    match entry {
        Entry::Symbol(symbol) => {
            if symbol.class == 105 {
                Some(*symbol)
            } else {
                None
            }
        }
        Entry::Auxiliary(_) => None,
    }
}

/// The first weak external, and the entries after it.
fn first_weak<'e, 'a>(entries: &'e [Entry<'a>]) -> Option<(Symbol<'a>, &'e [Entry<'a>])>
    ensures { MatchOption result (weak_symbols (map entry_view entries.now) ≡ [])
        (λ found. weak_symbols (map entry_view entries.now)
        ≡ (found.0.name.now, tag_index (map entry_view found.1.now))
        ∷ weak_symbols (map entry_view found.1.now)) }
{
    for i in 0..entries.len() {
        let Some(symbol) = weak_symbol(&entries[i]) else {
            continue;
        };
        return Some((symbol, &entries[i + 1..]));
    }
    None
}

/// The tag index in an auxiliary record, as far as that goes.
#[tactic(auto, unfolding(implib::specs::Formats::Object::u32_at))]
fn tag_of(record_bytes: &[u8]) -> u32
    ensures { result ≡ u32_at record_bytes.now 0 }
{
    match record_bytes {
        [a, b, c, d, ..] => u32::from_le_bytes([*a, *b, *c, *d]),
        [a, b, c] => u32::from_le_bytes([*a, *b, *c, 0]),
        [a, b] => u32::from_le_bytes([*a, *b, 0, 0]),
        [a] => u32::from_le_bytes([*a, 0, 0, 0]),
        [] => 0,
    }
}

/// The tag index of the weak external before these entries.
fn tag_index(entries: &[Entry]) -> Option<u32>
    ensures { result ≡ tag_index (map entry_view entries.now) }
{
    if entries.len() == 0 {
        return None;
    }
    match &entries[0] {
        Entry::Auxiliary(record_bytes) => Some(tag_of(record_bytes)),
        Entry::Symbol(_) => None,
    }
}

/// The name of the symbol of an index.
fn name_at<'a>(entries: &[Entry<'a>], index: u32) -> Option<&'a [u8]>
    ensures { option_map (λ name. name.now) result ≡ name_at (map entry_view entries.now) index }
{
    let Some(entry) = entries.get(index as usize) else {
        return None;
    };
    match entry {
        Entry::Symbol(symbol) => Some(symbol.name),
        Entry::Auxiliary(_) => None,
    }
}

/// The alias that entries make.
fn alias_among<'a>(entries: &[Entry<'a>]) -> Option<AliasFound<'a>>
    ensures { option_map alias_view result ≡ only_alias (map entry_view entries.now)
        (weak_symbols (map entry_view entries.now)) }
{
    let Some((weak, behind)) = first_weak(entries) else {
        return None;
    };
    let Some(index) = tag_index(behind) else {
        return None;
    };
    if first_weak(behind).is_some() {
        return None;
    }
    match name_at(entries, index) {
        Some(target) => Some(AliasFound {
            weak: weak.name,
            target,
        }),
        None => None,
    }
}

/// The alias that an object makes, where exactly one of its symbols is a weak external.
pub(crate) fn alias_of_object<'a>(object: &Object<'a>) -> Option<AliasFound<'a>>
    ensures { option_map alias_view result ≡ alias_of_object (object_view object.now) }
{
    alias_among(&object.entries)
}
