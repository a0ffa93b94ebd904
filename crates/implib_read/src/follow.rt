//! Where relocated fields lead.

ghost use Rattle.std.specs.Prelude.{◌≡◌, ℕ, ◌+◌, ◌<◌, ◌==◌, ◌^◌, length, drop, map, bytes_eq};
ghost use Rattle.std.specs.Prelude.{IfSome, slice_get};
ghost use Rattle.std.specs.List.{find};
ghost use Rattle.std.specs.Option.{option_and_then, option_map};
ghost use Rattle.implib.specs.Formats.File.{is_defined_external};
ghost use Rattle.implib.specs.Formats.Object.{section_numbered};
ghost use Rattle.implib.specs.Members.GnuReader.{section_named, symbol_at, symbol_in};
ghost use Rattle.implib_read.specs.Following.{begin_of, further, only_in, pointed, pointed_by};
ghost use Rattle.implib_read.specs.Following.{relocation_of_field, resolved, spot_of, text_at};
ghost use Rattle.implib_read.specs.FollowingViews.{place_view, places_of, spot_view};
ghost use Rattle.implib_read.specs.Objects.{relocations_of};
ghost use Rattle.implib_read.specs.ObjectViews.{entry_view, object_view, section_view, symbol_view};

use crate::fields::{behind, bytes_at, u32_at};
use crate::names::is_text;
use crate::object::{Entry, Object, Section, Symbol, relocation_of};
use implib::coff::object::Relocation;
use std::collections::HashMap;

/// A symbol, and the object that it is of.
#[derive(Clone, Copy)]
pub(crate) struct PlaceFound<'o, 'a> {
    pub object: &'o Object<'a>,
    pub symbol: Symbol<'a>,
}

/// An offset in a section of an object.
#[derive(Clone, Copy)]
pub(crate) struct SpotFound<'o, 'a> {
    pub object: &'o Object<'a>,
    pub section: Section<'a>,
    pub offset: usize,
}

/// Where the externals of a library are defined, by their names.
pub(crate) type Definers<'o, 'a> = HashMap<&'a [u8], PlaceFound<'o, 'a>>;

/// The first section of a name.
fn first_named<'a>(sections: &[Section<'a>], name: &[u8]) -> Option<Section<'a>>
    ensures { option_map section_view result ≡ find (λ s. bytes_eq s.name name.now)
        (map section_view sections.now) }
{
    for section in sections {
        if is_text(section.name, name) {
            return Some(*section);
        }
    }
    None
}

/// The first section of a name.
pub(crate) fn section_named<'a>(object: &Object<'a>, name: &[u8]) -> Option<Section<'a>>
    ensures { option_map section_view result ≡ section_named (object_view object.now) name.now }
{
    first_named(&object.sections, name)
}

/// The section of an index.
fn section_of_index<'a>(sections: &[Section<'a>], index: usize) -> Option<Section<'a>>
    ensures { option_map section_view result ≡ slice_get (map section_view sections.now) index }
{
    match sections.get(index) {
        Some(section) => Some(*section),
        None => None,
    }
}

/// The section of a number, counted from 1.
pub(crate) fn section_numbered<'a>(sections: &[Section<'a>], number: u16) -> Option<Section<'a>>
    ensures { option_map section_view result ≡ section_numbered (map section_view sections.now)
        number }
{
    if number == 0 {
        None
    } else {
        section_of_index(sections, number as usize - 1)
    }
}

/// The symbol of an index.
fn symbol_of_index<'a>(entries: &[Entry<'a>], index: u32) -> Option<Symbol<'a>>
    ensures { option_map symbol_view result ≡ option_and_then symbol_in
        (slice_get (map entry_view entries.now) index) }
{
    let Some(entry) = entries.get(index as usize) else {
        return None;
    };
    match entry {
        Entry::Symbol(symbol) => Some(*symbol),
        Entry::Auxiliary(_) => None,
    }
}

/// The symbol of an index, auxiliary records counted.
pub(crate) fn symbol_at<'a>(object: &Object<'a>, index: u32) -> Option<Symbol<'a>>
    ensures { option_map symbol_view result ≡ symbol_at (object_view object.now) index }
{
    symbol_of_index(&object.entries, index)
}

/// The relocation of the field at an offset, among records.
fn relocation_among(offset: usize, records: &[u8]) -> Option<Relocation>
    ensures { result ≡ find (λ r. r.offset == offset) (relocations_of records.now) }
{
    let mut rest = records;
    while rest.len() >= 10 {
        let relocation = relocation_of(&rest[..10]);
        if relocation.offset as usize == offset {
            return Some(relocation);
        }
        rest = behind(rest, 10);
    }
    None
}

/// The relocation of the field at an offset.
pub(crate) fn relocation_of_field(offset: usize, section: &Section) -> Option<Relocation>
    ensures { result ≡ relocation_of_field offset (section_view section.now) }
{
    relocation_among(offset, section.relocations)
}

/// Whether a symbol is an external that its object defines.
pub(crate) fn is_defined_external(symbol: &Symbol) -> bool
    ensures { result ≡ is_defined_external (symbol_view symbol.now) }
{
    symbol.class == 2 && 1 <= symbol.section && symbol.section <= 0x7FFF
}

/// Where a name is defined.
pub(crate) fn defined<'o, 'a>(
    definers: &Definers<'o, 'a>,
    name: &[u8],
) -> Option<PlaceFound<'o, 'a>>
    ensures { option_map place_view result ≡ places_of definers.now name.now }
{
    definers.get(&name).copied()
}

/// Where a symbol of an object is.
fn resolved<'o, 'a>(
    definers: &Definers<'o, 'a>,
    object: &'o Object<'a>,
    symbol: Symbol<'a>,
) -> Option<PlaceFound<'o, 'a>>
    ensures { option_map place_view result ≡ resolved (places_of definers.now)
        (object_view object.now) (symbol_view symbol.entry) }
{
    if symbol.section == 0 {
        defined(definers, symbol.name)
    } else {
        Some(PlaceFound { object, symbol })
    }
}

/// The spot of a place, an addend further.
pub(crate) fn spot_of<'o, 'a>(addend: u32, place: PlaceFound<'o, 'a>) -> Option<SpotFound<'o, 'a>>
    ensures found { option_map spot_view result ≡ spot_of addend (place_view place.entry) }
    ensures small { IfSome result (λ spot. spot.offset < 2 ^ 32) }
{
    let Some(section) = section_numbered(&place.object.sections, place.symbol.section) else {
        return None;
    };
    let offset = place.symbol.value.wrapping_add(addend) as usize;
    Some(SpotFound {
        object: place.object,
        section,
        offset,
    })
}

/// Where a relocation leads a field.
#[tactic(auto, unfolding(crate::specs::Following::pointed_by))]
pub(crate) fn pointed_by<'o, 'a>(
    definers: &Definers<'o, 'a>,
    at: SpotFound<'o, 'a>,
    relocation: Relocation,
) -> Option<SpotFound<'o, 'a>>
    ensures found { option_map spot_view result ≡ pointed_by (places_of definers.now)
        (spot_view at.entry) relocation }
    ensures small { IfSome result (λ spot. spot.offset < 2 ^ 32) }
{
    let Some(field) = bytes_at(at.section.bytes, at.offset, 4) else {
        return None;
    };
    let Some(symbol) = symbol_at(at.object, relocation.symbol) else {
        return None;
    };
    let Some(place) = resolved(definers, at.object, symbol) else {
        return None;
    };
    spot_of(u32_at(field, 0), place)
}

/// Where the field at a spot leads.
#[tactic(auto, unfolding(crate::specs::Following::pointed))]
pub(crate) fn pointed<'o, 'a>(
    definers: &Definers<'o, 'a>,
    at: SpotFound<'o, 'a>,
) -> Option<SpotFound<'o, 'a>>
    ensures found { option_map spot_view result ≡ pointed (places_of definers.now)
        (spot_view at.entry) }
    ensures small { IfSome result (λ spot. spot.offset < 2 ^ 32) }
{
    match relocation_of_field(at.offset, &at.section) {
        Some(relocation) => pointed_by(definers, at, relocation),
        None => None,
    }
}

impl<'a> Object<'a> {
    /// The symbol of an index, auxiliary records counted.
    pub fn symbol(&self, index: u32) -> Option<Symbol<'a>>
        ensures { option_map symbol_view result ≡ symbol_at (object_view self.now) index }
    {
        symbol_at(self, index)
    }
}
