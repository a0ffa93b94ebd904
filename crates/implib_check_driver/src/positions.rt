//! Where the exports of a definition are in its text.

ghost use Rattle.std.specs.HashMap.{get_by_text};
ghost use Rattle.std.specs.Option.{option_and_then, option_or};
ghost use Rattle.std.specs.Prelude.{◌≡◌, ◌⊎◌, ℕ, IfNone, IfOk, IfSome, List, None, OnOk, Some};
ghost use Rattle.std.specs.Prelude.{bytes_eq, if◌then◌else◌, map, slice_get};
ghost use Rattle.std.specs.Str.{IsUtf8};
ghost use Rattle.std.specs.String.{string_bytes};
ghost use Rattle.implib.specs.Definition.{definition_view, export_view};
ghost use Rattle.implib_check_driver.specs.Positions.{ArePositionsOf, HasNoPositions};
ghost use Rattle.implib_check_driver.specs.Positions.{IsMeaningless, IsPlaceless, position_from};
ghost use Rattle.implib_check_driver.specs.Positions.{position_if, symbol_behind};
ghost use Rattle.implib_rules.specs.Library.{DefinitionFor, definition_text};
ghost use Rattle.implib_rules.specs.Options.{library_options_view};
ghost use Rattle.implib_rules.specs.Places.{ArePlacesOf, export_positions};

use implib::ParseError;
use implib::def::{ModuleDef, Position, ShortExport};
use implib_rules::library::{Refusal, definition_for};
use implib_rules::options::LibraryOptions;
use implib_rules::places::{Place, Site, read_with_places};
use implib_rules::text::DefinitionText;
use std::alloc::{AllocError, Global};
use std::collections::HashMap;

/// Where the export of each symbol is.
#[derive(Drop)]
pub struct Positions {
    by_symbol: HashMap<String, Position>,
}

// Notes the position of a symbol, unless it has one.
fn note_symbol(
    by_symbol: &mut HashMap<String, Position>,
    symbol: &String,
    position: Position,
) -> Result<(), AllocError>
    ensures { OnOk result ((other : List ℕ) → get_by_text by_symbol.new other
        ≡ option_or (get_by_text by_symbol.old other)
        (if bytes_eq (string_bytes symbol.now) other then Some position else None)) }
{
    if !by_symbol.contains_key(symbol.as_str()) {
        by_symbol.insert(symbol.clone()?, position)?;
    }
    Ok(())
}

// Notes the position of an export, if there is one, unless it declares nothing, or its symbol has
// one.
fn note(
    by_symbol: &mut HashMap<String, Position>,
    export: &ShortExport,
    position: Option<Position>,
) -> Result<(), AllocError>
    ensures { OnOk result ((symbol : List ℕ) → get_by_text by_symbol.new symbol
        ≡ option_or (get_by_text by_symbol.old symbol)
        (option_and_then (position_if (export_view export.now) symbol) position)) }
{
    match position {
        Some(position) if !export.private => note_symbol(by_symbol, &export.name, position),
        _ => Ok(()),
    }
}

// A position of these, if there are so many.
fn position_at(positions: &[Position], index: usize) -> Option<Position>
    ensures { result ≡ slice_get positions.now index }
{
    positions.get(index).copied()
}

// The positions of exports, of which these are in order.
fn positions_by_symbol(
    alloc: Global,
    exports: &[ShortExport],
    positions: &[Position],
) -> Result<HashMap<String, Position>, AllocError>
    ensures { IfOk result (λ by_symbol. (symbol : List ℕ) → get_by_text by_symbol symbol
        ≡ position_from 0 (map export_view exports.now) positions.now symbol) }
{
    let mut by_symbol = HashMap::new(alloc);
    for i in 0..exports.len() {
        note(&mut by_symbol, &exports[i], position_at(positions, i))?;
    }
    Ok(by_symbol)
}

// The positions of exports among places.
fn export_positions(alloc: Global, places: &[Place]) -> Result<Vec<Position>, AllocError>
    ensures { IfOk result (λ positions. positions.items ≡ export_positions places.now) }
{
    let mut positions = Vec::new(alloc);
    for place in places {
        match place.site {
            Site::Export => positions.push(place.position)?,
            Site::Attribute(_) | Site::Heading => {}
        }
    }
    Ok(positions)
}

// What a text means, unless it is refused.
fn meaning_of(
    alloc: Global,
    text: &str,
    options: &LibraryOptions,
) -> Result<Option<ModuleDef>, AllocError>
    ensures meant { IfOk result (λ found. IfSome found
        (λ def. DefinitionFor text.now (library_options_view options.now) (definition_view def))) }
    ensures refused { IfOk result
        (λ found. IfNone found (IsMeaningless text.now (library_options_view options.now))) }
{
    match definition_for(alloc, text, options) {
        Ok(def) => Ok(Some(def)),
        Err(Refusal::OutOfMemory) => Err(AllocError),
        Err(_) => Ok(None),
    }
}

// The places of a text, unless it is refused.
fn places_of(alloc: Global, text: &str) -> Result<Option<Vec<Place>>, AllocError>
    ensures read { IfOk result
        (λ found. IfSome found (λ places. ArePlacesOf text.now places.items)) }
    ensures refused { IfOk result (λ found. IfNone found (IsPlaceless text.now)) }
{
    match read_with_places(alloc, text) {
        Ok((_, places)) => Ok(Some(places)),
        Err(ParseError::OutOfMemory(refused)) => Err(refused),
        Err(_) => Ok(None),
    }
}

// The symbol of code, of which another may be the address.
fn symbol_behind(symbol: &[u8]) -> &[u8]
    ensures { result.now ≡ symbol_behind symbol.now }
{
    if symbol.starts_with(b"__imp_") {
        return &symbol[6..];
    }
    symbol
}

impl Positions {
    /// Those of a definition, as it is linked. A definition that is refused has none.
    ///
    /// # Errors
    ///
    /// An allocation failed.
    pub fn of(
        alloc: Global,
        definition: &[u8],
        options: &LibraryOptions,
    ) -> Result<Positions, AllocError>
        ensures { IfOk result (λ positions.
            ArePositionsOf definition.now (library_options_view options.now)
            (get_by_text positions.by_symbol)
            ⊎ HasNoPositions (definition_text definition.now) (library_options_view options.now)) }
    {
        let read = DefinitionText::new(alloc, definition)?;
        let none = Positions {
            by_symbol: HashMap::new(alloc),
        };
        let Ok(text) = read.text() else {
            return Ok(none);
        };
        let Some(def) = meaning_of(alloc, text, options)? else {
            return Ok(none);
        };
        let Some(places) = places_of(alloc, text)? else {
            return Ok(none);
        };
        let positions = export_positions(alloc, &places)?;
        Ok(Positions {
            by_symbol: positions_by_symbol(alloc, &def.exports, &positions)?,
        })
    }

    /// Where the export of a symbol is, or of a symbol's address, if it is known.
    pub fn at(&self, symbol: &[u8]) -> Option<Position>
        ensures found { IfSome result
            (λ position. get_by_text self.now.by_symbol (symbol_behind symbol.now)
            ≡ Some position) }
        ensures none { IfNone result (IsUtf8 (symbol_behind symbol.now)
            → get_by_text self.now.by_symbol (symbol_behind symbol.now) ≡ None) }
    {
        match str::from_utf8(symbol_behind(symbol)) {
            Ok(text) => self.by_symbol.get(text).copied(),
            Err(_) => None,
        }
    }
}
