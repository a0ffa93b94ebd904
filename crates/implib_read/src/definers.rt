//! Where the externals of a library are defined.

ghost use Rattle.std.specs.Prelude.{◌≡◌, ℕ, List, Some, None, map, bytes_eq, if◌then◌else◌, IfOk};
ghost use Rattle.std.specs.Prelude.{OnOk};
ghost use Rattle.std.specs.HashMap.{get_by};
ghost use Rattle.std.specs.Option.{option_map, option_or};
ghost use Rattle.implib_read.specs.FileViews.{file_view};
ghost use Rattle.implib_read.specs.Files.{definer_among, place_in_file};
ghost use Rattle.implib_read.specs.Following.{place_among, place_by_entry};
ghost use Rattle.implib_read.specs.FollowingViews.{place_view, places_of};
ghost use Rattle.implib_read.specs.ObjectViews.{entry_view, object_view};

use crate::file::FileFound;
use crate::follow::{Definers, PlaceFound, is_defined_external};
use crate::object::{Entry, Object};
use std::alloc::{AllocError, Global};
use std::collections::HashMap;

/// Notes the place of a name, unless one is noted.
#[tactic(auto, using(std::proofs::lemmas::Map::Text::text_keys))]
fn note_place<'o, 'a>(
    places: &mut Definers<'o, 'a>,
    name: &'a [u8],
    place: PlaceFound<'o, 'a>,
) -> Result<(), AllocError>
    ensures { OnOk result ((other : List ℕ) → get_by (λ k. bytes_eq other k.now) places.new
        ≡ option_or (get_by (λ k. bytes_eq other k.now) places.old)
        (if bytes_eq name.now other then Some place.entry else None)) }
{
    if !places.contains_key(&name) {
        places.insert(name, place)?;
    }
    Ok(())
}

/// Notes the place of the symbol that an entry defines for others, unless its name is noted.
fn note_entry<'o, 'a>(
    places: &mut Definers<'o, 'a>,
    object: &'o Object<'a>,
    entry: &Entry<'a>,
) -> Result<(), AllocError>
    ensures { OnOk result ((other : List ℕ) → places_of places.new other
        ≡ option_or (places_of places.old other)
        (place_by_entry (object_view object.now) other (entry_view entry.now))) }
{
    let Entry::Symbol(symbol) = entry else {
        return Ok(());
    };
    if !is_defined_external(symbol) {
        return Ok(());
    }
    let place = PlaceFound {
        object,
        symbol: *symbol,
    };
    note_place(places, symbol.name, place)
}

/// Notes what entries define.
fn note_entries<'o, 'a>(
    places: &mut Definers<'o, 'a>,
    object: &'o Object<'a>,
    entries: &[Entry<'a>],
) -> Result<(), AllocError>
    ensures { OnOk result ((other : List ℕ) → places_of places.new other
        ≡ option_or (places_of places.old other)
        (place_among (object_view object.now) other (map entry_view entries.now))) }
{
    for entry in entries {
        note_entry(places, object, entry)?;
    }
    Ok(())
}

/// Notes what a file defines.
fn note_file<'o, 'a>(
    places: &mut Definers<'o, 'a>,
    file: &'o FileFound<'a>,
) -> Result<(), AllocError>
    ensures { OnOk result ((other : List ℕ) → places_of places.new other
        ≡ option_or (places_of places.old other) (place_in_file (file_view file.now) other)) }
{
    match file {
        FileFound::Object(object) => note_entries(places, object, &object.entries),
        FileFound::ShortImport(_) | FileFound::NotRead => Ok(()),
    }
}

/// Where the externals of files are defined, each by the first object that defines it.
pub(crate) fn definers_of<'o, 'a>(
    alloc: Global,
    files: &'o [FileFound<'a>],
) -> Result<Definers<'o, 'a>, AllocError>
    ensures { IfOk result (λ places. (other : List ℕ) → places_of places other
        ≡ definer_among (map file_view files.now) other) }
{
    let mut places = HashMap::new(alloc);
    for file in files {
        note_file(&mut places, file)?;
    }
    Ok(places)
}
