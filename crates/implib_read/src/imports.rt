//! What the objects for GNU's linker import.

ghost use Rattle.std.specs.Prelude.{◌≡◌, ℕ, ◌+◌, ◌<◌, ◌^◌, length, drop, map, take, bytes_eq};
ghost use Rattle.std.specs.Prelude.{codes, IfOk, IfSome};
ghost use Rattle.std.specs.List.{filter_map};
ghost use Rattle.std.specs.Option.{option_map};
ghost use Rattle.implib.specs.Formats.Object.{before_nul};
ghost use Rattle.implib.specs.Members.GnuReader.{external_in, externals_in, is_defined_in};
ghost use Rattle.implib_read.specs.Following.{begin_of, further, only_in, pointed};
ghost use Rattle.implib_read.specs.Following.{relocation_of_field, text_at};
ghost use Rattle.implib_read.specs.FollowingViews.{places_of, spot_view};
ghost use Rattle.implib_read.specs.Imports.{ask_at, ask_of_object, descriptor_of, dll_of_object};
ghost use Rattle.implib_read.specs.Imports.{hint_and_name, import_of_object, ordinal_in};
ghost use Rattle.implib_read.specs.ImportViews.{ask_view};
ghost use Rattle.implib_read.specs.Classes.{imported_by_object, kind_of_code};
ghost use Rattle.implib_read.specs.ClassViews.{imported_view};
ghost use Rattle.implib_read.specs.ObjectViews.{entry_view, object_view, symbol_view};

use crate::fields::{before_nul, behind, bytes_at, u16_at};
use crate::follow::{
    Definers, SpotFound, is_defined_external, pointed, pointed_by, relocation_of_field,
    section_named, section_numbered,
};
use crate::import::{AskFound, DeclaredFound, ImportFound, ImportKind};
use crate::names::is_text;
use crate::object::{Entry, Object, Symbol};
use std::alloc::{AllocError, Global};

/// The text at a spot.
pub(crate) fn text_at<'a>(at: &SpotFound<'_, 'a>) -> Option<&'a [u8]>
    ensures { option_map (λ found. found.now) result ≡ text_at (spot_view at.now) }
{
    before_nul(behind(at.section.bytes, at.offset))
}

/// The begin of the first section of a name.
pub(crate) fn begin_of<'o, 'a>(name: &[u8], object: &'o Object<'a>) -> Option<SpotFound<'o, 'a>>
    ensures found { option_map spot_view result ≡ begin_of name.now (object_view object.now) }
    ensures small { IfSome result (λ spot. spot.offset ≡ 0) }
{
    let Some(section) = section_named(object, name) else {
        return None;
    };
    Some(SpotFound {
        object,
        section,
        offset: 0,
    })
}

/// The descriptor that an object's `.idata$7` leads to.
fn descriptor_of<'o, 'a>(
    definers: &Definers<'o, 'a>,
    object: &'o Object<'a>,
) -> Option<SpotFound<'o, 'a>>
    ensures found { option_map spot_view result ≡ descriptor_of (places_of definers.now)
        (object_view object.now) }
    ensures small { IfSome result (λ spot. spot.offset < 2 ^ 32) }
{
    let Some(to_head) = begin_of(b".idata$7", object) else {
        return None;
    };
    let Some(descriptor) = pointed(definers, to_head) else {
        return None;
    };
    if is_text(descriptor.section.name, b".idata$2") {
        Some(descriptor)
    } else {
        None
    }
}

/// The DLL of an object.
#[tactic(auto, unfolding(crate::specs::Imports::dll_of_object))]
pub(crate) fn dll_of_object<'o, 'a>(
    definers: &Definers<'o, 'a>,
    object: &'o Object<'a>,
) -> Option<&'a [u8]>
    ensures { option_map (λ found. found.now) result ≡ dll_of_object (places_of definers.now)
        (object_view object.now) }
{
    let Some(descriptor) = descriptor_of(definers, object) else {
        return None;
    };
    let at_name = SpotFound {
        object: descriptor.object,
        section: descriptor.section,
        offset: descriptor.offset + 12,
    };
    match pointed(definers, at_name) {
        Some(name) => text_at(&name),
        None => None,
    }
}

/// The hint and the name at a spot.
fn hint_and_name<'a>(at: &SpotFound<'_, 'a>) -> Option<AskFound<'a>>
    requires { at.now.offset < 2 ^ 32 }
    ensures { option_map ask_view result ≡ hint_and_name (spot_view at.now) }
{
    let Some(hint) = bytes_at(at.section.bytes, at.offset, 2) else {
        return None;
    };
    match before_nul(behind(at.section.bytes, at.offset + 2)) {
        Some(name) => Some(AskFound::Name(name, u16_at(hint, 0))),
        None => None,
    }
}

/// The ordinal in a thunk whose top bit is set.
fn ordinal_in(thunk: &[u8]) -> Option<AskFound<'_>>
    ensures { option_map ask_view result ≡ ordinal_in thunk.now }
{
    if thunk.len() >= 4 && thunk[thunk.len() - 1] >= 0x80 {
        Some(AskFound::Ordinal(u16_at(thunk, 0)))
    } else {
        None
    }
}

/// What a thunk at the begin of a section asks for.
pub(crate) fn ask_at<'o, 'a>(
    definers: &Definers<'o, 'a>,
    at: SpotFound<'o, 'a>,
) -> Option<AskFound<'a>>
    ensures { option_map ask_view result ≡ ask_at (places_of definers.now) (spot_view at.entry)
        (relocation_of_field 0 (spot_view at.entry).section) }
{
    let Some(relocation) = relocation_of_field(0, &at.section) else {
        return ordinal_in(at.section.bytes);
    };
    match pointed_by(definers, at, relocation) {
        Some(spot) => hint_and_name(&spot),
        None => None,
    }
}

/// What an object asks for.
#[tactic(auto, unfolding(crate::specs::Imports::ask_of_object))]
pub(crate) fn ask_of_object<'o, 'a>(
    definers: &Definers<'o, 'a>,
    object: &'o Object<'a>,
) -> Option<AskFound<'a>>
    ensures { option_map ask_view result ≡ ask_of_object (places_of definers.now)
        (object_view object.now) }
{
    match begin_of(b".idata$5", object) {
        Some(at) => ask_at(definers, at),
        None => None,
    }
}

/// Whether a symbol is defined in a section of a name.
fn is_defined_in(object: &Object, section: &[u8], symbol: &Symbol) -> bool
    ensures { result ≡ is_defined_in (object_view object.now) section.now (symbol_view symbol.now) }
{
    match section_numbered(&object.sections, symbol.section) {
        Some(found) => is_text(found.name, section),
        None => false,
    }
}

/// The name of an entry that is an external defined in a section of a name.
fn external_in<'a>(object: &Object<'a>, section: &[u8], entry: &Entry<'a>) -> Option<&'a [u8]>
    ensures { option_map (λ found. found.now) result ≡ external_in (object_view object.now)
        section.now (entry_view entry.now) }
{
    match entry {
        Entry::Auxiliary(_) => None,
        Entry::Symbol(symbol) => {
            if is_defined_external(symbol) && is_defined_in(object, section, symbol) {
                Some(symbol.name)
            } else {
                None
            }
        }
    }
}

/// The names of the entries that are externals defined in a section of a name.
fn externals_among<'a>(
    alloc: Global,
    object: &Object<'a>,
    section: &[u8],
    entries: &[Entry<'a>],
) -> Result<Vec<&'a [u8]>, AllocError>
    ensures { IfOk result
        (λ v. map (λ t. t.now) v.items
        ≡ filter_map (external_in (object_view object.now) section.now)
        (map entry_view entries.now)) }
{
    let mut names = Vec::new(alloc);
    for entry in entries {
        let Some(name) = external_in(object, section, entry) else {
            continue;
        };
        names.push(name)?;
    }
    Ok(names)
}

/// The externals that are defined in sections of a name.
pub(crate) fn externals_in<'a>(
    alloc: Global,
    object: &Object<'a>,
    section: &[u8],
) -> Result<Vec<&'a [u8]>, AllocError>
    ensures { IfOk result
        (λ v. map (λ t. t.now) v.items ≡ externals_in (object_view object.now) section.now) }
{
    externals_among(alloc, object, section, &object.entries)
}

/// The kind that an object's symbols of code tell.
fn kind_of_code(names: &[&[u8]]) -> ImportKind
    ensures { result ≡ kind_of_code (map (λ t. t.now) names.now) }
{
    match names {
        [] => ImportKind::Data,
        [_, ..] => ImportKind::CodeOrConst,
    }
}

/// The import that an object is.
#[tactic(auto, unfolding(crate::specs::Imports::import_of_object))]
pub(crate) fn imported_by_object<'o, 'a>(
    alloc: Global,
    definers: &Definers<'o, 'a>,
    object: &'o Object<'a>,
) -> Result<Option<ImportFound<'a>>, AllocError>
    ensures { IfOk result (λ found. option_map imported_view found
        ≡ imported_by_object (places_of definers.now) (object_view object.now)) }
{
    let Some(dll) = dll_of_object(definers, object) else {
        return Ok(None);
    };
    let Some(ask) = ask_of_object(definers, object) else {
        return Ok(None);
    };
    let addresses = externals_in(alloc, object, b".idata$5")?;
    let code = externals_in(alloc, object, b".text\0\0\0")?;
    let kind = kind_of_code(&code);
    Ok(Some(ImportFound {
        dll,
        declared: DeclaredFound::OfObject(addresses, code),
        ask,
        kind,
        machine: object.machine,
    }))
}
