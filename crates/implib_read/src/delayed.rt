//! What objects import at the first call, for GNU's linker.

ghost use Rattle.std.specs.Prelude.{◌≡◌, ◌+◌, ◌<◌, ◌^◌, None, map, take, bytes_eq, codes, IfOk};
ghost use Rattle.std.specs.Prelude.{IfSome};
ghost use Rattle.std.specs.List.{list_any};
ghost use Rattle.std.specs.Option.{option_map};
ghost use Rattle.implib_read.specs.Classes.{delayed_by_object};
ghost use Rattle.implib_read.specs.ClassViews.{imported_view};
ghost use Rattle.implib_read.specs.Delayed.{begin_of_either, calls_helper, code_of_entry};
ghost use Rattle.implib_read.specs.Delayed.{delayed_ask, delayed_descriptor, delayed_dll};
ghost use Rattle.implib_read.specs.Delayed.{delayed_import, delayed_with, descriptor_by_code};
ghost use Rattle.implib_read.specs.Delayed.{descriptor_by_field};
ghost use Rattle.implib_read.specs.Delayed.{entry_of, is_helper, jump_distance, leads_to};
ghost use Rattle.implib_read.specs.Delayed.{only_in_code, only_of_own_tables, own_descriptor};
ghost use Rattle.implib_read.specs.Delayed.{own_pointed, thunk_of, wants_helper};
ghost use Rattle.implib_read.specs.FollowingViews.{places_of, spot_view};
ghost use Rattle.implib_read.specs.declared.import.ImportKind.TheVariants.{Delayed};
ghost use Rattle.implib_read.specs.ImportViews.{ask_view, import_view};
ghost use Rattle.implib_read.specs.ObjectViews.{entry_view, object_view};

use crate::fields::{bytes_at, u32_at};
use crate::follow::{
    Definers, PlaceFound, SpotFound, pointed, relocation_of_field, spot_of, symbol_at,
};
use crate::import::{AskFound, DeclaredFound, ImportFound, ImportKind};
use crate::imports::{ask_at, begin_of, externals_in, text_at};
use crate::names::is_text;
use crate::object::{Entry, Object};
use std::alloc::{AllocError, Global};

/// A spot further on.
fn further<'o, 'a>(at: SpotFound<'o, 'a>, distance: usize) -> SpotFound<'o, 'a>
    requires { at.offset + distance < 2 ^ 33 }
    ensures object { result.object.now ≡ at.entry.object.now }
    ensures section { result.section ≡ at.entry.section }
    ensures offset { result.offset ≡ at.entry.offset + distance }
{
    SpotFound {
        object: at.object,
        section: at.section,
        offset: at.offset + distance,
    }
}

/// Where the field at a spot leads in its own object.
#[tactic(auto, unfolding(crate::specs::Following::pointed, crate::specs::Following::pointed_by))]
fn own_pointed<'o, 'a>(at: SpotFound<'o, 'a>) -> Option<SpotFound<'o, 'a>>
    ensures found { option_map spot_view result ≡ own_pointed (spot_view at.entry) }
    ensures small { IfSome result (λ spot. spot.offset < 2 ^ 32) }
{
    let Some(relocation) = relocation_of_field(at.offset, &at.section) else {
        return None;
    };
    let Some(field) = bytes_at(at.section.bytes, at.offset, 4) else {
        return None;
    };
    let Some(symbol) = symbol_at(at.object, relocation.symbol) else {
        return None;
    };
    if symbol.section == 0 {
        return None;
    }
    let object = at.object;
    spot_of(u32_at(field, 0), PlaceFound { object, symbol })
}

/// The begin of an object's first section of one name, or otherwise of another.
fn begin_of_either<'o, 'a>(
    name: &[u8],
    other: &[u8],
    object: &'o Object<'a>,
) -> Option<SpotFound<'o, 'a>>
    ensures found { option_map spot_view result ≡ begin_of_either name.now other.now
        (object_view object.now) }
    ensures small { IfSome result (λ spot. spot.offset < 2 ^ 32) }
{
    match begin_of(name, object) {
        Some(at) => Some(at),
        None => begin_of(other, object),
    }
}

/// A spot, if it is in a section of code by its name.
fn only_in_code<'o, 'a>(at: SpotFound<'o, 'a>) -> Option<SpotFound<'o, 'a>>
    requires { at.offset < 2 ^ 32 }
    ensures found { option_map spot_view result ≡ only_in_code (spot_view at.entry) }
    ensures small { IfSome result (λ spot. spot.offset < 2 ^ 32) }
{
    let name = at.section.name;
    if is_text(&name[..name.len().min(5)], b".text") {
        Some(at)
    } else {
        None
    }
}

/// Where the entry leads before the first call.
fn code_of_entry<'o, 'a>(entry: SpotFound<'o, 'a>) -> Option<SpotFound<'o, 'a>>
    ensures found { option_map spot_view result ≡ code_of_entry (spot_view entry.entry) }
    ensures small { IfSome result (λ spot. spot.offset < 2 ^ 32) }
{
    match own_pointed(entry) {
        Some(at) => only_in_code(at),
        None => None,
    }
}

/// How far into the code of a stub the field of its jump is.
fn jump_distance(machine: u16) -> usize
    ensures distance { result ≡ jump_distance machine }
    ensures small { result < 9 }
{
    if machine == 0x14C { 6 } else { 8 }
}

/// Whether a field of a descriptor leads to the object's own section of a name.
fn leads_to(distance: usize, name: &[u8], descriptor: SpotFound) -> bool
    requires { descriptor.offset + distance < 2 ^ 33 }
    ensures { result ≡ leads_to distance name.now (spot_view descriptor.entry) }
{
    match own_pointed(further(descriptor, distance)) {
        Some(at) => is_text(at.section.name, name),
        None => false,
    }
}

/// A descriptor, if its tables are those of its own object.
fn only_of_own_tables<'o, 'a>(descriptor: SpotFound<'o, 'a>) -> Option<SpotFound<'o, 'a>>
    requires { descriptor.offset < 2 ^ 32 }
    ensures found { option_map spot_view result ≡ only_of_own_tables (spot_view descriptor.entry) }
    ensures small { IfSome result (λ spot. spot.offset < 2 ^ 32) }
{
    if leads_to(12, b".didat$5", descriptor) && leads_to(16, b".didat$4", descriptor) {
        Some(descriptor)
    } else {
        None
    }
}

/// The descriptor that an object has for itself.
fn own_descriptor<'o, 'a>(object: &'o Object<'a>) -> Option<SpotFound<'o, 'a>>
    ensures found { option_map spot_view result ≡ own_descriptor (object_view object.now) }
    ensures small { IfSome result (λ spot. spot.offset < 2 ^ 32) }
{
    match begin_of(b".didat$2", object) {
        Some(descriptor) => only_of_own_tables(descriptor),
        None => None,
    }
}

/// The descriptor that an object's `.idata$7` leads to.
fn descriptor_by_field<'o, 'a>(
    definers: &Definers<'o, 'a>,
    object: &'o Object<'a>,
) -> Option<SpotFound<'o, 'a>>
    ensures found { option_map spot_view result ≡ descriptor_by_field (places_of definers.now)
        (object_view object.now) }
    ensures small { IfSome result (λ spot. spot.offset < 2 ^ 32) }
{
    match begin_of(b".idata$7", object) {
        Some(field) => pointed(definers, field),
        None => None,
    }
}

/// The descriptor in the object that has the code to which the code at a spot jumps.
fn descriptor_by_code<'o, 'a>(
    definers: &Definers<'o, 'a>,
    object: &'o Object<'a>,
    code: SpotFound<'o, 'a>,
) -> Option<SpotFound<'o, 'a>>
    requires { code.offset < 2 ^ 32 }
    ensures found { option_map spot_view result ≡ descriptor_by_code (places_of definers.now)
        (object_view object.now) (spot_view code.entry) }
    ensures small { IfSome result (λ spot. spot.offset < 2 ^ 32) }
{
    match pointed(definers, further(code, jump_distance(object.machine))) {
        Some(shared) => begin_of_either(b".didat$2", b".text$2\0", shared.object),
        None => None,
    }
}

/// The descriptor of an object.
#[tactic(auto, unfolding(crate::specs::Delayed::delayed_descriptor))]
fn delayed_descriptor<'o, 'a>(
    definers: &Definers<'o, 'a>,
    object: &'o Object<'a>,
    code: SpotFound<'o, 'a>,
) -> Option<SpotFound<'o, 'a>>
    requires { code.offset < 2 ^ 32 }
    ensures found { option_map spot_view result ≡ delayed_descriptor (places_of definers.now)
        (object_view object.now) (spot_view code.entry) }
    ensures small { IfSome result (λ spot. spot.offset < 2 ^ 32) }
{
    if let Some(own) = own_descriptor(object) {
        return Some(own);
    }
    if let Some(found) = descriptor_by_field(definers, object) {
        return Some(found);
    }
    descriptor_by_code(definers, object, code)
}

/// The DLL.
#[tactic(auto, unfolding(crate::specs::Delayed::delayed_dll))]
fn delayed_dll<'o, 'a>(
    definers: &Definers<'o, 'a>,
    object: &'o Object<'a>,
    code: SpotFound<'o, 'a>,
) -> Option<&'a [u8]>
    requires { code.offset < 2 ^ 32 }
    ensures { option_map (λ found. found.now) result ≡ delayed_dll (places_of definers.now)
        (object_view object.now) (spot_view code.entry) }
{
    let Some(descriptor) = delayed_descriptor(definers, object, code) else {
        return None;
    };
    match pointed(definers, further(descriptor, 4)) {
        Some(name) => text_at(&name),
        None => None,
    }
}

/// What is asked of the DLL.
#[tactic(auto, unfolding(crate::specs::Delayed::delayed_ask))]
fn delayed_ask<'o, 'a>(definers: &Definers<'o, 'a>, object: &'o Object<'a>) -> Option<AskFound<'a>>
    ensures { option_map ask_view result ≡ delayed_ask (places_of definers.now)
        (object_view object.now) }
{
    match begin_of_either(b".didat$4", b".idata$4", object) {
        Some(at) => ask_at(definers, at),
        None => None,
    }
}

/// The import with this entry, whose code is at a spot.
#[tactic(auto, unfolding(crate::specs::Delayed::delayed_with))]
fn delayed_with<'o, 'a>(
    alloc: Global,
    definers: &Definers<'o, 'a>,
    object: &'o Object<'a>,
    entry: SpotFound<'o, 'a>,
    code: SpotFound<'o, 'a>,
) -> Result<Option<ImportFound<'a>>, AllocError>
    requires { code.offset < 2 ^ 32 }
    ensures { IfOk result (λ found. option_map imported_view found
        ≡ option_map (λ i. record { imports = i; kind = Delayed; machine = object.now.machine })
        (delayed_with (places_of definers.now) (object_view object.now) (spot_view entry.entry)
        (spot_view code.entry))) }
{
    let Some(dll) = delayed_dll(definers, object, code) else {
        return Ok(None);
    };
    let Some(ask) = delayed_ask(definers, object) else {
        return Ok(None);
    };
    let addresses = externals_in(alloc, object, entry.section.name)?;
    let code = externals_in(alloc, object, b".text\0\0\0")?;
    Ok(Some(ImportFound {
        dll,
        declared: DeclaredFound::OfObject(addresses, code),
        ask,
        kind: ImportKind::Delayed,
        machine: object.machine,
    }))
}

/// The delayed import that an object is.
#[tactic(auto, unfolding(crate::specs::Delayed::delayed_import))]
pub(crate) fn delayed_by_object<'o, 'a>(
    alloc: Global,
    definers: &Definers<'o, 'a>,
    object: &'o Object<'a>,
) -> Result<Option<ImportFound<'a>>, AllocError>
    ensures { IfOk result (λ found. option_map imported_view found
        ≡ delayed_by_object (places_of definers.now) (object_view object.now)) }
{
    let Some(entry) = begin_of_either(b".didat$5", b".idata$5", object) else {
        return Ok(None);
    };
    match code_of_entry(entry) {
        Some(code) => delayed_with(alloc, definers, object, entry, code),
        None => Ok(None),
    }
}

/// Whether a name is that of the helper.
fn is_helper(name: &[u8]) -> bool
    ensures { result ≡ is_helper name.now }
{
    is_text(name, b"__delayLoadHelper2") || is_text(name, b"___delayLoadHelper2@8")
}

/// Whether an entry wants the helper.
fn wants_helper(entry: &Entry) -> bool
    ensures { result ≡ wants_helper (entry_view entry.now) }
{
    match entry {
        Entry::Auxiliary(_) => false,
        Entry::Symbol(symbol) => {
            symbol.class == 2 && symbol.section == 0 && is_helper(symbol.name)
        }
    }
}

/// Whether one of some entries wants the helper.
fn any_wants(entries: &[Entry]) -> bool
    ensures { result ≡ list_any wants_helper (map entry_view entries.now) }
{
    for entry in entries {
        if wants_helper(entry) {
            return true;
        }
    }
    false
}

/// Whether an object calls the helper.
pub(crate) fn calls_helper(object: &Object) -> bool
    ensures { result ≡ calls_helper (object_view object.now) }
{
    any_wants(&object.entries)
}
