//! What each member of a library is for.

ghost use Rattle.std.specs.Prelude.{◌≡◌, map, IfOk};
ghost use Rattle.std.specs.Option.{option_map};
ghost use Rattle.implib.specs.Formats.File.{alias_of_object};
ghost use Rattle.implib_read.specs.Classes.{class_by_tables, class_of_descriptor, class_of_file};
ghost use Rattle.implib_read.specs.Classes.{class_of_import, class_of_thunks, class_with};
ghost use Rattle.implib_read.specs.Classes.{class_by_delayed_tables, class_of_delayed_thunks};
ghost use Rattle.implib_read.specs.Classes.{class_of_part, delayed_by_object};
ghost use Rattle.implib_read.specs.Classes.{has_section, imported_by_object, is_empty};
ghost use Rattle.implib_read.specs.ClassViews.{class_view, imported_view};
ghost use Rattle.implib_read.specs.FileViews.{file_view};
ghost use Rattle.implib_read.specs.FollowingViews.{places_of};
ghost use Rattle.implib_read.specs.Objects.{relocations_of};
ghost use Rattle.implib_read.specs.ObjectViews.{object_view, section_view};

use crate::alias::{AliasFound, alias_of_object};
use crate::delayed::{calls_helper, delayed_by_object};
use crate::file::FileFound;
use crate::follow::{Definers, section_named};
use crate::import::ImportFound;
use crate::imports::imported_by_object;
use crate::object::{Object, Section};
use crate::short_meaning::imported_by_short_import;
use std::alloc::{AllocError, Global};

/// What a member is for.
#[derive(Drop)]
pub enum MemberClass<'a> {
    Import(ImportFound<'a>),
    /// An object with one weak external.
    Alias(AliasFound<'a>),
    /// Microsoft's import descriptor of a DLL.
    Descriptor,
    /// Microsoft's null import descriptor.
    NullDescriptor,
    /// Microsoft's null thunk of a DLL.
    NullThunk,
    /// GNU's head of a DLL, with its descriptor, or of its delayed imports, with the code that they
    /// share.
    Head,
    /// GNU's tail of a DLL, or of its delayed imports, with its name.
    Tail,
    /// Part of a library of delayed imports that is not followed, as that of data.
    DelayImport,
    /// An object without import tables.
    Other,
    /// Neither an object nor a short import; a short import of unknown types; or an object whose
    /// import tables lead nowhere.
    NotUnderstood,
}

/// A member, and what it is for.
#[derive(Drop)]
pub struct MemberRead<'a> {
    pub name: &'a [u8],
    /// The offset of its header in the file.
    pub offset: usize,
    pub class: MemberClass<'a>,
}

/// Whether an object has a section of a name.
fn has_section(object: &Object, name: &[u8]) -> bool
    ensures { result ≡ has_section (object_view object.now) name.now }
{
    section_named(object, name).is_some()
}

/// Whether there is no relocation in records.
#[tactic(auto, using(crate::proofs::Records::no_relocation))]
fn has_no_relocation(records: &[u8]) -> bool
    ensures { result ≡ is_empty (relocations_of records.now) }
{
    if records.len() < 10 { true } else { false }
}

/// What an object with `.idata$5` is for, by its `.idata$7`.
fn class_of_thunks<'a>(section: Option<Section<'a>>) -> MemberClass<'a>
    ensures { class_view result ≡ class_of_thunks (option_map section_view section.entry) }
{
    let Some(section) = section else {
        return MemberClass::NullThunk;
    };
    if section.bytes.is_empty() {
        return MemberClass::DelayImport;
    }
    if has_no_relocation(section.relocations) {
        MemberClass::Tail
    } else {
        MemberClass::NotUnderstood
    }
}

/// What an object with `.idata$2` is for, by that and by whether it has `.idata$5`.
fn class_of_descriptor<'a>(section: Section<'a>, thunks: bool) -> MemberClass<'a>
    ensures { class_view result ≡ class_of_descriptor (section_view section.entry) thunks }
{
    if section.bytes.is_empty() {
        return MemberClass::DelayImport;
    }
    if thunks {
        MemberClass::Head
    } else {
        MemberClass::Descriptor
    }
}

/// What an object that is neither an import nor an alias is for, by its sections of import tables
/// alone.
fn class_by_tables<'a>(object: &Object<'a>) -> MemberClass<'a>
    ensures { class_view result ≡ class_by_tables (object_view object.now) }
{
    if has_section(object, b".idata$3") {
        return MemberClass::NullDescriptor;
    }
    let thunks = has_section(object, b".idata$5");
    if let Some(descriptor) = section_named(object, b".idata$2") {
        return class_of_descriptor(descriptor, thunks);
    }
    if thunks {
        return class_of_thunks(section_named(object, b".idata$7"));
    }
    MemberClass::Other
}

/// What an object with `.didat$5` is for, by its `.didat$7`.
fn class_of_delayed_thunks<'a>(section: Option<Section<'a>>) -> MemberClass<'a>
    ensures { class_view result ≡ class_of_delayed_thunks (option_map section_view section.entry) }
{
    match section {
        Some(section) => class_of_thunks(Some(section)),
        None => MemberClass::DelayImport,
    }
}

/// What an object is for, by its sections of delayed import tables.
fn class_by_delayed_tables<'a>(object: &Object<'a>) -> MemberClass<'a>
    ensures { class_view result ≡ class_by_delayed_tables (object_view object.now) }
{
    if has_section(object, b".didat$5") {
        class_of_delayed_thunks(section_named(object, b".didat$7"))
    } else {
        MemberClass::Other
    }
}

/// What an object that is neither an import nor an alias is for.
fn class_of_part<'a>(object: &Object<'a>) -> MemberClass<'a>
    ensures { class_view result ≡ class_of_part (object_view object.now) }
{
    match class_by_tables(object) {
        MemberClass::DelayImport => {
            if calls_helper(object) {
                MemberClass::Head
            } else {
                MemberClass::DelayImport
            }
        }
        MemberClass::Other => {
            if calls_helper(object) {
                MemberClass::Head
            } else {
                class_by_delayed_tables(object)
            }
        }
        class => class,
    }
}

/// What an object is for.
fn class_of_object<'o, 'a>(
    alloc: Global,
    definers: &Definers<'o, 'a>,
    object: &'o Object<'a>,
) -> Result<MemberClass<'a>, AllocError>
    ensures { IfOk result
        (λ class. class_view class
        ≡ class_with (object_view object.now) (alias_of_object (object_view object.now))
        (imported_by_object (places_of definers.now) (object_view object.now))
        (delayed_by_object (places_of definers.now) (object_view object.now))) }
{
    if let Some(alias) = alias_of_object(object) {
        return Ok(MemberClass::Alias(alias));
    }
    let import = imported_by_object(alloc, definers, object)?;
    if let Some(import) = import {
        return Ok(MemberClass::Import(import));
    }
    let delayed = delayed_by_object(alloc, definers, object)?;
    match delayed {
        Some(import) => Ok(MemberClass::Import(import)),
        None => Ok(class_of_part(object)),
    }
}

/// What a short import is for.
fn class_of_import<'a>(import: Option<ImportFound<'a>>) -> MemberClass<'a>
    ensures { class_view result ≡ class_of_import (option_map imported_view import.entry) }
{
    match import {
        Some(import) => MemberClass::Import(import),
        None => MemberClass::NotUnderstood,
    }
}

/// What a file is for, among files whose externals are defined there.
pub(crate) fn class_of_file<'o, 'a>(
    alloc: Global,
    definers: &Definers<'o, 'a>,
    file: &'o FileFound<'a>,
) -> Result<MemberClass<'a>, AllocError>
    ensures { IfOk result
        (λ class. class_view class ≡ class_of_file (places_of definers.now) (file_view file.now)) }
{
    match file {
        FileFound::ShortImport(import) => {
            Ok(class_of_import(imported_by_short_import(alloc, import)?))
        }
        FileFound::Object(object) => class_of_object(alloc, definers, object),
        FileFound::NotRead => Ok(MemberClass::NotUnderstood),
    }
}
