//! The symbols that a file has for names: another import library, or a definition.

ghost use Rattle.implib.specs.Definition.{definition_view, export_view};
ghost use Rattle.implib_libraries.specs.OfDll.Decorations.{AreDecorations, HasNoDecorations};
ghost use Rattle.implib_libraries.specs.OfDll.Decorations.{IsNoDefinition, IsNoFile, OfDefinition};
ghost use Rattle.implib_libraries.specs.OfDll.Decorations.{OfFile, begins_archive, both_ways};
ghost use Rattle.implib_libraries.specs.OfDll.Decorations.{decoration_view, functions, named};
ghost use Rattle.implib_libraries.specs.OfDll.Decorations.{of_ask, of_asked, of_class, of_export};
ghost use Rattle.implib_libraries.specs.OfDll.Decorations.{of_import, of_members, reading};
ghost use Rattle.implib_read.specs.ClassViews.{class_view, imported_view, member_read_view};
ghost use Rattle.implib_read.specs.ImportViews.{declared_view};
ghost use Rattle.implib_rules.specs.Options.{library_options_view};
ghost use Rattle.implib_rules.specs.declared.library.Refusal.TheVariants as refusal;
ghost use Rattle.std.specs.List.{flat_map};
ghost use Rattle.std.specs.Option.{option_map};
ghost use Rattle.std.specs.Prelude.{◌≡◌, ◌++◌, [], ◌∷◌, IfErr, IfOk, OnOk, false, map, true};
ghost use Rattle.std.specs.String.{string_bytes};

use implib::def::ShortExport;
use implib::{Flavor, MachineType};
use implib_read::{
    AskFound, DeclaredFound, ImportFound, Library, MemberClass, MemberRead, begins_imp,
};
use implib_rules::additions::Additions;
use implib_rules::library::{Refusal, definition_for};
use implib_rules::linked::Naming;
use implib_rules::options::LibraryOptions;
use implib_rules::text::DefinitionText;
use std::alloc::{AllocError, Global};

/// A name that a DLL is asked for, and the symbol of a function that asks for it.
#[derive(Drop)]
pub struct Decoration {
    pub name: Vec<u8>,
    pub symbol: Vec<u8>,
}

/// Why a file has no names with symbols.
#[derive(Debug, Drop)]
pub enum NotDecorations {
    /// It begins as an archive does, and is none.
    NoLibrary,
    /// It is no definition, or an allocation failed.
    Text(Refusal),
}

impl From<AllocError> for NotDecorations {
    ghost use Rattle.implib_libraries.specs.declared.of_dll.decorations.NotDecorations.TheVariants.{Text};
    ghost use Rattle.implib_rules.specs.declared.library.Refusal.TheVariants.{OutOfMemory};
    ghost use Rattle.std.specs.Prelude.{◌≡◌};

    ghost from_gives = { λ _ error. error ≡ Text OutOfMemory };

    fn from(_refused: AllocError) -> NotDecorations {
        NotDecorations::Text(Refusal::OutOfMemory)
    }
}

// A copy of bytes.
fn copied(alloc: Global, bytes: &[u8]) -> Result<Vec<u8>, AllocError>
    ensures { IfOk result (λ copy. copy.items ≡ bytes.now) }
{
    let mut copy = Vec::new(alloc);
    copy.extend_from_slice(bytes)?;
    Ok(copy)
}

// Appends a name with a symbol.
fn push(
    alloc: Global,
    name: &[u8],
    symbol: &[u8],
    list: &mut Vec<Decoration>,
) -> Result<(), AllocError>
    ensures { OnOk result (map decoration_view list.new.items
        ≡ map decoration_view list.old.items ++ named name.now (symbol.now ∷ [])) }
{
    let name = copied(alloc, name)?;
    let symbol = copied(alloc, symbol)?;
    list.push(Decoration { name, symbol })?;
    Ok(())
}

// Appends a name with a symbol, unless that is an address's.
fn push_function(
    alloc: Global,
    name: &[u8],
    symbol: &[u8],
    list: &mut Vec<Decoration>,
) -> Result<(), AllocError>
    ensures { OnOk result (map decoration_view list.new.items
        ≡ map decoration_view list.old.items ++ named name.now (functions (symbol.now ∷ []))) }
{
    if begins_imp(symbol) {
        return Ok(());
    }
    push(alloc, name, symbol, list)
}

// Appends a name with each of some symbols that is no address's.
fn push_functions(
    alloc: Global,
    name: &[u8],
    symbols: &[&[u8]],
    list: &mut Vec<Decoration>,
) -> Result<(), AllocError>
    ensures { OnOk result (map decoration_view list.new.items ≡ map decoration_view list.old.items
        ++ named name.now (functions (map (λ symbol. symbol.now) symbols.now))) }
{
    for symbol in symbols {
        push_function(alloc, name, symbol, list)?;
    }
    Ok(())
}

// Appends a name with each of some symbols that is no address's, of symbols that are held.
fn push_held(
    alloc: Global,
    name: &[u8],
    symbols: &[Vec<u8>],
    list: &mut Vec<Decoration>,
) -> Result<(), AllocError>
    ensures { OnOk result (map decoration_view list.new.items ≡ map decoration_view list.old.items
        ++ named name.now (functions (map (λ symbol. symbol.items) symbols.now))) }
{
    for symbol in symbols {
        push_function(alloc, name, symbol, list)?;
    }
    Ok(())
}

// Appends a name with the symbols of functions among those that are declared.
fn push_declared(
    alloc: Global,
    name: &[u8],
    declared: &DeclaredFound<'_>,
    list: &mut Vec<Decoration>,
) -> Result<(), AllocError>
    ensures { OnOk result (map decoration_view list.new.items ≡ map decoration_view list.old.items
        ++ named name.now (functions (declared_view declared.now))) }
{
    match declared {
        DeclaredFound::OfName(_, true) => Ok(()),
        DeclaredFound::OfName(symbol, false) => push_function(alloc, name, symbol, list),
        DeclaredFound::OfArm64ec(symbols) => push_held(alloc, name, symbols, list),
        DeclaredFound::OfObject(addresses, code) => {
            push_functions(alloc, name, addresses.as_slice(), list)?;
            push_functions(alloc, name, code.as_slice(), list)
        }
    }
}

// Appends those of an import.
fn push_import(
    alloc: Global,
    import: &ImportFound<'_>,
    list: &mut Vec<Decoration>,
) -> Result<(), AllocError>
    ensures { OnOk result (map decoration_view list.new.items ≡ map decoration_view list.old.items
        ++ of_import (imported_view import.now).imports) }
{
    match import.ask {
        AskFound::Name(name, _) => push_declared(alloc, name, &import.declared, list),
        AskFound::Ordinal(_) => Ok(()),
    }
}

// Appends those of a member.
fn push_member(
    alloc: Global,
    class: &MemberClass<'_>,
    list: &mut Vec<Decoration>,
) -> Result<(), AllocError>
    ensures { OnOk result (map decoration_view list.new.items
        ≡ map decoration_view list.old.items ++ of_class (class_view class.now)) }
{
    match class {
        MemberClass::Import(import) => push_import(alloc, import, list),
        _ => Ok(()),
    }
}

// Those of the members of a library.
fn of_members(alloc: Global, members: &[MemberRead<'_>]) -> Result<Vec<Decoration>, AllocError>
    ensures { IfOk result (λ list. map decoration_view list.items
        ≡ of_members (map member_read_view members.now)) }
{
    let mut list = Vec::new(alloc);
    for member in members {
        push_member(alloc, &member.class, &mut list)?;
    }
    Ok(list)
}

// Appends those of a symbol for a name.
fn push_both(
    alloc: Global,
    name: &[u8],
    symbol: &[u8],
    list: &mut Vec<Decoration>,
) -> Result<(), AllocError>
    ensures { OnOk result (map decoration_view list.new.items
        ≡ map decoration_view list.old.items ++ both_ways name.now symbol.now) }
{
    push(alloc, name, symbol, list)?;
    match name {
        [b'_', name @ ..] => match symbol {
            [b'_', symbol @ ..] => push(alloc, name, symbol, list),
            _ => Ok(()),
        },
        _ => Ok(()),
    }
}

// Appends those of an export that is linked.
fn push_export(
    alloc: Global,
    export: &ShortExport,
    list: &mut Vec<Decoration>,
) -> Result<(), AllocError>
    ensures { OnOk result (map decoration_view list.new.items
        ≡ map decoration_view list.old.items ++ of_export (export_view export.now)) }
{
    if export.private || export.no_name || export.is_data {
        return Ok(());
    }
    match &export.asked_name {
        Some(name) => push_both(alloc, name.as_bytes(), export.name.as_bytes(), list),
        None => Ok(()),
    }
}

// Those of exports that are linked.
fn of_exports(alloc: Global, exports: &[ShortExport]) -> Result<Vec<Decoration>, AllocError>
    ensures { IfOk result (λ list. map decoration_view list.items
        ≡ flat_map of_export (map export_view exports.now)) }
{
    let mut list = Vec::new(alloc);
    for export in exports {
        push_export(alloc, export, &mut list)?;
    }
    Ok(list)
}

// What a definition is read for.
fn reading() -> LibraryOptions<'static>
    ensures { library_options_view result ≡ reading }
{
    LibraryOptions {
        machine: MachineType::I386,
        flavor: Flavor::Gnu,
        dll: Some("a.dll"),
        naming: Naming {
            is_plain: false,
            kills_at: true,
            exports_as: false,
            keeps_decorated: false,
        },
        additions: Additions {
            prefix: None,
            underscore: false,
            stdcall_underscore: false,
        },
    }
}

// Those of a definition.
fn of_definition(alloc: Global, bytes: &[u8]) -> Result<Vec<Decoration>, Refusal>
    ensures are { IfOk result (λ list. OfDefinition bytes.now (map decoration_view list.items)) }
    ensures refused { IfErr result (IsNoDefinition bytes.now) }
{
    let read = DefinitionText::new(alloc, bytes)?;
    let text = match read.text() {
        Ok(text) => text,
        Err(position) => return Err(Refusal::NotUtf8(position)),
    };
    let def = definition_for(alloc, text, &reading())?;
    Ok(of_exports(alloc, def.exports.as_slice())?)
}

// Whether bytes begin as an archive does.
fn begins_archive(bytes: &[u8]) -> bool
    ensures { result ≡ begins_archive bytes.now }
{
    bytes.starts_with(b"!<arch>\n")
}

// Those of a library.
fn of_library(alloc: Global, bytes: &[u8]) -> Result<Vec<Decoration>, NotDecorations>
    ensures are { IfOk result (λ list. OfFile true bytes.now (map decoration_view list.items)) }
    ensures refused { IfErr result (IsNoFile true bytes.now) }
{
    match Library::read(alloc, bytes)? {
        Some(library) => Ok(of_members(alloc, library.members.as_slice())?),
        None => Err(NotDecorations::NoLibrary),
    }
}

/// The names that the imports of a file ask for by functions, each with its symbols, in order:
/// those of an import library where the file begins as an archive does, else of a definition for
/// I386, read as under `-k`.
///
/// # Errors
///
/// `NoLibrary`; `Text`: what a definition is refused for, or `OutOfMemory`.
pub fn decorations_in(alloc: Global, bytes: &[u8]) -> Result<Vec<Decoration>, NotDecorations>
    ensures are { IfOk result (λ list. AreDecorations bytes.now (map decoration_view list.items)) }
    ensures refused { IfErr result (HasNoDecorations bytes.now) }
{
    if begins_archive(bytes) {
        return of_library(alloc, bytes);
    }
    match of_definition(alloc, bytes) {
        Ok(list) => Ok(list),
        Err(refusal) => Err(NotDecorations::Text(refusal)),
    }
}
