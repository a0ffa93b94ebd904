//! The calls for one linker, which give the members of a text.
//!
//! - `each` asks for the lengths of the members by the calls for one linker.
//! - `lists` asks for the members for Microsoft's linker in three lists: the lengths of the first
//!   and the last, and the short imports.
//! - `kept` asks for those for GNU's whose objects are made when they are wanted: the lengths of
//!   the members before, and the objects.
//! - `older` asks for those with older symbols of addresses.

use super::readings::show_listed;
use crate::lines::{Case, push_bytes, text_of};
use implib::def::ModuleDef;
use implib::gnu::GnuImportLibrary;
use implib::msvc::MsvcImportLibrary;
use implib::{MachineType, Member};
use std::alloc::{AllocError, Global};
use std::test::Fail;

/// The answer to a line about the calls for one linker.
pub fn answer_linkers(
    alloc: Global,
    text: &mut String,
    case: &Case,
    machine: MachineType,
    word: &str,
) -> Result<(), Fail> {
    let source = text_of(alloc, case.lines.as_slice())?.ok_or("there is no text")?;
    let def = ModuleDef::parse(alloc, source.as_str(), machine)?;
    writeln!(text, "{word}:")?;
    match word {
        "each" => show_each(text, def, machine),
        "lists" => show_lists(alloc, text, def, machine),
        "kept" => show_kept(alloc, text, def, machine),
        "older" => show_older(text, def, machine),
        _ => Err(Fail::new(format_args!("{word} is no word of a case"))),
    }
}

/// Appends a line with the lengths of members.
fn show_lengths(text: &mut String, members: &[Member]) -> Result<(), AllocError> {
    for member in members {
        write!(text, " {}", member.bytes.len())?;
    }
    text.push('\n')
}

/// The lengths of the members for each linker.
fn show_each(text: &mut String, def: ModuleDef, machine: MachineType) -> Result<(), Fail> {
    let members = MsvcImportLibrary::new(def.clone()?, machine).members()?;
    show_lengths(text, members.as_slice())?;
    let members = GnuImportLibrary::new(def, machine).members()?;
    Ok(show_lengths(text, members.as_slice())?)
}

/// The members for Microsoft's linker in three lists.
fn show_lists(
    alloc: Global,
    text: &mut String,
    def: ModuleDef,
    machine: MachineType,
) -> Result<(), Fail> {
    let lists = MsvcImportLibrary::new(def, machine).into_member_lists()?;
    show_lengths(text, lists.header.as_slice())?;
    show_lengths(text, lists.aliases.as_slice())?;
    let imports = &lists.imports;
    for index in 0..imports.len() {
        write!(text, "{} {}", imports.name(index), imports.size(index))?;
        for number in 0..imports.symbol_count(index) {
            write!(text, " {}", imports.symbol(index, number))?;
        }
        text.push(':')?;
        push_bytes(text, imports.bytes(alloc, index)?.as_slice())?;
        text.push('\n')?;
    }
    Ok(())
}

/// The members for GNU's linker whose objects are made when they are wanted; and whether one of
/// them is not the member that is made at once.
fn show_kept(
    alloc: Global,
    text: &mut String,
    def: ModuleDef,
    machine: MachineType,
) -> Result<(), Fail> {
    let members = GnuImportLibrary::new(def.clone()?, machine).members()?;
    let kept = GnuImportLibrary::new(def, machine).into_members()?;
    show_lengths(text, kept.before.as_slice())?;
    let objects = &kept.objects;
    for index in 0..objects.len() {
        write!(text, "{} {}", objects.name(index), objects.size(index))?;
        for number in 0..objects.symbol_count(index) {
            write!(text, " {}", objects.symbol(index, number))?;
        }
        let bytes = objects.bytes(alloc, index)?;
        match members.get(kept.before.len().saturating_add(index)) {
            Some(member) if member.bytes == bytes => {}
            _ => text.push_str(": another member")?,
        }
        text.push('\n')?;
    }
    Ok(())
}

/// The members for GNU's linker with older symbols of addresses.
fn show_older(text: &mut String, def: ModuleDef, machine: MachineType) -> Result<(), Fail> {
    for member in GnuImportLibrary::new(def, machine).members_with_older_symbols()? {
        show_listed(text, &member)?;
        text.push('\n')?;
    }
    Ok(())
}
