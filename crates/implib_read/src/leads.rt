//! Whether the index of an archive leads where it ought to.

ghost use Rattle.std.specs.Prelude.{◌≡◌, ℕ, ◌==◌, List, [], ◌∷◌, Some, None, map, bytes_eq};
ghost use Rattle.std.specs.Prelude.{if◌then◌else◌, IfOk, OnOk};
ghost use Rattle.std.specs.List.{filter_map};
ghost use Rattle.std.specs.Option.{option_map, option_or};
ghost use Rattle.implib.specs.Formats.File.{declared_by_entry};
ghost use Rattle.implib_read.specs.ArchiveViews.{member_view};
ghost use Rattle.implib_read.specs.Classes.{files_of};
ghost use Rattle.implib_read.specs.FileViews.{file_view};
ghost use Rattle.implib_read.specs.IndexViews.{index_entry_view};
ghost use Rattle.implib_read.specs.Leads.{declared_by_found, first_declarer, import_names};
ghost use Rattle.implib_read.specs.Leads.{offset_if_listed, unless_at};
ghost use Rattle.implib_read.specs.Leads.{wrong_entries, wrong_entry};
ghost use Rattle.implib_read.specs.LeadViews.{offset_of};
ghost use Rattle.implib_read.specs.ObjectViews.{entry_view};

use crate::archive::StoredMember;
use crate::arm64ec::declared_by_short_import;
use crate::file::FileFound;
use crate::follow::is_defined_external;
use crate::index::IndexEntry;
use crate::library::files_of;
use crate::object::Entry;
use std::alloc::{AllocError, Global};
use std::collections::HashMap;

/// The offsets of the first members that declare symbols.
pub(crate) type Declarers<'n> = HashMap<&'n [u8], usize>;

/// Notes the offset of a symbol, unless one is noted.
fn note_symbol<'n>(
    declarers: &mut Declarers<'n>,
    symbol: &'n [u8],
    offset: usize,
) -> Result<(), AllocError>
    ensures { OnOk result ((other : List ℕ) → offset_of declarers.new other
        ≡ option_or (offset_of declarers.old other)
        (if bytes_eq symbol.now other then Some offset else None)) }
{
    if !declarers.contains_key(&symbol) {
        declarers.insert(symbol, offset)?;
    }
    Ok(())
}

/// The symbol that an entry declares.
fn declared_by_entry<'a>(entry: &Entry<'a>) -> Option<&'a [u8]>
    ensures { option_map (λ name. name.now) result ≡ declared_by_entry (entry_view entry.now) }
{
    match entry {
        Entry::Auxiliary(_) => None,
        Entry::Symbol(symbol) => {
            if is_defined_external(symbol) || symbol.class == 105 {
                Some(symbol.name)
            } else {
                None
            }
        }
    }
}

/// Notes the symbols that entries declare.
fn note_entries<'n, 'a: 'n>(
    declarers: &mut Declarers<'n>,
    entries: &[Entry<'a>],
    offset: usize,
) -> Result<(), AllocError>
    ensures { OnOk result ((other : List ℕ) → offset_of declarers.new other
        ≡ option_or (offset_of declarers.old other)
        (offset_if_listed offset (filter_map declared_by_entry (map entry_view entries.now))
        other)) }
{
    for entry in entries {
        let Some(name) = declared_by_entry(entry) else {
            continue;
        };
        note_symbol(declarers, name, offset)?;
    }
    Ok(())
}

/// Notes names.
fn note_names<'n>(
    declarers: &mut Declarers<'n>,
    names: &'n [Vec<u8>],
    offset: usize,
) -> Result<(), AllocError>
    ensures { OnOk result ((other : List ℕ) → offset_of declarers.new other
        ≡ option_or (offset_of declarers.old other)
        (offset_if_listed offset (map (λ name. name.items) names.now) other)) }
{
    for name in names {
        note_symbol(declarers, name, offset)?;
    }
    Ok(())
}

/// Notes the symbols that a file declares, given those of a short import.
fn note_file<'n, 'a: 'n>(
    declarers: &mut Declarers<'n>,
    file: &FileFound<'a>,
    names: &'n [Vec<u8>],
    offset: usize,
) -> Result<(), AllocError>
    requires { map (λ name. name.items) names.now ≡ import_names (file_view file.now) }
    ensures { OnOk result ((other : List ℕ) → offset_of declarers.new other
        ≡ option_or (offset_of declarers.old other)
        (offset_if_listed offset (declared_by_found (file_view file.now)) other)) }
{
    match file {
        FileFound::ShortImport(_) => note_names(declarers, names, offset),
        FileFound::Object(object) => note_entries(declarers, &object.entries, offset),
        FileFound::NotRead => Ok(()),
    }
}

/// The symbols that a short import declares, or none of another file.
fn import_names(alloc: Global, file: &FileFound) -> Result<Vec<Vec<u8>>, AllocError>
    ensures { IfOk result (λ v. map (λ name. name.items) v.items
        ≡ import_names (file_view file.now)) }
{
    match file {
        FileFound::ShortImport(import) => declared_by_short_import(alloc, import),
        FileFound::Object(_) | FileFound::NotRead => Ok(Vec::new(alloc)),
    }
}

/// The symbols that the short imports among files declare.
pub(crate) fn names_of_files(
    alloc: Global,
    files: &[FileFound],
) -> Result<Vec<Vec<Vec<u8>>>, AllocError>
    ensures { IfOk result (λ v. map (λ names. map (λ name. name.items) names.items) v.items
        ≡ map import_names (map file_view files.now)) }
{
    let mut names = Vec::new(alloc);
    for file in files {
        names.push(import_names(alloc, file)?)?;
    }
    Ok(names)
}

/// The entry, unless it leads to this offset.
pub(crate) fn unless_at<'a>(offset: Option<usize>, entry: &IndexEntry<'a>) -> Option<IndexEntry<'a>>
    ensures { option_map index_entry_view result ≡ unless_at offset (index_entry_view entry.now) }
{
    let Some(offset) = offset else {
        return Some(*entry);
    };
    if entry.place as usize == offset {
        None
    } else {
        Some(*entry)
    }
}

/// Notes the symbols that members declare, given their files and the symbols of short imports.
fn note_members<'n, 'a: 'n>(
    declarers: &mut Declarers<'n>,
    members: &[StoredMember<'a>],
    files: &[FileFound<'a>],
    names: &'n [Vec<Vec<u8>>],
) -> Result<(), AllocError>
    requires files { map file_view files.now ≡ files_of (map member_view members.now) }
    requires names { map (λ names. map (λ name. name.items) names.items) names.now
        ≡ map import_names (map file_view files.now) }
    ensures { OnOk result ((other : List ℕ) → offset_of declarers.new other
        ≡ option_or (offset_of declarers.old other)
        (first_declarer (map member_view members.now) other)) }
{
    for i in 0..members.len() {
        note_file(declarers, &files[i], &names[i], members[i].offset)?;
    }
    Ok(())
}

/// The offsets of the first members that declare symbols.
pub(crate) fn declarers_of<'n, 'a: 'n>(
    alloc: Global,
    members: &[StoredMember<'a>],
    files: &[FileFound<'a>],
    names: &'n [Vec<Vec<u8>>],
) -> Result<Declarers<'n>, AllocError>
    requires files { map file_view files.now ≡ files_of (map member_view members.now) }
    requires names { map (λ names. map (λ name. name.items) names.items) names.now
        ≡ map import_names (map file_view files.now) }
    ensures { IfOk result (λ declarers. (other : List ℕ) → offset_of declarers other
        ≡ first_declarer (map member_view members.now) other) }
{
    let mut declarers = HashMap::new(alloc);
    note_members(&mut declarers, members, files, names)?;
    Ok(declarers)
}

/// The offset of the first member that declares a symbol.
pub(crate) fn declarer_of(declarers: &Declarers, symbol: &[u8]) -> Option<usize>
    ensures { result ≡ offset_of declarers.now symbol.now }
{
    declarers.get(&symbol).copied()
}

/// The entry, unless it leads to the first member that declares its symbol.
fn wrong_entry<'a>(declarers: &Declarers, entry: &IndexEntry<'a>) -> Option<IndexEntry<'a>>
    ensures { option_map index_entry_view result ≡ wrong_entry (offset_of declarers.now)
        (index_entry_view entry.now) }
{
    unless_at(declarer_of(declarers, entry.symbol), entry)
}

/// The entries that do not lead to the first member that declares their symbol.
fn wrong_among<'a>(
    alloc: Global,
    declarers: &Declarers,
    entries: &[IndexEntry<'a>],
) -> Result<Vec<IndexEntry<'a>>, AllocError>
    ensures { IfOk result (λ v. map index_entry_view v.items
        ≡ wrong_entries (offset_of declarers.now) (map index_entry_view entries.now)) }
{
    let mut wrong = Vec::new(alloc);
    for entry in entries {
        let Some(found) = wrong_entry(declarers, entry) else {
            continue;
        };
        wrong.push(found)?;
    }
    Ok(wrong)
}

/// The entries of a first linker member that do not lead to the first of the members that declares
/// their symbol.
pub fn wrong_entries<'a>(
    alloc: Global,
    members: &[StoredMember<'a>],
    entries: &[IndexEntry<'a>],
) -> Result<Vec<IndexEntry<'a>>, AllocError>
    ensures { IfOk result (λ v. map index_entry_view v.items
        ≡ wrong_entries (first_declarer (map member_view members.now))
        (map index_entry_view entries.now)) }
{
    let files = files_of(alloc, members)?;
    let names = names_of_files(alloc, &files)?;
    let declarers = declarers_of(alloc, members, &files, &names)?;
    wrong_among(alloc, &declarers, entries)
}
