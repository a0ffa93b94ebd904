//! Whether the EC index of an archive leads where it ought to.

ghost use Rattle.std.specs.Prelude.{◌≡◌, map, true, IfOk};
ghost use Rattle.std.specs.Option.{option_map};
ghost use Rattle.implib_read.specs.ArchiveViews.{member_view};
ghost use Rattle.implib_read.specs.FileViews.{file_view};
ghost use Rattle.implib_read.specs.Files.{file_found};
ghost use Rattle.implib_read.specs.IndexViews.{index_entry_view};
ghost use Rattle.implib_read.specs.Leads.{ec_declarer, first_declarer, first_ec_declarer, is_arm64};
ghost use Rattle.implib_read.specs.Leads.{is_for};
ghost use Rattle.implib_read.specs.Leads.{is_table_symbol, members_for, wrong_entries, wrong_entry};
ghost use Rattle.implib_read.specs.LeadViews.{offset_of};

use crate::archive::StoredMember;
use crate::file::FileFound;
use crate::index::IndexEntry;
use crate::leads::{Declarers, declarer_of, declarers_of, names_of_files, unless_at};
use crate::library::files_of;
use std::alloc::{AllocError, Global};

/// Whether a file is of ARM64.
fn is_arm64(file: &FileFound) -> bool
    ensures { result ≡ is_arm64 (file_view file.now) }
{
    match file {
        FileFound::ShortImport(import) => import.machine == 0xAA64,
        FileFound::Object(object) => object.machine == 0xAA64,
        FileFound::NotRead => false,
    }
}

/// Whether a member is of ARM64, or is not.
fn is_for(alloc: Global, wanted: bool, member: &StoredMember) -> Result<bool, AllocError>
    ensures { IfOk result (λ is. is ≡ is_for wanted (file_found (member_view member.now).bytes)) }
{
    let file = FileFound::read(alloc, member.bytes)?;
    let is = is_arm64(&file);
    Ok(if wanted { is } else { !is })
}

/// The members of ARM64, or those that are not.
fn members_for<'a>(
    alloc: Global,
    wanted: bool,
    members: &[StoredMember<'a>],
) -> Result<Vec<StoredMember<'a>>, AllocError>
    ensures { IfOk result
        (λ v. map member_view v.items ≡ members_for wanted (map member_view members.now)) }
{
    let mut found = Vec::new(alloc);
    for member in members {
        if is_for(alloc, wanted, member)? {
            found.push(*member)?;
        }
    }
    Ok(found)
}

/// The members of ARM64, whose symbols the linker members of an archive with an EC index have.
pub fn arm64_members<'a>(
    alloc: Global,
    members: &[StoredMember<'a>],
) -> Result<Vec<StoredMember<'a>>, AllocError>
    ensures { IfOk result
        (λ v. map member_view v.items ≡ members_for true (map member_view members.now)) }
{
    members_for(alloc, true, members)
}

/// Whether a symbol is of import tables.
fn is_table_symbol(symbol: &[u8]) -> bool
    ensures { result ≡ is_table_symbol symbol.now }
{
    symbol.starts_with(b"__IMPORT_DESCRIPTOR_")
        || symbol == b"__NULL_IMPORT_DESCRIPTOR".as_slice()
        || (symbol.starts_with(b"\x7f") && symbol.ends_with(b"_NULL_THUNK_DATA"))
}

/// The offset of the member to which an EC index ought to lead a symbol.
fn ec_declarer(tables: &Declarers, others: &Declarers, symbol: &[u8]) -> Option<usize>
    ensures { result ≡ ec_declarer (offset_of tables.now) (offset_of others.now) symbol.now }
{
    if is_table_symbol(symbol) {
        if let Some(offset) = declarer_of(tables, symbol) {
            return Some(offset);
        }
    }
    declarer_of(others, symbol)
}

/// The entry, unless it leads where it ought to.
fn wrong_entry<'a>(
    tables: &Declarers,
    others: &Declarers,
    entry: &IndexEntry<'a>,
) -> Option<IndexEntry<'a>>
    ensures { option_map index_entry_view result
        ≡ wrong_entry (ec_declarer (offset_of tables.now) (offset_of others.now))
        (index_entry_view entry.now) }
{
    unless_at(ec_declarer(tables, others, entry.symbol), entry)
}

/// The entries that do not lead where they ought to.
fn wrong_among<'a>(
    alloc: Global,
    tables: &Declarers,
    others: &Declarers,
    entries: &[IndexEntry<'a>],
) -> Result<Vec<IndexEntry<'a>>, AllocError>
    ensures { IfOk result (λ v. map index_entry_view v.items
        ≡ wrong_entries (ec_declarer (offset_of tables.now) (offset_of others.now))
        (map index_entry_view entries.now)) }
{
    let mut wrong = Vec::new(alloc);
    for entry in entries {
        let Some(found) = wrong_entry(tables, others, entry) else {
            continue;
        };
        wrong.push(found)?;
    }
    Ok(wrong)
}

/// The entries that do not lead where they ought to, given the members of ARM64 and the others.
fn wrong_by<'a>(
    alloc: Global,
    arm64: &[StoredMember<'a>],
    rest: &[StoredMember<'a>],
    entries: &[IndexEntry<'a>],
) -> Result<Vec<IndexEntry<'a>>, AllocError>
    ensures { IfOk result (λ v. map index_entry_view v.items
        ≡ wrong_entries
        (ec_declarer (first_declarer (map member_view arm64.now))
        (first_declarer (map member_view rest.now))) (map index_entry_view entries.now)) }
{
    let arm64_files = files_of(alloc, arm64)?;
    let arm64_names = names_of_files(alloc, &arm64_files)?;
    let tables = declarers_of(alloc, arm64, &arm64_files, &arm64_names)?;
    let rest_files = files_of(alloc, rest)?;
    let rest_names = names_of_files(alloc, &rest_files)?;
    let others = declarers_of(alloc, rest, &rest_files, &rest_names)?;
    wrong_among(alloc, &tables, &others, entries)
}

/// The entries of an EC index, with offsets for numbers, that do not lead to the first of the
/// members that declares their symbol: of import tables the first of ARM64, and else the first that
/// is not of ARM64.
pub fn wrong_ec_entries<'a>(
    alloc: Global,
    members: &[StoredMember<'a>],
    entries: &[IndexEntry<'a>],
) -> Result<Vec<IndexEntry<'a>>, AllocError>
    ensures { IfOk result (λ v. map index_entry_view v.items
        ≡ wrong_entries (first_ec_declarer (map member_view members.now))
        (map index_entry_view entries.now)) }
{
    let arm64 = members_for(alloc, true, members)?;
    let rest = members_for(alloc, false, members)?;
    wrong_by(alloc, &arm64, &rest, entries)
}
