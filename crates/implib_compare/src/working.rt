//! Whether a library works.

ghost use Rattle.std.specs.Prelude.{◌≡◌, ◌==◌, false, length, map, IfOk, OnOk};
ghost use Rattle.std.specs.Option.{option_map, option_map_or};
ghost use Rattle.implib_compare.specs.Flavors.{flavor_of};
ghost use Rattle.implib_compare.specs.Working.{both_work, ec_found, ec_misleads, first_entries};
ghost use Rattle.implib_compare.specs.Working.{first_found, first_misleads, has_one};
ghost use Rattle.implib_compare.specs.Working.{has_whole_tables, is_linker, is_piece, is_some_cut};
ghost use Rattle.implib_compare.specs.Working.{linked_members, linker_member, misleading};
ghost use Rattle.implib_compare.specs.Working.{misled, misled_by, second_found, second_misleads};
ghost use Rattle.implib_compare.specs.Working.{second_offsets, some_misled, with_first};
ghost use Rattle.implib_compare.specs.Working.{with_offset, working_of, working_status, works_of};
ghost use Rattle.implib_read.specs.ArchiveViews.{archive_view, member_view, part_view};
ghost use Rattle.implib_read.specs.ClassViews.{class_view, member_read_view};
ghost use Rattle.implib_read.specs.Cutting.{cut_apart};
ghost use Rattle.implib_read.specs.CuttingViews.{cut_apart_view};
ghost use Rattle.implib_read.specs.Identity.{dlls_of};
ghost use Rattle.implib_read.specs.IndexViews.{index_entry_view, second_index_view};
ghost use Rattle.implib_read.specs.NameViews.{name_view};

use crate::compare::has_unread;
use crate::flavor::flavor_of;
use implib::Flavor;
use implib_read::{
    Archive, CutApart, IndexEntry, Library, MemberClass, MemberName, MemberRead, Part, SecondIndex,
    StoredMember, arm64_members, cut_apart, dlls_of, ec_index, wrong_ec_entries, wrong_entries,
};
use indexmap::IndexSet;
use std::alloc::{AllocError, Global};

/// A part of import tables.
#[derive(Clone, Copy)]
pub enum Piece {
    /// For Microsoft's linker, the import descriptor.
    OfDescriptor,
    /// For Microsoft's linker, the descriptor that ends the list of them.
    OfNullDescriptor,
    /// For Microsoft's linker, the thunk that ends the tables of a DLL.
    OfNullThunk,
    /// For GNU's linker, the member with the descriptor.
    OfHead,
    /// For GNU's linker, the member that ends the tables of a DLL.
    OfTail,
}

/// Whether a library works.
#[derive(Clone, Copy, Debug)]
pub enum Working {
    /// Its indexes lead where they ought to, linkers ask for the same by each short import, and its
    /// import tables are whole.
    Works,
    /// An index misleads or is not there, linkers ask for different names by a short import, or a
    /// part of the import tables is not there once.
    Broken,
    /// A member may matter that is not read, or the imports are of two or more DLLs.
    NotDecided,
}

/// What is found of a linker member: the entries by which a linker is misled, or `None` where its
/// counts lead out of it.
pub type IndexFound<'a> = Option<Vec<IndexEntry<'a>>>;

/// What decides whether a library works.
#[derive(Drop)]
pub struct Examined<'a> {
    /// Of the first linker member, if there is one.
    pub first: Option<IndexFound<'a>>,
    /// Of the second.
    pub second: Option<IndexFound<'a>>,
    /// Of the EC index, which is for ARM64EC.
    pub ec: Option<IndexFound<'a>>,
    /// The short imports by which linkers ask for different names.
    pub cut: Vec<CutApart<'a>>,
    /// For which linker the library is.
    pub flavor: Flavor,
    /// Of how many DLLs its imports are.
    pub dlls: usize,
    /// Whether the parts of the import tables are there once each.
    pub is_whole: bool,
    pub working: Working,
}

// Whether a part is a linker member.
fn is_linker(name: &MemberName) -> bool
    ensures { result ≡ is_linker (name_view name.now) }
{
    match name {
        MemberName::Linker => true,
        _ => false,
    }
}

/// The data of the linker member that comes after a number of others.
pub fn linker_member<'a>(skipped: usize, parts: &[Part<'a>]) -> Option<&'a [u8]>
    ensures { option_map (λ contents. contents.now) result ≡ linker_member skipped
        (map part_view parts.now) }
{
    let mut skipped = skipped;
    for part in parts {
        if is_linker(&part.name) {
            if skipped == 0 {
                return Some(part.contents);
            }
            skipped -= 1;
        }
    }
    None
}

// Adds an entry, unless one of its symbol is there; the set has the symbols of the entries.
fn add_first<'a>(
    symbols: &mut IndexSet<&'a [u8]>,
    entries: &mut Vec<IndexEntry<'a>>,
    entry: &IndexEntry<'a>,
) -> Result<(), AllocError>
    requires { map (λ k. k.now) symbols.old.keys ≡ map (λ e. e.symbol)
        (map index_entry_view entries.old.items) }
    ensures symbols { OnOk result (map (λ k. k.now) symbols.new.keys
        ≡ map (λ e. e.symbol) (map index_entry_view entries.new.items)) }
    ensures entries { OnOk result (map index_entry_view entries.new.items
        ≡ with_first (map index_entry_view entries.old.items) (index_entry_view entry.now)) }
{
    if !symbols.insert(entry.symbol)? {
        return Ok(());
    }
    entries.push(*entry)?;
    Ok(())
}

// The first entry of each symbol.
fn first_entries<'a>(
    alloc: Global,
    entries: &[IndexEntry<'a>],
) -> Result<Vec<IndexEntry<'a>>, AllocError>
    ensures { IfOk result (λ v. map index_entry_view v.items
        ≡ first_entries (map index_entry_view entries.now)) }
{
    let mut symbols = IndexSet::new(alloc);
    let mut firsts = Vec::new(alloc);
    for entry in entries {
        add_first(&mut symbols, &mut firsts, entry)?;
    }
    Ok(firsts)
}

// The first entries of symbols that do not lead to the first member that declares their symbol.
fn misleading<'a>(
    alloc: Global,
    members: &[StoredMember<'a>],
    entries: &[IndexEntry<'a>],
) -> Result<Vec<IndexEntry<'a>>, AllocError>
    ensures { IfOk result (λ v. map index_entry_view v.items
        ≡ misleading (map member_view members.now) (map index_entry_view entries.now)) }
{
    let firsts = first_entries(alloc, entries)?;
    wrong_entries(alloc, members, &firsts)
}

/// The entries of a first linker member by which a linker is misled: of each symbol the first, if
/// it does not lead to the first member that declares the symbol; or `None` where its counts lead
/// out of it.
pub fn first_misleads<'a>(
    alloc: Global,
    members: &[StoredMember<'a>],
    contents: &'a [u8],
) -> Result<Option<Vec<IndexEntry<'a>>>, AllocError>
    ensures { IfOk result (λ found. option_map (λ v. map index_entry_view v.items) found
        ≡ first_misleads (map member_view members.now) contents.now) }
{
    let entries = IndexEntry::read_first(alloc, contents)?;
    match entries {
        Some(entries) => Ok(Some(misleading(alloc, members, &entries)?)),
        None => Ok(None),
    }
}

// An entry of a second linker member with the offset that its number has.
fn with_offset<'a>(index: &SecondIndex<'a>, entry: &IndexEntry<'a>) -> IndexEntry<'a>
    ensures { index_entry_view result ≡ with_offset (second_index_view index.now).offsets
        (index_entry_view entry.now) }
{
    let place = match index.offset(entry.place) {
        Some(offset) => offset,
        None => 0,
    };
    IndexEntry {
        symbol: entry.symbol,
        place,
    }
}

// The entries of an index with the offsets that their numbers have.
fn with_offsets<'a>(
    alloc: Global,
    index: &SecondIndex<'a>,
) -> Result<Vec<IndexEntry<'a>>, AllocError>
    ensures { IfOk result (λ v. map index_entry_view v.items
        ≡ map (with_offset (second_index_view index.now).offsets)
        (second_index_view index.now).entries) }
{
    let mut entries = Vec::with_capacity(alloc, index.entries.len())?;
    for entry in &index.entries {
        entries.push(with_offset(index, entry))?;
    }
    Ok(entries)
}

/// The same of a second linker member.
pub fn second_misleads<'a>(
    alloc: Global,
    members: &[StoredMember<'a>],
    contents: &'a [u8],
) -> Result<Option<Vec<IndexEntry<'a>>>, AllocError>
    ensures { IfOk result (λ found. option_map (λ v. map index_entry_view v.items) found
        ≡ second_misleads (map member_view members.now) contents.now) }
{
    let index = SecondIndex::read(alloc, contents)?;
    match index {
        Some(index) => {
            let entries = with_offsets(alloc, &index)?;
            Ok(Some(misleading(alloc, members, &entries)?))
        }
        None => Ok(None),
    }
}

/// The same of an EC index, given the offsets of the second linker member.
pub fn ec_misleads<'a>(
    alloc: Global,
    members: &[StoredMember<'a>],
    offsets: &'a [u8],
    contents: &'a [u8],
) -> Result<Option<Vec<IndexEntry<'a>>>, AllocError>
    ensures { IfOk result (λ found. option_map (λ v. map index_entry_view v.items) found
        ≡ ec_misleads (map member_view members.now) offsets.now contents.now) }
{
    let entries = IndexEntry::read_ec(alloc, contents)?;
    match entries {
        Some(entries) => {
            let numbered = SecondIndex { offsets, entries };
            let entries = with_offsets(alloc, &numbered)?;
            let firsts = first_entries(alloc, &entries)?;
            Ok(Some(wrong_ec_entries(alloc, members, &firsts)?))
        }
        None => Ok(None),
    }
}

// The members whose symbols the linker members have.
fn linked_members<'a>(
    alloc: Global,
    archive: &Archive<'a>,
) -> Result<Vec<StoredMember<'a>>, AllocError>
    ensures { IfOk result
        (λ v. map member_view v.items ≡ linked_members (archive_view archive.now)) }
{
    if ec_index(&archive.parts).is_some() {
        return arm64_members(alloc, &archive.members);
    }
    let mut members = Vec::new(alloc);
    members.extend_from_slice(&archive.members)?;
    Ok(members)
}

// What is found of the first linker member, if there is one.
fn first_found<'a>(
    alloc: Global,
    archive: &Archive<'a>,
    members: &[StoredMember<'a>],
) -> Result<Option<IndexFound<'a>>, AllocError>
    requires { map member_view members.now ≡ linked_members (archive_view archive.now) }
    ensures { IfOk result
        (λ found. option_map (option_map (λ v. map index_entry_view v.items)) found
        ≡ first_found (archive_view archive.now)) }
{
    match linker_member(0, &archive.parts) {
        Some(contents) => Ok(Some(first_misleads(alloc, members, contents)?)),
        None => Ok(None),
    }
}

// What is found of the second linker member, if there is one.
fn second_found<'a>(
    alloc: Global,
    archive: &Archive<'a>,
    members: &[StoredMember<'a>],
) -> Result<Option<IndexFound<'a>>, AllocError>
    requires { map member_view members.now ≡ linked_members (archive_view archive.now) }
    ensures { IfOk result
        (λ found. option_map (option_map (λ v. map index_entry_view v.items)) found
        ≡ second_found (archive_view archive.now)) }
{
    match linker_member(1, &archive.parts) {
        Some(contents) => Ok(Some(second_misleads(alloc, members, contents)?)),
        None => Ok(None),
    }
}

// The offsets of the second linker member, or none.
fn second_offsets<'a>(alloc: Global, archive: &Archive<'a>) -> Result<&'a [u8], AllocError>
    ensures { IfOk result (λ offsets. offsets.now ≡ second_offsets (archive_view archive.now)) }
{
    let Some(contents) = linker_member(1, &archive.parts) else {
        return Ok(b"");
    };
    let index = SecondIndex::read(alloc, contents)?;
    match index {
        Some(index) => Ok(index.offsets),
        None => Ok(b""),
    }
}

// What is found of the EC index, if there is one.
fn ec_found<'a>(alloc: Global, archive: &Archive<'a>) -> Result<Option<IndexFound<'a>>, AllocError>
    ensures { IfOk result
        (λ found. option_map (option_map (λ v. map index_entry_view v.items)) found
        ≡ ec_found (archive_view archive.now)) }
{
    let Some(contents) = ec_index(&archive.parts) else {
        return Ok(None);
    };
    let offsets = second_offsets(alloc, archive)?;
    Ok(Some(ec_misleads(alloc, &archive.members, offsets, contents)?))
}

// Whether an index misleads, given what is found of it.
fn misled_by(found: &IndexFound) -> bool
    ensures { result ≡ misled_by (option_map (λ v. map index_entry_view v.items) found.now) }
{
    match found {
        Some(entries) => !entries.is_empty(),
        None => true,
    }
}

// Whether a further index misleads, if there is one.
fn misled_by_further(further: &Option<IndexFound>) -> bool
    ensures { result
        ≡ option_map_or misled_by
        (option_map (option_map (λ v. map index_entry_view v.items)) further.now) false }
{
    match further {
        Some(found) => misled_by(found),
        None => false,
    }
}

// Whether the indexes mislead, given what is found of the first and of the second.
fn misled(first: &Option<IndexFound>, second: &Option<IndexFound>) -> bool
    ensures { result
        ≡ misled (option_map (option_map (λ v. map index_entry_view v.items)) first.now)
        (option_map (option_map (λ v. map index_entry_view v.items)) second.now) }
{
    match first {
        Some(found) => misled_by(found) || misled_by_further(second),
        None => true,
    }
}

// Whether one of three indexes misleads, given what is found of each.
fn some_misled(
    first: &Option<IndexFound>,
    second: &Option<IndexFound>,
    ec: &Option<IndexFound>,
) -> bool
    ensures { result
        ≡ some_misled (option_map (option_map (λ v. map index_entry_view v.items)) first.now)
        (option_map (option_map (λ v. map index_entry_view v.items)) second.now)
        (option_map (option_map (λ v. map index_entry_view v.items)) ec.now) }
{
    misled(first, second) || misled_by_further(ec)
}

// Whether there is a short import by which linkers ask for different names.
fn is_some_cut(cut: &[CutApart]) -> bool
    ensures { result ≡ is_some_cut (map cut_apart_view cut.now) }
{
    !cut.is_empty()
}

/// Whether a member is this part of import tables.
pub fn is_piece(wanted: Piece, class: &MemberClass) -> bool
    ensures { result ≡ is_piece wanted (class_view class.now) }
{
    match wanted {
        Piece::OfDescriptor => match class {
            MemberClass::Descriptor => true,
            _ => false,
        },
        Piece::OfNullDescriptor => match class {
            MemberClass::NullDescriptor => true,
            _ => false,
        },
        Piece::OfNullThunk => match class {
            MemberClass::NullThunk => true,
            _ => false,
        },
        Piece::OfHead => match class {
            MemberClass::Head => true,
            _ => false,
        },
        Piece::OfTail => match class {
            MemberClass::Tail => true,
            _ => false,
        },
    }
}

/// Whether just one member is this part.
pub fn has_one(wanted: Piece, members: &[MemberRead]) -> bool
    ensures { result ≡ has_one wanted (map member_read_view members.now) }
{
    let mut seen = false;
    for member in members {
        if is_piece(wanted, &member.class) {
            if seen {
                return false;
            }
            seen = true;
        }
    }
    seen
}

/// Whether the import tables of a DLL are whole.
pub fn has_whole_tables(flavor: Flavor, members: &[MemberRead]) -> bool
    ensures { result ≡ has_whole_tables flavor (map member_read_view members.now) }
{
    match flavor {
        Flavor::Msvc => {
            has_one(Piece::OfDescriptor, members)
                && has_one(Piece::OfNullDescriptor, members)
                && has_one(Piece::OfNullThunk, members)
        }
        Flavor::Gnu => has_one(Piece::OfHead, members) && has_one(Piece::OfTail, members),
    }
}

/// Whether a library works, given whether an index or a short import misleads, whether a member may
/// import what is not read, of how many DLLs the imports are, and whether the tables of one are
/// whole.
pub fn works_of(misleads: bool, unread: bool, dlls: usize, whole: bool) -> Working
    ensures { result ≡ works_of misleads unread dlls whole }
{
    if misleads {
        Working::Broken
    } else if unread {
        Working::NotDecided
    } else if dlls == 0 {
        Working::Works
    } else if dlls == 1 {
        if whole {
            Working::Works
        } else {
            Working::Broken
        }
    } else {
        Working::NotDecided
    }
}

/// Whether a library works, and what decides it.
pub fn examine<'a>(alloc: Global, library: &Library<'a>) -> Result<Examined<'a>, AllocError>
    ensures first { IfOk result
        (λ e. option_map (option_map (λ v. map index_entry_view v.items)) e.first
        ≡ first_found (archive_view library.now.archive)) }
    ensures second { IfOk result
        (λ e. option_map (option_map (λ v. map index_entry_view v.items)) e.second
        ≡ second_found (archive_view library.now.archive)) }
    ensures ec { IfOk result (λ e. option_map (option_map (λ v. map index_entry_view v.items)) e.ec
        ≡ ec_found (archive_view library.now.archive)) }
    ensures cut { IfOk result (λ e. map cut_apart_view e.cut.items
        ≡ cut_apart (archive_view library.now.archive).members) }
    ensures flavor { IfOk result
        (λ e. e.flavor ≡ flavor_of (map member_read_view library.now.members.items)) }
    ensures dlls { IfOk result
        (λ e. e.dlls ≡ length (dlls_of (map member_read_view library.now.members.items))) }
    ensures whole { IfOk result
        (λ e. e.is_whole
        ≡ has_whole_tables e.flavor (map member_read_view library.now.members.items)) }
    ensures working { IfOk result
        (λ e. e.working
        ≡ working_of (archive_view library.now.archive)
        (map member_read_view library.now.members.items)) }
{
    let members = library.members.as_slice();
    let linked = linked_members(alloc, &library.archive)?;
    let first = first_found(alloc, &library.archive, &linked)?;
    let second = second_found(alloc, &library.archive, &linked)?;
    let ec = ec_found(alloc, &library.archive)?;
    let cut = cut_apart(alloc, &library.archive.members)?;
    let flavor = flavor_of(members);
    let dlls = dlls_of(alloc, members)?.len();
    let is_whole = has_whole_tables(flavor, members);
    let misleads = some_misled(&first, &second, &ec) || is_some_cut(&cut);
    let working = works_of(misleads, has_unread(members), dlls, is_whole);
    Ok(Examined {
        first,
        second,
        ec,
        cut,
        flavor,
        dlls,
        is_whole,
        working,
    })
}

/// The exit status of whether a library works.
pub fn working_status(working: Working) -> u8
    ensures { result ≡ working_status working }
{
    match working {
        Working::Works => 0,
        Working::Broken => 1,
        Working::NotDecided => 4,
    }
}

/// Whether two libraries work, given whether each does.
pub fn both_work(left: Working, right: Working) -> Working
    ensures { result ≡ both_work left right }
{
    match left {
        Working::Broken => Working::Broken,
        Working::NotDecided => match right {
            Working::Broken => Working::Broken,
            Working::NotDecided | Working::Works => Working::NotDecided,
        },
        Working::Works => right,
    }
}
