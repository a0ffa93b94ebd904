//! The size of an archive's front, and the offsets of the members' headers.

ghost use Rattle.implib_archive.specs.Archive.{end_from, first_linker_size, front_size, names_size};
ghost use Rattle.implib_archive.specs.Archive.{places_from, second_linker_size, strings_of};
ghost use Rattle.implib_archive.specs.Parts.{part_size};
ghost use Rattle.implib_archive.specs.Pushed.{IsRefusal, shown};
ghost use Rattle.implib_archive.specs.Refusal.{places_refusal};
ghost use Rattle.std.specs.List.{All};
ghost use Rattle.std.specs.Prelude.{◌≡◌, ◌<◌, ◌≤◌, ◌+◌, ◌-◌, ◌^◌, IfErr, IfOk, None, OnOk, length};
ghost use Rattle.std.specs.Prelude.{min};

use crate::error::{Error, Fault};
use crate::kind::Kind;
use crate::source::{Members, Source};
use std::alloc::Global;

/// The offset of the first member's header, those of all headers, and the archive's end, which is
/// `first` where there are no members.
#[derive(Drop)]
pub struct Places {
    pub first: u64,
    pub offsets: Vec<u32>,
    pub end: u64,
}

// The cap of sizes: a header is at a smaller offset.
const TOO_LONG: u64 = 1 << 32;

// The size, or the cap where that is smaller.
fn capped(size: u64) -> u64
    ensures { result ≡ min size (2 ^ 32) }
{
    if size < TOO_LONG { size } else { TOO_LONG }
}

// The size of a part whose data has this size.
fn part_size(size: u64) -> u64
    requires { size < 2 ^ 63 }
    ensures { result ≡ part_size size }
{
    60 + size + size % 2
}

/// The size of the entries' symbols, each with its NUL; it saturates at 2^64 - 1.
pub fn strings_size(entries: &[(&str, usize)]) -> u64
    ensures { result ≡ min (length (strings_of (shown entries.now))) (2 ^ 64 - 1) }
{
    let mut size: u64 = 0;
    for entry in entries {
        size = size.saturating_add(entry.0.len() as u64 + 1);
    }
    size
}

// The size of the first linker member.
#[tactic(auto, unfolding(crate::specs::Archive::first_linker_size))]
fn first_linker_size(kind: Kind, entries: u64, strings: u64) -> u64
    requires few { entries ≤ 2 ^ 32 }
    requires short { strings ≤ 2 ^ 32 }
    ensures size { result ≡ first_linker_size kind entries strings }
    ensures bound { result ≤ 2 ^ 36 }
{
    match kind {
        Kind::Coff => part_size(4 + 4 * entries + strings),
        Kind::Gnu => {
            if entries > 0 {
                part_size(4 + 4 * entries + strings)
            } else {
                0
            }
        }
    }
}

// The size of the second linker member.
#[tactic(auto, unfolding(crate::specs::Archive::second_linker_size))]
fn second_linker_size(kind: Kind, members: u64, entries: u64, strings: u64) -> u64
    requires few_members { members ≤ 2 ^ 32 }
    requires few { entries ≤ 2 ^ 32 }
    requires short { strings ≤ 2 ^ 32 }
    ensures size { result ≡ second_linker_size kind members entries strings }
    ensures bound { result ≤ 2 ^ 36 }
{
    match kind {
        Kind::Coff => part_size(8 + 4 * members + 2 * entries + strings),
        Kind::Gnu => 0,
    }
}

// The size of the long names member.
#[tactic(auto, unfolding(crate::specs::Archive::names_size))]
fn names_size(size: u64) -> u64
    requires { size ≤ 2 ^ 32 }
    ensures size { result ≡ names_size size }
    ensures bound { result ≤ 2 ^ 36 }
{
    if size > 0 { part_size(size) } else { 0 }
}

// The size of the front by the numbers of members and entries and the sizes of strings and long
// names, each capped.
#[tactic(auto, unfolding(crate::specs::Archive::front_size))]
pub(crate) fn front_size(
    kind: Kind,
    members: usize,
    entries: usize,
    strings: u64,
    names: u64,
) -> u64
    ensures { result ≡ front_size kind (min members (2 ^ 32)) (min entries (2 ^ 32))
        (min strings (2 ^ 32)) (min names (2 ^ 32)) }
{
    let members = capped(members as u64);
    let entries = capped(entries as u64);
    let strings = capped(strings);
    let first = first_linker_size(kind, entries, strings);
    let second = second_linker_size(kind, members, entries, strings);
    8 + first + second + names_size(capped(names))
}

/// The places of the members, the first of which begins at this offset.
pub fn place_members<'a, S: Source<'a>>(
    alloc: Global,
    first: u64,
    source: &S,
) -> Result<Places, Error>
    requires { All (λ m. length m.bytes < 2 ^ 32) (S.members source.now) }
    ensures accepted { OnOk result (places_refusal first (S.members source.now) ≡ None) }
    ensures offsets { IfOk result (λ places. places.offsets.items
        ≡ places_from first (S.members source.now)) }
    ensures end { IfOk result (λ places. places.end ≡ end_from first (S.members source.now)) }
    ensures refused { IfErr result (IsRefusal (places_refusal first (S.members source.now))) }
{
    if first >= TOO_LONG {
        return Err(Error::Invalid(Fault::ArchiveTooLong));
    }
    let mut offsets = Vec::with_capacity(alloc, source.count())?;
    let mut place = first;
    for index in 0..source.count() {
        if place >= TOO_LONG {
            return Err(Error::Invalid(Fault::ArchiveTooLong));
        }
        offsets.push(place as u32)?;
        place += part_size(source.size(index) as u64);
    }
    Ok(Places {
        first,
        offsets,
        end: place,
    })
}
