//! The indexes of archives.

ghost use Rattle.std.specs.Prelude.{◌≡◌, ℕ, ◌+◌, ◌*◌, ◌<◌, ◌≤◌, ◌^◌, length, map, take, IfOk};
ghost use Rattle.std.specs.Int.{from_be_bytes, w32};
ghost use Rattle.std.specs.Option.{option_map};
ghost use Rattle.implib_read.specs.Indexes.{ec_entries_in, entries_behind, entries_from};
ghost use Rattle.implib_read.specs.Indexes.{first_index_in, place_in, place_size};
ghost use Rattle.implib_read.specs.Indexes.{offset_numbered, second_index_in, second_index_with};
ghost use Rattle.implib_read.specs.IndexViews.{index_entry_view, second_index_view};

use crate::fields::{behind, bytes_at, text_in, u16_at, u32_at};
use std::alloc::{AllocError, Global};

/// An entry of an index.
#[derive(Clone, Copy)]
pub struct IndexEntry<'a> {
    pub symbol: &'a [u8],
    /// In the first linker member the offset of the header of the symbol's member; in the second,
    /// and in an EC index, the number of that among the second's offsets, from 1.
    pub place: u32,
}

/// A second linker member.
#[derive(Drop)]
pub struct SecondIndex<'a> {
    /// The offsets of headers, in 4 bytes each, the low byte first.
    pub offsets: &'a [u8],
    pub entries: Vec<IndexEntry<'a>>,
}

/// The number in four bytes, the high byte first.
fn u32_be(bytes: &[u8]) -> u32
    requires { 4 ≤ length bytes.now }
    ensures { result ≡ from_be_bytes w32 (take 4 bytes.now) }
{
    u32::from_be_bytes([bytes[0], bytes[1], bytes[2], bytes[3]])
}

/// How many bytes a place has.
fn place_size(second: bool) -> usize
    ensures size { result ≡ place_size second }
    ensures small { result ≤ 4 }
{
    if second { 2 } else { 4 }
}

/// The place at the front.
fn place_in(second: bool, places: &[u8]) -> u32
    requires { place_size second ≤ length places.now }
    ensures { result ≡ place_in second places.now }
{
    if second {
        u16_at(places, 0) as u32
    } else {
        u32_be(places)
    }
}

/// Entries, with their places one after the other, and so their symbols.
fn entries_from<'a>(
    alloc: Global,
    second: bool,
    count: usize,
    places: &[u8],
    symbols: &'a [u8],
) -> Result<Option<Vec<IndexEntry<'a>>>, AllocError>
    requires { length places.now ≡ place_size second * count }
    ensures { IfOk result (λ found. option_map (λ v. map index_entry_view v.items) found
        ≡ entries_from second count places.now symbols.now) }
{
    let mut entries = Vec::new(alloc);
    let size = place_size(second);
    let mut places = places;
    let mut symbols = symbols;
    let mut left = count;
    while left > 0 {
        let Some((symbol, rest)) = text_in(symbols) else {
            return Ok(None);
        };
        let place = place_in(second, places);
        entries.push(IndexEntry { symbol, place })?;
        places = behind(places, size);
        symbols = rest;
        left -= 1;
    }
    Ok(Some(entries))
}

/// The entries whose places and then symbols begin at an offset.
fn entries_behind<'a>(
    alloc: Global,
    second: bool,
    count: u32,
    offset: usize,
    contents: &'a [u8],
) -> Result<Option<Vec<IndexEntry<'a>>>, AllocError>
    requires { offset < 2 ^ 40 }
    ensures { IfOk result (λ found. option_map (λ v. map index_entry_view v.items) found
        ≡ entries_behind second count offset contents.now) }
{
    let size = place_size(second) * count as usize;
    match bytes_at(contents, offset, size) {
        Some(places) => entries_from(
            alloc,
            second,
            count as usize,
            places,
            behind(contents, offset + size),
        ),
        None => Ok(None),
    }
}

impl<'a> IndexEntry<'a> {
    /// The entries of a first linker member, or `None` where its counts lead out of it.
    #[tactic(auto, unfolding(crate::specs::Indexes::first_index_in))]
    pub fn read_first(
        alloc: Global,
        contents: &'a [u8],
    ) -> Result<Option<Vec<IndexEntry<'a>>>, AllocError>
        ensures { IfOk result (λ found. option_map (λ v. map index_entry_view v.items) found
            ≡ first_index_in contents.now) }
    {
        match bytes_at(contents, 0, 4) {
            Some(count) => entries_behind(alloc, false, u32_be(count), 4, contents),
            None => Ok(None),
        }
    }

    /// The entries of an EC index, or `None` where its count leads out of it. Their places are
    /// numbers among the offsets of the second linker member, from 1.
    #[tactic(auto, unfolding(crate::specs::Indexes::ec_entries_in))]
    pub fn read_ec(
        alloc: Global,
        contents: &'a [u8],
    ) -> Result<Option<Vec<IndexEntry<'a>>>, AllocError>
        ensures { IfOk result (λ found. option_map (λ v. map index_entry_view v.items) found
            ≡ ec_entries_in contents.now) }
    {
        match bytes_at(contents, 0, 4) {
            Some(count) => entries_behind(alloc, true, u32_at(count, 0), 4, contents),
            None => Ok(None),
        }
    }
}

/// A second linker member, from its offsets on.
fn second_index_with<'a>(
    alloc: Global,
    contents: &'a [u8],
    behind: usize,
    offsets: &'a [u8],
) -> Result<Option<SecondIndex<'a>>, AllocError>
    requires { behind < 2 ^ 36 }
    ensures { IfOk result (λ found. option_map second_index_view found
        ≡ second_index_with contents.now behind offsets.now) }
{
    let Some(count) = bytes_at(contents, behind, 4) else {
        return Ok(None);
    };
    let entries = entries_behind(alloc, true, u32_at(count, 0), behind + 4, contents)?;
    match entries {
        Some(entries) => Ok(Some(SecondIndex { offsets, entries })),
        None => Ok(None),
    }
}

impl<'a> SecondIndex<'a> {
    /// The second linker member in the bytes, or `None` where its counts lead out of them.
    #[tactic(auto, unfolding(crate::specs::Indexes::second_index_in))]
    pub fn read(alloc: Global, contents: &'a [u8]) -> Result<Option<SecondIndex<'a>>, AllocError>
        ensures { IfOk result (λ found. option_map second_index_view found
            ≡ second_index_in contents.now) }
    {
        let Some(members) = bytes_at(contents, 0, 4) else {
            return Ok(None);
        };
        let size = 4 * u32_at(members, 0) as usize;
        match bytes_at(contents, 4, size) {
            Some(offsets) => second_index_with(alloc, contents, 4 + size, offsets),
            None => Ok(None),
        }
    }

    /// The offset of a number, from 1.
    #[tactic(auto, using(crate::proofs::IndexEntries::offset_numbered_at))]
    pub fn offset(&self, number: u32) -> Option<u32>
        ensures { result ≡ offset_numbered self.now.offsets.now number }
    {
        if number == 0 {
            return None;
        }
        match bytes_at(self.offsets, 4 * (number as usize - 1), 4) {
            Some(offset) => Some(u32_at(offset, 0)),
            None => None,
        }
    }
}
