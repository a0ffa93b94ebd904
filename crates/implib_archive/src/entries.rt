//! The entries of the index.

ghost use Rattle.implib_archive.specs.Archive.{entries_from, entries_of, sorted_entries};
ghost use Rattle.implib_archive.specs.Archive.{with_first};
ghost use Rattle.implib_archive.specs.Pushed.{AreDistinct, AreInOrder, entry_cmp, shown};
ghost use Rattle.implib_archive.specs.Sources.{member_at};
ghost use Rattle.std.specs.Prelude.{◌≡◌, ◌++◌, ◌-◌, ◌<◌, ◌^◌, [], IfOk, OnOk, fold, length, map};
ghost use Rattle.std.specs.Prelude.{min};
ghost use Rattle.std.specs.Bool.{MatchBool};
ghost use Rattle.std.specs.List.Sorted.{IsPermutation, IsSorted};

use crate::kind::Kind;
use crate::source::{Members, Source};
use indexmap::IndexMap;
use std::alloc::{AllocError, Global};

/// The entries of the index, and of the COFF kind the same in the order of their symbols' bytes.
#[derive(Drop)]
pub struct Entries<'a> {
    pub listed: Vec<(&'a str, usize)>,
    pub sorted: Vec<(&'a str, usize)>,
}

/// The entries of the index: symbols, and the numbers of their members from 1.
pub fn entries_of<'a, S: Source<'a>>(
    alloc: Global,
    source: &S,
    kind: Kind,
) -> Result<Entries<'a>, AllocError>
    ensures listed { IfOk result (λ entries. shown entries.listed.items
        ≡ entries_of kind (S.members source.now)) }
    ensures sorted { IfOk result (λ entries. AreInOrder kind (S.members source.now)
        (shown entries.sorted.items)) }
{
    let listed = all_entries(alloc, source)?;
    match kind {
        Kind::Gnu => {
            let sorted = Vec::new(alloc);
            Ok(Entries { listed, sorted })
        }
        Kind::Coff => first_entries(alloc, listed),
    }
}

// All entries, in the order of the members.
fn all_entries<'a, S: Source<'a>>(
    alloc: Global,
    source: &S,
) -> Result<Vec<(&'a str, usize)>, AllocError>
    ensures { IfOk result (λ entries. shown entries.items ≡ entries_from 1 (S.members source.now)) }
{
    let mut entries = Vec::with_capacity(alloc, count_of(source))?;
    for index in 0..source.count() {
        push_entries(&mut entries, source, index, index + 1)?;
    }
    Ok(entries)
}

// The number of the members' symbols; it saturates at 2^64 - 1.
fn count_of<'a, S: Source<'a>>(source: &S) -> usize
    ensures { result ≡ min (length (entries_from 1 (S.members source.now))) (2 ^ 64 - 1) }
{
    let mut count: usize = 0;
    for index in 0..source.count() {
        count = count.saturating_add(source.symbol_count(index));
    }
    count
}

// Appends the entries of the member at an index; its number is given.
fn push_entries<'a, S: Source<'a>>(
    entries: &mut Vec<(&'a str, usize)>,
    source: &S,
    index: usize,
    number: usize,
) -> Result<(), AllocError>
    requires { index < length (S.members source.now) }
    ensures { OnOk result (shown entries.new.items
        ≡ shown entries.old.items
        ++ map (λ symbol. (symbol, number)) (member_at (S.members source.now) index).symbols) }
{
    for symbol in 0..source.symbol_count(index) {
        entries.push((source.symbol(index, symbol), number))?;
    }
    Ok(())
}

// The first entry of each symbol, also in the order of their symbols' bytes. Where sorted entries
// repeat no symbol, each is the first.
fn first_entries<'a>(
    alloc: Global,
    entries: Vec<(&'a str, usize)>,
) -> Result<Entries<'a>, AllocError>
    ensures listed { IfOk result (λ firsts. shown firsts.listed.items
        ≡ fold with_first [] (shown entries.entry.items)) }
    ensures sorted { IfOk result (λ firsts. shown firsts.sorted.items
        ≡ sorted_entries (fold with_first [] (shown entries.entry.items))) }
{
    let sorted = in_order(alloc, entries.as_slice())?;
    if are_distinct(sorted.as_slice()) {
        return Ok(Entries {
            listed: entries,
            sorted,
        });
    }
    let listed = first_of_each(alloc, entries.as_slice())?;
    let sorted = in_order(alloc, listed.as_slice())?;
    Ok(Entries { listed, sorted })
}

// The first entry of each symbol.
fn first_of_each<'a>(
    alloc: Global,
    entries: &[(&'a str, usize)],
) -> Result<Vec<(&'a str, usize)>, AllocError>
    ensures { IfOk result (λ firsts. shown firsts.items ≡ fold with_first [] (shown entries.now)) }
{
    let mut listed = IndexMap::new(alloc);
    let mut firsts = Vec::with_capacity(alloc, entries.len())?;
    for entry in entries {
        push_first(&mut listed, &mut firsts, entry.0, entry.1)?;
    }
    Ok(firsts)
}

// Adds an entry to both, unless its symbol is listed.
fn push_first<'a>(
    listed: &mut IndexMap<&'a str, usize>,
    firsts: &mut Vec<(&'a str, usize)>,
    symbol: &'a str,
    number: usize,
) -> Result<(), AllocError>
    requires { shown firsts.old.items ≡ shown listed.old.entries }
    ensures listed { OnOk result (shown listed.new.entries
        ≡ with_first (shown listed.old.entries) (symbol.now, number)) }
    ensures firsts { OnOk result (shown firsts.new.items
        ≡ with_first (shown listed.old.entries) (symbol.now, number)) }
{
    if listed.contains_key(symbol) {
        return Ok(());
    }
    listed.insert(symbol, number)?;
    firsts.push((symbol, number))?;
    Ok(())
}

// The entries in the order of their symbols' bytes, and of one symbol in that of their numbers. A
// sort is quick where parts are in order already.
fn in_order<'a>(
    alloc: Global,
    entries: &[(&'a str, usize)],
) -> Result<Vec<(&'a str, usize)>, AllocError>
    ensures same { IfOk result (λ sorted. IsPermutation entries.now sorted.items) }
    ensures order { IfOk result (λ sorted. IsSorted entry_cmp sorted.items) }
{
    let mut sorted = parted(alloc, entries)?;
    sorted.sort()?;
    Ok(sorted)
}

// Whether no symbol of sorted entries is repeated.
fn are_distinct(sorted: &[(&str, usize)]) -> bool
    requires { IsSorted entry_cmp sorted.now }
    ensures { MatchBool result (AreDistinct (shown sorted.now))
        (AreDistinct (shown sorted.now) → ⊥) }
{
    for i in 1..sorted.len() {
        if sorted[i - 1].0 == sorted[i].0 {
            return false;
        }
    }
    true
}

// The entries in four parts: by the prefixes of an import's address, of its auxiliary one and of a
// function's mark for ARM64EC, and the others. Definitions are often sorted, and then so is each.
fn parted<'a>(
    alloc: Global,
    entries: &[(&'a str, usize)],
) -> Result<Vec<(&'a str, usize)>, AllocError>
    ensures { IfOk result (λ parted. IsPermutation entries.now parted.items) }
{
    let mut parted = Vec::with_capacity(alloc, entries.len())?;
    let mut auxiliary = Vec::new(alloc);
    let mut marked = Vec::new(alloc);
    let mut others = Vec::with_capacity(alloc, entries.len() / 2)?;
    for entry in entries {
        let symbol = entry.0.as_bytes();
        if symbol.starts_with(b"__imp_aux_") {
            auxiliary.push(*entry)?;
        } else if symbol.starts_with(b"__imp_") {
            parted.push(*entry)?;
        } else if symbol.starts_with(b"#") {
            marked.push(*entry)?;
        } else {
            others.push(*entry)?;
        }
    }
    parted.append(&mut auxiliary)?;
    parted.append(&mut marked)?;
    parted.append(&mut others)?;
    Ok(parted)
}
