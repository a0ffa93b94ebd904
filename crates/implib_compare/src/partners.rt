//! Which keys of a list have no partner in another list.

ghost use Rattle.std.specs.Prelude.{◌≡◌, ℕ, ◌+◌, ◌-◌, ◌<◌, ◌^◌, List, [], ◌&&◌, not, nat_lt, map};
ghost use Rattle.std.specs.Prelude.{bytes_eq, if◌then◌else◌, IfOk, OnOk};
ghost use Rattle.implib_compare.specs.Partners.{counted, has_no_byte, how_many, lack_partners};

use std::alloc::{AllocError, Global};
use std::collections::HashMap;

// How many of each key there are.
type Counts<'k> = HashMap<&'k [u8], usize>;

// How many of a key are noted.
fn counted(counts: &Counts, key: &[u8]) -> usize
    ensures { result ≡ counted counts.now key.now }
{
    counts.get(&key).copied().unwrap_or(0)
}

// Notes one more of a key.
#[tactic(auto, using(std::proofs::lemmas::Map::Text::text_keys))]
fn note<'k>(counts: &mut Counts<'k>, key: &'k [u8]) -> Result<(), AllocError>
    requires { counted counts.old key.now < 2 ^ 63 }
    ensures { OnOk result ((other : List ℕ) → counted counts.new other
        ≡ counted counts.old other + (if bytes_eq other key.now then 1 else 0)) }
{
    let count = counted(counts, key);
    counts.insert(key, count + 1)?;
    Ok(())
}

// How many of each key there are.
fn counts_of<'k>(alloc: Global, keys: &'k [Vec<u8>]) -> Result<Counts<'k>, AllocError>
    ensures { IfOk result (λ counts. (key : List ℕ) → counted counts key
        ≡ how_many key (map (λ k. k.items) keys.now)) }
{
    let mut counts = HashMap::new(alloc);
    for key in keys {
        note(&mut counts, key)?;
    }
    Ok(counts)
}

// Takes away one of a key; whether there was none.
#[tactic(auto, using(std::proofs::lemmas::Map::Text::text_keys))]
fn finds_none<'k>(counts: &mut Counts<'k>, key: &'k [u8]) -> Result<bool, AllocError>
    ensures none { IfOk result (λ none. none ≡ not (nat_lt 0 (counted counts.old key.now))) }
    ensures counts { OnOk result ((other : List ℕ) → counted counts.new other
        ≡ counted counts.old other - (if bytes_eq other key.now then 1 else 0)) }
{
    let count = counted(counts, key);
    if count == 0 {
        return Ok(true);
    }
    counts.insert(key, count - 1)?;
    Ok(false)
}

// Takes away one of a key; whether there was none, and the key is one that needs a partner.
fn lacks_partner<'k>(counts: &mut Counts<'k>, key: &'k [u8]) -> Result<bool, AllocError>
    ensures lacks { IfOk result
        (λ lacks. lacks
        ≡ (not (has_no_byte key.now) && not (nat_lt 0 (counted counts.old key.now)))) }
    ensures counts { OnOk result ((other : List ℕ) → counted counts.new other
        ≡ counted counts.old other - (if bytes_eq other key.now then 1 else 0)) }
{
    let is_none = finds_none(counts, key)?;
    Ok(!key.is_empty() && is_none)
}

/// Of each key, in order, whether it has no partner among others: as many equal ones are before it
/// as the others have. An empty key needs none.
pub fn lack_partners(
    alloc: Global,
    keys: &[Vec<u8>],
    others: &[Vec<u8>],
) -> Result<Vec<bool>, AllocError>
    ensures { IfOk result
        (λ flags. flags.items
        ≡ lack_partners [] (map (λ k. k.items) keys.now) (map (λ k. k.items) others.now)) }
{
    let mut counts = counts_of(alloc, others)?;
    let mut flags = Vec::with_capacity(alloc, keys.len())?;
    for key in keys {
        flags.push(lacks_partner(&mut counts, key)?)?;
    }
    Ok(flags)
}
