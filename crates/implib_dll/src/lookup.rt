//! How a loader looks an export up.

ghost use Rattle.std.specs.Prelude.{◌≡◌, ℕ, ◌+◌, ◌<◌, ◌≤◌, length, map, IfSome, IsTrue};
ghost use Rattle.std.specs.Cmp.Lexicographic.{slice_cmp};
ghost use Rattle.std.specs.Option.{option_map};
ghost use Rattle.std.specs.Ordering.{nat_cmp};
ghost use Rattle.implib_dll.specs.Lookup.{by_name, by_ordinal, is_at, names_rise, order_at};
ghost use Rattle.implib_dll.specs.Lookup.{ordinal_of, position_of, rise_from, searched, target_at};
ghost use Rattle.implib_dll.specs.Views.{exports_view, name_view, target_view};

use crate::exports::Exports;
use crate::name::Name;
use crate::target::Target;
use std::cmp::Ordering;

/// Two texts by their bytes.
fn order(text: &[u8], other: &[u8]) -> Ordering
    ensures { result ≡ slice_cmp nat_cmp text.now other.now }
{
    text.cmp(&other)
}

/// The name at a position against a name.
#[tactic(auto, unfolding(crate::specs::Lookup::order_at))]
fn order_at(names: &[Name], position: usize, wanted: &[u8]) -> Ordering
    requires { position < length names.now }
    ensures { result ≡ order_at (map name_view names.now) position wanted.now }
{
    order(names[position].text, wanted)
}

/// Whether the name at a position is a name.
fn is_at(names: &[Name], position: usize, wanted: &[u8]) -> bool
    ensures found { result ≡ is_at (map name_view names.now) position wanted.now }
    ensures within { IsTrue result → position < length names.now }
{
    if position >= names.len() {
        return false;
    }
    match order_at(names, position, wanted) {
        Ordering::Equal => true,
        _ => false,
    }
}

/// Where a binary search finds a name.
fn searched(names: &[Name], wanted: &[u8]) -> Option<usize>
    ensures found { result
        ≡ searched (map name_view names.now) wanted.now (length names.now) 0 (length names.now) }
    ensures within { IfSome result (λ position. position < length names.now) }
{
    let mut low = 0;
    let mut high = names.len();
    while low < high {
        let position = low + (high - 1 - low) / 2;
        match order_at(names, position, wanted) {
            Ordering::Less => low = position + 1,
            Ordering::Equal => return Some(position),
            Ordering::Greater => high = position,
        }
    }
    None
}

/// The position at which a loader finds a name for which there is no hint.
#[tactic(auto, using(crate::proofs::Searching::found_alone))]
fn position_alone(names: &[Name], wanted: &[u8]) -> Option<usize>
    ensures found { result ≡ position_of (map name_view names.now) wanted.now (length names.now) }
    ensures within { IfSome result (λ position. position < length names.now) }
{
    searched(names, wanted)
}

/// Whether names rise strictly by their bytes, from a text on.
fn rise_from(text: &[u8], names: &[Name]) -> bool
    ensures { result ≡ rise_from text.now (map name_view names.now) }
{
    let mut last = text;
    for name in names {
        match order(last, name.text) {
            Ordering::Less => {}
            _ => return false,
        }
        last = name.text;
    }
    true
}

impl<'a> Exports<'a> {
    /// The position in [`Exports::names`] at which a loader finds a name: at the hint of an import,
    /// if the name is there, and else by a binary search, which may miss a name where
    /// [`Exports::names_rise`] is false.
    pub fn position_of(&self, wanted: &[u8], hint: u16) -> Option<usize>
        ensures found { result ≡ position_of (exports_view self.now).names wanted.now hint }
        ensures within { IfSome result (λ position. position < length self.now.names.items) }
    {
        if is_at(&self.names, hint as usize, wanted) {
            return Some(hint as usize);
        }
        searched(&self.names, wanted)
    }

    /// The target of an index of the export address table, if there is one.
    pub fn target_at(&self, index: usize) -> Option<Target<'a>>
        ensures { option_map target_view result ≡ target_at (exports_view self.now).targets index }
    {
        if index >= self.targets.len() {
            return None;
        }
        match self.targets[index] {
            Target::Empty => None,
            target => Some(target),
        }
    }

    /// What a loader finds by a name and the hint of an import: nothing where the name leads to an
    /// empty target, or to none.
    pub fn by_name(&self, wanted: &[u8], hint: u16) -> Option<Target<'a>>
        ensures { option_map target_view result ≡ by_name (exports_view self.now) wanted.now hint }
    {
        match self.position_of(wanted, hint) {
            Some(position) => self.target_at(self.names[position].index as usize),
            None => None,
        }
    }

    /// What a loader finds by a name for which there is no hint, as that of a forwarder.
    pub fn by_name_alone(&self, wanted: &[u8]) -> Option<Target<'a>>
        ensures { option_map target_view result
            ≡ by_name (exports_view self.now) wanted.now (length self.now.names.items) }
    {
        match position_alone(&self.names, wanted) {
            Some(found) => self.target_at(self.names[found].index as usize),
            None => None,
        }
    }

    /// What a loader finds by an ordinal. An import's has 16 bits.
    pub fn by_ordinal(&self, ordinal: u32) -> Option<Target<'a>>
        ensures { option_map target_view result ≡ by_ordinal (exports_view self.now) ordinal }
    {
        self.target_at(ordinal.wrapping_sub(self.base) as usize)
    }

    /// The ordinal of an index of the export address table: the base + index, modulo 2^32.
    pub fn ordinal_of(&self, index: usize) -> u32
        ensures { result ≡ ordinal_of self.now.base index }
    {
        self.base.wrapping_add((index % 0x1_0000_0000) as u32)
    }

    /// Whether each name is less than the next one by its bytes.
    pub fn names_rise(&self) -> bool
        ensures { result ≡ names_rise (exports_view self.now).names }
    {
        match self.names.as_slice() {
            [] => true,
            [first, rest @ ..] => rise_from(first.text, rest),
        }
    }
}
