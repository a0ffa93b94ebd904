//! Names of exports.

ghost use Rattle.std.specs.Prelude.{◌≡◌, ℕ, ◌+◌, ◌*◌, ◌<◌, ◌≤◌, ◌^◌, length, map};
ghost use Rattle.implib_dll.specs.Exports.{name_step};
ghost use Rattle.implib_dll.specs.Outcome.{Gives, each_from};
ghost use Rattle.implib_dll.specs.Views.{name_view, part_view, section_view};

use crate::fault::{Cause, ReadError};
use crate::fields::{u16_at, u32_at};
use crate::section::{Part, Section};
use crate::target::text_within;
use std::alloc::Global;

/// An entry of the name pointer table, with the one of the ordinal table.
#[derive(Clone, Copy, Debug)]
pub struct Name<'a> {
    /// The name, without its NUL.
    pub text: &'a [u8],
    /// An index of the export address table. Nothing says that it has so many entries.
    pub index: u16,
}

/// The name of a number, and the room that it leaves.
fn name_step<'a>(
    sections: &[Section<'a>],
    pointers: &Part,
    ordinals: &[u8],
    number: usize,
    room: usize,
) -> Result<(Name<'a>, usize), ReadError>
    requires low { pointers.now.place + number < 2 ^ 34 }
    requires pointers { 4 * number + 4 ≤ length pointers.now.bytes.now }
    requires ordinals { 2 * number + 2 ≤ length ordinals.now }
    ensures { Gives (λ found. (name_view found.0, found.1)) result
        (name_step (map section_view sections.now)
        (part_view pointers.now) ordinals.now number room) }
{
    let rva = u32_at(pointers.bytes, 4 * number);
    let place = pointers.place + 4 * number;
    let (text, left) = text_within(sections, rva, Cause::NameOutside, place, room)?;
    let index = u16_at(ordinals, 2 * number);
    Ok((Name { text, index }, left))
}

/// The names of a name pointer table, and the room that they leave.
pub(crate) fn names_in<'a>(
    alloc: Global,
    sections: &[Section<'a>],
    pointers: &Part,
    ordinals: &[u8],
    count: u32,
    room: usize,
) -> Result<(Vec<Name<'a>>, usize), ReadError>
    requires low { pointers.now.place < 2 ^ 33 }
    requires pointers { length pointers.now.bytes.now ≡ 4 * count }
    requires ordinals { length ordinals.now ≡ 2 * count }
    ensures { Gives (λ found. (map name_view found.0.items, found.1)) result
        (each_from (name_step (map section_view sections.now) (part_view pointers.now) ordinals.now)
        0 count room) }
{
    let mut names = Vec::new(alloc);
    let mut left = room;
    for number in 0..count {
        let (name, next_left) = name_step(sections, pointers, ordinals, number as usize, left)?;
        names.push(name)?;
        left = next_left;
    }
    Ok((names, left))
}
