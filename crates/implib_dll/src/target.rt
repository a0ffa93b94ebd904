//! Where exports lead.

ghost use Rattle.std.specs.Prelude.{◌≡◌, ℕ, ◌+◌, ◌*◌, ◌<◌, ◌≤◌, ◌^◌, length, map};
ghost use Rattle.implib_dll.specs.Exports.{is_forwarder, target_of, target_step, text_within};
ghost use Rattle.implib_dll.specs.Outcome.{Gives, each_from};
ghost use Rattle.implib_dll.specs.Sections.{text_at};
ghost use Rattle.implib_dll.specs.Views.{part_view, section_view, target_view};

use crate::fault::{Cause, ReadError, refused};
use crate::fields::u32_at;
use crate::header::Entry;
use crate::section::{AddressKind, Part, Section, kind_at, text_at};
use std::alloc::Global;

/// Where an entry of the export address table leads.
#[derive(Clone, Copy, Debug)]
pub enum Target<'a> {
    /// The address is 0: there is no export of this ordinal.
    Empty,
    /// An address, relative to the base of the image.
    Address(u32, AddressKind),
    /// An export of another DLL, as `NTDLL.RtlAllocateHeap` or `NTDLL.#27`.
    Forwarder(&'a [u8]),
}

/// The text at an address, for which there is room, and the room that it leaves.
pub(crate) fn text_within<'a>(
    sections: &[Section<'a>],
    rva: u32,
    cause: Cause,
    place: usize,
    room: usize,
) -> Result<(&'a [u8], usize), ReadError>
    ensures { Gives (λ found. (found.0.now, found.1)) result
        (text_within cause place room (text_at (map section_view sections.now) rva)) }
{
    let Some(text) = text_at(sections, rva) else {
        return Err(refused(cause, place));
    };
    if text.len() < room {
        Ok((text, room - (text.len() + 1)))
    } else {
        Err(refused(Cause::TextsTooLong, place))
    }
}

/// Whether an address is that of a forwarder.
fn is_forwarder(entry: Entry, address: u32) -> bool
    ensures { result ≡ is_forwarder entry address }
{
    entry.rva <= address && address - entry.rva < entry.size
}

/// The target of an address, and the room that it leaves.
#[tactic(auto, unfolding(crate::specs::Exports::target_of))]
fn target_of<'a>(
    sections: &[Section<'a>],
    entry: Entry,
    address: u32,
    place: usize,
    room: usize,
) -> Result<(Target<'a>, usize), ReadError>
    ensures { Gives (λ found. (target_view found.0, found.1)) result
        (target_of (map section_view sections.now) entry address place room) }
{
    if address == 0 {
        return Ok((Target::Empty, room));
    }
    if is_forwarder(entry, address) {
        let (text, left) = text_within(sections, address, Cause::ForwarderOutside, place, room)?;
        return Ok((Target::Forwarder(text), left));
    }
    Ok((Target::Address(address, kind_at(sections, address)), room))
}

/// The target of an index, and the room that it leaves.
fn target_step<'a>(
    sections: &[Section<'a>],
    entry: Entry,
    table: &Part,
    index: usize,
    room: usize,
) -> Result<(Target<'a>, usize), ReadError>
    requires low { table.now.place + index < 2 ^ 34 }
    requires table { 4 * index + 4 ≤ length table.now.bytes.now }
    ensures { Gives (λ found. (target_view found.0, found.1)) result
        (target_step (map section_view sections.now) entry (part_view table.now) index room) }
{
    let address = u32_at(table.bytes, 4 * index);
    target_of(sections, entry, address, table.place + 4 * index, room)
}

/// The targets of an export address table, and the room that they leave.
pub(crate) fn targets_in<'a>(
    alloc: Global,
    sections: &[Section<'a>],
    entry: Entry,
    table: &Part,
    count: u32,
    room: usize,
) -> Result<(Vec<Target<'a>>, usize), ReadError>
    requires low { table.now.place < 2 ^ 33 }
    requires size { length table.now.bytes.now ≡ 4 * count }
    ensures { Gives (λ found. (map target_view found.0.items, found.1)) result
        (each_from (target_step (map section_view sections.now) entry (part_view table.now)) 0 count
        room) }
{
    let mut targets = Vec::new(alloc);
    let mut left = room;
    for index in 0..count {
        let (target, next_left) = target_step(sections, entry, table, index as usize, left)?;
        targets.push(target)?;
        left = next_left;
    }
    Ok((targets, left))
}
