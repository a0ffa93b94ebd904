//! Sections, and what is at an address.

ghost use Rattle.std.specs.Prelude.{◌≡◌, ℕ, ◌+◌, ◌*◌, ◌<◌, ◌≤◌, ◌^◌, length, map, max, take};
ghost use Rattle.std.specs.Prelude.{IfSome};
ghost use Rattle.std.specs.Option.{option_map};
ghost use Rattle.implib_dll.specs.Outcome.{Gives};
ghost use Rattle.implib_dll.specs.Sections.{contents_at, contents_place, contents_size, data_from};
ghost use Rattle.implib_dll.specs.Sections.{has_address, has_data, kind_at, kind_in, located};
ghost use Rattle.implib_dll.specs.Sections.{part_at, section_at, section_size, section_step};
ghost use Rattle.implib_dll.specs.Sections.{sections_in, text_at};
ghost use Rattle.implib_dll.specs.Views.{part_view, section_view};

use crate::fault::{Cause, ReadError, refused};
use crate::fields::{bytes_at, text_in, u32_at};
use std::alloc::Global;

/// How the bytes of an image lie.
#[derive(Clone, Copy, Debug, PartialEq, Eq)]
pub enum Layout {
    /// As in a file, the data of each section where its header says.
    File,
    /// As in memory, each section at its address.
    Image,
}

/// What is at an address, by the section that has it.
#[derive(Clone, Copy, Debug, PartialEq, Eq)]
pub enum AddressKind {
    /// A section with IMAGE_SCN_MEM_EXECUTE.
    Code,
    /// Another section.
    Data,
    /// No section.
    Outside,
}

/// A section.
#[derive(Clone, Copy)]
pub struct Section<'a> {
    pub address: u32,
    /// The size in memory.
    pub size: u32,
    pub flags: u32,
    /// The offset of the contents.
    pub place: u32,
    pub contents: &'a [u8],
}

/// Bytes of an image.
#[derive(Clone, Copy)]
pub struct Part<'a> {
    /// Their offset.
    pub place: usize,
    pub bytes: &'a [u8],
}

/// Where the data of a section are.
fn contents_place(layout: Layout, bytes: &[u8], place: usize) -> u32
    requires { place + 40 ≤ length bytes.now }
    ensures { result ≡ contents_place layout bytes.now place }
{
    match layout {
        Layout::File => u32_at(bytes, place + 20),
        Layout::Image => u32_at(bytes, place + 12),
    }
}

/// The size of a section in memory.
fn section_size(bytes: &[u8], place: usize) -> u32
    requires { place + 40 ≤ length bytes.now }
    ensures { result ≡ section_size bytes.now place }
{
    u32_at(bytes, place + 8).max(u32_at(bytes, place + 16))
}

/// How many bytes of data a section has.
fn contents_size(layout: Layout, bytes: &[u8], place: usize) -> u32
    requires { place + 40 ≤ length bytes.now }
    ensures { result ≡ contents_size layout bytes.now place }
{
    match layout {
        Layout::File => u32_at(bytes, place + 16),
        Layout::Image => section_size(bytes, place),
    }
}

/// The data of a section.
#[tactic(auto, unfolding(crate::specs::Sections::contents_at))]
fn contents_at(bytes: &[u8], place: usize, size: usize) -> Option<&[u8]>
    ensures { option_map (λ found. found.now) result ≡ contents_at bytes.now place size }
{
    if size == 0 {
        Some(&[])
    } else {
        bytes_at(bytes, place, size)
    }
}

/// The section whose header is at an offset, which begins at `end` or behind it.
#[tactic(auto, unfolding(crate::specs::Sections::section_at))]
fn section_at(
    layout: Layout,
    bytes: &[u8],
    place: usize,
    end: u64,
) -> Result<Section<'_>, ReadError>
    requires { place + 40 ≤ length bytes.now }
    ensures { Gives section_view result (section_at layout bytes.now place end) }
{
    let address = u32_at(bytes, place + 12);
    if (address as u64) < end {
        return Err(refused(Cause::SectionsOverlap, place + 12));
    }
    let contents_place = contents_place(layout, bytes, place);
    let contents_size = contents_size(layout, bytes, place) as usize;
    let Some(contents) = contents_at(bytes, contents_place as usize, contents_size) else {
        return Err(refused(Cause::SectionDataCut, place + 20));
    };
    Ok(Section {
        address,
        size: section_size(bytes, place),
        flags: u32_at(bytes, place + 36),
        place: contents_place,
        contents,
    })
}

/// The section of a number, and where it ends.
fn section_step(
    layout: Layout,
    bytes: &[u8],
    sections: usize,
    number: usize,
    end: u64,
) -> Result<(Section<'_>, u64), ReadError>
    requires small { number < 2 ^ 16 }
    requires within { sections + 40 * number + 40 ≤ length bytes.now }
    ensures { Gives (λ found. (section_view found.0, found.1)) result
        (section_step layout bytes.now sections number end) }
{
    let section = section_at(layout, bytes, sections + 40 * number, end)?;
    let end = section.address as u64 + section.size as u64;
    Ok((section, end))
}

/// The sections of an image, and where the last one ends.
pub(crate) fn sections_in(
    alloc: Global,
    layout: Layout,
    bytes: &[u8],
    place: usize,
    count: u16,
) -> Result<(Vec<Section<'_>>, u64), ReadError>
    requires { place + 40 * count ≤ length bytes.now }
    ensures { Gives (λ found. (map section_view found.0.items, found.1)) result
        (sections_in layout bytes.now place count) }
{
    let mut sections = Vec::new(alloc);
    let mut end = 0;
    for number in 0..count {
        let (section, next_end) = section_step(layout, bytes, place, number as usize, end)?;
        sections.push(section)?;
        end = next_end;
    }
    Ok((sections, end))
}

impl<'a> Section<'a> {
    /// Whether the data have the byte of an address.
    fn has_data(&self, rva: u32) -> bool
        ensures { result ≡ has_data (section_view self.now) rva }
    {
        self.address <= rva && ((rva - self.address) as usize) < self.contents.len()
    }

    /// The data from an address on, and their offset.
    fn data_from(&self, rva: u32) -> Part<'a>
        requires low { self.now.address ≤ rva }
        requires high { rva < self.now.address + length self.now.contents.now }
        ensures found { part_view result ≡ data_from (section_view self.now) rva }
        ensures low { result.place < 2 ^ 33 }
    {
        let offset = rva - self.address;
        Part {
            place: self.place as usize + offset as usize,
            bytes: &self.contents[offset as usize..],
        }
    }

    /// Whether the section has an address in memory.
    fn has_address(&self, rva: u32) -> bool
        ensures { result ≡ has_address (section_view self.now) rva }
    {
        self.address <= rva && rva - self.address < self.size
    }

    /// The kind of an address of the section.
    fn kind_in(&self) -> AddressKind
        ensures { result ≡ kind_in (section_view self.now) }
    {
        if self.flags / 0x2000_0000 % 2 == 1 {
            AddressKind::Code
        } else {
            AddressKind::Data
        }
    }
}

/// The bytes from an address on, and their offset.
pub(crate) fn located<'a>(sections: &[Section<'a>], rva: u32) -> Option<Part<'a>>
    ensures found { option_map part_view result ≡ located (map section_view sections.now) rva }
    ensures low { IfSome result (λ found. found.place < 2 ^ 33) }
{
    for section in sections {
        if section.has_data(rva) {
            return Some(section.data_from(rva));
        }
    }
    None
}

/// As many bytes at an address, in one section, and their offset.
#[tactic(auto, unfolding(crate::specs::Sections::part_at))]
pub(crate) fn part_at<'a>(sections: &[Section<'a>], rva: u32, size: usize) -> Option<Part<'a>>
    ensures found { option_map part_view result ≡ part_at (map section_view sections.now) rva size }
    ensures low { IfSome result (λ found. found.place < 2 ^ 33) }
    ensures size { IfSome result (λ found. length found.bytes.now ≡ size) }
{
    let Some(found) = located(sections, rva) else {
        return None;
    };
    if size <= found.bytes.len() {
        Some(Part {
            place: found.place,
            bytes: &found.bytes[..size],
        })
    } else {
        None
    }
}

/// The text at an address.
#[tactic(auto, unfolding(crate::specs::Sections::text_at))]
pub(crate) fn text_at<'a>(sections: &[Section<'a>], rva: u32) -> Option<&'a [u8]>
    ensures { option_map (λ found. found.now) result ≡ text_at (map section_view sections.now) rva }
{
    match located(sections, rva) {
        Some(found) => text_in(found.bytes),
        None => None,
    }
}

/// The kind of an address.
pub(crate) fn kind_at(sections: &[Section], rva: u32) -> AddressKind
    ensures { result ≡ kind_at (map section_view sections.now) rva }
{
    for section in sections {
        if section.has_address(rva) {
            return section.kind_in();
        }
    }
    AddressKind::Outside
}
