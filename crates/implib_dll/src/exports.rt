//! The export directory.

ghost use Rattle.std.specs.Prelude.{◌≡◌, ℕ, ◌+◌, ◌*◌, ◌<◌, ◌≤◌, ◌^◌, length, map, IfOk, Ok};
ghost use Rattle.std.specs.Option.{option_map};
ghost use Rattle.implib_dll.specs.declared.fault.Cause.TheVariants.{DllNameOutside};
ghost use Rattle.implib_dll.specs.Bytes.{u32_at};
ghost use Rattle.implib_dll.specs.Exports.{exports_at, exports_behind, exports_in, found_or};
ghost use Rattle.implib_dll.specs.Exports.{table_at};
ghost use Rattle.implib_dll.specs.Outcome.{Gives};
ghost use Rattle.implib_dll.specs.Sections.{part_at, text_at};
ghost use Rattle.implib_dll.specs.Views.{exports_view, part_view, section_view};

use crate::fault::{Cause, ReadError, refused};
use crate::fields::u32_at;
use crate::header::{EXPORT_TABLE, Header, header_for};
use crate::name::{Name, names_in};
use crate::section::{Layout, Part, Section, part_at, sections_in, text_at};
use crate::target::{Target, targets_in};
use std::alloc::Global;

/// What an image exports. The target at an index has the ordinal `base` + index, modulo 2^32.
#[derive(Drop)]
pub struct Exports<'a> {
    /// 0x14C is I386, 0x1C4 ARMNT, 0x8664 AMD64, 0xAA64 ARM64; any other number is told as it is.
    pub machine: u16,
    pub is_pe32_plus: bool,
    /// The name that the directory gives the DLL, without its NUL.
    pub dll: &'a [u8],
    /// The ordinal of the first target.
    pub base: u32,
    /// The export address table.
    pub targets: Vec<Target<'a>>,
    /// The name pointer table with the ordinal table, in its order.
    pub names: Vec<Name<'a>>,
}

/// The name of the DLL.
fn dll_name<'a>(sections: &[Section<'a>], rva: u32, place: usize) -> Result<&'a [u8], ReadError>
    ensures { Gives (λ text. text.now) result
        (found_or DllNameOutside place (text_at (map section_view sections.now) rva)) }
{
    match text_at(sections, rva) {
        Some(text) => Ok(text),
        None => Err(refused(Cause::DllNameOutside, place)),
    }
}

/// A table of a size, whose address is that at an offset of the directory.
#[tactic(auto, unfolding(crate::specs::Exports::table_at))]
fn table_at<'a>(
    sections: &[Section<'a>],
    cause: Cause,
    directory: &Part,
    offset: usize,
    size: usize,
) -> Result<Part<'a>, ReadError>
    requires low { directory.now.place + offset < 2 ^ 34 }
    requires within { offset + 4 ≤ length directory.now.bytes.now }
    ensures found { Gives part_view result
        (table_at (map section_view sections.now) cause (directory.now.place + offset)
        (u32_at directory.now.bytes.now offset) size) }
    ensures low { IfOk result (λ found. found.place < 2 ^ 33) }
    ensures size { IfOk result (λ found. length found.bytes.now ≡ size) }
{
    if size == 0 {
        return Ok(Part {
            place: 0,
            bytes: &[],
        });
    }
    match part_at(sections, u32_at(directory.bytes, offset), size) {
        Some(found) => Ok(found),
        None => Err(refused(cause, directory.place + offset)),
    }
}

/// What the export directory says, of 40 bytes.
#[tactic(auto, unfolding(crate::specs::Exports::exports_at))]
fn exports_at<'a>(
    alloc: Global,
    header: &Header,
    sections: &[Section<'a>],
    room: usize,
    directory: &Part,
) -> Result<Exports<'a>, ReadError>
    requires low { directory.now.place < 2 ^ 33 }
    requires size { length directory.now.bytes.now ≡ 40 }
    ensures { Gives exports_view result
        (exports_at header.now (map section_view sections.now) room (part_view directory.now)) }
{
    let fields = directory.bytes;
    let functions = u32_at(fields, 20);
    let count = u32_at(fields, 24);
    let dll = dll_name(sections, u32_at(fields, 12), directory.place + 12)?;
    let size = 4 * functions as usize;
    let addresses = table_at(sections, Cause::AddressTableOutside, directory, 28, size)?;
    let size = 4 * count as usize;
    let pointers = table_at(sections, Cause::NameTableOutside, directory, 32, size)?;
    let size = 2 * count as usize;
    let ordinals = table_at(sections, Cause::OrdinalTableOutside, directory, 36, size)?;
    let (targets, left) = targets_in(alloc, sections, header.entry, &addresses, functions, room)?;
    let (names, _) = names_in(alloc, sections, &pointers, ordinals.bytes, count, left)?;
    Ok(Exports {
        machine: header.machine,
        is_pe32_plus: header.is_pe32_plus,
        dll,
        base: u32_at(fields, 16),
        targets,
        names,
    })
}

/// What the export directory says, if there is one.
#[tactic(auto, unfolding(crate::specs::Exports::exports_behind))]
fn exports_behind<'a>(
    alloc: Global,
    header: &Header,
    sections: &[Section<'a>],
    room: usize,
) -> Result<Option<Exports<'a>>, ReadError>
    ensures { Gives (option_map exports_view) result
        (exports_behind header.now (map section_view sections.now) room) }
{
    if header.entry.rva == 0 {
        return Ok(None);
    }
    let Some(directory) = part_at(sections, header.entry.rva, 40) else {
        return Err(refused(Cause::DirectoryOutside, header.entry.place));
    };
    let exports = exports_at(alloc, header, sections, room, &directory)?;
    Ok(Some(exports))
}

/// What an image exports.
#[tactic(auto, unfolding(crate::specs::Exports::exports_in))]
fn exports_in(alloc: Global, layout: Layout, bytes: &[u8]) -> Result<Option<Exports<'_>>, ReadError>
    ensures { Gives (option_map exports_view) result (exports_in layout bytes.now) }
{
    let header = header_for(EXPORT_TABLE, bytes)?;
    let (sections, _) = sections_in(alloc, layout, bytes, header.sections, header.section_count)?;
    exports_behind(alloc, &header, &sections, bytes.len())
}

impl<'a> Exports<'a> {
    /// What an image in a file exports, by the bytes of the file; `None` where it has no export
    /// directory.
    ///
    /// The file is refused for its first fault, whatever its bytes are. Time and memory are linear
    /// in their number, whatever the counts say: the names are slices of the file.
    pub fn read(alloc: Global, bytes: &'a [u8]) -> Result<Option<Exports<'a>>, ReadError>
        ensures { Gives (option_map exports_view) result (exports_in Layout.File bytes.now) }
    {
        exports_in(alloc, Layout::File, bytes)
    }

    /// What an image exports that lies in memory, each section at its address, by the bytes from
    /// its base on; `None` where it has no export directory. As [`Exports::read`] but for that.
    pub fn read_image(alloc: Global, bytes: &'a [u8]) -> Result<Option<Exports<'a>>, ReadError>
        ensures { Gives (option_map exports_view) result (exports_in Layout.Image bytes.now) }
    {
        exports_in(alloc, Layout::Image, bytes)
    }
}
