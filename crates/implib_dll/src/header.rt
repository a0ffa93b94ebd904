//! The headers of an image.

ghost use Rattle.std.specs.Prelude.{◌≡◌, ℕ, ◌+◌, ◌*◌, ◌<◌, ◌≤◌, ◌^◌, length, IfOk};
ghost use Rattle.implib_dll.specs.Headers.{entry_in, header_at, header_for, header_of, header_with};
ghost use Rattle.implib_dll.specs.Headers.{is_dos_header, is_signature, signature_in};
ghost use Rattle.implib_dll.specs.Outcome.{Gives};

use crate::fault::{Cause, ReadError, refused};
use crate::fields::{u16_at, u32_at};

/// The number of the data directory that is the export table, and of the import table.
pub(crate) const EXPORT_TABLE: usize = 0;

pub(crate) const IMPORT_TABLE: usize = 1;

/// The entry of a data directory.
#[derive(Clone, Copy)]
pub struct Entry {
    /// The offset of the entry.
    pub place: usize,
    /// The address of the table, or 0 where there is none.
    pub rva: u32,
    pub size: u32,
}

/// What the headers say.
#[derive(Clone, Copy)]
pub struct Header {
    pub machine: u16,
    pub is_pe32_plus: bool,
    pub entry: Entry,
    /// The offset of the section table.
    pub sections: usize,
    pub section_count: u16,
}

/// Whether the bytes begin with a header of MS-DOS.
fn is_dos_header(bytes: &[u8]) -> bool
    ensures { result ≡ is_dos_header bytes.now }
{
    bytes.len() >= 64 && u16_at(bytes, 0) == 0x5A4D
}

/// Whether there is a signature with a COFF header at an offset.
fn is_signature(bytes: &[u8], place: usize) -> bool
    requires { place < 2 ^ 32 }
    ensures { result ≡ is_signature bytes.now place }
{
    place + 24 <= bytes.len() && u32_at(bytes, place) == 0x4550
}

/// The offset of the signature.
#[tactic(auto, unfolding(crate::specs::Headers::signature_in))]
fn signature_in(bytes: &[u8]) -> Result<usize, ReadError>
    ensures found { Gives (λ place. place) result (signature_in bytes.now) }
    ensures within { IfOk result (λ place. place + 24 ≤ length bytes.now) }
    ensures low { IfOk result (λ place. place < 2 ^ 32) }
{
    if !is_dos_header(bytes) {
        return Err(refused(Cause::NoDosHeader, 0));
    }
    let place = u32_at(bytes, 0x3C) as usize;
    if !is_signature(bytes, place) {
        return Err(refused(Cause::NoPeSignature, 0x3C));
    }
    Ok(place)
}

/// The entry of a data directory.
#[tactic(auto, unfolding(crate::specs::Headers::entry_in))]
fn entry_in(
    number: usize,
    bytes: &[u8],
    optional: usize,
    size: usize,
    fields: usize,
) -> Result<Entry, ReadError>
    requires number { number < 16 }
    requires low { 4 ≤ optional }
    requires fields { 4 ≤ fields }
    requires few { fields < 256 }
    requires within { optional + size ≤ length bytes.now }
    ensures { Gives (λ entry. entry) result (entry_in number bytes.now optional size fields) }
{
    if size < fields {
        return Err(refused(Cause::OptionalHeaderCut, optional - 4));
    }
    let place = optional + fields + 8 * number;
    if u32_at(bytes, optional + fields - 4) as usize <= number {
        return Ok(Entry {
            place,
            rva: 0,
            size: 0,
        });
    }
    if size < fields + 8 * number + 8 {
        return Err(refused(Cause::OptionalHeaderCut, optional - 4));
    }
    Ok(Entry {
        place,
        rva: u32_at(bytes, place),
        size: u32_at(bytes, place + 4),
    })
}

/// What the headers say, with the section table behind the optional header.
#[tactic(auto, unfolding(crate::specs::Headers::header_with))]
fn header_with(
    bytes: &[u8],
    place: usize,
    is_pe32_plus: bool,
    end: usize,
    entry: Entry,
) -> Result<Header, ReadError>
    requires signature { place + 24 ≤ length bytes.now }
    requires end { end < 2 ^ 40 }
    ensures found { Gives (λ header. header) result
        (header_with bytes.now place is_pe32_plus end entry) }
    ensures within { IfOk result
        (λ header. header.sections + 40 * header.section_count ≤ length bytes.now) }
{
    let section_count = u16_at(bytes, place + 6);
    if section_count > 96 {
        return Err(refused(Cause::TooManySections, place + 6));
    }
    if bytes.len() < end + 40 * section_count as usize {
        return Err(refused(Cause::SectionTableCut, place + 6));
    }
    Ok(Header {
        machine: u16_at(bytes, place + 4),
        is_pe32_plus,
        entry,
        sections: end,
        section_count,
    })
}

/// What the headers say, by the kind of the optional header.
fn header_of(
    number: usize,
    bytes: &[u8],
    place: usize,
    size: usize,
    is_pe32_plus: bool,
    fields: usize,
) -> Result<Header, ReadError>
    requires number { number < 16 }
    requires low { place + size < 2 ^ 39 }
    requires fields { 4 ≤ fields }
    requires few { fields < 256 }
    requires within { place + 24 + size ≤ length bytes.now }
    ensures found { Gives (λ header. header) result
        (header_of number bytes.now place size is_pe32_plus fields) }
    ensures within { IfOk result
        (λ header. header.sections + 40 * header.section_count ≤ length bytes.now) }
{
    let entry = entry_in(number, bytes, place + 24, size, fields)?;
    header_with(bytes, place, is_pe32_plus, place + 24 + size, entry)
}

/// The headers behind a signature.
#[tactic(auto, unfolding(crate::specs::Headers::header_at))]
fn header_at(number: usize, bytes: &[u8], place: usize, size: usize) -> Result<Header, ReadError>
    requires number { number < 16 }
    requires low { place + size < 2 ^ 39 }
    requires signature { place + 24 ≤ length bytes.now }
    ensures found { Gives (λ header. header) result (header_at number bytes.now place size) }
    ensures within { IfOk result
        (λ header. header.sections + 40 * header.section_count ≤ length bytes.now) }
{
    if size < 2 {
        return Err(refused(Cause::OptionalHeaderCut, place + 20));
    }
    if bytes.len() < place + 24 + size {
        return Err(refused(Cause::OptionalHeaderCut, place + 20));
    }
    let magic = u16_at(bytes, place + 24);
    if magic == 0x10B {
        return header_of(number, bytes, place, size, false, 96);
    }
    if magic == 0x20B {
        return header_of(number, bytes, place, size, true, 112);
    }
    Err(refused(Cause::UnknownMagic, place + 24))
}

/// The headers of a file, with the entry of a data directory.
#[tactic(auto, unfolding(crate::specs::Headers::header_for))]
pub(crate) fn header_for(number: usize, bytes: &[u8]) -> Result<Header, ReadError>
    requires { number < 16 }
    ensures found { Gives (λ header. header) result (header_for number bytes.now) }
    ensures within { IfOk result
        (λ header. header.sections + 40 * header.section_count ≤ length bytes.now) }
{
    let place = signature_in(bytes)?;
    header_at(number, bytes, place, u16_at(bytes, place + 20) as usize)
}
