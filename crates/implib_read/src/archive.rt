//! Archives.

ghost use Rattle.std.specs.Prelude.{◌≡◌, ℕ, [], ◌∷◌, ◌+◌, ◌<◌, ◌≤◌, length, map, drop, bytes_eq};
ghost use Rattle.std.specs.Prelude.{codes, take, IsSome, IfOk, IfSome};
ghost use Rattle.std.specs.List.{filter_map};
ghost use Rattle.std.specs.Option.{option_map};
ghost use Rattle.implib_archive.specs.Reader.{data_at, stored_at};
ghost use Rattle.implib_read.specs.Archives.{cut_from, cut_in};
ghost use Rattle.implib_read.specs.Archives.{archive_in, ec_index_in, is_ec_name, long_names_in};
ghost use Rattle.implib_read.specs.Archives.{member_of, parts_from, parts_in, said};
ghost use Rattle.implib_read.specs.ArchiveViews.{archive_view, member_view, part_view};
ghost use Rattle.implib_read.specs.MemberNames.{ends_from};
ghost use Rattle.implib_read.specs.NameViews.{name_view};

use crate::fields::behind;
use crate::lines::line_ends;
use crate::names::{MemberName, is_text, long_name_at, member_name, number_in};
use std::alloc::{AllocError, Global};

/// A part of an archive: a member, an index, the long names, or one that is special to its maker.
#[derive(Clone, Copy)]
pub struct Part<'a> {
    /// The offset of its header in the file.
    pub offset: usize,
    pub name: MemberName<'a>,
    pub contents: &'a [u8],
}

/// A member.
#[derive(Clone, Copy)]
pub struct StoredMember<'a> {
    pub name: &'a [u8],
    pub bytes: &'a [u8],
    /// The offset of its header in the file.
    pub offset: usize,
}

/// An archive.
#[derive(Drop)]
pub struct Archive<'a> {
    /// All parts, in order.
    pub parts: Vec<Part<'a>>,
    /// Those that are members, in order.
    pub members: Vec<StoredMember<'a>>,
}

/// Data of a size at an offset, if there is as much.
#[tactic(auto, unfolding(implib_archive::specs::Reader::data_at))]
fn data_at(bytes: &[u8], offset: usize, size: usize) -> Option<&[u8]>
    requires { offset ≤ length bytes.now }
    ensures found { option_map (λ found. found.now) result ≡ data_at bytes.now offset size }
    ensures size { IfSome result (λ found. length found.now ≡ size) }
    ensures within { IsSome result → offset + size ≤ length bytes.now }
{
    if size <= bytes.len() - offset {
        Some(&bytes[offset..offset + size])
    } else {
        None
    }
}

/// Whether a header ends as each does.
fn is_header(header: &[u8]) -> bool
    requires { length header.now ≡ 60 }
    ensures { result ≡ bytes_eq (drop 58 header.now) (96 ∷ 10 ∷ []) }
{
    is_text(behind(header, 58), b"`\n")
}

/// The name and the data of the header at the front, and after it.
#[tactic(auto, unfolding(implib_archive::specs::Reader::stored_at))]
fn stored_at(bytes: &[u8]) -> Option<(MemberName<'_>, &[u8])>
    ensures found { option_map (λ found. (name_view found.0, found.1.now)) result
        ≡ option_map said (stored_at bytes.now 0) }
    ensures within { IfSome result (λ found. 60 + length found.1.now ≤ length bytes.now) }
{
    let Some(header) = data_at(bytes, 0, 60) else {
        return None;
    };
    if !is_header(header) {
        return None;
    }
    let Some(size) = number_in(&header[48..58]) else {
        return None;
    };
    match data_at(bytes, 60, size) {
        Some(contents) => Some((member_name(&header[..16]), contents)),
        None => None,
    }
}

/// The parts after the signature.
fn parts_behind<'a>(alloc: Global, bytes: &'a [u8]) -> Result<Option<Vec<Part<'a>>>, AllocError>
    requires { 8 ≤ length bytes.now }
    ensures { IfOk result (λ found. option_map (λ v. map part_view v.items) found
        ≡ parts_from 0 8 (drop 8 bytes.now)) }
{
    let mut parts = Vec::new(alloc);
    let mut rest = behind(bytes, 8);
    while rest.len() > 0 {
        let Some((name, contents)) = stored_at(rest) else {
            return Ok(None);
        };
        let offset = bytes.len() - rest.len();
        parts.push(Part {
            offset,
            name,
            contents,
        })?;
        rest = behind(rest, 60 + contents.len() + contents.len() % 2);
    }
    Ok(Some(parts))
}

/// The offset of the first header behind the signature that is none, or whose data leads out of the
/// bytes.
fn cut_behind(bytes: &[u8]) -> Option<usize>
    requires { 8 ≤ length bytes.now }
    ensures { result ≡ cut_from 0 8 (drop 8 bytes.now) }
{
    let mut rest = behind(bytes, 8);
    while rest.len() > 0 {
        let Some((_, contents)) = stored_at(rest) else {
            return Some(bytes.len() - rest.len());
        };
        rest = behind(rest, 60 + contents.len() + contents.len() % 2);
    }
    None
}

/// The offset of the header at which bytes that begin as an archive are cut off: the first that is
/// none, or whose data leads out of the bytes. There is none where they are a whole archive, or do
/// not begin as one.
#[tactic(auto, unfolding(crate::specs::Archives::cut_in))]
pub fn cut_at(bytes: &[u8]) -> Option<usize>
    ensures { result ≡ cut_in bytes.now }
{
    if is_archive(bytes) {
        cut_behind(bytes)
    } else {
        None
    }
}

/// Whether the bytes begin as an archive.
fn is_archive(bytes: &[u8]) -> bool
    ensures is { result ≡ bytes_eq (take 8 bytes.now) (codes "!<arch>\n") }
{
    is_text(&bytes[..bytes.len().min(8)], b"!<arch>\n")
}

/// The parts of an archive.
#[tactic(auto, unfolding(crate::specs::Archives::parts_in))]
fn parts_in(alloc: Global, bytes: &[u8]) -> Result<Option<Vec<Part<'_>>>, AllocError>
    ensures { IfOk result (λ found. option_map (λ v. map part_view v.items) found
        ≡ parts_in bytes.now) }
{
    if is_archive(bytes) {
        parts_behind(alloc, bytes)
    } else {
        Ok(None)
    }
}

/// The data of the first part that has long names, or nothing.
fn long_names<'a>(parts: &[Part<'a>]) -> &'a [u8]
    ensures { result.now ≡ long_names_in (map part_view parts.now) }
{
    for part in parts {
        if let MemberName::LongNames = part.name {
            return part.contents;
        }
    }
    &[]
}

/// Whether a name is that of the EC index.
fn is_ec_name(name: &MemberName) -> bool
    ensures { result ≡ is_ec_name (name_view name.now) }
{
    match name {
        MemberName::Special(text) => is_text(text, b"/<ECSYMBOLS>/"),
        _ => false,
    }
}

/// The contents of the first part that is an EC index, which has the symbols of ARM64EC's members.
pub fn ec_index<'a>(parts: &[Part<'a>]) -> Option<&'a [u8]>
    ensures { option_map (λ contents. contents.now) result ≡ ec_index_in (map part_view parts.now) }
{
    for part in parts {
        if is_ec_name(&part.name) {
            return Some(part.contents);
        }
    }
    None
}

/// The member that a part is, given the long names and the ends of their lines.
fn member_of<'a>(names: &'a [u8], ends: &[usize], part: &Part<'a>) -> Option<StoredMember<'a>>
    requires { ends.now ≡ ends_from 0 names.now }
    ensures { option_map member_view result ≡ member_of names.now (part_view part.now) }
{
    let name = match part.name {
        MemberName::Text(text) => text,
        MemberName::LongAt(offset) => long_name_at(names, ends, offset),
        MemberName::Linker | MemberName::LongNames | MemberName::Special(_) => return None,
    };
    Some(StoredMember {
        name,
        bytes: part.contents,
        offset: part.offset,
    })
}

/// The members among the parts.
fn members_among<'a>(
    alloc: Global,
    names: &'a [u8],
    parts: &[Part<'a>],
) -> Result<Vec<StoredMember<'a>>, AllocError>
    ensures { IfOk result
        (λ v. map member_view v.items
        ≡ filter_map (member_of names.now) (map part_view parts.now)) }
{
    let ends = line_ends(alloc, names)?;
    let mut members = Vec::new(alloc);
    for part in parts {
        let Some(member) = member_of(names, &ends, part) else {
            continue;
        };
        members.push(member)?;
    }
    Ok(members)
}

impl<'a> Archive<'a> {
    /// The archive that the bytes are, or `None` where they are none, or a header or its data leads
    /// out of them.
    #[tactic(auto, unfolding(crate::specs::Archives::archive_in))]
    pub fn read(alloc: Global, bytes: &'a [u8]) -> Result<Option<Archive<'a>>, AllocError>
        ensures { IfOk result (λ found. option_map archive_view found ≡ archive_in bytes.now) }
    {
        let parts = parts_in(alloc, bytes)?;
        let Some(parts) = parts else {
            return Ok(None);
        };
        let members = members_among(alloc, long_names(&parts), &parts)?;
        Ok(Some(Archive { parts, members }))
    }
}
