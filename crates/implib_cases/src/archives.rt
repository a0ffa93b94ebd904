//! Cases about archives of members.
//!
//! `member NAME BYTES` adds a member with these bytes, `lists SYMBOL..` has the last one listed for
//! symbols, `again COUNT` adds copies of it, and `many COUNT LENGTH` adds members with numbers in
//! their names and symbols, of bytes that are 5. Then these ask, of the kind `coff` or `gnu`:
//!
//! - `size KIND` for the length of the archive, that of its bytes and of their memory, and its last
//!   byte, or why there is none.
//! - `room KIND SIZE FAULT` for what a writer with this room has, and the error.

mod writers;

use crate::lines::{Case, Line, bytes_in, number_in, unescaped};
use implib::Member;
use implib_archive::{Archive, Error, Kind};
use std::alloc::{AllocError, Global};
use std::test::Fail;
use writers::show_room;

/// The name of a case and, for each line that asks, the answer.
pub fn answered(alloc: Global, case: &Case) -> Result<String, Fail> {
    let mut text = format!(in alloc; "case {}\n", case.name)?;
    let mut members = Vec::new(alloc);
    for line in case.lines.iter() {
        if !adds(alloc, &mut members, line)? {
            answer(alloc, &mut text, members.as_slice(), line)?;
        }
    }
    Ok(text)
}

/// Adds members; whether a line says so.
fn adds(alloc: Global, members: &mut Vec<Member>, line: &Line) -> Result<bool, Fail> {
    let (name, rest) = line.rest.split_once(' ').unwrap_or((line.rest, ""));
    match line.word {
        "member" => {
            let name = unescaped(alloc, name)?;
            members.push(Member {
                name,
                bytes: bytes_in(alloc, rest)?,
                symbols: Vec::new(alloc),
            })?;
        }
        "lists" => {
            if let Some(member) = members.last_mut() {
                add_symbols(alloc, member, line.rest)?;
            }
        }
        "again" => {
            for _ in 0..number_in(name)? {
                add_copy(alloc, members)?;
            }
        }
        "many" => {
            let length = usize::try_from(number_in(rest)?)?;
            for number in 0..number_in(name)? {
                add_numbered(alloc, members, number, length)?;
            }
        }
        _ => return Ok(false),
    }
    Ok(true)
}

/// Has a member listed for the symbols in the words of a text.
fn add_symbols(alloc: Global, member: &mut Member, words: &str) -> Result<(), AllocError> {
    for word in words.split_whitespace() {
        member.symbols.push(String::from_str(alloc, word)?)?;
    }
    Ok(())
}

/// Adds a member like the last one, with its name and bytes.
fn add_copy(alloc: Global, members: &mut Vec<Member>) -> Result<(), Fail> {
    let last = members.last().ok_or("there is no member")?;
    let copy = Member {
        name: last.name.clone()?,
        bytes: last.bytes.clone()?,
        symbols: Vec::new(alloc),
    };
    Ok(members.push(copy)?)
}

/// Adds a member with a number in its name and in its symbol.
fn add_numbered(
    alloc: Global,
    members: &mut Vec<Member>,
    number: u64,
    length: usize,
) -> Result<(), AllocError> {
    let mut symbols = Vec::new(alloc);
    symbols.push(format!(in alloc; "f{number:06}")?)?;
    Ok(members.push(Member {
        name: format!(in alloc; "long_member_name_{number:06}.o")?,
        bytes: vec![in alloc; 5u8; length]?,
        symbols,
    })?)
}

/// A line that asks, and the answer to it.
fn answer(alloc: Global, text: &mut String, members: &[Member], line: &Line) -> Result<(), Fail> {
    let (kind, rest) = line.rest.split_once(' ').unwrap_or((line.rest, ""));
    let kind = match kind {
        "coff" => Kind::Coff,
        "gnu" => Kind::Gnu,
        _ => return Err(Fail::new(format_args!("{kind} is no kind of archives"))),
    };
    writeln!(text, "{} {}", line.word, line.rest)?;
    match Archive::new(alloc, members, kind) {
        Ok(archive) => match line.word {
            "size" => show_size(alloc, text, &archive),
            "room" => show_room(alloc, text, &archive, rest),
            word => Err(Fail::new(format_args!("{word} is no word of a case"))),
        },
        Err(Error::Invalid(fault)) => Ok(writeln!(text, "  {fault}")?),
        Err(Error::OutOfMemory(refused)) => Err(Fail::from(refused)),
    }
}

/// Tells where the length of an archive, or what is written of it, is not that of its bytes.
fn show_written(
    alloc: Global,
    text: &mut String,
    archive: &Archive,
    bytes: &[u8],
) -> Result<(), Fail> {
    let mut writer = Vec::new(alloc);
    let is_written = archive.write_to(alloc, &mut writer).is_ok();
    if !is_written || writer.as_slice() != bytes {
        text.push_str("  is written otherwise\n")?;
    }
    if archive.len() != bytes.len() as u64 {
        text.push_str("  has another length\n")?;
    }
    Ok(())
}

/// The length of an archive, that of its bytes and of their memory, and its last byte.
fn show_size(alloc: Global, text: &mut String, archive: &Archive) -> Result<(), Fail> {
    let bytes = archive.to_vec(alloc)?;
    let (length, memory) = (bytes.len(), bytes.capacity());
    let last = bytes.as_slice().last().copied().unwrap_or(0);
    writeln!(
        text,
        "  {} {length} {memory}, ends in {last}",
        archive.len()
    )?;
    show_written(alloc, text, archive, bytes.as_slice())
}
