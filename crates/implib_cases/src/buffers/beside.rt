//! Whether what the last call put is what other crates make of the same text.
//!
//! - `members` tells whether it encodes the members that `implib` makes, as `include/implib.h`
//!   says, and `archive` whether it is their archive by `implib_archive`.
//! - `written FLAGS` tells whether it is the library that the program `implib_dlltool` writes of
//!   the text:
//!   of the letters `k`, `n`, `a` and `d` each stands for an option, and `-` for none.

use super::given::Given;
use crate::lines::Line;
use implib::{Flavor, ImportLibrary, MachineType, Member};
use implib_archive::{Archive, Kind};
use implib_rules::additions::Additions;
use implib_rules::library::write_library;
use implib_rules::linked::Naming;
use implib_rules::options::LibraryOptions;
use std::alloc::{AllocError, Global};
use std::test::Fail;

/// The answer to a line.
pub fn answer_beside(text: &mut String, given: &Given, line: &Line) -> Result<(), Fail> {
    let want = match line.word {
        "members" => encoding_of(given.alloc, members_of(given)?.as_slice())?,
        "archive" => archive_of(given)?,
        _ => written(given, line.rest)?,
    };
    let answer = if want == given.put {
        "the same"
    } else {
        "another"
    };
    Ok(writeln!(text, "  {answer}")?)
}

/// The flavour of a case.
fn flavor_of(given: &Given) -> Flavor {
    if given.flavor == 0 {
        Flavor::Msvc
    } else {
        Flavor::Gnu
    }
}

/// The members of a text.
fn members_of(given: &Given) -> Result<Vec<Member>, Fail> {
    let text = str::from_utf8(given.text.as_slice()).unwrap_or("");
    let machine = MachineType::try_from(given.machine)?;
    let library = ImportLibrary::new(given.alloc, text, machine, flavor_of(given))?;
    Ok(library.members()?)
}

/// Appends a length in 8 bytes, the low one first, and the bytes.
fn push_text(encoding: &mut Vec<u8>, text: &[u8]) -> Result<(), AllocError> {
    encoding.extend_from_slice(&text.len().to_le_bytes())?;
    encoding.extend_from_slice(text)
}

/// Members as include/implib.h encodes them.
fn encoding_of(alloc: Global, members: &[Member]) -> Result<Vec<u8>, AllocError> {
    let mut encoding = Vec::new(alloc);
    encoding.extend_from_slice(&members.len().to_le_bytes())?;
    for member in members.iter() {
        push_member(&mut encoding, member)?;
    }
    Ok(encoding)
}

/// Appends a member.
fn push_member(encoding: &mut Vec<u8>, member: &Member) -> Result<(), AllocError> {
    push_text(encoding, member.name.as_bytes())?;
    encoding.extend_from_slice(&member.symbols.len().to_le_bytes())?;
    for symbol in member.symbols.iter() {
        push_text(encoding, symbol.as_bytes())?;
    }
    push_text(encoding, member.bytes.as_slice())
}

/// The archive of the members of a text.
fn archive_of(given: &Given) -> Result<Vec<u8>, Fail> {
    let members = members_of(given)?;
    let kind = match flavor_of(given) {
        Flavor::Msvc => Kind::Coff,
        Flavor::Gnu => Kind::Gnu,
    };
    let archive = Archive::new(given.alloc, members.as_slice(), kind)?;
    Ok(archive.to_vec(given.alloc)?)
}

/// The library that the program writes of a text.
fn written(given: &Given, letters: &str) -> Result<Vec<u8>, Fail> {
    let options = LibraryOptions {
        machine: MachineType::try_from(given.machine)?,
        flavor: flavor_of(given),
        dll: Some(given.name.as_str()),
        naming: Naming {
            is_plain: letters.contains('n'),
            kills_at: letters.contains('k'),
            exports_as: letters.contains('a'),
            keeps_decorated: letters.contains('d'),
        },
        additions: Additions::none(),
    };
    let mut file = Vec::new(given.alloc);
    match write_library(given.alloc, given.text.as_slice(), &options, &mut file) {
        Ok(()) => Ok(file),
        Err(_) => Err(Fail::from("the program writes no library")),
    }
}
