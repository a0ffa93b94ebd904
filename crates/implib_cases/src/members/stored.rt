//! Members held against stored bytes. A line `stored` begins those of the next member, and lines
//! `=` have them.

use super::readings::show_listed;
use crate::lines::{Line, bytes_in};
use implib::Member;
use std::alloc::Global;
use std::test::Fail;

/// Appends a line for each member: its name, its length, the symbols that it is listed for, and
/// whether its bytes are the stored ones; then how many are stored.
pub fn compare(
    alloc: Global,
    text: &mut String,
    members: &[Member],
    lines: &[Line],
) -> Result<(), Fail> {
    for (index, member) in members.iter().enumerate() {
        show_listed(text, member)?;
        let stored = stored_bytes(alloc, lines, index.saturating_add(1))?;
        match difference(member.bytes.as_slice(), stored.as_slice()) {
            Some(offset) => writeln!(text, ": differs at {offset}")?,
            None => writeln!(text, ": same")?,
        }
    }
    let count = lines.iter().filter(|line| line.word == "stored").count();
    Ok(writeln!(text, "{count} stored")?)
}

/// The stored bytes of a member by its number, from 1.
fn stored_bytes(alloc: Global, lines: &[Line], number: usize) -> Result<Vec<u8>, Fail> {
    let mut bytes = Vec::new(alloc);
    let mut begun = 0usize;
    for line in lines {
        if line.word == "stored" {
            begun = begun.saturating_add(1);
        } else if line.word == "=" && begun == number {
            let line = bytes_in(alloc, line.rest)?;
            bytes.extend_from_slice(line.as_slice())?;
        }
    }
    Ok(bytes)
}

/// The first offset at which bytes differ, or at which one of them ends.
fn difference(first: &[u8], second: &[u8]) -> Option<usize> {
    let both = first.iter().zip(second.iter());
    let differs = both.enumerate().find(|(_, (one, other))| one != other);
    match differs {
        Some((offset, _)) => Some(offset),
        None if first.len() == second.len() => None,
        None => Some(first.len().min(second.len())),
    }
}
