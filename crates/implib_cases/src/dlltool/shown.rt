//! What is asked of files.
//!
//! - `show NAME` tells what is there: of a file its length, and its bytes if they are few.
//! - `sum NAME` tells a sum of a file's bytes, and `permissions NAME` its mode.
//! - `at NAME OFFSET COUNT` tells bytes of a file.
//! - `holds NAME BYTES` tells whether a file has these bytes somewhere, and `same NAME OTHER`
//!   whether it has just those of another.

use crate::lines::{Line, bytes_in, numbers_in, push_bytes, word_of};
use implib_driver::request::holds_text;
use std::fs;
use std::os::unix::fs::PermissionsExt;
use std::test::Fail;

/// The answer to a line that asks for files.
pub fn answer_shown(rt: &HostRuntime, text: &mut String, line: &Line) -> Result<(), Fail> {
    let (name, rest) = word_of(line.rest);
    if line.word == "show" {
        return show(rt, text, name);
    }
    match fs::read(rt, name) {
        Ok(bytes) => {
            text.push_str(name)?;
            show_asked(rt, text, bytes.as_slice(), line, rest)?;
            Ok(text.push('\n')?)
        }
        Err(_) => Ok(writeln!(text, "{name}: no file")?),
    }
}

/// Tells what is asked of a file's bytes.
fn show_asked(
    rt: &HostRuntime,
    text: &mut String,
    bytes: &[u8],
    line: &Line,
    rest: &str,
) -> Result<(), Fail> {
    match line.word {
        "sum" => Ok(write!(text, ": sum {:#018x}", sum(bytes))?),
        "permissions" => {
            let (name, _) = word_of(line.rest);
            let mode = fs::metadata(rt, name)?.permissions().mode() % 0o1000;
            Ok(write!(text, ": mode {mode:o}")?)
        }
        "at" => show_bytes(rt, text, bytes, rest),
        "holds" => {
            let has = holds_text(bytes, bytes_in(rt.alloc(), rest)?.as_slice());
            let answer = if has { "holds" } else { "does not hold" };
            Ok(write!(text, " {answer} {rest}")?)
        }
        _ => {
            let is_same = fs::read(rt, rest)?.as_slice() == bytes;
            let answer = if is_same { "is" } else { "is not" };
            Ok(write!(text, " {answer} the same as {rest}")?)
        }
    }
}

/// Tells what is at a path.
fn show(rt: &HostRuntime, text: &mut String, name: &str) -> Result<(), Fail> {
    match fs::symlink_metadata(rt, name) {
        Ok(found) if found.is_file() => {
            let bytes = fs::read(rt, name)?;
            show_file(text, name, bytes.as_slice())
        }
        Ok(found) if found.is_symlink() => Ok(writeln!(text, "{name}: a link")?),
        Ok(_) => Ok(writeln!(text, "{name}: a folder")?),
        Err(_) => Ok(writeln!(text, "{name}: none")?),
    }
}

/// Tells a file's length, and its bytes if they are few.
fn show_file(text: &mut String, name: &str, bytes: &[u8]) -> Result<(), Fail> {
    write!(text, "{name}: {} bytes", bytes.len())?;
    if bytes.len() <= 16 {
        text.push(':')?;
        push_bytes(text, bytes)?;
    }
    Ok(text.push('\n')?)
}

/// The sum that Fowler, Noll and Vo made (FNV-1a), of 64 bits.
fn sum(bytes: &[u8]) -> u64 {
    let mut sum: u64 = 0xcbf2_9ce4_8422_2325;
    for byte in bytes {
        sum = (sum ^ u64::from(*byte)).wrapping_mul(0x0100_0000_01b3);
    }
    sum
}

/// Tells some of a file's bytes.
fn show_bytes(rt: &HostRuntime, text: &mut String, bytes: &[u8], place: &str) -> Result<(), Fail> {
    let numbers = numbers_in(rt.alloc(), place)?;
    let [offset, count] = *numbers.as_slice() else {
        return Err(Fail::new("bytes have another place"));
    };
    let (offset, count) = (usize::try_from(offset)?, usize::try_from(count)?);
    let end = offset.saturating_add(count);
    write!(text, " at {offset}:")?;
    Ok(push_bytes(text, bytes.get(offset..end).unwrap_or(&[]))?)
}
