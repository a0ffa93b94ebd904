//! Parts of the program by themselves.
//!
//! - `told COUNT PART END` tells what is said of a path, which has a part this many times and an
//!   end.
//! - `starved` tells what is said where there is no memory for a line.
//! - `removed NAME BYTES` begins a file in another's place, writes bytes and removes it.
//! - `unsynced NAME OTHER` tries to put a file into another's place whose bytes do not reach the
//!   disk.
//! - `unmoded NAME MODE` tries to give a file a mode that it cannot have; without MODE it gets
//!   none.
//! - `beside NAME` tells in which folder new files in a file's place are.
//! - `hints` tells the options that messages tell, and which are none.

use super::calls::{kept_console, push_writes};
use super::room::mode_in;
use crate::lines::{Line, bytes_in, number_in, unescaped, word_of};
use implib_driver::devices::console::Message;
use implib_driver::devices::files::{Made, SystemDisk, folder_of, settle, with_mode};
use implib_driver::disk::Disk;
use implib_driver::message::NAMES;
use implib_driver::options::{lookup, table};
use implib_driver::reporter::{Complaint, Reporter};
use implib_rules::library::Refusal;
use std::alloc::{AllocError, Global};
use std::fs::{Metadata, OpenFile};
use std::io;
use std::io::{ErrorKind, Write};
use std::test::Fail;

/// The answer to a line about a part of the program.
pub fn answer_device(rt: &HostRuntime, text: &mut String, line: &Line) -> Result<(), Fail> {
    let alloc = rt.alloc();
    let (name, rest) = word_of(line.rest);
    match line.word {
        "told" => tell(alloc, text, name, rest),
        "starved" => Ok(starve(alloc, text)?),
        "removed" => remove_begun(rt, name, bytes_in(alloc, rest)?.as_slice()),
        "unsynced" => {
            let is_settled = settle(rt, &made(alloc, name, rest)?, Unsynced).is_ok();
            Ok(tell_done(text, line, is_settled)?)
        }
        "unmoded" => {
            let mode = if rest.is_empty() {
                None
            } else {
                Some(mode_in(rest)?)
            };
            let is_kept = with_mode(rt, name, Unsynced, mode).is_ok();
            Ok(tell_done(text, line, is_kept)?)
        }
        "beside" => Ok(writeln!(text, "{name} is in {}", folder_of(name))?),
        "hints" => Ok(tell_hints(text)?),
        word => Err(Fail::new(format_args!("{word} is no word of a case"))),
    }
}

/// Tells whether what a line tries was done.
fn tell_done(text: &mut String, line: &Line, is_done: bool) -> Result<(), AllocError> {
    let answer = if is_done { "done" } else { "refused" };
    writeln!(text, "{} {}: {answer}", line.word, line.rest)
}

/// Tells what is said of a path: a refusal and a complaint.
fn tell(alloc: Global, text: &mut String, count: &str, words: &str) -> Result<(), Fail> {
    let (part, end) = word_of(words);
    let mut path = String::new(alloc);
    for _ in 0..number_in(count)? {
        path.push_str(part)?;
    }
    path.push_str(unescaped(alloc, end)?.as_str())?;
    let mut console = kept_console(alloc);
    console.refuse(path.as_str(), &Refusal::NoName);
    console.complain(path.as_str(), Complaint::OutOfMemory);
    Ok(push_writes(text, console)?)
}

/// Tells what is said where there is no memory for a line.
fn starve(alloc: Global, text: &mut String) -> Result<(), AllocError> {
    let mut console = kept_console(alloc);
    let message = Message::Complaint("implib_dlltool", &Complaint::OutOfMemory);
    console.put(Err(AllocError), &message);
    push_writes(text, console)
}

/// Begins a file in another's place, writes bytes, and removes it.
fn remove_begun(rt: &HostRuntime, path: &str, bytes: &[u8]) -> Result<(), Fail> {
    let mut disk = SystemDisk::new(rt, 1);
    let mut file = disk.begin(path)?;
    file.write_all(bytes)?;
    drop(file);
    Ok(disk.remove()?)
}

/// A new file that is to take another's place.
fn made(alloc: Global, name: &str, target: &str) -> Result<Made, AllocError> {
    Ok(Made {
        name: String::from_str(alloc, name)?,
        target: String::from_str(alloc, target)?,
        path: String::from_str(alloc, target)?,
    })
}

/// A file whose bytes do not reach the disk, and whose mode does not change.
#[derive(Drop)]
struct Unsynced;

impl OpenFile for Unsynced {
    fn metadata(&self) -> io::Result<Metadata> {
        Err(io::Error::from(ErrorKind::Other))
    }

    fn set_len(&self, _size: u64) -> io::Result<()> {
        Ok(())
    }

    fn sync_all(&self) -> io::Result<()> {
        Err(io::Error::from(ErrorKind::StorageFull))
    }

    fn sync_data(&self) -> io::Result<()> {
        Ok(())
    }
}

/// Tells the options that messages tell, and which of them are none.
fn tell_hints(text: &mut String) -> Result<(), AllocError> {
    for name in NAMES {
        let answer = if lookup::named(table::Words::Dlltool, name).is_none() {
            "no option"
        } else {
            "an option"
        };
        writeln!(text, "{name}: {answer}")?;
    }
    Ok(())
}
