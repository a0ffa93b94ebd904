//! A writer with little room.

use crate::lines::number_in;
use implib_archive::{Archive, WriteError};
use std::alloc::Global;
use std::io;
use std::test::Fail;

/// A writer that takes at most 7 bytes a call, and `room` bytes in all. It then answers `fault`, or
/// takes none. It cannot be flushed, and knows whether it was to be.
#[derive(Drop)]
struct Small {
    bytes: Vec<u8>,
    room: usize,
    fault: Option<io::ErrorKind>,
    is_flushed: bool,
}

impl io::Write for Small {
    fn write(&mut self, buf: &[u8]) -> io::Result<usize> {
        let count = buf
            .len()
            .min(7)
            .min(self.room.saturating_sub(self.bytes.len()));
        match self.fault {
            Some(kind) if count == 0 => Err(io::Error::from(kind)),
            _ => self.bytes.write(&buf[..count]),
        }
    }

    fn flush(&mut self) -> io::Result<()> {
        self.is_flushed = true;
        Err(io::Error::from(io::ErrorKind::Unsupported))
    }
}

/// What a writer with little room answers where there is none left.
fn fault_in(word: &str) -> Result<Option<io::ErrorKind>, Fail> {
    match word {
        "none" => Ok(None),
        "broken" => Ok(Some(io::ErrorKind::BrokenPipe)),
        "denied" => Ok(Some(io::ErrorKind::PermissionDenied)),
        _ => Err(Fail::new(format_args!("{word} is no fault"))),
    }
}

/// Tells the error of a writer with little room, and whether it has the beginning of an archive.
pub fn show_room(
    alloc: Global,
    text: &mut String,
    archive: &Archive,
    words: &str,
) -> Result<(), Fail> {
    let (room, fault) = words.split_once(' ').ok_or("a writer has no fault")?;
    let mut writer = Small {
        bytes: Vec::new(alloc),
        room: usize::try_from(number_in(room)?)?,
        fault: fault_in(fault)?,
        is_flushed: false,
    };
    match archive.write_to(alloc, &mut writer) {
        Ok(()) => text.push_str("  whole")?,
        Err(WriteError::Writer(cause)) => write!(text, "  {cause}")?,
        Err(WriteError::OutOfMemory(refused)) => return Err(Fail::from(refused)),
    }
    let bytes = archive.to_vec(alloc)?;
    let beginning = bytes.as_slice().get(..writer.room).unwrap_or(&[]);
    let is_beginning = !writer.is_flushed && writer.bytes.as_slice() == beginning;
    let answer = if is_beginning { "" } else { " not" };
    Ok(writeln!(text, ", and{answer} {} bytes of it", writer.room)?)
}
