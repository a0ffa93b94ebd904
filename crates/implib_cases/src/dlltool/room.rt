//! The files of a case, and the standard input of its calls.
//!
//! - `input` begins the standard input, and `file NAME` a file.
//! - To what was begun last `line TEXT` appends a line, `part TEXT` a text, `numbered NAME COUNT` a
//!   line for each number below one, `bytes BYTES` bytes and `copy NAME` the bytes of a file;
//!   `put OFFSET BYTES` changes bytes of it, and `cut LENGTH` cuts it off.
//! - `folder NAME`, `link NAME TARGET` and `mode NAME MODE` make a folder and a symbolic link, and
//!   set a file's mode, in octal digits.
//! - `program NAME` is what the program is called by from there on, and `process NUMBER` its
//!   number.

use crate::lines::{Line, bytes_in, bytes_made, number_in, word_of};
use std::alloc::AllocError;
use std::fs;
use std::fs::Permissions;
use std::os::unix::fs::{PermissionsExt, symlink};
use std::test::Fail;

/// What a case has made so far.
#[derive(Drop)]
pub struct Room<'a> {
    pub rt: &'a HostRuntime,
    /// What a call reads on standard input.
    pub input: Vec<u8>,
    /// What a call is called by, and its process's number.
    pub program: String,
    pub process: u32,
    // The path of the file that was begun last, empty for the standard input, and its bytes.
    path: String,
    bytes: Vec<u8>,
}

/// A mode in octal digits.
pub fn mode_in(digits: &str) -> Result<Permissions, Fail> {
    Ok(Permissions::from_mode(u32::from_str_radix(digits, 8)?))
}

impl<'a> Room<'a> {
    /// No files.
    pub fn new(rt: &'a HostRuntime) -> Result<Room<'a>, AllocError> {
        Ok(Room {
            rt,
            input: Vec::new(rt.alloc()),
            program: String::from_str(rt.alloc(), "implib_dlltool")?,
            process: 1,
            path: String::new(rt.alloc()),
            bytes: Vec::new(rt.alloc()),
        })
    }

    /// Does what a line says of files or of the calls after it; whether it says any.
    pub fn is_made_by(&mut self, line: &Line) -> Result<bool, Fail> {
        match line.word {
            "input" => self.begin("")?,
            "file" => self.begin(line.rest)?,
            "line" | "part" | "numbered" | "bytes" | "copy" | "put" | "cut" => {
                self.change(line)?;
                self.keep()?;
            }
            "program" => self.program = String::from_str(self.rt.alloc(), line.rest)?,
            "process" => self.process = line.rest.parse()?,
            "folder" => fs::create_dir_all(self.rt, line.rest)?,
            "link" => {
                let (name, target) = word_of(line.rest);
                symlink(self.rt, target, name)?;
            }
            "mode" => {
                let (name, digits) = word_of(line.rest);
                fs::set_permissions(self.rt, name, mode_in(digits)?)?;
            }
            _ => return Ok(false),
        }
        Ok(true)
    }

    /// Begins a file, or the standard input for an empty path.
    fn begin(&mut self, path: &str) -> Result<(), Fail> {
        self.path = String::from_str(self.rt.alloc(), path)?;
        self.bytes = Vec::new(self.rt.alloc());
        self.keep()
    }

    /// Changes the bytes of what was begun last.
    fn change(&mut self, line: &Line) -> Result<(), Fail> {
        let alloc = self.rt.alloc();
        match line.word {
            "copy" => self
                .bytes
                .extend_from_slice(fs::read(self.rt, line.rest)?.as_slice())?,
            "put" => {
                let (offset, bytes) = word_of(line.rest);
                let bytes = bytes_in(alloc, bytes)?;
                self.put(usize::try_from(number_in(offset)?)?, bytes.as_slice())?;
            }
            "cut" => self.bytes.truncate(usize::try_from(number_in(line.rest)?)?),
            _ => self
                .bytes
                .extend_from_slice(bytes_made(alloc, line)?.as_slice())?,
        }
        Ok(())
    }

    /// Changes bytes from an offset on.
    fn put(&mut self, offset: usize, bytes: &[u8]) -> Result<(), Fail> {
        let end = offset.saturating_add(bytes.len());
        if let Some(place) = self.bytes.as_mut_slice().get_mut(offset..end)
            && place.len() == bytes.len()
        {
            place.copy_from_slice(bytes);
            return Ok(());
        }
        Err(Fail::new("bytes are put behind the end"))
    }

    /// Has the file on the disk, or the standard input, be what was begun last.
    fn keep(&mut self) -> Result<(), Fail> {
        let bytes = self.bytes.as_slice();
        if self.path.is_empty() {
            self.input = Vec::from_slice(self.rt.alloc(), bytes)?;
            return Ok(());
        }
        Ok(fs::write(self.rt, self.path.as_str(), bytes)?)
    }
}
