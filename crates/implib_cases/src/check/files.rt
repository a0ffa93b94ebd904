//! The files of a case, and the shelf that they stand on.
//!
//! - `library NAME MACHINE FLAVOUR` makes the import library of the definition that the `text`
//!   lines after it say; `older` after the flavour gives addresses their older symbols.
//! - `definition NAME` is the definition itself.
//! - `bytes NAME BYTES` appends bytes to a file, which begins empty.
//! - `with NAME OTHER` appends the members of another library to a file, but for its indexes and
//!   long names.
//! - `copy NAME OTHER` is a file with the bytes of another.
//! - `put NAME OFFSET BYTES` changes bytes of a file, and `cut NAME LENGTH` cuts it off.

ghost use Rattle.std.specs.Prelude.{◌≡◌, ℕ, IfOk, IfSome, List, None, Option, map};

use crate::lines::{Line, bytes_in, number_in, text_of, word_of};
use implib::Flavor;
use implib_check_driver::shelf::Shelf;
use implib_compare::meant::library_for;
use implib_rules::additions::Additions;
use implib_rules::linked::Naming;
use implib_rules::options::LibraryOptions;
use std::alloc::Global;
use std::io;
use std::io::ErrorKind;
use std::test::Fail;

/// A file: its path, and its bytes.
pub type File = (String, Vec<u8>);

/// The files of a case.
#[derive(Drop)]
pub struct Files {
    pub all: Vec<File>,
}

impl Shelf for Files {
    ghost use Rattle.std.specs.Prelude.{None, true};

    ghost seen = { λ _ _. None };

    ghost listed = { λ _ _. None };

    ghost may_fail = { λ _ _. true };

    fn read(&self, alloc: Global, path: &str) -> io::Result<Vec<u8>> {
        match self.all.iter().find(|file| file.0.as_str() == path) {
            Some(file) => Ok(Vec::from_slice(alloc, file.1.as_slice())?),
            None => Err(io::Error::from(ErrorKind::NotFound)),
        }
    }

    fn names(&self, alloc: Global, folder: &str) -> io::Result<Vec<String>> {
        let mut names = Vec::new(alloc);
        for file in &self.all {
            if let Some((front, name)) = file.0.as_str().rsplit_once('/') {
                if front == folder {
                    names.push(String::from_str(alloc, name)?)?;
                }
            }
        }
        Ok(names)
    }
}

/// The files that lines say.
pub fn files_of(alloc: Global, lines: &[Line]) -> Result<Files, Fail> {
    let mut files = Files {
        all: Vec::new(alloc),
    };
    for (index, line) in lines.iter().enumerate() {
        let from = lines.get(index..).unwrap_or(&[]);
        make(alloc, &mut files, line, from)?;
    }
    Ok(files)
}

/// The lines of a definition, which follow the first of these.
fn text_after(alloc: Global, lines: &[Line]) -> Result<String, Fail> {
    let mut own = Vec::new(alloc);
    for line in lines.iter().skip(1) {
        if line.word != "text" {
            break;
        }
        own.push(*line)?;
    }
    match text_of(alloc, own.as_slice())? {
        Some(text) => Ok(text),
        None => Ok(String::new(alloc)),
    }
}

/// Makes or changes a file, if a line says so.
fn make(alloc: Global, files: &mut Files, line: &Line, from: &[Line]) -> Result<(), Fail> {
    let (name, rest) = word_of(line.rest);
    match line.word {
        "library" => {
            let text = text_after(alloc, from)?;
            let bytes = library_bytes(alloc, rest, text.as_str())?;
            files.add(alloc, name, bytes)
        }
        "definition" => {
            let text = text_after(alloc, from)?;
            let bytes = Vec::from_slice(alloc, text.as_bytes())?;
            files.add(alloc, name, bytes)
        }
        "bytes" => {
            let bytes = bytes_in(alloc, rest)?;
            files.append(alloc, name, bytes.as_slice())
        }
        "copy" => {
            let bytes = Vec::from_slice(alloc, files.bytes(rest)?.as_slice())?;
            files.add(alloc, name, bytes)
        }
        "with" => {
            let members = files.members(alloc, rest)?;
            files.append(alloc, name, members.as_slice())
        }
        "put" => {
            let (offset, rest) = word_of(rest);
            let bytes = bytes_in(alloc, rest)?;
            files.put(name, usize::try_from(number_in(offset)?)?, bytes.as_slice())
        }
        "cut" => files.cut(name, usize::try_from(number_in(rest)?)?),
        _ => Ok(()),
    }
}

/// The library of a definition, for a machine and a flavour.
fn library_bytes(alloc: Global, words: &str, text: &str) -> Result<Vec<u8>, Fail> {
    let (machine, rest) = word_of(words);
    let (flavor, older) = word_of(rest);
    let options = LibraryOptions {
        machine: machine.parse()?,
        flavor: match flavor {
            "gnu" => Flavor::Gnu,
            _ => Flavor::Msvc,
        },
        dll: None,
        naming: Naming {
            is_plain: false,
            kills_at: false,
            exports_as: false,
            keeps_decorated: false,
        },
        additions: Additions::none(),
    };
    match library_for(alloc, text.as_bytes(), &options, older == "older") {
        Ok(bytes) => Ok(bytes),
        Err(refusal) => Err(Fail::new(format_args!("{refusal}"))),
    }
}

/// The number in a field of a member's header: digits, and spaces after them.
fn size_in(field: &[u8]) -> Result<usize, Fail> {
    let text = str::from_utf8(field).unwrap_or("");
    Ok(text.trim_end().parse()?)
}

impl Files {
    /// The bytes of a file.
    fn bytes(&mut self, name: &str) -> Result<&mut Vec<u8>, Fail> {
        match self.all.iter_mut().find(|file| file.0.as_str() == name) {
            Some(file) => Ok(&mut file.1),
            None => Err(Fail::new(format_args!("no file {name}"))),
        }
    }

    /// Adds a file.
    fn add(&mut self, alloc: Global, name: &str, bytes: Vec<u8>) -> Result<(), Fail> {
        Ok(self.all.push((String::from_str(alloc, name)?, bytes))?)
    }

    /// Appends bytes to a file, which may be new.
    fn append(&mut self, alloc: Global, name: &str, bytes: &[u8]) -> Result<(), Fail> {
        if !self.all.iter().any(|file| file.0.as_str() == name) {
            self.add(alloc, name, Vec::new(alloc))?;
        }
        Ok(self.bytes(name)?.extend_from_slice(bytes)?)
    }

    /// The members of a library with their headers, but for its indexes and its long names.
    fn members(&mut self, alloc: Global, name: &str) -> Result<Vec<u8>, Fail> {
        let mut kept = Vec::new(alloc);
        let mut rest = self.bytes(name)?.get(8..).unwrap_or(&[]);
        for _ in 0..usize::MAX {
            let Some((header, after)) = rest.split_at_checked(60) else {
                break;
            };
            let length = size_in(header.get(48..58).unwrap_or(&[]))?;
            let whole = length.checked_next_multiple_of(2).unwrap_or(length);
            let (data, after) = after.split_at_checked(whole).ok_or("a member is cut off")?;
            if !header.starts_with(b"/ ") && !header.starts_with(b"// ") {
                kept.extend_from_slice(header)?;
                kept.extend_from_slice(data)?;
            }
            rest = after;
        }
        Ok(kept)
    }

    /// Changes bytes of a file.
    fn put(&mut self, name: &str, offset: usize, bytes: &[u8]) -> Result<(), Fail> {
        let file = self.bytes(name)?;
        for (byte, index) in bytes.iter().zip(offset..usize::MAX) {
            match file.get_mut(index) {
                Some(place) => *place = *byte,
                None => return Err(Fail::new(format_args!("{name} ends before {index}"))),
            }
        }
        Ok(())
    }

    /// Cuts off a file.
    fn cut(&mut self, name: &str, length: usize) -> Result<(), Fail> {
        self.bytes(name)?.truncate(length);
        Ok(())
    }
}
