//! What a case sets: the arguments of the calls.
//!
//! - What a line makes (`crate::lines`) is appended to what is begun. `text`, `native`, `library` and
//!   `dll` have what is begun be that argument, and begin anew.
//! - `made` has the library be what the last call put.
//! - `machine NUMBER`, `flavor NUMBER` and `flags NUMBER` set these, and `named NAME` the name of
//!   the DLL.
//! - `export FLAGS ORDINAL NAME TARGET` adds an export; `''` is no text.

use crate::lines::{Line, bytes_made, number_in, unescaped, word_of};
use std::alloc::{AllocError, Global};
use std::test::Fail;

/// An export, with texts of its own.
#[derive(Drop)]
pub struct OwnExport {
    pub name: String,
    pub target: String,
    pub ordinal: u16,
    pub flags: u32,
}

/// The arguments of the calls, and what the last one put.
#[derive(Drop)]
pub struct Given {
    pub alloc: Global,
    begun: Vec<u8>,
    pub text: Vec<u8>,
    /// The native definition, and 1 where there is one.
    pub native: Vec<u8>,
    pub has_native: u32,
    pub library: Vec<u8>,
    pub dll: Vec<u8>,
    /// The name of the DLL, and 1 where there is one.
    pub name: String,
    pub has_name: u32,
    pub machine: u16,
    pub flavor: u32,
    pub flags: u32,
    pub exports: Vec<OwnExport>,
    pub put: Vec<u8>,
}

/// A text in a word: none for `''`.
fn text_in(alloc: Global, word: &str) -> Result<String, Fail> {
    if word == "''" {
        return Ok(String::new(alloc));
    }
    unescaped(alloc, word)
}

impl Given {
    /// No text, on AMD64 for Microsoft's linker.
    pub fn new(alloc: Global) -> Given {
        Given {
            alloc,
            begun: Vec::new(alloc),
            text: Vec::new(alloc),
            native: Vec::new(alloc),
            has_native: 0,
            library: Vec::new(alloc),
            dll: Vec::new(alloc),
            name: String::new(alloc),
            has_name: 0,
            machine: 0x8664,
            flavor: 0,
            flags: 0,
            exports: Vec::new(alloc),
            put: Vec::new(alloc),
        }
    }

    /// Sets what a line says; whether it says any.
    pub fn is_set_by(&mut self, line: &Line) -> Result<bool, Fail> {
        match line.word {
            "line" | "part" | "bytes" | "repeated" | "numbered" | "padded" => {
                let more = bytes_made(self.alloc, line)?;
                self.begun.extend_from_slice(more.as_slice())?;
            }
            "text" => self.text = self.ended()?,
            "native" => {
                self.native = self.ended()?;
                self.has_native = 1;
            }
            "library" => self.library = self.ended()?,
            "dll" => self.dll = self.ended()?,
            "made" => self.library = self.put.clone()?,
            "machine" => self.machine = u16::try_from(number_in(line.rest)?)?,
            "flavor" => self.flavor = u32::try_from(number_in(line.rest)?)?,
            "flags" => self.flags = u32::try_from(number_in(line.rest)?)?,
            "named" => {
                self.name = unescaped(self.alloc, line.rest)?;
                self.has_name = 1;
            }
            "export" => {
                let export = own_export(self.alloc, line.rest)?;
                self.exports.push(export)?;
            }
            _ => return Ok(false),
        }
        Ok(true)
    }

    /// What is begun.
    fn ended(&mut self) -> Result<Vec<u8>, AllocError> {
        let bytes = self.begun.clone()?;
        self.begun.clear();
        Ok(bytes)
    }
}

/// An export in words.
fn own_export(alloc: Global, words: &str) -> Result<OwnExport, Fail> {
    let (flags, rest) = word_of(words);
    let (ordinal, rest) = word_of(rest);
    let (name, target) = word_of(rest);
    Ok(OwnExport {
        name: text_in(alloc, name)?,
        target: text_in(alloc, target)?,
        ordinal: u16::try_from(number_in(ordinal)?)?,
        flags: u32::try_from(number_in(flags)?)?,
    })
}
