//! What a case sets: the input, members, and the devices.
//!
//! - What a line makes (`crate::lines`) is appended to the input. `input` begins it anew.
//!   `document` begins a further document, after a separating line.
//! - `member NAME BYTES` adds a member, and `counted COUNT TIMES NAME` one of this many bytes,
//!   which are the numbers from 0 modulo 251, with a name this many times. `lists SYMBOL..` has the
//!   last one listed for symbols.
//! - `reads STEP CALLS` and `writes STEP CALLS` set how many bytes a device moves in a call at
//!   most, and how many calls succeed, `any` for all. `tears` has the writer take half of the bytes
//!   of a call that fails.
//! - `keep` keeps what was written last.

use super::devices::{AMPLE, Pace};
use crate::lines::{Line, bytes_in, bytes_made, count_in, unescaped, word_of};
use implib::Member;
use std::alloc::{AllocError, Global};
use std::test::Fail;

/// What a case has set so far, and what was written.
#[derive(Drop)]
pub struct Trial {
    pub alloc: Global,
    pub documents: Vec<Vec<u8>>,
    pub members: Vec<Member>,
    pub reads: Pace,
    pub writes: Pace,
    pub tears: bool,
    /// What was written last.
    pub written: Vec<u8>,
    pub kept: Vec<u8>,
}

/// A pace in two words.
fn pace_in(words: &str) -> Result<Pace, Fail> {
    let (step, calls) = word_of(words);
    Ok(Pace {
        step: count_in(step)?,
        calls: count_in(calls)?,
    })
}

impl Trial {
    /// An empty input and devices that are ample.
    pub fn new(alloc: Global) -> Trial {
        Trial {
            alloc,
            documents: Vec::new(alloc),
            members: Vec::new(alloc),
            reads: AMPLE,
            writes: AMPLE,
            tears: false,
            written: Vec::new(alloc),
            kept: Vec::new(alloc),
        }
    }

    /// The documents, with a separating line between each two.
    pub fn input(&self) -> Result<Vec<u8>, AllocError> {
        let mut all = Vec::new(self.alloc);
        let mut separator = b"".as_slice();
        for document in self.documents.iter() {
            all.extend_from_slice(separator)?;
            all.extend_from_slice(document.as_slice())?;
            separator = b"---\n";
        }
        Ok(all)
    }

    /// Sets what a line says; whether it says any.
    pub fn is_set_by(&mut self, line: &Line) -> Result<bool, Fail> {
        match line.word {
            "line" | "part" | "bytes" | "repeated" | "numbered" | "padded" => self.append(line)?,
            "input" => self.documents = Vec::new(self.alloc),
            "document" => self.documents.push(Vec::new(self.alloc))?,
            "member" | "counted" => {
                let member = self.member(line)?;
                self.members.push(member)?;
            }
            "lists" => self.list(line.rest)?,
            "reads" => self.reads = pace_in(line.rest)?,
            "writes" => self.writes = pace_in(line.rest)?,
            "tears" => self.tears = true,
            "keep" => self.kept = self.written.clone()?,
            _ => return Ok(false),
        }
        Ok(true)
    }

    /// Appends to the last document of the input.
    fn append(&mut self, line: &Line) -> Result<(), Fail> {
        let more = bytes_made(self.alloc, line)?;
        match self.documents.last_mut() {
            Some(document) => document.extend_from_slice(more.as_slice())?,
            None => self.documents.push(more)?,
        }
        Ok(())
    }

    /// A member without symbols.
    fn member(&self, line: &Line) -> Result<Member, Fail> {
        let (first, rest) = word_of(line.rest);
        let (name, bytes) = if line.word == "member" {
            (unescaped(self.alloc, first)?, bytes_in(self.alloc, rest)?)
        } else {
            let (times, name) = word_of(rest);
            let name = name.repeat(self.alloc, count_in(times)?)?;
            (name, self.counted(count_in(first)?)?)
        };
        Ok(Member {
            name,
            bytes,
            symbols: Vec::new(self.alloc),
        })
    }

    /// The numbers from 0, modulo 251.
    fn counted(&self, count: usize) -> Result<Vec<u8>, AllocError> {
        let mut bytes = Vec::new(self.alloc);
        for index in 0..count {
            bytes.push((index % 251) as u8)?;
        }
        Ok(bytes)
    }

    /// Has the last member listed for the symbols in the words of a text.
    fn list(&mut self, words: &str) -> Result<(), Fail> {
        let alloc = self.alloc;
        let member = self.members.last_mut().ok_or("there is no member")?;
        for word in words.split_whitespace() {
            member.symbols.push(unescaped(alloc, word)?)?;
        }
        Ok(())
    }
}
