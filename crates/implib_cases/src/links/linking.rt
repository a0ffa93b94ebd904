//! Linking, and what a linked image has.
//!
//! `link` links the files that it names, in this order, at the last `bases`: those of `.idata$2`,
//! `$4`, `$5`, `$6`, `$7` and `.text`. `bare` leaves out the null descriptor. Of the image ask `loaded`, what a loader finds; `image`, all bytes; `directory`, how many DLLs a strict
//! loader finds; `entries`, the symbols of the address tables; `address SYMBOL`; `jump SYMBOL`,
//! from where the stub reads where it jumps. `write` puts bytes at an address.

use super::files::{Files, index_of};
use crate::lines::{Line, bytes_in, number_in, numbers_in};
use implib_test_linker::{Linked, object_of};
use std::alloc::{AllocError, Global};
use std::test::Fail;

/// What is linked, and the bases of what will be.
#[derive(Drop)]
pub struct State<'a> {
    pub linked: Option<Linked<'a>>,
    pub bases: [usize; 6],
}

impl State<'_> {
    /// Nothing is linked.
    pub fn new() -> Self {
        State {
            linked: None,
            bases: [0; 6],
        }
    }
}

/// Links files, and says that they link or why they do not.
pub fn link<'a>(
    alloc: Global,
    text: &mut String,
    files: &'a Files,
    state: &mut State<'a>,
    words: &str,
    is_ended: bool,
) -> Result<(), Fail> {
    let mut objects = Vec::new(alloc);
    for word in words.split_whitespace() {
        let index = index_of(files.all.as_slice(), word)?;
        let (member, expansion) = files.all.as_slice().get(index).ok_or("no file")?;
        let object = object_of(alloc, member.bytes.as_slice(), expansion)?;
        objects.push(object)?;
    }
    state.linked = None;
    match implib_test_linker::link(alloc, objects, state.bases, is_ended)? {
        Ok(linked) => {
            state.linked = Some(linked);
            Ok(writeln!(text, "linked")?)
        }
        Err(unlinked) => Ok(writeln!(text, "not linked: {unlinked}")?),
    }
}

/// The bases that words say.
pub fn bases_in(alloc: Global, words: &str) -> Result<[usize; 6], Fail> {
    let numbers = numbers_in(alloc, words)?;
    let mut bases = [0; 6];
    if numbers.len() != bases.len() {
        return Err(Fail::new("there are not six bases"));
    }
    for (base, number) in bases.iter_mut().zip(numbers.iter()) {
        *base = *number as usize;
    }
    Ok(bases)
}

/// The answer to a line about a linked image.
pub fn answer_linked(
    alloc: Global,
    text: &mut String,
    state: &mut State,
    line: &Line,
) -> Result<(), Fail> {
    let linked = state.linked.as_mut().ok_or("nothing is linked")?;
    match line.word {
        "loaded" => text.push_str(linked.loaded(alloc)?.as_str())?,
        "image" => text.push_str(linked.image_text(alloc)?.as_str())?,
        "directory" => answer_directory(text, linked)?,
        "entries" => answer_entries(alloc, text, linked)?,
        "address" => answer_address(text, linked, line.rest)?,
        "jump" => answer_jump(text, linked, line.rest)?,
        "write" => write_bytes(alloc, linked, line.rest)?,
        word => return Err(Fail::new(format_args!("{word} is no word of a case"))),
    }
    Ok(())
}

/// How many DLLs a strict loader finds in the import directory, or what is wrong with it.
fn answer_directory(text: &mut String, linked: &Linked) -> Result<(), AllocError> {
    match linked.check_directory() {
        Ok(count) => writeln!(text, "a directory of {count}"),
        Err(flaw) => writeln!(text, "no directory: {flaw}"),
    }
}

/// The symbols of the address tables, with their addresses.
fn answer_entries(alloc: Global, text: &mut String, linked: &Linked) -> Result<(), Fail> {
    for (name, address) in linked.entries(alloc)? {
        writeln!(text, "{name} {address:#x}")?;
    }
    Ok(())
}

/// The address of a symbol.
fn answer_address(text: &mut String, linked: &Linked, symbol: &str) -> Result<(), Fail> {
    Ok(writeln!(text, "{symbol} {:#x}", linked.address_of(symbol)?)?)
}

/// From where the stub of a symbol, or at an address, reads where it jumps.
fn answer_jump(text: &mut String, linked: &Linked, word: &str) -> Result<(), Fail> {
    let address = if word.starts_with("0x") {
        number_in(word)? as usize
    } else {
        linked.address_of(word)?
    };
    match linked.jump_at(address) {
        Ok(place) => Ok(writeln!(text, "{word} jumps by {place:#x}")?),
        Err(flaw) => Ok(writeln!(text, "{word}: {flaw}")?),
    }
}

/// Writes bytes at an address.
fn write_bytes(alloc: Global, linked: &mut Linked, words: &str) -> Result<(), Fail> {
    let (address, bytes) = words.split_once(' ').ok_or("there are no bytes")?;
    let bytes = bytes_in(alloc, bytes)?;
    Ok(
        linked
            .image
            .write(number_in(address)? as usize, bytes.as_slice())?,
    )
}
