//! The files of a case: the members of its libraries.
//!
//! `library gnu` or `library msvc` begins a library; the `text` lines after it are its definition,
//! and `numbered e 3` adds lines `e0`, `e1` and `e2` to it. A file is named by its name; `foo.dll:3`
//! is the fourth file of a name.

use crate::lines::{Line, bytes_in, number_in, text_of};
use implib::{Flavor, ImportLibrary, MachineType, Member};
use implib_test_linker::{Expansion, expanded};
use std::alloc::{AllocError, Global};
use std::test::Fail;

/// A file, with what it is taken for if it is a short import.
pub type File = (Member, Option<Expansion>);

/// The files of a case.
#[derive(Drop)]
pub struct Files {
    pub all: Vec<File>,
}

/// The files that lines say.
pub fn files_of(alloc: Global, machine: MachineType, lines: &[Line]) -> Result<Files, Fail> {
    let mut all = Vec::new(alloc);
    for (index, line) in lines.iter().enumerate() {
        if line.word == "library" {
            let of_library = lines.get(index..).unwrap_or(&[]);
            push_members(alloc, &mut all, machine, line.rest, of_library)?;
        }
    }
    Ok(Files { all })
}

/// Appends the members of the library that lines begin with.
fn push_members(
    alloc: Global,
    all: &mut Vec<File>,
    machine: MachineType,
    flavor: &str,
    lines: &[Line],
) -> Result<(), Fail> {
    let flavor: Flavor = flavor.parse()?;
    let text = definition_of(alloc, lines)?;
    let library = ImportLibrary::new(alloc, text.as_str(), machine, flavor)?;
    for member in library.members()? {
        let expansion = expanded(alloc, member.bytes.as_slice(), machine.number())?;
        all.push((member, expansion))?;
    }
    Ok(())
}

/// The definition of the library that lines begin with.
fn definition_of(alloc: Global, lines: &[Line]) -> Result<String, Fail> {
    let mut end = 1usize;
    for line in lines.iter().skip(1) {
        if line.word != "text" && line.word != "numbered" {
            break;
        }
        end = end.saturating_add(1);
    }
    let lines = lines.get(..end).unwrap_or(&[]);
    let mut text = text_of(alloc, lines)?.ok_or("a library has no text")?;
    for line in lines {
        if line.word == "numbered" {
            push_numbered(&mut text, line.rest)?;
        }
    }
    Ok(text)
}

/// Appends a line for each number below one.
fn push_numbered(text: &mut String, words: &str) -> Result<(), Fail> {
    let (front, end) = words.split_once(' ').ok_or("lines have no number")?;
    let end = number_in(end)?;
    for number in 0..end {
        push_line(text, front, number)?;
    }
    Ok(())
}

/// Appends a line of a word and a number after it.
fn push_line(text: &mut String, front: &str, number: u64) -> Result<(), AllocError> {
    write!(text, "\n{front}{number}")
}

/// The index of the file that a word names.
pub fn index_of(files: &[File], word: &str) -> Result<usize, Fail> {
    let (name, mut before) = match word.split_once(':') {
        Some((name, number)) => (name, number_in(number)?),
        None => (word, 0),
    };
    for (index, (member, _)) in files.iter().enumerate() {
        if member.name.as_str() == name {
            if before == 0 {
                return Ok(index);
            }
            before -= 1;
        }
    }
    Err(Fail::new(format_args!("there is no file {word}")))
}

/// Whether a linker for a machine takes a short import: `expand foo.dll:3 ARM64`, or with other
/// bytes for its types, as `expand foo.dll:3 ARM64 0700`.
pub fn answer_expand(
    alloc: Global,
    text: &mut String,
    files: &Files,
    words: &str,
) -> Result<(), Fail> {
    let (word, rest) = words.split_once(' ').ok_or("there is no machine")?;
    let (machine, types) = rest.split_once(' ').unwrap_or((rest, ""));
    let (member, _) = files
        .all
        .as_slice()
        .get(index_of(files.all.as_slice(), word)?)
        .ok_or("there is no such file")?;
    let bytes = with_types(alloc, member.bytes.as_slice(), types)?;
    let machine: MachineType = machine.parse()?;
    let is_taken = expanded(alloc, bytes.as_slice(), machine.number())?.is_some();
    let answer = if is_taken { "taken" } else { "not taken" };
    Ok(writeln!(text, "{words}: {answer}")?)
}

/// A short import with other bytes for its types, if there are any.
fn with_types(alloc: Global, file: &[u8], types: &str) -> Result<Vec<u8>, Fail> {
    let types = bytes_in(alloc, types)?;
    let mut bytes = Vec::from_slice(alloc, file)?;
    if let Some(field) = bytes.as_mut_slice().get_mut(18..20)
        && field.len() == types.len()
    {
        field.copy_from_slice(types.as_slice());
    }
    Ok(bytes)
}
