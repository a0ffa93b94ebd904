//! The marks of the names of functions for ARM64EC.

ghost use Rattle.implib.specs.Ascii.{begins_with, question_mark, without_first};
ghost use Rattle.implib.specs.Import.{is_empty_text};
ghost use Rattle.implib_arm64ec.specs.Marks.{mark, mark_position, marked_at, marked_inside};
ghost use Rattle.implib_arm64ec.specs.Marks.{unmark, without_mark_at};
ghost use Rattle.implib_arm64ec.specs.Refusal.{IfUnreadable};
ghost use Rattle.std.specs.Prelude.{length, option_map, string_bytes, true, Err, IfOk, Ok, Some};
ghost use Rattle.std.specs.Prelude.{◌≡◌, ◌≤◌};
ghost use Rattle.std.specs.Str.{IsCharBoundary};

use crate::error::MarkError;
use crate::reading::{Reading, read_qualified_name};
use std::alloc::{AllocError, Global};

const INNER_MARK: &str = "$$h";

/// The name of a function for ARM64EC, with its mark: `#` before a plain name, `$$h` behind the
/// qualified name in one of C++. A name that has its mark already is as it was.
pub fn mark(alloc: Global, name: &str) -> Result<String, MarkError>
    ensures marked { IfOk result (λ marked. mark name.now ≡ Ok (string_bytes marked)) }
    ensures refused { IfUnreadable result (λ place. mark name.now ≡ Err place) }
{
    if name.is_empty() {
        Err(MarkError::Unreadable(0))
    } else if begins_with(name, b'#') {
        Ok(String::from_str(alloc, name)?)
    } else if begins_with(name, b'?') {
        mark_inside(alloc, name)
    } else {
        let mut marked = String::from_str(alloc, "#")?;
        marked.push_str(name)?;
        Ok(marked)
    }
}

/// The name without its mark, if it has one.
pub fn unmark(alloc: Global, name: &str) -> Result<Option<String>, AllocError>
    ensures { IfOk result (λ unmarked. option_map string_bytes unmarked ≡ unmark name.now) }
{
    if begins_with(name, b'#') {
        Ok(Some(String::from_str(alloc, &name[1..])?))
    } else if begins_with(name, b'?') {
        match mark_position(name.as_bytes()) {
            Some(place) => without_mark_at(alloc, place, name),
            None => Ok(None),
        }
    } else {
        Ok(None)
    }
}

// Whether a name begins with a byte.
fn begins_with(name: &str, byte: u8) -> bool
    ensures { result ≡ begins_with byte name.now }
{
    name.as_bytes().first() == Some(&byte)
}

// The position of the first mark in a text.
fn mark_position(text: &[u8]) -> Option<usize>
    ensures { result ≡ mark_position text.now }
{
    let mut rest = text;
    let mut place = 0usize;
    while let [_, after @ ..] = rest {
        if rest.starts_with(b"$$h") {
            return Some(place);
        }
        place += 1;
        rest = after;
    }
    None
}

// The name of C++ with its mark.
fn mark_inside(alloc: Global, name: &str) -> Result<String, MarkError>
    requires { begins_with question_mark name.now ≡ true }
    ensures marked { IfOk result
        (λ marked. marked_inside name.now (mark_position name.now) ≡ Ok (string_bytes marked)) }
    ensures refused { IfUnreadable result
        (λ place. marked_inside name.now (mark_position name.now) ≡ Err place) }
{
    if mark_position(name.as_bytes()).is_some() {
        return Ok(String::from_str(alloc, name)?);
    }
    match read_qualified_name(alloc, after_first(name))? {
        Reading::Ends(length) => Ok(marked_at(alloc, length + 1, name)?),
        Reading::Stops(place) => Err(MarkError::Unreadable(place + 1)),
    }
}

// The bytes of a name behind the first.
fn after_first(name: &str) -> &[u8]
    ensures { result.now ≡ without_first name.now }
{
    match name.as_bytes() {
        [_, rest @ ..] => rest,
        [] => &[],
    }
}

// The name with the mark at this place.
fn marked_at(alloc: Global, place: usize, name: &str) -> Result<String, AllocError>
    requires within { place ≤ length name.now }
    requires boundary { IsCharBoundary name.now place }
    ensures { IfOk result (λ marked. string_bytes marked ≡ marked_at place name.now) }
{
    let mut marked = String::from_str(alloc, &name[..place])?;
    marked.push_str(INNER_MARK)?;
    marked.push_str(&name[place..])?;
    Ok(marked)
}

// The name without the mark at this place, unless nothing follows the mark.
fn without_mark_at(alloc: Global, place: usize, name: &str) -> Result<Option<String>, AllocError>
    requires { mark_position name.now ≡ Some place }
    ensures { IfOk result (λ unmarked. option_map string_bytes unmarked
        ≡ without_mark_at name.now (Some place)) }
{
    let rest = &name[place + INNER_MARK.len()..];
    if rest.is_empty() {
        return Ok(None);
    }
    let mut unmarked = String::from_str(alloc, &name[..place])?;
    unmarked.push_str(rest)?;
    Ok(Some(unmarked))
}
