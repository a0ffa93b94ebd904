//! Calls with buffers of several lengths.
//!
//! `call NAME` tells the status and the place of a call: `members`, `library`, `library_with`,
//! `delayed_library`, `library_arm64ec`, `library_of`, `library_of_dll`, `definition`, `warnings`,
//! `imports`, `exports`, `check_dll` or `check_library`. It is made with an empty buffer first. Where it then tells a length, it is made
//! with shorter buffers, which have to stay as they were, and with one of this length and longer
//! ones, which have to begin with the same bytes, and to stay as they were behind these. Else it is
//! made with a buffer of 4,096 bytes, which has to stay as it was. `once NAME` makes it with the
//! buffer of just this length alone, after the empty one.

use super::given::Given;
use crate::lines::Line;
use implib_c_calls::arm64ec::arm64ec_library_into;
use implib_c_calls::check::check_into;
use implib_c_calls::definition::definition_into;
use implib_c_calls::delayed::delayed_into;
use implib_c_calls::dll_check::check_dll_into;
use implib_c_calls::dll_exports::exports_into;
use implib_c_calls::dll_library::dll_library_into;
use implib_c_calls::export::Export;
use implib_c_calls::imports::imports_into;
use implib_c_calls::library_of::library_of_into;
use implib_c_calls::library_with::{OptionsArguments, library_with_into};
use implib_c_calls::outcome::{
    Failure, length_of, library_into, members_into, place_of, status_of,
};
use implib_c_calls::warnings::warnings_into;
use std::alloc::AllocError;
use std::test::Fail;

/// What a buffer holds before a call.
const PATTERN: u8 = 0xA5;

/// The status, the length and the place of a call.
#[derive(Clone, Copy, PartialEq)]
struct Told {
    status: u32,
    length: usize,
    place: usize,
}

/// A buffer of this length.
fn room(given: &Given, length: usize) -> Result<Vec<u8>, AllocError> {
    let mut buffer = Vec::new(given.alloc);
    buffer.resize(length, PATTERN)?;
    Ok(buffer)
}

/// Whether no byte is changed.
fn is_untouched(bytes: &[u8]) -> bool {
    bytes.iter().all(|byte| *byte == PATTERN)
}

/// The options of a case.
fn options_of(given: &Given) -> OptionsArguments<'_> {
    OptionsArguments {
        machine: given.machine,
        flavor: given.flavor,
        flags: given.flags,
        has_dll: given.has_name,
        dll: given.name.as_bytes(),
    }
}

/// Makes a call.
fn call(given: &Given, name: &str, buffer: &mut [u8]) -> Result<Result<usize, Failure>, Fail> {
    let alloc = given.alloc;
    let (text, library) = (given.text.as_slice(), given.library.as_slice());
    let (machine, flavor) = (given.machine, given.flavor);
    Ok(match name {
        "members" => members_into(alloc, text, machine, flavor, buffer),
        "library" => library_into(alloc, text, machine, flavor, buffer),
        "library_with" => library_with_into(alloc, text, options_of(given), buffer),
        "delayed_library" => delayed_into(alloc, text, options_of(given), buffer),
        "library_of" => call_with_exports(given, buffer)?,
        "library_arm64ec" => {
            let native = given.native.as_slice();
            arm64ec_library_into(
                alloc,
                text,
                native,
                given.has_native,
                options_of(given),
                buffer,
            )
        }
        "library_of_dll" => {
            dll_library_into(alloc, given.dll.as_slice(), options_of(given), buffer)
        }
        "definition" => definition_into(alloc, text, machine, buffer),
        "warnings" => warnings_into(alloc, text, options_of(given), buffer),
        "imports" => imports_into(alloc, library, buffer),
        "exports" => exports_into(alloc, given.dll.as_slice(), buffer),
        "check_dll" => {
            let dll = given.dll.as_slice();
            check_dll_into(alloc, library, dll, given.name.as_bytes(), buffer)
        }
        "check_library" => check_into(alloc, library, text, options_of(given), buffer),
        _ => return Err(Fail::new(format_args!("{name} is no call"))),
    })
}

/// Makes the call that takes exports.
fn call_with_exports(
    given: &Given,
    buffer: &mut [u8],
) -> Result<Result<usize, Failure>, AllocError> {
    let mut exports = Vec::new(given.alloc);
    for own in given.exports.iter() {
        exports.push(Export {
            name: own.name.as_bytes(),
            target: own.target.as_bytes(),
            ordinal: own.ordinal,
            flags: own.flags,
        })?;
    }
    let options = options_of(given);
    Ok(library_of_into(given.alloc, exports.as_slice(), options, buffer))
}

/// Makes a call. Gives what it tells, and the buffer.
fn outcome_of(given: &Given, name: &str, length: usize) -> Result<(Told, Vec<u8>), Fail> {
    let mut buffer = room(given, length)?;
    let answer = call(given, name, buffer.as_mut_slice())?;
    let told = Told {
        status: status_of(&answer).number(),
        length: length_of(&answer),
        place: place_of(&answer),
    };
    Ok((told, buffer))
}

/// Tells what a call tells, and has what it puts be what was put last.
pub fn answer_call(text: &mut String, given: &mut Given, line: &Line) -> Result<(), Fail> {
    let name = line.rest;
    let (empty, _) = outcome_of(given, name, 0)?;
    if empty.status != 1 {
        push_told(text, empty)?;
        let (other, buffer) = outcome_of(given, name, 4096)?;
        let is_same = other == empty && is_untouched(buffer.as_slice());
        return Ok(push_fault(text, is_same, 4096)?);
    }
    let (whole, buffer) = outcome_of(given, name, empty.length)?;
    push_told(text, whole)?;
    given.put = buffer;
    if line.word == "once" {
        return Ok(());
    }
    for length in [1, empty.length / 2, empty.length.saturating_sub(1)] {
        hold_short(text, given, name, empty, length)?;
    }
    for more in [0, 1, 64] {
        hold_long(text, given, name, whole, more)?;
    }
    Ok(())
}

/// Appends what a call tells.
fn push_told(text: &mut String, told: Told) -> Result<(), AllocError> {
    write!(text, "  status {}, place {}", told.status, told.place)?;
    if told.status > 1 && told.length > 0 {
        write!(text, ", {} bytes", told.length)?;
    }
    text.push('\n')
}

/// Appends where a call with a buffer of another length does something else.
fn push_fault(text: &mut String, is_same: bool, length: usize) -> Result<(), AllocError> {
    if is_same {
        return Ok(());
    }
    writeln!(text, "  with a buffer of {length} bytes something else")
}

/// Tells where a buffer that is too short changes, or a call with it tells something else.
fn hold_short(
    text: &mut String,
    given: &Given,
    name: &str,
    empty: Told,
    length: usize,
) -> Result<(), Fail> {
    let (found, buffer) = outcome_of(given, name, length)?;
    let is_same = found == empty && empty.place == 0 && is_untouched(buffer.as_slice());
    Ok(push_fault(text, is_same, length)?)
}

/// Tells where a longer buffer changes behind what is put, or has something else.
fn hold_long(
    text: &mut String,
    given: &Given,
    name: &str,
    whole: Told,
    more: usize,
) -> Result<(), Fail> {
    let length = whole.length.saturating_add(more);
    let (found, buffer) = outcome_of(given, name, length)?;
    let (front, rest) = buffer
        .split_at_checked(whole.length)
        .ok_or("the buffer is shorter")?;
    let is_same = found == whole && front == given.put.as_slice() && is_untouched(rest);
    Ok(push_fault(text, is_same, length)?)
}
