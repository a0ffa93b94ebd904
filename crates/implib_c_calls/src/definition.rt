//! From a text to what it states, encoded in a buffer, or to what is wrong.

ghost use Rattle.implib.specs.Definition.{definition_view};
ghost use Rattle.implib_archive.specs.Pushed.{Pushes};
ghost use Rattle.implib_c_calls.specs.Definition.{NumbersFit, encoded_definition, encoded_export};
ghost use Rattle.implib_c_calls.specs.Definition.{encoded_optional, flag, flags_of, stated};
ghost use Rattle.implib_c_calls.specs.Definition.{stated_of};
ghost use Rattle.implib_c_calls.specs.DefinitionAnswer.{DefinitionAnswers, HasDefinition};
ghost use Rattle.implib_c_calls.specs.DefinitionAnswer.{LacksDefinition};
ghost use Rattle.implib_c_calls.specs.Encoding.{encoded_list, encoded_number, encoded_text};
ghost use Rattle.implib_c_calls.specs.Given.{IsEncoding, length_given, place_given, status_given};
ghost use Rattle.implib_c_calls.specs.Status.{status_number};
ghost use Rattle.std.specs.Option.{option_map};
ghost use Rattle.std.specs.Prelude.{◌≡◌, ◌<◌, ◌^◌, ◌≤◌, All, IfErr, IfOk, OnOk, map};
ghost use Rattle.std.specs.String.{string_bytes};

use crate::outcome::{Failure, machine_with, put_encoding};
use implib::def::{ModuleDef, ShortExport};
use std::alloc::{AllocError, Global};

/// Appends a number.
#[tactic(auto, unfolding(crate::specs::Encoding::encoded_number))]
pub fn push_number(bytes: &mut Vec<u8>, number: u64) -> Result<(), AllocError>
    ensures { OnOk result (Pushes bytes.old.items bytes.new.items (encoded_number number)) }
{
    bytes.extend_from_slice(&number.to_le_bytes())
}

/// Appends a text.
pub fn push_text(bytes: &mut Vec<u8>, text: &[u8]) -> Result<(), AllocError>
    ensures { OnOk result (Pushes bytes.old.items bytes.new.items (encoded_text text.now)) }
{
    push_number(bytes, text.len() as u64)?;
    bytes.extend_from_slice(text)
}

// Appends a text that may be missing.
fn push_optional(bytes: &mut Vec<u8>, text: &Option<String>) -> Result<(), AllocError>
    ensures { OnOk result (Pushes bytes.old.items bytes.new.items
        (encoded_optional (option_map string_bytes text.now))) }
{
    match text {
        None => push_number(bytes, 0),
        Some(text) => {
            push_number(bytes, 1)?;
            push_text(bytes, text.as_bytes())
        }
    }
}

// The number of a flag, where it is set; else 0.
fn flag(is_set: bool, number: u64) -> u64
    ensures value { result ≡ flag is_set number }
    ensures most { result ≤ number }
{
    if is_set { number } else { 0 }
}

// The attributes of an export.
fn flags_of(export: &ShortExport) -> u64
    ensures { result ≡ flags_of (stated_of export.now) }
{
    flag(export.no_name, 1)
        + flag(export.is_data, 2)
        + flag(export.constant, 4)
        + flag(export.private, 8)
}

// Appends an export.
fn push_export(bytes: &mut Vec<u8>, export: &ShortExport) -> Result<(), AllocError>
    ensures appended { OnOk result (Pushes bytes.old.items bytes.new.items
        (encoded_export (stated_of export.now))) }
    ensures fit { OnOk result (export.now.ordinal < 2 ^ 64) }
{
    push_text(bytes, export.name.as_bytes())?;
    push_optional(bytes, &export.ext_name)?;
    push_text(bytes, export.alias_target.as_bytes())?;
    push_number(bytes, u64::from(export.ordinal))?;
    push_number(bytes, flags_of(export))
}

// Appends a list of exports.
fn push_exports(bytes: &mut Vec<u8>, exports: &[ShortExport]) -> Result<(), AllocError>
    ensures appended { OnOk result (Pushes bytes.old.items bytes.new.items
        (encoded_list encoded_export (map stated_of exports.now))) }
    ensures fit { OnOk result (All (λ e. e.ordinal < 2 ^ 64) exports.now) }
{
    push_number(bytes, exports.len() as u64)?;
    for export in exports {
        push_export(bytes, export)?;
    }
    Ok(())
}

// What a definition states, encoded.
fn encoding_of(alloc: Global, definition: &ModuleDef) -> Result<Vec<u8>, AllocError>
    ensures { IfOk result
        (λ bytes. IsEncoding encoded_definition NumbersFit
        (stated (definition_view definition.now))
        bytes.items) }
{
    let mut bytes = Vec::new(alloc);
    push_text(&mut bytes, definition.import_name.as_bytes())?;
    push_number(&mut bytes, definition.image_base)?;
    push_number(&mut bytes, definition.stack_reserve)?;
    push_number(&mut bytes, definition.stack_commit)?;
    push_number(&mut bytes, definition.heap_reserve)?;
    push_number(&mut bytes, definition.heap_commit)?;
    push_number(&mut bytes, u64::from(definition.major_image_version))?;
    push_number(&mut bytes, u64::from(definition.minor_image_version))?;
    push_exports(&mut bytes, definition.exports.as_slice())?;
    Ok(bytes)
}

// The definition that a text means.
fn read_definition(alloc: Global, text: &[u8], machine: u16) -> Result<ModuleDef, Failure>
    ensures ok { IfOk result (λ def. HasDefinition text.now machine (definition_view def)) }
    ensures fault { IfErr result (LacksDefinition text.now machine) }
{
    let Some(machine) = machine_with(machine) else {
        return Err(Failure::UnknownMachine);
    };
    let text = match str::from_utf8(text) {
        Ok(text) => text,
        Err(error) => return Err(Failure::NotUtf8(error.valid_up_to())),
    };
    match ModuleDef::parse_with_position(alloc, text, machine) {
        Ok(definition) => Ok(definition),
        Err(error) => Err(Failure::from(error)),
    }
}

/// Puts what a text states on a machine at the beginning of the buffer. Gives the length of its
/// encoding. An error leaves the buffer as it was.
///
/// The encoding is made beside the buffer, which a failed allocation so leaves as it was.
///
/// # Errors
///
/// The first that applies: `UnknownMachine`, `NotUtf8`, `SyntaxError`, `BufferTooSmall`.
/// `OutOfMemory` can precede the last two.
pub fn definition_into(
    alloc: Global,
    text: &[u8],
    machine: u16,
    buffer: &mut [u8],
) -> Result<usize, Failure>
    ensures { DefinitionAnswers text.now machine buffer.old buffer.new
        (length_given result) (place_given result) (status_number (status_given result)) }
{
    let definition = match read_definition(alloc, text, machine) {
        Ok(definition) => definition,
        Err(failure) => return Err(failure),
    };
    let Ok(bytes) = encoding_of(alloc, &definition) else {
        return Err(Failure::OutOfMemory);
    };
    put_encoding(buffer, bytes.as_slice())
}
