//! From a text and options to the library that the program makes of them, or to what is wrong.

ghost use Rattle.implib_c_calls.specs.Given.{PacksInto, length_given, place_given, status_given};
ghost use Rattle.implib_c_calls.specs.LibraryWith.{AreOptions, IsOptionFault, IsWithin};
ghost use Rattle.implib_c_calls.specs.LibraryWith.{LibraryWithAnswers, failure_at, given_options};
ghost use Rattle.implib_c_calls.specs.LibraryWith.{mark_length, naming_numbered};
ghost use Rattle.implib_c_calls.specs.Status.{status_number};
ghost use Rattle.implib_rules.specs.Library.{definition_text, kind_of};
ghost use Rattle.implib_rules.specs.Linked.{naming_view};
ghost use Rattle.implib_rules.specs.Options.{library_options_view};
ghost use Rattle.std.specs.Option.{option_map};
ghost use Rattle.std.specs.Prelude.{◌≡◌, ◌+◌, ◌<◌, ◌≤◌, ◌^◌, IfErr, IfOk, length};

use crate::export::has_flag;
use crate::outcome::{Failure, flavor_with, machine_with, pack_into};
use implib::Flavor;
use implib_rules::additions::Additions;
use implib_rules::library::{Refusal, kind_for, members_for};
use implib_rules::linked::Naming;
use implib_rules::members::LibraryMembers;
use implib_rules::options::LibraryOptions;
use std::alloc::Global;

// The flags of options: `IMPLIB_KILL_AT` and those below it in the header.
const KILL_AT: u32 = 1;

const NO_LEADING_UNDERSCORE: u32 = 2;

const EXPORT_AS: u32 = 4;

const KEEP_DECORATED: u32 = 8;

// How names are read, and asked for, with these flags.
fn naming_with(flags: u32) -> Option<Naming>
    ensures { option_map naming_view result ≡ naming_numbered flags }
{
    if flags > (KILL_AT | NO_LEADING_UNDERSCORE | EXPORT_AS | KEEP_DECORATED) {
        return None;
    }
    Some(Naming {
        is_plain: has_flag(flags, NO_LEADING_UNDERSCORE),
        kills_at: has_flag(flags, KILL_AT),
        exports_as: has_flag(flags, EXPORT_AS),
        keeps_decorated: has_flag(flags, KEEP_DECORATED),
    })
}

/// The options as C passes them: numbers, and the bytes of a name.
#[derive(Clone, Copy, Debug)]
pub struct OptionsArguments<'a> {
    /// The number of a machine.
    pub machine: u16,
    /// The number of a flavour.
    pub flavor: u32,
    /// A sum of the flags.
    pub flags: u32,
    /// 0 where no name of the DLL is given.
    pub has_dll: u32,
    /// The name of the DLL, where it is given.
    pub dll: &'a [u8],
}

/// The options that are given.
///
/// # Errors
///
/// The first that applies: `UnknownMachine`, `UnknownFlavor`, `UnknownFlags`, `DllNotUtf8`.
pub fn options_with<'a>(arguments: OptionsArguments<'a>) -> Result<LibraryOptions<'a>, Failure>
    ensures ok { IfOk result (λ options. AreOptions (given_options arguments.entry)
        (library_options_view options)) }
    ensures fault { IfErr result (IsOptionFault (given_options arguments.entry)) }
{
    let OptionsArguments {
        machine,
        flavor,
        flags,
        has_dll,
        dll,
    } = arguments;
    let Some(machine) = machine_with(machine) else {
        return Err(Failure::UnknownMachine);
    };
    let Some(flavor) = flavor_with(flavor) else {
        return Err(Failure::UnknownFlavor);
    };
    let Some(naming) = naming_with(flags) else {
        return Err(Failure::UnknownFlags);
    };
    if has_dll == 0 {
        return Ok(LibraryOptions {
            machine,
            flavor,
            dll: None,
            naming,
            additions: Additions::none(),
        });
    }
    match str::from_utf8(dll) {
        Ok(name) => Ok(LibraryOptions {
            machine,
            flavor,
            dll: Some(name),
            naming,
            additions: Additions::none(),
        }),
        Err(_) => Err(Failure::DllNotUtf8),
    }
}

/// How many bytes of a text are a byte order mark.
pub fn mark_length(text: &[u8]) -> usize
    ensures { result ≡ mark_length text.now }
{
    if text.starts_with(&[0xEF, 0xBB, 0xBF]) {
        3
    } else {
        0
    }
}

/// The offset in a text with its byte order mark.
pub(crate) fn place_in(text: &[u8], offset: usize) -> usize
    requires { offset ≤ length (definition_text text.now) }
    ensures { result ≡ mark_length text.now + offset }
{
    mark_length(text) + offset
}

/// What a refusal of a text becomes: its offset is in the text with its byte order mark.
pub fn failure_in(text: &[u8], refusal: Refusal) -> Failure
    requires { IsWithin text.now refusal }
    ensures { result ≡ failure_at text.now refusal }
{
    match refusal {
        Refusal::NotUtf8(position) => Failure::NotUtf8(place_in(text, position.offset)),
        Refusal::Syntax(fault, position) => {
            Failure::SyntaxError(fault, place_in(text, position.offset))
        }
        Refusal::NoName => Failure::NoDllName,
        Refusal::Members(fault, position) => {
            let offset = match fault.export_index() {
                Some(_) => place_in(text, position.offset),
                None => 0,
            };
            Failure::RefusedAt(fault, offset)
        }
        Refusal::Archive(fault) => Failure::NoArchive(fault),
        Refusal::OutOfMemory => Failure::OutOfMemory,
    }
}

/// Puts the archive of members for a flavour at the beginning of the buffer, of the kind that the
/// program makes, where there is room. Gives its length.
///
/// # Errors
///
/// `NoArchive`, `BufferTooSmall`, `OutOfMemory`.
pub fn pack_for(
    alloc: Global,
    buffer: &mut [u8],
    members: &LibraryMembers,
    flavor: Flavor,
) -> Result<usize, Failure>
    ensures { PacksInto (kind_of flavor members.now) members.now buffer.old buffer.new result }
{
    pack_into(alloc, buffer, members, kind_for(flavor, members.len()))
}

/// Puts the library that the program makes of a text with these options at the beginning of the
/// buffer. Gives its length. An error leaves the buffer as it was.
///
/// # Errors
///
/// The first that applies: `UnknownMachine`, `UnknownFlavor`, `UnknownFlags`, `DllNotUtf8`,
/// `NotUtf8`, `SyntaxError`, `NoDllName`, `RefusedAt`, `NoArchive`, `BufferTooSmall`. `OutOfMemory`
/// can precede the last six, and come where none applies.
pub fn library_with_into(
    alloc: Global,
    text: &[u8],
    arguments: OptionsArguments<'_>,
    buffer: &mut [u8],
) -> Result<usize, Failure>
    ensures { LibraryWithAnswers text.now (given_options arguments.entry) buffer.old buffer.new
        (length_given result) (place_given result) (status_number (status_given result)) }
{
    match options_with(arguments) {
        Ok(options) => match members_for(alloc, text, &options) {
            Ok(members) => pack_for(alloc, buffer, &members, options.flavor),
            Err(refusal) => Err(failure_in(text, refusal)),
        },
        Err(failure) => Err(failure),
    }
}
