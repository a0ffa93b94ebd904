//! What C calls (`include/implib.h`).
//!
//! C passes nothing for `alloc`, and for a slice a pointer to its first element and its length. No
//! pointer may be null: the header has inline functions without the ending `_nonnull`, which put a
//! variable of their own in a null pointer's place.
//!
//! A function with a `buffer` puts what it is for at its beginning, and gives a status: 0 where that
//! is done. `length` gets its length in bytes where the status is 0 or 1 (the buffer is too small),
//! else 0. `place` gets an offset in the text, of the first byte that is not UTF-8 or of the token at
//! which it is refused, or what the function says of it, else 0. Where the status is not 0 the
//! buffer is as it was, and where it is 0, what follows there. `machine` is a number of the PE/COFF
//! specification, "Machine Types"; `flavor` is 0 for Microsoft's linker and 1 for GNU's.

ghost use Rattle.implib.specs.Text.Position.{line_and_column};
ghost use Rattle.implib_c_calls.specs.Answer.{Answers};
ghost use Rattle.implib_c_calls.specs.Arm64ec.{Arm64ecAnswers, native_given};
ghost use Rattle.implib_c_calls.specs.CheckAnswer.{CheckAnswers};
ghost use Rattle.implib_c_calls.specs.DefinitionAnswer.{DefinitionAnswers};
ghost use Rattle.implib_c_calls.specs.Delayed.{DelayedAnswers};
ghost use Rattle.implib_c_calls.specs.DllCheckAnswer.{DllCheckAnswers};
ghost use Rattle.implib_c_calls.specs.DllExportsAnswer.{ExportsAnswers};
ghost use Rattle.implib_c_calls.specs.DllLibrary.{DllLibraryAnswers};
ghost use Rattle.implib_c_calls.specs.Given.{length_given, place_given, status_given};
ghost use Rattle.implib_c_calls.specs.ImportsAnswer.{ImportsAnswers};
ghost use Rattle.implib_c_calls.specs.Library.{LibraryAnswers};
ghost use Rattle.implib_c_calls.specs.LibraryOf.{LibraryOfAnswers, given_export};
ghost use Rattle.implib_c_calls.specs.LibraryWith.{LibraryWithAnswers, NamedLibraryAnswers};
ghost use Rattle.implib_c_calls.specs.LibraryWith.{given_options, options_passed};
ghost use Rattle.implib_c_calls.specs.Place.{text_before};
ghost use Rattle.implib_c_calls.specs.Status.{status_number, text_for, with_text};
ghost use Rattle.implib_c_calls.specs.Version.{version};
ghost use Rattle.implib_c_calls.specs.WarningsAnswer.{WarningsAnswers};
ghost use Rattle.std.specs.Prelude.{◌<◌, ◌≡◌, length, map};

use implib_c_calls::arm64ec::arm64ec_library_into;
use implib_c_calls::check::check_into;
use implib_c_calls::definition::definition_into;
use implib_c_calls::delayed::delayed_into;
use implib_c_calls::dll_check::check_dll_into;
use implib_c_calls::dll_exports::exports_into;
use implib_c_calls::dll_library::dll_library_into;
use implib_c_calls::export::Export;
use implib_c_calls::imports::imports_into;
use implib_c_calls::library_of::library_of_into;
use implib_c_calls::library_with::{OptionsArguments, library_with_into};
use implib_c_calls::named::named_library_into;
use implib_c_calls::outcome::{
    Failure, length_of, library_into, members_into, place_of, status_of,
};
use implib_c_calls::place::position_of;
use implib_c_calls::status::put_status_text;
use implib_c_calls::version::version;
use implib_c_calls::warnings::warnings_into;
use std::alloc::Global;

// Writes the length and the place of an answer. Gives its status.
fn tell(answer: &Result<usize, Failure>, length: &mut usize, place: &mut usize) -> u32
    ensures length { length.new ≡ length_given answer.now }
    ensures place { place.new ≡ place_given answer.now }
    ensures status { result ≡ status_number (status_given answer.now) }
{
    *length = length_of(answer);
    *place = place_of(answer);
    status_of(answer).number()
}

// The options that C passes.
fn passed<'a>(
    machine: u16,
    flavor: u32,
    flags: u32,
    has_dll: u32,
    dll: &'a [u8],
) -> OptionsArguments<'a>
    ensures { given_options result ≡ options_passed machine flavor flags has_dll dll.now }
{
    OptionsArguments {
        machine,
        flavor,
        flags,
        has_dll,
        dll,
    }
}

/// The members of the import library that a text describes, encoded as `specs/Encoding.antt` says.
/// `place` gets the index of the export that is at fault, where one is.
#[unsafe(no_mangle)]
pub extern "C" fn implib_members_nonnull(
    alloc: Global,
    text: &[u8],
    machine: u16,
    flavor: u32,
    buffer: &mut [u8],
    length: &mut usize,
    place: &mut usize,
) -> u32
    ensures { Answers text.now machine flavor buffer.old buffer.new length.new place.new result }
{
    let answer = members_into(alloc, text, machine, flavor, buffer);
    tell(&answer, length, place)
}

/// The archive of the members that `implib_members_nonnull` has for the same arguments: of the COFF
/// kind for Microsoft's linker, of the GNU kind for GNU's.
#[unsafe(no_mangle)]
pub extern "C" fn implib_library_nonnull(
    alloc: Global,
    text: &[u8],
    machine: u16,
    flavor: u32,
    buffer: &mut [u8],
    length: &mut usize,
    place: &mut usize,
) -> u32
    ensures { LibraryAnswers text.now machine flavor buffer.old buffer.new length.new place.new
        result }
{
    let answer = library_into(alloc, text, machine, flavor, buffer);
    tell(&answer, length, place)
}

/// The library that the program `implib_dlltool` makes of a text under these options: `dll` is the
/// name of the DLL, before the text's own, unless `has_dll` is 0; `flags` are those of the header.
/// `place` gets the offset of the name of the export that is at fault, where one is.
#[unsafe(no_mangle)]
pub extern "C" fn implib_library_with_nonnull(
    alloc: Global,
    text: &[u8],
    dll: &[u8],
    has_dll: u32,
    machine: u16,
    flavor: u32,
    flags: u32,
    buffer: &mut [u8],
    length: &mut usize,
    place: &mut usize,
) -> u32
    ensures { LibraryWithAnswers text.now
        (options_passed machine flavor flags has_dll dll.now)
        buffer.old buffer.new length.new place.new result }
{
    let arguments = passed(machine, flavor, flags, has_dll, dll);
    let answer = library_with_into(alloc, text, arguments, buffer);
    tell(&answer, length, place)
}

/// The same, but with a null descriptor whose symbol is named after the library; for GNU's linker it
/// is the same library.
#[unsafe(no_mangle)]
pub extern "C" fn implib_named_library_nonnull(
    alloc: Global,
    text: &[u8],
    dll: &[u8],
    has_dll: u32,
    machine: u16,
    flavor: u32,
    flags: u32,
    buffer: &mut [u8],
    length: &mut usize,
    place: &mut usize,
) -> u32
    ensures { NamedLibraryAnswers text.now
        (options_passed machine flavor flags has_dll dll.now)
        buffer.old buffer.new length.new place.new result }
{
    let arguments = passed(machine, flavor, flags, has_dll, dll);
    let answer = named_library_into(alloc, text, arguments, buffer);
    tell(&answer, length, place)
}

/// The library of delayed imports that the program makes of a text by `-y`; names are asked for as
/// under `-k` in any case.
#[unsafe(no_mangle)]
pub extern "C" fn implib_delayed_library_nonnull(
    alloc: Global,
    text: &[u8],
    dll: &[u8],
    has_dll: u32,
    machine: u16,
    flavor: u32,
    flags: u32,
    buffer: &mut [u8],
    length: &mut usize,
    place: &mut usize,
) -> u32
    ensures { DelayedAnswers text.now
        (options_passed machine flavor flags has_dll dll.now)
        buffer.old buffer.new length.new place.new result }
{
    let arguments = passed(machine, flavor, flags, has_dll, dll);
    let answer = delayed_into(alloc, text, arguments, buffer);
    tell(&answer, length, place)
}

/// The library that the program makes of a text of such exports and no name of the DLL. `place` gets
/// the index of the export that is at fault. The exports are refused one by one, after the options:
/// the flags of one before its names.
#[unsafe(no_mangle)]
pub extern "C" fn implib_library_of_nonnull(
    alloc: Global,
    exports: &[Export<'_>],
    dll: &[u8],
    has_dll: u32,
    machine: u16,
    flavor: u32,
    flags: u32,
    buffer: &mut [u8],
    length: &mut usize,
    place: &mut usize,
) -> u32
    ensures { LibraryOfAnswers (map given_export exports.now)
        (options_passed machine flavor flags has_dll dll.now)
        buffer.old buffer.new length.new place.new result }
{
    let arguments = passed(machine, flavor, flags, has_dll, dll);
    let answer = library_of_into(alloc, exports, arguments, buffer);
    tell(&answer, length, place)
}

/// The library for ARM64EC of a text, with the members of a native text where `has_native` is not 0;
/// the machine and the flavour are of no effect. `place` may be an offset in the native text, where
/// that is refused.
#[unsafe(no_mangle)]
pub extern "C" fn implib_library_arm64ec_nonnull(
    alloc: Global,
    text: &[u8],
    native: &[u8],
    has_native: u32,
    dll: &[u8],
    has_dll: u32,
    machine: u16,
    flavor: u32,
    flags: u32,
    buffer: &mut [u8],
    length: &mut usize,
    place: &mut usize,
) -> u32
    ensures { Arm64ecAnswers text.now (native_given has_native native.now)
        (options_passed machine flavor flags has_dll dll.now)
        buffer.old buffer.new length.new place.new result }
{
    let arguments = passed(machine, flavor, flags, has_dll, dll);
    let answer = arm64ec_library_into(alloc, text, native, has_native, arguments, buffer);
    tell(&answer, length, place)
}

/// The library of all that a DLL exports, whose machine that of the options has to be. `place` gets
/// the offset of the field for which the bytes are no image, the index of an export at fault, or its
/// position in the name table or its ordinal, where no definition can have it.
#[unsafe(no_mangle)]
pub extern "C" fn implib_library_of_dll_nonnull(
    alloc: Global,
    bytes: &[u8],
    dll: &[u8],
    has_dll: u32,
    machine: u16,
    flavor: u32,
    flags: u32,
    buffer: &mut [u8],
    length: &mut usize,
    place: &mut usize,
) -> u32
    ensures { DllLibraryAnswers bytes.now
        (options_passed machine flavor flags has_dll dll.now)
        buffer.old buffer.new length.new place.new result }
{
    let arguments = passed(machine, flavor, flags, has_dll, dll);
    let answer = dll_library_into(alloc, bytes, arguments, buffer);
    tell(&answer, length, place)
}

/// What a text states on a machine, encoded as `specs/Definition.antt` says.
#[unsafe(no_mangle)]
pub extern "C" fn implib_definition_nonnull(
    alloc: Global,
    text: &[u8],
    machine: u16,
    buffer: &mut [u8],
    length: &mut usize,
    place: &mut usize,
) -> u32
    ensures { DefinitionAnswers text.now machine buffer.old buffer.new length.new place.new result }
{
    let answer = definition_into(alloc, text, machine, buffer);
    tell(&answer, length, place)
}

/// The warnings that the program has of a text under these options, encoded as
/// `specs/Warnings.antt` says; there may be none. No contract says in which words a warning is; they
/// are those that the program writes.
#[unsafe(no_mangle)]
pub extern "C" fn implib_warnings_nonnull(
    alloc: Global,
    text: &[u8],
    dll: &[u8],
    has_dll: u32,
    machine: u16,
    flavor: u32,
    flags: u32,
    buffer: &mut [u8],
    length: &mut usize,
    place: &mut usize,
) -> u32
    ensures { WarningsAnswers text.now
        (options_passed machine flavor flags has_dll dll.now)
        buffer.old buffer.new length.new place.new result }
{
    let arguments = passed(machine, flavor, flags, has_dll, dll);
    let answer = warnings_into(alloc, text, arguments, buffer);
    tell(&answer, length, place)
}

/// What the members of a library of any maker are for, and import, encoded as `specs/Imports.antt`
/// says.
#[unsafe(no_mangle)]
pub extern "C" fn implib_imports_nonnull(
    alloc: Global,
    bytes: &[u8],
    buffer: &mut [u8],
    length: &mut usize,
) -> u32
    ensures { ImportsAnswers bytes.now buffer.old buffer.new length.new result }
{
    let answer = imports_into(alloc, bytes, buffer);
    *length = length_of(&answer);
    status_of(&answer).number()
}

/// What the DLL in a file exports, encoded as `specs/DllExports.antt` says. The file is of a PE32 or
/// PE32+ image, for any machine; nothing in it is trusted. `place` gets the offset of the field for
/// which it is none.
#[unsafe(no_mangle)]
pub extern "C" fn implib_exports_nonnull(
    alloc: Global,
    bytes: &[u8],
    buffer: &mut [u8],
    length: &mut usize,
    place: &mut usize,
) -> u32
    ensures { ExportsAnswers bytes.now buffer.old buffer.new length.new place.new result }
{
    let answer = exports_into(alloc, bytes, buffer);
    tell(&answer, length, place)
}

/// What the imports of a library, of any maker, come to in the DLL of a file, encoded as
/// `specs/DllCheck.antt` says. `name` is the name of the DLL, without a folder; where it is empty,
/// that in its export directory counts. A library that is no archive is refused first; `place` is as
/// for `implib_exports_nonnull`.
#[unsafe(no_mangle)]
pub extern "C" fn implib_check_dll_nonnull(
    alloc: Global,
    bytes: &[u8],
    dll: &[u8],
    name: &[u8],
    buffer: &mut [u8],
    length: &mut usize,
    place: &mut usize,
) -> u32
    ensures { DllCheckAnswers bytes.now dll.now name.now buffer.old buffer.new length.new place.new
        result }
{
    let answer = check_dll_into(alloc, bytes, dll, name, buffer);
    tell(&answer, length, place)
}

/// How a library, of any maker, compares with what a text means under these options, encoded as
/// `specs/Check.antt` says: with the library that the program `implib_dlltool` makes of the text, as
/// the program `implib_check` does it. The options are refused first, then bytes that are no
/// archive, and then the text.
#[unsafe(no_mangle)]
pub extern "C" fn implib_check_library_nonnull(
    alloc: Global,
    bytes: &[u8],
    text: &[u8],
    dll: &[u8],
    has_dll: u32,
    machine: u16,
    flavor: u32,
    flags: u32,
    buffer: &mut [u8],
    length: &mut usize,
    place: &mut usize,
) -> u32
    ensures { CheckAnswers bytes.now text.now
        (options_passed machine flavor flags has_dll dll.now)
        buffer.old buffer.new length.new place.new result }
{
    let arguments = passed(machine, flavor, flags, has_dll, dll);
    let answer = check_into(alloc, bytes, text, arguments, buffer);
    tell(&answer, length, place)
}

/// Puts the line and the column of an offset in a text into `line` and `column`, both from 1. A
/// line ends after its line feed, and a column counts bytes.
///
/// A byte order mark has no columns. The end of the text has a position, too, and a greater offset
/// has this position. The text may be of any bytes.
#[unsafe(no_mangle)]
pub extern "C" fn implib_position_nonnull(
    text: &[u8],
    offset: usize,
    line: &mut usize,
    column: &mut usize,
)
    ensures { (line.new, column.new) ≡ line_and_column (text_before text.now offset) }
{
    let position = position_of(text, offset);
    *line = position.line;
    *column = position.column;
}

/// Gives the version of these functions.
#[unsafe(no_mangle)]
pub extern "C" fn implib_version() -> u32
    ensures { result ≡ version }
{
    version()
}

/// Puts the text of a status and a NUL at the beginning of `buffer`, where it has room for both;
/// otherwise the buffer is as it was. Gives the length of the text without the NUL, less than 32. A
/// number that is no status has a text, too.
#[unsafe(no_mangle)]
pub extern "C" fn implib_status_text_nonnull(status: u32, buffer: &mut [u8]) -> usize
    ensures text { buffer.new ≡ with_text buffer.old (text_for status) }
    ensures length { result ≡ length (text_for status) }
    ensures short { result < 32 }
{
    put_status_text(status, buffer)
}
