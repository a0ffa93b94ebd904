//! The program: its arguments, its run over files, and its exit status.

ghost use Rattle.implib_driver.specs.Dll.{begins_dll};
ghost use Rattle.implib_driver.specs.Identity.{identified};
ghost use Rattle.implib_driver.specs.Program.{DoesWords, FinishesFor, FinishesRead, Identifies};
ghost use Rattle.implib_driver.specs.Program.{IsUncalled, Makes, MakesApart, NamesDlls};
ghost use Rattle.implib_driver.specs.Program.{OnlyComplains, Prints};
ghost use Rattle.implib_driver.specs.Program.{Performs, Runs, devices, help_text, misuse};
ghost use Rattle.implib_driver.specs.Reports.{OfMemory};
ghost use Rattle.implib_driver.specs.Request.{call_fault_view, request_for, request_view};
ghost use Rattle.implib_options.specs.Given.{given_view};
ghost use Rattle.std.specs.IoError.{error_kind};
ghost use Rattle.std.specs.Option.{option_map};
ghost use Rattle.std.specs.Prelude.{◌≡◌, ◌⊎◌, IfErr, IfOk, List, None, Option, map, ℕ};
ghost use Rattle.std.specs.String.{string_bytes};
ghost use Rattle.std.specs.Vec.Iter.{into_iter_items};

use crate::apart::misplaced;
use crate::arm64ec::answer_arm64ec;
use crate::definition_program::{answer_text, bytes_of};
use crate::disk::Disk;
use crate::dll::begins_dll;
use crate::dll_program::{LibraryCall, answer_dll};
use crate::help::{NAME, VERSION, help_text, subject_of};
use crate::identity::{IdentifyError, identify};
use crate::lib_words::words_read;
use crate::reporter::{Complaint, Reporter};
use crate::request::{CallError, CallFault, Identification, Request, Task, caller_of, task_of};
use crate::telling::{complain, complain_uncalled, print, print_bytes};
use implib_options::given::has;
use implib_options::table::Meaning;
use implib_options::words::ReadError;
use std::alloc::{AllocError, Global};
use std::env::Args;
use std::io;
use std::io::{ErrorKind, Read, Write};

// What is wrong with a request for a definition.
fn misuse(request: &Request<'_>) -> Option<CallFault<'static>>
    ensures { option_map call_fault_view result ≡ misuse (request_view request.now) }
{
    if request.decorations.is_some() {
        return Some(CallFault::DecoratedDefinition);
    }
    if has(request.options, Meaning::Search) {
        return Some(CallFault::SearchedDefinition);
    }
    None
}

// Puts the library of a definition that is read, for ARM64EC or another machine, and gives the exit
// status.
fn answer_for<D: Disk, I: Read, T: Reporter>(
    alloc: Global,
    bytes: &[u8],
    disk: &mut D,
    request: &Request<'_>,
    input: &mut I,
    reporter: &mut T,
) -> u8
    requires { (D.view disk.old).left ≡ None }
    ensures { FinishesFor D.is_known (I.remaining input.old) bytes.now
        (request_view request.now).arm64ec (request_view request.now) (D.view disk.old)
        (D.view disk.new) (T.said reporter.old) (T.said reporter.new) result }
{
    match request.arm64ec {
        None => answer_text(alloc, bytes, disk, request, reporter),
        Some(wish) => answer_arm64ec(alloc, bytes, wish.native, disk, request, input, reporter),
    }
}

// Puts the library of a file that is read, a DLL or a definition, and gives the exit status.
fn answer<D: Disk, I: Read, T: Reporter>(
    alloc: Global,
    bytes: &[u8],
    disk: &mut D,
    call: &LibraryCall<'_>,
    input: &mut I,
    reporter: &mut T,
) -> u8
    requires { (D.view disk.old).left ≡ None }
    ensures { FinishesRead D.is_known
        (request_for call.now.caller (map given_view call.now.options.now))
        (begins_dll bytes.now)
        (I.remaining input.old) bytes.now (request_view call.now.request) (D.view disk.old)
        (D.view disk.new) (T.said reporter.old) (T.said reporter.new) result }
{
    if begins_dll(bytes) {
        return answer_dll(alloc, bytes, disk, call, reporter);
    }
    let path = call.request.definition;
    match misuse(&call.request) {
        Some(fault) => complain(reporter, path, Complaint::Call(fault), 2),
        None => answer_for(alloc, bytes, disk, &call.request, input, reporter),
    }
}

// Makes a library, and gives the exit status.
fn make<D: Disk, I: Read, T: Reporter>(
    alloc: Global,
    disk: &mut D,
    call: &LibraryCall<'_>,
    input: &mut I,
    reporter: &mut T,
) -> u8
    requires { (D.view disk.old).left ≡ None }
    ensures { Makes D.is_known
        (request_for call.now.caller (map given_view call.now.options.now))
        (request_view call.now.request)
        (devices (I.remaining input.old) (D.view disk.old) (T.said reporter.old))
        (devices (I.remaining input.new) (D.view disk.new) (T.said reporter.new)) result }
{
    match bytes_of(alloc, disk, input, call.request.definition) {
        Ok(bytes) => answer(alloc, bytes.as_slice(), disk, call, input, reporter),
        Err(error) => {
            reporter.complain(call.request.definition, Complaint::System(error));
            3
        }
    }
}

// Makes a library, unless it would take the place of a file that is read or of the other library,
// and gives the exit status.
fn make_apart<D: Disk, I: Read, T: Reporter>(
    alloc: Global,
    name: &str,
    disk: &mut D,
    call: &LibraryCall<'_>,
    input: &mut I,
    reporter: &mut T,
) -> u8
    requires { (D.view disk.old).left ≡ None }
    ensures { (printed : Option (List ℕ)) → MakesApart D.is_known name.now
        (request_for call.now.caller (map given_view call.now.options.now))
        (request_view call.now.request)
        (devices (I.remaining input.old) (D.view disk.old) (T.said reporter.old))
        (devices (I.remaining input.new) (D.view disk.new) (T.said reporter.new))
        printed printed result }
{
    match misplaced(alloc, disk, &call.request) {
        Ok(None) => make(alloc, disk, call, input, reporter),
        Ok(Some(fault)) => complain(reporter, name, Complaint::Call(fault), 2),
        Err(error) => {
            reporter.complain(name, Complaint::System(error));
            3
        }
    }
}

// Names the DLLs in a library's bytes, and gives the exit status.
fn name_dlls<O: Write, T: Reporter>(
    alloc: Global,
    name: &str,
    bytes: &[u8],
    wish: Identification<'_>,
    printer: &mut O,
    reporter: &mut T,
) -> u8
    ensures { NamesDlls name.now wish.entry.library.now (identified wish.entry.wanted bytes.now)
        (T.said reporter.old) (T.said reporter.new) (O.contents printer.old)
        (O.contents printer.new) result
        ⊎ OnlyComplains name.now OfMemory 3 (T.said reporter.old) (T.said reporter.new)
        (O.contents printer.old) (O.contents printer.new) result }
{
    match identify(alloc, bytes, wish.wanted) {
        Ok(lines) => print_bytes(printer, reporter, name, lines.as_slice()),
        Err(IdentifyError::Refused(fault)) => {
            reporter.complain(wish.library, Complaint::Identity(fault));
            1
        }
        Err(IdentifyError::OutOfMemory) => complain(reporter, name, Complaint::OutOfMemory, 3),
    }
}

// Names the DLLs of a library, and gives the exit status.
fn identify_library<D: Disk, O: Write, T: Reporter>(
    alloc: Global,
    name: &str,
    disk: &mut D,
    wish: Identification<'_>,
    printer: &mut O,
    reporter: &mut T,
) -> u8
    ensures { (input : Option (List ℕ)) → Identifies name.now wish.entry.library.now
        wish.entry.wanted
        (devices input (D.view disk.old) (T.said reporter.old))
        (devices input (D.view disk.new) (T.said reporter.new))
        (O.contents printer.old) (O.contents printer.new) result }
{
    match disk.read(alloc, wish.library) {
        Ok(bytes) => name_dlls(alloc, name, bytes.as_slice(), wish, printer, reporter),
        Err(error) => {
            reporter.complain(wish.library, Complaint::System(error));
            3
        }
    }
}

// Prints the help, and gives the exit status.
fn print_help<O: Write, T: Reporter>(
    alloc: Global,
    printer: &mut O,
    reporter: &mut T,
    name: &str,
) -> u8
    ensures { Prints name.now help_text (T.said reporter.old) (T.said reporter.new)
        (O.contents printer.old) (O.contents printer.new) result
        ⊎ OnlyComplains name.now OfMemory 3 (T.said reporter.old) (T.said reporter.new)
        (O.contents printer.old) (O.contents printer.new) result }
{
    match help_text(alloc) {
        Ok(text) => print(printer, reporter, name, text.as_str()),
        Err(_) => complain(reporter, name, Complaint::OutOfMemory, 3),
    }
}

// How the program is called: by this name, with these words after it.
#[derive(Clone, Copy, Debug)]
struct Call<'a> {
    program: &'a str,
    words: &'a [String],
}

// Does what a call asks for, and gives the exit status.
fn perform_call<D: Disk, I: Read, O: Write, T: Reporter>(
    alloc: Global,
    call: Call<'_>,
    disk: &mut D,
    input: &mut I,
    printer: &mut O,
    reporter: &mut T,
) -> u8
    requires { (D.view disk.old).left ≡ None }
    ensures { DoesWords D.is_known call.entry.program.now
        (map string_bytes call.entry.words.now)
        (devices (I.remaining input.old) (D.view disk.old) (T.said reporter.old))
        (devices (I.remaining input.new) (D.view disk.new) (T.said reporter.new))
        (O.contents printer.old) (O.contents printer.new) result }
{
    let name = subject_of(call.program);
    let options = match words_read(alloc, call.program, call.words) {
        Ok(options) => options,
        Err(ReadError::Refused(fault)) => {
            return complain(reporter, name, Complaint::Word(fault), 2);
        }
        Err(ReadError::OutOfMemory) => {
            return complain(reporter, name, Complaint::OutOfMemory, 3);
        }
    };
    let caller = caller_of(call.program);
    match task_of(alloc, options.as_slice(), caller) {
        Ok(Task::Help) => print_help(alloc, printer, reporter, name),
        Ok(Task::Version) => print(printer, reporter, name, VERSION),
        Ok(Task::Identify(wish)) => identify_library(alloc, name, disk, wish, printer, reporter),
        Ok(Task::Make(request)) => {
            let library = LibraryCall {
                caller,
                options: options.as_slice(),
                request,
            };
            make_apart(alloc, name, disk, &library, input, reporter)
        }
        Err(CallError::Refused(fault)) => complain(reporter, name, Complaint::Call(fault), 2),
        Err(CallError::OutOfMemory) => complain(reporter, name, Complaint::OutOfMemory, 3),
    }
}

/// Does what a command line asks for, and gives the exit status: 0 where that is done, 1 where the
/// definition is refused, 2 where the call is, and 3 where a file or an allocation failed. The
/// first argument is the name that the program is called by.
pub fn run<D: Disk, I: Read, O: Write, T: Reporter>(
    alloc: Global,
    arguments: &[String],
    disk: &mut D,
    input: &mut I,
    printer: &mut O,
    reporter: &mut T,
) -> u8
    requires { (D.view disk.old).left ≡ None }
    ensures { Runs D.is_known (map string_bytes arguments.now)
        (devices (I.remaining input.old) (D.view disk.old) (T.said reporter.old))
        (devices (I.remaining input.new) (D.view disk.new) (T.said reporter.new))
        (O.contents printer.old) (O.contents printer.new) result }
{
    match arguments {
        [] => {
            let call = Call {
                program: NAME,
                words: arguments,
            };
            perform_call(alloc, call, disk, input, printer, reporter)
        }
        [program, words @ ..] => {
            let call = Call {
                program: program.as_str(),
                words,
            };
            perform_call(alloc, call, disk, input, printer, reporter)
        }
    }
}

// The arguments of a command line.
fn arguments_in(alloc: Global, list: Args) -> Result<Vec<String>, AllocError>
    ensures { IfOk result (λ arguments. arguments.items ≡ into_iter_items list) }
{
    list.collect(alloc)
}

// Runs the program with the arguments of a command line.
fn perform_list<D: Disk, I: Read, O: Write, T: Reporter>(
    alloc: Global,
    list: Args,
    disk: &mut D,
    input: &mut I,
    printer: &mut O,
    reporter: &mut T,
) -> u8
    requires { (D.view disk.old).left ≡ None }
    ensures { Performs D.is_known (map string_bytes (into_iter_items list))
        (devices (I.remaining input.old) (D.view disk.old) (T.said reporter.old))
        (devices (I.remaining input.new) (D.view disk.new) (T.said reporter.new))
        (O.contents printer.old) (O.contents printer.new) result }
{
    match arguments_in(alloc, list) {
        Ok(arguments) => {
            let arguments = arguments.as_slice();
            run(alloc, arguments, disk, input, printer, reporter)
        }
        Err(_) => complain_uncalled(reporter, Complaint::OutOfMemory, 3),
    }
}

/// What a process was called with.
#[derive(Drop)]
pub struct CommandLine<'a> {
    /// The arguments; one that is not UTF-8 is an error, `InvalidData`.
    pub arguments: io::Result<Args>,
    /// That argument, as far as it can be shown.
    pub unread: &'a str,
}

/// Runs the program with a command line, as [`run`] does. An argument that is not UTF-8 is a wrong
/// call, and told; others that cannot be read are a failure.
pub fn perform<D: Disk, I: Read, O: Write, T: Reporter>(
    alloc: Global,
    command_line: CommandLine<'_>,
    disk: &mut D,
    input: &mut I,
    printer: &mut O,
    reporter: &mut T,
) -> u8
    requires { (D.view disk.old).left ≡ None }
    ensures runs { IfOk command_line.entry.arguments
        (λ list. Performs D.is_known (map string_bytes (into_iter_items list))
        (devices (I.remaining input.old) (D.view disk.old) (T.said reporter.old))
        (devices (I.remaining input.new) (D.view disk.new) (T.said reporter.new))
        (O.contents printer.old) (O.contents printer.new) result) }
    ensures unread { IfErr command_line.entry.arguments (λ cause.
        IsUncalled (error_kind cause) command_line.entry.unread.now
        (devices (I.remaining input.old) (D.view disk.old) (T.said reporter.old))
        (devices (I.remaining input.new) (D.view disk.new) (T.said reporter.new))
        (O.contents printer.old) (O.contents printer.new) result) }
{
    let CommandLine { arguments, unread } = command_line;
    match arguments {
        Ok(list) => perform_list(alloc, list, disk, input, printer, reporter),
        Err(error) => match error.kind() {
            ErrorKind::InvalidData => complain_uncalled(reporter, Complaint::NotUtf8(unread), 2),
            _ => complain_uncalled(reporter, Complaint::System(error), 3),
        },
    }
}
