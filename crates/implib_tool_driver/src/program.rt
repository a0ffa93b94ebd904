//! The program as a process runs it: from its arguments to its exit code.

ghost use Rattle.implib_tool_driver.specs.Arguments.{Performs, WritesHelp, arguments_of};
ghost use Rattle.implib_tool_driver.specs.Arguments.{asks_help, status_unread};
ghost use Rattle.implib_tool_driver.specs.Run.{devices};
ghost use Rattle.std.specs.IoError.{error_kind};
ghost use Rattle.std.specs.Prelude.{◌≡◌, IfErr, IfOk, OnErr, drop, false, map};
ghost use Rattle.std.specs.Process.{exit_status};
ghost use Rattle.std.specs.String.{string_bytes};
ghost use Rattle.std.specs.Vec.Iter.{into_iter_items};

use crate::command::{command, fault, usage};
use crate::device::{Sink, Source, write_all};
use crate::run::RunError;
use std::alloc::{AllocError, Global};
use std::env::Args;
use std::io::{self, ErrorKind};
use std::process::ExitCode;

// What the program prints for `--help`.
const HELP: &str = "\
usage: implib_tool MACHINE FLAVOUR

Reads module definitions from standard input, divided by lines of ---, and lists
the members of their import libraries: names, symbols and bytes.

MACHINE is I386, ARMNT, AMD64 or ARM64; FLAVOUR is msvc or gnu. Without words it
is AMD64 msvc.

Status: 0 listed; 1 refused; 2 wrong call; 3 a stream or memory failed.
";

// The arguments after the first.
fn but_the_first(alloc: Global, command_line: Args) -> Result<Vec<String>, AllocError>
    ensures { IfOk result (λ arguments. arguments.items ≡ drop 1 (into_iter_items command_line)) }
{
    command_line.skip(1).collect(alloc)
}

// Whether the arguments are `--help` alone.
fn asks_help(arguments: &[String]) -> bool
    ensures { result ≡ asks_help (map string_bytes arguments.now) }
{
    match arguments {
        [word] => word.as_str() == "--help",
        _ => false,
    }
}

// Writes the help, and gives the exit status. A writer that fails is reported as it is for the
// listing.
fn help<W: Sink, E: Sink>(writer: &mut W, faults: &mut E) -> u8
    requires { W.failed writer.old ≡ false }
    ensures { WritesHelp (W.contents writer.old) (W.contents writer.new) (W.failed writer.new)
        result }
{
    match write_all(writer, HELP.as_bytes()) {
        Ok(()) => 0,
        Err(_) => fault(faults, &RunError::Write),
    }
}

// Runs the program with the arguments after the first. If memory for them runs out, this is
// reported as it is for the listing.
fn perform_arguments<R: Source, W: Sink, E: Sink>(
    alloc: Global,
    command_line: Args,
    reader: &mut R,
    writer: &mut W,
    faults: &mut E,
) -> u8
    requires reader { R.failed reader.old ≡ false }
    requires writer { W.failed writer.old ≡ false }
    ensures { Performs (arguments_of (into_iter_items command_line))
        (devices (R.remaining reader.old) (R.failed reader.old)
        (W.contents writer.old) (W.failed writer.old) W.keeps)
        (devices (R.remaining reader.new) (R.failed reader.new)
        (W.contents writer.new) (W.failed writer.new) W.keeps)
        result }
{
    let Ok(arguments) = but_the_first(alloc, command_line) else {
        return fault(faults, &RunError::OutOfMemory);
    };
    if asks_help(arguments.as_slice()) {
        return help(writer, faults);
    }
    command(alloc, arguments.as_slice(), reader, writer, faults)
}

/// Runs the program with a command line: the first argument is the program's name, the others are
/// those of [`command`], or `--help` alone, for which help is written. Requires that neither device
/// has failed.
///
/// If memory for the arguments runs out, this is reported as it is for the listing. Arguments that
/// cannot be read are reported as wrong ones are.
pub fn perform<R: Source, W: Sink, E: Sink>(
    alloc: Global,
    command_line: io::Result<Args>,
    reader: &mut R,
    writer: &mut W,
    faults: &mut E,
) -> ExitCode
    requires reader { R.failed reader.old ≡ false }
    requires writer { W.failed writer.old ≡ false }
    ensures arguments { IfOk command_line (λ list. Performs (arguments_of (into_iter_items list))
        (devices (R.remaining reader.old) (R.failed reader.old)
        (W.contents writer.old) (W.failed writer.old) W.keeps)
        (devices (R.remaining reader.new) (R.failed reader.new)
        (W.contents writer.new) (W.failed writer.new) W.keeps)
        (exit_status result)) }
    ensures unread { IfErr command_line
        (λ fault. exit_status result ≡ status_unread (error_kind fault)) }
    ensures untouched { OnErr command_line ((reader.new ≡ reader.old) × (writer.new ≡ writer.old)) }
{
    match command_line {
        Ok(list) => ExitCode::from(perform_arguments(alloc, list, reader, writer, faults)),
        Err(unread) => match unread.kind() {
            ErrorKind::OutOfMemory => ExitCode::from(fault(faults, &RunError::OutOfMemory)),
            _ => ExitCode::from(usage(faults)),
        },
    }
}
