//! The program, over any devices: its arguments, its run, and its exit status.

ghost use Rattle.implib_tool_driver.specs.Arguments.{Answers, status_of, target_named};
ghost use Rattle.implib_tool_driver.specs.Run.{devices};
ghost use Rattle.std.specs.Prelude.{◌≡◌, ◌↔◌, IfSome, IsNone, OnOk, false, map};
ghost use Rattle.std.specs.String.{string_bytes};

use crate::device::{Sink, Source, write_all};
use crate::run::{RunError, run};
use implib::{Flavor, MachineType};
use std::alloc::Global;
use std::fmt;
use std::fmt::Write;

// A sink that text is written to.
#[derive(Drop)]
struct Lines<'a, E> {
    sink: &'a mut E,
}

impl<'a, E: Sink> fmt::Write for Lines<'a, E> {
    fn write_str(&mut self, text: &str) -> fmt::Result {
        write_all(self.sink, text.as_bytes()).map_err(|_| fmt::Error)
    }
}

// The machine and the flavour that the arguments name.
fn target_in(arguments: &[String]) -> Option<(MachineType, Flavor)>
    ensures { result ≡ target_named (map string_bytes arguments.now) }
{
    match arguments {
        [] => Some((MachineType::AMD64, Flavor::Msvc)),
        [machine, flavor] => {
            let machine = machine.as_str().parse().ok()?;
            let flavor = flavor.as_str().parse().ok()?;
            Some((machine, flavor))
        }
        _ => None,
    }
}

// The exit status of a run that ended with an error.
fn status(error: &RunError) -> u8
    ensures { result ≡ status_of (Err error.now) }
{
    match error {
        RunError::Refused(_) | RunError::NotUtf8 => 1,
        RunError::Read | RunError::Write | RunError::OutOfMemory => 3,
    }
}

/// Writes the line of an error, and gives its exit status. A failure of `faults` is ignored.
pub fn fault<E: Sink>(faults: &mut E, error: &RunError) -> u8
    ensures { result ≡ status_of (Err error.now) }
{
    let mut lines = Lines { sink: faults };
    let _ = writeln!(lines, "implib: {error}");
    status(error)
}

/// Writes the usage line, and gives its exit status. A failure of `faults` is ignored.
pub fn usage<E: Sink>(faults: &mut E) -> u8
    ensures { result ≡ 2 }
{
    let mut lines = Lines { sink: faults };
    let _ = writeln!(lines, "usage: implib_tool MACHINE FLAVOUR");
    2
}

/// Runs the program with these arguments: none, or a machine and a flavour. Requires that neither
/// the reader nor the writer has failed.
///
/// An error is reported as a line to `faults`; a failure of `faults` is ignored. The exit status is
/// 0 if the listing is written, 1 if the input is refused, 2 for other arguments, and 3 if a device
/// or an allocation failed.
pub fn command<R: Source, W: Sink, E: Sink>(
    alloc: Global,
    arguments: &[String],
    reader: &mut R,
    writer: &mut W,
    faults: &mut E,
) -> u8
    requires reader { R.failed reader.old ≡ false }
    requires writer { W.failed writer.old ≡ false }
    ensures arguments { (result ≡ 2) ↔ IsNone (target_named (map string_bytes arguments.now)) }
    ensures untouched { IsNone (target_named (map string_bytes arguments.now)) →
        (reader.new ≡ reader.old) × (writer.new ≡ writer.old) }
    ensures run { IfSome (target_named (map string_bytes arguments.now))
        (λ wanted. Answers wanted.0 wanted.1
        (devices (R.remaining reader.old) (R.failed reader.old)
        (W.contents writer.old) (W.failed writer.old) W.keeps)
        (devices (R.remaining reader.new) (R.failed reader.new)
        (W.contents writer.new) (W.failed writer.new) W.keeps)
        result) }
{
    let Some((machine, flavor)) = target_in(arguments) else {
        return usage(faults);
    };
    match run(alloc, reader, writer, machine, flavor) {
        Ok(()) => 0,
        Err(error) => fault(faults, &error),
    }
}
