//! Whether a library would take the place of a file that its call reads, or of the call's other
//! library. Files are told apart by what they are on the disk, since many paths may lead to one.

ghost use Rattle.implib_driver.specs.Apart.{AreApart, AreOne, AreTwo, IsMisplaced, LeavesInput};
ghost use Rattle.implib_driver.specs.Apart.{LeavesInputs, TakesInput, TakesOne, native_of};
ghost use Rattle.implib_driver.specs.Disk.{failing};
ghost use Rattle.implib_driver.specs.Request.{call_fault_view, request_view};
ghost use Rattle.std.specs.Option.{option_map};
ghost use Rattle.std.specs.Prelude.{◌≡◌, IfNone, IfOk, IfSome, OnErr, OnOk, false, true};

use crate::disk::Disk;
use crate::request::{CallFault, Request};
use std::alloc::Global;
use std::io;

// Whether a library's file is one that is read; `-` is standard input.
fn takes_input<D: Disk>(
    alloc: Global,
    disk: &mut D,
    output: &str,
    input: Option<&str>,
) -> io::Result<bool>
    ensures leaves { IfOk result (λ takes. takes ≡ false → LeavesInput (D.view disk.old)
        output.now (option_map (λ text. text.now) input.entry)) }
    ensures takes { IfOk result (λ takes. takes ≡ true → TakesInput (D.view disk.old)
        output.now (option_map (λ text. text.now) input.entry)) }
    ensures same { OnOk result (D.view disk.new ≡ D.view disk.old) }
    ensures failed { OnErr result (D.view disk.new ≡ failing (D.view disk.old)) }
{
    match input {
        None | Some("-") => Ok(false),
        Some(path) => disk.is_same(alloc, output, path),
    }
}

// The file of the native definition, if one is read.
fn native_of<'a>(request: &Request<'a>) -> Option<&'a str>
    ensures { option_map (λ text. text.now) result ≡ native_of (request_view request.now) }
{
    match request.arm64ec {
        Some(wish) => wish.native,
        None => None,
    }
}

// Of which file that is read a library would take the place.
fn input_taken<D: Disk>(
    alloc: Global,
    disk: &mut D,
    output: Option<&str>,
    request: &Request<'_>,
) -> io::Result<Option<CallFault<'static>>>
    ensures leaves { IfOk result (λ fault. IfNone fault (IfSome
        (option_map (λ text. text.now) output.entry)
        (LeavesInputs (D.view disk.old) (request_view request.now)))) }
    ensures takes { IfOk result (λ fault. IfSome fault (λ why. TakesOne (D.view disk.old)
        (request_view request.now) (option_map (λ text. text.now) output.entry)
        (call_fault_view why))) }
    ensures same { OnOk result (D.view disk.new ≡ D.view disk.old) }
    ensures failed { OnErr result (D.view disk.new ≡ failing (D.view disk.old)) }
{
    let Some(output) = output else {
        return Ok(None);
    };
    if takes_input(alloc, disk, output, Some(request.definition))? {
        return Ok(Some(CallFault::OutputIsDefinition));
    }
    if takes_input(alloc, disk, output, native_of(request))? {
        return Ok(Some(CallFault::OutputIsNative));
    }
    if takes_input(alloc, disk, output, request.decorations)? {
        return Ok(Some(CallFault::OutputIsDecorations));
    }
    Ok(None)
}

// Whether two libraries would be in one place.
fn are_one<D: Disk>(
    alloc: Global,
    disk: &mut D,
    one: Option<&str>,
    other: Option<&str>,
) -> io::Result<bool>
    ensures two { IfOk result (λ are. are ≡ false → AreTwo (D.view disk.old)
        (option_map (λ text. text.now) one.entry) (option_map (λ text. text.now) other.entry)) }
    ensures one { IfOk result (λ are. are ≡ true → AreOne (D.view disk.old)
        (option_map (λ text. text.now) one.entry) (option_map (λ text. text.now) other.entry)) }
    ensures same { OnOk result (D.view disk.new ≡ D.view disk.old) }
    ensures failed { OnErr result (D.view disk.new ≡ failing (D.view disk.old)) }
{
    let Some(one) = one else {
        return Ok(false);
    };
    match other {
        Some(other) => disk.is_same(alloc, one, other),
        None => Ok(false),
    }
}

/// What is wrong with the places of libraries that are asked for: one would take that of a file
/// that is read, or both are one.
///
/// # Errors
///
/// The disk cannot tell.
pub fn misplaced<D: Disk>(
    alloc: Global,
    disk: &mut D,
    request: &Request<'_>,
) -> io::Result<Option<CallFault<'static>>>
    ensures apart { IfOk result (λ fault. IfNone fault
        (AreApart (D.view disk.old) (request_view request.now))) }
    ensures misplaced { IfOk result (λ fault. IfSome fault (λ why.
        IsMisplaced (D.view disk.old) (request_view request.now) (call_fault_view why))) }
    ensures same { OnOk result (D.view disk.new ≡ D.view disk.old) }
    ensures failed { OnErr result (D.view disk.new ≡ failing (D.view disk.old)) }
{
    if let Some(fault) = input_taken(alloc, disk, request.output, request)? {
        return Ok(Some(fault));
    }
    if let Some(fault) = input_taken(alloc, disk, request.delayed, request)? {
        return Ok(Some(fault));
    }
    if are_one(alloc, disk, request.output, request.delayed)? {
        return Ok(Some(CallFault::OneOutput));
    }
    Ok(None)
}
