//! What is done with the bytes of a definition.

ghost use Rattle.implib_archive.specs.Archive.{archive_of};
ghost use Rattle.implib_driver.specs.Program.{Finishes, FinishesDelayed, FinishesDelaying};
ghost use Rattle.implib_driver.specs.Program.{FinishesFailing, FinishesText, FinishesWith};
ghost use Rattle.implib_driver.specs.Program.{FinishesWithout, KeepsFiles, begins_utf16};
ghost use Rattle.implib_driver.specs.Program.{SaysLeftOut, definition_in, delay_lines};
ghost use Rattle.implib_driver.specs.Program.{delay_status};
ghost use Rattle.implib_driver.specs.Program.{members_counted};
ghost use Rattle.implib_driver.specs.Reports.{Says};
ghost use Rattle.implib_driver.specs.Request.{request_view};
ghost use Rattle.std.specs.Prelude.{◌≡◌, IfOk, IfSome, None, OnErr, OnOk, codes, false, map};
ghost use Rattle.std.specs.Str.{bytes_eq};
ghost use Rattle.std.specs.String.{string_bytes};

use crate::disk::Disk;
use crate::placing::{place, put};
use crate::reporter::{Complaint, Reporter};
use crate::request::Request;
use crate::stubs::has_failing_stub;
use crate::telling::{conclude, give_up, refusal_status};
use crate::warned::{Counted, is_bare, warn};
use implib::Flavor;
use implib_archive::Archive;
use implib_delay::DelayedMembers;
use implib_libraries::delayed::{DelayRefusal, delayed_archive, delayed_members_for};
use implib_rules::library::{LibraryError, Refusal, members_asked};
use implib_rules::members::LibraryMembers;
use std::alloc::Global;
use std::io::Read;
use std::{io, mem};

// The bytes of a definition.
pub(crate) fn bytes_of<D: Disk, I: Read>(
    alloc: Global,
    disk: &mut D,
    input: &mut I,
    path: &str,
) -> io::Result<Vec<u8>>
    ensures bytes { IfOk result (λ bytes.
        IfSome (definition_in (I.remaining input.old) (D.view disk.old) path.now)
        (λ file. bytes.items ≡ file)) }
    ensures same { OnOk result (D.view disk.new ≡ D.view disk.old) }
    ensures failed { OnErr result (KeepsFiles (D.view disk.old) (D.view disk.new)) }
    ensures unread { bytes_eq path.now (codes "-") ≡ false
        → I.remaining input.new ≡ I.remaining input.old }
{
    if path != "-" {
        return disk.read(alloc, path);
    }
    let mut bytes = Vec::new(alloc);
    input.read_to_end(&mut bytes)?;
    Ok(bytes)
}

// How many of its members the warnings of a library are of: for GNU's linker none needs it.
fn members_counted(flavor: Flavor, members: usize) -> usize
    ensures { result ≡ members_counted flavor members }
{
    match flavor {
        Flavor::Msvc => members,
        Flavor::Gnu => 0,
    }
}

// Warns of a definition that has these members, and puts its library; gives the exit status.
fn finish<D: Disk, T: Reporter>(
    alloc: Global,
    bytes: &[u8],
    members: LibraryMembers,
    disk: &mut D,
    request: &Request<'_>,
    reporter: &mut T,
) -> u8
    requires { (D.view disk.old).left ≡ None }
    ensures { FinishesWith D.is_known bytes.now members
        (request_view request.now) (D.view disk.old) (D.view disk.new)
        (T.said reporter.old) (T.said reporter.new) result }
{
    let counted = Counted {
        bytes,
        members: members_counted(request.library.flavor, members.len()),
        is_bare: is_bare(members.len()),
    };
    match warn(alloc, counted, request, reporter) {
        Ok(()) => {
            let put = put(alloc, disk, &members, request);
            // The program ends now. Freeing each symbol would take its time.
            mem::forget(members);
            conclude(reporter, request, put)
        }
        Err(_) => give_up(reporter, request),
    }
}

// Warns of a definition whose members have a stub that cannot run, and says that; gives the exit
// status.
fn refuse_stub<T: Reporter>(
    alloc: Global,
    bytes: &[u8],
    members: &LibraryMembers,
    request: &Request<'_>,
    reporter: &mut T,
) -> u8
    ensures { FinishesFailing bytes.now members.now (request_view request.now)
        (T.said reporter.old) (T.said reporter.new) result }
{
    // No warning of GNU's flavour counts members.
    let counted = Counted {
        bytes,
        members: 0,
        is_bare: false,
    };
    match warn(alloc, counted, request, reporter) {
        Ok(()) => {
            reporter.complain(request.definition, Complaint::FailingStub);
            1
        }
        Err(_) => give_up(reporter, request),
    }
}

// Warns of a definition that has no members for this, and says it; gives the exit status.
fn refuse<T: Reporter>(
    alloc: Global,
    bytes: &[u8],
    refusal: Refusal,
    request: &Request<'_>,
    reporter: &mut T,
) -> u8
    ensures { FinishesWithout bytes.now refusal (request_view request.now)
        (T.said reporter.old) (T.said reporter.new) result }
{
    if let Refusal::OutOfMemory = refusal {
        return give_up(reporter, request);
    }
    let counted = Counted {
        bytes,
        members: 0,
        is_bare: false,
    };
    match warn(alloc, counted, request, reporter) {
        Ok(()) => conclude(reporter, request, Err(LibraryError::Refused(refusal))),
        Err(_) => give_up(reporter, request),
    }
}

// A library of delayed imports, and the path that it is for.
#[derive(Drop)]
struct Delayed<'a> {
    path: &'a str,
    archive: Archive<'a, &'a DelayedMembers>,
}

// Whether bytes begin as a text in UTF-16.
pub(crate) fn begins_utf16(bytes: &[u8]) -> bool
    ensures { result ≡ begins_utf16 bytes.now }
{
    bytes.starts_with(&[0xFF, 0xFE]) || bytes.starts_with(&[0xFE, 0xFF])
}

// Warns of a definition that is read, and puts its library; gives the exit status.
fn answer_definition<D: Disk, T: Reporter>(
    alloc: Global,
    bytes: &[u8],
    disk: &mut D,
    request: &Request<'_>,
    reporter: &mut T,
) -> u8
    requires { (D.view disk.old).left ≡ None }
    ensures { Finishes D.is_known bytes.now (request_view request.now)
        (D.view disk.old) (D.view disk.new) (T.said reporter.old) (T.said reporter.new) result }
{
    if begins_utf16(bytes) {
        reporter.complain(request.definition, Complaint::Utf16);
        return 1;
    }
    match members_asked(alloc, bytes, &request.library, request.older_symbols) {
        Ok(members) if has_failing_stub(&members, &request.library) => {
            refuse_stub(alloc, bytes, &members, request, reporter)
        }
        Ok(members) => finish(alloc, bytes, members, disk, request, reporter),
        Err(refusal) => refuse(alloc, bytes, refusal, request, reporter),
    }
}

// Says why a definition has no library of delayed imports, and gives the exit status.
fn refuse_delay<T: Reporter>(reporter: &mut T, path: &str, refusal: DelayRefusal) -> u8
    ensures said { Says (T.said reporter.old) (T.said reporter.new)
        (delay_lines path.now refusal) }
    ensures status { result ≡ delay_status refusal }
{
    match refusal {
        DelayRefusal::Refused(refusal) => {
            reporter.refuse(path, &refusal);
            refusal_status(&refusal)
        }
        DelayRefusal::Undelayed(why) => {
            reporter.complain(path, Complaint::Undelayed(why));
            1
        }
    }
}

// Puts the library of a definition, if one is asked for, and then this one of delayed imports;
// gives the exit status.
fn finish_delayed<D: Disk, T: Reporter>(
    alloc: Global,
    bytes: &[u8],
    disk: &mut D,
    delayed: &Delayed<'_>,
    request: &Request<'_>,
    reporter: &mut T,
) -> u8
    requires { (D.view disk.old).left ≡ None }
    ensures { FinishesDelayed D.is_known bytes.now delayed.now.path.now
        (archive_of delayed.now.archive.kind delayed.now.archive.members) (request_view request.now)
        (D.view disk.old) (D.view disk.new) (T.said reporter.old) (T.said reporter.new) result }
{
    let status = answer_definition(alloc, bytes, disk, request, reporter);
    if status != 0 {
        return status;
    }
    match place(alloc, disk, delayed.path, &delayed.archive) {
        Ok(()) => 0,
        Err(cause) => {
            reporter.complain(delayed.path, Complaint::Writing(cause));
            3
        }
    }
}

// Says how many exports a library of delayed imports leaves out, and the first, if it does any.
fn say_left_out<T: Reporter>(reporter: &mut T, path: &str, symbols: &[String])
    ensures { SaysLeftOut (map string_bytes symbols.now) path.now
        (T.said reporter.old) (T.said reporter.new) }
{
    if let Some(first) = symbols.first() {
        reporter.complain(path, Complaint::LeftOut(symbols.len(), first.as_str()));
    }
}

// Puts the libraries of a definition that is read, of which that of delayed imports is for this
// path, and gives the exit status. Nothing is put unless both can be made.
fn answer_delaying<D: Disk, T: Reporter>(
    alloc: Global,
    bytes: &[u8],
    disk: &mut D,
    path: &str,
    request: &Request<'_>,
    reporter: &mut T,
) -> u8
    requires { (D.view disk.old).left ≡ None }
    ensures { FinishesDelaying D.is_known bytes.now path.now (request_view request.now)
        (D.view disk.old) (D.view disk.new) (T.said reporter.old) (T.said reporter.new) result }
{
    if begins_utf16(bytes) {
        reporter.complain(request.definition, Complaint::Utf16);
        return 1;
    }
    let made = match delayed_members_for(alloc, bytes, &request.library) {
        Ok(made) => made,
        Err(refusal) => return refuse_delay(reporter, request.definition, refusal),
    };
    match delayed_archive(alloc, &made.members) {
        Ok(archive) => {
            say_left_out(reporter, request.definition, made.left_out.as_slice());
            let delayed = Delayed { path, archive };
            finish_delayed(alloc, bytes, disk, &delayed, request, reporter)
        }
        Err(refusal) => {
            refuse_delay(reporter, request.definition, DelayRefusal::Refused(refusal))
        }
    }
}

// Puts the libraries of a definition that is read, and gives the exit status.
pub(crate) fn answer_text<D: Disk, T: Reporter>(
    alloc: Global,
    bytes: &[u8],
    disk: &mut D,
    request: &Request<'_>,
    reporter: &mut T,
) -> u8
    requires { (D.view disk.old).left ≡ None }
    ensures { FinishesText D.is_known bytes.now (request_view request.now).delayed
        (request_view request.now) (D.view disk.old) (D.view disk.new)
        (T.said reporter.old) (T.said reporter.new) result }
{
    match request.delayed {
        None => answer_definition(alloc, bytes, disk, request, reporter),
        Some(path) => answer_delaying(alloc, bytes, disk, path, request, reporter),
    }
}
