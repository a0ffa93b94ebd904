//! What is done with the bytes of a DLL.

ghost use Rattle.implib.specs.Definition.{export_view};
ghost use Rattle.implib_dll.specs.Views.{exports_view};
ghost use Rattle.implib_driver.specs.Dll.{IsRefusalOfRequest, IsRequested, ReadsDll, dll_status};
ghost use Rattle.implib_driver.specs.DllProgram.{FinishesBytes, FinishesDll, FinishesExports};
ghost use Rattle.implib_driver.specs.DllProgram.{FinishesKinds, FinishesList, FinishesListed};
ghost use Rattle.implib_driver.specs.DllProgram.{PutsMembers, SaysIf, call_status, complaint_of};
ghost use Rattle.implib_driver.specs.DllProgram.{is_renamed, tells, undecorated_lines};
ghost use Rattle.implib_driver.specs.DllProgram.{undecorated_status};
ghost use Rattle.implib_driver.specs.Reports.{Complains, OfDll, Says, complaint_view};
ghost use Rattle.implib_driver.specs.Request.{request_for, request_view};
ghost use Rattle.implib_libraries.specs.FromDll.Definition.{exports_of};
ghost use Rattle.implib_options.specs.Given.{given_view, has_values};
ghost use Rattle.std.specs.Prelude.{◌≡◌, [], ◌∷◌, IfErr, IfOk, None, Some, map, true};

use crate::disk::Disk;
use crate::dll::{DllCallError, DllRefusal, dll_exports, list_of_dll, members_of_dll};
use crate::machine::LibraryMachine;
use crate::placing::put;
use crate::reporter::{Complaint, Reporter};
use crate::request::{CallError, CallFault, Caller, Request, request_in};
use crate::search::{Unsearched, search};
use crate::stubs::has_failing_stub;
use crate::telling::{complain, conclude, refusal_status};
use implib::def::ShortExport;
use implib_compare::dll_check::loader_name;
use implib_dll::Exports;
use implib_libraries::from_dll::machine_of;
use implib_libraries::of_dll::{NotDecorations, count_missing, decorate, decorations_in};
use implib_options::given::{Given, has};
use implib_options::table::Meaning;
use implib_rules::members::LibraryMembers;
use implib_rules::name::last_part;
use std::alloc::{AllocError, Global};
use std::mem;

// A call for a library: what is asked for, by these options of a caller.
#[derive(Clone, Copy, Debug)]
pub(crate) struct LibraryCall<'a> {
    pub(crate) caller: Caller,
    pub(crate) options: &'a [Given<'a>],
    pub(crate) request: Request<'a>,
}

// Says why a DLL has no library, and gives the exit status.
fn refuse_dll<T: Reporter>(reporter: &mut T, path: &str, refusal: DllRefusal) -> u8
    ensures said { Says (T.said reporter.old) (T.said reporter.new)
        (Complains path.now (OfDll refusal) ∷ []) }
    ensures status { result ≡ dll_status refusal }
{
    let status = refusal.status();
    reporter.complain(path, Complaint::Dll(refusal));
    status
}

// Says why a call asks for no library of a DLL, and gives the exit status.
fn refuse_call<T: Reporter>(reporter: &mut T, path: &str, error: DllCallError<'_>) -> u8
    ensures said { Says (T.said reporter.old) (T.said reporter.new)
        (Complains path.now (complaint_of error.entry) ∷ []) }
    ensures status { result ≡ call_status error.entry }
{
    match error {
        DllCallError::Call(fault) => {
            reporter.complain(path, Complaint::Call(fault));
            2
        }
        DllCallError::Dll(refusal) => refuse_dll(reporter, path, refusal),
    }
}

// What a call asks for of a DLL, by the machine of its file.
fn request_of_dll<'a>(
    alloc: Global,
    exports: &Exports<'_>,
    call: &LibraryCall<'a>,
) -> Result<Request<'a>, DllCallError<'a>>
    ensures asked { IfOk result (λ request. IsRequested
        (request_for call.now.caller (map given_view call.now.options.now))
        (exports_view exports.now) (request_view request)) }
    ensures refused { IfErr result (IsRefusalOfRequest
        (request_for call.now.caller (map given_view call.now.options.now))
        (exports_view exports.now)) }
{
    let Ok(machine) = machine_of(exports) else {
        return Err(DllCallError::Dll(DllRefusal::UnknownMachine(exports.machine)));
    };
    let caller = Caller {
        machine: Some(LibraryMachine::Ordinary(machine)),
        ..call.caller
    };
    match request_in(alloc, call.options, caller) {
        Ok(request) if request.arm64ec.is_some() => { Err(DllCallError::Dll(DllRefusal::Arm64ec)) }
        Ok(request) if request.library.machine == machine => Ok(request),
        Ok(_) => Err(DllCallError::Dll(DllRefusal::OtherMachine)),
        Err(CallError::Refused(fault)) => Err(DllCallError::Call(fault)),
        Err(CallError::OutOfMemory) => Err(DllCallError::Dll(DllRefusal::OutOfMemory)),
    }
}

// Puts the library of a DLL that has these members, and gives the exit status.
fn finish_dll<D: Disk, T: Reporter>(
    alloc: Global,
    members: LibraryMembers,
    disk: &mut D,
    request: &Request<'_>,
    reporter: &mut T,
) -> u8
    requires { (D.view disk.old).left ≡ None }
    ensures { PutsMembers D.is_known members (request_view request.now) (D.view disk.old)
        (D.view disk.new) (T.said reporter.old) (T.said reporter.new) result }
{
    let put = put(alloc, disk, &members, request);
    mem::forget(members);
    conclude(reporter, request, put)
}

// Puts the library of these exports of a DLL, and gives the exit status.
fn answer_list<D: Disk, T: Reporter>(
    alloc: Global,
    exports: &Exports<'_>,
    list: Vec<ShortExport>,
    disk: &mut D,
    request: &Request<'_>,
    reporter: &mut T,
) -> u8
    requires { (D.view disk.old).left ≡ None }
    ensures { FinishesList D.is_known (exports_view exports.now) (map export_view list.items)
        (request_view request.now) (D.view disk.old) (D.view disk.new)
        (T.said reporter.old) (T.said reporter.new) result }
{
    let path = request.definition;
    match members_of_dll(alloc, exports, list, request) {
        Ok(members) if !has_failing_stub(&members, &request.library) => {
            finish_dll(alloc, members, disk, request, reporter)
        }
        Ok(_) => {
            reporter.complain(path, Complaint::FailingStub);
            1
        }
        Err(refusal) => refuse_dll(reporter, path, refusal),
    }
}

// Says a warning with a number, if that is not 0 and warnings are asked for.
fn say_count<T: Reporter>(
    reporter: &mut T,
    path: &str,
    count: usize,
    warning: Complaint<'_>,
    request: &Request<'_>,
)
    ensures { SaysIf (tells (request_view request.now) count) path.now
        (complaint_view warning.entry)
        (T.said reporter.old) (T.said reporter.new) }
{
    if request.is_verbose && count > 0 {
        reporter.complain(path, warning);
    }
}

// Says why a file has no symbols, and gives the exit status.
fn refuse_decorations<T: Reporter>(reporter: &mut T, path: &str, why: NotDecorations) -> u8
    ensures said { Says (T.said reporter.old) (T.said reporter.new)
        (undecorated_lines path.now why) }
    ensures status { result ≡ undecorated_status why }
{
    match why {
        NotDecorations::NoLibrary => {
            reporter.complain(path, Complaint::NoLibrary);
            1
        }
        NotDecorations::Text(refusal) => {
            reporter.refuse(path, &refusal);
            refusal_status(&refusal)
        }
    }
}

// The exports of a DLL, and a file with symbols of its functions.
#[derive(Drop)]
struct Decorating<'a> {
    list: Vec<ShortExport>,
    path: &'a str,
}

// Puts the library of exports of a DLL with the symbols of a file's bytes, and gives the exit
// status.
fn answer_decorated<D: Disk, T: Reporter>(
    alloc: Global,
    exports: &Exports<'_>,
    decorating: Decorating<'_>,
    bytes: &[u8],
    disk: &mut D,
    request: &Request<'_>,
    reporter: &mut T,
) -> u8
    requires { (D.view disk.old).left ≡ None }
    ensures { FinishesBytes D.is_known (exports_view exports.now)
        (map export_view decorating.entry.list.items) bytes.now
        decorating.entry.path.now (request_view request.now) (D.view disk.old) (D.view disk.new)
        (T.said reporter.old) (T.said reporter.new) result }
{
    let Decorating { mut list, path } = decorating;
    let decorations = match decorations_in(alloc, bytes) {
        Ok(decorations) => decorations,
        Err(why) => return refuse_decorations(reporter, path, why),
    };
    let decorations = decorations.as_slice();
    let count = count_missing(decorations, list.as_slice());
    say_count(reporter, path, count, Complaint::Missing(count), request);
    match decorate(
        alloc,
        request.library.naming,
        decorations,
        exports,
        &mut list,
    ) {
        Ok(()) => answer_list(alloc, exports, list, disk, request, reporter),
        Err(_) => refuse_dll(reporter, request.definition, DllRefusal::OutOfMemory),
    }
}

// Puts the library of exports of a DLL with the symbols of a file, and gives the exit status.
fn answer_decorating<D: Disk, T: Reporter>(
    alloc: Global,
    exports: &Exports<'_>,
    decorating: Decorating<'_>,
    disk: &mut D,
    request: &Request<'_>,
    reporter: &mut T,
) -> u8
    requires { (D.view disk.old).left ≡ None }
    ensures { FinishesListed D.is_known (exports_view exports.now)
        (map export_view decorating.entry.list.items) (Some decorating.entry.path.now)
        (request_view request.now)
        (D.view disk.old) (D.view disk.new) (T.said reporter.old) (T.said reporter.new) result }
{
    let path = decorating.path;
    match disk.read(alloc, path) {
        Ok(bytes) => {
            answer_decorated(
                alloc,
                exports,
                decorating,
                bytes.as_slice(),
                disk,
                request,
                reporter,
            )
        }
        Err(error) => {
            reporter.complain(path, Complaint::System(error));
            3
        }
    }
}

// Puts the library of exports of a DLL, with the symbols of a file where one is given, and gives
// the exit status.
fn answer_listed<D: Disk, T: Reporter>(
    alloc: Global,
    exports: &Exports<'_>,
    list: Vec<ShortExport>,
    disk: &mut D,
    request: &Request<'_>,
    reporter: &mut T,
) -> u8
    requires { (D.view disk.old).left ≡ None }
    ensures { FinishesListed D.is_known (exports_view exports.now) (map export_view list.items)
        (request_view request.now).decorations (request_view request.now)
        (D.view disk.old) (D.view disk.new) (T.said reporter.old) (T.said reporter.new) result }
{
    match request.decorations {
        Some(path) => {
            let decorating = Decorating { list, path };
            answer_decorating(alloc, exports, decorating, disk, request, reporter)
        }
        None => answer_list(alloc, exports, list, disk, request, reporter),
    }
}

// Puts the library of exports of a DLL, of which those are data that are forwarded to data, and
// gives the exit status.
fn answer_searching<D: Disk, T: Reporter>(
    alloc: Global,
    bytes: &[u8],
    exports: &Exports<'_>,
    list: Vec<ShortExport>,
    disk: &mut D,
    request: &Request<'_>,
    reporter: &mut T,
) -> u8
    requires room { (D.view disk.old).left ≡ None }
    requires reads { ReadsDll bytes.now (exports_view exports.now) }
    requires listed { map export_view list.items ≡ exports_of (exports_view exports.now) }
    ensures { FinishesKinds true D.is_known (exports_view exports.now) (request_view request.now)
        (D.view disk.old) (D.view disk.new) (T.said reporter.old) (T.said reporter.new) result }
{
    let mut list = list;
    match search(alloc, disk, bytes, exports, &mut list, request) {
        Ok(astray) => {
            let path = request.definition;
            say_count(reporter, path, astray, Complaint::Astray(astray), request);
            answer_listed(alloc, exports, list, disk, request, reporter)
        }
        Err(Unsearched::System(path, error)) => {
            reporter.complain(path.as_str(), Complaint::System(error));
            3
        }
        Err(Unsearched::Taken) => {
            let fault = CallFault::OutputIsSearched;
            complain(reporter, request.definition, Complaint::Call(fault), 2)
        }
        Err(Unsearched::OutOfMemory) => {
            refuse_dll(reporter, request.definition, DllRefusal::OutOfMemory)
        }
    }
}

// Whether the name of a DLL by its export directory is another than its file's.
fn is_renamed(
    alloc: Global,
    exports: &Exports<'_>,
    request: &Request<'_>,
) -> Result<bool, AllocError>
    ensures { IfOk result
        (λ is. is ≡ is_renamed (request_view request.now) (exports_view exports.now)) }
{
    let path = request.definition;
    if request.library.dll.is_some() || path == "-" || exports.dll.is_empty() {
        return Ok(false);
    }
    let file = loader_name(alloc, last_part(path).as_bytes())?;
    let own = loader_name(alloc, exports.dll)?;
    Ok(file.as_slice() != own.as_slice())
}

// Puts the library of exports of a DLL that suits a request, and gives the exit status.
fn answer_kinds<D: Disk, T: Reporter>(
    alloc: Global,
    bytes: &[u8],
    exports: &Exports<'_>,
    list: Vec<ShortExport>,
    disk: &mut D,
    request: &Request<'_>,
    reporter: &mut T,
) -> u8
    requires room { (D.view disk.old).left ≡ None }
    requires reads { ReadsDll bytes.now (exports_view exports.now) }
    requires listed { map export_view list.items ≡ exports_of (exports_view exports.now) }
    ensures { FinishesKinds (has_values (request_view request.now).search) D.is_known
        (exports_view exports.now) (request_view request.now)
        (D.view disk.old) (D.view disk.new) (T.said reporter.old) (T.said reporter.new) result }
{
    if has(request.options, Meaning::Search) {
        return answer_searching(alloc, bytes, exports, list, disk, request, reporter);
    }
    answer_listed(alloc, exports, list, disk, request, reporter)
}

// Puts the library of a DLL, and gives the exit status.
fn answer_exports<D: Disk, T: Reporter>(
    alloc: Global,
    bytes: &[u8],
    exports: &Exports<'_>,
    disk: &mut D,
    request: &Request<'_>,
    reporter: &mut T,
) -> u8
    requires room { (D.view disk.old).left ≡ None }
    requires reads { ReadsDll bytes.now (exports_view exports.now) }
    ensures { FinishesExports D.is_known (exports_view exports.now) (request_view request.now)
        (D.view disk.old) (D.view disk.new) (T.said reporter.old) (T.said reporter.new) result }
{
    let list = match list_of_dll(alloc, exports, request) {
        Ok(list) => list,
        Err(refusal) => return refuse_dll(reporter, request.definition, refusal),
    };
    match is_renamed(alloc, exports, request) {
        Ok(true) => reporter.complain(request.definition, Complaint::Renamed),
        Ok(false) => {}
        Err(_) => return refuse_dll(reporter, request.definition, DllRefusal::OutOfMemory),
    }
    answer_kinds(alloc, bytes, exports, list, disk, request, reporter)
}

// Puts the library of a DLL that is read, and gives the exit status.
pub(crate) fn answer_dll<D: Disk, T: Reporter>(
    alloc: Global,
    bytes: &[u8],
    disk: &mut D,
    call: &LibraryCall<'_>,
    reporter: &mut T,
) -> u8
    requires { (D.view disk.old).left ≡ None }
    ensures { FinishesDll D.is_known
        (request_for call.now.caller (map given_view call.now.options.now)) bytes.now
        (request_view call.now.request).definition (D.view disk.old) (D.view disk.new)
        (T.said reporter.old) (T.said reporter.new) result }
{
    let path = call.request.definition;
    let exports = match dll_exports(alloc, bytes) {
        Ok(exports) => exports,
        Err(refusal) => return refuse_dll(reporter, path, refusal),
    };
    match request_of_dll(alloc, &exports, call) {
        Ok(request) => answer_exports(alloc, bytes, &exports, disk, &request, reporter),
        Err(error) => refuse_call(reporter, path, error),
    }
}
