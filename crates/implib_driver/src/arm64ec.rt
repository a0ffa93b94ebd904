//! Libraries for ARM64EC, of a definition and a native one.

ghost use Rattle.implib.specs.Library.{member_view};
ghost use Rattle.implib_driver.specs.Arm64ecProgram.{FinishesArm64ec, FinishesLibrary};
ghost use Rattle.implib_driver.specs.Arm64ecProgram.{FinishesMembers, FinishesRefused};
ghost use Rattle.implib_driver.specs.Arm64ecProgram.{FinishesTexts};
ghost use Rattle.implib_driver.specs.Arm64ecProgram.{arm64ec_lines, arm64ec_status, native_path};
ghost use Rattle.implib_driver.specs.Arm64ecProgram.{has_headers_alone, native_told, utf16_file};
ghost use Rattle.implib_driver.specs.Disk.{DiskView};
ghost use Rattle.implib_driver.specs.Reports.{Says};
ghost use Rattle.implib_driver.specs.Request.{request_view};
ghost use Rattle.std.specs.Option.{option_map};
ghost use Rattle.std.specs.Prelude.{◌≡◌, [], IfNone, IfSome, None, Some, map, unwrap_or};

use crate::definition_program::{begins_utf16, bytes_of};
use crate::disk::Disk;
use crate::placing::place_if;
use crate::reporter::{Complaint, Reporter};
use crate::request::Request;
use crate::telling::{give_up, refusal_status};
use crate::warned::{Counted, warn};
use implib_libraries::arm64ec::{
    Arm64ecLibrary, Arm64ecRefusal, arm64ec_archive, arm64ec_library_for,
};
use implib_rules::library::Refusal;
use implib_rules::position_of;
use std::alloc::Global;
use std::io::Read;

// The file of the native definition, or the definition's where there is none.
fn native_path<'a>(request: &Request<'a>) -> &'a str
    ensures { result.now ≡ native_path (request_view request.now) }
{
    match request.arm64ec {
        Some(wish) => wish.native.unwrap_or(request.definition),
        None => request.definition,
    }
}

// The file that a refusal of the native members is told of: one without a place is of the DLL's
// name, which is the definition's.
fn native_told<'a>(definition: &'a str, native: &'a str, refusal: &Refusal) -> &'a str
    ensures { result.now ≡ native_told definition.now native.now refusal.now }
{
    match position_of(refusal) {
        Some(_) => native,
        None => definition,
    }
}

// Says why definitions have no library, and gives the exit status.
fn refuse_arm64ec<T: Reporter>(
    reporter: &mut T,
    request: &Request<'_>,
    refusal: Arm64ecRefusal,
) -> u8
    ensures said { Says (T.said reporter.old) (T.said reporter.new)
        (arm64ec_lines (request_view request.now).definition
        (native_path (request_view request.now))
        refusal) }
    ensures status { result ≡ arm64ec_status refusal }
{
    let definition = request.definition;
    match refusal {
        Arm64ecRefusal::OfDefinition(why) => {
            reporter.refuse(definition, &why);
            refusal_status(&why)
        }
        Arm64ecRefusal::OfImports(why) => {
            reporter.complain(definition, Complaint::Unimported(why));
            1
        }
        Arm64ecRefusal::OfNative(why) => {
            reporter.refuse(native_told(definition, native_path(request), &why), &why);
            refusal_status(&why)
        }
        Arm64ecRefusal::OutOfMemory => give_up(reporter, request),
    }
}

// Puts a library, and gives the exit status.
fn finish_arm64ec<D: Disk, T: Reporter>(
    alloc: Global,
    library: &Arm64ecLibrary,
    disk: &mut D,
    request: &Request<'_>,
    reporter: &mut T,
) -> u8
    requires { (D.view disk.old).left ≡ None }
    ensures { FinishesMembers D.is_known (record {
      headers = map member_view library.now.headers.items;
      imports = library.now.imports;
      natives = map member_view library.now.natives.items;
    }) (request_view request.now) (D.view disk.old) (D.view disk.new)
        (T.said reporter.old) (T.said reporter.new) result }
{
    let archive = match arm64ec_archive(library, alloc) {
        Ok(archive) => archive,
        Err(refusal) => {
            reporter.refuse(request.definition, &refusal);
            return refusal_status(&refusal);
        }
    };
    match place_if(alloc, disk, request.output, &archive) {
        Ok(()) => 0,
        Err(cause) => {
            let path = request.output.unwrap_or("-");
            reporter.complain(path, Complaint::Writing(cause));
            3
        }
    }
}

// Whether a library has no more members than its headers.
fn has_headers_alone(library: &Arm64ecLibrary) -> bool
    ensures { result ≡ has_headers_alone (record {
      headers = map member_view library.now.headers.items;
      imports = library.now.imports;
      natives = map member_view library.now.natives.items;
    }) }
{
    library.imports.is_empty() && library.natives.is_empty()
}

// Warns of a definition, and puts its library; gives the exit status.
fn finish_library<D: Disk, T: Reporter>(
    alloc: Global,
    bytes: &[u8],
    library: &Arm64ecLibrary,
    disk: &mut D,
    request: &Request<'_>,
    reporter: &mut T,
) -> u8
    requires { (D.view disk.old).left ≡ None }
    ensures { FinishesLibrary D.is_known bytes.now (record {
      headers = map member_view library.now.headers.items;
      imports = library.now.imports;
      natives = map member_view library.now.natives.items;
    }) (request_view request.now) (D.view disk.old) (D.view disk.new)
        (T.said reporter.old) (T.said reporter.new) result }
{
    // No warning counts members, since no archive is of another kind for their number.
    let counted = Counted {
        bytes,
        members: 0,
        is_bare: has_headers_alone(library),
    };
    match warn(alloc, counted, request, reporter) {
        Ok(()) => finish_arm64ec(alloc, library, disk, request, reporter),
        Err(_) => give_up(reporter, request),
    }
}

// Warns of a definition, and says why it has no library; gives the exit status.
fn finish_refused<T: Reporter>(
    alloc: Global,
    bytes: &[u8],
    refusal: Arm64ecRefusal,
    request: &Request<'_>,
    reporter: &mut T,
) -> u8
    ensures { (disk : DiskView) → FinishesRefused bytes.now refusal (request_view request.now)
        disk disk (T.said reporter.old) (T.said reporter.new) result }
{
    let counted = Counted {
        bytes,
        members: 0,
        is_bare: false,
    };
    match warn(alloc, counted, request, reporter) {
        Ok(()) => refuse_arm64ec(reporter, request, refusal),
        Err(_) => give_up(reporter, request),
    }
}

// The first of two definitions, in these files, that is in UTF-16.
fn utf16_file<'a>(
    definition: &'a str,
    native: &'a str,
    bytes: &[u8],
    native_bytes: Option<&[u8]>,
) -> Option<&'a str>
    ensures found { IfSome result (λ path. utf16_file definition.now native.now bytes.now
        (unwrap_or (option_map (λ text. text.now) native_bytes.entry) []) ≡ Some path.now) }
    ensures none { IfNone result (utf16_file definition.now native.now bytes.now
        (unwrap_or (option_map (λ text. text.now) native_bytes.entry) []) ≡ None) }
{
    if begins_utf16(bytes) {
        return Some(definition);
    }
    match native_bytes {
        Some(bytes) if begins_utf16(bytes) => Some(native),
        _ => None,
    }
}

// Puts the library of a definition, which has the members of a native one too; gives the exit
// status.
fn answer_texts<D: Disk, T: Reporter>(
    alloc: Global,
    bytes: &[u8],
    native: Option<&[u8]>,
    disk: &mut D,
    request: &Request<'_>,
    reporter: &mut T,
) -> u8
    requires { (D.view disk.old).left ≡ None }
    ensures { FinishesTexts D.is_known bytes.now (option_map (λ text. text.now) native.entry)
        (request_view request.now) (D.view disk.old) (D.view disk.new)
        (T.said reporter.old) (T.said reporter.new) result }
{
    if let Some(path) = utf16_file(request.definition, native_path(request), bytes, native) {
        reporter.complain(path, Complaint::Utf16);
        return 1;
    }
    match arm64ec_library_for(alloc, bytes, native, &request.library) {
        Ok(library) => finish_library(alloc, bytes, &library, disk, request, reporter),
        Err(refusal) => finish_refused(alloc, bytes, refusal, request, reporter),
    }
}

/// Puts the library for ARM64EC of a definition that is read, and of a native one, if its file is
/// given; gives the exit status.
pub(crate) fn answer_arm64ec<D: Disk, I: Read, T: Reporter>(
    alloc: Global,
    bytes: &[u8],
    native: Option<&str>,
    disk: &mut D,
    request: &Request<'_>,
    input: &mut I,
    reporter: &mut T,
) -> u8
    requires { (D.view disk.old).left ≡ None }
    ensures { FinishesArm64ec D.is_known (I.remaining input.old) bytes.now
        (option_map (λ text. text.now) native.entry) (request_view request.now)
        (D.view disk.old) (D.view disk.new) (T.said reporter.old) (T.said reporter.new) result }
{
    let Some(path) = native else {
        return answer_texts(alloc, bytes, None, disk, request, reporter);
    };
    match bytes_of(alloc, disk, input, path) {
        Ok(read) => {
            let read = Some(read.as_slice());
            answer_texts(alloc, bytes, read, disk, request, reporter)
        }
        Err(error) => {
            reporter.complain(path, Complaint::System(error));
            3
        }
    }
}
