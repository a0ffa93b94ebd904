//! The call that compares a library with a definition, or holds one of them against a DLL.

ghost use Rattle.std.specs.Option.{option_map};
ghost use Rattle.std.specs.Prelude.{◌≡◌, ℕ, ◌++◌, IfErr, IfOk, List, OnOk, map, true};
ghost use Rattle.implib_check_driver.specs.Answer.{IsHalt, answer_view};
ghost use Rattle.implib_check_driver.specs.Answers.{AnswersBeside, IsAnswerWith, asks_for_dll};
ghost use Rattle.implib_check_driver.specs.Calls.{check_view, is_searching as IsSearching};
ghost use Rattle.implib_check_driver.specs.Checking.{CheckedAs, IsCheckedBeside};
ghost use Rattle.implib_check_driver.specs.Checking.{IsCheckedForArm64ec, IsCheckedOrdinary};
ghost use Rattle.implib_check_driver.specs.Checking.{unfit_text};
ghost use Rattle.implib_check_driver.specs.Listing.{broken_if_same, doubts};
ghost use Rattle.implib_check_driver.specs.Status.{comparison_status};
ghost use Rattle.implib_check_driver.specs.Through.{through};
ghost use Rattle.implib_compare.specs.Working.{working_of};
ghost use Rattle.implib_compare.specs.DllCheck.Folders.{AreKnown, folder_view};
ghost use Rattle.implib_read.specs.ArchiveViews.{archive_view};
ghost use Rattle.implib_read.specs.Archives.{archive_in};
ghost use Rattle.implib_read.specs.ClassViews.{member_read_view};
ghost use Rattle.implib_read.specs.Classes.{members_read};

use crate::against::{begins_dll, is_library};
use crate::answer::{Answer, Halt, NAME, bytes_of, library_of, refused, saying};
use crate::arm64ec::{Arm64ecError, check_arm64ec, refused_arm64ec};
use crate::beside::against;
use crate::call::{Check, is_searching};
use crate::definition::{CheckError, check_definition};
use crate::list::doubt;
use crate::report::Form;
use crate::shelf::Shelf;
use crate::starting::folders_of;
use crate::status::comparison_status;
use crate::target::{is_for_arm64ec, is_unfit, options_for};
use crate::works::tell_working_if_same;
use implib_compare::compare::Verdict;
use implib_compare::dll_check::Folder;
use implib_read::Library;
use std::alloc::AllocError;

// Adds why a library that means what a definition means does not work, if it does not; and gives
// the exit status.
fn tell_checked(
    form: Form,
    out: &mut Vec<u8>,
    verdict: Verdict,
    path: &str,
    library: &Library,
) -> Result<u8, AllocError>
    ensures status { IfOk result (λ status. status ≡ comparison_status verdict
        (working_of (archive_view library.now.archive)
        (map member_read_view library.now.members.items))) }
    ensures told { OnOk result (out.new.items ≡ out.old.items ++ broken_if_same verdict
        form.is_json path.now (archive_view library.now.archive)
        (map member_read_view library.now.members.items)) }
{
    let working = tell_working_if_same(form, out, verdict, path, library)?;
    Ok(comparison_status(verdict, working))
}

// The answer of a verdict whose differences are told.
fn checked(
    form: Form,
    told: Vec<u8>,
    verdict: Verdict,
    check: &Check,
    library: &Library,
) -> Result<Answer, AllocError>
    ensures { IfOk result (λ a. answer_view a ≡ record {
      status = comparison_status verdict (working_of (archive_view library.now.archive)
          (map member_read_view library.now.members.items));
      out = told.items ++ broken_if_same verdict form.is_json check.now.library.now
          (archive_view library.now.archive) (map member_read_view library.now.members.items);
      err = doubts true check.now.library.now (map member_read_view library.now.members.items);
    }) }
{
    let mut out = told;
    let mut err = Vec::new(form.alloc);
    doubt(form.alloc, &mut err, check.library, &library.members, true)?;
    let status = tell_checked(form, &mut out, verdict, check.library, library)?;
    Ok(Answer { status, out, err })
}

// Compares a library that is read with a definition.
fn check_ordinary(
    form: Form,
    check: &Check,
    library: &Library,
    definition: &[u8],
) -> Result<Answer, AllocError>
    requires { map member_read_view library.now.members.items
        ≡ members_read (archive_view library.now.archive).members }
    ensures { IfOk result (λ a. IsCheckedOrdinary form.is_json (check_view check.now)
        (archive_view library.now.archive) definition.now (answer_view a)) }
{
    let members = library.members.as_slice();
    let options = options_for(check, members);
    let paths = (check.library, check.definition);
    let older = check.older_symbols;
    match check_definition(form, paths, members, definition, &options, older) {
        Ok((verdict, told)) => checked(form, told, verdict, check, library),
        Err(CheckError::Refused(why)) => refused(form.alloc, check.definition, &why),
        Err(CheckError::OutOfMemory) => Err(AllocError),
    }
}

// Compares a library that is read with the definitions of one for ARM64EC.
fn check_for_arm64ec(
    form: Form,
    check: &Check,
    library: &Library,
    definition: &[u8],
    native: Option<&[u8]>,
) -> Result<Answer, AllocError>
    requires { map member_read_view library.now.members.items
        ≡ members_read (archive_view library.now.archive).members }
    ensures { IfOk result (λ a. IsCheckedForArm64ec form.is_json (check_view check.now)
        (archive_view library.now.archive) definition.now
        (option_map (λ text. text.now) native.entry) (answer_view a)) }
{
    let members = library.members.as_slice();
    let options = options_for(check, members);
    match check_arm64ec(form, check, members, definition, native, &options) {
        Ok((verdict, told)) => checked(form, told, verdict, check, library),
        Err(Arm64ecError::Refused(fault)) => Ok(refused_arm64ec(form.alloc, check, &fault)?),
        Err(Arm64ecError::OutOfMemory) => Err(AllocError),
    }
}

// What is said of a call that asks for what a library for ARM64EC, or another one, is not made
// with.
fn unfit_text(is_for_arm64ec: bool) -> &'static str
    ensures { result.now ≡ unfit_text is_for_arm64ec }
{
    if is_for_arm64ec {
        "arm64ec: not supported for GNU's linker; leave out -C, and --flavor or make it msvc"
    } else {
        "--input-native-def: for arm64ec alone; add -m arm64ec"
    }
}

// Compares a library that is read with a definition.
fn check_read(
    form: Form,
    check: &Check,
    library: &Library,
    definition: &[u8],
    native: Option<&[u8]>,
) -> Result<Answer, AllocError>
    requires { map member_read_view library.now.members.items
        ≡ members_read (archive_view library.now.archive).members }
    ensures { IfOk result (λ a. IsCheckedBeside form.is_json (check_view check.now)
        (archive_view library.now.archive) definition.now
        (option_map (λ text. text.now) native.entry) (answer_view a)) }
{
    let members = library.members.as_slice();
    if is_unfit(check, members) {
        let message = unfit_text(is_for_arm64ec(check, members));
        return saying(form.alloc, 2, NAME, message);
    }
    if is_for_arm64ec(check, members) {
        check_for_arm64ec(form, check, library, definition, native)
    } else {
        check_ordinary(form, check, library, definition)
    }
}

// Compares a library with a definition.
fn check_library(
    form: Form,
    check: &Check,
    bytes: &[u8],
    definition: &[u8],
    native: Option<&[u8]>,
) -> Result<Answer, AllocError>
    ensures { IfOk result (λ a. CheckedAs form.is_json (check_view check.now) bytes.now
        definition.now (option_map (λ text. text.now) native.entry) (archive_in bytes.now)
        (answer_view a)) }
{
    let library = match library_of(form.alloc, check.library, bytes)? {
        Ok(library) => library,
        Err(answer) => return Ok(answer),
    };
    if is_library(definition) {
        let message = "a library, and no definition; --same LIB LIB compares two libraries";
        let answer = saying(form.alloc, 2, check.definition, message)?;
        return Ok(answer);
    }
    let answer = check_read(form, check, &library, definition, native)?;
    Ok(answer)
}

// Whether a call asks for more of a DLL: its exports, or where its forwarders lead.
fn asks_for_dll(check: &Check) -> bool
    ensures { result ≡ asks_for_dll (check_view check.now) }
{
    check.lists_unasked || is_searching(check)
}

// Compares bytes with a definition, or holds them against a DLL.
fn check_bytes<S: Shelf>(
    form: Form,
    shelf: &S,
    check: &Check,
    bytes: &[u8],
    definition: &[u8],
    native: Option<&[u8]>,
    folders: &[Folder],
) -> Result<Answer, Halt>
    ensures held { IfOk result (λ a. (file : List ℕ → List ℕ)
        → (IsSearching (check_view check.now) ≡ true → AreKnown (S.seen shelf.now) file)
        → IsAnswerWith form.is_json
        (through file (map folder_view folders.now) (check_view check.now))
        (check_view check.now) bytes.now definition.now (option_map (λ text. text.now) native.entry)
        (answer_view a)) }
    ensures halted { IfErr result (IsHalt (S.may_fail shelf.now)) }
{
    if begins_dll(definition) {
        let answer = against(form, shelf, check, bytes, definition, folders)?;
        return Ok(answer);
    }
    if asks_for_dll(check) {
        let message = "no DLL, and --all or --search asks for one";
        return Ok(saying(form.alloc, 2, check.definition, message)?);
    }
    let answer = check_library(form, check, bytes, definition, native)?;
    Ok(answer)
}

/// The answer to the call that compares a library with a definition, or holds one of them against a
/// DLL.
///
/// # Errors
///
/// `Ends`: a file or a folder cannot be read.
pub(crate) fn check<S: Shelf>(form: Form, shelf: &S, check: &Check) -> Result<Answer, Halt>
    ensures answered { IfOk result (λ a. AnswersBeside form.is_json (S.seen shelf.now)
        (S.listed shelf.now) (check_view check.now) (answer_view a)) }
    ensures halted { IfErr result (IsHalt (S.may_fail shelf.now)) }
{
    let alloc = form.alloc;
    let bytes = bytes_of(alloc, shelf, check.library)?;
    let definition = bytes_of(alloc, shelf, check.definition)?;
    let folders = folders_of(alloc, shelf, check.folders)?;
    let first = bytes.as_slice();
    let second = definition.as_slice();
    let listed = folders.as_slice();
    let Some(path) = check.native else {
        let answer = check_bytes(form, shelf, check, first, second, None, listed)?;
        return Ok(answer);
    };
    let native = bytes_of(alloc, shelf, path)?;
    let native = Some(native.as_slice());
    let answer = check_bytes(form, shelf, check, first, second, native, listed)?;
    Ok(answer)
}
