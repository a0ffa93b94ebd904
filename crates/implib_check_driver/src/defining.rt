//! The definition of a library.

ghost use Rattle.std.specs.Prelude.{◌≡◌, ◌⊎◌, ◌++◌, [], false, map, true, IfErr, IfOk, Some};
ghost use Rattle.implib_check_driver.specs.Answer.{answer_view};
ghost use Rattle.implib_check_driver.specs.Answers.{DefinedAs, IsBehind, IsDefineAnswer};
ghost use Rattle.implib_check_driver.specs.Answers.{IsDefinedAs, IsUndefinedAs, is_definable, undefined_status};
ghost use Rattle.implib_read.specs.Identity.{dlls_of};
ghost use Rattle.implib_check_driver.specs.Calls.{define_view};
ghost use Rattle.implib_check_driver.specs.Defining.{DefinesFor, IsUndefined};
ghost use Rattle.implib_check_driver.specs.DefinitionText.{definition_text};
ghost use Rattle.implib_check_driver.specs.Listing.{doubts};
ghost use Rattle.implib_read.specs.ArchiveViews.{archive_view};
ghost use Rattle.implib_read.specs.Archives.{archive_in};
ghost use Rattle.implib_read.specs.ClassViews.{member_read_view};
ghost use Rattle.implib_read.specs.Classes.{members_read};
ghost use Rattle.implib_rules.specs.Options.{library_options_view};

use crate::against::begins_dll;
use crate::answer::{Answer, library_of, say};
use crate::call::Define;
use crate::definition::{CheckError, check_definition};
use crate::definition_text::definition_text;
use crate::laws::meant_is_defined;
use crate::list::doubt;
use crate::of_dll::library_of_dll;
use crate::report::Form;
use crate::target::{has_arm64ec, options_of};
use crate::text::{Place, Shown, Site, fault_of};
use implib_compare::compare::{Verdict, has_unread};
use implib_read::{Library, MemberRead, dlls_of};
use implib_rules::library::Refusal;
use implib_rules::options::LibraryOptions;
use indexmap::IndexSet;
use std::alloc::{AllocError, Global};

/// Why a library has no definition.
#[derive(Drop)]
pub enum Undefined {
    /// A member may import what is not read.
    Unread,
    /// The text that says its imports, as far as a text can, is refused.
    Refused(Refusal),
    /// That text means others; the lines of the differences.
    Different(Vec<u8>),
}

/// The definition of a library: a text that means its imports and aliases. The text is held against
/// the library, as any other definition, with the older symbols of addresses or without; so what is
/// not the library's meaning is never handed out. Hints are ordinals in
/// the text, or comments. `Unread`, `Refused` or `Different`: no text says what the library means,
/// or not one of this form.
#[tactic(auto, using(crate::proofs::Definitions::defines_same, crate::proofs::Definitions::defines_open))]
pub fn definition_of(
    form: Form,
    paths: (&str, &str),
    members: &[MemberRead],
    options: &LibraryOptions,
    hints: bool,
    older_symbols: bool,
) -> Result<Result<Vec<u8>, Undefined>, AllocError>
    requires { options.now.naming.exports_as ≡ false }
    ensures text { IfOk result (λ found. IfOk found
        (λ text. text.items
        ≡ definition_text hints (library_options_view options.now)
        (map member_read_view members.now))) }
    ensures defines { IfOk result (λ found. IfOk found
        (λ text. DefinesFor older_symbols text.items (library_options_view options.now)
        (map member_read_view members.now))) }
    ensures undefined { IfOk result (λ found. IfErr found
        (IsUndefined hints older_symbols (library_options_view options.now)
        (map member_read_view members.now))) }
{
    meant_is_defined();
    if has_unread(members) {
        return Ok(Err(Undefined::Unread));
    }
    let text = definition_text(form.alloc, hints, options, members)?;
    match check_definition(form, paths, members, &text, options, older_symbols) {
        Ok((Verdict::Different, told)) => Ok(Err(Undefined::Different(told))),
        Ok((Verdict::Same, _)) => Ok(Ok(text)),
        Ok((Verdict::NotDecided, _)) => Ok(Ok(text)),
        Err(CheckError::Refused(Refusal::OutOfMemory)) => Err(AllocError),
        Err(CheckError::Refused(refusal)) => Ok(Err(Undefined::Refused(refusal))),
        Err(CheckError::OutOfMemory) => Err(AllocError),
    }
}

// What the differences of a library call the definition that is tried.
const TRIED: &str = "the definition";

// Adds what of members no definition says, and whether there is something.
fn tell_untold(
    alloc: Global,
    lines: &mut Vec<u8>,
    path: &str,
    members: &[MemberRead],
) -> Result<bool, AllocError> {
    let mut is_told = false;
    for member in members {
        if let Some(what) = fault_of(&member.class) {
            let place = Place(Site::Library(path), member).to_string(alloc)?;
            say(lines, place.as_str(), what)?;
            is_told = true;
        }
    }
    Ok(is_told)
}

// The lines about a library that has no definition.
fn undefined_lines(
    alloc: Global,
    path: &str,
    members: &[MemberRead],
    why: &Undefined,
) -> Result<Vec<u8>, AllocError> {
    let mut lines = Vec::new(alloc);
    match why {
        Undefined::Unread => {}
        Undefined::Different(told) => {
            lines.extend_from_slice(told)?;
            say(&mut lines, path, "no definition says this")?;
        }
        Undefined::Refused(refusal) => {
            if !tell_untold(alloc, &mut lines, path, members)? {
                let why = refusal.to_string(alloc)?;
                let text = format!(in alloc; "no definition says this: {why}")?;
                say(&mut lines, path, text.as_str())?;
            }
        }
    }
    Ok(lines)
}

// The status of a library without a definition.
fn undefined_status(why: &Undefined) -> u8
    ensures { result ≡ undefined_status why.now }
{
    match why {
        Undefined::Unread => 4,
        Undefined::Refused(_) | Undefined::Different(_) => 1,
    }
}

// The answer for a library that has no definition, behind lines of standard error.
fn answer_undefined(
    alloc: Global,
    path: &str,
    members: &[MemberRead],
    why: &Undefined,
    err: Vec<u8>,
) -> Result<Answer, AllocError>
    ensures { IfOk result (λ a. IsBehind (undefined_status why.now) err.items (answer_view a)) }
{
    let lines = undefined_lines(alloc, path, members, why)?;
    behind(alloc, undefined_status(why), err, &lines)
}

// The lines about DLLs, of which there is not one alone.
fn dlls_lines(alloc: Global, path: &str, names: &IndexSet<&[u8]>) -> Result<Vec<u8>, AllocError> {
    let mut lines = Vec::new(alloc);
    if names.is_empty() {
        say(&mut lines, path, "imports from no DLL")?;
    }
    for name in names.iter() {
        let dll = Shown(name);
        let text = format!(in alloc; "imports from {dll}; a definition is of one DLL")?;
        say(&mut lines, path, text.as_str())?;
    }
    Ok(lines)
}

// The answer of a status, of lines of standard error alone behind some.
fn behind(alloc: Global, status: u8, err: Vec<u8>, lines: &[u8]) -> Result<Answer, AllocError>
    ensures { IfOk result (λ a. IsBehind status err.items (answer_view a)) }
{
    let mut err = err;
    err.extend_from_slice(lines)?;
    Ok(Answer {
        status,
        out: Vec::new(alloc),
        err,
    })
}

// The definition of a library that is read, of one DLL and not for ARM64EC.
fn define_one(
    alloc: Global,
    define: &Define,
    library: &Library,
    hints: bool,
    err: Vec<u8>,
) -> Result<Answer, AllocError>
    requires read { map member_read_view library.now.members.items
        ≡ members_read (archive_view library.now.archive).members }
    requires doubts { err.items ≡ doubts true define.now.library.now
        (map member_read_view library.now.members.items) }
    ensures { IfOk result (λ a.
        IsDefinedAs hints (define_view define.now) (archive_view library.now.archive)
        (answer_view a)
        ⊎ IsUndefinedAs hints (define_view define.now) (archive_view library.now.archive)
        (answer_view a)) }
{
    let members = library.members.as_slice();
    let options = options_of(define, members);
    let form = Form {
        alloc,
        is_json: false,
    };
    let paths = (define.library, TRIED);
    let older = define.older_symbols;
    match definition_of(form, paths, members, &options, hints, older)? {
        Ok(out) => Ok(Answer {
            status: 0,
            out,
            err,
        }),
        Err(why) => answer_undefined(alloc, define.library, members, &why, err),
    }
}

// Whether a definition is of members: they are of one DLL, and not for ARM64EC.
fn is_definable(names: &IndexSet<&[u8]>, members: &[MemberRead]) -> bool
    requires { map (λ k. k.now) names.now.keys ≡ dlls_of (map member_read_view members.now) }
    ensures { result ≡ is_definable (map member_read_view members.now) }
{
    names.len() == 1 && !has_arm64ec(members)
}

// The lines about members that no definition is of.
fn none_lines(alloc: Global, path: &str, names: &IndexSet<&[u8]>) -> Result<Vec<u8>, AllocError> {
    if names.len() != 1 {
        return dlls_lines(alloc, path, names);
    }
    let mut lines = Vec::new(alloc);
    let text = "imports for arm64ec, of which --def writes no definition";
    say(&mut lines, path, text)?;
    Ok(lines)
}

// The definition of a library that is read.
fn define_read(
    alloc: Global,
    define: &Define,
    library: &Library,
    hints: bool,
) -> Result<Answer, AllocError>
    requires { map member_read_view library.now.members.items
        ≡ members_read (archive_view library.now.archive).members }
    ensures { IfOk result (λ a. DefinedAs hints (define_view define.now) []
        (Some (archive_view library.now.archive)) (answer_view a)) }
{
    let members = library.members.as_slice();
    let path = define.library;
    let mut err = Vec::new(alloc);
    doubt(alloc, &mut err, path, members, true)?;
    let names = dlls_of(alloc, members)?;
    if is_definable(&names, members) {
        let answer = define_one(alloc, define, library, hints, err)?;
        return Ok(answer);
    }
    let lines = none_lines(alloc, path, &names)?;
    let answer = behind(alloc, 1, err, &lines)?;
    Ok(answer)
}

// The definition of a library, with its hints as ordinals or as comments.
fn define_library(
    alloc: Global,
    define: &Define,
    bytes: &[u8],
    hints: bool,
) -> Result<Answer, AllocError>
    ensures { IfOk result (λ a. DefinedAs hints (define_view define.now) bytes.now
        (archive_in bytes.now) (answer_view a)) }
{
    match library_of(alloc, define.library, bytes)? {
        Ok(library) => Ok(define_read(alloc, define, &library, hints)?),
        Err(answer) => Ok(answer),
    }
}

/// The answer to the call that writes the definition of a library, or of a DLL.
pub fn define(alloc: Global, define: &Define, bytes: &[u8]) -> Result<Answer, AllocError>
    ensures { IfOk result (λ a. IsDefineAnswer (define_view define.now) bytes.now (answer_view a)) }
{
    if !begins_dll(bytes) {
        return Ok(define_library(alloc, define, bytes, false)?);
    }
    match library_of_dll(alloc, define, bytes)? {
        Ok(file) => Ok(define_library(alloc, define, &file, true)?),
        Err(answer) => Ok(answer),
    }
}
