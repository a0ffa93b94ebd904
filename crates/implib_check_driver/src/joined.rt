//! The call that says what several libraries do to each other in one link.

ghost use Rattle.std.specs.List.{list_any};
ghost use Rattle.std.specs.Option.{is_some};
ghost use Rattle.std.specs.Prelude.{◌≡◌, ℕ, ◌++◌, IfErr, IfOk, List, None, OnOk, Some, length, map};
ghost use Rattle.std.specs.String.{string_bytes};
ghost use Rattle.implib_check_driver.specs.Answer.{IsHalt, answer_view, no_library};
ghost use Rattle.implib_check_driver.specs.Together.{IsJoined, IsJoinedAnswer, claim_view};
ghost use Rattle.implib_check_driver.specs.Together.{claims_of_all, doubts_of_all, first_none};
ghost use Rattle.implib_check_driver.specs.Together.{members_of_all};
ghost use Rattle.implib_compare.specs.Comparison.{has_unread};
ghost use Rattle.implib_compare.specs.DllCheck.Folders.{AreKnown};
ghost use Rattle.implib_read.specs.ClassViews.{member_read_view};
ghost use Rattle.implib_read.specs.Classes.{library_in};

use crate::answer::{Answer, Halt, bytes_of, library_of};
use crate::finding::{Finding, Side, library_side};
use crate::list::doubt;
use crate::report::{Form, tell};
use crate::shelf::Shelf;
use crate::status::together_status;
use crate::together::{Claim, add_claims, clashes};
use implib_compare::compare::has_unread;
use implib_read::Library;
use std::alloc::{AllocError, Global};

/// The bytes of files.
///
/// # Errors
///
/// `Ends`: a file cannot be read.
pub(crate) fn all_bytes<S: Shelf>(
    alloc: Global,
    shelf: &S,
    paths: &[String],
) -> Result<Vec<Vec<u8>>, Halt>
    ensures read { IfOk result (λ files. (file : List ℕ → List ℕ) → AreKnown (S.seen shelf.now) file
        → map (λ bytes. bytes.items) files.items ≡ map file (map string_bytes paths.now)) }
    ensures length { IfOk result (λ files. length files.items ≡ length paths.now) }
    ensures halted { IfErr result (IsHalt (S.may_fail shelf.now)) }
{
    let mut files = Vec::new(alloc);
    for path in paths {
        let bytes = bytes_of(alloc, shelf, path)?;
        files.push(bytes)?;
    }
    Ok(files)
}

// Whether a library has a member that may import what is not read.
fn is_some_unread(libraries: &[Library]) -> bool
    ensures { result
        ≡ list_any has_unread
        (map (λ library. map member_read_view library.members.items) libraries.now) }
{
    for library in libraries {
        if has_unread(&library.members) {
            return true;
        }
    }
    false
}

// The import or the alias by which a claim is made.
fn side_of_claim<'p, 'm, 'a>(
    paths: &'p [String],
    libraries: &'m [Library<'a>],
    claim: &Claim,
) -> Option<Side<'p, 'm, 'a>> {
    let path = paths.get(claim.library)?;
    let member = libraries.get(claim.library)?.members.get(claim.member)?;
    Some(library_side(path, member))
}

// Adds a claim, and the first claim of its symbol, with which it clashes.
fn tell_clash(
    form: Form,
    out: &mut Vec<u8>,
    paths: &[String],
    libraries: &[Library],
    claim: &Claim,
    first: &Claim,
) -> Result<(), AllocError> {
    let Some(here) = side_of_claim(paths, libraries, first) else {
        return Ok(());
    };
    let Some(there) = side_of_claim(paths, libraries, claim) else {
        return Ok(());
    };
    tell(form, out, &Finding::Clash(&claim.symbol, here, there))
}

// The lines of the claims that clash.
fn clash_lines(
    form: Form,
    paths: &[String],
    libraries: &[Library],
    claims: &[Claim],
    found: &[Option<usize>],
) -> Result<Vec<u8>, AllocError> {
    let mut out = Vec::new(form.alloc);
    for (claim, number) in claims.iter().zip(found) {
        if let Some(first) = number.and_then(|number| claims.get(number)) {
            tell_clash(form, &mut out, paths, libraries, claim, first)?;
        }
    }
    Ok(out)
}

// Whether a claim clashes with another.
fn is_any_clash(found: &[Option<usize>]) -> bool
    ensures { result ≡ list_any is_some found.now }
{
    for number in found {
        if number.is_some() {
            return true;
        }
    }
    false
}

// The claims of libraries, in order.
fn all_claims(alloc: Global, libraries: &[Library]) -> Result<Vec<Claim>, AllocError>
    ensures { IfOk result (λ claims. map claim_view claims.items
        ≡ claims_of_all 0
        (map (λ library. map member_read_view library.members.items) libraries.now)) }
{
    let mut claims = Vec::new(alloc);
    for i in 0..libraries.len() {
        add_claims(alloc, &mut claims, i, &libraries[i].members)?;
    }
    Ok(claims)
}

// The library that a file is, or the answer where it is none.
#[tactic(auto, unfolding(implib_read::specs::Classes::library_in))]
fn library_at<'a>(
    alloc: Global,
    path: &String,
    bytes: &'a [u8],
) -> Result<Result<Library<'a>, Answer>, AllocError>
    ensures read { IfOk result (λ found. IfOk found (λ library. library_in bytes.now
        ≡ Some (map member_read_view library.members.items))) }
    ensures none { IfOk result (λ found. IfErr found (λ a. (library_in bytes.now ≡ None)
        × (answer_view a ≡ no_library (string_bytes path.now) bytes.now))) }
{
    library_of(alloc, path.as_str(), bytes)
}

// The libraries that files are; or the answer where one is none.
fn all_libraries<'a>(
    alloc: Global,
    paths: &[String],
    files: &'a [Vec<u8>],
) -> Result<Result<Vec<Library<'a>>, Answer>, AllocError>
    requires { length paths.now ≡ length files.now }
    ensures read { IfOk result (λ found. IfOk found (λ libraries.
        map (λ library. map member_read_view library.members.items) libraries.items
        ≡ members_of_all (map (λ bytes. bytes.items) files.now))) }
    ensures all { IfOk result (λ found. IfOk found (λ libraries.
        first_none (map string_bytes paths.now) (map (λ bytes. bytes.items) files.now) ≡ None)) }
    ensures none { IfOk result (λ found. IfErr found (λ a.
        first_none (map string_bytes paths.now) (map (λ bytes. bytes.items) files.now)
        ≡ Some (answer_view a))) }
{
    let mut libraries = Vec::new(alloc);
    for i in 0..files.len() {
        match library_at(alloc, &paths[i], &files[i])? {
            Ok(library) => libraries.push(library)?,
            Err(answer) => return Ok(Err(answer)),
        }
    }
    Ok(Ok(libraries))
}

// Adds which members of libraries leave the answer open.
fn doubt_all(
    alloc: Global,
    err: &mut Vec<u8>,
    paths: &[String],
    libraries: &[Library],
) -> Result<(), AllocError>
    requires { length paths.now ≡ length libraries.now }
    ensures { OnOk result (err.new.items ≡ err.old.items
        ++ doubts_of_all (map string_bytes paths.now)
        (map (λ library. map member_read_view library.members.items) libraries.now)) }
{
    for i in 0..libraries.len() {
        doubt(alloc, err, paths[i].as_str(), &libraries[i].members, false)?;
    }
    Ok(())
}

// The answer to libraries in one link.
fn joined(form: Form, paths: &[String], libraries: &[Library]) -> Result<Answer, AllocError>
    requires { length paths.now ≡ length libraries.now }
    ensures { IfOk result (λ a. IsJoined (map string_bytes paths.now)
        (map (λ library. map member_read_view library.members.items) libraries.now)
        (answer_view a)) }
{
    let mut err = Vec::new(form.alloc);
    doubt_all(form.alloc, &mut err, paths, libraries)?;
    let claims = all_claims(form.alloc, libraries)?;
    let found = clashes(form.alloc, &claims)?;
    Ok(Answer {
        status: together_status(is_some_unread(libraries), is_any_clash(&found)),
        out: clash_lines(form, paths, libraries, &claims, &found)?,
        err,
    })
}

/// The answer to the call that says what the libraries of files do to each other in one link.
pub fn together(form: Form, paths: &[String], files: &[Vec<u8>]) -> Result<Answer, AllocError>
    requires { length paths.now ≡ length files.now }
    ensures { IfOk result (λ a. IsJoinedAnswer (map string_bytes paths.now)
        (map (λ bytes. bytes.items) files.now)
        (first_none (map string_bytes paths.now) (map (λ bytes. bytes.items) files.now))
        (answer_view a)) }
{
    match all_libraries(form.alloc, paths, files)? {
        Ok(libraries) => joined(form, paths, &libraries),
        Err(answer) => Ok(answer),
    }
}
