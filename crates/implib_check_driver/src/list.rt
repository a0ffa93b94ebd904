//! The calls that list a library, and that name its DLLs.

ghost use Rattle.std.specs.List.{flat_map};
ghost use Rattle.std.specs.Prelude.{◌≡◌, ◌++◌, IfOk, OnOk, map};
ghost use Rattle.implib_check_driver.specs.Answer.{answer_view, lines};
ghost use Rattle.implib_check_driver.specs.Listing.{doubts, identified, identify_answer};
ghost use Rattle.implib_check_driver.specs.Listing.{doubt_line, list_answer, list_of, listed};
ghost use Rattle.implib_check_driver.specs.Listing.{listed_of};
ghost use Rattle.implib_check_driver.specs.Listing.{name_line, names_fault};
ghost use Rattle.std.specs.Option.{option_map};
ghost use Rattle.implib_read.specs.ClassViews.{member_read_view};

use crate::answer::{Answer, library_of, say};
use crate::finding::{Finding, library_side};
use crate::report::{Form, tell};
use crate::status::{identity_status, list_status};
use crate::text::{Place, Shown, Site, doubt_of, is_listed};
use implib_compare::compare::has_unread;
use implib_read::{MemberRead, dlls_of};
use indexmap::IndexSet;
use std::alloc::{AllocError, Global};

// Adds the line about a member that leaves an answer open, if it does.
fn doubt_one(
    alloc: Global,
    err: &mut Vec<u8>,
    path: &str,
    member: &MemberRead,
    others: bool,
) -> Result<(), AllocError>
    ensures { OnOk result (err.new.items
        ≡ err.old.items ++ doubt_line others path.now (member_read_view member.now)) }
{
    match doubt_of(&member.class, others) {
        Some(what) => {
            let place = Place(Site::Library(path), member).to_string(alloc)?;
            say(err, place.as_str(), what)
        }
        None => Ok(()),
    }
}

/// Adds which members leave an answer open; with `others`, other objects too.
pub(crate) fn doubt(
    alloc: Global,
    err: &mut Vec<u8>,
    path: &str,
    members: &[MemberRead],
    others: bool,
) -> Result<(), AllocError>
    ensures { OnOk result (err.new.items
        ≡ err.old.items ++ doubts others path.now (map member_read_view members.now)) }
{
    for member in members {
        doubt_one(alloc, err, path, member, others)?;
    }
    Ok(())
}

// Adds the line of a member, if it is an import or an alias.
fn list_one(
    form: Form,
    out: &mut Vec<u8>,
    path: &str,
    member: &MemberRead,
) -> Result<(), AllocError>
    ensures { OnOk result (out.new.items ≡ out.old.items
        ++ lines form.is_json (listed_of path.now (member_read_view member.now))) }
{
    if !is_listed(&member.class) {
        return Ok(());
    }
    tell(form, out, &Finding::Listed(library_side(path, member)))
}

// Adds the imports and aliases of a library.
fn list_all(
    form: Form,
    out: &mut Vec<u8>,
    path: &str,
    members: &[MemberRead],
) -> Result<(), AllocError>
    ensures { OnOk result (out.new.items ≡ out.old.items
        ++ lines form.is_json (listed path.now (map member_read_view members.now))) }
{
    for member in members {
        list_one(form, out, path, member)?;
    }
    Ok(())
}

// The list of members.
fn list_read(form: Form, path: &str, members: &[MemberRead]) -> Result<Answer, AllocError>
    ensures { IfOk result (λ a. answer_view a
        ≡ list_of form.is_json path.now (map member_read_view members.now)) }
{
    let mut out = Vec::new(form.alloc);
    let mut err = Vec::new(form.alloc);
    list_all(form, &mut out, path, members)?;
    doubt(form.alloc, &mut err, path, members, false)?;
    Ok(Answer {
        status: list_status(has_unread(members)),
        out,
        err,
    })
}

/// The answer to the call that lists a library.
#[tactic(auto, using(crate::proofs::Answers::by_read, crate::proofs::Answers::by_none))]
pub fn list(form: Form, path: &str, bytes: &[u8]) -> Result<Answer, AllocError>
    ensures { IfOk result
        (λ a. answer_view a ≡ list_answer form.is_json path.now bytes.now) }
{
    match library_of(form.alloc, path, bytes)? {
        Ok(library) => list_read(form, path, &library.members),
        Err(answer) => Ok(answer),
    }
}

// Adds the line of a name.
fn push_name(alloc: Global, out: &mut Vec<u8>, name: &[u8]) -> Result<(), AllocError>
    ensures { OnOk result (out.new.items ≡ out.old.items ++ name_line name.now) }
{
    let line = format!(in alloc; "{}\n", Shown(name))?;
    out.extend_from_slice(line.as_bytes())
}

// Adds the names of DLLs.
fn name_all(alloc: Global, out: &mut Vec<u8>, names: &IndexSet<&[u8]>) -> Result<(), AllocError>
    ensures { OnOk result (out.new.items
        ≡ out.old.items ++ flat_map name_line (map (λ k. k.now) names.now.keys)) }
{
    for name in names.iter() {
        push_name(alloc, out, name)?;
    }
    Ok(())
}

// What is said of a number of names, of which one alone may be asked for.
fn names_fault(count: usize, is_strict: bool) -> Option<&'static str>
    ensures { option_map (λ text. text.now) result ≡ names_fault is_strict count }
{
    if count == 0 {
        Some("imports from no DLL")
    } else if is_strict && count > 1 {
        Some("imports from two or more DLLs")
    } else {
        None
    }
}

// The names of the DLLs of members.
fn identify_read(
    alloc: Global,
    path: &str,
    is_strict: bool,
    members: &[MemberRead],
) -> Result<Answer, AllocError>
    ensures { IfOk result (λ a. answer_view a
        ≡ identified is_strict path.now (map member_read_view members.now)) }
{
    let names = dlls_of(alloc, members)?;
    let mut out = Vec::new(alloc);
    let mut err = Vec::new(alloc);
    doubt(alloc, &mut err, path, members, false)?;
    match names_fault(names.len(), is_strict) {
        Some(text) => say(&mut err, path, text)?,
        None => name_all(alloc, &mut out, &names)?,
    }
    Ok(Answer {
        status: identity_status(has_unread(members), names.len(), is_strict),
        out,
        err,
    })
}

/// The answer to the call that names the DLLs of a library: where there is none, or one alone is
/// asked for and there are several, that is said in their place.
#[tactic(auto, using(crate::proofs::Answers::by_read, crate::proofs::Answers::by_none))]
pub fn identify(
    alloc: Global,
    path: &str,
    is_strict: bool,
    bytes: &[u8],
) -> Result<Answer, AllocError>
    ensures { IfOk result
        (λ a. answer_view a ≡ identify_answer is_strict path.now bytes.now) }
{
    match library_of(alloc, path, bytes)? {
        Ok(library) => identify_read(alloc, path, is_strict, &library.members),
        Err(answer) => Ok(answer),
    }
}
