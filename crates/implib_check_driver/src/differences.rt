//! In what two libraries differ, and the call that compares them.

ghost use Rattle.std.specs.Prelude.{◌≡◌, ◌++◌, IfOk, OnOk, map};
ghost use Rattle.implib_check_driver.specs.Answer.{answer_view};
ghost use Rattle.implib_check_driver.specs.Differences.{IsSame, IsSameAnswer};
ghost use Rattle.implib_check_driver.specs.Listing.{broken_if_same};
ghost use Rattle.implib_check_driver.specs.Status.{comparison_status};
ghost use Rattle.implib_compare.specs.Working.{both_work, working_of};
ghost use Rattle.implib_read.specs.Archives.{archive_in};
ghost use Rattle.implib_read.specs.ArchiveViews.{archive_view};
ghost use Rattle.implib_read.specs.ClassViews.{member_read_view};

use crate::answer::{Answer, library_of};
use crate::finding::{Finding, Source};
use crate::list::doubt;
use crate::report::{Form, tell};
use crate::status::comparison_status;
use crate::text::symbol_of_member;
use crate::together::{Firsts, note};
use crate::works::tell_working_if_same;
use implib_compare::compare::{Comparison, Verdict, compare};
use implib_compare::working::both_work;
use implib_read::{Library, MemberRead};
use std::alloc::{AllocError, Global};
use std::collections::HashMap;

// The numbers of the first members that differ, by their symbols.
fn firsts_differing<'m, 'a: 'm>(
    alloc: Global,
    members: &'m [MemberRead<'a>],
    flags: &[bool],
) -> Result<Firsts<'m>, AllocError> {
    let mut firsts = HashMap::new(alloc);
    for (number, (member, flag)) in members.iter().zip(flags).enumerate() {
        if *flag {
            note(&mut firsts, symbol_of_member(member), number)?;
        }
    }
    Ok(firsts)
}

// Adds what is found of a member that differs.
fn tell_one(
    form: Form,
    out: &mut Vec<u8>,
    sources: (Source, Source),
    member: &MemberRead,
    other: Option<&MemberRead>,
    is_second: bool,
) -> Result<(), AllocError> {
    let here = sources.0.side(member);
    match other {
        Some(other) => {
            if is_second {
                return Ok(());
            }
            let there = sources.1.side(other);
            tell(form, out, &Finding::Different(here, there))
        }
        None => tell(form, out, &Finding::Missing(here, sources.1.file())),
    }
}

// The member of a symbol, by the numbers of first members.
fn member_of<'m, 'a>(
    members: &'m [MemberRead<'a>],
    firsts: &Firsts,
    symbol: &[u8],
) -> Option<&'m MemberRead<'a>> {
    let number = firsts.get(&symbol).copied()?;
    members.get(number)
}

// Adds the differences of one library against another.
fn tell_side(
    form: Form,
    out: &mut Vec<u8>,
    sources: (Source, Source),
    members: (&[MemberRead], &[MemberRead]),
    flags: &[bool],
    others: &Firsts,
    is_second: bool,
) -> Result<(), AllocError> {
    for (member, flag) in members.0.iter().zip(flags) {
        if *flag {
            let other = member_of(members.1, others, symbol_of_member(member));
            tell_one(form, out, sources, member, other, is_second)?;
        }
    }
    Ok(())
}

/// The lines of the differences of two libraries: what the first has, in order, and then what the
/// second has alone.
pub(crate) fn differences(
    form: Form,
    sources: (Source, Source),
    left: &[MemberRead],
    right: &[MemberRead],
    found: &Comparison,
) -> Result<Vec<u8>, AllocError> {
    let mut out = Vec::new(form.alloc);
    let in_left = firsts_differing(form.alloc, left, &found.left)?;
    let in_right = firsts_differing(form.alloc, right, &found.right)?;
    tell_side(
        form,
        &mut out,
        sources,
        (left, right),
        &found.left,
        &in_right,
        false,
    )?;
    let sources = (sources.1, sources.0);
    tell_side(
        form,
        &mut out,
        sources,
        (right, left),
        &found.right,
        &in_left,
        true,
    )?;
    Ok(out)
}

// Adds why libraries that are the same do not work, and gives the exit status of the comparison.
fn tell_both_working(
    form: Form,
    out: &mut Vec<u8>,
    verdict: Verdict,
    paths: (&str, &str),
    left: &Library,
    right: &Library,
) -> Result<u8, AllocError>
    ensures status { IfOk result (λ status. status ≡ comparison_status verdict
        (both_work
        (working_of (archive_view left.now.archive) (map member_read_view left.now.members.items))
        (working_of (archive_view right.now.archive)
        (map member_read_view right.now.members.items)))) }
    ensures told { OnOk result (out.new.items ≡ out.old.items
        ++ (broken_if_same verdict form.is_json paths.entry.0.now (archive_view left.now.archive)
        (map member_read_view left.now.members.items)
        ++ broken_if_same verdict form.is_json paths.entry.1.now (archive_view right.now.archive)
        (map member_read_view right.now.members.items))) }
{
    let first = tell_working_if_same(form, out, verdict, paths.0, left)?;
    let second = tell_working_if_same(form, out, verdict, paths.1, right)?;
    Ok(comparison_status(verdict, both_work(first, second)))
}

// The answer to libraries that are read.
fn same_read(
    form: Form,
    paths: (&str, &str),
    left: &Library,
    right: &Library,
) -> Result<Answer, AllocError>
    ensures { IfOk result (λ a. IsSame form.is_json paths.entry.0.now paths.entry.1.now
        (archive_view left.now.archive) (map member_read_view left.now.members.items)
        (archive_view right.now.archive) (map member_read_view right.now.members.items)
        (answer_view a)) }
{
    let mut err = Vec::new(form.alloc);
    doubt(form.alloc, &mut err, paths.0, &left.members, true)?;
    doubt(form.alloc, &mut err, paths.1, &right.members, true)?;
    let found = compare(form.alloc, &left.members, &right.members)?;
    let sources = (Source::Library(paths.0), Source::Library(paths.1));
    let mut out = differences(form, sources, &left.members, &right.members, &found)?;
    let status = tell_both_working(form, &mut out, found.verdict, paths, left, right)?;
    Ok(Answer { status, out, err })
}

/// The answer to the call that compares two libraries.
pub fn same(
    form: Form,
    paths: (&str, &str),
    left: &[u8],
    right: &[u8],
) -> Result<Answer, AllocError>
    ensures { IfOk result (λ a. IsSameAnswer form.is_json paths.entry.0.now paths.entry.1.now
        left.now right.now (archive_in left.now) (archive_in right.now) (answer_view a)) }
{
    let first = match library_of(form.alloc, paths.0, left)? {
        Ok(first) => first,
        Err(answer) => return Ok(answer),
    };
    let second = match library_of(form.alloc, paths.1, right)? {
        Ok(second) => second,
        Err(answer) => return Ok(answer),
    };
    same_read(form, paths, &first, &second)
}
