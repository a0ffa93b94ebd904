//! Whether two libraries mean the same.

ghost use Rattle.std.specs.Prelude.{◌≡◌, ◌||◌, map, IfOk};
ghost use Rattle.implib_compare.specs.Comparison.{Means, differing, has_other, has_unread};
ghost use Rattle.implib_compare.specs.Comparison.{is_other, is_some_set, is_unread, verdict};
ghost use Rattle.implib_compare.specs.Comparison.{verdict_of};
ghost use Rattle.implib_compare.specs.Facts.{both_tell};
ghost use Rattle.implib_read.specs.ClassViews.{class_view, member_read_view};

use crate::keys::{both_tell, keys_of};
use crate::partners::lack_partners;
use implib_read::{MemberClass, MemberRead};
use std::alloc::{AllocError, Global};

/// What a comparison of two libraries finds.
#[derive(Clone, Copy, Debug, PartialEq, Eq)]
pub enum Verdict {
    /// The same imports and aliases, in any order.
    Same,
    /// An import or an alias is in one library alone.
    Different,
    /// A member was not understood, or is another object.
    NotDecided,
}

/// Of each member of two libraries whether it differs, and the verdict.
#[derive(Drop)]
pub struct Comparison {
    /// Of each member of the first library, in order, whether it says what the second lacks.
    pub left: Vec<bool>,
    /// The same of the second library.
    pub right: Vec<bool>,
    pub verdict: Verdict,
}

/// Whether a member may import what is not read.
pub fn is_unread(class: &MemberClass) -> bool
    ensures { result ≡ is_unread (class_view class.now) }
{
    match class {
        MemberClass::DelayImport | MemberClass::NotUnderstood => true,
        _ => false,
    }
}

/// Whether a member is an object that is no part of imports.
pub fn is_other(class: &MemberClass) -> bool
    ensures { result ≡ is_other (class_view class.now) }
{
    match class {
        MemberClass::Other => true,
        _ => false,
    }
}

/// Whether a library has a member that may import what is not read.
pub fn has_unread(members: &[MemberRead]) -> bool
    ensures { result ≡ has_unread (map member_read_view members.now) }
{
    for member in members {
        if is_unread(&member.class) {
            return true;
        }
    }
    false
}

// Whether a library has an object that is no part of imports.
fn has_other(members: &[MemberRead]) -> bool
    ensures { result ≡ has_other (map member_read_view members.now) }
{
    for member in members {
        if is_other(&member.class) {
            return true;
        }
    }
    false
}

// Whether some flag is set.
fn is_some_set(flags: &[bool]) -> bool
    ensures { result ≡ is_some_set flags.now }
{
    for flag in flags {
        if *flag {
            return true;
        }
    }
    false
}

// The verdict, by what was found.
fn verdict_of(unread: bool, different: bool, other: bool) -> Verdict
    ensures { result ≡ verdict_of unread different other }
{
    if unread {
        Verdict::NotDecided
    } else if different {
        Verdict::Different
    } else if other {
        Verdict::NotDecided
    } else {
        Verdict::Same
    }
}

// Whether one of two libraries has a member that may import what is not read.
fn either_unread(left: &[MemberRead], right: &[MemberRead]) -> bool
    ensures { result
        ≡ (has_unread (map member_read_view left.now) || has_unread
        (map member_read_view right.now)) }
{
    has_unread(left) || has_unread(right)
}

// Whether one of two libraries has an object that is no part of imports.
fn either_other(left: &[MemberRead], right: &[MemberRead]) -> bool
    ensures { result
        ≡ (has_other (map member_read_view left.now) || has_other
        (map member_read_view right.now)) }
{
    has_other(left) || has_other(right)
}

// Whether some flag of either is set.
fn either_set(left: &[bool], right: &[bool]) -> bool
    ensures { result ≡ (is_some_set left.now || is_some_set right.now) }
{
    is_some_set(left) || is_some_set(right)
}

// The verdict on two libraries, given which of their members differ.
fn verdict_on(
    left: &[MemberRead],
    right: &[MemberRead],
    left_flags: &[bool],
    right_flags: &[bool],
) -> Verdict
    requires left { left_flags.now
        ≡ differing (both_tell (map member_read_view left.now) (map member_read_view right.now))
        (map member_read_view left.now) (map member_read_view right.now) }
    requires right { right_flags.now
        ≡ differing (both_tell (map member_read_view left.now) (map member_read_view right.now))
        (map member_read_view right.now) (map member_read_view left.now) }
    ensures { result ≡ verdict (map member_read_view left.now) (map member_read_view right.now) }
{
    let unread = either_unread(left, right);
    let different = either_set(left_flags, right_flags);
    verdict_of(unread, different, either_other(left, right))
}

/// Compares the imports and aliases of two libraries, whoever made them. The order of members does
/// not count, and of equal ones those count that have no partner left in the other library.
pub fn compare(
    alloc: Global,
    left: &[MemberRead],
    right: &[MemberRead],
) -> Result<Comparison, AllocError>
    ensures left { IfOk result
        (λ c. c.left.items
        ≡ differing (both_tell (map member_read_view left.now) (map member_read_view right.now))
        (map member_read_view left.now) (map member_read_view right.now)) }
    ensures right { IfOk result
        (λ c. c.right.items
        ≡ differing (both_tell (map member_read_view left.now) (map member_read_view right.now))
        (map member_read_view right.now) (map member_read_view left.now)) }
    ensures verdict { IfOk result
        (λ c. c.verdict
        ≡ verdict (map member_read_view left.now) (map member_read_view right.now)) }
    ensures means { IfOk result
        (λ c. Means c.verdict (map member_read_view left.now) (map member_read_view right.now)) }
{
    let told = both_tell(left, right);
    let left_keys = keys_of(alloc, told, left)?;
    let right_keys = keys_of(alloc, told, right)?;
    let left_flags = lack_partners(alloc, &left_keys, &right_keys)?;
    let right_flags = lack_partners(alloc, &right_keys, &left_keys)?;
    let verdict = verdict_on(left, right, &left_flags, &right_flags);
    Ok(Comparison {
        left: left_flags,
        right: right_flags,
        verdict,
    })
}
