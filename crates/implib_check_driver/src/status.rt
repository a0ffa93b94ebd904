//! Exit statuses.

ghost use Rattle.std.specs.Prelude.{◌≡◌};
ghost use Rattle.implib_check_driver.specs.Status.{comparison_status, identity_status, list_status};
ghost use Rattle.implib_check_driver.specs.Status.{together_status, verdict_status};

use implib_compare::compare::Verdict;
use implib_compare::working::{Working, working_status};

/// The exit status of a comparison.
pub fn verdict_status(verdict: Verdict) -> u8
    ensures { result ≡ verdict_status verdict }
{
    match verdict {
        Verdict::Same => 0,
        Verdict::Different => 1,
        Verdict::NotDecided => 4,
    }
}

/// The exit status of a comparison of libraries that have to work: where they are the same, whether
/// they work.
pub fn comparison_status(verdict: Verdict, working: Working) -> u8
    ensures { result ≡ comparison_status verdict working }
{
    match verdict {
        Verdict::Same => working_status(working),
        Verdict::Different | Verdict::NotDecided => verdict_status(verdict),
    }
}

/// The exit status of a list, given whether a member may import what is not read.
pub fn list_status(unread: bool) -> u8
    ensures { result ≡ list_status unread }
{
    if unread { 4 } else { 0 }
}

/// The exit status of the names of a number of DLLs, where one alone is asked for or any number.
pub fn identity_status(unread: bool, count: usize, is_strict: bool) -> u8
    ensures { result ≡ identity_status unread count is_strict }
{
    if unread {
        4
    } else if count == 0 || (is_strict && count != 1) {
        1
    } else {
        0
    }
}

/// The exit status of libraries in one link, given whether a member may import what is not read,
/// and whether two clash.
pub fn together_status(unread: bool, clash: bool) -> u8
    ensures { result ≡ together_status unread clash }
{
    if unread {
        4
    } else if clash {
        1
    } else {
        0
    }
}
