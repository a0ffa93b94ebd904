//! What a program asks of the DLLs that it imports from.

ghost use Rattle.implib_dll.specs.Views.{ask_view as asked_view, exports_view, imported_view};
ghost use Rattle.implib_compare.specs.DllCheck.Imports.{is_lost as IsLost};
ghost use Rattle.implib_compare.specs.DllCheck.Programs.{asked_by, finds_all, is_asked, judged_ask};
ghost use Rattle.implib_compare.specs.DllCheck.Verdict.{ask_view};
ghost use Rattle.std.specs.List.{list_any};
ghost use Rattle.std.specs.Prelude.{◌≡◌, map};

use crate::dll_check::import::{Judgement, judged_by};
use crate::dll_check::verdict::{Ask, judge};
use implib_dll::{Exports, ImportedDll};

// An ask of an import directory, as libraries ask.
fn asked_by<'a>(ask: implib_dll::Ask<'a>) -> Ask<'a>
    ensures { ask_view result ≡ asked_by (asked_view ask.entry) }
{
    match ask {
        implib_dll::Ask::Name { text, hint } => Ask::Name(text, hint),
        implib_dll::Ask::Ordinal(ordinal) => Ask::Ordinal(ordinal),
    }
}

/// What an ask of an import directory comes to in a DLL: a loader finds it at once, by a search, or
/// not at all. That directory does not say whether it is of data.
pub fn judge_ask(exports: &Exports<'_>, ask: implib_dll::Ask<'_>) -> Judgement
    ensures { result ≡ judged_ask (exports_view exports.now) (asked_view ask.entry) }
{
    judged_by(&judge(exports, asked_by(ask), true))
}

/// Whether a program asks for anything of a DLL that it imports from: a loader leaves out one of
/// which it does not.
pub fn is_asked(imported: &ImportedDll<'_>) -> bool
    ensures { result ≡ is_asked (imported_view imported.now) }
{
    !imported.asks.is_empty()
}

// Whether an ask is lost in a DLL.
fn loses(exports: &Exports<'_>, ask: implib_dll::Ask<'_>) -> bool
    ensures { result ≡ IsLost (judged_ask (exports_view exports.now) (asked_view ask.entry)) }
{
    judge_ask(exports, ask).is_lost()
}

// Whether one of some asks is lost in a DLL.
fn loses_any(exports: &Exports<'_>, asks: &[implib_dll::Ask<'_>]) -> bool
    ensures { result ≡ list_any (λ ask. IsLost (judged_ask (exports_view exports.now) ask))
        (map asked_view asks.now) }
{
    for ask in asks {
        if loses(exports, *ask) {
            return true;
        }
    }
    false
}

/// Whether a loader finds in a DLL all that a program for a machine asks it for.
pub fn finds_all(exports: &Exports<'_>, machine: u16, asks: &[implib_dll::Ask<'_>]) -> bool
    ensures { result ≡ finds_all (exports_view exports.now) machine (map asked_view asks.now) }
{
    machine == exports.machine && !loses_any(exports, asks)
}
