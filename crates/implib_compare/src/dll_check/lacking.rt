//! What a DLL exports and no import asks for.

ghost use Rattle.implib_dll.specs.Views.{exports_view};
ghost use Rattle.implib_compare.specs.DllCheck.Missing.{is_index, is_reached, is_unmarked, missing};
ghost use Rattle.implib_compare.specs.DllCheck.Verdict.{ask_view};
ghost use Rattle.implib_libraries.specs.FromDll.Laws.{index_found};
ghost use Rattle.std.specs.Prelude.{◌≡◌, ℕ, ◌||◌, ◌<◌, false, get_or, IfOk, length, map};

use crate::dll_check::verdict::Ask;
use implib_dll::Exports;
use std::alloc::{AllocError, Global};

// The index of the export address table that a loader comes to for an ask.
fn index_found(exports: &Exports<'_>, ask: Ask<'_>) -> Option<usize>
    ensures { result ≡ index_found (exports_view exports.now) (ask_view ask.entry) }
{
    match ask {
        Ask::Name(name, hint) => match exports.position_of(name, hint) {
            Some(position) => Some(exports.names[position].index as usize),
            None => None,
        },
        Ask::Ordinal(ordinal) => Some((ordinal as u32).wrapping_sub(exports.base) as usize),
    }
}

// Marks an index, if it is one of these.
fn mark(reached: &mut Vec<bool>, found: Option<usize>)
    ensures size { length reached.new.items ≡ length reached.old.items }
    ensures marked { (k : ℕ) → k < length reached.old.items → get_or reached.new.items k false
        ≡ (get_or reached.old.items k false || is_index k found) }
{
    if let Some(index) = found {
        if index < reached.len() {
            reached[index] = true;
        }
    }
}

// Marks of the indexes that a loader comes to for one of these asks.
fn reached_by(
    alloc: Global,
    exports: &Exports<'_>,
    asks: &[Ask<'_>],
) -> Result<Vec<bool>, AllocError>
    ensures size { IfOk result
        (λ reached. length reached.items ≡ length exports.now.targets.items) }
    ensures marked { IfOk result (λ reached. (k : ℕ) → k < length reached.items →
        get_or reached.items k false
        ≡ is_reached (exports_view exports.now) (map ask_view asks.now) k) }
{
    let mut reached = vec![in alloc; false; exports.targets.len()]?;
    for ask in asks {
        mark(&mut reached, index_found(exports, *ask));
    }
    Ok(reached)
}

// Whether there is a target at an index that is not marked.
fn is_missing(exports: &Exports<'_>, reached: &[bool], index: usize) -> bool
    requires { index < length reached.now }
    ensures { result ≡ is_unmarked (exports_view exports.now) (get_or reached.now index false)
        index }
{
    exports.target_at(index).is_some() && !reached[index]
}

/// The indexes of the export address table that have a target and that a loader comes to for none
/// of these asks, in order. Time and memory are linear in the exports and, but for the searches of
/// asks whose hints are wrong, in the asks.
pub fn missing(
    alloc: Global,
    exports: &Exports<'_>,
    asks: &[Ask<'_>],
) -> Result<Vec<usize>, AllocError>
    ensures { IfOk result (λ found. found.items
        ≡ missing (exports_view exports.now) (map ask_view asks.now)) }
{
    let reached = reached_by(alloc, exports, asks)?;
    let mut found = Vec::new(alloc);
    for index in 0..exports.targets.len() {
        if is_missing(exports, &reached, index) {
            found.push(index)?;
        }
    }
    Ok(found)
}
