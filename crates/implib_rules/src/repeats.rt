//! The exports of a word that an export before them declares: they are left out.

ghost use Rattle.implib.specs.Definition.{export_view};
ghost use Rattle.implib_rules.specs.Linked.{word_of};
ghost use Rattle.implib_rules.specs.Repeats.{left_out, left_out_by, repeats_behind};
ghost use Rattle.implib_rules.specs.Repeats.{without_repeated};
ghost use Rattle.implib_rules.specs.Views.{comes_before, has_word, rise_from};
ghost use Rattle.std.specs.Prelude.{◌≡◌, ◌&&◌, ◌||◌, ℕ, [], IfOk, List, OnOk, drop, map, not};
ghost use Rattle.std.specs.Str.{bytes_eq};

use crate::linked::word_of;
use implib::def::ShortExport;
use std::alloc::{AllocError, Global};
use std::collections::HashSet;
use std::slice::Iter;

// Whether a word comes before another, byte by byte.
fn comes_before(word: &str, next: &str) -> bool
    ensures { result ≡ comes_before word.now next.now }
{
    word < next
}

// Whether each word comes before the next one, so that none is there twice. A first word that is
// empty does not.
fn words_rise(exports: &[ShortExport]) -> bool
    ensures { result ≡ rise_from [] (map export_view exports.now) }
{
    let mut last = "";
    for export in exports {
        let word = word_of(export);
        if !comes_before(last, word) {
            return false;
        }
        last = word;
    }
    true
}

// Whether an export repeats a word that is declared; if it does not, and is not private, it
// declares its word.
fn repeats<'a>(declared: &mut HashSet<&'a str>, export: &'a ShortExport) -> Result<bool, AllocError>
    ensures repeats { IfOk result (λ is. is ≡ (not export.now.private
        && has_word declared.old (word_of (export_view export.now)))) }
    ensures declared { OnOk result ((word : List ℕ) → has_word declared.new word
        ≡ (has_word declared.old word || (not export.now.private
        && bytes_eq word (word_of (export_view export.now))))) }
{
    if export.private {
        return Ok(false);
    }
    let is_new = declared.insert(word_of(export))?;
    Ok(!is_new)
}

// Whether each export repeats the word of one before it.
fn repeats_in(alloc: Global, exports: &[ShortExport]) -> Result<Vec<bool>, AllocError>
    ensures { IfOk result (λ flags. flags.items ≡ repeats_behind [] (map export_view exports.now)) }
{
    let mut declared = HashSet::with_capacity(alloc, exports.len())?;
    let mut flags = Vec::with_capacity(alloc, exports.len())?;
    for export in exports {
        flags.push(repeats(&mut declared, export)?)?;
    }
    Ok(flags)
}

// Makes an export private, if the next flag is set.
fn leave_out_by(export: &mut ShortExport, left: &mut Iter<'_, bool>)
    ensures export { export_view export.new ≡ left_out_by left.old.rest.now
        (export_view export.old) }
    ensures left { left.new.rest.now ≡ drop 1 left.old.rest.now }
{
    if let Some(flag) = left.next() {
        export.private = export.private || *flag;
    }
}

// Makes the exports private that have a flag.
fn leave_out(exports: &mut Vec<ShortExport>, flags: &[bool])
    ensures { map export_view exports.new.items
        ≡ left_out flags.now (map export_view exports.old.items) }
{
    let mut left = flags.iter();
    for export in exports.iter_mut() {
        leave_out_by(export, &mut left);
    }
}

/// Makes the exports private whose word one before them declares, so that the first of a word
/// stays.
///
/// # Errors
///
/// An allocation failed; then the exports are as they were.
#[tactic(auto, unfolding(crate::specs::Repeats::without_repeated))]
pub fn leave_out_repeats(alloc: Global, exports: &mut Vec<ShortExport>) -> Result<(), AllocError>
    ensures ok { OnOk result (map export_view exports.new.items
        ≡ without_repeated (map export_view exports.old.items)) }
{
    // Definitions that tools write are mostly sorted.
    if words_rise(exports.as_slice()) {
        return Ok(());
    }
    let flags = repeats_in(alloc, exports.as_slice())?;
    if flags.contains(&true) {
        leave_out(exports, flags.as_slice());
    }
    Ok(())
}
