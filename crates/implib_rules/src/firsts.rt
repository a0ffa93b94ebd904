//! The first export of each word, of each ordinal, and of each name that the DLL is asked for.

ghost use Rattle.implib.specs.Definition.{export_view};
ghost use Rattle.implib_rules.specs.Firsts.{AreFirstAsking, AreFirstDeclared};
ghost use Rattle.implib_rules.specs.Firsts.{AreFirstOrdinals, AreFirstWords};
ghost use Rattle.implib_rules.specs.Linked.{naming_view};
ghost use Rattle.std.specs.HashMap.{get, get_by};
ghost use Rattle.std.specs.Option.{option_or};
ghost use Rattle.std.specs.Prelude.{◌≡◌, ℕ, IfOk, List, None, OnOk, Some, if◌then◌else◌, map};
ghost use Rattle.std.specs.Prelude.{nat_eq};
ghost use Rattle.std.specs.Str.{bytes_eq};

use crate::linked::{Naming, asked_of, is_named_import, word_of};
use implib::MachineType;
use implib::def::ShortExport;
use std::alloc::{AllocError, Global};
use std::collections::HashMap;

// Notes the index of a word, unless the word is there.
fn note_word<'a>(
    firsts: &mut HashMap<&'a str, usize>,
    word: &'a str,
    index: usize,
) -> Result<(), AllocError>
    ensures { OnOk result ((other : List ℕ) → get_by (λ k. bytes_eq other k.now) firsts.new
        ≡ option_or (get_by (λ k. bytes_eq other k.now) firsts.old)
        (if bytes_eq other word.now then Some index else None)) }
{
    if firsts.contains_key(word) {
        return Ok(());
    }
    firsts.insert(word, index)?;
    Ok(())
}

// Notes the index of an ordinal, unless the ordinal is there.
fn note_ordinal(
    firsts: &mut HashMap<u16, usize>,
    ordinal: u16,
    index: usize,
) -> Result<(), AllocError>
    ensures { OnOk result ((other : ℕ) → get nat_eq firsts.new other
        ≡ option_or (get nat_eq firsts.old other)
        (if nat_eq other ordinal then Some index else None)) }
{
    if firsts.contains_key(&ordinal) {
        return Ok(());
    }
    firsts.insert(ordinal, index)?;
    Ok(())
}

/// The index of the first export of each word.
///
/// # Errors
///
/// An allocation failed.
pub fn first_words<'a>(
    alloc: Global,
    exports: &'a [ShortExport],
) -> Result<HashMap<&'a str, usize>, AllocError>
    ensures { IfOk result (λ firsts. AreFirstWords firsts (map export_view exports.now)) }
{
    let mut firsts = HashMap::new(alloc);
    for (index, export) in exports.iter().enumerate() {
        note_word(&mut firsts, word_of(export), index)?;
    }
    Ok(firsts)
}

/// The index of the first export of each word that is not private: of the one that declares it.
///
/// # Errors
///
/// An allocation failed.
pub fn first_declared<'a>(
    alloc: Global,
    exports: &'a [ShortExport],
) -> Result<HashMap<&'a str, usize>, AllocError>
    ensures { IfOk result (λ firsts. AreFirstDeclared firsts (map export_view exports.now)) }
{
    let mut firsts = HashMap::new(alloc);
    for (index, export) in exports.iter().enumerate() {
        if !export.private {
            note_word(&mut firsts, word_of(export), index)?;
        }
    }
    Ok(firsts)
}

/// The index of the first export of each name that the DLL is asked for, of those that Microsoft's
/// linker imports by name.
///
/// # Errors
///
/// An allocation failed.
pub fn first_asking<'a>(
    alloc: Global,
    machine: MachineType,
    naming: Naming,
    exports: &'a [ShortExport],
) -> Result<HashMap<&'a str, usize>, AllocError>
    ensures { IfOk result (λ firsts.
        AreFirstAsking machine (naming_view naming) firsts (map export_view exports.now)) }
{
    let mut firsts = HashMap::new(alloc);
    for (index, export) in exports.iter().enumerate() {
        if is_named_import(alloc, machine, naming, export)? {
            let target = export.alias_target.as_str();
            let asked = asked_of(machine, naming, word_of(export), target);
            note_word(&mut firsts, asked, index)?;
        }
    }
    Ok(firsts)
}

/// The index of the first export of each ordinal, and of 0 where none is given.
///
/// # Errors
///
/// An allocation failed.
pub fn first_ordinals(
    alloc: Global,
    exports: &[ShortExport],
) -> Result<HashMap<u16, usize>, AllocError>
    ensures { IfOk result (λ firsts. AreFirstOrdinals firsts (map export_view exports.now)) }
{
    let mut firsts = HashMap::new(alloc);
    for (index, export) in exports.iter().enumerate() {
        note_ordinal(&mut firsts, export.ordinal, index)?;
    }
    Ok(firsts)
}
