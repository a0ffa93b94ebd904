//! Aliases of exports that the DLL has by their ordinals alone: they ask for the ordinal. It is a
//! rule of what people write, in a text or as exports of their own. A DLL's own exports do not go
//! through it, though a decorated one is an alias too (`_zoo@8 == zoo`): its target is a name that
//! the DLL has, even where an export without a name stands under the same word.

ghost use Rattle.implib.specs.Definition.{definition_view, export_view};
ghost use Rattle.implib_rules.specs.Firsts.{AreFirstWords};
ghost use Rattle.implib_rules.specs.Nameless.{asking, asking_by, nameless, ordinal_asked};
ghost use Rattle.implib_rules.specs.Nameless.{with_ordinals};
ghost use Rattle.implib_rules.specs.Views.{first_given};
ghost use Rattle.std.specs.Prelude.{◌≡◌, IfOk, OnOk, drop, map};

use crate::aliases::has_targets;
use crate::firsts::first_words;
use implib::def::{ModuleDef, ShortExport};
use std::alloc::{AllocError, Global};
use std::collections::HashMap;
use std::slice::Iter;

// Exports, and the first of each word.
#[derive(Drop)]
struct Words<'a> {
    exports: &'a [ShortExport],
    firsts: HashMap<&'a str, usize>,
    ghost are_first: { AreFirstWords firsts (map export_view exports.now) },
}

// The ordinal of an export without a name.
fn nameless(export: &ShortExport) -> Option<u16>
    ensures { result ≡ nameless (export_view export.now) }
{
    if export.no_name {
        Some(export.ordinal)
    } else {
        None
    }
}

// The ordinal that an export asks for by its word after `==`, if that is of an export without a
// name.
fn ordinal_asked(words: &Words<'_>, export: &ShortExport) -> Option<u16>
    ensures { result ≡ ordinal_asked (map export_view words.now.exports.now)
        (export_view export.now) }
{
    if export.alias_target.is_empty() || export.no_name {
        return None;
    }
    let Some(index) = words.firsts.get(export.alias_target.as_str()).copied() else {
        return None;
    };
    match words.exports.get(index) {
        Some(first) => nameless(first),
        None => None,
    }
}

// The ordinals that exports ask for, one by one.
fn ordinals_asked(alloc: Global, exports: &[ShortExport]) -> Result<Vec<Option<u16>>, AllocError>
    ensures { IfOk result (λ ordinals. ordinals.items
        ≡ map (ordinal_asked (map export_view exports.now)) (map export_view exports.now)) }
{
    let firsts = first_words(alloc, exports)?;
    let words = Words { exports, firsts };
    let mut ordinals = Vec::with_capacity(alloc, exports.len())?;
    for export in exports {
        ordinals.push(ordinal_asked(&words, export))?;
    }
    Ok(ordinals)
}

// Makes an export one by ordinal, if the next ordinal is given.
fn ask(alloc: Global, export: &mut ShortExport, left: &mut Iter<'_, Option<u16>>)
    ensures export { export_view export.new
        ≡ asking (first_given left.old.rest.now) (export_view export.old) }
    ensures left { left.new.rest.now ≡ drop 1 left.old.rest.now }
{
    if let Some(Some(ordinal)) = left.next() {
        export.alias_target = String::new(alloc);
        export.no_name = true;
        export.ordinal = *ordinal;
    }
}

// Makes the exports that have an ordinal ones by ordinal.
fn ask_all(alloc: Global, exports: &mut Vec<ShortExport>, ordinals: &[Option<u16>])
    ensures { map export_view exports.new.items
        ≡ asking_by ordinals.now (map export_view exports.old.items) }
{
    let mut left = ordinals.iter();
    for export in exports.iter_mut() {
        ask(alloc, export, &mut left);
    }
}

/// A definition whose aliases of exports without a name ask for the ordinals.
///
/// # Errors
///
/// An allocation failed.
pub fn with_ordinals(alloc: Global, mut def: ModuleDef) -> Result<ModuleDef, AllocError>
    ensures { IfOk result (λ made. definition_view made ≡ with_ordinals (definition_view def)) }
{
    if !has_targets(def.exports.as_slice()) {
        return Ok(def);
    }
    let ordinals = ordinals_asked(alloc, def.exports.as_slice())?;
    ask_all(alloc, &mut def.exports, ordinals.as_slice());
    Ok(def)
}
