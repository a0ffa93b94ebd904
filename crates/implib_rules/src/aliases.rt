//! The imports that the aliases of a definition lead to.

ghost use Rattle.implib.specs.Definition.{export_view};
ghost use Rattle.implib.specs.declared.flavor.Flavor.TheVariants.{Msvc};
ghost use Rattle.implib_rules.specs.Firsts.{AreFirstAsking, AreFirstDeclared};
ghost use Rattle.implib_rules.specs.Linked.{alias_symbol, has_target, is_among};
ghost use Rattle.implib_rules.specs.Linked.{is_declared, own_symbol};
ghost use Rattle.implib_rules.specs.Linked.{linked_exports, naming_view, new_target};
ghost use Rattle.implib_rules.specs.Linked.{symbol_asking, target_import, target_symbol};
ghost use Rattle.implib_rules.specs.Linked.{targets_added, with_symbol, with_target};
ghost use Rattle.implib_rules.specs.Views.{AreLinks};
ghost use Rattle.std.specs.List.{list_any};
ghost use Rattle.std.specs.Prelude.{◌≡◌, ◌++◌, IfOk, OnOk, map, not, option_map};
ghost use Rattle.std.specs.String.{string_bytes};

use crate::firsts::{first_asking, first_declared};
use crate::linked::{Naming, is_apart, link_exports, symbol_linked};
use implib::def::ShortExport;
use implib::{Flavor, MachineType};
use indexmap::IndexSet;
use std::alloc::{AllocError, Global};
use std::collections::HashMap;

// How words are looked up among exports.
#[derive(Drop)]
struct Lookups<'a> {
    machine: MachineType,
    naming: Naming,
    exports: &'a [ShortExport],
    // The first import by name that asks for each word.
    asking: HashMap<&'a str, usize>,
    // The export that declares each word.
    declared: HashMap<&'a str, usize>,
    ghost are_asking: { AreFirstAsking machine (naming_view naming) asking
        (map export_view exports.now) },
    ghost are_declared: { AreFirstDeclared declared (map export_view exports.now) },
}

// The symbol of the first import by name that asks for a word.
fn symbol_asking(
    alloc: Global,
    lookups: &Lookups<'_>,
    word: &str,
) -> Result<Option<String>, AllocError>
    ensures { IfOk result (λ symbol. option_map string_bytes symbol
        ≡ symbol_asking lookups.now.machine (naming_view lookups.now.naming)
        (map export_view lookups.now.exports.now) word.now) }
{
    let Some(index) = lookups.asking.get(word).copied() else {
        return Ok(None);
    };
    match lookups.exports.get(index) {
        Some(export) => Ok(Some(symbol_linked(alloc, lookups.machine, lookups.naming, export)?)),
        None => Ok(None),
    }
}

// The symbol of the import that an alias leads to.
fn own_symbol(alloc: Global, export: &ShortExport) -> Result<String, AllocError>
    ensures { IfOk result (λ symbol. string_bytes symbol ≡ own_symbol (export_view export.now)) }
{
    let has_code = !export.is_data && !export.constant;
    let mut symbol = String::new(alloc);
    symbol.push(if has_code { '?' } else { '@' })?;
    symbol.push_str(export.alias_target.as_str())?;
    Ok(symbol)
}

// Whether an export declares a word.
fn is_declared(lookups: &Lookups<'_>, word: &str) -> bool
    ensures { result ≡ is_declared (map export_view lookups.now.exports.now) word.now }
{
    lookups.declared.contains_key(word)
}

// The symbol by which the DLL is asked for the word after an alias's `==`, if there is one.
fn target_symbol(
    alloc: Global,
    lookups: &Lookups<'_>,
    export: &ShortExport,
) -> Result<Option<String>, AllocError>
    ensures { IfOk result (λ symbol. option_map string_bytes symbol
        ≡ target_symbol lookups.now.machine (naming_view lookups.now.naming)
        (map export_view lookups.now.exports.now) (export_view export.now)) }
{
    if lookups.naming.exports_as {
        return symbol_asking(alloc, lookups, export.alias_target.as_str());
    }
    let symbol = own_symbol(alloc, export)?;
    if is_declared(lookups, symbol.as_str()) {
        return Ok(None);
    }
    Ok(Some(symbol))
}

// The symbol that an export is weak for in Microsoft's flavour, if it is an alias.
fn alias_symbol(
    alloc: Global,
    lookups: &Lookups<'_>,
    export: &ShortExport,
) -> Result<Option<String>, AllocError>
    ensures { IfOk result (λ symbol. option_map string_bytes symbol
        ≡ alias_symbol lookups.now.machine (naming_view lookups.now.naming) Msvc
        (map export_view lookups.now.exports.now) (export_view export.now)) }
{
    if !is_apart(alloc, lookups.machine, lookups.naming, export)? {
        return Ok(None);
    }
    target_symbol(alloc, lookups, export)
}

// The symbols that the exports are weak for in Microsoft's flavour, one by one.
fn alias_symbols(alloc: Global, lookups: &Lookups<'_>) -> Result<Vec<Option<String>>, AllocError>
    ensures { IfOk result (λ symbols. map (option_map string_bytes) symbols.items
        ≡ map (alias_symbol lookups.now.machine (naming_view lookups.now.naming) Msvc
        (map export_view lookups.now.exports.now)) (map export_view lookups.now.exports.now)) }
{
    let exports = lookups.exports;
    let mut symbols = Vec::with_capacity(alloc, exports.len())?;
    for export in exports {
        symbols.push(alias_symbol(alloc, lookups, export)?)?;
    }
    Ok(symbols)
}

// The import that an alias leads to.
fn target_import(alloc: Global, export: &ShortExport) -> Result<ShortExport, AllocError>
    ensures { IfOk result (λ target. export_view target ≡ target_import (export_view export.now)) }
{
    let mut target = ShortExport::empty(alloc);
    target.name = own_symbol(alloc, export)?;
    target.asked_name = Some(export.alias_target.clone()?);
    target.is_data = export.is_data;
    target.constant = export.constant;
    Ok(target)
}

// Adds a symbol unless it is there; whether it was not.
fn insert_symbol(symbols: &mut IndexSet<String>, symbol: String) -> Result<bool, AllocError>
    ensures new { IfOk result (λ is_new. is_new
        ≡ not (is_among (map string_bytes symbols.old.keys) (string_bytes symbol))) }
    ensures symbols { OnOk result (map string_bytes symbols.new.keys
        ≡ with_symbol (map string_bytes symbols.old.keys) (string_bytes symbol)) }
{
    Ok(symbols.insert(symbol)?)
}

// Adds the import of an alias, if it is to be added and its symbol is not there.
fn push_target(
    alloc: Global,
    lookups: &Lookups<'_>,
    export: &ShortExport,
    symbols: &mut IndexSet<String>,
    targets: &mut Vec<ShortExport>,
) -> Result<(), AllocError>
    ensures symbols { OnOk result (map string_bytes symbols.new.keys
        ≡ with_target lookups.now.machine (naming_view lookups.now.naming)
        (map export_view lookups.now.exports.now) (map string_bytes symbols.old.keys)
        (export_view export.now)) }
    ensures targets { OnOk result (map export_view targets.new.items
        ≡ map export_view targets.old.items
        ++ new_target lookups.now.machine (naming_view lookups.now.naming)
        (map export_view lookups.now.exports.now) (map string_bytes symbols.old.keys)
        (export_view export.now)) }
{
    let naming = lookups.naming;
    if naming.exports_as || !is_apart(alloc, lookups.machine, naming, export)? {
        return Ok(());
    }
    let symbol = own_symbol(alloc, export)?;
    if !is_declared(lookups, symbol.as_str()) && insert_symbol(symbols, symbol)? {
        targets.push(target_import(alloc, export)?)?;
    }
    Ok(())
}

// The imports that aliases add in Microsoft's flavour, in the order of their first use.
fn msvc_targets(alloc: Global, lookups: &Lookups<'_>) -> Result<Vec<ShortExport>, AllocError>
    ensures { IfOk result (λ targets. map export_view targets.items
        ≡ targets_added lookups.now.machine (naming_view lookups.now.naming) Msvc
        (map export_view lookups.now.exports.now)) }
{
    let mut symbols = IndexSet::new(alloc);
    let mut targets = Vec::new(alloc);
    let exports = lookups.exports;
    for export in exports {
        push_target(alloc, lookups, export, &mut symbols, &mut targets)?;
    }
    Ok(targets)
}

/// Whether an export has a word after `==`.
pub(crate) fn has_targets(exports: &[ShortExport]) -> bool
    ensures { result ≡ list_any has_target (map export_view exports.now) }
{
    for export in exports {
        if !export.alias_target.is_empty() {
            return true;
        }
    }
    false
}

// How the exports of a definition are linked: the symbols that they are weak for, one by one, or
// none where no export is an alias; and the imports that aliases add.
#[derive(Drop)]
struct Links {
    symbols: Vec<Option<String>>,
    added: Vec<ShortExport>,
}

// How exports are linked in Microsoft's flavour. Without a word after `==` no symbol is made.
fn msvc_links(
    alloc: Global,
    machine: MachineType,
    naming: Naming,
    exports: &[ShortExport],
) -> Result<Links, AllocError>
    ensures { IfOk result (λ links. AreLinks machine (naming_view naming) Msvc
        (map export_view exports.now) (map (option_map string_bytes) links.symbols.items)
        (map export_view links.added.items)) }
{
    if !has_targets(exports) {
        return Ok(Links {
            symbols: Vec::new(alloc),
            added: Vec::new(alloc),
        });
    }
    let asking = first_asking(alloc, machine, naming, exports)?;
    let declared = first_declared(alloc, exports)?;
    let lookups = Lookups {
        machine,
        naming,
        exports,
        asking,
        declared,
    };
    let symbols = alias_symbols(alloc, &lookups)?;
    let added = msvc_targets(alloc, &lookups)?;
    Ok(Links { symbols, added })
}

// How exports are linked in a flavour. For GNU's linker none is an alias.
fn links_of(
    alloc: Global,
    machine: MachineType,
    naming: Naming,
    flavor: Flavor,
    exports: &[ShortExport],
) -> Result<Links, AllocError>
    ensures { IfOk result (λ links. AreLinks machine (naming_view naming) flavor
        (map export_view exports.now) (map (option_map string_bytes) links.symbols.items)
        (map export_view links.added.items)) }
{
    match flavor {
        Flavor::Msvc => msvc_links(alloc, machine, naming, exports),
        Flavor::Gnu => Ok(Links {
            symbols: Vec::new(alloc),
            added: Vec::new(alloc),
        }),
    }
}

/// Gives each export its symbol, and what it asks the DLL for or is weak for, and adds the targets
/// of aliases that are no exports, after all others.
///
/// # Errors
///
/// An allocation failed; then some exports may be as they were.
pub fn link_with_targets(
    alloc: Global,
    machine: MachineType,
    naming: Naming,
    flavor: Flavor,
    exports: &mut Vec<ShortExport>,
) -> Result<(), AllocError>
    ensures { OnOk result (map export_view exports.new.items
        ≡ linked_exports machine (naming_view naming) flavor
        (map export_view exports.old.items)) }
{
    let links = links_of(alloc, machine, naming, flavor, exports.as_slice())?;
    let Links { symbols, mut added } = links;
    link_exports(alloc, machine, naming, symbols.as_slice(), exports)?;
    exports.append(&mut added)?;
    Ok(())
}
