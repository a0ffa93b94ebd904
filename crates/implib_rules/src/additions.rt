//! What options add to the exports of a definition.

ghost use Rattle.implib.specs.Definition.{export_view};
ghost use Rattle.implib_rules.specs.Additions.{additions_view, all_prefixed, extended_exports};
ghost use Rattle.implib_rules.specs.Additions.{no_additions};
ghost use Rattle.implib_rules.specs.Additions.{gets_one, prefixed, underscored};
ghost use Rattle.implib_rules.specs.Linked.{naming_view};
ghost use Rattle.std.specs.Prelude.{◌≡◌, IfOk, OnOk, Some, map};

use crate::linked::{Naming, asked_of, has_at_sign, symbol_linked, word_asked, word_of};
use implib::MachineType;
use implib::def::ShortExport;
use std::alloc::{AllocError, Global};

/// What is added to the exports of a definition.
#[derive(Clone, Copy, Debug)]
pub struct Additions<'a> {
    /// A further export of each is named with this in front (`-p`).
    pub prefix: Option<&'a str>,
    /// Each name that the DLL is asked for gets an underscore in front (`-U`).
    pub underscore: bool,
    /// Each with an `@` in it gets one (`--add-stdcall-underscore`).
    pub stdcall_underscore: bool,
}

impl<'a> Additions<'a> {
    /// Nothing is added.
    pub fn none() -> Additions<'a>
        ensures { additions_view result ≡ no_additions }
    {
        Additions {
            prefix: None,
            underscore: false,
            stdcall_underscore: false,
        }
    }
}

// Whether the name asked for a word gets an underscore.
fn gets_one(additions: &Additions, word: &[u8]) -> bool
    ensures { result ≡ gets_one (additions_view additions.now) word.now }
{
    word.first() != Some(&b'@')
        && (additions.underscore || (additions.stdcall_underscore && has_at_sign(word)))
}

// Gives an export of a word that gets an underscore the word that it asks for then.
fn underscore(
    alloc: Global,
    machine: MachineType,
    naming: Naming,
    additions: &Additions,
    export: &mut ShortExport,
) -> Result<(), AllocError>
    ensures { OnOk result (export_view export.new ≡ underscored machine (naming_view naming)
        (additions_view additions.now) (export_view export.old)) }
{
    if !export.alias_target.is_empty() || !gets_one(additions, word_of(export).as_bytes()) {
        return Ok(());
    }
    let mut asked = String::from_str(alloc, "_")?;
    asked.push_str(word_asked(machine, naming, word_of(export)))?;
    export.alias_target = asked;
    Ok(())
}

fn underscore_exports(
    alloc: Global,
    machine: MachineType,
    naming: Naming,
    additions: &Additions,
    exports: &mut Vec<ShortExport>,
) -> Result<(), AllocError>
    ensures { OnOk result (map export_view exports.new.items
        ≡ map (underscored machine (naming_view naming) (additions_view additions.now))
        (map export_view exports.old.items)) }
{
    for export in exports.iter_mut() {
        underscore(alloc, machine, naming, additions, export)?;
    }
    Ok(())
}

// The further export of one.
fn prefixed(
    alloc: Global,
    machine: MachineType,
    naming: Naming,
    prefix: &str,
    export: &ShortExport,
) -> Result<ShortExport, AllocError>
    ensures { IfOk result (λ further. export_view further
        ≡ prefixed machine (naming_view naming) prefix.now (export_view export.now)) }
{
    let mut name = String::from_str(alloc, prefix)?;
    let symbol = symbol_linked(alloc, machine, naming, export)?;
    name.push_str(symbol.as_str())?;
    let target = export.alias_target.as_str();
    let asked = asked_of(machine, naming, word_of(export), target);
    let mut further = ShortExport::empty(alloc);
    further.alias_target = String::from_str(alloc, asked)?;
    further.name = name;
    further.ordinal = export.ordinal;
    further.no_name = export.no_name;
    further.is_data = export.is_data;
    further.constant = export.constant;
    Ok(further)
}

fn all_prefixed(
    alloc: Global,
    machine: MachineType,
    naming: Naming,
    prefix: &str,
    exports: &[ShortExport],
) -> Result<Vec<ShortExport>, AllocError>
    ensures { IfOk result (λ further. map export_view further.items
        ≡ all_prefixed machine (naming_view naming) (Some prefix.now)
        (map export_view exports.now)) }
{
    let mut further = Vec::new(alloc);
    for export in exports {
        if !export.private {
            further.push(prefixed(alloc, machine, naming, prefix, export)?)?;
        }
    }
    Ok(further)
}

/// Gives each export what is added to it, and adds the further exports after all others.
///
/// # Errors
///
/// An allocation failed; then some exports may be as they were.
pub fn extend_exports(
    alloc: Global,
    machine: MachineType,
    naming: Naming,
    additions: &Additions,
    exports: &mut Vec<ShortExport>,
) -> Result<(), AllocError>
    ensures { OnOk result (map export_view exports.new.items
        ≡ extended_exports machine (naming_view naming) (additions_view additions.now)
        (map export_view exports.old.items)) }
{
    underscore_exports(alloc, machine, naming, additions, exports)?;
    if let Some(prefix) = additions.prefix {
        let mut further = all_prefixed(alloc, machine, naming, prefix, exports.as_slice())?;
        exports.append(&mut further)?;
    }
    Ok(())
}
