//! The definition of a case, and its members.

use crate::lines::{Case, Line, text_of, unescaped};
use implib::def::{ModuleDef, ShortExport};
use implib::{Error, Fault, Flavor, ImportLibrary, MachineType, Member};
use std::alloc::Global;
use std::test::Fail;

/// The members of a case's definition, or why there are none.
pub fn members_of(
    alloc: Global,
    case: &Case,
    machine: MachineType,
    flavor: Flavor,
) -> Result<Result<Vec<Member>, Fault>, Fail> {
    let made = match library_of(alloc, case, machine, flavor)? {
        Ok(library) => library.members(),
        Err(error) => Err(error),
    };
    match made {
        Ok(members) => Ok(Ok(members)),
        Err(Error::Invalid(fault)) => Ok(Err(fault)),
        Err(refused) => Err(Fail::from(refused)),
    }
}

/// The library of the text, or of the definition by hand where there is no text.
pub fn library_of(
    alloc: Global,
    case: &Case,
    machine: MachineType,
    flavor: Flavor,
) -> Result<Result<ImportLibrary, Error>, Fail> {
    match text_of(alloc, case.lines.as_slice())? {
        Some(text) => Ok(ImportLibrary::new(alloc, text.as_str(), machine, flavor)),
        None => {
            let def = definition_of(alloc, case.lines.as_slice())?;
            Ok(Ok(ImportLibrary::from_def(def, machine, flavor)))
        }
    }
}

/// The definition by hand.
fn definition_of(alloc: Global, lines: &[Line]) -> Result<ModuleDef, Fail> {
    let mut def = ModuleDef::empty(alloc);
    for line in lines {
        match line.word {
            "dll" => def.import_name = unescaped(alloc, line.rest)?,
            "export" => {
                let mut export = ShortExport::empty(alloc);
                export.name = unescaped(alloc, line.rest)?;
                def.exports.push(export)?;
            }
            _ => {
                if let Some(export) = def.exports.last_mut() {
                    set(alloc, export, line)?;
                }
            }
        }
    }
    Ok(def)
}

/// Sets what a line says of an export.
fn set(alloc: Global, export: &mut ShortExport, line: &Line) -> Result<(), Fail> {
    match line.word {
        "ordinal" => export.ordinal = line.rest.parse()?,
        "noname" => export.no_name = true,
        "private" => export.private = true,
        "outside" | "symbol" | "asked" | "alias" => {
            set_name(export, line.word, unescaped(alloc, line.rest)?);
        }
        _ => {}
    }
    Ok(())
}

/// Sets one of an export's names.
fn set_name(export: &mut ShortExport, word: &str, name: String) {
    match word {
        "outside" => export.ext_name = Some(name),
        "symbol" => export.symbol_name = name,
        "asked" => export.asked_name = Some(name),
        _ => export.alias_target = name,
    }
}
