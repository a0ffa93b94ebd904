//! From exports that are given without a text to the members of their library.

ghost use Rattle.implib.specs.Definition.{definition_view, export_view};
ghost use Rattle.implib_rules.specs.Exports.{DefinitionOfExports, IsRefusalOfDefinition};
ghost use Rattle.implib_rules.specs.Exports.{IsRefusalOfExports, MembersOfExports};
ghost use Rattle.implib_rules.specs.Options.{library_options_view};
ghost use Rattle.std.specs.Prelude.{IfErr, IfOk, map};

use crate::library::{by_rules, members_in_order};
use crate::members::LibraryMembers;
use crate::options::LibraryOptions;
use implib::def::{ModuleDef, ShortExport};
use implib::{Error, Fault};
use std::alloc::{AllocError, Global};

/// Why exports have no members here.
#[derive(Debug, Drop)]
pub enum ExportsRefusal {
    /// No name of the DLL is given.
    NoName,
    /// An export is refused, whose index the fault has, or the name of the DLL.
    Members(Fault),
    /// An allocation failed.
    OutOfMemory,
}

impl From<AllocError> for ExportsRefusal {
    ghost use Rattle.implib_rules.specs.declared.exports.ExportsRefusal.TheVariants.{OutOfMemory};
    ghost use Rattle.std.specs.Prelude.{◌≡◌};

    ghost from_gives = { λ _ error. error ≡ OutOfMemory };

    fn from(_refused: AllocError) -> ExportsRefusal {
        ExportsRefusal::OutOfMemory
    }
}

/// The definition of exports for a DLL of the name that is given: of the exports of one word the
/// first alone, each as it is linked on the machine, and with the name of its library for the
/// linker. So a text's definition is made, too.
///
/// An export's words are as a text has them: without an underscore in front for I386.
///
/// # Errors
///
/// `NoName`: no name is given, but for a directory.
pub fn definition_of_exports(
    alloc: Global,
    exports: Vec<ShortExport>,
    options: &LibraryOptions,
) -> Result<ModuleDef, ExportsRefusal>
    ensures meant { IfOk result (λ def. DefinitionOfExports (map export_view exports.items)
        (library_options_view options.now) (definition_view def)) }
    ensures refused { IfErr result (IsRefusalOfDefinition (library_options_view options.now)) }
{
    let mut def = ModuleDef::empty(alloc);
    def.exports = exports;
    match by_rules(alloc, def, "", false, options)? {
        Some(def) => Ok(def),
        None => Err(ExportsRefusal::NoName),
    }
}

/// The members of the library of exports.
///
/// # Errors
///
/// `NoName`, as above; an export or the name of the DLL that is refused. The index is that of the
/// export among those that are given: the targets that aliases add stand behind them.
pub fn members_of_exports(
    alloc: Global,
    exports: Vec<ShortExport>,
    options: &LibraryOptions,
) -> Result<LibraryMembers, ExportsRefusal>
    ensures made { IfOk result (λ members. MembersOfExports (map export_view exports.items)
        (library_options_view options.now) members) }
    ensures refused { IfErr result (IsRefusalOfExports (map export_view exports.items)
        (library_options_view options.now)) }
{
    let def = definition_of_exports(alloc, exports, options)?;
    match members_in_order(def, options.machine, options.flavor, options.naming) {
        Ok(members) => Ok(members),
        Err(Error::Invalid(fault)) => Err(ExportsRefusal::Members(fault)),
        Err(Error::OutOfMemory(_)) => Err(ExportsRefusal::OutOfMemory),
    }
}
