//! The law of renaming.

ghost use Rattle.implib.specs.Definition.{definition_view};
ghost use Rattle.implib.specs.Renaming.{renamed};
ghost use Rattle.std.specs.Prelude.{◌≡◌};

use crate::def::definition::ModuleDef;

/// A definition whose exports are under the names to link by stays as it is when it is renamed
/// again.
pub fn rename_twice(def: &ModuleDef)
    ensures { renamed (renamed (definition_view def.now)) ≡ renamed (definition_view def.now) }
{}
