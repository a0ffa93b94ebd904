//! The law of the definition that a text means.

ghost use Rattle.implib.specs.Definition.{DefinitionView};
ghost use Rattle.implib.specs.Text.Parses.{Parses};
ghost use Rattle.implib.specs.Text.SymbolNames.{LacksSymbolNames};

use crate::machine::MachineType;

/// No export of a text has a symbol name or gives an asked name, neither as it is parsed nor under
/// its name to link by; nor has the library a name of its own. Only a definition that is made by
/// hand has any of them.
pub fn parsed_lacks_symbol_names(text: &str, machine: MachineType)
    ensures { (definition : DefinitionView) → Parses text.now machine definition →
        LacksSymbolNames definition }
{}
