//! Laws of what a listener hears of a text.

ghost use Rattle.implib.specs.Definition.{DefinitionView, ExportView};
ghost use Rattle.implib.specs.Renaming.{name_to_link};
ghost use Rattle.implib.specs.Text.Heard.{Heard, IsHeard, IsWhole, names_of};
ghost use Rattle.implib.specs.Text.Parses.{Parses};
ghost use Rattle.implib.specs.Text.Token.{Lexed, TokenView};
ghost use Rattle.implib.specs.Underscore.{decorated};
ghost use Rattle.implib.specs.Worked.Heard.{WorkedHeard};
ghost use Rattle.implib.specs.declared.machine.MachineType.{MachineType};
ghost use Rattle.std.specs.Prelude.{◌≡◌, List, map};

/// One list is heard of a text: all of its tokens but the end. The names that are heard are the
/// words of the exports that the text means, one for one.
pub fn text_is_heard(text: &str)
    ensures once { (heard others : List Heard) →
        IsHeard text.now heard → IsHeard text.now others → heard ≡ others }
    ensures whole { (tokens : List TokenView) (heard : List Heard) →
        Lexed text.now tokens → IsHeard text.now heard → IsWhole tokens heard }
    ensures names { (machine : MachineType) (definition : DefinitionView) (heard : List Heard) →
        Parses text.now machine definition → IsHeard text.now heard →
        map (λ (t : TokenView). decorated machine t.value) (names_of heard)
        ≡ map (λ (e : ExportView). name_to_link e.ext_name e.name) definition.exports }
{}

/// Of texts that were worked by hand these tokens are heard, in these roles.
pub fn worked_heard()
    ensures { WorkedHeard }
{}
