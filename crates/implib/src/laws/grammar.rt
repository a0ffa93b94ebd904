//! Laws of the statements of a text.

ghost use Rattle.implib.specs.Definition.{DefinitionView};
ghost use Rattle.implib.specs.Fault.{Cause};
ghost use Rattle.implib.specs.Text.Grammar.{IsSentence, Sentence, Statement};
ghost use Rattle.implib.specs.Text.Parses.{InGrammar, IsIllFormed, Parses, Refuses, RefusesAt};
ghost use Rattle.implib.specs.Text.SyntaxError.{IsSyntaxError, HasSyntaxError};
ghost use Rattle.implib.specs.Text.Token.{EndsInEof, TokenView};
ghost use Rattle.implib.specs.Worked.Positions.{WorkedLines, WorkedPositions};
ghost use Rattle.implib.specs.Worked.Statements.{WorkedExports, WorkedFronts, WorkedRefusals};
ghost use Rattle.implib.specs.Worked.Statements.{WorkedSettings};
ghost use Rattle.implib.specs.declared.machine.MachineType.{MachineType};
ghost use Rattle.std.specs.Prelude.{◌≡◌, ◌≤◌, ◌⊎◌, ℕ, length, List};

/// Tokens that end in `Eof` are statements or have a syntax error, never both; they are one list of
/// statements, or have a syntax error of one cause.
pub fn sentence_or_broken()
    ensures either { (tokens : List TokenView) → EndsInEof tokens →
        IsSentence tokens ⊎ HasSyntaxError tokens }
    ensures never_both { (tokens : List TokenView) (statements : List Statement) (cause : Cause) →
        Sentence tokens statements → ¬ (IsSyntaxError tokens cause) }
    ensures one_list { (tokens : List TokenView) (statements others : List Statement) →
        Sentence tokens statements → Sentence tokens others → statements ≡ others }
    ensures one_cause { (tokens : List TokenView) (cause other : Cause) →
        IsSyntaxError tokens cause → IsSyntaxError tokens other → cause ≡ other }
{}

/// Every text either is in the grammar, and then means one definition on each machine, or is
/// refused, and then for one cause.
pub fn grammar_or_broken(text: &str)
    ensures either { InGrammar text.now ⊎ IsIllFormed text.now }
    ensures never_both { (machine : MachineType) (definition : DefinitionView) (cause : Cause) →
        Parses text.now machine definition → ¬ (Refuses text.now cause) }
    ensures one_definition { (machine : MachineType) (definition other : DefinitionView) →
        Parses text.now machine definition → Parses text.now machine other → definition ≡ other }
    ensures one_cause { (cause other : Cause) →
        Refuses text.now cause → Refuses text.now other → cause ≡ other }
{}

/// A refused text is refused at one token, whose offset is at most the text's length.
pub fn refused_at_one_token(text: &str)
    ensures somewhere { (cause : Cause) →
        Refuses text.now cause → (offset : ℕ) × RefusesAt text.now cause offset }
    ensures refused { (cause : Cause) (offset : ℕ) → RefusesAt text.now cause offset →
        Refuses text.now cause }
    ensures one_offset { (cause other : Cause) (offset at : ℕ) →
        RefusesAt text.now cause offset → RefusesAt text.now other at → offset ≡ at }
    ensures within { (cause : Cause) (offset : ℕ) →
        RefusesAt text.now cause offset → offset ≤ length text.now }
{}

/// Texts that were worked by hand are refused at these tokens, in these lines and columns.
pub fn worked_positions()
    ensures lines { WorkedLines }
    ensures refusals { WorkedPositions }
{}

/// Texts that were worked by hand mean these definitions, and are refused for these causes.
pub fn worked_statements()
    ensures settings { WorkedSettings }
    ensures exports { WorkedExports }
    ensures refusals { WorkedRefusals }
    ensures fronts { WorkedFronts }
{}
