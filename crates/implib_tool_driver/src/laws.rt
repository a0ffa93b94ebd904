//! Laws: what a caller may conclude from the program's definitions.

ghost use Rattle.implib_tool_driver.specs.Documents.{HasOneParting};
ghost use Rattle.std.specs.Prelude.{List, ℕ};

/// A text has one list of documents.
pub fn one_parting()
    ensures { (text : List ℕ) → HasOneParting text }
{}
