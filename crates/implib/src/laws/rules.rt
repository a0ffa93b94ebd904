//! Tables of names, numbers, words and endings take nothing that they do not list.

ghost use Rattle.implib.specs.Worked.Rules.{TakeNothingElse};

/// Nothing else is taken for a machine, a flavour or a keyword, or is cut off or replaced in a
/// DLL's name.
pub fn tables_take_nothing_else()
    ensures { TakeNothingElse }
{}
