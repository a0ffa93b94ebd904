//! Laws: what is proved of the grammar.

ghost use Rattle.implib_options.specs.Laws.{HaveOneReading};

/// Words are read as one thing, whatever rules read them.
pub fn words_have_one_reading()
    ensures { HaveOneReading }
{}
