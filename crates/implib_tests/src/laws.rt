//! What was worked by hand of definitions of `implib`, beside that crate's own worked laws.

ghost use Rattle.implib_tests.specs.Counts.{CountsOfObjects, CountsOfTexts};
ghost use Rattle.implib_tests.specs.Objects.{BytesOfObjects};

/// Sections, relocations and symbols above 255, lines, columns and indexes of exports above 65,535,
/// and a size above 2^32, are counted, added and told as was worked by hand.
pub fn worked_counts()
    ensures objects { CountsOfObjects }
    ensures texts { CountsOfTexts }
{}

/// Objects of writers have the bytes that are known from outside.
pub fn worked_objects()
    ensures { BytesOfObjects }
{}
