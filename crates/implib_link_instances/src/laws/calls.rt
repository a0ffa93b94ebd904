//! A loader of a program that was linked by hand.

ghost use Rattle.implib_link_instances.specs.Worked.Operands.{WorkedReading};

/// A loader that reads the image of a program that was linked by hand loads it.
pub fn worked_calls()
    ensures { WorkedReading }
{}
