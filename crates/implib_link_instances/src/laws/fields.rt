//! Fields of code against imports, and stored addresses.

ghost use Rattle.implib_link_instances.specs.Worked.Operands.{PassingFields, WorkedOperands};
ghost use Rattle.implib_link_instances.specs.Worked.Stored.{WorkedRegistering, WorkedHoldings};

/// Code as compilers write it, worked by hand on AMD64, I386 and ARM64: fields that follow one
/// another without a gap, some of types of which nothing is said, are in memory at two bases, and
/// lead to the entry.
///
/// Programs that lld wrote for I386, AMD64 and ARM64 of an object that clang made: pointers, a
/// handler and code that name an import by its bare name are in memory at two bases. So are those
/// that name a stub for GNU's linker, by hand.
pub fn worked_fields()
    ensures passing_fields { PassingFields }
    ensures worked_operands { WorkedOperands }
    ensures worked_holdings { WorkedHoldings }
    ensures worked_registering { WorkedRegistering }
{}
