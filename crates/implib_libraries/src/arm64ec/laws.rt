//! What follows for every text. The functions do nothing: their contracts are the laws.

ghost use Rattle.implib_libraries.specs.Arm64ec.{NoneIsWeak};

/// No export of a definition that is read for ARM64EC is weak for another's symbol: each has an
/// import, which asks for its own name.
pub fn none_is_weak()
    ensures { NoneIsWeak }
{}
