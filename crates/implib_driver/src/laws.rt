//! Laws: what is proved of the definitions.

ghost use Rattle.implib_driver.specs.Stubs.{StubsTold};
ghost use Rattle.implib_driver.specs.Worked.{AnswersTold};

/// The status where memory is refused, what is left where a library is not put, and how words are
/// read that are not LIB's.
pub fn answers_told()
    ensures { AnswersTold }
{}

/// Members that have the stub of a function, and machines on which stubs cannot run, are those that
/// were worked by hand.
pub fn stubs_told()
    ensures { StubsTold }
{}
