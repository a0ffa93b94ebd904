//! What lld makes of short imports.

ghost use Rattle.implib_link_instances.specs.Worked.Parts.{WorkedThirdTexts};

/// Tables that lld 19 wrote of short imports with a third text are those of the definitions, byte
/// for byte, and code reaches through them what the DLL gives for that text.
pub fn worked_lld()
    ensures worked_third_texts { WorkedThirdTexts }
{}
