//! What a caller may conclude of encodings, of statuses and of places. These functions do nothing:
//! each contract is a law.

ghost use Rattle.implib.specs.Members.MemberSpec.{MemberView};
ghost use Rattle.implib_c_calls.specs.Check.{Told, ToldFits, encoded_told, told_in};
ghost use Rattle.implib_c_calls.specs.Definition.{NumbersFit, StatedDefinition, definition_in};
ghost use Rattle.implib_c_calls.specs.Definition.{encoded_definition};
ghost use Rattle.implib_c_calls.specs.DllCheck.{DllTold, DllToldFits, dll_told_in};
ghost use Rattle.implib_c_calls.specs.DllCheck.{encoded_dll_told};
ghost use Rattle.implib_c_calls.specs.DllExports.{DllFits, DllRows, dll_in, encoded_dll};
ghost use Rattle.implib_c_calls.specs.Encoding.{ReadsBack, ReadsMembersBack};
ghost use Rattle.implib_c_calls.specs.Imports.{Fits, Row, encoded_rows, rows_in};
ghost use Rattle.implib_c_calls.specs.LibraryOf.{ExportsHaveTheTextsLibrary, GivenExport};
ghost use Rattle.implib_c_calls.specs.LibraryOf.{exports_asked};
ghost use Rattle.implib_c_calls.specs.Place.{PlacesAreOfRefusals};
ghost use Rattle.implib_c_calls.specs.Status.{NumbersReturn};
ghost use Rattle.implib_c_calls.specs.Warnings.{Fits as FitsSaid, Said};
ghost use Rattle.implib_c_calls.specs.Warnings.{encoded_warnings, warnings_in};
ghost use Rattle.implib_c_calls.specs.WorkedCheck.{WorkedChecks};
ghost use Rattle.implib_c_calls.specs.WorkedDefinition.{WorkedDefinitions};
ghost use Rattle.implib_c_calls.specs.WorkedDllCheck.{WorkedDllChecks};
ghost use Rattle.implib_c_calls.specs.WorkedDllExports.{WorkedDllExports};
ghost use Rattle.implib_c_calls.specs.WorkedEncoding.{WorkedEncodings};
ghost use Rattle.implib_c_calls.specs.WorkedExports.{WorkedExports};
ghost use Rattle.implib_c_calls.specs.WorkedGaps.{WorkedGaps};
ghost use Rattle.implib_c_calls.specs.WorkedImports.{WorkedImports};
ghost use Rattle.implib_c_calls.specs.WorkedPlace.{WorkedPlaces};
ghost use Rattle.implib_c_calls.specs.WorkedStatus.{WorkedStatuses};
ghost use Rattle.implib_c_calls.specs.WorkedWarnings.{WorkedWarnings};
ghost use Rattle.implib_c_calls.specs.WrittenAlike.{OneLibrary, PutsWhatIsWritten};
ghost use Rattle.implib_rules.specs.Exports.{LackSymbolNames};
ghost use Rattle.implib_rules.specs.Options.{LibraryOptionsView};
ghost use Rattle.std.specs.Prelude.{All, List, ℕ};

/// An encoding of fewer than 2^64 bytes is read as its members, whatever follows it.
#[tactic(auto, using(crate::proofs::ReadBack::members_back))]
pub fn encodings_read_back()
    ensures { (members : List MemberView) (rest : List ℕ) → ReadsMembersBack members rest }
{}

/// Encodings that were worked by hand have these bytes, and are read so.
pub fn worked_encodings()
    ensures { WorkedEncodings }
{}

/// An encoding of what a text states reads back, whatever follows it.
#[tactic(auto, using(crate::proofs::DefinitionBack::definition_back))]
pub fn definitions_read_back()
    ensures { (said : StatedDefinition) (rest : List ℕ) →
        ReadsBack encoded_definition definition_in NumbersFit said rest }
{}

/// Encodings of what texts state, worked by hand, have these bytes, and are read so.
pub fn worked_definitions()
    ensures { WorkedDefinitions }
{}

/// An encoding of warnings reads back, whatever follows it.
#[tactic(auto, using(crate::proofs::WarningsBack::warnings_back))]
pub fn warnings_read_back()
    ensures { (said : List Said) (rest : List ℕ) →
        ReadsBack encoded_warnings warnings_in (All FitsSaid) said rest }
{}

/// Kinds of warnings have these numbers, each written out.
pub fn worked_warnings()
    ensures { WorkedWarnings }
{}

/// An encoding of a library's rows reads back, whatever follows it.
#[tactic(auto, using(crate::proofs::ImportsBack::rows_back))]
pub fn rows_read_back()
    ensures { (rows : List Row) (rest : List ℕ) → ReadsBack encoded_rows rows_in (All Fits) rows rest }
{}

/// Rows of libraries, worked by hand, are these, have these bytes, and are read so.
pub fn worked_imports()
    ensures { WorkedImports }
{}

/// An encoding of what a DLL exports reads back, whatever follows it.
#[tactic(auto, using(crate::proofs::DllExportsBack::dll_back))]
pub fn dll_exports_read_back()
    ensures { (d : DllRows) (rest : List ℕ) → ReadsBack encoded_dll dll_in DllFits d rest }
{}

/// An address outside of sections has this number, and bytes that are no encoding are not read.
pub fn worked_dll_exports()
    ensures { WorkedDllExports }
{}

/// An encoding of what is told of a library beside a DLL reads back, whatever follows it.
#[tactic(auto, using(crate::proofs::DllCheckBack::dll_told_back))]
pub fn dll_checks_read_back()
    ensures { (told : DllTold) (rest : List ℕ) → ReadsBack encoded_dll_told dll_told_in DllToldFits told rest }
{}

/// What imports come to in a DLL, worked by hand, is this, has these bytes, and is read so.
pub fn worked_dll_checks()
    ensures { WorkedDllChecks }
{}

/// An encoding of what is told of a library beside a definition's reads back, whatever follows it.
#[tactic(auto, using(crate::proofs::ToldBack::told_back))]
pub fn checks_read_back()
    ensures { (told : Told) (rest : List ℕ) → ReadsBack encoded_told told_in ToldFits told rest }
{}

/// What is told of libraries, worked by hand, is this, has these bytes, and is read so.
pub fn worked_checks()
    ensures { WorkedChecks }
{}

/// Each number of a status leads back to it.
pub fn numbers_return()
    ensures { NumbersReturn }
{}

/// Offsets in texts that were worked by hand have these lines and columns.
pub fn worked_places()
    ensures { WorkedPlaces }
{}

/// Line and column of the place that C has of a refused text are those of the refusal.
#[tactic(auto, using(crate::proofs::PlacesOfRefusals::places_are_of_refusals))]
pub fn places_are_of_refusals()
    ensures { PlacesAreOfRefusals }
{}

/// Statuses have these numbers, each written out.
pub fn worked_statuses()
    ensures { WorkedStatuses }
{}

/// Flags of exports are these in a definition, and calls with exports have these numbers and places.
pub fn worked_exports()
    ensures { WorkedExports }
{}

/// No export that C passes has a symbol name in a definition, so the library of exports for
/// Microsoft's linker is read in order (`library_reads` of `MembersOfExports`).
#[tactic(auto, using(crate::proofs::GivenExports::lack_symbol_names))]
pub fn given_exports_lack_symbol_names()
    ensures { (exports : List GivenExport) → LackSymbolNames (exports_asked exports) }
{}

/// Where a text and the exports that it states have a library for some options, these are the same
/// bytes.
pub fn exports_have_the_texts_library()
    ensures { ExportsHaveTheTextsLibrary }
{}

/// A text has one library for some options, by the rules of the program.
pub fn one_library()
    ensures { (text : List ℕ) (options : LibraryOptionsView) → OneLibrary text options }
{}

/// Where `implib_library_with` succeeds, it puts what the program's `write_library` writes for the
/// same text and options.
pub fn puts_what_is_written()
    ensures { PutsWhatIsWritten }
{}

/// No status has a number between those of calls and those of faults, nor a much greater one; some
/// numbers are no flavour, no machine and no option.
pub fn worked_gaps()
    ensures { WorkedGaps }
{}
