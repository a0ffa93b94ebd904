//! Whether a library means what the definitions of one for ARM64EC mean.

ghost use Rattle.std.specs.Option.{option_map};
ghost use Rattle.std.specs.Prelude.{◌≡◌, [], false, map, IfErr, IfOk, None, Some, unwrap_or};
ghost use Rattle.implib_check_driver.specs.Calls.{check_view};
ghost use Rattle.implib_check_driver.specs.Refused.{IsRefusalOfArm64ec};
ghost use Rattle.implib_check_driver.specs.Answer.{IsRefusedAs, answer_view};
ghost use Rattle.implib_check_driver.specs.Checking.{lacks_memory};
ghost use Rattle.implib_compare.specs.Meant.{IsArm64ecVerdictOn};
ghost use Rattle.implib_read.specs.ClassViews.{member_read_view};
ghost use Rattle.implib_rules.specs.Options.{library_options_view};

use crate::answer::{Answer, refused, refused_as};
use crate::call::Check;
use crate::differences::differences;
use crate::finding::{Source, Written};
use crate::positions::Positions;
use crate::report::Form;
use implib::def::Position;
use implib::{Fault, Flavor, MachineType};
use implib_arm64ec::ImportsFault;
use implib_compare::compare::{Comparison, Verdict, compare};
use implib_compare::laws::arm64ec_members_found;
use implib_compare::meant::{Arm64ecFault, arm64ec_file_for};
use implib_libraries::arm64ec::{Arm64ecRefusal, Unimported};
use implib_read::{Library, MemberRead};
use implib_rules::library::Refusal;
use implib_rules::linked::Naming;
use implib_rules::options::LibraryOptions;
use implib_rules::{FaultMessage, ShownPlace, position_of};
use std::alloc::{AllocError, Global};
use std::fmt;

/// Why a library is not compared with definitions for ARM64EC.
#[derive(Drop)]
pub enum Arm64ecError {
    /// The definitions have no library.
    Refused(Arm64ecFault),
    /// An allocation failed.
    OutOfMemory,
}

impl From<Arm64ecFault> for Arm64ecError {
    ghost use Rattle.implib_check_driver.specs.declared.arm64ec.Arm64ecError.TheVariants.{Refused};
    ghost use Rattle.std.specs.Prelude.{◌≡◌};

    ghost from_gives = { λ fault error. error ≡ Refused fault };

    fn from(fault: Arm64ecFault) -> Arm64ecError {
        Arm64ecError::Refused(fault)
    }
}

impl From<AllocError> for Arm64ecError {
    ghost use Rattle.implib_check_driver.specs.declared.arm64ec.Arm64ecError.TheVariants.{OutOfMemory};
    ghost use Rattle.std.specs.Prelude.{◌≡◌};

    ghost from_gives = { λ _ error. error ≡ OutOfMemory };

    fn from(_refused: AllocError) -> Arm64ecError {
        Arm64ecError::OutOfMemory
    }
}

// The positions of exports for ARM64EC.
fn own_positions(
    alloc: Global,
    definition: &[u8],
    options: &LibraryOptions,
) -> Result<Positions, AllocError> {
    let options = LibraryOptions {
        machine: MachineType::ARM64,
        flavor: Flavor::Gnu,
        ..*options
    };
    Positions::of(alloc, definition, &options)
}

// The positions of native exports. The name of the DLL, which the definition may lack, is of no
// effect on them.
fn native_positions(
    alloc: Global,
    native: Option<&[u8]>,
    options: &LibraryOptions,
) -> Result<Positions, AllocError> {
    let options = LibraryOptions {
        machine: MachineType::ARM64,
        flavor: Flavor::Msvc,
        dll: Some("native"),
        naming: Naming {
            exports_as: true,
            ..options.naming
        },
        ..*options
    };
    Positions::of(alloc, native.unwrap_or(b""), &options)
}

// The file of the native definition, or the definition's where there is none.
fn native_path<'a>(check: &Check<'a>) -> &'a str {
    check.native.unwrap_or(check.definition)
}

// The differences of a library and that of definitions.
fn arm64ec_differences(
    form: Form,
    check: &Check,
    positions: (&Positions, &Positions),
    members: (&[MemberRead], &[MemberRead]),
    found: &Comparison,
) -> Result<Vec<u8>, AllocError> {
    let own = Written {
        path: check.definition,
        positions: positions.0,
    };
    let native = Written {
        path: native_path(check),
        positions: positions.1,
    };
    let sources = (
        Source::Library(check.library),
        Source::Definitions(own, native),
    );
    differences(form, sources, members.0, members.1, found)
}

/// The verdict on a library and the one for ARM64EC of a definition and, if there is one, of a native
/// definition, and the differences.
///
/// # Errors
///
/// `Refused`: the definitions have no library. `OutOfMemory`: an allocation failed.
#[tactic(auto, using(crate::proofs::MeantLibraries::arm64ec_file_is_read))]
pub fn check_arm64ec(
    form: Form,
    check: &Check,
    members: &[MemberRead],
    definition: &[u8],
    native: Option<&[u8]>,
    options: &LibraryOptions,
) -> Result<(Verdict, Vec<u8>), Arm64ecError>
    ensures verdict { IfOk result (λ found.
        IsArm64ecVerdictOn definition.now (option_map (λ text. text.now) native.entry)
        (library_options_view options.now) (map member_read_view members.now) found.0) }
    ensures refused { IfErr result
        (IsRefusalOfArm64ec definition.now (option_map (λ text. text.now) native.entry)
        (library_options_view options.now)) }
{
    arm64ec_members_found();
    let alloc = form.alloc;
    let file = arm64ec_file_for(alloc, definition, native, options)?;
    let Some(meant) = Library::read(alloc, &file)? else {
        unreachable!();
    };
    let found = compare(alloc, members, &meant.members)?;
    let own = own_positions(alloc, definition, options)?;
    let others = native_positions(alloc, native, options)?;
    let both = (members, meant.members.as_slice());
    let told = arm64ec_differences(form, check, (&own, &others), both, &found)?;
    Ok((found.verdict, told))
}

// Why a definition has no short imports for ARM64EC, in the words of `implib_dlltool`.
#[derive(Clone, Copy)]
struct UnimportedMessage(Unimported);

impl fmt::Display for UnimportedMessage {
    fn fmt<W: fmt::Write>(&self, f: &mut fmt::Formatter<W>) -> fmt::Result {
        match self.0.fault {
            ImportsFault::NulInDllName => write!(f, "{}", FaultMessage(&Fault::NulInImportName)),
            ImportsFault::NulInExport(index) => {
                write!(f, "{}", FaultMessage(&Fault::NulInExport(index)))
            }
            ImportsFault::Unreadable(_, place) => write!(
                f,
                "a name of C++ for arm64ec that is not understood after {place} bytes; with $$h in \
                 it a name is taken as it is"
            ),
            ImportsFault::MemberTooLong(_) => {
                write!(f, "{}", FaultMessage(&Fault::MemberTooLong))
            }
        }
    }
}

// Where that is; none where it is of the DLL's name.
fn position_of_unimported(why: Unimported) -> Option<Position> {
    match why.fault {
        ImportsFault::NulInDllName => None,
        _ => Some(why.position),
    }
}

// The file that a refusal of the native members is told of: one without a place is of the DLL's
// name, which is the definition's.
fn native_told<'a>(check: &Check<'a>, refusal: &Refusal) -> &'a str {
    match position_of(refusal) {
        Some(_) => native_path(check),
        None => check.definition,
    }
}

// Why a definition has no short imports, with its place.
#[derive(Clone, Copy)]
struct Unmet<'p>(&'p str, Unimported);

impl<'p> fmt::Display for Unmet<'p> {
    fn fmt<W: fmt::Write>(&self, f: &mut fmt::Formatter<W>) -> fmt::Result {
        let place = ShownPlace(self.0, position_of_unimported(self.1));
        write!(f, "{place} {}", UnimportedMessage(self.1))
    }
}

/// The answer where definitions have no library for ARM64EC.
pub(crate) fn refused_arm64ec(
    alloc: Global,
    check: &Check,
    fault: &Arm64ecFault,
) -> Result<Answer, AllocError>
    ensures refused { IfOk result (λ a. IsRefusedAs 1 (answer_view a)) }
    ensures has_memory { IfOk result (λ _. lacks_memory fault.now ≡ false) }
{
    match fault {
        Arm64ecFault::OfTexts(Arm64ecRefusal::OfDefinition(why)) => {
            refused(alloc, check.definition, why)
        }
        Arm64ecFault::OfTexts(Arm64ecRefusal::OfImports(why)) => {
            refused_as(alloc, 1, Unmet(check.definition, *why))
        }
        Arm64ecFault::OfTexts(Arm64ecRefusal::OfNative(why)) => {
            refused(alloc, native_told(check, why), why)
        }
        Arm64ecFault::OfTexts(Arm64ecRefusal::OutOfMemory) => Err(AllocError),
        Arm64ecFault::OfArchive(why) => refused(alloc, check.definition, why),
    }
}
