//! Whether a library means what a definition means.

ghost use Rattle.std.specs.Prelude.{◌≡◌, map, IfErr, IfOk, None, Some};
ghost use Rattle.implib_check_driver.specs.Refused.{IsRefusalOfCheck};
ghost use Rattle.implib_compare.specs.Meant.{IsVerdictOn};
ghost use Rattle.implib_read.specs.Classes.{library_in};
ghost use Rattle.implib_read.specs.ClassViews.{member_read_view};
ghost use Rattle.implib_rules.specs.Options.{library_options_view};

use crate::differences::differences;
use crate::finding::Source;
use crate::positions::Positions;
use crate::report::Form;
use implib_compare::compare::{Verdict, compare};
use implib_compare::meant::library_for;
use implib_read::laws::own_members_found;
use implib_read::{Library, MemberRead};
use implib_rules::library::Refusal;
use implib_rules::options::LibraryOptions;
use std::alloc::AllocError;

/// Why a library is not compared with a definition.
#[derive(Drop)]
pub enum CheckError {
    /// The definition has no library.
    Refused(Refusal),
    /// An allocation failed.
    OutOfMemory,
}

impl From<Refusal> for CheckError {
    ghost use Rattle.implib_check_driver.specs.declared.definition.CheckError.TheVariants.{Refused};
    ghost use Rattle.std.specs.Prelude.{◌≡◌};

    ghost from_gives = { λ refusal error. error ≡ Refused refusal };

    fn from(refusal: Refusal) -> CheckError {
        CheckError::Refused(refusal)
    }
}

impl From<AllocError> for CheckError {
    ghost use Rattle.implib_check_driver.specs.declared.definition.CheckError.TheVariants.{OutOfMemory};
    ghost use Rattle.std.specs.Prelude.{◌≡◌};

    ghost from_gives = { λ _ error. error ≡ OutOfMemory };

    fn from(_refused: AllocError) -> CheckError {
        CheckError::OutOfMemory
    }
}

/// The verdict on a library and what a definition means, and the differences. The library of the
/// definition is made, with the older symbols of addresses or without, and then read as any other,
/// so that both are told by one reader.
///
/// # Errors
///
/// `Refused`: the definition has no library. `OutOfMemory`: an allocation failed.
pub fn check_definition(
    form: Form,
    paths: (&str, &str),
    members: &[MemberRead],
    definition: &[u8],
    options: &LibraryOptions,
    older_symbols: bool,
) -> Result<(Verdict, Vec<u8>), CheckError>
    ensures verdict { IfOk result (λ found. IsVerdictOn older_symbols definition.now
        (library_options_view options.now) (map member_read_view members.now) found.0) }
    ensures refused { IfErr result
        (IsRefusalOfCheck older_symbols definition.now (library_options_view options.now)) }
{
    own_members_found();
    let alloc = form.alloc;
    let file = library_for(alloc, definition, options, older_symbols)?;
    let Some(meant) = Library::read(alloc, &file)? else {
        unreachable!();
    };
    let found = compare(alloc, members, &meant.members)?;
    let positions = Positions::of(alloc, definition, options)?;
    let sources = (
        Source::Library(paths.0),
        Source::Definition(paths.1, &positions),
    );
    let told = differences(form, sources, members, &meant.members, &found)?;
    Ok((found.verdict, told))
}
