//! The call that holds a library, or the one that a definition has, against a DLL.

ghost use Rattle.std.specs.Option.{option_map};
ghost use Rattle.std.specs.Prelude.{◌≡◌, ℕ, All, IfErr, IfOk, List, Ok, Some, map, true};
ghost use Rattle.implib_check_driver.specs.Against.{DefinitionAgainst, IsAgainst, IsHeld};
ghost use Rattle.implib_check_driver.specs.Against.{IsHeldThrough, LibraryAgainst, options_against};
ghost use Rattle.implib_check_driver.specs.Answer.{IsHalt, answer_view};
ghost use Rattle.implib_check_driver.specs.Answers.{DefinitionBeside, IsAnswerBeside};
ghost use Rattle.implib_check_driver.specs.Answers.{asks_for_arm64ec};
ghost use Rattle.implib_check_driver.specs.Calls.{check_view, is_searching as IsSearching};
ghost use Rattle.implib_check_driver.specs.Refused.{IsHeldError};
ghost use Rattle.implib_check_driver.specs.Through.{through};
ghost use Rattle.implib_dll.specs.Exports.{Exports as SeenExports, exports_in};
ghost use Rattle.implib_dll.specs.Views.{exports_view};
ghost use Rattle.implib_dll.specs.declared.section.Layout.TheVariants.{File};
ghost use Rattle.implib_compare.specs.DllCheck.Folders.{AreKnown, IsRight, Listing, content_at};
ghost use Rattle.implib_compare.specs.DllCheck.Folders.{folder_view, loaded_view};
ghost use Rattle.implib_read.specs.ClassViews.{member_read_view};

use crate::against::{
    Dll, begins_archive, begins_dll, has_options, hold, names_of, options_against,
};
use crate::answer::{Answer, Halt, library_of, refused, saying};
use crate::call::{Check, is_searching};
use crate::exported::exports_of;
use crate::finding::Source;
use crate::positions::Positions;
use crate::report::Form;
use crate::shelf::Shelf;
use crate::through::{dlls_behind, is_any_unknown};
use implib_compare::dll_check::laws::{known_dlls_decide, right_dlls_extend};
use implib_compare::dll_check::{Beside, DllContent, Folder, Loaded, content_of, ends, named_dlls};
use implib_compare::meant::library_for;
use implib_dll::Exports;
use implib_read::laws::own_members_found;
use implib_read::{Library, MemberRead};
use implib_rules::library::Refusal;
use std::alloc::AllocError;

// Holds members against the DLL of a file's bytes and, through that, DLLs that were loaded.
fn through_loaded<'x>(
    form: Form,
    source: Source,
    members: &[MemberRead],
    check: &Check,
    bytes: &'x [u8],
    names: Vec<Vec<u8>>,
    loaded: &'x [Loaded],
) -> Result<Answer, AllocError>
    ensures { IfOk result (λ a. (file : List ℕ → List ℕ) (folders : List Listing) (e : SeenExports)
        → exports_in File bytes.now ≡ Ok (Some e)
        → All (IsRight file folders) (map loaded_view loaded.now)
        → IsHeldThrough (Some (content_at file folders)) check.now.definition.now e
        (map (λ name. name.items) names.items) (map member_read_view members.now) (answer_view a)) }
{
    known_dlls_decide();
    right_dlls_extend();
    let alloc = form.alloc;
    let path = check.definition;
    let DllContent::Holds(exports) = content_of(alloc, bytes)? else {
        return Err(AllocError);
    };
    let others = named_dlls(alloc, loaded)?;
    let dll = Dll {
        path,
        exports,
        names,
    };
    let beside = Beside {
        exports: &dll.exports,
        names: &dll.names,
        others: &others,
    };
    let found = ends(alloc, &beside, members)?;
    if is_any_unknown(&found) {
        let endless = saying(alloc, 4, path, "forwarders lead through too many DLLs")?;
        return Ok(endless);
    }
    let answer = hold(form, source, members, &dll, &found, check.lists_unasked)?;
    Ok(answer)
}

// Holds members against the DLL of a file's bytes and, through that, the DLLs of some folders.
fn through_folders<S: Shelf>(
    form: Form,
    shelf: &S,
    source: Source,
    members: &[MemberRead],
    check: &Check,
    bytes: &[u8],
    names: Vec<Vec<u8>>,
    folders: &[Folder],
) -> Result<Answer, Halt>
    ensures held { IfOk result (λ a. (file : List ℕ → List ℕ) (e : SeenExports)
        → AreKnown (S.seen shelf.now) file → exports_in File bytes.now ≡ Ok (Some e)
        → IsHeldThrough (Some (content_at file (map folder_view folders.now)))
        check.now.definition.now e (map (λ name. name.items) names.items)
        (map member_read_view members.now) (answer_view a)) }
    ensures halted { IfErr result (IsHalt (S.may_fail shelf.now)) }
{
    let loaded = dlls_behind(form.alloc, shelf, folders, bytes, &names, members)?;
    let answer = through_loaded(form, source, members, check, bytes, names, &loaded)?;
    Ok(answer)
}

// Holds members against a DLL and, where that is asked for, DLLs behind it.
fn members_against<S: Shelf>(
    form: Form,
    shelf: &S,
    source: Source,
    members: &[MemberRead],
    check: &Check,
    exports: Exports,
    bytes: &[u8],
    folders: &[Folder],
) -> Result<Answer, Halt>
    ensures held { IfOk result (λ a. (file : List ℕ → List ℕ)
        → (IsSearching (check_view check.now) ≡ true → AreKnown (S.seen shelf.now) file)
        → exports_in File bytes.now ≡ Ok (Some (exports_view exports.entry))
        → IsAgainst (through file (map folder_view folders.now) (check_view check.now))
        (check_view check.now) (exports_view exports.entry) (map member_read_view members.now)
        (answer_view a)) }
    ensures halted { IfErr result (IsHalt (S.may_fail shelf.now)) }
{
    let names = names_of(form.alloc, check.dll, check.definition)?;
    if is_searching(check) {
        let answer = through_folders(form, shelf, source, members, check, bytes, names, folders)?;
        return Ok(answer);
    }
    let dll = Dll {
        path: check.definition,
        exports,
        names,
    };
    let answer = hold(form, source, members, &dll, &[], check.lists_unasked)?;
    Ok(answer)
}

// Holds a library against a DLL.
fn library_against<S: Shelf>(
    form: Form,
    shelf: &S,
    check: &Check,
    library: &[u8],
    dll: &[u8],
    folders: &[Folder],
) -> Result<Answer, Halt>
    ensures held { IfOk result (λ a. (file : List ℕ → List ℕ)
        → (IsSearching (check_view check.now) ≡ true → AreKnown (S.seen shelf.now) file)
        → LibraryAgainst
        (through file (map folder_view folders.now) (check_view check.now))
        (check_view check.now) library.now dll.now (answer_view a)) }
    ensures halted { IfErr result (IsHalt (S.may_fail shelf.now)) }
{
    if has_options(check) {
        let message = "a library has no need of the options of a definition beside a DLL";
        return Ok(saying(form.alloc, 2, check.library, message)?);
    }
    let read = match library_of(form.alloc, check.library, library)? {
        Ok(read) => read,
        Err(answer) => return Ok(answer),
    };
    let exports = match exports_of(form.alloc, check.definition, dll)? {
        Ok(exports) => exports,
        Err(answer) => return Ok(answer),
    };
    let source = Source::Library(check.library);
    members_against(
        form,
        shelf,
        source,
        &read.members,
        check,
        exports,
        dll,
        folders,
    )
}

// Why the library of a definition is not held against a DLL.
#[derive(Drop)]
enum HeldError {
    Refused(Refusal),
    Halted(Halt),
}

impl From<Refusal> for HeldError {
    ghost use Rattle.implib_check_driver.specs.declared.beside.HeldError.TheVariants.{Refused};
    ghost use Rattle.std.specs.Prelude.{◌≡◌};

    ghost from_gives = { λ refusal error. error ≡ Refused refusal };

    fn from(refusal: Refusal) -> HeldError {
        HeldError::Refused(refusal)
    }
}

impl From<Halt> for HeldError {
    ghost use Rattle.implib_check_driver.specs.declared.beside.HeldError.TheVariants.{Halted};
    ghost use Rattle.std.specs.Prelude.{◌≡◌};

    ghost from_gives = { λ halt error. error ≡ Halted halt };

    fn from(halt: Halt) -> HeldError {
        HeldError::Halted(halt)
    }
}

impl From<AllocError> for HeldError {
    ghost use Rattle.implib_check_driver.specs.declared.answer.Halt.TheVariants.{OutOfMemory};
    ghost use Rattle.implib_check_driver.specs.declared.beside.HeldError.TheVariants.{Halted};
    ghost use Rattle.std.specs.Prelude.{◌≡◌};

    ghost from_gives = { λ _ error. error ≡ Halted OutOfMemory };

    fn from(_refused: AllocError) -> HeldError {
        HeldError::Halted(Halt::OutOfMemory)
    }
}

// Holds the library of a definition against a DLL.
fn held<S: Shelf>(
    form: Form,
    shelf: &S,
    check: &Check,
    definition: &[u8],
    exports: Exports,
    dll: &[u8],
    folders: &[Folder],
) -> Result<Answer, HeldError>
    ensures held { IfOk result (λ a. (file : List ℕ → List ℕ)
        → (IsSearching (check_view check.now) ≡ true → AreKnown (S.seen shelf.now) file)
        → exports_in File dll.now ≡ Ok (Some (exports_view exports.entry))
        → IsHeld (through file (map folder_view folders.now) (check_view check.now))
        (check_view check.now) (exports_view exports.entry) definition.now (answer_view a)) }
    ensures refused { IfErr result (IsHeldError (S.may_fail shelf.now)
        check.now.older_symbols definition.now
        (options_against (check_view check.now) (exports_view exports.entry))) }
{
    own_members_found();
    let alloc = form.alloc;
    let options = options_against(check, &exports);
    let file = library_for(alloc, definition, &options, check.older_symbols)?;
    let Some(meant) = Library::read(alloc, &file)? else {
        unreachable!();
    };
    let positions = Positions::of(alloc, definition, &options)?;
    let source = Source::Definition(check.library, &positions);
    Ok(members_against(
        form,
        shelf,
        source,
        &meant.members,
        check,
        exports,
        dll,
        folders,
    )?)
}

// Holds a definition against a DLL.
fn definition_against<S: Shelf>(
    form: Form,
    shelf: &S,
    check: &Check,
    definition: &[u8],
    dll: &[u8],
    folders: &[Folder],
) -> Result<Answer, Halt>
    ensures held { IfOk result (λ a. (file : List ℕ → List ℕ)
        → (IsSearching (check_view check.now) ≡ true → AreKnown (S.seen shelf.now) file)
        → DefinitionAgainst
        (through file (map folder_view folders.now) (check_view check.now))
        (check_view check.now) definition.now (exports_in File dll.now) (answer_view a)) }
    ensures halted { IfErr result (IsHalt (S.may_fail shelf.now)) }
{
    let exports = match exports_of(form.alloc, check.definition, dll)? {
        Ok(exports) => exports,
        Err(answer) => return Ok(answer),
    };
    match held(form, shelf, check, definition, exports, dll, folders) {
        Ok(answer) => Ok(answer),
        Err(HeldError::Refused(why)) => Ok(refused(form.alloc, check.library, &why)?),
        Err(HeldError::Halted(halt)) => Err(halt),
    }
}

// Whether a call asks for a library for ARM64EC, or for one of a native definition.
fn asks_for_arm64ec(check: &Check) -> bool
    ensures { result ≡ asks_for_arm64ec (check_view check.now) }
{
    check.arm64ec || check.native.is_some()
}

// Holds a definition against a DLL, unless its library is to be for ARM64EC.
fn definition_beside<S: Shelf>(
    form: Form,
    shelf: &S,
    check: &Check,
    definition: &[u8],
    dll: &[u8],
    folders: &[Folder],
) -> Result<Answer, Halt>
    ensures held { IfOk result (λ a. (file : List ℕ → List ℕ)
        → (IsSearching (check_view check.now) ≡ true → AreKnown (S.seen shelf.now) file)
        → DefinitionBeside
        (through file (map folder_view folders.now) (check_view check.now))
        (check_view check.now) definition.now dll.now (answer_view a)) }
    ensures halted { IfErr result (IsHalt (S.may_fail shelf.now)) }
{
    if asks_for_arm64ec(check) {
        let message = "arm64ec: not supported beside a DLL";
        return Ok(saying(form.alloc, 2, check.definition, message)?);
    }
    let answer = definition_against(form, shelf, check, definition, dll, folders)?;
    Ok(answer)
}

/// Holds a library or a definition against a DLL.
///
/// # Errors
///
/// `Ends`: a file cannot be read.
pub(crate) fn against<S: Shelf>(
    form: Form,
    shelf: &S,
    check: &Check,
    first: &[u8],
    dll: &[u8],
    folders: &[Folder],
) -> Result<Answer, Halt>
    ensures held { IfOk result (λ a. (file : List ℕ → List ℕ)
        → (IsSearching (check_view check.now) ≡ true → AreKnown (S.seen shelf.now) file)
        → IsAnswerBeside
        (through file (map folder_view folders.now) (check_view check.now))
        (check_view check.now) first.now dll.now (answer_view a)) }
    ensures halted { IfErr result (IsHalt (S.may_fail shelf.now)) }
{
    if begins_archive(first) {
        let answer = library_against(form, shelf, check, first, dll, folders)?;
        return Ok(answer);
    }
    if begins_dll(first) {
        let message = "a DLL, and no library or definition";
        return Ok(saying(form.alloc, 2, check.library, message)?);
    }
    let answer = definition_beside(form, shelf, check, first, dll, folders)?;
    Ok(answer)
}
