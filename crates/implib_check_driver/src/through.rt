//! Where the forwarders of a DLL lead that imports come to, in the DLLs of some folders.
//!
//! The folders stand for those that a loader searches, as for a program. A DLL that a forwarder
//! names by a name of the DLL itself is that one; any other is looked for in the folders, and each
//! is read once, when a forwarder leads there. An import whose forwarder leads to nothing is told,
//! as one that the DLL does not export, and a file that no forwarder leads to may be anything.
//! Where forwarders lead that no import comes to is not looked at.

ghost use Rattle.implib_check_driver.specs.Answer.{IsHalt};
ghost use Rattle.implib_compare.specs.DllCheck.Folders.{AreKnown, IsRight, folder_view, loaded_view};
ghost use Rattle.implib_compare.specs.DllCheck.Forwarding.{is_unknown as IsUnknown};
ghost use Rattle.implib_compare.specs.DllCheck.ForwardingViews.{end_view};
ghost use Rattle.std.specs.List.{list_any};
ghost use Rattle.std.specs.Option.{option_map};
ghost use Rattle.std.specs.Prelude.{◌≡◌, ℕ, All, IfErr, IfOk, List, map};

use crate::answer::{Halt, bytes_of};
use crate::shelf::Shelf;
use implib_compare::dll_check::{
    Beside, DllContent, End, Folder, Loaded, content_of, dll_path, ends, loader_name, named_dlls,
};
use implib_read::MemberRead;
use std::alloc::{AllocError, Global};

// How often the DLLs are read that forwarders lead to in those that were read before.
const MOST_ROUNDS: usize = 1000;

// The DLL of a loader's name.
fn load<S: Shelf>(
    alloc: Global,
    shelf: &S,
    folders: &[Folder],
    name: Vec<u8>,
) -> Result<Loaded, Halt>
    ensures loaded { IfOk result (λ loaded. (file : List ℕ → List ℕ)
        → AreKnown (S.seen shelf.now) file
        → IsRight file (map folder_view folders.now) (loaded_view loaded)) }
    ensures halted { IfErr result (IsHalt (S.may_fail shelf.now)) }
{
    let Some(path) = dll_path(alloc, folders, &name)? else {
        return Ok(Loaded { name, bytes: None });
    };
    let bytes = bytes_of(alloc, shelf, &path)?;
    Ok(Loaded {
        name,
        bytes: Some(bytes),
    })
}

// Whether a forwarder leads to a DLL that was not loaded.
fn is_unknown(end: &Option<End>) -> bool
    ensures { result ≡ IsUnknown (option_map end_view end.now) }
{
    match end {
        Some(End::Unknown(_)) => true,
        _ => false,
    }
}

/// Whether one of some forwarders leads to a DLL that was not loaded.
pub fn is_any_unknown(ends: &[Option<End>]) -> bool
    ensures { result ≡ list_any IsUnknown (map (option_map end_view) ends.now) }
{
    for end in ends {
        if is_unknown(end) {
            return true;
        }
    }
    false
}

// Whether a name is one of these.
fn is_among(names: &[Vec<u8>], name: &[u8]) -> bool {
    names.iter().any(|one| one.as_slice() == name)
}

// The loader's names, each once, of the DLLs to which forwarders lead, and which were not loaded.
fn unknown_names(alloc: Global, ends: &[Option<End>]) -> Result<Vec<Vec<u8>>, AllocError> {
    let mut names: Vec<Vec<u8>> = Vec::new(alloc);
    for end in ends {
        if let Some(End::Unknown(dll)) = end {
            let name = loader_name(alloc, dll)?;
            if !is_among(&names, &name) {
                names.push(name)?;
            }
        }
    }
    Ok(names)
}

// The same beside what was loaded.
fn names_beside<'x>(
    alloc: Global,
    bytes: &'x [u8],
    names: &'x [Vec<u8>],
    loaded: &'x [Loaded],
    members: &[MemberRead],
) -> Result<Vec<Vec<u8>>, AllocError> {
    let DllContent::Holds(exports) = content_of(alloc, bytes)? else {
        return Ok(Vec::new(alloc));
    };
    let others = named_dlls(alloc, loaded)?;
    let beside = Beside {
        exports: &exports,
        names,
        others: &others,
    };
    let found = ends(alloc, &beside, members)?;
    unknown_names(alloc, &found)
}

// Loads further DLLs.
#[tactic(auto, using(crate::proofs::LoadedDlls::right_more))]
fn load_all<S: Shelf>(
    alloc: Global,
    shelf: &S,
    folders: &[Folder],
    loaded: &mut Vec<Loaded>,
    names: Vec<Vec<u8>>,
) -> Result<(), Halt>
    ensures loaded { IfOk result (λ done. (file : List ℕ → List ℕ)
        → AreKnown (S.seen shelf.now) file
        → All (IsRight file (map folder_view folders.now)) (map loaded_view loaded.old.items)
        → All (IsRight file (map folder_view folders.now)) (map loaded_view loaded.new.items)) }
    ensures halted { IfErr result (IsHalt (S.may_fail shelf.now)) }
{
    for name in names {
        let next = load(alloc, shelf, folders, name)?;
        loaded.push(next)?;
    }
    Ok(())
}

/// The DLLs of some folders to which forwarders lead that members come to in the DLL of a file's
/// bytes.
///
/// # Errors
///
/// `Ends`: a file cannot be read.
pub(crate) fn dlls_behind<S: Shelf>(
    alloc: Global,
    shelf: &S,
    folders: &[Folder],
    bytes: &[u8],
    names: &[Vec<u8>],
    members: &[MemberRead],
) -> Result<Vec<Loaded>, Halt>
    ensures loaded { IfOk result (λ loaded. (file : List ℕ → List ℕ)
        → AreKnown (S.seen shelf.now) file
        → All (IsRight file (map folder_view folders.now)) (map loaded_view loaded.items)) }
    ensures halted { IfErr result (IsHalt (S.may_fail shelf.now)) }
{
    let mut loaded = Vec::new(alloc);
    let mut left = MOST_ROUNDS;
    while left > 0 {
        left -= 1;
        let wanted = names_beside(alloc, bytes, names, &loaded, members)?;
        if wanted.is_empty() {
            break;
        }
        load_all(alloc, shelf, folders, &mut loaded, wanted)?;
    }
    Ok(loaded)
}
