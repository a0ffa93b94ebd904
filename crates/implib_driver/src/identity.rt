//! What a library is asked for, a line each: the DLLs that it imports from, or its members.

ghost use Rattle.implib_driver.specs.Identity.{IsRefusedSo, fault_of, identified, lines_of, listed};
ghost use Rattle.implib_driver.specs.Identity.{named_of, names_in};
ghost use Rattle.implib_read.specs.Archives.{archive_in};
ghost use Rattle.implib_read.specs.ArchiveViews.{member_view};
ghost use Rattle.implib_read.specs.Classes.{library_in};
ghost use Rattle.std.specs.Prelude.{◌≡◌, [], ◌∷◌, ◌++◌, IfErr, IfOk, Ok, OnOk, map};

use implib_read::{Archive, Library, StoredMember, dlls_of};
use indexmap::IndexSet;
use std::alloc::{AllocError, Global};

/// What is printed of a library.
#[derive(Clone, Copy, Debug, PartialEq, Eq)]
pub enum Wanted {
    /// The DLLs that it imports from.
    Dlls,
    /// The one DLL that it imports from.
    OneDll,
    /// The names of its members.
    Members,
}

/// Why the DLLs or members of a library are not named.
#[derive(Clone, Copy, Debug, PartialEq, Eq)]
pub enum NotIdentified {
    /// The file is no archive, or a thin one.
    NoLibrary,
    /// It imports from none.
    NoDll,
    /// It imports from two or more, where one alone is asked for.
    SeveralDlls,
}

/// Why the DLLs or members of a library are not named, or want of memory.
#[derive(Debug, Drop)]
pub enum IdentifyError {
    /// They are not.
    Refused(NotIdentified),
    /// An allocation failed.
    OutOfMemory,
}

impl From<AllocError> for IdentifyError {
    ghost use Rattle.implib_driver.specs.declared.identity.IdentifyError.TheVariants.{OutOfMemory};
    ghost use Rattle.std.specs.Prelude.{◌≡◌};

    ghost from_gives = { λ _ error. error ≡ OutOfMemory };

    fn from(_refused: AllocError) -> IdentifyError {
        IdentifyError::OutOfMemory
    }
}

// What is wrong with a number of DLLs.
fn fault_of(is_strict: bool, count: usize) -> Option<NotIdentified>
    ensures { result ≡ fault_of is_strict count }
{
    if count == 0 {
        return Some(NotIdentified::NoDll);
    }
    if is_strict && count > 1 {
        return Some(NotIdentified::SeveralDlls);
    }
    None
}

// Adds a line.
fn push_line(lines: &mut Vec<u8>, name: &[u8]) -> Result<(), AllocError>
    ensures { OnOk result (lines.new.items ≡ lines.old.items ++ (name.now ++ 10 ∷ [])) }
{
    lines.extend_from_slice(name)?;
    lines.push(b'\n')?;
    Ok(())
}

// Names, each in a line.
fn lines_of(alloc: Global, names: &IndexSet<&[u8]>) -> Result<Vec<u8>, AllocError>
    ensures { IfOk result (λ lines. lines.items ≡ lines_of (map (λ k. k.now) names.now.keys)) }
{
    let mut lines = Vec::new(alloc);
    for name in names.iter() {
        push_line(&mut lines, name)?;
    }
    Ok(lines)
}

// The names of members, each in a line.
fn names_in(alloc: Global, members: &[StoredMember<'_>]) -> Result<Vec<u8>, AllocError>
    ensures { IfOk result
        (λ lines. lines.items ≡ lines_of (names_in (map member_view members.now))) }
{
    let mut lines = Vec::new(alloc);
    for member in members {
        push_line(&mut lines, member.name)?;
    }
    Ok(lines)
}

// The names of the members of the library in these bytes, each in a line, in their order.
fn list(alloc: Global, bytes: &[u8]) -> Result<Vec<u8>, IdentifyError>
    ensures named { IfOk result (λ lines. listed (archive_in bytes.now) ≡ Ok lines.items) }
    ensures refused { IfErr result (IsRefusedSo (listed (archive_in bytes.now))) }
{
    match Archive::read(alloc, bytes)? {
        Some(archive) => Ok(names_in(alloc, archive.members.as_slice())?),
        None => Err(IdentifyError::Refused(NotIdentified::NoLibrary)),
    }
}

/// What is wanted of the library in these bytes, each in a line: the DLLs that it imports from, in
/// the order of their first imports, or its members, in their order.
///
/// # Errors
///
/// `Refused`: the file is no library; it imports from no DLL, or from several where one is asked
/// for.
pub fn identify(alloc: Global, bytes: &[u8], wanted: Wanted) -> Result<Vec<u8>, IdentifyError>
    ensures named { IfOk result (λ lines. identified wanted bytes.now ≡ Ok lines.items) }
    ensures refused { IfErr result (IsRefusedSo (identified wanted bytes.now)) }
{
    match wanted {
        Wanted::Dlls => name_dlls(alloc, bytes, false),
        Wanted::OneDll => name_dlls(alloc, bytes, true),
        Wanted::Members => list(alloc, bytes),
    }
}

// The names of the DLLs that the library in these bytes imports from, each in a line.
fn name_dlls(alloc: Global, bytes: &[u8], is_strict: bool) -> Result<Vec<u8>, IdentifyError>
    ensures named { IfOk result (λ lines. named_of is_strict (library_in bytes.now)
        ≡ Ok lines.items) }
    ensures refused { IfErr result (IsRefusedSo (named_of is_strict (library_in bytes.now))) }
{
    let Some(library) = Library::read(alloc, bytes)? else {
        return Err(IdentifyError::Refused(NotIdentified::NoLibrary));
    };
    let names = dlls_of(alloc, library.members.as_slice())?;
    match fault_of(is_strict, names.len()) {
        Some(fault) => Err(IdentifyError::Refused(fault)),
        None => Ok(lines_of(alloc, &names)?),
    }
}
