//! What the imports of a library come to in a DLL.

ghost use Rattle.implib_dll.specs.Views.{exports_view};
ghost use Rattle.implib_compare.specs.DllCheck.Imports.{ask_of_called, asks_in, is_called, is_of_data};
ghost use Rattle.implib_compare.specs.DllCheck.Imports.{judged, judged_by, judged_member, judgements};
ghost use Rattle.implib_compare.specs.DllCheck.Imports.{import_in, is_import as IsImport};
ghost use Rattle.implib_compare.specs.DllCheck.Imports.{is_lost as IsLost, is_searched as IsSearched};
ghost use Rattle.implib_compare.specs.DllCheck.Verdict.{ask_view, verdict_view};
ghost use Rattle.implib_read.specs.ClassViews.{class_view, imported_view, member_read_view};
ghost use Rattle.implib_read.specs.ImportViews.{ask_view as asked_view};
ghost use Rattle.std.specs.List.{list_any};
ghost use Rattle.std.specs.Option.{option_and_then, option_map};
ghost use Rattle.std.specs.Prelude.{◌≡◌, bytes_eq, filter, IfOk, length, map};

use crate::dll_check::dll_name::loader_name;
use crate::dll_check::verdict::{Ask, Verdict, judge};
use implib_dll::Exports;
use implib_read::{AskFound, ImportFound, ImportKind, MemberClass, MemberRead};
use std::alloc::{AllocError, Global};

/// Why an import is lost: a program that is linked with it does not start, or does not do what it
/// means.
#[derive(Clone, Copy, Debug, PartialEq, Eq)]
pub enum Loss {
    /// It is of another DLL.
    OtherDll,
    /// It is for another machine.
    OtherMachine,
    /// A loader finds nothing for the name or the ordinal.
    NotFound,
    /// Data is imported as a function, whose stub would jump into it.
    DataAsFunction,
}

/// What a member of a library comes to in a DLL.
#[derive(Clone, Copy, Debug, PartialEq, Eq)]
pub enum Judgement {
    /// The member is no import.
    NoImport,
    /// A loader finds what it asks for at once.
    Reached,
    /// A loader finds it by a search, since the name does not stand at its hint.
    Searched,
    Lost(Loss),
}

// Whether an import is of data.
pub(crate) fn is_of_data(kind: ImportKind) -> bool
    ensures { result ≡ is_of_data kind }
{
    match kind {
        ImportKind::Code | ImportKind::CodeOrConst | ImportKind::Delayed => false,
        ImportKind::Data | ImportKind::Const => true,
    }
}

// What an import asks for.
pub(crate) fn ask_of(ask: AskFound<'_>) -> Ask<'_>
    ensures { ask_view result ≡ asked_view ask.entry }
{
    match ask {
        AskFound::Name(name, hint) => Ask::Name(name, hint),
        AskFound::Ordinal(ordinal) => Ask::Ordinal(ordinal),
    }
}

// Whether a name is one of these.
pub(crate) fn is_among(names: &[Vec<u8>], name: &[u8]) -> bool
    ensures { result ≡ list_any (λ one. bytes_eq name.now one) (map (λ one. one.items) names.now) }
{
    for one in names {
        if name == one.as_slice() {
            return true;
        }
    }
    false
}

// Whether a loader knows a DLL by one of these names.
pub(crate) fn is_called(alloc: Global, names: &[Vec<u8>], dll: &[u8]) -> Result<bool, AllocError>
    ensures { IfOk result
        (λ called. called ≡ is_called (map (λ one. one.items) names.now) dll.now) }
{
    let name = loader_name(alloc, dll)?;
    Ok(is_among(names, &name))
}

// What an import comes to that a loader looks up.
pub(crate) fn judged_by(verdict: &Verdict<'_>) -> Judgement
    ensures { result ≡ judged_by (verdict_view verdict.now) }
{
    if verdict.target.is_none() {
        Judgement::Lost(Loss::NotFound)
    } else if !verdict.fits_kind {
        Judgement::Lost(Loss::DataAsFunction)
    } else if verdict.at_once {
        Judgement::Reached
    } else {
        Judgement::Searched
    }
}

// What an import comes to.
fn judged(
    alloc: Global,
    exports: &Exports<'_>,
    names: &[Vec<u8>],
    import: &ImportFound<'_>,
) -> Result<Judgement, AllocError>
    ensures { IfOk result (λ found. found ≡ judged (exports_view exports.now)
        (map (λ one. one.items) names.now) (imported_view import.now)) }
{
    if !is_called(alloc, names, import.dll)? {
        return Ok(Judgement::Lost(Loss::OtherDll));
    }
    if import.machine != exports.machine {
        return Ok(Judgement::Lost(Loss::OtherMachine));
    }
    let verdict = judge(exports, ask_of(import.ask), is_of_data(import.kind));
    Ok(judged_by(&verdict))
}

// What a member comes to.
fn judged_member(
    alloc: Global,
    exports: &Exports<'_>,
    names: &[Vec<u8>],
    member: &MemberRead<'_>,
) -> Result<Judgement, AllocError>
    ensures { IfOk result (λ found. found ≡ judged_member (exports_view exports.now)
        (map (λ one. one.items) names.now) (member_read_view member.now)) }
{
    match &member.class {
        MemberClass::Import(import) => judged(alloc, exports, names, import),
        _ => Ok(Judgement::NoImport),
    }
}

/// What the members of a library come to, in order, in a DLL that loaders know by these names
/// ([`loader_name`]). Time is linear in the members, but for the searches of names whose hints are
/// wrong.
///
/// [`loader_name`]: crate::dll_check::loader_name
pub fn judgements(
    alloc: Global,
    exports: &Exports<'_>,
    names: &[Vec<u8>],
    members: &[MemberRead<'_>],
) -> Result<Vec<Judgement>, AllocError>
    ensures { IfOk result (λ found. found.items ≡ judgements (exports_view exports.now)
        (map (λ one. one.items) names.now) (map member_read_view members.now)) }
{
    let mut found = Vec::with_capacity(alloc, members.len())?;
    for member in members {
        found.push(judged_member(alloc, exports, names, member)?)?;
    }
    Ok(found)
}

impl Judgement {
    /// Whether it is that of an import.
    pub fn is_import(self) -> bool
        ensures { result ≡ IsImport self }
    {
        match self {
            Judgement::NoImport => false,
            Judgement::Reached | Judgement::Searched | Judgement::Lost(_) => true,
        }
    }

    /// Whether it is that of an import which is lost.
    pub fn is_lost(self) -> bool
        ensures { result ≡ IsLost self }
    {
        match self {
            Judgement::Lost(_) => true,
            Judgement::NoImport | Judgement::Reached | Judgement::Searched => false,
        }
    }

    /// Whether it is that of an import which a loader searches for.
    pub fn is_searched(self) -> bool
        ensures { result ≡ IsSearched self }
    {
        match self {
            Judgement::Searched => true,
            Judgement::NoImport | Judgement::Reached | Judgement::Lost(_) => false,
        }
    }
}

// What a member asks a DLL for that loaders know by these names, if it does.
fn ask_in<'a>(
    alloc: Global,
    names: &[Vec<u8>],
    member: &MemberRead<'a>,
) -> Result<Option<Ask<'a>>, AllocError>
    ensures { IfOk result (λ found. option_map ask_view found ≡ option_and_then
        (ask_of_called (map (λ one. one.items) names.now))
        (import_in (class_view member.now.class))) }
{
    let MemberClass::Import(import) = &member.class else {
        return Ok(None);
    };
    if is_called(alloc, names, import.dll)? {
        Ok(Some(ask_of(import.ask)))
    } else {
        Ok(None)
    }
}

/// What the members of a library ask a DLL for that loaders know by these names, in order.
pub fn asks_in<'a>(
    alloc: Global,
    names: &[Vec<u8>],
    members: &[MemberRead<'a>],
) -> Result<Vec<Ask<'a>>, AllocError>
    ensures { IfOk result (λ asks. map ask_view asks.items
        ≡ asks_in (map (λ one. one.items) names.now) (map member_read_view members.now)) }
{
    let mut asks = Vec::new(alloc);
    for member in members {
        if let Some(ask) = ask_in(alloc, names, member)? {
            asks.push(ask)?;
        }
    }
    Ok(asks)
}
