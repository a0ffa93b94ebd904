//! By which short imports linkers ask a DLL for different names.

ghost use Rattle.std.specs.Prelude.{◌≡◌, map, IfOk};
ghost use Rattle.std.specs.Option.{option_map};
ghost use Rattle.implib.specs.Formats.GnuReading.{ask_by_gnu, asked_by_gnu, without_prefix_by_gnu};
ghost use Rattle.implib_read.specs.ArchiveViews.{member_view};
ghost use Rattle.implib_read.specs.Cutting.{cut_apart, cut_by_member, cut_by_short_import, cut_of};
ghost use Rattle.implib_read.specs.CuttingViews.{cut_apart_view, cut_view};
ghost use Rattle.implib_read.specs.ImportViews.{ask_view};
ghost use Rattle.implib_read.specs.ShortImports.{short_import_view};

use crate::archive::StoredMember;
use crate::import::AskFound;
use crate::short_import::ShortImport;
use crate::short_meaning::ask_of_found;
use implib::msvc::name_type::{before_at_sign, without_prefix};
use std::alloc::{AllocError, Global};

/// I386, where C's symbols begin with an underscore.
const I386: u16 = 0x14C;

/// A symbol, and the names that linkers ask its DLL for.
#[derive(Clone, Copy)]
pub struct Cut<'a> {
    pub symbol: &'a [u8],
    pub by_lld: &'a [u8],
    pub by_gnu: &'a [u8],
}

/// A member that is a short import by which linkers ask for different names.
#[derive(Clone, Copy)]
pub struct CutApart<'a> {
    pub member: StoredMember<'a>,
    pub cut: Cut<'a>,
}

/// A symbol without its prefix, as GNU `ld` cuts it.
fn without_prefix_by_gnu(machine: u16, symbol: &[u8]) -> &[u8]
    ensures { result.now ≡ without_prefix_by_gnu machine symbol.now }
{
    match symbol {
        [b'_', ..] if machine != I386 => symbol,
        _ => without_prefix(symbol),
    }
}

/// The name that GNU `ld` asks for by a name type and a symbol.
fn asked_by_gnu(machine: u16, name_type: u16, symbol: &[u8]) -> &[u8]
    ensures { result.now ≡ asked_by_gnu machine name_type symbol.now }
{
    match name_type {
        1 => symbol,
        2 => without_prefix_by_gnu(machine, symbol),
        _ => before_at_sign(without_prefix_by_gnu(machine, symbol)),
    }
}

/// What GNU `ld` asks for by a short import without a third text.
fn ask_by_gnu<'a>(import: &ShortImport<'a>) -> AskFound<'a>
    ensures { ask_view result ≡ ask_by_gnu (short_import_view import.now).fields }
{
    if import.name_type == 0 {
        return AskFound::Ordinal(import.ordinal);
    }
    let name = asked_by_gnu(import.machine, import.name_type, import.symbol);
    AskFound::Name(name, import.ordinal)
}

/// The names of two asks, if they differ.
fn cut_of<'a>(symbol: &'a [u8], lld: Option<AskFound<'a>>, gnu: AskFound<'a>) -> Option<Cut<'a>>
    ensures { option_map cut_view result ≡ cut_of symbol.now (option_map ask_view lld.entry)
        (ask_view gnu.entry) }
{
    let Some(AskFound::Name(by_lld, _)) = lld else {
        return None;
    };
    let AskFound::Name(by_gnu, _) = gnu else {
        return None;
    };
    if by_lld == by_gnu {
        return None;
    }
    Some(Cut {
        symbol,
        by_lld,
        by_gnu,
    })
}

/// The names that linkers ask for by a short import, if they differ.
fn cut_by_short_import<'a>(import: &ShortImport<'a>) -> Option<Cut<'a>>
    ensures { option_map cut_view result ≡ cut_by_short_import (short_import_view import.now) }
{
    match import.exported {
        Some(_) => None,
        None => cut_of(import.symbol, ask_of_found(import), ask_by_gnu(import)),
    }
}

/// The names that linkers ask for by a member, if they differ.
fn cut_by_member<'a>(member: &StoredMember<'a>) -> Option<CutApart<'a>>
    ensures { option_map cut_apart_view result ≡ cut_by_member (member_view member.now) }
{
    let Some(import) = ShortImport::read(member.bytes) else {
        return None;
    };
    match cut_by_short_import(&import) {
        Some(cut) => Some(CutApart {
            member: *member,
            cut,
        }),
        None => None,
    }
}

/// The members that are short imports by which lld and GNU `ld` ask the DLL for different names, in
/// order: off I386 GNU `ld` leaves an underscore where a name type takes the prefix off.
pub fn cut_apart<'a>(
    alloc: Global,
    members: &[StoredMember<'a>],
) -> Result<Vec<CutApart<'a>>, AllocError>
    ensures { IfOk result (λ found. map cut_apart_view found.items
        ≡ cut_apart (map member_view members.now)) }
{
    let mut found = Vec::new(alloc);
    for member in members {
        let Some(cut) = cut_by_member(member) else {
            continue;
        };
        found.push(cut)?;
    }
    Ok(found)
}
