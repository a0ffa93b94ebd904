//! What a loader finds for an import.

ghost use Rattle.implib_dll.specs.Views.{exports_view, name_view, target_view};
ghost use Rattle.implib_compare.specs.DllCheck.Verdict.{ask_view, fits_kind, needs_no_search, stands_at};
ghost use Rattle.implib_compare.specs.DllCheck.Verdict.{verdict_of, verdict_view};
ghost use Rattle.implib_libraries.specs.FromDll.Laws.{found};
ghost use Rattle.std.specs.Option.{option_map};
ghost use Rattle.std.specs.Prelude.{◌≡◌, map};

use implib_dll::{AddressKind, Exports, Name, Target};

/// What an import asks a DLL for.
#[derive(Clone, Copy, Debug)]
pub enum Ask<'a> {
    /// A name, with the hint at which position of the name table it may be.
    Name(&'a [u8], u16),
    /// An ordinal.
    Ordinal(u16),
}

/// What a loader finds for an import.
#[derive(Clone, Copy, Debug)]
pub struct Verdict<'a> {
    /// The target. Where there is none, a program that is linked with the import does not start.
    pub target: Option<Target<'a>>,
    /// Whether the loader needs no search: by ordinal, or since the name stands at its hint.
    pub at_once: bool,
    /// Whether no data is imported as a function, whose stub would jump into it.
    pub fits_kind: bool,
}

// What is found.
pub(crate) fn found<'a>(exports: &Exports<'a>, ask: Ask<'_>) -> Option<Target<'a>>
    ensures { option_map target_view result ≡ found (exports_view exports.now)
        (ask_view ask.entry) }
{
    match ask {
        Ask::Name(name, hint) => exports.by_name(name, hint),
        Ask::Ordinal(ordinal) => exports.by_ordinal(ordinal as u32),
    }
}

// Whether a name stands at a position.
fn stands_at(names: &[Name<'_>], name: &[u8], position: usize) -> bool
    ensures { result ≡ stands_at (map name_view names.now) name.now position }
{
    if position >= names.len() {
        return false;
    }
    names[position].text == name
}

// Whether the loader needs no search.
fn needs_no_search(exports: &Exports<'_>, ask: Ask<'_>) -> bool
    ensures { result ≡ needs_no_search (exports_view exports.now) (ask_view ask.entry) }
{
    match ask {
        Ask::Name(name, hint) => stands_at(&exports.names, name, hint as usize),
        Ask::Ordinal(_) => true,
    }
}

// Whether no data is imported as a function.
fn fits_kind(target: Option<Target<'_>>, is_data: bool) -> bool
    ensures { result ≡ fits_kind (option_map target_view target.entry) is_data }
{
    match target {
        Some(Target::Address(_, AddressKind::Data)) => is_data,
        _ => true,
    }
}

/// What a loader finds for an import, which is of data or of a function.
pub fn judge<'a>(exports: &Exports<'a>, ask: Ask<'_>, is_data: bool) -> Verdict<'a>
    ensures { verdict_view result ≡ verdict_of (exports_view exports.now) (ask_view ask.entry)
        is_data }
{
    let target = found(exports, ask);
    Verdict {
        target,
        at_once: needs_no_search(exports, ask),
        fits_kind: fits_kind(target, is_data),
    }
}
