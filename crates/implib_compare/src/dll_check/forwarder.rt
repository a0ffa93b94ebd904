//! Where forwarders lead.

ghost use Rattle.implib_dll.specs.Views.{exports_view, target_view};
ghost use Rattle.implib_compare.specs.DllCheck.Forwarding.{at_target, end_by, end_of, end_of_member, ends};
ghost use Rattle.implib_compare.specs.DllCheck.Forwarding.{forwarder_at, forwarder_of, found_behind};
ghost use Rattle.implib_compare.specs.DllCheck.Forwarding.{in_content, in_exports, in_known, is_digit};
ghost use Rattle.implib_compare.specs.DllCheck.Forwarding.{known_by};
ghost use Rattle.implib_compare.specs.DllCheck.Forwarding.{most_forwarders, next_step, number_of};
ghost use Rattle.implib_compare.specs.DllCheck.Forwarding.{split_last};
ghost use Rattle.implib_compare.specs.DllCheck.ForwardingViews.{beside_view, content_view, end_view};
ghost use Rattle.implib_compare.specs.DllCheck.ForwardingViews.{step_view};
ghost use Rattle.implib_read.specs.ClassViews.{imported_view, member_read_view};
ghost use Rattle.std.specs.Option.{option_map};
ghost use Rattle.std.specs.Prelude.{◌≡◌, ◌%◌, ◌^◌, IfOk, map};

use crate::dll_check::dll_name::loader_name;
use crate::dll_check::import::{ask_of, is_among, is_called, is_of_data};
use crate::dll_check::verdict::found;
use implib_dll::{AddressKind, Exports, Target};
use implib_read::{ImportFound, MemberClass, MemberRead};
use std::alloc::{AllocError, Global};

/// How many forwarders are followed, one after the other, so that time is linear in the exports. No
/// DLL that was seen needs more than four.
pub const MOST_FORWARDERS: usize = 32;

/// What there is of a DLL that a forwarder names.
#[derive(Drop)]
pub enum DllContent<'a> {
    NoFile,
    /// Its file is no image that is read.
    Refused,
    NoExports,
    Holds(Exports<'a>),
}

/// A DLL of a loader's name ([`loader_name`]), and what there is of it.
///
/// [`loader_name`]: crate::dll_check::loader_name
#[derive(Drop)]
pub struct NamedDll<'a> {
    pub name: Vec<u8>,
    pub content: DllContent<'a>,
}

/// Why a forwarder leads to nothing.
#[derive(Clone, Copy, Debug, PartialEq, Eq)]
pub enum Stop {
    /// Its text has no full stop, and so no DLL's name.
    NoFullStop,
    /// There is no DLL of that name.
    NoFile,
    /// The DLL is no image that is read.
    Refused,
    /// The DLL exports nothing.
    NoExports,
    /// The DLL is for another machine.
    OtherMachine,
    /// The DLL does not export what it is asked for.
    NotExported,
    /// Data is imported as a function, whose stub would jump into it.
    DataAsFunction,
    /// Each of [`MOST_FORWARDERS`] leads to another one, as in a circle.
    Endless,
}

/// Where a forwarder leads in the end.
#[derive(Clone, Copy, Debug)]
pub enum End<'a> {
    /// To an address.
    Arrives,
    /// To nothing: the last forwarder's text, and why.
    Stops(&'a [u8], Stop),
    /// To a DLL of which nothing is known, by the name that the last forwarder gives it.
    Unknown(&'a [u8]),
}

// Where one forwarder leads.
#[derive(Clone, Copy)]
enum Step<'a> {
    On(&'a [u8]),
    Ends(End<'a>),
}

/// What is before the last full stop of a text, and what is behind it: of a forwarder the DLL and
/// what it is asked for.
pub fn split_last(text: &[u8]) -> Option<(&[u8], &[u8])>
    ensures { option_map (λ parts. (parts.0.now, parts.1.now)) result ≡ split_last text.now }
{
    let mut end = text.len();
    while end > 0 {
        end -= 1;
        if text[end] == b'.' {
            return Some((&text[..end], &text[end + 1..]));
        }
    }
    None
}

// Whether a byte is a digit.
fn is_digit(byte: u8) -> bool
    ensures { result ≡ is_digit byte }
{
    48 <= byte && byte <= 57
}

// The number that a text begins with, modulo 2^32, as ordinals are counted.
fn number_of(text: &[u8]) -> u32
    ensures { result ≡ number_of text.now % 2 ^ 32 }
{
    let mut number: u32 = 0;
    for byte in text {
        if !is_digit(*byte) {
            return number;
        }
        number = number.wrapping_mul(10).wrapping_add((*byte - 48) as u32);
    }
    number
}

// What a forwarder asks a DLL for: behind `#` by an ordinal, else by a name.
fn found_behind<'a>(exports: &Exports<'a>, asked: &[u8]) -> Option<Target<'a>>
    ensures { option_map target_view result ≡ found_behind (exports_view exports.now) asked.now }
{
    match asked {
        [b'#', digits @ ..] => exports.by_ordinal(number_of(digits)),
        _ => exports.by_name_alone(asked),
    }
}

// Where a forwarder leads that comes to a target.
fn at_target<'a>(is_data: bool, text: &'a [u8], target: Option<Target<'a>>) -> Step<'a>
    ensures { step_view result
        ≡ at_target is_data text.now (option_map target_view target.entry) }
{
    match target {
        None | Some(Target::Empty) => Step::Ends(End::Stops(text, Stop::NotExported)),
        Some(Target::Forwarder(next)) => Step::On(next),
        Some(Target::Address(_, AddressKind::Data)) if !is_data => {
            Step::Ends(End::Stops(text, Stop::DataAsFunction))
        }
        Some(Target::Address(_, _)) => Step::Ends(End::Arrives),
    }
}

// Where a forwarder leads in a DLL.
fn in_exports<'a>(
    machine: u16,
    is_data: bool,
    text: &'a [u8],
    asked: &[u8],
    exports: &Exports<'a>,
) -> Step<'a>
    ensures { step_view result
        ≡ in_exports machine is_data text.now asked.now (exports_view exports.now) }
{
    if machine == exports.machine {
        at_target(is_data, text, found_behind(exports, asked))
    } else {
        Step::Ends(End::Stops(text, Stop::OtherMachine))
    }
}

// Where a forwarder leads in what there is of a DLL.
fn in_content<'a>(
    machine: u16,
    is_data: bool,
    text: &'a [u8],
    asked: &[u8],
    content: &DllContent<'a>,
) -> Step<'a>
    ensures { step_view result ≡ in_known machine is_data text.now asked.now
        (content_view content.now) }
{
    match content {
        DllContent::NoFile => Step::Ends(End::Stops(text, Stop::NoFile)),
        DllContent::Refused => Step::Ends(End::Stops(text, Stop::Refused)),
        DllContent::NoExports => Step::Ends(End::Stops(text, Stop::NoExports)),
        DllContent::Holds(exports) => in_exports(machine, is_data, text, asked, exports),
    }
}

/// A DLL that loaders know by some names, and other DLLs of which something is known.
#[derive(Clone, Copy)]
pub struct Beside<'e, 'a> {
    pub exports: &'e Exports<'a>,
    /// The names by which loaders know it ([`loader_name`]).
    ///
    /// [`loader_name`]: crate::dll_check::loader_name
    pub names: &'e [Vec<u8>],
    /// Of two of one name the first counts.
    pub others: &'e [NamedDll<'a>],
}

// Where a forwarder leads in the DLL of a loader's name.
fn in_named<'a>(
    beside: &Beside<'_, 'a>,
    is_data: bool,
    text: &'a [u8],
    parts: (&'a [u8], &'a [u8]),
    name: &[u8],
) -> Step<'a>
    ensures { step_view result ≡ in_content beside.now.exports.now.machine is_data text.now
        (parts.entry.0.now, parts.entry.1.now) (known_by (beside_view beside.now) name.now) }
{
    let machine = beside.exports.machine;
    if is_among(beside.names, name) {
        return in_exports(machine, is_data, text, parts.1, beside.exports);
    }
    for dll in beside.others {
        if name == dll.name.as_slice() {
            return in_content(machine, is_data, text, parts.1, &dll.content);
        }
    }
    Step::Ends(End::Unknown(parts.0))
}

// Where one forwarder leads.
fn next_step<'a>(
    alloc: Global,
    beside: &Beside<'_, 'a>,
    is_data: bool,
    text: &'a [u8],
) -> Result<Step<'a>, AllocError>
    ensures { IfOk result (λ next. step_view next ≡ next_step (known_by (beside_view beside.now))
        beside.now.exports.now.machine is_data text.now) }
{
    let Some(parts) = split_last(text) else {
        return Ok(Step::Ends(End::Stops(text, Stop::NoFullStop)));
    };
    let name = loader_name(alloc, parts.0)?;
    Ok(in_named(beside, is_data, text, parts, &name))
}

/// Where a forwarder of a DLL leads in the end, for an import that is of data or of a function. At
/// most [`MOST_FORWARDERS`] are followed.
pub fn follow<'a>(
    alloc: Global,
    beside: &Beside<'_, 'a>,
    is_data: bool,
    text: &'a [u8],
) -> Result<End<'a>, AllocError>
    ensures { IfOk result (λ end. end_view end ≡ end_by most_forwarders
        (known_by (beside_view beside.now)) beside.now.exports.now.machine is_data text.now) }
{
    let mut left = MOST_FORWARDERS;
    let mut last = text;
    while left > 0 {
        left -= 1;
        match next_step(alloc, beside, is_data, last)? {
            Step::On(next) => last = next,
            Step::Ends(end) => return Ok(end),
        }
    }
    Ok(End::Stops(last, Stop::Endless))
}

// The text of a target that is a forwarder.
pub(crate) fn forwarder_at(target: Option<Target<'_>>) -> Option<&[u8]>
    ensures { option_map (λ text. text.now) result
        ≡ forwarder_at (option_map target_view target.entry) }
{
    match target {
        Some(Target::Forwarder(text)) => Some(text),
        _ => None,
    }
}

// The forwarder that an import comes to in a DLL, if it does.
fn forwarder_of<'a>(
    alloc: Global,
    exports: &Exports<'a>,
    names: &[Vec<u8>],
    import: &ImportFound<'_>,
) -> Result<Option<&'a [u8]>, AllocError>
    ensures { IfOk result (λ text. option_map (λ found. found.now) text
        ≡ forwarder_of (exports_view exports.now) (map (λ one. one.items) names.now)
        (imported_view import.now)) }
{
    if is_called(alloc, names, import.dll)? && import.machine == exports.machine {
        Ok(forwarder_at(found(exports, ask_of(import.ask))))
    } else {
        Ok(None)
    }
}

// Where the forwarder of an import leads.
fn end_of<'a>(
    alloc: Global,
    beside: &Beside<'_, 'a>,
    import: &ImportFound<'_>,
) -> Result<Option<End<'a>>, AllocError>
    ensures { IfOk result (λ end. option_map end_view end
        ≡ end_of (beside_view beside.now) (imported_view import.now)) }
{
    match forwarder_of(alloc, beside.exports, beside.names, import)? {
        Some(text) => {
            let end = follow(alloc, beside, is_of_data(import.kind), text)?;
            Ok(Some(end))
        }
        None => Ok(None),
    }
}

// The same of a member.
fn end_of_member<'a>(
    alloc: Global,
    beside: &Beside<'_, 'a>,
    member: &MemberRead<'_>,
) -> Result<Option<End<'a>>, AllocError>
    ensures { IfOk result (λ end. option_map end_view end
        ≡ end_of_member (beside_view beside.now) (member_read_view member.now)) }
{
    match &member.class {
        MemberClass::Import(import) => end_of(alloc, beside, import),
        _ => Ok(None),
    }
}

/// Where the forwarders lead that the members of a library come to in a DLL, in order; nothing of a
/// member that is no import of the DLL, or comes to no forwarder. Time is linear in the members,
/// but for the forwarders that each of them follows and the searches of names.
pub fn ends<'a>(
    alloc: Global,
    beside: &Beside<'_, 'a>,
    members: &[MemberRead<'_>],
) -> Result<Vec<Option<End<'a>>>, AllocError>
    ensures { IfOk result (λ found. map (option_map end_view) found.items
        ≡ ends (beside_view beside.now) (map member_read_view members.now)) }
{
    let mut found = Vec::with_capacity(alloc, members.len())?;
    for member in members {
        found.push(end_of_member(alloc, beside, member)?)?;
    }
    Ok(found)
}
