//! What the imports of a library, or of a definition, come to in a DLL.
//!
//! A loader knows a DLL by the name of its file, whatever its export directory calls it; a call says
//! of a copy what its file is called elsewhere. That a loader searches for a name, since its hint is
//! off, changes nothing but time: it is told, and no fault. An export that no import asks for is
//! told with `--all`, and a forwarder that leads to nothing with `--search`.

ghost use Rattle.implib_check_driver.specs.Against.{against_status, begins_archive, begins_dll};
ghost use Rattle.implib_check_driver.specs.Against.{has_options, held_status, is_library, names_of};
ghost use Rattle.implib_check_driver.specs.Against.{IsHeldAs, options_against};
ghost use Rattle.implib_check_driver.specs.Answer.{answer_view};
ghost use Rattle.implib.specs.Conversions.{machine_numbered};
ghost use Rattle.implib.specs.declared.machine.MachineType.TheVariants.{AMD64};
ghost use Rattle.implib_rules.specs.Options.{library_options_view};
ghost use Rattle.implib_check_driver.specs.Calls.{check_view};
ghost use Rattle.implib_compare.specs.Comparison.{has_unread};
ghost use Rattle.implib_dll.specs.Views.{exports_view};
ghost use Rattle.implib_compare.specs.DllCheck.Forwarding.{is_stop};
ghost use Rattle.implib_compare.specs.DllCheck.ForwardingViews.{end_view};
ghost use Rattle.implib_compare.specs.DllCheck.Imports.{is_import, is_lost, judgements};
ghost use Rattle.implib_read.specs.ClassViews.{member_read_view};
ghost use Rattle.std.specs.List.{list_any};
ghost use Rattle.std.specs.Option.{option_map};
ghost use Rattle.std.specs.Prelude.{◌≡◌, IfOk, map, unwrap_or};

use crate::answer::Answer;
use crate::call::Check;
use crate::exported::{export_at, first_positions};
use crate::finding::{Finding, Source};
use crate::list::doubt;
use crate::report::{Form, tell};
use implib::{Flavor, MachineType};
use implib_compare::compare::has_unread;
use implib_compare::dll_check::{End, Judgement, asks_in, judgements, loader_name, missing};
use implib_dll::Exports;
use implib_read::MemberRead;
use implib_rules::additions::Additions;
use implib_rules::name::last_part;
use implib_rules::options::LibraryOptions;
use std::alloc::{AllocError, Global};

/// Whether bytes begin as an image does.
pub fn begins_dll(bytes: &[u8]) -> bool
    ensures { result ≡ begins_dll bytes.now }
{
    bytes.starts_with(b"MZ")
}

/// Whether bytes begin as an archive does.
pub fn is_library(bytes: &[u8]) -> bool
    ensures { result ≡ is_library bytes.now }
{
    bytes.starts_with(b"!<arch>\n")
}

/// Whether bytes begin as an archive does, or as a thin one.
pub fn begins_archive(bytes: &[u8]) -> bool
    ensures { result ≡ begins_archive bytes.now }
{
    is_library(bytes) || bytes.starts_with(b"!<thin>\n")
}

/// Whether a call has an option that a definition alone is read by.
pub fn has_options(check: &Check) -> bool
    ensures { result ≡ has_options (check_view check.now) }
{
    let naming = check.naming;
    check.machine.is_some()
        || check.native.is_some()
        || check.flavor.is_some()
        || check.older_symbols
        || naming.is_plain
        || naming.kills_at
        || naming.exports_as
        || naming.keeps_decorated
}

/// The names by which loaders know the DLL of a file: one, the given or the file's.
pub fn names_of(alloc: Global, given: Option<&str>, path: &str) -> Result<Vec<Vec<u8>>, AllocError>
    ensures { IfOk result (λ names. map (λ name. name.items) names.items
        ≡ names_of (option_map (λ text. text.now) given.entry) path.now) }
{
    let mut names = Vec::new(alloc);
    names.push(loader_name(alloc, last_part(given.unwrap_or(path)).as_bytes())?)?;
    Ok(names)
}

// The machine of a DLL, or AMD64 where no libraries are made for it.
fn machine_of(exports: &Exports) -> MachineType
    ensures { result ≡ unwrap_or (machine_numbered exports.now.machine) AMD64 }
{
    match MachineType::try_from(exports.machine) {
        Ok(machine) => machine,
        Err(_) => MachineType::AMD64,
    }
}

/// What the library of a definition is made for that is held against a DLL: what a call names, and
/// else the machine of the DLL and Microsoft's flavour, or GNU's for older symbols.
pub fn options_against<'a>(check: &Check<'a>, exports: &Exports) -> LibraryOptions<'a>
    ensures { library_options_view result ≡ options_against (check_view check.now)
        (exports_view exports.now) }
{
    let machine = match check.machine {
        Some(machine) => machine,
        None => machine_of(exports),
    };
    let flavor = match check.flavor {
        Some(flavor) => flavor,
        None => if check.older_symbols {
            Flavor::Gnu
        } else {
            Flavor::Msvc
        },
    };
    LibraryOptions {
        machine,
        flavor,
        dll: check.dll,
        naming: check.naming,
        additions: Additions::none(),
    }
}

/// A DLL that imports are held against.
#[derive(Drop)]
pub struct Dll<'p, 'd> {
    /// The file.
    pub path: &'p str,
    pub exports: Exports<'d>,
    /// By which loaders know it.
    pub names: Vec<Vec<u8>>,
}

// Whether an import is lost.
fn loses(found: &[Judgement]) -> bool
    ensures { result ≡ list_any is_lost found.now }
{
    for one in found {
        if one.is_lost() {
            return true;
        }
    }
    false
}

// Whether there is an import.
fn imports(found: &[Judgement]) -> bool
    ensures { result ≡ list_any is_import found.now }
{
    for one in found {
        if one.is_import() {
            return true;
        }
    }
    false
}

// The exit status of what imports come to.
fn against_status(found: &[Judgement], unread: bool) -> u8
    ensures { result ≡ against_status found.now unread }
{
    if loses(found) {
        1
    } else if unread {
        4
    } else if imports(found) {
        0
    } else {
        1
    }
}

// Adds which imports are lost.
fn tell_lost(
    form: Form,
    out: &mut Vec<u8>,
    source: Source,
    members: &[MemberRead],
    path: &str,
    found: &[Judgement],
) -> Result<(), AllocError> {
    for (member, one) in members.iter().zip(found) {
        if let Judgement::Lost(loss) = *one {
            tell(form, out, &Finding::Lost(source.side(member), path, loss))?;
        }
    }
    Ok(())
}

// Whether a forwarder leads to nothing.
fn is_stop(end: &Option<End>) -> bool
    ensures { result ≡ is_stop (option_map end_view end.now) }
{
    match end {
        Some(End::Stops(_, _)) => true,
        _ => false,
    }
}

// Whether one of some forwarders does.
fn stops(ends: &[Option<End>]) -> bool
    ensures { result ≡ list_any is_stop (map (option_map end_view) ends.now) }
{
    for end in ends {
        if is_stop(end) {
            return true;
        }
    }
    false
}

// The exit status of what imports come to, and of where forwarders lead.
fn held_status(found: &[Judgement], ends: &[Option<End>], unread: bool) -> u8
    ensures { result ≡ held_status found.now (map (option_map end_view) ends.now) unread }
{
    if stops(ends) {
        1
    } else {
        against_status(found, unread)
    }
}

// Adds which imports are forwarded to nothing.
fn tell_stops(
    form: Form,
    out: &mut Vec<u8>,
    source: Source,
    members: &[MemberRead],
    path: &str,
    ends: &[Option<End>],
) -> Result<(), AllocError> {
    for (member, end) in members.iter().zip(ends) {
        if let Some(End::Stops(text, stop)) = end {
            let side = source.side(member);
            tell(form, out, &Finding::Stopped(side, path, text, *stop))?;
        }
    }
    Ok(())
}

// Adds how many imports a loader searches for, if it does for any.
fn tell_searched(
    form: Form,
    out: &mut Vec<u8>,
    source: Source,
    found: &[Judgement],
) -> Result<(), AllocError> {
    let count = found.iter().filter(|one| one.is_searched()).count();
    if count > 0 {
        tell(form, out, &Finding::Searched(source.file(), count))?;
    }
    Ok(())
}

// Adds which exports no import asks for.
fn tell_unasked(
    form: Form,
    out: &mut Vec<u8>,
    members: &[MemberRead],
    dll: &Dll,
) -> Result<(), AllocError> {
    let exports = &dll.exports;
    let asks = asks_in(form.alloc, &dll.names, members)?;
    let positions = first_positions(form.alloc, exports)?;
    for index in missing(form.alloc, exports, &asks)? {
        let export = export_at(exports, &positions, index);
        tell(form, out, &Finding::Unasked(dll.path, export))?;
    }
    Ok(())
}

// The lines for imports in a DLL: which are lost, which are forwarded to nothing, how many a loader
// searches for and, where that is asked for, which exports no import asks for.
fn held_lines(
    form: Form,
    source: Source,
    members: &[MemberRead],
    dll: &Dll,
    found: &[Judgement],
    ends: &[Option<End>],
    lists: bool,
) -> Result<Vec<u8>, AllocError> {
    let mut out = Vec::new(form.alloc);
    tell_lost(form, &mut out, source, members, dll.path, found)?;
    tell_stops(form, &mut out, source, members, dll.path, ends)?;
    tell_searched(form, &mut out, source, found)?;
    if lists {
        tell_unasked(form, &mut out, members, dll)?;
    }
    Ok(out)
}

/// The answer for imports in a DLL, by where forwarders lead, if they are followed.
pub(crate) fn hold(
    form: Form,
    source: Source,
    members: &[MemberRead],
    dll: &Dll,
    ends: &[Option<End>],
    lists: bool,
) -> Result<Answer, AllocError>
    ensures { IfOk result (λ a. IsHeldAs (exports_view dll.now.exports)
        (map (λ name. name.items) dll.now.names.items) (map member_read_view members.now)
        (map (option_map end_view) ends.now) (answer_view a)) }
{
    let mut err = Vec::new(form.alloc);
    doubt(form.alloc, &mut err, source.file().path(), members, false)?;
    let found = judgements(form.alloc, &dll.exports, &dll.names, members)?;
    Ok(Answer {
        status: held_status(&found, ends, has_unread(members)),
        out: held_lines(form, source, members, dll, &found, ends, lists)?,
        err,
    })
}
