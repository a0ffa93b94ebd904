//! The members of a DLL's library.

ghost use Rattle.implib.specs.Definition.{export_view};
ghost use Rattle.implib_dll.specs.Views.{exports_view};
ghost use Rattle.implib_libraries.specs.OfDll.Members.{IsListUnmade, IsUnmade, MembersOfDll};
ghost use Rattle.implib_libraries.specs.OfDll.Members.{MembersOfList, dll_named};
ghost use Rattle.implib_libraries.specs.declared.of_dll.members.Unmade.TheVariants as unmade;
ghost use Rattle.implib_rules.specs.Options.{library_options_view};
ghost use Rattle.std.specs.Prelude.{◌≡◌, IfErr, IfOk, None, map, option_map};
ghost use Rattle.std.specs.Str.{IsUtf8};

use crate::from_dll::{Unsaid, exports_of};
use implib::def::ShortExport;
use implib_dll::Exports;
use implib_rules::exports::{ExportsRefusal, members_of_exports};
use implib_rules::members::LibraryMembers;
use implib_rules::options::LibraryOptions;
use std::alloc::Global;

/// Why a DLL has no library.
#[derive(Debug, Drop, thiserror::Error)]
pub enum Unmade {
    /// The name of the DLL in its export directory is not UTF-8, and no other is given.
    #[error("the name in its export directory is not UTF-8")]
    NameNotUtf8,
    /// An export has no place in a definition.
    #[error("{0}")]
    Unsaid(Unsaid),
    /// There is no name of the DLL.
    #[error("no name of the DLL")]
    NoName,
    /// An export, whose index the fault has, or the name of the DLL is refused.
    #[error("{0}")]
    Members(implib::Fault),
    /// An allocation failed.
    #[error("out of memory")]
    OutOfMemory,
}

// The name of a DLL: the one that is given, or else its own, or that of its file where that is
// empty.
fn dll_named<'a>(path: &'a str, own: &'a [u8], given: Option<&'a str>) -> Result<&'a str, Unmade>
    ensures named { IfOk result (λ name. name.now
        ≡ dll_named path.now own.now (option_map (λ text. text.now) given.entry)) }
    ensures refused { IfErr result (λ why. (why ≡ unmade.NameNotUtf8)
        × ((option_map (λ text. text.now) given.entry ≡ None) × (¬ (IsUtf8 own.now)))) }
{
    if let Some(name) = given {
        return Ok(name);
    }
    if own.is_empty() {
        return Ok(path);
    }
    match str::from_utf8(own) {
        Ok(name) => Ok(name),
        Err(_) => Err(Unmade::NameNotUtf8),
    }
}

/// The members of the library of these exports of the DLL of a file, for the DLL's name that the
/// options give, or else that of its export directory, or that of the file where that is empty.
///
/// # Errors
///
/// As the variants say, but for `Unsaid`.
pub fn members_of_list(
    alloc: Global,
    exports: &Exports<'_>,
    list: Vec<ShortExport>,
    path: &str,
    options: &LibraryOptions<'_>,
) -> Result<LibraryMembers, Unmade>
    ensures made { IfOk result (λ members. MembersOfList (map export_view list.items)
        (exports_view exports.now) path.now (library_options_view options.now) members) }
    ensures refused { IfErr result (IsListUnmade (map export_view list.items)
        (exports_view exports.now) path.now (library_options_view options.now)) }
{
    let dll = dll_named(path, exports.dll, options.dll)?;
    let named = LibraryOptions {
        dll: Some(dll),
        ..*options
    };
    match members_of_exports(alloc, list, &named) {
        Ok(members) => Ok(members),
        Err(ExportsRefusal::NoName) => Err(Unmade::NoName),
        Err(ExportsRefusal::Members(fault)) => Err(Unmade::Members(fault)),
        Err(ExportsRefusal::OutOfMemory) => Err(Unmade::OutOfMemory),
    }
}

/// The members of the library of the DLL of a file: those of its exports, for the DLL's name as
/// above.
///
/// # Errors
///
/// As the variants say.
pub fn members_of_dll(
    alloc: Global,
    exports: &Exports<'_>,
    path: &str,
    options: &LibraryOptions<'_>,
) -> Result<LibraryMembers, Unmade>
    ensures made { IfOk result (λ members. MembersOfDll (exports_view exports.now) path.now
        (library_options_view options.now) members) }
    ensures refused { IfErr result (IsUnmade (exports_view exports.now) path.now
        (library_options_view options.now)) }
{
    match exports_of(alloc, exports) {
        Ok(list) => members_of_list(alloc, exports, list, path, options),
        Err(Unsaid::OutOfMemory) => Err(Unmade::OutOfMemory),
        Err(unsaid) => Err(Unmade::Unsaid(unsaid)),
    }
}
