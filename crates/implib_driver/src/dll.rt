//! The members of a DLL's library.

ghost use Rattle.implib.specs.Definition.{export_view};
ghost use Rattle.implib_dll.specs.Views.{exports_view};
ghost use Rattle.implib_driver.specs.Dll.{IsRefusalOfReading, IsUnlisted, IsUnmade, IsUnsuited};
ghost use Rattle.implib_driver.specs.Dll.{MembersOfDll, ReadsDll, SuitsDll, begins_dll, dll_status};
ghost use Rattle.implib_driver.specs.Request.{request_view};
ghost use Rattle.implib_libraries.specs.FromDll.Definition.{exports_of};
ghost use Rattle.std.specs.Prelude.{◌≡◌, IfErr, IfOk, OnOk, map};

use crate::request::{CallFault, Request};
use implib::def::ShortExport;
use implib_dll::{Exports, Fault, ReadError};
use implib_libraries::from_dll::{Unsaid, exports_of};
use implib_libraries::of_dll::{Unmade, members_of_list};
use implib_rules::members::LibraryMembers;
use std::alloc::Global;

/// Why a DLL has no import library here.
#[derive(Debug, Drop)]
pub enum DllRefusal {
    /// The file is refused for its first fault.
    Read(Fault),
    /// It has no export directory.
    NoExports,
    /// It is for a machine of this number.
    UnknownMachine(u16),
    /// The options name another machine.
    OtherMachine,
    /// The options name ARM64EC, for which only definitions have libraries.
    Arm64ec,
    /// `--compat-implib`, which is for definitions.
    OlderSymbols,
    /// `--output-delaylib`, which is for definitions.
    Delayed,
    /// `--decorations` for another machine than I386.
    Undecorated,
    /// The name of the DLL in its export directory is not UTF-8.
    NameNotUtf8,
    /// An export has no place in a definition.
    Unsaid(Unsaid),
    /// There is no name of the DLL.
    NoName,
    /// An export, whose index the fault has, or the name of the DLL is refused.
    Members(implib::Fault),
    /// An allocation failed.
    OutOfMemory,
}

/// Why a call asks for no library of a DLL.
#[derive(Debug, Drop)]
pub enum DllCallError<'a> {
    /// The options do not fit the machine of the DLL.
    Call(CallFault<'a>),
    /// The DLL has no library.
    Dll(DllRefusal),
}

/// Whether bytes begin as an image does: with `MZ`. No definition does.
pub fn begins_dll(bytes: &[u8]) -> bool
    ensures { result ≡ begins_dll bytes.now }
{
    bytes.starts_with(b"MZ")
}

/// What a DLL exports.
///
/// # Errors
///
/// `Read`; `NoExports`; or an allocation failed.
pub fn dll_exports(alloc: Global, bytes: &[u8]) -> Result<Exports<'_>, DllRefusal>
    ensures read { IfOk result (λ exports. ReadsDll bytes.now (exports_view exports)) }
    ensures refused { IfErr result (IsRefusalOfReading bytes.now) }
{
    match Exports::read(alloc, bytes) {
        Ok(Some(exports)) => Ok(exports),
        Ok(None) => Err(DllRefusal::NoExports),
        Err(ReadError::Refused(fault)) => Err(DllRefusal::Read(fault)),
        Err(ReadError::OutOfMemory) => Err(DllRefusal::OutOfMemory),
    }
}

// Whether a DLL can have what is asked for beside its library.
fn test_request(request: &Request<'_>) -> Result<(), DllRefusal>
    ensures suits { OnOk result (SuitsDll (request_view request.now)) }
    ensures refused { IfErr result (IsUnsuited (request_view request.now)) }
{
    if request.older_symbols {
        return Err(DllRefusal::OlderSymbols);
    }
    if request.delayed.is_some() {
        return Err(DllRefusal::Delayed);
    }
    if request.decorations.is_some() && !request.library.machine.has_leading_underscore() {
        return Err(DllRefusal::Undecorated);
    }
    Ok(())
}

/// The exports of a DLL, as a definition has them.
///
/// # Errors
///
/// `OlderSymbols`; `Delayed`; `Undecorated`; `Unsaid`; or an allocation failed.
pub fn list_of_dll(
    alloc: Global,
    exports: &Exports<'_>,
    request: &Request<'_>,
) -> Result<Vec<ShortExport>, DllRefusal>
    ensures listed { IfOk result
        (λ list. map export_view list.items ≡ exports_of (exports_view exports.now)) }
    ensures suits { OnOk result (SuitsDll (request_view request.now)) }
    ensures refused { IfErr result
        (IsUnlisted (exports_view exports.now) (request_view request.now)) }
{
    if let Err(refusal) = test_request(request) {
        return Err(refusal);
    }
    match exports_of(alloc, exports) {
        Ok(list) => Ok(list),
        Err(Unsaid::OutOfMemory) => Err(DllRefusal::OutOfMemory),
        Err(unsaid) => Err(DllRefusal::Unsaid(unsaid)),
    }
}

/// The members of the library of these exports of a DLL.
///
/// # Errors
///
/// `NameNotUtf8`; `NoName`; `Members`; or an allocation failed.
pub fn members_of_dll(
    alloc: Global,
    exports: &Exports<'_>,
    list: Vec<ShortExport>,
    request: &Request<'_>,
) -> Result<LibraryMembers, DllRefusal>
    ensures made { IfOk result (λ members. MembersOfDll (exports_view exports.now)
        (map export_view list.items) (request_view request.now) members) }
    ensures refused { IfErr result (IsUnmade (exports_view exports.now)
        (map export_view list.items) (request_view request.now)) }
{
    match members_of_list(alloc, exports, list, request.definition, &request.library) {
        Ok(members) => Ok(members),
        Err(Unmade::NameNotUtf8) => Err(DllRefusal::NameNotUtf8),
        Err(Unmade::Unsaid(unsaid)) => Err(DllRefusal::Unsaid(unsaid)),
        Err(Unmade::NoName) => Err(DllRefusal::NoName),
        Err(Unmade::Members(fault)) => Err(DllRefusal::Members(fault)),
        Err(Unmade::OutOfMemory) => Err(DllRefusal::OutOfMemory),
    }
}

impl DllRefusal {
    /// The exit status: 1, and 3 for want of memory.
    pub fn status(&self) -> u8
        ensures { result ≡ dll_status self.now }
    {
        match self {
            DllRefusal::OutOfMemory => 3,
            _ => 1,
        }
    }
}
