//! The library of a DLL, of which a definition is written as of any other.
//!
//! It is the one that `implib_dlltool` makes of the DLL, for the flavour that a call names, or
//! Microsoft's, which tells all types apart. Its hints are the positions of the names, so the
//! definition has them as ordinals of exports by name, and its library has them again.

ghost use Rattle.std.specs.Prelude.{◌≡◌, IfErr, IfOk, None, unwrap_or};
ghost use Rattle.implib.specs.declared.flavor.Flavor.TheVariants.{Msvc};
ghost use Rattle.implib_archive.specs.Archive.{archive_of};
ghost use Rattle.implib_archive.specs.Refusal.{refusal_of};
ghost use Rattle.implib_check_driver.specs.Answer.{IsSaid, answer_view};
ghost use Rattle.implib_check_driver.specs.Calls.{define_view};
ghost use Rattle.implib_check_driver.specs.OfDlls.{HasNoLibrary, HaveNoLibrary, HaveNoMembers};
ghost use Rattle.implib_check_driver.specs.OfDlls.{IsLibraryOfDll, IsLibraryOfExports};
ghost use Rattle.implib_check_driver.specs.OfDlls.{IsMachineFor, IsUnkept, options_for_dll};
ghost use Rattle.implib_dll.specs.Views.{exports_view};
ghost use Rattle.implib_libraries.specs.OfDll.Members.{MembersOfDll};
ghost use Rattle.implib_rules.specs.Library.{kind_of};
ghost use Rattle.implib_rules.specs.Options.{library_options_view};

use crate::answer::{Answer, said_of, saying};
use crate::call::Define;
use crate::exported::exports_of;
use implib::{Flavor, MachineType};
use implib_dll::Exports;
use implib_libraries::of_dll::{Unmade, members_of_dll};
use implib_rules::additions::Additions;
use implib_rules::library::{Refusal, archive_for};
use implib_rules::linked::Naming;
use implib_rules::members::LibraryMembers;
use implib_rules::options::LibraryOptions;
use std::alloc::{AllocError, Global};

// The linker that the library of a DLL is made for.
fn flavor_for_dll(define: &Define) -> Flavor
    ensures { result ≡ unwrap_or (define_view define.now).flavor Msvc }
{
    define.flavor.unwrap_or(Flavor::Msvc)
}

// What the library of a DLL is made for.
fn options_for_dll<'a>(define: &Define<'a>, machine: MachineType) -> LibraryOptions<'a>
    ensures { library_options_view result ≡ options_for_dll (define_view define.now) machine }
{
    LibraryOptions {
        machine,
        flavor: flavor_for_dll(define),
        dll: None,
        naming: Naming {
            is_plain: define.is_plain,
            kills_at: false,
            exports_as: false,
            keeps_decorated: false,
        },
        additions: Additions::none(),
    }
}

// The machine of a DLL, which a call may name, or what is said of it.
fn machine_of_dll(define: &Define, exports: &Exports) -> Result<MachineType, &'static str>
    ensures machine { IfOk result
        (λ machine. IsMachineFor (define_view define.now) (exports_view exports.now) machine) }
    ensures none { IfErr result (λ _. (machine : MachineType)
        → ¬ (IsMachineFor (define_view define.now) (exports_view exports.now) machine)) }
{
    let Ok(machine) = MachineType::try_from(exports.machine) else {
        return Err("a DLL for a machine for which no libraries are made");
    };
    match define.machine {
        Some(named) if named != machine => Err("a DLL for another machine than -m names"),
        _ => Ok(machine),
    }
}

// The members of the library of a DLL for a machine, or the answer where it has none.
fn members_or_answer(
    alloc: Global,
    define: &Define,
    exports: &Exports,
    machine: MachineType,
) -> Result<Result<LibraryMembers, Answer>, AllocError>
    ensures made { IfOk result (λ found. IfOk found
        (λ members. MembersOfDll (exports_view exports.now) define.now.library.now
        (options_for_dll (define_view define.now) machine) members)) }
    ensures none { IfOk result (λ found. IfErr found
        (λ a. IsSaid 1 define.now.library.now (answer_view a)
        × HaveNoMembers (define_view define.now) (exports_view exports.now) machine)) }
{
    let options = options_for_dll(define, machine);
    match members_of_dll(alloc, exports, define.library, &options) {
        Ok(members) => Ok(Ok(members)),
        Err(Unmade::OutOfMemory) => Err(AllocError),
        Err(why) => Ok(Err(said_of(alloc, 1, define.library, why)?)),
    }
}

// The bytes of the archive of the members of a DLL's library, or the answer where it has none.
fn archive_or_answer(
    alloc: Global,
    path: &str,
    members: &LibraryMembers,
    flavor: Flavor,
) -> Result<Result<Vec<u8>, Answer>, AllocError>
    ensures kept { IfOk result (λ found. IfOk found
        (λ file. file.items ≡ archive_of (kind_of flavor members.now) members.now)) }
    ensures accepted { IfOk result (λ found. IfOk found
        (λ file. refusal_of (kind_of flavor members.now) members.now ≡ None)) }
    ensures none { IfOk result (λ found. IfErr found
        (λ a. IsSaid 1 path.now (answer_view a) × IsUnkept flavor members.now)) }
{
    let archive = match archive_for(alloc, members, flavor) {
        Ok(archive) => archive,
        Err(Refusal::Archive(fault)) => return Ok(Err(said_of(alloc, 1, path, fault)?)),
        Err(_) => return Err(AllocError),
    };
    Ok(Ok(archive.to_vec(alloc)?))
}

// The library of exports, or the answer where they have none.
fn library_of_exports(
    alloc: Global,
    define: &Define,
    exports: &Exports,
) -> Result<Result<Vec<u8>, Answer>, AllocError>
    ensures library { IfOk result (λ found. IfOk found
        (λ file. IsLibraryOfExports (define_view define.now) (exports_view exports.now)
        file.items)) }
    ensures none { IfOk result (λ found. IfErr found
        (λ a. IsSaid 1 define.now.library.now (answer_view a)
        × HaveNoLibrary (define_view define.now) (exports_view exports.now))) }
{
    let machine = match machine_of_dll(define, exports) {
        Ok(machine) => machine,
        Err(text) => return Ok(Err(saying(alloc, 1, define.library, text)?)),
    };
    let members = match members_or_answer(alloc, define, exports, machine)? {
        Ok(members) => members,
        Err(answer) => return Ok(Err(answer)),
    };
    match archive_or_answer(alloc, define.library, &members, flavor_for_dll(define))? {
        Ok(file) => Ok(Ok(file)),
        Err(answer) => Ok(Err(answer)),
    }
}

/// The library of a DLL, or the answer where it has none: with status 1, and 2 where older symbols
/// are asked for, which none has.
pub(crate) fn library_of_dll(
    alloc: Global,
    define: &Define,
    bytes: &[u8],
) -> Result<Result<Vec<u8>, Answer>, AllocError>
    ensures library { IfOk result (λ found. IfOk found
        (λ file. IsLibraryOfDll (define_view define.now) bytes.now file.items)) }
    ensures none { IfOk result (λ found. IfErr found
        (λ a. HasNoLibrary (define_view define.now) bytes.now (answer_view a))) }
{
    let path = define.library;
    if define.older_symbols {
        let message = "a DLL, whose library has no older symbols (-C)";
        return Ok(Err(saying(alloc, 2, path, message)?));
    }
    match exports_of(alloc, path, bytes)? {
        Ok(exports) => match library_of_exports(alloc, define, &exports)? {
            Ok(file) => Ok(Ok(file)),
            Err(answer) => Ok(Err(answer)),
        },
        Err(answer) => Ok(Err(answer)),
    }
}
