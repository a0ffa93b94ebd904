//! The call that says whether a program finds what it imports in the DLLs of some folders.
//!
//! A folder of the call stands for those that a loader searches, and the first that has a DLL
//! counts. A DLL that none has is told: the system's are there only where their folder is named. Of
//! a DLL of which nothing is asked a loader needs none. What DLLs import themselves, and where
//! forwarders lead, is not looked at.

ghost use Rattle.std.specs.List.{flat_map};
ghost use Rattle.std.specs.Option.{option_map};
ghost use Rattle.std.specs.Prelude.{◌≡◌, ℕ, ◌++◌, ◌∷◌, [], IfErr, IfOk, List, OnOk, map};
ghost use Rattle.std.specs.String.{string_bytes};
ghost use Rattle.implib_check_driver.specs.Answer.{IsHalt, answer_view};
ghost use Rattle.implib_check_driver.specs.Json.{unmet_view};
ghost use Rattle.implib_check_driver.specs.Starting.{IsProgramAnswer, dlls_lines, dlls_status};
ghost use Rattle.implib_check_driver.specs.Starting.{lost_of, unmet_at, unmet_by, unmet_lines};
ghost use Rattle.implib_check_driver.specs.Starting.{unmet_of, unmet_status};
ghost use Rattle.implib_dll.specs.Exports.{exports_in};
ghost use Rattle.implib_dll.specs.Imports.{imports_in};
ghost use Rattle.implib_dll.specs.Views.{ask_view, exports_view, imported_view, imports_view};
ghost use Rattle.implib_dll.specs.declared.section.Layout.TheVariants.{File};
ghost use Rattle.implib_compare.specs.DllCheck.DllName.{loader_name};
ghost use Rattle.implib_compare.specs.DllCheck.Folders.{AreKnown, dll_path, folder_view, listings};

use crate::answer::{Answer, Halt, bytes_of, said_of};
use crate::finding::{Finding, Unmet};
use crate::report::{Form, tell};
use crate::shelf::Shelf;
use implib_compare::dll_check::{Folder, Loss, dll_path, is_asked, judge_ask, loader_name};
use implib_dll::{Ask, Exports, Fault, ImportedDll, Imports, ReadError};
use std::alloc::{AllocError, Global};
use std::fmt;

/// Why a file is no image that is read.
#[derive(Drop)]
pub(crate) struct NoImage(pub Fault);

impl fmt::Display for NoImage {
    fn fmt<W: fmt::Write>(&self, f: &mut fmt::Formatter<W>) -> fmt::Result {
        let offset = self.0.offset;
        write!(
            f,
            "no program that can be read: {}, at {offset:#x}",
            self.0.cause
        )
    }
}

// The names of the files in a folder.
fn names_in<S: Shelf>(alloc: Global, shelf: &S, path: &str) -> Result<Vec<String>, Halt>
    ensures listed { IfOk result (λ found. (names : List ℕ → List (List ℕ))
        → AreKnown (S.listed shelf.now) names
        → map string_bytes found.items ≡ names path.now) }
    ensures halted { IfErr result (IsHalt (S.may_fail shelf.now)) }
{
    match shelf.names(alloc, path) {
        Ok(names) => Ok(names),
        Err(error) => Err(Halt::Ends(said_of(alloc, 3, path, error)?)),
    }
}

/// The folders of paths.
///
/// # Errors
///
/// `Ends`: a folder cannot be read.
pub(crate) fn folders_of<'a, S: Shelf>(
    alloc: Global,
    shelf: &S,
    paths: &'a [String],
) -> Result<Vec<Folder<'a>>, Halt>
    ensures listed { IfOk result (λ folders. (names : List ℕ → List (List ℕ))
        → AreKnown (S.listed shelf.now) names
        → map folder_view folders.items ≡ listings names (map string_bytes paths.now)) }
    ensures halted { IfErr result (IsHalt (S.may_fail shelf.now)) }
{
    let mut folders = Vec::new(alloc);
    for path in paths {
        let names = names_in(alloc, shelf, path)?;
        folders.push(Folder { path, names })?;
    }
    Ok(folders)
}

// The path of the file of a DLL that an image names, in the first folder that has one.
fn file_of(alloc: Global, folders: &[Folder], dll: &[u8]) -> Result<Option<String>, AllocError>
    ensures { IfOk result (λ found. option_map string_bytes found
        ≡ dll_path (map folder_view folders.now) (loader_name dll.now)) }
{
    let known = loader_name(alloc, dll)?;
    dll_path(alloc, folders, &known)
}

// A program, and a DLL that it imports from.
#[derive(Clone, Copy)]
struct Importer<'p, 'i, 'a> {
    path: &'p str,
    machine: u16,
    imported: &'i ImportedDll<'a>,
}

// Adds what of a DLL a program does not find, and gives the status of that.
fn tell_unmet(
    form: Form,
    out: &mut Vec<u8>,
    importer: Importer,
    unmet: Unmet,
) -> Result<u8, AllocError>
    ensures status { IfOk result (λ status. status ≡ 1) }
    ensures told { OnOk result (out.new.items ≡ out.old.items ++ unmet_lines form.is_json
        importer.entry.path.now importer.entry.imported.now.dll.now
        (unmet_view unmet.entry ∷ [])) }
{
    let finding = Finding::Unmet(importer.path, importer.imported.dll, unmet);
    tell(form, out, &finding)?;
    Ok(1)
}

// Adds an ask that a DLL does not meet, and gives its status.
fn tell_ask(
    form: Form,
    out: &mut Vec<u8>,
    importer: Importer,
    path: &str,
    exports: &Exports,
    ask: Ask,
) -> Result<u8, AllocError>
    ensures status { IfOk result (λ status. status
        ≡ unmet_status (lost_of (exports_view exports.now) path.now (ask_view ask.entry))) }
    ensures told { OnOk result (out.new.items ≡ out.old.items ++ unmet_lines form.is_json
        importer.entry.path.now importer.entry.imported.now.dll.now
        (lost_of (exports_view exports.now) path.now (ask_view ask.entry))) }
{
    if !judge_ask(exports, ask).is_lost() {
        return Ok(0);
    }
    let unmet = Unmet::Lost(path, Loss::NotFound, Some(ask));
    tell_unmet(form, out, importer, unmet)
}

// Adds the asks that a DLL for the machine of a program does not meet, and gives their status.
fn tell_asks(
    form: Form,
    out: &mut Vec<u8>,
    importer: Importer,
    path: &str,
    exports: &Exports,
) -> Result<u8, AllocError>
    ensures status { IfOk result (λ status. status ≡ unmet_status (flat_map
        (lost_of (exports_view exports.now) path.now)
        (map ask_view importer.entry.imported.now.asks.items))) }
    ensures told { OnOk result (out.new.items ≡ out.old.items ++ unmet_lines form.is_json
        importer.entry.path.now importer.entry.imported.now.dll.now (flat_map
        (lost_of (exports_view exports.now) path.now)
        (map ask_view importer.entry.imported.now.asks.items))) }
{
    let mut status = 0;
    for ask in importer.imported.asks.iter() {
        status = tell_ask(form, out, importer, path, exports, *ask)?.max(status);
    }
    Ok(status)
}

// The same of the DLL of a file's bytes.
fn tell_file(
    form: Form,
    out: &mut Vec<u8>,
    importer: Importer,
    path: &str,
    bytes: &[u8],
) -> Result<u8, AllocError>
    ensures status { IfOk result (λ status. status ≡ unmet_status (unmet_by path.now
        (exports_in File bytes.now) importer.entry.machine
        (map ask_view importer.entry.imported.now.asks.items))) }
    ensures told { OnOk result (out.new.items ≡ out.old.items ++ unmet_lines form.is_json
        importer.entry.path.now importer.entry.imported.now.dll.now (unmet_by path.now
        (exports_in File bytes.now) importer.entry.machine
        (map ask_view importer.entry.imported.now.asks.items))) }
{
    let exports = match Exports::read(form.alloc, bytes) {
        Ok(Some(exports)) => exports,
        Ok(None) => return tell_unmet(form, out, importer, Unmet::NoExports(path)),
        Err(ReadError::Refused(_)) => {
            return tell_unmet(form, out, importer, Unmet::Unread(path));
        }
        Err(ReadError::OutOfMemory) => return Err(AllocError),
    };
    if importer.machine != exports.machine {
        let unmet = Unmet::Lost(path, Loss::OtherMachine, None);
        return tell_unmet(form, out, importer, unmet);
    }
    tell_asks(form, out, importer, path, &exports)
}

// The same of a DLL that a program imports from.
fn tell_dll<S: Shelf>(
    form: Form,
    shelf: &S,
    out: &mut Vec<u8>,
    importer: Importer,
    folders: &[Folder],
) -> Result<u8, Halt>
    ensures status { IfOk result (λ status. (file : List ℕ → List ℕ)
        → AreKnown (S.seen shelf.now) file
        → status ≡ unmet_status (unmet_of file (map folder_view folders.now) importer.entry.machine
        (imported_view importer.entry.imported.now))) }
    ensures told { OnOk result ((file : List ℕ → List ℕ) → AreKnown (S.seen shelf.now) file
        → out.new.items ≡ out.old.items ++ unmet_lines form.is_json importer.entry.path.now
        importer.entry.imported.now.dll.now (unmet_of file (map folder_view folders.now)
        importer.entry.machine (imported_view importer.entry.imported.now))) }
    ensures halted { IfErr result (IsHalt (S.may_fail shelf.now)) }
{
    if !is_asked(importer.imported) {
        return Ok(0);
    }
    let Some(path) = file_of(form.alloc, folders, importer.imported.dll)? else {
        return Ok(tell_unmet(form, out, importer, Unmet::NoFile)?);
    };
    let bytes = bytes_of(form.alloc, shelf, &path)?;
    Ok(tell_file(form, out, importer, &path, &bytes)?)
}

// The same of all DLLs that a program imports from.
fn tell_dlls<S: Shelf>(
    form: Form,
    shelf: &S,
    out: &mut Vec<u8>,
    path: &str,
    imports: &Imports,
    folders: &[Folder],
) -> Result<u8, Halt>
    ensures status { IfOk result (λ status. (file : List ℕ → List ℕ)
        → AreKnown (S.seen shelf.now) file
        → status ≡ dlls_status file (map folder_view folders.now) imports.now.machine
        (map imported_view imports.now.dlls.items)) }
    ensures told { OnOk result ((file : List ℕ → List ℕ) → AreKnown (S.seen shelf.now) file
        → out.new.items ≡ out.old.items ++ dlls_lines form.is_json path.now file
        (map folder_view folders.now) imports.now.machine
        (map imported_view imports.now.dlls.items)) }
    ensures halted { IfErr result (IsHalt (S.may_fail shelf.now)) }
{
    let mut status = 0;
    for imported in imports.dlls.iter() {
        let importer = Importer {
            path,
            machine: imports.machine,
            imported,
        };
        status = tell_dll(form, shelf, out, importer, folders)?.max(status);
    }
    Ok(status)
}

/// The answer to the call that says whether a program finds what it imports in the DLLs of some
/// folders.
///
/// # Errors
///
/// `Ends`: a file or a folder cannot be read.
pub fn start<S: Shelf>(
    form: Form,
    shelf: &S,
    path: &str,
    folders: &[String],
) -> Result<Answer, Halt>
    ensures answered { IfOk result (λ a. (file : List ℕ → List ℕ) (names : List ℕ → List (List ℕ))
        → AreKnown (S.seen shelf.now) file → AreKnown (S.listed shelf.now) names
        → IsProgramAnswer form.is_json path.now file
        (listings names (map string_bytes folders.now)) (imports_in File (file path.now))
        (answer_view a)) }
    ensures halted { IfErr result (IsHalt (S.may_fail shelf.now)) }
{
    let alloc = form.alloc;
    let bytes = bytes_of(alloc, shelf, path)?;
    let folders = folders_of(alloc, shelf, folders)?;
    let imports = match Imports::read(alloc, &bytes) {
        Ok(imports) => imports,
        Err(ReadError::Refused(fault)) => return Ok(said_of(alloc, 1, path, NoImage(fault))?),
        Err(ReadError::OutOfMemory) => return Err(Halt::OutOfMemory),
    };
    let mut out = Vec::new(alloc);
    let status = tell_dlls(form, shelf, &mut out, path, &imports, &folders)?;
    Ok(Answer {
        status,
        out,
        err: Vec::new(alloc),
    })
}
