//! The files of DLLs in some folders.
//!
//! The folders stand for those that a loader searches: the first that has a DLL counts.

ghost use Rattle.implib_compare.specs.DllCheck.Folders.{content_in, dll_path, folder_view, is_file_of};
ghost use Rattle.implib_compare.specs.DllCheck.Folders.{loaded_view, path_in};
ghost use Rattle.implib_compare.specs.DllCheck.ForwardingViews.{content_view, known_view};
ghost use Rattle.std.specs.Option.{option_map};
ghost use Rattle.std.specs.Prelude.{◌≡◌, IfOk, Some, find, map};
ghost use Rattle.std.specs.String.{string_bytes};

use crate::dll_check::dll_name::loader_name;
use crate::dll_check::forwarder::{DllContent, NamedDll};
use implib_dll::{Exports, ReadError};
use std::alloc::{AllocError, Global};

/// A folder, and the names of its files.
#[derive(Drop)]
pub struct Folder<'a> {
    pub path: &'a str,
    pub names: Vec<String>,
}

/// A DLL of a loader's name ([`loader_name`]), and the bytes of its file, if a folder has one.
///
/// [`loader_name`]: crate::dll_check::loader_name
#[derive(Drop)]
pub struct Loaded {
    pub name: Vec<u8>,
    pub bytes: Option<Vec<u8>>,
}

// Whether a loader takes a file for the DLL that it knows by a name.
fn is_file_of(alloc: Global, known: &[u8], name: &str) -> Result<bool, AllocError>
    ensures { IfOk result (λ found. found ≡ is_file_of known.now name.now) }
{
    if !name.as_bytes().contains(&b'.') {
        return Ok(false);
    }
    let own = loader_name(alloc, name.as_bytes())?;
    Ok(own.as_slice() == known)
}

// The name of that file among those of a folder.
fn named_in<'a>(
    alloc: Global,
    names: &'a [String],
    known: &[u8],
) -> Result<Option<&'a str>, AllocError>
    ensures { IfOk result (λ found. option_map (λ name. name.now) found
        ≡ find (is_file_of known.now) (map string_bytes names.now)) }
{
    for name in names {
        if is_file_of(alloc, known, name)? {
            return Ok(Some(name));
        }
    }
    Ok(None)
}

// The path of a file in a folder.
fn path_in(alloc: Global, folder: &str, name: &str) -> Result<String, AllocError>
    ensures { IfOk result (λ path. string_bytes path ≡ path_in folder.now name.now) }
{
    let mut path = String::from_str(alloc, folder)?;
    path.push_str("/")?;
    path.push_str(name)?;
    Ok(path)
}

/// The path of the file that a loader takes for the DLL that it knows by a name, in the first
/// folder that has one: in letters of any case, and with its ending.
pub fn dll_path(
    alloc: Global,
    folders: &[Folder<'_>],
    known: &[u8],
) -> Result<Option<String>, AllocError>
    ensures { IfOk result (λ found. option_map string_bytes found
        ≡ dll_path (map folder_view folders.now) known.now) }
{
    for folder in folders {
        let Some(name) = named_in(alloc, &folder.names, known)? else {
            continue;
        };
        return Ok(Some(path_in(alloc, folder.path, name)?));
    }
    Ok(None)
}

/// What there is of a DLL by its file.
pub fn content_of(alloc: Global, bytes: &[u8]) -> Result<DllContent<'_>, AllocError>
    ensures { IfOk result (λ content. content_view content ≡ content_in (Some bytes.now)) }
{
    match Exports::read(alloc, bytes) {
        Ok(Some(exports)) => Ok(DllContent::Holds(exports)),
        Ok(None) => Ok(DllContent::NoExports),
        Err(ReadError::Refused(_)) => Ok(DllContent::Refused),
        Err(ReadError::OutOfMemory) => Err(AllocError),
    }
}

// The DLL that was loaded, as it is read.
fn named(alloc: Global, loaded: &Loaded) -> Result<NamedDll<'_>, AllocError>
    ensures { IfOk result (λ dll. known_view dll ≡ loaded_view loaded.now) }
{
    let content = match &loaded.bytes {
        Some(bytes) => content_of(alloc, bytes)?,
        None => DllContent::NoFile,
    };
    Ok(NamedDll {
        name: loaded.name.clone()?,
        content,
    })
}

/// The DLLs that were loaded, as they are read.
pub fn named_dlls(alloc: Global, loaded: &[Loaded]) -> Result<Vec<NamedDll<'_>>, AllocError>
    ensures { IfOk result (λ dlls. map known_view dlls.items ≡ map loaded_view loaded.now) }
{
    let mut dlls = Vec::with_capacity(alloc, loaded.len())?;
    for one in loaded {
        dlls.push(named(alloc, one)?)?;
    }
    Ok(dlls)
}
