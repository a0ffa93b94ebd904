//! Of which kinds a DLL's forwarders are, through the DLLs of some folders.
//!
//! A forwarder that leads, through the DLLs of the folders of `--search`, to data is data. The
//! first folder that has a DLL counts, and each DLL is read once, when a forwarder leads there. A
//! forwarder that leads to nothing, as where no folder has its DLL, or that is no image, stays
//! code, as without folders; with `-v` their number is told. What cannot be read ends the call.

ghost use Rattle.implib.specs.Definition.{export_view};
ghost use Rattle.implib_dll.specs.Exports.{Exports as SeenExports};
ghost use Rattle.implib_dll.specs.Views.{exports_view};
ghost use Rattle.implib_compare.specs.DllCheck.Folders.{AreKnown, IsRight, Listing, dll_path, folder_view};
ghost use Rattle.implib_compare.specs.DllCheck.Folders.{listings, loaded_view};
ghost use Rattle.implib_driver.specs.Apart.{AreSame};
ghost use Rattle.implib_options.specs.Given.{has_values};
ghost use Rattle.implib_driver.specs.Dll.{ReadsDll};
ghost use Rattle.implib_driver.specs.Request.{request_view};
ghost use Rattle.implib_driver.specs.Search.{AreFollowed, FailsToSearch, IsSearched, TakesDll};
ghost use Rattle.implib_driver.specs.Search.{beside_folders};
ghost use Rattle.implib_driver.specs.Search.{own_names};
ghost use Rattle.implib_driver.specs.declared.search.Unsearched.TheVariants.{OutOfMemory};
ghost use Rattle.std.specs.Option.{option_map};
ghost use Rattle.std.specs.Prelude.{◌≡◌, ℕ, All, IfErr, IfOk, IfSome, List, None, OnOk, false, map, true};
ghost use Rattle.std.specs.String.{string_bytes};

use crate::disk::Disk;
use crate::dll::dll_exports;
use crate::request::Request;
use implib::def::ShortExport;
use implib_compare::dll_check::laws::{known_dlls_decide_kinds, right_dlls_extend};
use implib_compare::dll_check::{
    Beside, Folder, Loaded, count_astray, dll_path, mark_followed, named_dlls, names_of,
    unknown_dlls,
};
use implib_dll::Exports;
use implib_options::given::all;
use implib_options::table::Meaning;
use implib_rules::name::last_part;
use std::alloc::{AllocError, AllocFailed, Global};
use std::io;

/// Why folders were not searched.
#[derive(Debug, Drop)]
pub enum Unsearched {
    /// This folder, or this file in one, could not be read.
    System(String, io::Error),
    /// The library would take the place of a DLL that is read.
    Taken,
    /// An allocation failed.
    OutOfMemory,
}

impl From<AllocError> for Unsearched {
    ghost from_gives = { λ _ error. error ≡ OutOfMemory };

    fn from(_refused: AllocError) -> Unsearched {
        Unsearched::OutOfMemory
    }
}

impl<T: Drop> From<AllocFailed<T>> for Unsearched {
    ghost from_gives = { λ _ error. error ≡ OutOfMemory };

    fn from(_refused: AllocFailed<T>) -> Unsearched {
        Unsearched::OutOfMemory
    }
}

// How often the DLLs are read that forwarders lead to in those that were read before. After so many
// times no forwarder that is followed leads to another one, since no more of them are followed.
const MOST_ROUNDS: usize = 1000;

// The names by which loaders know the DLL of a request.
fn own_names(
    alloc: Global,
    exports: &Exports<'_>,
    request: &Request<'_>,
) -> Result<Vec<Vec<u8>>, AllocError>
    ensures { IfOk result (λ names. map (λ name. name.items) names.items
        ≡ own_names (request_view request.now) (exports_view exports.now)) }
{
    let file = last_part(request.definition).as_bytes();
    match request.library.dll {
        Some(dll) => names_of(alloc, Some(last_part(dll).as_bytes()), file, exports.dll),
        None => names_of(alloc, None, file, exports.dll),
    }
}

// A folder, with the names of its files.
fn folder_at<'a, D: Disk>(
    alloc: Global,
    disk: &mut D,
    path: &'a str,
) -> Result<Folder<'a>, Unsearched>
    ensures listed { IfOk result (λ folder. (names : List ℕ → List (List ℕ))
        → AreKnown (D.view disk.old).listed names → folder_view folder
        ≡ (path.now, names path.now)) }
    ensures same { OnOk result (D.view disk.new ≡ D.view disk.old) }
    ensures failed { IfErr result (FailsToSearch (D.view disk.old) (D.view disk.new) None) }
{
    let own = String::from_str(alloc, path)?;
    match disk.names(alloc, path) {
        Ok(names) => Ok(Folder { path, names }),
        Err(error) => Err(Unsearched::System(own, error)),
    }
}

// The folders of paths, with the names of their files.
fn folders_at<'a, D: Disk>(
    alloc: Global,
    disk: &mut D,
    paths: &[&'a str],
) -> Result<Vec<Folder<'a>>, Unsearched>
    ensures listed { IfOk result (λ folders. (names : List ℕ → List (List ℕ))
        → AreKnown (D.view disk.old).listed names
        → map folder_view folders.items ≡ listings names (map (λ path. path.now) paths.now)) }
    ensures same { OnOk result (D.view disk.new ≡ D.view disk.old) }
    ensures failed { IfErr result (FailsToSearch (D.view disk.old) (D.view disk.new) None) }
{
    let mut folders = Vec::new(alloc);
    for path in paths {
        folders.push(folder_at(alloc, disk, path)?)?;
    }
    Ok(folders)
}

// Whether the library's file is that of a DLL in a folder.
fn takes_dll<D: Disk>(
    alloc: Global,
    disk: &mut D,
    output: Option<&str>,
    path: &str,
) -> Result<bool, Unsearched>
    ensures leaves { IfOk result (λ takes. takes ≡ false → IfSome
        (option_map (λ text. text.now) output.entry)
        (λ file. AreSame (D.view disk.old) file path.now false)) }
    ensures takes { IfOk result (λ takes. takes ≡ true → TakesDll (D.view disk.old)
        (option_map (λ text. text.now) output.entry)) }
    ensures same { OnOk result (D.view disk.new ≡ D.view disk.old) }
    ensures failed { IfErr result (FailsToSearch (D.view disk.old) (D.view disk.new)
        (option_map (λ text. text.now) output.entry)) }
{
    let Some(output) = output else {
        return Ok(false);
    };
    let own = String::from_str(alloc, path)?;
    match disk.is_same(alloc, output, path) {
        Ok(is_same) => Ok(is_same),
        Err(error) => Err(Unsearched::System(own, error)),
    }
}

// The DLL of a loader's name, whose file is not the library's.
fn load<D: Disk>(
    alloc: Global,
    disk: &mut D,
    folders: &[Folder<'_>],
    output: Option<&str>,
    name: Vec<u8>,
) -> Result<Loaded, Unsearched>
    ensures apart { IfOk result (λ loaded. IfSome
        (dll_path (map folder_view folders.now) (loaded_view loaded).name) (λ path. IfSome
        (option_map (λ text. text.now) output.entry)
        (λ file. AreSame (D.view disk.old) file path false))) }
    ensures loaded { IfOk result (λ loaded. (file : List ℕ → List ℕ)
        → AreKnown (D.view disk.old).seen file
        → IsRight file (map folder_view folders.now) (loaded_view loaded)) }
    ensures same { OnOk result (D.view disk.new ≡ D.view disk.old) }
    ensures failed { IfErr result (FailsToSearch (D.view disk.old) (D.view disk.new)
        (option_map (λ text. text.now) output.entry)) }
{
    let Some(path) = dll_path(alloc, folders, &name)? else {
        return Ok(Loaded { name, bytes: None });
    };
    if takes_dll(alloc, disk, output, &path)? {
        return Err(Unsearched::Taken);
    }
    match disk.read(alloc, &path) {
        Ok(bytes) => Ok(Loaded {
            name,
            bytes: Some(bytes),
        }),
        Err(error) => Err(Unsearched::System(path, error)),
    }
}

// Whether a DLL was loaded.
fn is_loaded(loaded: &[Loaded], name: &[u8]) -> bool {
    loaded.iter().any(|one| one.name.as_slice() == name)
}

// Loads a DLL, unless it was loaded.
fn load_once<D: Disk>(
    alloc: Global,
    disk: &mut D,
    folders: &[Folder<'_>],
    output: Option<&str>,
    loaded: &mut Vec<Loaded>,
    name: Vec<u8>,
) -> Result<(), Unsearched>
    ensures loaded { OnOk result ((file : List ℕ → List ℕ) → AreKnown (D.view disk.old).seen file
        → All (IsRight file (map folder_view folders.now)) (map loaded_view loaded.old.items)
        → All (IsRight file (map folder_view folders.now)) (map loaded_view loaded.new.items)) }
    ensures same { OnOk result (D.view disk.new ≡ D.view disk.old) }
    ensures failed { IfErr result (FailsToSearch (D.view disk.old) (D.view disk.new)
        (option_map (λ text. text.now) output.entry)) }
{
    if is_loaded(loaded, &name) {
        return Ok(());
    }
    let next = load(alloc, disk, folders, output, name)?;
    loaded.push(next)?;
    Ok(())
}

// Loads further DLLs.
fn load_all<D: Disk>(
    alloc: Global,
    disk: &mut D,
    folders: &[Folder<'_>],
    output: Option<&str>,
    loaded: &mut Vec<Loaded>,
    names: Vec<Vec<u8>>,
) -> Result<(), Unsearched>
    ensures loaded { OnOk result ((file : List ℕ → List ℕ) → AreKnown (D.view disk.old).seen file
        → All (IsRight file (map folder_view folders.now)) (map loaded_view loaded.old.items)
        → All (IsRight file (map folder_view folders.now)) (map loaded_view loaded.new.items)) }
    ensures same { OnOk result (D.view disk.new ≡ D.view disk.old) }
    ensures failed { IfErr result (FailsToSearch (D.view disk.old) (D.view disk.new)
        (option_map (λ text. text.now) output.entry)) }
{
    for name in names {
        load_once(alloc, disk, folders, output, loaded, name)?;
    }
    Ok(())
}

// The names of DLLs, which were not loaded, that exports of the DLL of these bytes are forwarded
// to.
fn names_beside<'x>(
    alloc: Global,
    bytes: &'x [u8],
    names: &[Vec<u8>],
    loaded: &'x [Loaded],
    list: &[ShortExport],
) -> Result<Vec<Vec<u8>>, AllocError> {
    let Ok(exports) = dll_exports(alloc, bytes) else {
        return Err(AllocError);
    };
    let others = named_dlls(alloc, loaded)?;
    let beside = Beside {
        exports: &exports,
        names,
        others: &others,
    };
    unknown_dlls(alloc, &beside, list)
}

// The DLLs of the folders that exports of the DLL of these bytes are forwarded to.
fn load_behind<D: Disk>(
    alloc: Global,
    disk: &mut D,
    folders: &[Folder<'_>],
    output: Option<&str>,
    bytes: &[u8],
    names: &[Vec<u8>],
    list: &[ShortExport],
) -> Result<Vec<Loaded>, Unsearched>
    ensures loaded { IfOk result (λ loaded. (file : List ℕ → List ℕ)
        → AreKnown (D.view disk.old).seen file
        → All (IsRight file (map folder_view folders.now)) (map loaded_view loaded.items)) }
    ensures same { OnOk result (D.view disk.new ≡ D.view disk.old) }
    ensures failed { IfErr result (FailsToSearch (D.view disk.old) (D.view disk.new)
        (option_map (λ text. text.now) output.entry)) }
{
    let mut loaded = Vec::new(alloc);
    let mut left = MOST_ROUNDS;
    while left > 0 {
        left -= 1;
        let wanted = names_beside(alloc, bytes, names, &loaded, list)?;
        if wanted.is_empty() {
            break;
        }
        load_all(alloc, disk, folders, output, &mut loaded, wanted)?;
    }
    Ok(loaded)
}

// Whether there is a name.
fn has_names(names: &[Vec<u8>]) -> bool
    ensures { result ≡ has_values (map (λ name. name.items) names.now) }
{
    match names {
        [] => false,
        _ => true,
    }
}

// Makes data of exports of the DLL of these bytes that are forwarded to data through DLLs that were
// loaded, and gives how many are forwarded to nothing.
fn mark_through<'x>(
    alloc: Global,
    bytes: &'x [u8],
    names: &[Vec<u8>],
    loaded: &'x [Loaded],
    list: &mut Vec<ShortExport>,
) -> Result<usize, AllocError>
    ensures { IfOk result (λ astray. (file : List ℕ → List ℕ) (folders : List Listing)
        (e : SeenExports) → ReadsDll bytes.now e
        → All (IsRight file folders) (map loaded_view loaded.now)
        → AreFollowed (beside_folders file folders (map (λ name. name.items) names.now) e)
        (map export_view list.old.items) (map export_view list.new.items) astray) }
{
    known_dlls_decide_kinds();
    right_dlls_extend();
    // The bytes were read before, so memory alone can be refused.
    let Ok(exports) = dll_exports(alloc, bytes) else {
        return Err(AllocError);
    };
    let others = named_dlls(alloc, loaded)?;
    let beside = Beside {
        exports: &exports,
        names,
        others: &others,
    };
    let unknown = unknown_dlls(alloc, &beside, list)?;
    if has_names(&unknown) {
        return Err(AllocError);
    }
    let astray = count_astray(alloc, &beside, list)?;
    mark_followed(alloc, &beside, list)?;
    Ok(astray)
}

/// Makes data of the exports of a DLL of these bytes that are forwarded to data, through the DLLs
/// of the folders of a request, and gives how many are forwarded to nothing.
///
/// # Errors
///
/// `System`: a folder, or the file of a DLL in one, could not be read. `Taken`: the library would
/// take such a file's place. Or an allocation failed.
pub fn search<D: Disk>(
    alloc: Global,
    disk: &mut D,
    bytes: &[u8],
    exports: &Exports<'_>,
    list: &mut Vec<ShortExport>,
    request: &Request<'_>,
) -> Result<usize, Unsearched>
    requires { ReadsDll bytes.now (exports_view exports.now) }
    ensures searched { IfOk result (IsSearched (D.view disk.old) (exports_view exports.now)
        (request_view request.now) (map export_view list.old.items)
        (map export_view list.new.items)) }
    ensures same { OnOk result (D.view disk.new ≡ D.view disk.old) }
    ensures failed { IfErr result (FailsToSearch (D.view disk.old) (D.view disk.new)
        (request_view request.now).output) }
{
    let paths = all(alloc, request.options, Meaning::Search)?;
    let folders = folders_at(alloc, disk, &paths)?;
    let names = own_names(alloc, exports, request)?;
    let output = request.output;
    let loaded = load_behind(alloc, disk, &folders, output, bytes, &names, list)?;
    let astray = mark_through(alloc, bytes, &names, &loaded, list)?;
    Ok(astray)
}
