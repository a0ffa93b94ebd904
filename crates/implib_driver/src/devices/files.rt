//! The disk of the system. A library is made beside the old one, and renamed.
//!
//! A new file is named after the one whose place it is to take, and after the process: of a process
//! that was killed it stays, and the next call for the same file removes it. That is a file of just
//! this name, of no process that runs; on a system without `/proc` none is removed.

ghost use Rattle.implib_driver.specs.SystemDisk.{state_view};
ghost use Rattle.std.specs.Prelude.{◌≡◌, IfOk, None, false};
ghost use Rattle.std.specs.String.{string_bytes};

use crate::disk::Disk;
use std::alloc::Global;
use std::fs::{Files, OpenFile, OpenOptions, Permissions};
use std::io::ErrorKind;
use std::os::unix::fs::MetadataExt;
use std::path::Path;
use std::{fs, io};

// How many symbolic links are followed, and how many names are tried.
const LINKS: u32 = 40;

const NAMES: u32 = 1000;

// There is something that is no file.
fn no_file() -> io::Error {
    io::Error::other("not a regular file; it is left as it is")
}

// The file that a path leads to by its symbolic links, and its mode where it is there.
fn followed<R: Files + AllocGlobal>(
    rt: &R,
    path: &str,
) -> io::Result<(String, Option<Permissions>)> {
    let mut target = String::from_str(rt.alloc(), path)?;
    for _ in 0..LINKS {
        let metadata = match fs::symlink_metadata(rt, target.as_str()) {
            Ok(metadata) => metadata,
            Err(error) if error.kind() == ErrorKind::NotFound => return Ok((target, None)),
            Err(error) => return Err(error),
        };
        if metadata.is_file() {
            return Ok((target, Some(metadata.permissions())));
        }
        if !metadata.is_symlink() {
            return Err(no_file());
        }
        let link = fs::read_link(rt, target.as_str())?;
        let next = match Path::new(target.as_str()).parent() {
            Some(parent) => parent.join(rt.alloc(), link.as_path())?,
            None => link,
        };
        target = next.into_string();
    }
    Err(no_file())
}

// Where a path leads: to what is there, by its device and number, or into a folder, under a name
// that nothing has.
#[derive(Drop, PartialEq)]
enum Place {
    There(u64, u64),
    Free(u64, u64, String),
}

// Where a path leads by its links, and those of the folders before it. A file whose folder is not
// there has no place.
fn place_of<R: Files + AllocGlobal>(
    rt: &R,
    alloc: Global,
    path: &str,
) -> io::Result<Option<Place>> {
    match fs::metadata(rt, path) {
        Ok(metadata) => Ok(Some(Place::There(metadata.dev(), metadata.ino()))),
        Err(error) if error.kind() == ErrorKind::NotFound => {
            let (target, _) = followed(rt, path)?;
            let name = Path::new(target.as_str()).file_name().unwrap_or("");
            match fs::metadata(rt, folder_of(target.as_str())) {
                Ok(folder) => {
                    let name = String::from_str(alloc, name)?;
                    Ok(Some(Place::Free(folder.dev(), folder.ino(), name)))
                }
                Err(_) => Ok(None),
            }
        }
        // What cannot be looked at can be neither read nor replaced.
        Err(_) => Ok(None),
    }
}

// Whether two paths lead to one file, or into one folder under one name that nothing has.
fn are_one<R: Files + AllocGlobal>(
    rt: &R,
    alloc: Global,
    one: &str,
    other: &str,
) -> io::Result<bool> {
    let Some(place) = place_of(rt, alloc, one)? else {
        return Ok(false);
    };
    Ok(Some(place) == place_of(rt, alloc, other)?)
}

// The longest name of a file, in bytes, that is in the names of new files beside it: those of
// longer names would pass what a name may have.
const LONGEST: usize = 200;

// What the names of new files beside another begin with.
fn front_of(alloc: Global, path: &str) -> io::Result<String> {
    let name = Path::new(path).file_name().unwrap_or("");
    let part = if name.len() <= LONGEST { name } else { "" };
    Ok(format!(in alloc; ".{part}.implib_dlltool-")?)
}

// The name of a new file beside another, whose names begin so.
fn beside(alloc: Global, path: &str, front: &str, id: u32, number: u32) -> io::Result<String> {
    let name = format!(in alloc; "{front}{id}-{number}")?;
    let path = Path::new(path).with_file_name(alloc, name.as_str())?;
    Ok(path.into_string())
}

// Whether a text is a number in decimal.
fn is_number(text: &str) -> bool {
    !text.is_empty() && text.as_bytes().iter().all(|byte| byte.is_ascii_digit())
}

// The process that made a file of this name, if the name is that of a new file that begins so.
fn maker_of<'a>(name: &'a str, front: &str) -> Option<&'a str> {
    let (process, number) = name.strip_prefix(front)?.split_once('-')?;
    if is_number(process) && is_number(number) {
        Some(process)
    } else {
        None
    }
}

// Whether no process of a number runs; where the system does not tell, one does.
fn is_gone<R: Files + AllocGlobal>(rt: &R, process: &str) -> io::Result<bool> {
    let path = format!(in rt.alloc(); "/proc/{process}")?;
    Ok(fs::exists(rt, "/proc/self")? && !fs::exists(rt, path.as_str())?)
}

/// The folder of the names beside another: for a name alone, the one that the process works in.
pub fn folder_of(path: &str) -> &str {
    match Path::new(path).parent() {
        Some(parent) if !parent.as_str().is_empty() => parent.as_str(),
        _ => ".",
    }
}

// Removes the new files beside another, whose names begin so, that killed processes left. One that
// cannot be removed stays, as what has a name that is not UTF-8 does, and keeps no other.
fn sweep<R: Files + AllocGlobal + Clone + Drop>(rt: &R, path: &str, front: &str) -> io::Result<()> {
    for entry in fs::read_dir(rt, folder_of(path))? {
        match entry {
            Ok(entry) => {
                if let Some(process) = maker_of(entry.file_name(), front) {
                    if is_gone(rt, process)? {
                        let _ = fs::remove_file(rt, entry.path());
                    }
                }
            }
            // A name that is not UTF-8.
            Err(error) if error.kind() == ErrorKind::InvalidFilename => {}
            Err(error) => return Err(error),
        }
    }
    Ok(())
}

// A new file beside another, and its name.
fn open_beside<R: Files + AllocGlobal + Clone + Drop>(
    rt: &R,
    path: &str,
    id: u32,
) -> io::Result<(R::File, String)> {
    let front = front_of(rt.alloc(), path)?;
    // What stays is in nobody's way.
    let _ = sweep(rt, path, front.as_str());
    let mut how = OpenOptions::new();
    how.write(true);
    how.create_new(true);
    for number in 0..NAMES {
        let name = beside(rt.alloc(), path, front.as_str(), id, number)?;
        match how.open(rt, name.as_str()) {
            Ok(file) => return Ok((file, name)),
            Err(error) if error.kind() == ErrorKind::AlreadyExists => {}
            Err(error) => return Err(error),
        }
    }
    Err(io::Error::from(ErrorKind::AlreadyExists))
}

/// A new file that was made.
#[derive(Drop)]
pub struct Made {
    /// Its name.
    pub name: String,
    /// The file whose place it takes, and the path that leads there.
    pub target: String,
    pub path: String,
}

// What was done.
#[derive(Drop)]
struct State {
    // The new file that is in no place.
    made: Option<Made>,
    // Whether a call failed, other than a removal; and whether a removal did.
    has_failed: bool,
    is_stuck: bool,
}

/// A new file of this name, which gets a mode where one is given. One that cannot have it is
/// removed.
pub fn with_mode<R: Files, F: OpenFile + Drop>(
    rt: &R,
    name: &str,
    file: F,
    mode: Option<Permissions>,
) -> io::Result<F> {
    let Some(mode) = mode else {
        return Ok(file);
    };
    match file.set_permissions(mode) {
        Ok(()) => Ok(file),
        Err(error) => {
            drop(file);
            let _ = fs::remove_file(rt, name);
            Err(error)
        }
    }
}

// Makes a file beside the one that a path leads to. It gets the mode of the one whose place it
// takes. Where there is something that is no file, it is an error.
fn make_file<R: Files + AllocGlobal + Clone + Drop>(
    rt: &R,
    id: u32,
    path: &str,
) -> io::Result<(R::File, Made)>
    ensures { IfOk result (λ new. string_bytes new.1.path ≡ path.now) }
{
    let own = String::from_str(rt.alloc(), path)?;
    let (target, mode) = followed(rt, path)?;
    let (file, name) = open_beside(rt, target.as_str(), id)?;
    let file = with_mode(rt, name.as_str(), file, mode)?;
    let made = Made {
        name,
        target,
        path: own,
    };
    Ok((file, made))
}

/// Puts a file into its place, once its bytes are on the disk: so an error that the system finds
/// late, as it would at the file's end, comes before the old file is gone.
pub fn settle<R: Files, F: OpenFile + Drop>(rt: &R, made: &Made, file: F) -> io::Result<()> {
    file.sync_all()?;
    drop(file);
    fs::rename(rt, made.name.as_str(), made.target.as_str())
}

// The names of what is in a folder, without those that are not UTF-8.
fn names_in<R: Files + AllocGlobal + Clone + Drop>(
    rt: &R,
    alloc: Global,
    folder: &str,
) -> io::Result<Vec<String>> {
    let mut names = Vec::new(alloc);
    for entry in fs::read_dir(rt, folder)? {
        match entry {
            Ok(entry) => names.push(String::from_str(alloc, entry.file_name())?)?,
            // A name that is not UTF-8.
            Err(error) if error.kind() == ErrorKind::InvalidFilename => {}
            Err(error) => return Err(error),
        }
    }
    Ok(names)
}

/// The files of the system.
///
/// A new file is made beside the one that its path leads to, and gets its mode.
#[derive(Drop)]
pub struct SystemDisk<'a, R: Files + AllocGlobal + Clone + Drop> {
    rt: &'a R,
    id: u32,
    state: State,
}

impl<'a, R: Files + AllocGlobal + Clone + Drop> SystemDisk<'a, R> {
    /// The system's files; `id` is a number for the names of new ones.
    pub fn new(rt: &'a R, id: u32) -> SystemDisk<'a, R>
        ensures { (state_view result.state).left ≡ None }
    {
        SystemDisk {
            rt,
            id,
            state: State {
                made: None,
                has_failed: false,
                is_stuck: false,
            },
        }
    }
}

impl<'a, R: Files + AllocGlobal + Clone + Drop> Disk for SystemDisk<'a, R> {
    type File = R::File;

    ghost view = { λ disk. state_view disk.state };

    ghost is_known = { false };

    fn read(&mut self, _alloc: Global, path: &str) -> io::Result<Vec<u8>> {
        match fs::read(self.rt, path) {
            Ok(bytes) => Ok(bytes),
            Err(error) => {
                self.state.has_failed = true;
                Err(error)
            }
        }
    }

    fn is_same(&mut self, alloc: Global, one: &str, other: &str) -> io::Result<bool> {
        match are_one(self.rt, alloc, one, other) {
            Ok(is_same) => Ok(is_same),
            Err(error) => {
                self.state.has_failed = true;
                Err(error)
            }
        }
    }

    fn names(&mut self, alloc: Global, folder: &str) -> io::Result<Vec<String>> {
        match names_in(self.rt, alloc, folder) {
            Ok(names) => Ok(names),
            Err(error) => {
                self.state.has_failed = true;
                Err(error)
            }
        }
    }

    fn begin(&mut self, path: &str) -> io::Result<R::File> {
        match make_file(self.rt, self.id, path) {
            Ok((file, made)) => {
                self.state.made = Some(made);
                Ok(file)
            }
            Err(error) => {
                self.state.has_failed = true;
                Err(error)
            }
        }
    }

    fn replace(&mut self, file: R::File) -> io::Result<()> {
        let settled = match &self.state.made {
            Some(made) => settle(self.rt, made, file),
            None => Ok(()),
        };
        match settled {
            Ok(()) => {
                self.state.made = None;
                Ok(())
            }
            Err(error) => {
                self.state.has_failed = true;
                Err(error)
            }
        }
    }

    fn remove(&mut self) -> io::Result<()> {
        let removed = match &self.state.made {
            Some(made) => fs::remove_file(self.rt, made.name.as_str()),
            None => Ok(()),
        };
        match removed {
            Ok(()) => {
                self.state.made = None;
                Ok(())
            }
            Err(error) => {
                self.state.is_stuck = true;
                Err(error)
            }
        }
    }
}
