//! The library of a definition, and its way to its place.

ghost use Rattle.implib_archive.specs.Archive.{archive_of};
ghost use Rattle.implib_archive.specs.Written.{Writes};
ghost use Rattle.implib_arm64ec.specs.Archive.{ec_archive};
ghost use Rattle.implib_driver.specs.Placing.{AnswersMembers, AnswersWith, IsPlaced, IsPut};
ghost use Rattle.implib_driver.specs.Placing.{IsUnplaced};
ghost use Rattle.implib_driver.specs.Request.{request_view};
ghost use Rattle.std.specs.Io.KnownBytes.{Appends};
ghost use Rattle.std.specs.Option.{option_map};
ghost use Rattle.std.specs.Prelude.{◌≡◌, IfOk, List, None, OnErr, OnOk, ℕ};

use crate::disk::Disk;
use crate::request::Request;
use implib_archive::{Archive, Members, Source, WriteError};
use implib_arm64ec::Archive as Arm64ecArchive;
use implib_rules::library::{LibraryError, archive_for};
use implib_rules::members::LibraryMembers;
use std::alloc::Global;
use std::io::{BufWriter, Write};

// How many bytes are written to a file at once.
const BUFFER: usize = 1 << 16;

/// An archive that can be written.
pub(crate) trait Written {
    // Its bytes.
    ghost bytes: { Self → List ℕ };

    /// Writes it. It does not flush.
    ///
    /// # Errors
    ///
    /// The writer answered an error or took no byte, or an allocation failed.
    fn write<W: Write>(&self, alloc: Global, writer: &mut W) -> Result<(), WriteError>
        ensures { Writes (W.contents writer.old) (W.contents writer.new) (bytes self.now) result };
}

impl<'a, S: Source<'a>> Written for Archive<'a, S> {
    ghost bytes = { λ archive. archive_of archive.kind archive.members };

    fn write<W: Write>(&self, alloc: Global, writer: &mut W) -> Result<(), WriteError> {
        self.write_to(alloc, writer)
    }
}

impl<'a> Written for Arm64ecArchive<'a> {
    ghost bytes = { λ library. ec_archive library };

    fn write<W: Write>(&self, alloc: Global, writer: &mut W) -> Result<(), WriteError> {
        self.write_to(alloc, writer)
    }
}

// Writes an archive to a file that is empty, and gives the file.
fn fill<W: Write + Drop, A: Written>(alloc: Global, file: W, archive: &A) -> Result<W, WriteError>
    ensures { IfOk result (λ filled. Appends (W.contents file) (W.contents filled)
        (A.bytes archive.now)) }
{
    let mut writer = BufWriter::with_capacity(alloc, BUFFER, file)?;
    let written = match archive.write(alloc, &mut writer) {
        Ok(()) => writer.flush().map_err(WriteError::from),
        failed => failed,
    };
    // What a failed write left in the buffer is not written again.
    let (file, _) = writer.into_parts();
    match written {
        Ok(()) => Ok(file),
        Err(cause) => Err(cause),
    }
}

/// Writes an archive to a new file, and puts that into its place; or removes it.
///
/// # Errors
///
/// It was not written, and no file is in another's place.
pub(crate) fn place<D: Disk, A: Written>(
    alloc: Global,
    disk: &mut D,
    path: &str,
    archive: &A,
) -> Result<(), WriteError>
    requires { (D.view disk.old).left ≡ None }
    ensures placed { OnOk result (IsPlaced D.is_known (D.view disk.old) (D.view disk.new) path.now
        (A.bytes archive.now)) }
    ensures unplaced { OnErr result (IsUnplaced (D.view disk.old) (D.view disk.new)) }
{
    let file = disk.begin(path)?;
    let placed = match fill(alloc, file, archive) {
        Ok(file) => disk.replace(file).map_err(WriteError::from),
        Err(cause) => Err(cause),
    };
    if placed.is_err() {
        let _ = disk.remove();
    }
    placed
}

/// Puts an archive into the place that is asked for, if one is.
///
/// # Errors
///
/// It was not written, and no file is in another's place.
pub(crate) fn place_if<D: Disk, A: Written>(
    alloc: Global,
    disk: &mut D,
    output: Option<&str>,
    archive: &A,
) -> Result<(), WriteError>
    requires { (D.view disk.old).left ≡ None }
    ensures put { OnOk result (IsPut D.is_known (D.view disk.old) (D.view disk.new)
        (option_map (λ path. path.now) output.entry) (A.bytes archive.now)) }
    ensures unplaced { OnErr result (IsUnplaced (D.view disk.old) (D.view disk.new)) }
{
    match output {
        Some(path) => place(alloc, disk, path, archive),
        None => Ok(()),
    }
}

/// Puts the library of these members into the place that is asked for, whole or not at all; or sees
/// that there is one.
///
/// # Errors
///
/// `Refused`: the archive's format cannot carry them; nothing was written. `Writing`: it was not
/// written, and no file is in another's place; the new one is removed.
pub fn put<D: Disk>(
    alloc: Global,
    disk: &mut D,
    members: &LibraryMembers,
    request: &Request<'_>,
) -> Result<(), LibraryError>
    requires { (D.view disk.old).left ≡ None }
    ensures answers { AnswersWith D.is_known (D.view disk.old) (D.view disk.new)
        members.now (request_view request.now) result }
    ensures of_members { AnswersMembers D.is_known (D.view disk.old) (D.view disk.new)
        members.now (request_view request.now) result }
{
    let archive = archive_for(alloc, members, request.library.flavor)?;
    match place_if(alloc, disk, request.output, &archive) {
        Ok(()) => Ok(()),
        Err(cause) => Err(LibraryError::Writing(cause)),
    }
}
