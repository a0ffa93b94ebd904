//! From the bytes that are read to the bytes that are written.

ghost use Rattle.implib.specs.Library.{member_view};
ghost use Rattle.implib_tool_driver.specs.Listing.{listing_of};
ghost use Rattle.implib_tool_driver.specs.Run.{MembersOfDocument, Runs, devices};
ghost use Rattle.implib_tool_driver.specs.Views.{MembersOfDocuments, OnInputFault, OnDocumentFault};
ghost use Rattle.implib_tool_driver.specs.Views.{OnReadFault, OnTextFault, OnWriteFault, Passes};
ghost use Rattle.implib_tool_driver.specs.Views.{buffered, member_views};
ghost use Rattle.implib_tool_driver.specs.declared.run.RunError.TheVariants.{OutOfMemory};
ghost use Rattle.std.specs.Io.KnownBytes.{Appends, Consumes, IsAtEnd};
ghost use Rattle.std.specs.Prelude.{◌≡◌, IfErr, IfOk, IfSome, OnOk, false, flat_map, map};
ghost use Rattle.std.specs.Str.{IsUtf8};

use crate::device::{Sink, Source};
use crate::documents::divide;
use crate::listing::list_members;
use crate::output::Buffer;
use implib::{Error, Fault, Flavor, ImportLibrary, MachineType, Member};
use std::alloc::{AllocError, AllocFailed, Global};

/// Why a run failed. Only [`RunError::Write`] may leave a beginning of the listing.
#[derive(Debug, Drop, thiserror::Error)]
pub enum RunError {
    /// A definition is refused.
    #[error("{0}")]
    Refused(Fault),
    /// The input is not UTF-8.
    #[error("input is not UTF-8")]
    NotUtf8,
    /// The reader failed.
    #[error("read failed")]
    Read,
    /// The writer failed. It may have taken a beginning of the listing.
    #[error("write failed")]
    Write,
    /// An allocation failed.
    #[error("out of memory")]
    OutOfMemory,
}

impl From<AllocError> for RunError {
    ghost from_gives = { λ _ error. error ≡ OutOfMemory };

    fn from(_refused: AllocError) -> RunError {
        RunError::OutOfMemory
    }
}

impl<T: Drop> From<AllocFailed<T>> for RunError {
    ghost from_gives = { λ _ error. error ≡ OutOfMemory };

    fn from(_refused: AllocFailed<T>) -> RunError {
        RunError::OutOfMemory
    }
}

impl From<Error> for RunError {
    ghost use Rattle.implib_tool_driver.specs.Run.{run_error};

    ghost from_gives = { λ error given. given ≡ run_error error };

    fn from(error: Error) -> RunError {
        match error {
            Error::Invalid(fault) => RunError::Refused(fault),
            Error::OutOfMemory(_) => RunError::OutOfMemory,
        }
    }
}

// Reads all that a reader has left.
fn read_all<R: Source>(alloc: Global, reader: &mut R) -> Result<Vec<u8>, RunError>
    ensures bytes { IfOk result
        (λ input. Consumes (R.remaining reader.old) (R.remaining reader.new) input.items) }
    ensures end { OnOk result (IsAtEnd (R.remaining reader.new)) }
    ensures sound { OnOk result (R.failed reader.new ≡ R.failed reader.old) }
    ensures fault { IfErr result (OnReadFault (R.failed reader.old) (R.failed reader.new)) }
{
    let mut input = Vec::new(alloc);
    let mut buffer = [0u8; 16384];
    loop {
        let count = match reader.read(&mut buffer) {
            Ok(count) => count,
            Err(_) => return Err(RunError::Read),
        };
        if count == 0 {
            return Ok(input);
        }
        input.extend_from_slice(&buffer[..count])?;
    }
}

// The members of the definition that a text means.
fn members_of(
    alloc: Global,
    document: &str,
    machine: MachineType,
    flavor: Flavor,
) -> Result<Vec<Member>, RunError>
    ensures ok { IfOk result
        (λ members. MembersOfDocument document.now machine flavor (map member_view members.items)) }
    ensures fault { IfErr result (OnDocumentFault document.now machine flavor) }
{
    let library = ImportLibrary::new(alloc, document, machine, flavor)?;
    let members = library.members()?;
    Ok(members)
}

// The members of the definition of each document of a text, one after another.
fn members_of_documents(
    alloc: Global,
    text: &str,
    machine: MachineType,
    flavor: Flavor,
) -> Result<Vec<Vec<Member>>, RunError>
    ensures ok { IfOk result
        (λ lists. MembersOfDocuments text.now machine flavor (member_views lists.items)) }
    ensures fault { IfErr result (OnTextFault text.now machine flavor) }
{
    let mut lists = Vec::new(alloc);
    let mut rest = Some(text);
    while let Some(left) = rest {
        let (document, after) = divide(left);
        lists.push(members_of(alloc, document, machine, flavor)?)?;
        rest = after;
    }
    Ok(lists)
}

// Reads all of the reader, and makes the members of its definitions. What was read is freed.
fn read_members<R: Source>(
    alloc: Global,
    reader: &mut R,
    machine: MachineType,
    flavor: Flavor,
) -> Result<Vec<Vec<Member>>, RunError>
    requires { R.failed reader.old ≡ false }
    ensures end { OnOk result (IsAtEnd (R.remaining reader.new)) }
    ensures sound { OnOk result (R.failed reader.new ≡ false) }
    ensures utf8 { OnOk result (IfSome (R.remaining reader.old) IsUtf8) }
    ensures members { IfOk result (λ lists. IfSome (R.remaining reader.old)
        (λ text. MembersOfDocuments text machine flavor (member_views lists.items))) }
    ensures fault { IfErr result
        (OnInputFault (R.remaining reader.old) (R.failed reader.new) machine flavor) }
{
    let input = read_all(alloc, reader)?;
    let text = match str::from_utf8(input.as_slice()) {
        Ok(text) => text,
        Err(_) => return Err(RunError::NotUtf8),
    };
    members_of_documents(alloc, text, machine, flavor)
}

// Lists the members of each document, document after document.
fn list_documents<W: Sink>(buffer: &mut Buffer, writer: &mut W, lists: &[Vec<Member>])
    ensures { Passes W.keeps
        (buffered (W.contents writer.old) (W.failed writer.old) buffer.old)
        (buffered (W.contents writer.new) (W.failed writer.new) buffer.new)
        (flat_map listing_of (member_views lists.now)) }
{
    for members in lists {
        list_members(buffer, writer, members.as_slice());
    }
}

// Writes the listing of the members of each document, through one buffer that is reserved first.
fn write_listing<W: Sink>(
    alloc: Global,
    writer: &mut W,
    lists: &[Vec<Member>],
) -> Result<(), RunError>
    requires { W.failed writer.old ≡ false }
    ensures moved { OnOk result (Appends (W.contents writer.old) (W.contents writer.new)
        (flat_map listing_of (member_views lists.now))) }
    ensures sound { OnOk result (W.failed writer.new ≡ false) }
    ensures fault { IfErr result
        (OnWriteFault W.keeps (W.contents writer.old) (W.contents writer.new) (W.failed writer.new)
        (flat_map listing_of (member_views lists.now))) }
{
    let mut buffer = Buffer::reserve(alloc)?;
    list_documents(&mut buffer, writer, lists);
    buffer.flush(writer);
    if writer.has_failed() {
        return Err(RunError::Write);
    }
    Ok(())
}

/// Reads the whole input, makes the members of its definitions, and then writes their listing.
///
/// Nothing is written unless all members were made. Requires that neither device has failed. No
/// failed call is repeated. The input is tested for UTF-8 before any definition is refused.
pub fn run<R: Source, W: Sink>(
    alloc: Global,
    reader: &mut R,
    writer: &mut W,
    machine: MachineType,
    flavor: Flavor,
) -> Result<(), RunError>
    requires reader { R.failed reader.old ≡ false }
    requires writer { W.failed writer.old ≡ false }
    ensures { Runs machine flavor
        (devices (R.remaining reader.old) (R.failed reader.old)
        (W.contents writer.old) (W.failed writer.old) W.keeps)
        (devices (R.remaining reader.new) (R.failed reader.new)
        (W.contents writer.new) (W.failed writer.new) W.keeps)
        result }
{
    let lists = read_members(alloc, reader, machine, flavor)?;
    write_listing(alloc, writer, lists.as_slice())
}
