//! From a text to members or an archive in a buffer, or to what is wrong.

ghost use Rattle.implib.specs.Conversions.{machine_numbered};
ghost use Rattle.implib.specs.Library.{member_view};
ghost use Rattle.implib.specs.Members.OfText.{MembersOf};
ghost use Rattle.implib_c_calls.specs.Answer.{Answers, HasMembers, LacksMembers, OnTextFault};
ghost use Rattle.implib_c_calls.specs.Answer.{flavor_numbered};
ghost use Rattle.implib_c_calls.specs.Given.{PacksInto, PutsEncoding, PutsInto, failure_status};
ghost use Rattle.implib_c_calls.specs.Given.{length_given, place_given, status_given};
ghost use Rattle.implib_c_calls.specs.Library.{LibraryAnswers, kind_of_flavor};
ghost use Rattle.implib_c_calls.specs.Status.{status_number};
ghost use Rattle.std.specs.Prelude.{◌≡◌, IfErr, IfOk, map};

use crate::encoding::{members_length, put_bytes, put_members};
use crate::export::ExportFault;
use crate::status::Status;
use implib::def::ModuleDef;
use implib::{Error, Fault, Flavor, ImportLibrary, MachineType, Member, ParseError};
use implib_archive::{Archive, Kind, Source};
use std::alloc::{AllocError, Global};

/// Why imports are not delayed.
#[derive(Clone, Copy, Debug)]
pub enum NoDelay {
    /// Microsoft's linkers delay the imports of an ordinary library.
    Flavor,
    /// The machine has no code for delayed imports.
    Machine,
    /// An export is data or a constant.
    Data,
    /// An export is a weak name for another.
    Alias,
}

/// Why nothing is put into the buffer.
#[derive(Debug, Drop)]
pub enum Failure {
    /// The encoding, or the archive, has more bytes than the buffer: this many.
    BufferTooSmall(usize),
    /// An allocation failed, or the encoding is longer than any buffer.
    OutOfMemory,
    /// The text is UTF-8 up to this offset, and no further.
    NotUtf8(usize),
    /// No machine has this number.
    UnknownMachine,
    /// No flavour has this number.
    UnknownFlavor,
    /// The text is no definition: the fault, and the offset of its token in bytes.
    SyntaxError(Fault, usize),
    /// The definition has no members.
    Refused(Fault),
    /// The members have no archive.
    NoArchive(implib_archive::Fault),
    /// No options have these flags.
    UnknownFlags,
    /// The name of the DLL that is given is not UTF-8.
    DllNotUtf8,
    /// No name of the DLL is given.
    NoDllName,
    /// The definition has no members: the fault, and the offset of the export's name in bytes, or
    /// 0.
    RefusedAt(Fault, usize),
    /// An export is refused by itself: the fault, and its index, or of a DLL's the position of its
    /// name or its ordinal.
    NoExport(ExportFault, usize),
    /// The bytes are no archive, or a thin one.
    NotALibrary,
    /// The bytes are no image: the offset of the field for which they are none.
    NotAnImage(usize),
    /// The image has no export directory.
    NoExportDirectory,
    /// The DLL is for another machine than the options.
    OtherMachine,
    /// The name of an export, at this offset, has no reading as one of C++.
    Unreadable(usize),
    /// The native definition is refused, at this offset in it, or 0.
    OfNative(usize),
    /// The imports are not delayed: why, and the offset of the export's name in bytes, or 0.
    NotDelayed(NoDelay, usize),
}

impl From<ParseError> for Failure {
    ghost use Rattle.implib_c_calls.specs.Given.{failure_of_parsing};

    ghost from_gives = { λ error given. given ≡ failure_of_parsing error };

    fn from(error: ParseError) -> Failure {
        match error {
            ParseError::Invalid(fault, position) => Failure::SyntaxError(fault, position.offset),
            ParseError::OutOfMemory(_) => Failure::OutOfMemory,
        }
    }
}

impl From<Error> for Failure {
    ghost use Rattle.implib_c_calls.specs.Given.{failure_of};

    ghost from_gives = { λ error given. given ≡ failure_of error };

    fn from(error: Error) -> Failure {
        match error {
            Error::Invalid(fault) => Failure::Refused(fault),
            Error::OutOfMemory(_) => Failure::OutOfMemory,
        }
    }
}

impl From<implib_archive::Error> for Failure {
    ghost use Rattle.implib_c_calls.specs.Given.{failure_of_archive};

    ghost from_gives = { λ error given. given ≡ failure_of_archive error };

    fn from(error: implib_archive::Error) -> Failure {
        match error {
            implib_archive::Error::Invalid(fault) => Failure::NoArchive(fault),
            implib_archive::Error::OutOfMemory(_) => Failure::OutOfMemory,
        }
    }
}

impl From<AllocError> for Failure {
    ghost use Rattle.implib_c_calls.specs.declared.outcome.Failure.TheVariants.{OutOfMemory};

    ghost from_gives = { λ _ given. given ≡ OutOfMemory };

    fn from(_refused: AllocError) -> Failure {
        Failure::OutOfMemory
    }
}

impl Failure {
    // The status that C gets.
    fn status(&self) -> Status
        ensures { result ≡ failure_status self.now }
    {
        match self {
            Failure::BufferTooSmall(_) => Status::BufferTooSmall,
            Failure::OutOfMemory => Status::OutOfMemory,
            Failure::NotUtf8(_) => Status::NotUtf8,
            Failure::UnknownMachine => Status::UnknownMachine,
            Failure::UnknownFlavor => Status::UnknownFlavor,
            Failure::SyntaxError(fault, _)
            | Failure::Refused(fault)
            | Failure::RefusedAt(fault, _) => Status::of_fault(fault),
            Failure::NoArchive(fault) => Status::of_archive(*fault),
            Failure::UnknownFlags => Status::UnknownFlags,
            Failure::DllNotUtf8 => Status::DllNotUtf8,
            Failure::NoDllName => Status::NoDllName,
            Failure::NoExport(fault, _) => Status::of_export(*fault),
            Failure::NotALibrary => Status::NotALibrary,
            Failure::NotAnImage(_) => Status::NotAnImage,
            Failure::NoExportDirectory => Status::NoExportDirectory,
            Failure::OtherMachine => Status::OtherMachine,
            Failure::Unreadable(_) => Status::UnreadableName,
            Failure::OfNative(_) => Status::NativeRefused,
            Failure::NotDelayed(why, _) => Status::of_delay(*why),
        }
    }
}

/// The status of an answer.
pub fn status_of(answer: &Result<usize, Failure>) -> Status
    ensures { result ≡ status_given answer.now }
{
    match answer {
        Ok(_) => Status::Success,
        Err(failure) => failure.status(),
    }
}

/// The length of the encoding, or of the archive, that an answer gives; else 0.
pub fn length_of(answer: &Result<usize, Failure>) -> usize
    ensures { result ≡ length_given answer.now }
{
    match answer {
        Ok(length) | Err(Failure::BufferTooSmall(length)) => *length,
        Err(_) => 0,
    }
}

/// The offset or the index that an answer gives; else 0.
pub fn place_of(answer: &Result<usize, Failure>) -> usize
    ensures { result ≡ place_given answer.now }
{
    match answer {
        Err(
            Failure::NotUtf8(offset)
            | Failure::SyntaxError(_, offset)
            | Failure::RefusedAt(_, offset)
            | Failure::NoExport(_, offset)
            | Failure::NotAnImage(offset)
            | Failure::Unreadable(offset)
            | Failure::OfNative(offset)
            | Failure::NotDelayed(_, offset),
        ) => *offset,
        Err(Failure::Refused(fault)) => fault.export_index().unwrap_or(0),
        _ => 0,
    }
}

/// The machine with a number.
pub fn machine_with(number: u16) -> Option<MachineType>
    ensures { result ≡ machine_numbered number }
{
    MachineType::try_from(number).ok()
}

/// The flavour with a number.
pub fn flavor_with(number: u32) -> Option<Flavor>
    ensures { result ≡ flavor_numbered number }
{
    match number {
        0 => Some(Flavor::Msvc),
        1 => Some(Flavor::Gnu),
        _ => None,
    }
}

// The members of the library that a text means.
fn members_of(
    alloc: Global,
    text: &str,
    machine: MachineType,
    flavor: Flavor,
) -> Result<Vec<Member>, Failure>
    ensures ok { IfOk result (λ members. MembersOf text.now machine flavor
        (map member_view members.items)) }
    ensures fault { IfErr result (OnTextFault text.now machine flavor) }
{
    let def = ModuleDef::parse_with_position(alloc, text, machine)?;
    let library = ImportLibrary::from_def(def, machine, flavor);
    let members = library.members()?;
    Ok(members)
}

// Puts the members' encoding at the beginning of the buffer, where there is room. Gives its length.
fn put_into(buffer: &mut [u8], members: &[Member]) -> Result<usize, Failure>
    ensures { PutsInto (map member_view members.now) buffer.old buffer.new result }
{
    let Some(length) = members_length(members) else {
        return Err(Failure::OutOfMemory);
    };
    if buffer.len() < length {
        return Err(Failure::BufferTooSmall(length));
    }
    Ok(put_members(buffer, members))
}

/// Puts an encoding at the beginning of the buffer, where there is room. Gives its length.
///
/// # Errors
///
/// `BufferTooSmall`.
pub fn put_encoding(buffer: &mut [u8], bytes: &[u8]) -> Result<usize, Failure>
    ensures { PutsEncoding bytes.now buffer.old buffer.new result }
{
    if buffer.len() < bytes.len() {
        return Err(Failure::BufferTooSmall(bytes.len()));
    }
    Ok(put_bytes(buffer, 0, bytes))
}

/// Puts the members' archive at the beginning of the buffer, where there is room. Gives its length.
///
/// The archive is made beside the buffer, which a failed allocation so leaves as it was.
///
/// # Errors
///
/// `NoArchive`, `BufferTooSmall`, `OutOfMemory`.
pub fn pack_into<'a, S: Source<'a>>(
    alloc: Global,
    buffer: &mut [u8],
    members: S,
    kind: Kind,
) -> Result<usize, Failure>
    ensures { PacksInto kind (S.members members) buffer.old buffer.new result }
{
    let archive = Archive::new(alloc, members, kind)?;
    let needed = archive.len() as usize;
    if buffer.len() < needed {
        return Err(Failure::BufferTooSmall(needed));
    }
    let bytes = archive.to_vec(alloc)?;
    Ok(put_bytes(buffer, 0, bytes.as_slice()))
}

// The kind of archive for a flavour.
fn kind_of_flavor(flavor: Flavor) -> Kind
    ensures { result ≡ kind_of_flavor flavor }
{
    match flavor {
        Flavor::Msvc => Kind::Coff,
        Flavor::Gnu => Kind::Gnu,
    }
}

// The members of the library that a text means, and their flavour.
fn read_members(
    alloc: Global,
    text: &[u8],
    machine: u16,
    flavor: u32,
) -> Result<(Vec<Member>, Flavor), Failure>
    ensures ok { IfOk result (λ found. HasMembers text.now machine flavor found.1
        (map member_view found.0.items)) }
    ensures fault { IfErr result (LacksMembers text.now machine flavor) }
{
    let Some(machine) = machine_with(machine) else {
        return Err(Failure::UnknownMachine);
    };
    let Some(flavor) = flavor_with(flavor) else {
        return Err(Failure::UnknownFlavor);
    };
    let text = match str::from_utf8(text) {
        Ok(text) => text,
        Err(error) => return Err(Failure::NotUtf8(error.valid_up_to())),
    };
    match members_of(alloc, text, machine, flavor) {
        Ok(members) => Ok((members, flavor)),
        Err(failure) => Err(failure),
    }
}

/// Puts the members of the library that a text means at the beginning of the buffer. Gives the
/// length of their encoding. An error leaves the buffer as it was.
///
/// # Errors
///
/// The first that applies: `UnknownMachine`, `UnknownFlavor`, `NotUtf8`, `SyntaxError`, `Refused`,
/// `BufferTooSmall`. `OutOfMemory` can precede the last three.
pub fn members_into(
    alloc: Global,
    text: &[u8],
    machine: u16,
    flavor: u32,
    buffer: &mut [u8],
) -> Result<usize, Failure>
    ensures { Answers text.now machine flavor buffer.old buffer.new
        (length_given result) (place_given result) (status_number (status_given result)) }
{
    match read_members(alloc, text, machine, flavor) {
        Ok((members, _)) => put_into(buffer, members.as_slice()),
        Err(failure) => Err(failure),
    }
}

/// Puts the archive of the library that a text means at the beginning of the buffer. Gives its
/// length. An error leaves the buffer as it was.
///
/// # Errors
///
/// The first that applies: `UnknownMachine`, `UnknownFlavor`, `NotUtf8`, `SyntaxError`, `Refused`,
/// `NoArchive`, `BufferTooSmall`. `OutOfMemory` can precede the last four, and come where none
/// applies.
pub fn library_into(
    alloc: Global,
    text: &[u8],
    machine: u16,
    flavor: u32,
    buffer: &mut [u8],
) -> Result<usize, Failure>
    ensures { LibraryAnswers text.now machine flavor buffer.old buffer.new
        (length_given result) (place_given result) (status_number (status_given result)) }
{
    match read_members(alloc, text, machine, flavor) {
        Ok((members, flavor)) => pack_into(
            alloc,
            buffer,
            members.as_slice(),
            kind_of_flavor(flavor),
        ),
        Err(failure) => Err(failure),
    }
}
