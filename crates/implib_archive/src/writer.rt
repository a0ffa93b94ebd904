//! Archives, and writing them.

ghost use Rattle.implib_archive.specs.Archive.{archive_of, entries_of, first_place, front_of};
ghost use Rattle.implib_archive.specs.Archive.{long_names, member_part};
ghost use Rattle.implib_archive.specs.Pushed.{AreMeasured, IsHeaderBefore, IsRefusal, Pushes};
ghost use Rattle.implib_archive.specs.Pushed.{header_of, shown};
ghost use Rattle.implib_archive.specs.Refusal.{has_too_many, refusal_of};
ghost use Rattle.implib_archive.specs.Sources.{member_at};
ghost use Rattle.implib_archive.specs.Written.{Writes};
ghost use Rattle.std.specs.Prelude.{◌≡◌, ◌^◌, ◌<◌, [], IfErr, IfOk, None, OnOk, flat_map, length};
ghost use Rattle.std.specs.Prelude.{min};

use crate::entries::{Entries, entries_of};
use crate::error::{Error, Fault, WriteError};
use crate::front::write_front;
use crate::kind::Kind;
use crate::long_names::LongNames;
use crate::offsets::{Places, front_size, place_members, strings_size};
use crate::output::{PIECE_MEMORY, put_part};
use crate::refusal::source_refusal;
use crate::source::{Members, Source};
use implib::Member;
use std::alloc::{AllocError, Global};
use std::io;
use std::marker::Model;

/// An archive of the members of a source, which it borrows: its layout is known, its bytes are not
/// made yet.
#[derive(Drop)]
pub struct Archive<'a, S: Members = &'a [Member]> {
    source: S,
    kind: Kind,
    entries: Entries<'a>,
    names: LongNames<'a>,
    places: Places,
}

impl<'a, S: Members> Model for Archive<'a, S> {
    ghost use Rattle.implib_archive.specs.Archive.{ArchiveView};
    ghost use Rattle.implib_archive.specs.Pushed.{IsMade, shown};

    ghost Value = { ArchiveView };

    ghost view = { λ a. record { kind = a.kind; members = S.members a.source } };

    ghost invariant = { λ a. IsMade a.kind (S.members a.source)
        (shown a.entries.listed.items) (shown a.entries.sorted.items)
        (shown a.names.offsets.entries)
        a.names.size a.places.offsets.items a.places.end };
}

impl<'a, S: Source<'a>> Archive<'a, S> {
    /// The archive of the members of a source, in their order: of `&[Member]`, or of a caller's own
    /// [`Source`].
    ///
    /// It is refused where the kind cannot carry the members: `Error::Invalid` tells the first
    /// cause, that of the first member that has one, then too many members, then a header at an
    /// offset of 2^32 or more. Nothing is refused but for its cause or a failed allocation.
    pub fn new(alloc: Global, source: S, kind: Kind) -> Result<Self, Error>
        ensures holds { IfOk result (λ archive. archive
            ≡ record { kind = kind; members = S.members source }) }
        ensures accepted { OnOk result (refusal_of kind (S.members source) ≡ None) }
        ensures refused { IfErr result (IsRefusal (refusal_of kind (S.members source))) }
    {
        if let Some(fault) = source_refusal(kind, &source) {
            return Err(Error::Invalid(fault));
        }
        if has_too_many(kind, &source) {
            return Err(Error::Invalid(Fault::TooManyMembers));
        }
        let entries = entries_of(alloc, &source, kind)?;
        let names = LongNames::of(alloc, &source, kind)?;
        let first = first_place(kind, &source, entries.listed.as_slice(), &names);
        let places = place_members(alloc, first, &source)?;
        Ok(Archive {
            source,
            kind,
            entries,
            names,
            places,
        })
    }

    /// The size of the archive in bytes.
    pub fn len(&self) -> u64
        ensures { result ≡ length (archive_of self.now.kind self.now.members) }
    {
        self.places.end
    }

    /// The archive's bytes, in memory of exactly their size; a source of the caller's own may have
    /// asked for more.
    ///
    /// # Errors
    ///
    /// An allocation failed.
    pub fn to_vec(&self, alloc: Global) -> Result<Vec<u8>, AllocError>
        ensures { IfOk result (λ bytes. bytes.items ≡ archive_of self.now.kind self.now.members) }
    {
        let mut bytes = Vec::with_capacity(alloc, self.places.end as usize)?;
        match self.write_to(alloc, &mut bytes) {
            Ok(()) => Ok(bytes),
            // There was no memory: these bytes take all that is written.
            Err(_) => Err(AllocError),
        }
    }

    /// Writes the archive. The linker members are made in a buffer of 128 KiB, and the members one
    /// at a time in another.
    ///
    /// It calls `write` for each piece of a linker member, of 128 KiB or less, and two or three
    /// times for each member, so a writer to a file wants a `BufWriter` before it. It does not
    /// flush.
    ///
    /// # Errors
    ///
    /// The writer answered an error or took no byte, or an allocation failed. The writer then has a
    /// beginning of the archive, where its bytes are known. No call is repeated.
    pub fn write_to<W: io::Write>(&self, alloc: Global, writer: &mut W) -> Result<(), WriteError>
        ensures { Writes (W.contents writer.old) (W.contents writer.new)
            (archive_of self.now.kind self.now.members) result }
    {
        // All that the front needs, unless a symbol is longer than a piece.
        let memory = PIECE_MEMORY
            .saturating_add(self.names.size)
            .min(self.places.first);
        let mut piece = Vec::with_capacity(alloc, memory as usize)?;
        self.write_start(writer, &mut piece)?;
        write_members(alloc, writer, &mut piece, &self.names, &self.source)
    }

    // Writes the front through an empty buffer.
    fn write_start<W: io::Write>(
        &self,
        writer: &mut W,
        piece: &mut Vec<u8>,
    ) -> Result<(), WriteError>
        requires { piece.old.items ≡ [] }
        ensures { Writes (W.contents writer.old) (W.contents writer.new)
            (front_of self.now.kind self.now.members) result }
    {
        let entries = self.entries.listed.as_slice();
        let sorted = self.entries.sorted.as_slice();
        let places = self.places.offsets.as_slice();
        write_front(
            writer,
            piece,
            self.kind,
            entries,
            sorted,
            &self.names,
            places,
        )
    }
}

/// Whether there are more members than the second linker member numbers.
#[tactic(auto, unfolding(crate::specs::Refusal::has_too_many))]
pub fn has_too_many<'a, S: Source<'a>>(kind: Kind, source: &S) -> bool
    ensures { result ≡ has_too_many kind (S.members source.now) }
{
    match kind {
        Kind::Coff => source.count() >= 65535,
        Kind::Gnu => false,
    }
}

/// The offset of the first member's header; exact below 2^32.
pub fn first_place<'a, S: Source<'a>>(
    kind: Kind,
    source: &S,
    entries: &[(&str, usize)],
    names: &LongNames,
) -> u64
    requires listed { shown entries.now ≡ entries_of kind (S.members source.now) }
    requires measured { AreMeasured kind (long_names kind (S.members source.now))
        (shown names.now.offsets.entries) names.now.size }
    ensures { min result (2 ^ 32) ≡ min (first_place kind (S.members source.now)) (2 ^ 32) }
{
    front_size(
        kind,
        source.count(),
        entries.len(),
        strings_size(entries),
        names.size,
    )
}

// Makes a header that of the member at an index. It keeps the header of the member before, where
// name and size are the same, as they are of most short imports.
fn renew_header<'a, S: Source<'a>>(
    header: &mut Vec<u8>,
    names: &LongNames,
    source: &S,
    index: usize,
) -> Result<(), AllocError>
    requires within { index < length (S.members source.now) }
    requires before { IsHeaderBefore (shown names.now.offsets.entries) (S.members source.now) index
        header.old.items }
    ensures { OnOk result (header.new.items
        ≡ header_of (shown names.now.offsets.entries) (member_at (S.members source.now) index)) }
{
    let name = source.name(index);
    let size = source.size(index);
    if index > 0 && source.size(index - 1) == size && source.name(index - 1) == name {
        return Ok(());
    }
    header.clear();
    names.push_member_header(header, name, size)
}

/// Writes the members. One buffer serves all headers, and another the members' bytes.
pub fn write_members<'a, W: io::Write, S: Source<'a>>(
    alloc: Global,
    writer: &mut W,
    header: &mut Vec<u8>,
    names: &LongNames,
    source: &S,
) -> Result<(), WriteError>
    ensures { Writes (W.contents writer.old) (W.contents writer.new)
        (flat_map (member_part (shown names.now.offsets.entries)) (S.members source.now)) result }
{
    let mut bytes = Vec::new(alloc);
    for index in 0..source.count() {
        write_member(writer, header, &mut bytes, names, source, index)?;
    }
    Ok(())
}

// Writes the member at an index; the header is that of the member before.
fn write_member<'a, W: io::Write, S: Source<'a>>(
    writer: &mut W,
    header: &mut Vec<u8>,
    bytes: &mut Vec<u8>,
    names: &LongNames,
    source: &S,
    index: usize,
) -> Result<(), WriteError>
    requires within { index < length (S.members source.now) }
    requires before { IsHeaderBefore (shown names.now.offsets.entries) (S.members source.now) index
        header.old.items }
    ensures written { Writes (W.contents writer.old) (W.contents writer.new)
        (member_part (shown names.now.offsets.entries) (member_at (S.members source.now) index))
        result }
    ensures header { OnOk result (header.new.items
        ≡ header_of (shown names.now.offsets.entries) (member_at (S.members source.now) index)) }
{
    renew_header(header, names, source, index)?;
    bytes.clear();
    source.push_bytes(index, bytes)?;
    put_part(writer, header.as_slice(), bytes.as_slice())?;
    Ok(())
}
