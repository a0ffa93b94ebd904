//! The archives of ARM64EC's libraries, and writing them.

ghost use Rattle.implib.specs.Library.{member_view};
ghost use Rattle.implib_archive.specs.Archive.{front};
ghost use Rattle.implib_archive.specs.Pushed.{IsRefusal, shown};
ghost use Rattle.implib_archive.specs.Written.{Writes};
ghost use Rattle.implib_archive.specs.declared.kind.Kind.TheVariants.{Coff};
ghost use Rattle.implib_arm64ec.specs.Archive.{arm64_entries, ec_archive, ec_entries, ec_part};
ghost use Rattle.implib_arm64ec.specs.Archive.{library_names, library_refusal, member_places};
ghost use Rattle.implib_arm64ec.specs.Library.{library_view};
ghost use Rattle.std.specs.Prelude.{◌≡◌, [], IfErr, IfOk, None, OnOk, length, map};

use crate::arm64ec_imports::Arm64ecImports;
use crate::ec_index::{index_size, write_index};
use crate::listing::{Listed, Listing};
use implib::Member;
use implib_archive::layout::{
    Entries, LongNames, PIECE_MEMORY, Places, entries_of, first_place, has_too_many, place_members,
    source_refusal, write_front, write_members,
};
use implib_archive::{Error, Fault, Kind, WriteError};
use std::alloc::{AllocError, Global};
use std::io;
use std::marker::Model;

/// The archive of a library for ARM64EC, whose members it borrows: its layout is known, its bytes
/// are not made yet.
#[derive(Drop)]
pub struct Archive<'a> {
    source: Listing<'a>,
    entries: Entries<'a>,
    ec_entries: Vec<(&'a str, usize)>,
    names: LongNames<'a>,
    places: Places,
}

impl<'a> Model for Archive<'a> {
    ghost use Rattle.implib_archive.specs.Pushed.{shown};
    ghost use Rattle.implib_arm64ec.specs.Library.{LibraryView, library_view};
    ghost use Rattle.implib_arm64ec.specs.Made.{IsMade};

    ghost Value = { LibraryView };

    ghost view = { λ a. library_view a.source };

    ghost invariant = { λ a. IsMade (library_view a.source) a.source.listed
        (shown a.entries.listed.items) (shown a.entries.sorted.items) (shown a.ec_entries.items)
        (shown a.names.offsets.entries) a.names.size a.places.offsets.items a.places.end };
}

impl<'a> Archive<'a> {
    /// The archive of a library, in this order: its headers, which are the descriptor, the null
    /// descriptor and the null thunk, of machine ARM64; its short imports for ARM64EC; and the
    /// members for ARM64 of a native definition.
    ///
    /// It is refused as an archive of the COFF kind is: `Error::Invalid` tells the first cause,
    /// that of the first member that has one, then 65,535 members or more, then a header at an
    /// offset of 2^32 or more. Nothing is refused but for its cause or a failed allocation.
    pub fn new(
        alloc: Global,
        headers: &'a [Member],
        imports: &'a Arm64ecImports,
        natives: &'a [Member],
    ) -> Result<Self, Error>
        ensures holds { IfOk result (λ archive. archive ≡ record {
          headers = map member_view headers.now;
          imports = imports.now;
          natives = map member_view natives.now;
        }) }
        ensures accepted { OnOk result (library_refusal (record {
          headers = map member_view headers.now;
          imports = imports.now;
          natives = map member_view natives.now;
        }) ≡ None) }
        ensures refused { IfErr result (IsRefusal (library_refusal (record {
          headers = map member_view headers.now;
          imports = imports.now;
          natives = map member_view natives.now;
        }))) }
    {
        let all = Listing {
            headers,
            imports,
            natives,
            listed: Listed::All,
        };
        if let Some(fault) = source_refusal(Kind::Coff, &all) {
            return Err(Error::Invalid(fault));
        }
        if has_too_many(Kind::Coff, &all) {
            return Err(Error::Invalid(Fault::TooManyMembers));
        }
        let source = all.with(Listed::Arm64);
        let entries = entries_of(alloc, &source, Kind::Coff)?;
        let ec_entries = ec_entries(alloc, &all)?;
        let names = LongNames::of(alloc, &source, Kind::Coff)?;
        let front = first_place(Kind::Coff, &source, entries.listed.as_slice(), &names);
        let first = front.saturating_add(index_size(ec_entries.as_slice()));
        let places = place_members(alloc, first, &source)?;
        Ok(Archive {
            source,
            entries,
            ec_entries,
            names,
            places,
        })
    }

    /// The size of the archive in bytes.
    pub fn len(&self) -> u64
        ensures { result ≡ length (ec_archive self.now) }
    {
        self.places.end
    }

    /// The archive's bytes.
    ///
    /// # Errors
    ///
    /// An allocation failed.
    pub fn to_vec(&self, alloc: Global) -> Result<Vec<u8>, AllocError>
        ensures { IfOk result (λ bytes. bytes.items ≡ ec_archive self.now) }
    {
        let mut bytes = Vec::with_capacity(alloc, self.places.end as usize)?;
        match self.write_to(alloc, &mut bytes) {
            Ok(()) => Ok(bytes),
            // There was no memory: these bytes take all that is written.
            Err(_) => Err(AllocError),
        }
    }

    /// Writes the archive, its indexes a piece at a time, and the members one at a time. It does
    /// not flush.
    ///
    /// # Errors
    ///
    /// The writer answered an error or took no byte, or an allocation failed. The writer then has a
    /// beginning of the archive, where its bytes are known. No call is repeated.
    pub fn write_to<W: io::Write>(&self, alloc: Global, writer: &mut W) -> Result<(), WriteError>
        ensures { Writes (W.contents writer.old) (W.contents writer.new) (ec_archive self.now)
            result }
    {
        // All that the front needs, unless a symbol is longer than a piece.
        let memory = PIECE_MEMORY
            .saturating_add(self.names.size)
            .min(self.places.first);
        let mut piece = Vec::with_capacity(alloc, memory as usize)?;
        self.write_start(writer, &mut piece)?;
        piece.clear();
        self.write_ec_index(writer, &mut piece)?;
        write_members(alloc, writer, &mut piece, &self.names, &self.source)
    }

    // Writes what is before the EC index, through an empty buffer.
    fn write_start<W: io::Write>(
        &self,
        writer: &mut W,
        piece: &mut Vec<u8>,
    ) -> Result<(), WriteError>
        requires { piece.old.items ≡ [] }
        ensures { Writes (W.contents writer.old) (W.contents writer.new)
            (front Coff (member_places self.now) (arm64_entries self.now) (library_names self.now))
            result }
    {
        let entries = self.entries.listed.as_slice();
        let sorted = self.entries.sorted.as_slice();
        let places = self.places.offsets.as_slice();
        write_front(
            writer,
            piece,
            Kind::Coff,
            entries,
            sorted,
            &self.names,
            places,
        )
    }

    // Writes the EC index, through an empty buffer.
    fn write_ec_index<W: io::Write>(
        &self,
        writer: &mut W,
        piece: &mut Vec<u8>,
    ) -> Result<(), WriteError>
        requires { piece.old.items ≡ [] }
        ensures { Writes (W.contents writer.old) (W.contents writer.new)
            (ec_part (ec_entries self.now)) result }
    {
        write_index(writer, piece, self.ec_entries.as_slice())
    }
}

// The entries of the EC index.
fn ec_entries<'a>(alloc: Global, library: &Listing<'a>) -> Result<Vec<(&'a str, usize)>, AllocError>
    ensures { IfOk result (λ entries.
        shown entries.items ≡ ec_entries (library_view library.now)) }
{
    let source = library.with(Listed::Arm64ec);
    let entries = entries_of(alloc, &source, Kind::Coff)?;
    Ok(entries.sorted)
}
