//! The members of a library whose null descriptor is named after it.

ghost use Rattle.implib.specs.Definition.{definition_view};
ghost use Rattle.implib.specs.Library.{member_view};
ghost use Rattle.implib.specs.LibraryName.{names_for};
ghost use Rattle.implib.specs.Members.MemberSpec.{member_of};
ghost use Rattle.implib.specs.declared.flavor.Flavor.TheVariants.{Msvc};
ghost use Rattle.implib_libraries.specs.NullDescriptor.Libraries.{AreHeadersFor, IsRefusalOfNamed};
ghost use Rattle.implib_libraries.specs.NullDescriptor.Libraries.{NamedMembersFor};
ghost use Rattle.implib_libraries.specs.NullDescriptor.Spots.{IsThere};
ghost use Rattle.implib_rules.specs.Library.{MembersFor};
ghost use Rattle.implib_rules.specs.Options.{library_options_view};
ghost use Rattle.std.specs.Prelude.{◌<◌, ◌≡◌, IfErr, IfOk, length, map};

use super::headers::headers;
use implib::msvc::linked_dll;
use implib::{Error, Flavor, Member};
use implib_archive::{Members, Source};
use implib_rules::library::{Refusal, definition_for, members_for};
use implib_rules::members::LibraryMembers;
use implib_rules::options::LibraryOptions;
use implib_rules::places::position_of_fault;
use implib_rules::text::DefinitionText;
use std::alloc::{AllocError, Global};
use std::marker::Model;

/// The members of a library, in order. Most are made when they are wanted.
#[derive(Drop)]
pub struct NamedMembers {
    // The descriptors, in the place of as many of the others.
    headers: Vec<Member>,
    ordinary: LibraryMembers,
}

impl Model for NamedMembers {
    ghost use Rattle.implib.specs.Library.{member_view};
    ghost use Rattle.implib.specs.Members.MemberSpec.{MemberView};
    ghost use Rattle.std.specs.Prelude.{◌≤◌, ◌++◌, List, drop, length, map};

    ghost Value = { List MemberView };

    ghost view = { λ m. map member_view m.headers.items ++ drop (length m.headers.items) m.ordinary };

    ghost invariant = { λ m. length m.headers.items ≤ length m.ordinary };
}

// Where a member is.
enum Spot<'a> {
    // Among the descriptors: this one.
    Header(&'a Member),
    // Among these, at the same index.
    Ordinary(&'a LibraryMembers),
}

impl NamedMembers {
    /// How many there are.
    pub fn len(&self) -> usize
        ensures { result ≡ length self.now }
    {
        self.ordinary.len()
    }

    // Where the member at an index is.
    fn spot(&self, index: usize) -> Spot<'_>
        requires { index < length self.now }
        ensures { IsThere self.now index result }
    {
        if index < self.headers.len() {
            Spot::Header(&self.headers[index])
        } else {
            Spot::Ordinary(&self.ordinary)
        }
    }
}

impl<'a> Members for &'a NamedMembers {
    ghost members = { λ members. members.now };
}

impl<'a> Source<'a> for &'a NamedMembers {
    fn count(&self) -> usize {
        self.ordinary.len()
    }

    fn name(&self, index: usize) -> &'a str {
        match self.spot(index) {
            Spot::Header(member) => member.name.as_str(),
            Spot::Ordinary(members) => members.name(index),
        }
    }

    fn size(&self, index: usize) -> usize {
        match self.spot(index) {
            Spot::Header(member) => member.bytes.as_slice().len(),
            Spot::Ordinary(members) => members.size(index),
        }
    }

    fn symbol_count(&self, index: usize) -> usize {
        match self.spot(index) {
            Spot::Header(member) => member.symbols.as_slice().len(),
            Spot::Ordinary(members) => members.symbol_count(index),
        }
    }

    fn symbol(&self, index: usize, number: usize) -> &'a str {
        match self.spot(index) {
            Spot::Header(member) => member.symbols[number].as_str(),
            Spot::Ordinary(members) => members.symbol(index, number),
        }
    }

    fn push_bytes(&self, index: usize, out: &mut Vec<u8>) -> Result<(), AllocError> {
        match self.spot(index) {
            Spot::Header(member) => out.extend_from_slice(member.bytes.as_slice()),
            Spot::Ordinary(members) => members.push_bytes(index, out),
        }
    }
}

// The descriptors of the library of a definition, whose other members are these.
fn headers_for(
    alloc: Global,
    bytes: &[u8],
    options: &LibraryOptions<'_>,
    ordinary: &LibraryMembers,
) -> Result<Vec<Member>, Refusal>
    requires members { MembersFor bytes.now (library_options_view options.now) ordinary.now }
    requires msvc { options.now.flavor ≡ Msvc }
    ensures made { IfOk result (λ headers. AreHeadersFor bytes.now
        (library_options_view options.now) (map member_view headers.items)) }
    ensures refused { IfErr result
        (IsRefusalOfNamed bytes.now (library_options_view options.now)) }
{
    let read = DefinitionText::new(alloc, bytes)?;
    let text = match read.text() {
        Ok(text) => text,
        Err(position) => return Err(Refusal::NotUtf8(position)),
    };
    let def = definition_for(alloc, text, options)?;
    let library = linked_dll(alloc, &def)?;
    let symbol = ordinary.symbol(0, 0);
    let null_thunk = ordinary.symbol(2, 0);
    let dll = def.import_name.as_str();
    match headers(
        alloc,
        options.machine,
        library.as_str(),
        dll,
        symbol,
        null_thunk,
    ) {
        Ok(headers) => Ok(headers),
        Err(Error::Invalid(fault)) => match position_of_fault(alloc, text, &fault) {
            Ok(position) => Err(Refusal::Members(fault, position)),
            Err(_) => Err(Refusal::OutOfMemory),
        },
        Err(Error::OutOfMemory(_)) => Err(Refusal::OutOfMemory),
    }
}

/// The members of the library that is asked for; for Microsoft's linkers its null descriptor has a
/// symbol that is named after the library.
///
/// # Errors
///
/// Those of [`members_for`]; and `Members` with `MemberTooLong` where that symbol makes a member of
/// more than 2^32 - 1 bytes.
pub fn named_members_for(
    alloc: Global,
    bytes: &[u8],
    options: &LibraryOptions<'_>,
) -> Result<NamedMembers, Refusal>
    ensures made { IfOk result (λ members. NamedMembersFor bytes.now
        (library_options_view options.now) members) }
    ensures refused { IfErr result
        (IsRefusalOfNamed bytes.now (library_options_view options.now)) }
{
    let ordinary = members_for(alloc, bytes, options)?;
    match options.flavor {
        Flavor::Msvc => {
            let headers = headers_for(alloc, bytes, options, &ordinary)?;
            Ok(NamedMembers { headers, ordinary })
        }
        Flavor::Gnu => Ok(NamedMembers {
            headers: Vec::new(alloc),
            ordinary,
        }),
    }
}
