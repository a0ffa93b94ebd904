//! The members of a library, most of which are made when they are wanted.

ghost use Rattle.implib.specs.Library.{member_view};
ghost use Rattle.implib_rules.specs.Spots.{IsAt, later_in};
ghost use Rattle.std.specs.List.{slice_get};
ghost use Rattle.std.specs.Prelude.{◌≡◌, ◌++◌, IfOk, IfSome, length, map, string_bytes};

use implib::Member;
use implib::gnu::ExportObjects;
use implib::msvc::ShortImports;
use implib_archive::{Members, Source};
use std::alloc::AllocError;
use std::marker::Model;

/// Members that are made when they are wanted.
#[derive(Drop)]
pub(crate) enum MadeLater {
    /// No member.
    Nothing,
    /// Short imports.
    Imports(ShortImports),
    /// Objects of exports for GNU's linker.
    Objects(ExportObjects),
}

/// The members of a library, in order. Short imports, and objects of exports for GNU's linker, are
/// kept as what they say; their bytes are made when they are wanted.
#[derive(Drop)]
pub struct LibraryMembers {
    before: Vec<Member>,
    later: MadeLater,
    after: Vec<Member>,
    count: usize,
}

impl Model for LibraryMembers {
    ghost use Rattle.implib.specs.Library.{member_view};
    ghost use Rattle.implib.specs.Members.MemberSpec.{MemberView};
    ghost use Rattle.implib_rules.specs.Spots.{later_in};
    ghost use Rattle.std.specs.Prelude.{◌≡◌, ◌++◌, List, length, map};

    ghost Value = { List MemberView };

    ghost view = { λ m. map member_view m.before.items
        ++ (later_in m.later ++ map member_view m.after.items) };

    ghost invariant = { λ m. m.count ≡ length (map member_view m.before.items
        ++ (later_in m.later ++ map member_view m.after.items)) };
}

// Where a member is.
enum Spot<'a> {
    // Here.
    Held(&'a Member),
    // Among these, at this index.
    Import(&'a ShortImports, usize),
    // Among these, at this index.
    Object(&'a ExportObjects, usize),
    // Nowhere: there are not so many.
    Nowhere,
}

// Where the member at an index of some is.
fn spot_in(members: &[Member], index: usize) -> Spot<'_>
    ensures { IsAt (map member_view members.now) index result }
{
    match members.get(index) {
        Some(member) => Spot::Held(member),
        None => Spot::Nowhere,
    }
}

impl MadeLater {
    // How many there are.
    fn len(&self) -> usize
        ensures { result ≡ length (later_in self.now) }
    {
        match self {
            MadeLater::Nothing => 0,
            MadeLater::Imports(imports) => imports.len(),
            MadeLater::Objects(objects) => objects.len(),
        }
    }

    // Where the one at an index is.
    fn spot(&self, index: usize) -> Spot<'_>
        ensures { IsAt (later_in self.now) index result }
    {
        match self {
            MadeLater::Nothing => Spot::Nowhere,
            MadeLater::Imports(imports) => Spot::Import(imports, index),
            MadeLater::Objects(objects) => Spot::Object(objects, index),
        }
    }
}

// Where the member at an index of these and of others after them is.
fn spot_after<'a>(later: &'a MadeLater, after: &'a [Member], index: usize) -> Spot<'a>
    ensures { IsAt (later_in later.now ++ map member_view after.now) index result }
{
    let count = later.len();
    if index < count {
        later.spot(index)
    } else {
        spot_in(after, index - count)
    }
}

impl LibraryMembers {
    /// Members in order: some, those that are made when they are wanted, and others.
    ///
    /// # Errors
    ///
    /// There are 2^64 or more.
    pub(crate) fn new(
        before: Vec<Member>,
        later: MadeLater,
        after: Vec<Member>,
    ) -> Result<LibraryMembers, AllocError>
        ensures { IfOk result (λ members. members ≡ map member_view before.items
            ++ (later_in later ++ map member_view after.items)) }
    {
        let Some(count) = before.len().checked_add(later.len()) else {
            return Err(AllocError);
        };
        let Some(count) = count.checked_add(after.len()) else {
            return Err(AllocError);
        };
        Ok(LibraryMembers {
            before,
            later,
            after,
            count,
        })
    }

    /// How many there are.
    pub fn len(&self) -> usize
        ensures { result ≡ length self.now }
    {
        self.count
    }

    // Where the member at an index is.
    fn spot(&self, index: usize) -> Spot<'_>
        ensures { IsAt self.now index result }
    {
        if index < self.before.len() {
            spot_in(self.before.as_slice(), index)
        } else {
            spot_after(
                &self.later,
                self.after.as_slice(),
                index - self.before.len(),
            )
        }
    }
}

impl<'a> Members for &'a LibraryMembers {
    ghost members = { λ members. members.now };
}

// The symbol at a number among some; empty where there is none.
fn symbol_in(symbols: &[String], number: usize) -> &str
    ensures { IfSome (slice_get (map string_bytes symbols.now) number)
        (λ symbol. result.now ≡ symbol) }
{
    match symbols.get(number) {
        Some(symbol) => symbol.as_str(),
        None => "",
    }
}

impl<'a> Source<'a> for &'a LibraryMembers {
    fn count(&self) -> usize {
        self.count
    }

    fn name(&self, index: usize) -> &'a str {
        match self.spot(index) {
            Spot::Held(member) => member.name.as_str(),
            Spot::Import(imports, index) => imports.name(index),
            Spot::Object(objects, index) => objects.name(index),
            Spot::Nowhere => "",
        }
    }

    fn size(&self, index: usize) -> usize {
        match self.spot(index) {
            Spot::Held(member) => member.bytes.as_slice().len(),
            Spot::Import(imports, index) => imports.size(index),
            Spot::Object(objects, index) => objects.size(index),
            Spot::Nowhere => 0,
        }
    }

    fn symbol_count(&self, index: usize) -> usize {
        match self.spot(index) {
            Spot::Held(member) => member.symbols.as_slice().len(),
            Spot::Import(imports, index) => imports.symbol_count(index),
            Spot::Object(objects, index) => objects.symbol_count(index),
            Spot::Nowhere => 0,
        }
    }

    fn symbol(&self, index: usize, number: usize) -> &'a str {
        match self.spot(index) {
            Spot::Held(member) => symbol_in(member.symbols.as_slice(), number),
            Spot::Import(imports, index) => imports.symbol(index, number),
            Spot::Object(objects, index) => objects.symbol(index, number),
            Spot::Nowhere => "",
        }
    }

    fn push_bytes(&self, index: usize, out: &mut Vec<u8>) -> Result<(), AllocError> {
        match self.spot(index) {
            Spot::Held(member) => out.extend_from_slice(member.bytes.as_slice()),
            Spot::Import(imports, index) => {
                let bytes = imports.bytes(*out.allocator(), index)?;
                out.extend_from_slice(bytes.as_slice())
            }
            Spot::Object(objects, index) => {
                let bytes = objects.bytes(*out.allocator(), index)?;
                out.extend_from_slice(bytes.as_slice())
            }
            Spot::Nowhere => Ok(()),
        }
    }
}
