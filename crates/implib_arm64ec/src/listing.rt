//! The members of a library, as its indexes list them.

ghost use Rattle.implib_archive.specs.Sources.{member_at};
ghost use Rattle.implib_arm64ec.specs.Library.{IsThere, has_imports, has_natives, library_view};
ghost use Rattle.implib_arm64ec.specs.Library.{listing_members, silent, spot_view};
ghost use Rattle.std.specs.Prelude.{length, if◌then◌else◌, ◌<◌, ◌≡◌};

use crate::arm64ec_imports::Arm64ecImports;
use implib::Member;
use implib_archive::{Members, Source};
use std::alloc::AllocError;

// Which members have symbols.
#[derive(Clone, Copy)]
pub enum Listed {
    All,
    // Headers and native members.
    Arm64,
    // Headers and imports.
    Arm64ec,
}

// The members of a library, of which some have symbols.
#[derive(Clone, Copy)]
pub struct Listing<'a> {
    pub(crate) headers: &'a [Member],
    pub(crate) imports: &'a Arm64ecImports,
    pub(crate) natives: &'a [Member],
    pub(crate) listed: Listed,
}

// Where a member is.
#[derive(Clone, Copy)]
enum Spot<'a> {
    // Here.
    Held(&'a Member),
    // Among these, at this index.
    Import(&'a Arm64ecImports, usize),
}

// A member, and whether it has its symbols.
#[derive(Clone, Copy)]
struct Seen<'a> {
    spot: Spot<'a>,
    listed: bool,
}

impl<'a> Listing<'a> {
    // The same members, of which others have symbols.
    pub(crate) fn with(&self, listed: Listed) -> Listing<'a>
        ensures library { library_view result ≡ library_view self.now }
        ensures listed { result.listed ≡ listed }
    {
        Listing {
            headers: self.headers,
            imports: self.imports,
            natives: self.natives,
            listed,
        }
    }

    // The member at an index.
    fn at(&self, index: usize) -> Seen<'a>
        requires { index < length (listing_members self.now) }
        ensures there { IsThere result.spot }
        ensures member { (if result.listed then spot_view result.spot
            else silent (spot_view result.spot))
            ≡ member_at (listing_members self.now) index }
    {
        if index < self.headers.len() {
            return Seen {
                spot: Spot::Held(&self.headers[index]),
                listed: true,
            };
        }
        let behind = index - self.headers.len();
        let imports = self.imports;
        if behind < imports.len() {
            return Seen {
                spot: Spot::Import(imports, behind),
                listed: has_imports(self.listed),
            };
        }
        Seen {
            spot: Spot::Held(&self.natives[behind - imports.len()]),
            listed: has_natives(self.listed),
        }
    }
}

impl<'a> Members for Listing<'a> {
    ghost members = { λ listing. listing_members listing };
}

impl<'a> Source<'a> for Listing<'a> {
    fn count(&self) -> usize {
        self.headers.len() + self.imports.len() + self.natives.len()
    }

    fn name(&self, index: usize) -> &'a str {
        match self.at(index).spot {
            Spot::Held(member) => member.name.as_str(),
            Spot::Import(imports, index) => imports.name(index),
        }
    }

    fn size(&self, index: usize) -> usize {
        match self.at(index).spot {
            Spot::Held(member) => member.bytes.as_slice().len(),
            Spot::Import(imports, index) => imports.size(index),
        }
    }

    fn symbol_count(&self, index: usize) -> usize {
        let seen = self.at(index);
        if !seen.listed {
            return 0;
        }
        match seen.spot {
            Spot::Held(member) => member.symbols.as_slice().len(),
            Spot::Import(imports, index) => imports.symbol_count(index),
        }
    }

    fn symbol(&self, index: usize, number: usize) -> &'a str {
        match self.at(index).spot {
            Spot::Held(member) => member.symbols[number].as_str(),
            Spot::Import(imports, index) => imports.symbol(index, number),
        }
    }

    fn push_bytes(&self, index: usize, out: &mut Vec<u8>) -> Result<(), AllocError> {
        match self.at(index).spot {
            Spot::Held(member) => out.extend_from_slice(member.bytes.as_slice()),
            Spot::Import(imports, index) => imports.push_bytes(index, out),
        }
    }
}

// Whether the imports have symbols.
fn has_imports(listed: Listed) -> bool
    ensures { result ≡ has_imports listed }
{
    !matches!(listed, Listed::Arm64)
}

// Whether the native members have symbols.
fn has_natives(listed: Listed) -> bool
    ensures { result ≡ has_natives listed }
{
    !matches!(listed, Listed::Arm64ec)
}
