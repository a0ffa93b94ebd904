//! The short imports of a library, which are made when they are wanted.

ghost use Rattle.std.specs.Prelude.{◌≡◌, ◌<◌, ◌==◌, ◌^◌, length};

use crate::kept_import::KeptImport;
use implib_archive::{Members, Source};
use std::alloc::AllocError;
use std::marker::Model;

/// The short imports of a library for ARM64EC, as members in order, all with the library's name for
/// the linker. Of each what it says is kept; its bytes are made when they are wanted.
#[derive(Debug, Drop)]
pub struct Arm64ecImports {
    pub(crate) library: String,
    pub(crate) dll: String,
    pub(crate) imports: Vec<KeptImport>,
}

impl Model for Arm64ecImports {
    ghost use Rattle.implib.specs.Members.MemberSpec.{MemberView};
    ghost use Rattle.implib_arm64ec.specs.KeptImports.{IsKept, kept_view};
    ghost use Rattle.std.specs.List.{AllByRecursion};
    ghost use Rattle.std.specs.Prelude.{List, map, string_bytes};

    ghost Value = { List MemberView };

    ghost view = { λ s. map (kept_view
        (record { linked = string_bytes s.library; text = string_bytes s.dll })) s.imports.items };

    ghost invariant = { λ s. AllByRecursion (IsKept (string_bytes s.dll)) s.imports.items };
}

impl Arm64ecImports {
    /// How many there are.
    pub fn len(&self) -> usize
        ensures count { result ≡ length self.now }
        ensures bounded { result < 2 ^ 63 }
    {
        self.imports.len()
    }

    /// Whether there is none.
    pub fn is_empty(&self) -> bool
        ensures { result ≡ (length self.now == 0) }
    {
        self.imports.is_empty()
    }
}

impl<'a> Members for &'a Arm64ecImports {
    ghost members = { λ imports. imports.now };
}

impl<'a> Source<'a> for &'a Arm64ecImports {
    fn count(&self) -> usize {
        self.imports.len()
    }

    fn name(&self, _index: usize) -> &'a str {
        self.library.as_str()
    }

    fn size(&self, index: usize) -> usize {
        self.imports[index].size(self.dll.as_str())
    }

    fn symbol_count(&self, index: usize) -> usize {
        self.imports[index].symbol_count()
    }

    fn symbol(&self, index: usize, number: usize) -> &'a str {
        self.imports[index].archive_symbol(number)
    }

    fn push_bytes(&self, index: usize, out: &mut Vec<u8>) -> Result<(), AllocError> {
        let bytes = self.imports[index].bytes(*out.allocator(), self.dll.as_str())?;
        out.extend_from_slice(bytes.as_slice())
    }
}
