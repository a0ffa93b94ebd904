//! Where the members of an archive come from.

ghost use Rattle.implib.specs.Library.{member_view};
ghost use Rattle.implib.specs.Members.MemberSpec.{MemberView};
ghost use Rattle.implib_archive.specs.Pushed.{Pushes};
ghost use Rattle.implib_archive.specs.Sources.{member_at, symbol_at};
ghost use Rattle.std.specs.Prelude.{◌≡◌, ◌<◌, List, OnOk, length, map};

use implib::Member;
use std::alloc::AllocError;

/// A value that stands for members, as a reference to them does. [`Source`] has the calls that
/// answer of them; contracts of an archive name the members alone.
pub trait Members: Copy {
    // The members, in order.
    ghost members: { Self → List MemberView };
}

/// Where the members of an archive come from: their names, sizes and symbols are at hand, and their
/// bytes are made when they are wanted.
///
/// An archive keeps a copy of its source, so a type that is not `Copy` has this at its reference:
/// `impl<'a> Source<'a> for &'a T`.
pub trait Source<'a>: Members {
    /// The number of the members.
    fn count(&self) -> usize
        ensures { result ≡ length (Self.members self.now) };

    /// The name of the member at an index, from 0.
    fn name(&self, index: usize) -> &'a str
        requires { index < length (Self.members self.now) }
        ensures { result.now ≡ (member_at (Self.members self.now) index).name };

    /// The size of its file in bytes.
    fn size(&self, index: usize) -> usize
        requires { index < length (Self.members self.now) }
        ensures { result ≡ length (member_at (Self.members self.now) index).bytes };

    /// The number of its archive symbols.
    fn symbol_count(&self, index: usize) -> usize
        requires { index < length (Self.members self.now) }
        ensures { result ≡ length (member_at (Self.members self.now) index).symbols };

    /// The archive symbol at a number, from 0.
    fn symbol(&self, index: usize, number: usize) -> &'a str
        requires within { index < length (Self.members self.now) }
        requires listed { number < length (member_at (Self.members self.now) index).symbols }
        ensures { result.now ≡ symbol_at (member_at (Self.members self.now) index) number };

    /// Appends the bytes of its file.
    ///
    /// # Errors
    ///
    /// An allocation failed. What was appended then is not said.
    fn push_bytes(&self, index: usize, out: &mut Vec<u8>) -> Result<(), AllocError>
        requires { index < length (Self.members self.now) }
        ensures { OnOk result (Pushes out.old.items out.new.items
            (member_at (Self.members self.now) index).bytes) };
}

impl<'a> Members for &'a [Member] {
    ghost members = { λ members. map member_view members.now };
}

// Members that are held.
impl<'a> Source<'a> for &'a [Member] {
    fn count(&self) -> usize {
        self.len()
    }

    fn name(&self, index: usize) -> &'a str {
        self[index].name.as_str()
    }

    fn size(&self, index: usize) -> usize {
        self[index].bytes.as_slice().len()
    }

    fn symbol_count(&self, index: usize) -> usize {
        self[index].symbols.as_slice().len()
    }

    fn symbol(&self, index: usize, number: usize) -> &'a str {
        self[index].symbols[number].as_str()
    }

    fn push_bytes(&self, index: usize, out: &mut Vec<u8>) -> Result<(), AllocError> {
        out.extend_from_slice(self[index].bytes.as_slice())
    }
}
