//! The kinds of archives.

/// A kind of archive.
#[derive(Clone, Copy, Debug, PartialEq, Eq)]
pub enum Kind {
    /// Microsoft's: two linker members, of each symbol the first entry alone.
    Coff,
    /// System V's, as GNU's and LLVM's tools write it: one linker member, with all entries.
    Gnu,
}
