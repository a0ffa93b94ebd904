//! A reader of import libraries, whoever made them: Microsoft's LIB, `llvm-lib` and `llvm-dlltool`,
//! GNU dlltool and linker, winebuild, rustc, or the library `implib`.
//!
//! [`Library::read`] says of each member of a library what it is for: an import with its DLL, its
//! symbols and what it asks for, an alias, a part of the import tables, or another. A short import
//! says so itself. An object for GNU's linker is followed as a linker does it: from its fields by
//! relocations, to sections and offsets, through symbols that any member defines. A delayed import
//! is followed from the entry of its address table, through code of its own object, to a descriptor
//! for mingw-w64's helper.
//!
//! Below that [`Archive::read`] finds the members of an archive, [`IndexEntry::read_first`] and
//! [`SecondIndex::read`] the entries of its indexes, [`wrong_entries`] those that mislead a linker,
//! [`FileFound::read`] what a member is, [`Object::read`] the sections, symbols and relocations of
//! an object, and [`ShortImport::read`] the fields of a short import.
//!
//! Each of these equals a definition in `specs/` that goes by the bytes alone, so any bytes have an
//! answer: `None` where an offset, a size or a count leads out of them, and an error only where
//! memory is refused. Values borrow the bytes. [`laws`] relates the definitions to the readers of
//! `implib` and `implib_archive`, and has what is worked by hand: libraries of three makers, and
//! bytes that are none.
#![tactic(auto)]

mod alias;
mod archive;
mod arm64ec;
mod class;
mod cutting;
mod definers;
mod delayed;
mod ec_leads;
mod fields;
mod file;
mod follow;
mod identity;
mod import;
mod imports;
mod index;
pub mod laws;
mod leads;
mod library;
mod lines;
mod names;
mod object;
mod short_import;
mod short_meaning;
mod symbol;

pub use alias::AliasFound;
pub use archive::{Archive, Part, StoredMember, cut_at, ec_index};
pub use class::{MemberClass, MemberRead};
pub use cutting::{Cut, CutApart, cut_apart};
pub use ec_leads::{arm64_members, wrong_ec_entries};
pub use file::FileFound;
pub use identity::{dll_of, dlls_of};
pub use import::{AskFound, DeclaredFound, ImportFound, ImportKind};
pub use index::{IndexEntry, SecondIndex};
pub use leads::wrong_entries;
pub use library::Library;
pub use names::MemberName;
pub use object::{Entry, Object, Section, Symbol};
pub use short_import::ShortImport;
pub use symbol::{begins_imp, linked_symbol, without_imp};
