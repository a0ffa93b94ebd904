//! The verdict of an import against the DLL that it is of.
//!
//! [`judge`] says what a loader finds for an import: the target, whether it needs a search, and
//! whether data is imported as data. [`loader_name`] is the name by which a loader tells DLLs
//! apart, and [`missing`] what a DLL exports and no import asks for.
//!
//! [`judgements`] says what the members of a library come to, and [`asks_in`] what they ask for;
//! [`judge_ask`] what an ask of a program's import directory comes to. [`follow`] says where a
//! forwarder leads through other DLLs, and [`ends`] where those of a library's imports lead.
//!
//! Each equals a definition in `specs/`, over the lookups of `implib_dll`.

mod dll_name;
mod folder;
mod forwarder;
mod import;
mod kind;
mod lacking;
pub mod laws;
mod program;
mod verdict;

pub use dll_name::{loader_name, names_of};
pub use folder::{Folder, Loaded, content_of, dll_path, named_dlls};
pub use forwarder::{
    Beside, DllContent, End, MOST_FORWARDERS, NamedDll, Stop, ends, follow, split_last,
};
pub use import::{Judgement, Loss, asks_in, judgements};
pub use kind::{count_astray, mark_followed, unknown_dlls};
pub use lacking::missing;
pub use program::{finds_all, is_asked, judge_ask};
pub use verdict::{Ask, Verdict, judge};
