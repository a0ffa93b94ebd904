//! The devices that the program `implib_dlltool` runs over: the system's disk, and lines of what it
//! says.

pub mod console;
pub mod files;
