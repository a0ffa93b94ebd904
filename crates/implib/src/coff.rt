//! COFF objects: the specification's numbers, a writer of objects, and the writer of bytes below
//! it.

pub(crate) mod constants;
pub(crate) mod layout;
pub mod object;
pub mod pass;
pub mod table;
pub mod writer;

pub use constants::{characteristics, class, flags, machine, relocation, section_number, weak};
pub use object::{Place, Relocation, Section, Symbol};
pub use pass::Pass;
pub use writer::ObjectWriter;
