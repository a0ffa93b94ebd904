//! For which linker a library is, and how.

use crate::additions::Additions;
use crate::linked::Naming;
use implib::{Flavor, MachineType};

/// For which machine, linker and DLL a library is made, and how names are read.
#[derive(Clone, Copy, Debug)]
pub struct LibraryOptions<'a> {
    /// The machine.
    pub machine: MachineType,
    /// The linker that the library is for.
    pub flavor: Flavor,
    /// The DLL's name, before the definition's own.
    pub dll: Option<&'a str>,
    /// How names are read on I386, and how a short import names what Microsoft's linker asks for.
    pub naming: Naming,
    /// What is added to the exports.
    pub additions: Additions<'a>,
}
