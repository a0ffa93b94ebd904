//! What a call is about: a library and what it is compared with, or whose definition is asked for.

ghost use Rattle.implib_check_driver.specs.Calls.{check_view, is_searching};
ghost use Rattle.std.specs.Prelude.{◌≡◌};

use implib::{Flavor, MachineType};
use implib_rules::linked::Naming;

/// A library, and the definition or the DLL that it is compared with.
#[derive(Clone, Copy, Debug)]
pub struct Check<'a> {
    /// The file of the library.
    pub library: &'a str,
    /// The file of the definition or of the DLL.
    pub definition: &'a str,
    /// The machine, if one is named; for ARM64EC ARM64.
    pub machine: Option<MachineType>,
    /// Whether the machine that is named is ARM64EC.
    pub arm64ec: bool,
    /// The file of the native definition, if one is given.
    pub native: Option<&'a str>,
    /// The flavour, if one is named.
    pub flavor: Option<Flavor>,
    /// The DLL's name, before the definition's own.
    pub dll: Option<&'a str>,
    /// How names are read on I386.
    pub naming: Naming,
    /// Whether addresses have their older symbols too (`-C`).
    pub older_symbols: bool,
    /// Whether the exports of a DLL that no import asks for are listed (`--all`).
    pub lists_unasked: bool,
    /// The folders in whose DLLs forwarders are followed (`--search`).
    pub folders: &'a [String],
}

/// A library whose definition is asked for, and what it is for.
#[derive(Clone, Copy, Debug)]
pub struct Define<'a> {
    /// The file of the library.
    pub library: &'a str,
    /// The machine, if one is named.
    pub machine: Option<MachineType>,
    /// The flavour, if one is named.
    pub flavor: Option<Flavor>,
    /// Whether symbols on I386 are words as they are.
    pub is_plain: bool,
    /// Whether addresses have their older symbols too (`-C`).
    pub older_symbols: bool,
}

/// Whether forwarders are followed.
pub fn is_searching(check: &Check) -> bool
    ensures { result ≡ is_searching (check_view check.now) }
{
    !check.folders.is_empty()
}
