//! The linker that an import library is for, and its name.

ghost use Rattle.implib.specs.Conversions.{IsConverted, flavor_name, flavor_named};
ghost use Rattle.std.specs.Fmt.{padded};
ghost use Rattle.std.specs.Prelude.{Some, ◌≡◌};

use std::fmt;
use std::str::FromStr;

/// No flavour has this name.
#[derive(Clone, Copy, Debug, PartialEq, Eq, Drop, thiserror::Error)]
#[error("unknown flavour")]
pub struct UnknownFlavor;

/// The linker that the members are for.
#[derive(Clone, Copy, Debug)]
pub enum Flavor {
    /// Microsoft's: objects for the DLL, and short imports.
    Msvc,
    /// GNU's: objects alone.
    Gnu,
}

impl Flavor {
    /// The name of the flavour: `msvc` or `gnu`.
    pub fn name(self) -> &'static str
        ensures { result.now ≡ flavor_name self }
    {
        match self {
            Flavor::Msvc => "msvc",
            Flavor::Gnu => "gnu",
        }
    }
}

/// Reads a flavour's name, in small letters as [`Flavor::name`] gives it.
impl FromStr for Flavor {
    type Err = UnknownFlavor;

    ghost from_str_gives = { λ text r. IsConverted (flavor_named text) r };

    fn from_str(name: &str) -> Result<Flavor, UnknownFlavor> {
        match name {
            "msvc" => Ok(Flavor::Msvc),
            "gnu" => Ok(Flavor::Gnu),
            _ => Err(UnknownFlavor),
        }
    }
}

impl fmt::Display for Flavor {
    ghost output = { λ flavor. Some (flavor_name flavor) };

    ghost styled_output = { λ flavor spec. Some (padded spec (flavor_name flavor)) };

    fn fmt<W: fmt::Write>(&self, f: &mut fmt::Formatter<W>) -> fmt::Result {
        f.pad(self.name())
    }
}
