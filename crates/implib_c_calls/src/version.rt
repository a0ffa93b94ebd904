//! The version of the functions for C.

ghost use Rattle.implib_c_calls.specs.Version.{version};
ghost use Rattle.std.specs.Prelude.{◌≡◌};

// `IMPLIB_VERSION` of the header.
const VERSION: u32 = 14;

/// The version.
pub fn version() -> u32
    ensures { result ≡ version }
{
    VERSION
}
