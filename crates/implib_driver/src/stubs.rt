//! Stubs that no machine runs.

ghost use Rattle.implib.specs.Import.{imp_symbol};
ghost use Rattle.implib_archive.specs.Sources.{member_at};
ghost use Rattle.implib_driver.specs.Stubs.{has_failing_stub, has_stub, stubs_fail};
ghost use Rattle.implib_rules.specs.Options.{library_options_view};
ghost use Rattle.std.specs.List.{list_any};
ghost use Rattle.std.specs.Prelude.{◌≡◌, ◌<◌, length};
ghost use Rattle.std.specs.Str.{bytes_eq};

use implib::{Flavor, MachineType};
use implib_archive::{Members, Source};
use implib_rules::members::LibraryMembers;
use implib_rules::options::LibraryOptions;

// Whether these are a function's symbol and that of its address.
fn is_function(symbol: &[u8], address: &[u8]) -> bool
    ensures { result ≡ bytes_eq address.now (imp_symbol symbol.now) }
{
    match address.strip_prefix(b"__imp_".as_slice()) {
        Some(rest) => rest == symbol,
        None => false,
    }
}

// Whether the member at an index has the stub of a function.
fn has_stub<'a, S: Source<'a>>(source: &S, index: usize) -> bool
    requires { index < length (S.members source.now) }
    ensures { result ≡ has_stub (member_at (S.members source.now) index) }
{
    if source.symbol_count(index) < 2 {
        return false;
    }
    let symbol = source.symbol(index, 0);
    let address = source.symbol(index, 1);
    is_function(symbol.as_bytes(), address.as_bytes())
}

// Whether a member has one.
fn have_stub<'a, S: Source<'a>>(source: &S) -> bool
    ensures { result ≡ list_any has_stub (S.members source.now) }
{
    for index in 0..source.count() {
        if has_stub(source, index) {
            return true;
        }
    }
    false
}

// Whether no machine runs the stubs of a flavour.
fn stubs_fail(flavor: Flavor, machine: MachineType) -> bool
    ensures { result ≡ stubs_fail flavor machine }
{
    match flavor {
        Flavor::Msvc => false,
        Flavor::Gnu => match machine {
            MachineType::ARMNT => true,
            MachineType::I386 | MachineType::AMD64 | MachineType::ARM64 => false,
        },
    }
}

/// Whether members for this have a stub that cannot run: for GNU's linker on ARM that of any
/// function.
pub fn has_failing_stub(members: &LibraryMembers, options: &LibraryOptions<'_>) -> bool
    ensures { result ≡ has_failing_stub (library_options_view options.now) members.now }
{
    stubs_fail(options.flavor, options.machine) && have_stub(&members)
}
