//! I386's underscore: on I386 C symbols begin with one, which DLL exports lack.

ghost use Rattle.implib.specs.Ascii.{begins_with, underscore};
ghost use Rattle.implib.specs.Machine.{has_leading_underscore};
ghost use Rattle.implib.specs.Underscore.{asked_name, decorated, is_decorated, leading_underscore};
ghost use Rattle.std.specs.Prelude.{◌&&◌, ◌≡◌, IfOk};
ghost use Rattle.std.specs.String.{string_bytes};

use crate::ascii::begins_with;
use crate::machine::MachineType;
use std::alloc::{AllocError, Global};

/// The leading underscore of the machine's C symbols, or nothing.
pub(crate) fn leading_underscore(machine: MachineType) -> &'static str
    ensures { result.now ≡ leading_underscore machine }
{
    if machine.has_leading_underscore() {
        "_"
    } else {
        ""
    }
}

/// Whether the symbol begins with the underscore of the machine's C symbols.
pub(crate) fn begins_with_underscore(symbol: &str, machine: MachineType) -> bool
    ensures { result ≡ (has_leading_underscore machine && begins_with underscore symbol.now) }
{
    machine.has_leading_underscore() && begins_with(symbol, b'_')
}

/// The name that a DLL exports: on I386 without C's leading underscore, unless the name holds `@`.
pub(crate) fn without_underscore(name: &[u8], machine: MachineType) -> &[u8]
    ensures { result.now ≡ asked_name machine name.now }
{
    match name {
        [b'_', rest @ ..] if machine.has_leading_underscore() && !name.contains(&b'@') => rest,
        _ => name,
    }
}

/// The name to link by: on I386 with `_` in front, unless it begins with `?` or holds `@`.
pub(crate) fn decorated(
    alloc: Global,
    machine: MachineType,
    name: &str,
) -> Result<String, AllocError>
    ensures { IfOk result (λ made. string_bytes made ≡ decorated machine name.now) }
{
    let mut made = String::new(alloc);
    if machine.has_leading_underscore() && !is_decorated(name) {
        made.push('_')?;
    }
    made.push_str(name)?;
    Ok(made)
}

// Whether the name begins with `?` or holds `@`.
fn is_decorated(name: &str) -> bool
    ensures { result ≡ is_decorated name.now }
{
    let bytes = name.as_bytes();
    bytes.first() == Some(&b'?') || bytes.contains(&b'@')
}
