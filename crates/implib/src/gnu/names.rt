//! The names of the members for GNU's linker, and of the head's and the tail's symbols.

ghost use Rattle.implib.specs.Members.Gnu.{export_name, five_digits, head_name, head_symbol};
ghost use Rattle.implib.specs.Members.Gnu.{iname_symbol, mangled_name, numbered_name, tail_name};
ghost use Rattle.implib.specs.Members.Gnu.{weak_address_name, weak_name};
ghost use Rattle.std.specs.List.{position};
ghost use Rattle.std.specs.Prelude.{string_bytes, ◌++◌, ◌==◌, ◌≡◌, IfOk, OnOk};

use crate::machine::MachineType;
use crate::underscore::leading_underscore;
use std::alloc::{AllocError, Global};
use std::fmt::Write;

// The position of the first full stop of a text.
fn position_of_full_stop(text: &[u8]) -> Option<usize>
    ensures { result ≡ position (λ byte. byte == 0x2E) text.now }
{
    text.iter().position(|byte| *byte == b'.')
}

/// Appends the library's name with each full stop as an underscore.
///
/// # Errors
///
/// An allocation failed.
pub fn push_mangled_name(out: &mut String, library: &str) -> Result<(), AllocError>
    ensures { OnOk result
        (string_bytes out.new ≡ string_bytes out.old ++ mangled_name library.now) }
{
    let mut rest = library;
    while let Some(position) = position_of_full_stop(rest.as_bytes()) {
        out.push_str(&rest[..position])?;
        out.push_str("_")?;
        rest = &rest[position + 1..];
    }
    out.push_str(rest)?;
    Ok(())
}

// Room for what mostly follows the mangled name: `_a_s00000.o`.
const AFTER_MANGLED_NAME: usize = 11;

// The mangled name of the library followed by this text, with room for more.
fn mangled_name_with(alloc: Global, library: &str, end: &str) -> Result<String, AllocError>
    ensures { IfOk result (λ name. string_bytes name ≡ mangled_name library.now ++ end.now) }
{
    let mut name = String::with_capacity(alloc, library.len().saturating_add(AFTER_MANGLED_NAME))?;
    push_mangled_name(&mut name, library)?;
    name.push_str(end)?;
    Ok(name)
}

#[tactic(auto, unfolding(crate::specs::Members::Gnu::head_name))]
pub(crate) fn head_name(alloc: Global, library: &str) -> Result<String, AllocError>
    ensures { IfOk result (λ name. string_bytes name ≡ head_name library.now) }
{
    mangled_name_with(alloc, library, "_a_h.o")
}

#[tactic(auto, unfolding(crate::specs::Members::Gnu::tail_name))]
pub(crate) fn tail_name(alloc: Global, library: &str) -> Result<String, AllocError>
    ensures { IfOk result (λ name. string_bytes name ≡ tail_name library.now) }
{
    mangled_name_with(alloc, library, "_a_t.o")
}

/// Appends a number with at least five digits.
///
/// # Errors
///
/// An allocation failed.
pub fn push_five_digits(out: &mut String, number: usize) -> Result<(), AllocError>
    ensures { OnOk result (string_bytes out.new ≡ string_bytes out.old ++ five_digits number) }
{
    write!(out, "{number:05}")
}

// The name of a member of the export of this number; the letter is that of the member.
#[tactic(auto, unfolding(crate::specs::Members::Gnu::numbered_name))]
fn numbered_name(
    alloc: Global,
    library: &str,
    letter: &str,
    number: usize,
) -> Result<String, AllocError>
    ensures { IfOk result
        (λ name. string_bytes name ≡ numbered_name library.now letter.now number) }
{
    let mut name = mangled_name_with(alloc, library, "_a_")?;
    name.push_str(letter)?;
    push_five_digits(&mut name, number)?;
    name.push_str(".o")?;
    Ok(name)
}

/// The name of the member of the export of this number.
pub(crate) fn export_name(alloc: Global, library: &str, number: usize) -> Result<String, AllocError>
    ensures { IfOk result (λ name. string_bytes name ≡ export_name library.now number) }
{
    numbered_name(alloc, library, "s", number)
}

/// The name of the weak external of the symbol of the export of this number.
pub(crate) fn weak_name(alloc: Global, library: &str, number: usize) -> Result<String, AllocError>
    ensures { IfOk result (λ name. string_bytes name ≡ weak_name library.now number) }
{
    numbered_name(alloc, library, "w", number)
}

/// The name of the weak external of the address of the export of this number.
pub(crate) fn weak_address_name(
    alloc: Global,
    library: &str,
    number: usize,
) -> Result<String, AllocError>
    ensures { IfOk result (λ name. string_bytes name ≡ weak_address_name library.now number) }
{
    numbered_name(alloc, library, "x", number)
}

/// The symbol of the import descriptor.
#[tactic(auto, unfolding(crate::specs::Members::Gnu::head_symbol))]
pub(crate) fn head_symbol(
    alloc: Global,
    machine: MachineType,
    library: &str,
) -> Result<String, AllocError>
    ensures { IfOk result (λ symbol. string_bytes symbol ≡ head_symbol machine library.now) }
{
    let mut symbol = String::from_str(alloc, leading_underscore(machine))?;
    symbol.push_str("_head_")?;
    push_mangled_name(&mut symbol, library)?;
    Ok(symbol)
}

/// The symbol of the DLL's name.
#[tactic(auto, unfolding(crate::specs::Members::Gnu::iname_symbol))]
pub(crate) fn iname_symbol(
    alloc: Global,
    machine: MachineType,
    library: &str,
) -> Result<String, AllocError>
    ensures { IfOk result (λ symbol. string_bytes symbol ≡ iname_symbol machine library.now) }
{
    let mut symbol = String::from_str(alloc, leading_underscore(machine))?;
    push_mangled_name(&mut symbol, library)?;
    symbol.push_str("_iname")?;
    Ok(symbol)
}
