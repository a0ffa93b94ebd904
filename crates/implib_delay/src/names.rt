//! The names of the members of delayed imports, and of their symbols.

ghost use Rattle.implib.specs.Members.Gnu.{mangled_name};
ghost use Rattle.implib_delay.specs.Names.{export_name, handle_symbol, head_name, helper_symbol};
ghost use Rattle.implib_delay.specs.Names.{name_symbol, tail_name, tail_symbol};
ghost use Rattle.std.specs.Prelude.{string_bytes, ◌++◌, ◌≡◌, IfOk};

use implib::MachineType;
use implib::gnu::names::{push_five_digits, push_mangled_name};
use std::alloc::{AllocError, Global};

// Room for what is before and behind the library's name.
const BESIDE_NAME: usize = 24;

// The library's name with each full stop as an underscore, between two texts.
fn around_name(
    alloc: Global,
    before: &str,
    library: &str,
    after: &str,
) -> Result<String, AllocError>
    ensures { IfOk result (λ name. string_bytes name
        ≡ before.now ++ (mangled_name library.now ++ after.now)) }
{
    let mut name = String::with_capacity(alloc, library.len().saturating_add(BESIDE_NAME))?;
    name.push_str(before)?;
    push_mangled_name(&mut name, library)?;
    name.push_str(after)?;
    Ok(name)
}

/// The name of the head.
#[tactic(auto, unfolding(crate::specs::Names::head_name))]
pub(crate) fn head_name(alloc: Global, library: &str) -> Result<String, AllocError>
    ensures { IfOk result (λ name. string_bytes name ≡ head_name library.now) }
{
    around_name(alloc, "", library, "_d_h.o")
}

/// The name of the tail.
#[tactic(auto, unfolding(crate::specs::Names::tail_name))]
pub(crate) fn tail_name(alloc: Global, library: &str) -> Result<String, AllocError>
    ensures { IfOk result (λ name. string_bytes name ≡ tail_name library.now) }
{
    around_name(alloc, "", library, "_d_t.o")
}

/// The name of the member of the export of this number.
#[tactic(auto, unfolding(crate::specs::Names::export_name))]
pub(crate) fn export_name(alloc: Global, library: &str, number: usize) -> Result<String, AllocError>
    ensures { IfOk result (λ name. string_bytes name ≡ export_name library.now number) }
{
    let mut name = around_name(alloc, "", library, "_d_s")?;
    push_five_digits(&mut name, number)?;
    name.push_str(".o")?;
    Ok(name)
}

/// The symbol of the code that all stubs of the library share.
#[tactic(auto, unfolding(crate::specs::Names::tail_symbol))]
pub(crate) fn tail_symbol(
    alloc: Global,
    machine: MachineType,
    library: &str,
) -> Result<String, AllocError>
    ensures { IfOk result (λ symbol. string_bytes symbol ≡ tail_symbol machine library.now) }
{
    if machine.has_leading_underscore() {
        around_name(alloc, "___tailMerge_", library, "")
    } else {
        around_name(alloc, "__tailMerge_", library, "")
    }
}

/// The symbol of the DLL's handle.
#[tactic(auto, unfolding(crate::specs::Names::handle_symbol))]
pub(crate) fn handle_symbol(alloc: Global, library: &str) -> Result<String, AllocError>
    ensures { IfOk result (λ symbol. string_bytes symbol ≡ handle_symbol library.now) }
{
    around_name(alloc, "__DLL_HANDLE_", library, "")
}

/// The symbol of the DLL's name.
#[tactic(auto, unfolding(crate::specs::Names::name_symbol))]
pub(crate) fn name_symbol(alloc: Global, library: &str) -> Result<String, AllocError>
    ensures { IfOk result (λ symbol. string_bytes symbol ≡ name_symbol library.now) }
{
    around_name(alloc, "__", library, "_iname")
}

/// The symbol of the helper.
#[tactic(auto, unfolding(crate::specs::Names::helper_symbol))]
pub(crate) fn helper_symbol(machine: MachineType) -> &'static str
    ensures { result.now ≡ helper_symbol machine }
{
    if machine.has_leading_underscore() {
        "___delayLoadHelper2@8"
    } else {
        "__delayLoadHelper2"
    }
}
