//! For which machine and linker a definition is compared with a library.

ghost use Rattle.std.specs.Prelude.{◌≡◌, map, unwrap_or};
ghost use Rattle.implib_check_driver.specs.Calls.{check_view, define_view};
ghost use Rattle.implib_check_driver.specs.Targets.{flavor_for, has_arm64ec, is_arm64ec};
ghost use Rattle.implib_check_driver.specs.Targets.{is_for_arm64ec, is_for_gnu, is_unfit};
ghost use Rattle.implib_check_driver.specs.Targets.{machine_of, machine_of_class, options_for};
ghost use Rattle.implib_check_driver.specs.Targets.{options_of};
ghost use Rattle.implib_compare.specs.Flavors.{flavor_of};
ghost use Rattle.implib_read.specs.ClassViews.{class_view, member_read_view};
ghost use Rattle.implib_rules.specs.Options.{library_options_view};

use crate::call::{Check, Define};
use implib::{Flavor, MachineType};
use implib_compare::flavor::flavor_of;
use implib_read::{MemberClass, MemberRead};
use implib_rules::additions::Additions;
use implib_rules::linked::Naming;
use implib_rules::options::LibraryOptions;

// The machine of an import, if it is known.
fn machine_of_class(class: &MemberClass) -> Option<MachineType>
    ensures { result ≡ machine_of_class (class_view class.now) }
{
    match class {
        MemberClass::Import(import) => MachineType::try_from(import.machine).ok(),
        _ => None,
    }
}

/// The machine of a library: that of the first import with a known one, or AMD64 where there is
/// none.
pub fn machine_of(members: &[MemberRead]) -> MachineType
    ensures { result ≡ machine_of (map member_read_view members.now) }
{
    for member in members {
        if let Some(machine) = machine_of_class(&member.class) {
            return machine;
        }
    }
    MachineType::AMD64
}

// The machine that is named, or that of the library.
fn machine_for(named: Option<MachineType>, members: &[MemberRead]) -> MachineType
    ensures { result ≡ unwrap_or named (machine_of (map member_read_view members.now)) }
{
    match named {
        Some(machine) => machine,
        None => machine_of(members),
    }
}

// The flavour that is named, or GNU's for older symbols, or that of the library.
fn flavor_for(named: Option<Flavor>, older_symbols: bool, members: &[MemberRead]) -> Flavor
    ensures { result ≡ flavor_for named older_symbols (map member_read_view members.now) }
{
    match named {
        Some(flavor) => flavor,
        None => if older_symbols {
            Flavor::Gnu
        } else {
            flavor_of(members)
        },
    }
}

/// The machine of code for ARM64 that calls code for AMD64.
pub const ARM64EC: u16 = 0xA641;

// Whether a member imports for ARM64EC.
fn is_arm64ec(class: &MemberClass) -> bool
    ensures { result ≡ is_arm64ec (class_view class.now) }
{
    match class {
        MemberClass::Import(import) => import.machine == ARM64EC,
        _ => false,
    }
}

/// Whether a library has an import for ARM64EC.
pub fn has_arm64ec(members: &[MemberRead]) -> bool
    ensures { result ≡ has_arm64ec (map member_read_view members.now) }
{
    for member in members {
        if is_arm64ec(&member.class) {
            return true;
        }
    }
    false
}

/// Whether the library of a definition is one for ARM64EC: a call names that, or no machine, and
/// the library has an import for it.
pub fn is_for_arm64ec(check: &Check, members: &[MemberRead]) -> bool
    ensures { result ≡ is_for_arm64ec (check_view check.now) (map member_read_view members.now) }
{
    check.arm64ec || (check.machine.is_none() && has_arm64ec(members))
}

// Whether GNU's flavour is named.
fn is_for_gnu(flavor: Option<Flavor>) -> bool
    ensures { result ≡ is_for_gnu flavor }
{
    match flavor {
        Some(Flavor::Gnu) => true,
        Some(Flavor::Msvc) | None => false,
    }
}

/// Whether a call asks for what the library is not made with: for ARM64EC what GNU's linker alone
/// has, and for another machine a native definition.
pub fn is_unfit(check: &Check, members: &[MemberRead]) -> bool
    ensures { result ≡ is_unfit (check_view check.now) (map member_read_view members.now) }
{
    if is_for_arm64ec(check, members) {
        check.older_symbols || is_for_gnu(check.flavor)
    } else {
        check.native.is_some()
    }
}

/// What the definition's library is made for: what a call names, and else the machine and the
/// flavour of the library.
pub fn options_for<'a>(check: &Check<'a>, members: &[MemberRead]) -> LibraryOptions<'a>
    ensures { library_options_view result ≡ options_for (check_view check.now)
        (map member_read_view members.now) }
{
    LibraryOptions {
        machine: machine_for(check.machine, members),
        flavor: flavor_for(check.flavor, check.older_symbols, members),
        dll: check.dll,
        naming: check.naming,
        additions: Additions::none(),
    }
}

/// What the definition of a library is read for: what a call names, and else the machine and the
/// flavour of the library.
pub fn options_of<'a>(define: &Define<'a>, members: &[MemberRead]) -> LibraryOptions<'a>
    ensures { library_options_view result ≡ options_of (define_view define.now)
        (map member_read_view members.now) }
{
    LibraryOptions {
        machine: machine_for(define.machine, members),
        flavor: flavor_for(define.flavor, define.older_symbols, members),
        dll: None,
        naming: Naming {
            is_plain: define.is_plain,
            kills_at: false,
            exports_as: false,
            keeps_decorated: false,
        },
        additions: Additions::none(),
    }
}
