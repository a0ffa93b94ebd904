//! The DLLs that a library imports from.

ghost use Rattle.std.specs.Prelude.{◌≡◌, map, IfOk, OnOk};
ghost use Rattle.std.specs.Option.{option_map, option_map_or};
ghost use Rattle.implib_read.specs.Identity.{dll_of, dlls_of, with_dll_of, with_name};
ghost use Rattle.implib_read.specs.ClassViews.{class_view, member_read_view};

use crate::class::{MemberClass, MemberRead};
use indexmap::IndexSet;
use std::alloc::{AllocError, Global};

/// The DLL of a member, if it is an import.
pub fn dll_of<'a>(class: &MemberClass<'a>) -> Option<&'a [u8]>
    ensures { option_map (λ dll. dll.now) result ≡ dll_of (class_view class.now) }
{
    match class {
        MemberClass::Import(import) => Some(import.dll),
        _ => None,
    }
}

// Adds a name unless it is there.
fn add_name<'a>(names: &mut IndexSet<&'a [u8]>, name: &'a [u8]) -> Result<(), AllocError>
    ensures { OnOk result
        (map (λ k. k.now) names.new.keys ≡ with_name (map (λ k. k.now) names.old.keys) name.now) }
{
    names.insert(name)?;
    Ok(())
}

// Adds the DLL of a member unless it is there.
fn add_dll_of<'a>(names: &mut IndexSet<&'a [u8]>, member: &MemberRead<'a>) -> Result<(), AllocError>
    ensures { OnOk result
        (map (λ k. k.now) names.new.keys
        ≡ with_dll_of (map (λ k. k.now) names.old.keys) (member_read_view member.now)) }
{
    match dll_of(&member.class) {
        Some(dll) => add_name(names, dll),
        None => Ok(()),
    }
}

/// The DLLs of the imports of a library, each once, in the order of their first imports.
pub fn dlls_of<'a>(
    alloc: Global,
    members: &[MemberRead<'a>],
) -> Result<IndexSet<&'a [u8]>, AllocError>
    ensures { IfOk result (λ names. map (λ k. k.now) names.keys
        ≡ dlls_of (map member_read_view members.now)) }
{
    let mut names = IndexSet::new(alloc);
    for member in members {
        add_dll_of(&mut names, member)?;
    }
    Ok(names)
}
