//! The name of an import library for the linker.

ghost use Rattle.implib.specs.Definition.{definition_view, export_view, given_name};
ghost use Rattle.implib.specs.LibraryName.{linked_dll};
ghost use Rattle.implib_rules.specs.LibraryName.{export_taken, exports_taken, flag_taken};
ghost use Rattle.implib_rules.specs.LibraryName.{gnu_library_name, has_gnu_linker};
ghost use Rattle.implib_rules.specs.LibraryName.{library_name_for};
ghost use Rattle.implib_rules.specs.LibraryName.{msvc_library_name, numbers_taken, text_taken};
ghost use Rattle.implib_rules.specs.LibraryName.{without_ending};
ghost use Rattle.md5.specs.Md5.{Holds, md5};
ghost use Rattle.std.specs.Option.{option_map};
ghost use Rattle.std.specs.Prelude.{◌≡◌, ◌++◌, ℕ, IfOk, List, map};
ghost use Rattle.std.specs.String.{string_bytes};

use implib::def::{ModuleDef, ShortExport};
use implib::{Flavor, MachineType};
use md5::{Digest, Md5};
use std::alloc::{AllocError, Global};

// Takes a text in, and a null byte after it.
fn take_text(hasher: &mut Md5, text: &str)
    ensures { (taken : List ℕ) → Holds hasher.old taken →
        Holds hasher.new (taken ++ text_taken text.now) }
{
    hasher.update(text.as_bytes());
    hasher.update(&[0]);
}

// The letter of a flag, or `-` where it is not set.
fn flag_taken(letter: u8, is_set: bool) -> u8
    ensures { result ≡ flag_taken letter is_set }
{
    if is_set { letter } else { b'-' }
}

// The asked name that an export gives, or an empty one.
fn given_name(export: &ShortExport) -> &str
    ensures { result.now ≡ given_name (export_view export.now) }
{
    match &export.asked_name {
        Some(name) => name.as_str(),
        None => "",
    }
}

// Takes in the numbers and flags of an export.
fn take_numbers(hasher: &mut Md5, export: &ShortExport)
    ensures { (taken : List ℕ) → Holds hasher.old taken →
        Holds hasher.new (taken ++ numbers_taken (export_view export.now)) }
{
    let by_number = flag_taken(b'n', export.no_name);
    let data = flag_taken(b'd', export.is_data);
    hasher.update(&export.ordinal.to_le_bytes());
    hasher.update(&[by_number, data]);
}

// Takes in what is linked of an export.
fn take_export(hasher: &mut Md5, export: &ShortExport)
    ensures { (taken : List ℕ) → Holds hasher.old taken →
        Holds hasher.new (taken ++ export_taken (export_view export.now)) }
{
    take_text(hasher, export.name.as_str());
    take_text(hasher, given_name(export));
    take_text(hasher, export.alias_target.as_str());
    take_numbers(hasher, export);
}

// The MD5 of what is linked of exports, but for private ones.
fn digest_of(exports: &[ShortExport]) -> [u8; 16]
    ensures { result ≡ md5 (exports_taken (map export_view exports.now)) }
{
    let mut hasher = Md5::new();
    for export in exports {
        if !export.private {
            take_export(&mut hasher, export);
        }
    }
    hasher.finalize()
}

// The name for GNU's linker.
#[tactic(auto, unfolding(crate::specs::LibraryName::gnu_library_name))]
fn gnu_library_name(alloc: Global, def: &ModuleDef) -> Result<String, AllocError>
    ensures { IfOk result
        (λ name. string_bytes name ≡ gnu_library_name (definition_view def.now)) }
{
    let digest = digest_of(def.exports.as_slice());
    let digits = hex::encode(alloc, &digest[..8])?;
    let mut name = String::from_str(alloc, def.import_name.as_str())?;
    name.push('_')?;
    name.push_str(digits.as_str())?;
    Ok(name)
}

// A name without its ending: the text before its last full stop, or all of it.
fn without_ending(name: &str) -> &str
    ensures { result.now ≡ without_ending name.now }
{
    match name.rfind('.') {
        Some(end) => &name[..end],
        None => name,
    }
}

// The name for Microsoft's linker, if there is one.
fn msvc_library_name(alloc: Global, def: &ModuleDef) -> Result<Option<String>, AllocError>
    ensures { IfOk result
        (λ name. option_map string_bytes name ≡ msvc_library_name (definition_view def.now)) }
{
    let base = without_ending(def.import_name.as_str());
    if base.is_empty() {
        return Ok(None);
    }
    Ok(Some(String::from_str(alloc, base)?))
}

// Whether GNU `ld` links for a machine.
fn has_gnu_linker(machine: MachineType) -> bool
    ensures { result ≡ has_gnu_linker machine }
{
    match machine {
        MachineType::I386 | MachineType::ARMNT | MachineType::AMD64 => true,
        MachineType::ARM64 => false,
    }
}

/// The name that the library of a definition gets for the linker of a flavour, if it gets one. In
/// Microsoft's it is for GNU `ld`, and there is none for ARM64, for which that links nothing.
///
/// # Errors
///
/// An allocation failed.
pub fn library_name_for(
    alloc: Global,
    machine: MachineType,
    flavor: Flavor,
    def: &ModuleDef,
) -> Result<Option<String>, AllocError>
    ensures { IfOk result (λ name. option_map string_bytes name
        ≡ library_name_for machine flavor (definition_view def.now)) }
{
    match flavor {
        Flavor::Msvc if !has_gnu_linker(machine) => Ok(None),
        Flavor::Msvc => msvc_library_name(alloc, def),
        Flavor::Gnu => Ok(Some(gnu_library_name(alloc, def)?)),
    }
}
