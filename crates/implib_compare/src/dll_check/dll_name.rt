//! The names of DLLs, as a loader tells them apart.

ghost use Rattle.implib_compare.specs.DllCheck.DllName.{has_ending, loader_name, names_of};
ghost use Rattle.std.specs.Char.{to_ascii_lowercase};
ghost use Rattle.std.specs.Option.{option_map};
ghost use Rattle.std.specs.Prelude.{◌≡◌, ◌++◌, IfOk, OnOk, map};

use std::alloc::{AllocError, Global};

// Whether a name has an ending.
fn has_ending(name: &[u8]) -> bool
    ensures { result ≡ has_ending name.now }
{
    name.contains(&b'.')
}

// Appends bytes, capitals of ASCII as small letters.
fn push_lowercase(to: &mut Vec<u8>, bytes: &[u8]) -> Result<(), AllocError>
    ensures { OnOk result (to.new.items ≡ to.old.items ++ map to_ascii_lowercase bytes.now) }
{
    for byte in bytes {
        to.push(byte.to_ascii_lowercase())?;
    }
    Ok(())
}

/// The name by which a loader knows a DLL: in small letters of ASCII, and with `.dll` where it has
/// no ending. Two names are of one DLL where these are the same.
pub fn loader_name(alloc: Global, name: &[u8]) -> Result<Vec<u8>, AllocError>
    ensures { IfOk result (λ made. made.items ≡ loader_name name.now) }
{
    let mut made = Vec::new(alloc);
    push_lowercase(&mut made, name)?;
    if !has_ending(name) {
        push_lowercase(&mut made, b".dll")?;
    }
    Ok(made)
}

/// The names by which loaders know a DLL ([`loader_name`]): the one that is given, or else those of
/// its export directory and of its file, which are without a folder.
pub fn names_of(
    alloc: Global,
    given: Option<&[u8]>,
    file: &[u8],
    own: &[u8],
) -> Result<Vec<Vec<u8>>, AllocError>
    ensures { IfOk result (λ names. map (λ name. name.items) names.items
        ≡ names_of (option_map (λ name. name.now) given.entry) file.now own.now) }
{
    let mut names = Vec::new(alloc);
    match given {
        Some(name) => names.push(loader_name(alloc, name)?)?,
        None => {
            names.push(loader_name(alloc, own)?)?;
            names.push(loader_name(alloc, file)?)?;
        }
    }
    Ok(names)
}
