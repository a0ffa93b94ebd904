//! The short import of an export (PE/COFF specification, "Import Library Format"; docs/FORMATS.md,
//! "Short imports").

ghost use Rattle.implib.specs.Views.Making.{MakesMember};
ghost use Rattle.implib.specs.declared.flavor.Flavor.TheVariants.{Msvc};
ghost use Rattle.implib.specs.Definition.{definition_view, export_view};
ghost use Rattle.implib.specs.Fault.{IfInvalid, MemberTooLong};
ghost use Rattle.implib.specs.Import.{imp_symbol, import_symbols, at_sign, holds, public_exports};
ghost use Rattle.implib.specs.Ascii.{begins_with};
ghost use Rattle.implib.specs.Library.{member_view};
ghost use Rattle.implib.specs.Members.Members.{has_u16_ordinal, is_too_long, member_specs};
ghost use Rattle.implib.specs.Members.MemberSpec.{member_of};
ghost use Rattle.implib.specs.Members.MsvcMembers.{short_import_spec};
ghost use Rattle.implib.specs.Formats.Pass.{Puts};
ghost use Rattle.implib.specs.Members.Msvc.{asked_by_short_import, import_type_of, name_type_of};
ghost use Rattle.implib.specs.Members.Msvc.{short_import_bytes, short_import_data_size};
ghost use Rattle.implib.specs.Members.Msvc.{short_import_header, short_import_symbols};
ghost use Rattle.implib.specs.Members.Msvc.{short_import_of, short_import_size};
ghost use Rattle.implib.specs.Members.Msvc.{dll_texts, short_import_symbol, short_import_view};
ghost use Rattle.implib.specs.Formats.ShortImport.{asked_by_name_type, before_at_sign};
ghost use Rattle.implib.specs.Formats.ShortImport.{without_prefix};
ghost use Rattle.std.specs.List.{list_all, list_any, position};
ghost use Rattle.implib.specs.declared.machine.MachineType.{MachineType};
ghost use Rattle.std.specs.Prelude.{false, map, nat_lt, string_bytes, true, ◌+◌, ◌++◌, ◌<◌, ◌∷◌};
ghost use Rattle.std.specs.Prelude.{◌==◌, ◌≡◌, ℕ, List, [], ◌≤◌, IfNone, IfOk, IfSome, OnOk};
ghost use Rattle.std.specs.Prelude.{length, option_map};

use crate::coff::constants::import_type::{IMPORT_CODE, IMPORT_CONST, IMPORT_DATA};
use crate::coff::pass::Pass;
use crate::def::definition::{ModuleDef, ShortExport};
use crate::error::{Error, Fault};
use crate::import_name::{name_type, short_import_symbol};
use crate::import_tables::imp_symbol;
use crate::machine::MachineType;
use crate::member::Member;
use std::alloc::{AllocError, Global};

// The size in bytes of the header of a short import, and of the NULs after its symbol and its last
// text.
const RECORD_HEADER_SIZE: usize = 20;

const RECORD_NULS: usize = 2;

/// The import type of an export's short import: data for one with DATA, else a constant for one
/// with CONSTANT, else code ("Import Type").
pub fn import_type(export: &ShortExport) -> u16
    ensures number { result ≡ import_type_of (export_view export.now) }
    ensures at_most { result ≤ IMPORT_CONST }
{
    if export.is_data {
        IMPORT_DATA
    } else if export.constant {
        IMPORT_CONST
    } else {
        IMPORT_CODE
    }
}

/// What a short import says (PE/COFF specification, "Import Library Format"; docs/FORMATS.md,
/// "Short imports").
#[derive(Clone, Copy, Debug)]
pub struct ShortImport<'a> {
    /// The machine that it is for.
    pub machine: MachineType,
    /// The ordinal of the export, or the hint for its name.
    pub ordinal: u16,
    /// "Import Type", at most 3.
    pub import_type: u16,
    /// "Import Name Type", at most 7: how the name that the DLL is asked for follows from the
    /// symbol.
    pub name_type: u16,
    /// The symbol.
    pub symbol: &'a str,
    /// The name of the DLL.
    pub dll: &'a str,
    /// The name that the DLL is asked for, as a third text, where the name type is 4.
    pub third: Option<&'a str>,
}

// The size in bytes of the texts that name the DLL and what it is asked for, but for the last NUL.
fn dll_texts_size(dll: &str, third: Option<&str>) -> Option<usize>
    ensures fits { IfSome result (λ size.
        size ≡ length (dll_texts dll.now (option_map (λ name. name.now) third.entry))) }
    ensures too_long { IfNone result
        (u64.MAX < length (dll_texts dll.now (option_map (λ name. name.now) third.entry))) }
{
    match third {
        None => Some(dll.len()),
        Some(name) => dll.len().checked_add(name.len())?.checked_add(1),
    }
}

// The size in bytes of a short import, where a `u32` can hold it.
fn short_import_size(symbol: &str, dll: &str, third: Option<&str>) -> Option<u32>
    ensures fits { IfSome result (λ size. size ≡ RECORD_HEADER_SIZE + (length symbol.now
        + length (dll_texts dll.now (option_map (λ name. name.now) third.entry)) + RECORD_NULS)) }
    ensures too_long { IfNone result (u32.MAX < RECORD_HEADER_SIZE + (length symbol.now
        + length (dll_texts dll.now (option_map (λ name. name.now) third.entry)) + RECORD_NULS)) }
{
    let texts = symbol.len().checked_add(dll_texts_size(dll, third)?)?;
    let size = texts.checked_add(RECORD_HEADER_SIZE + RECORD_NULS)?;
    u32::try_from(size).ok()
}

// Puts the texts that name the DLL and what it is asked for, each with its NUL.
fn put_dll_texts(pass: &mut Pass, dll: &str, third: Option<&str>)
    requires { length (dll_texts dll.now (option_map (λ name. name.now) third)) < pass.old.left }
    ensures puts { Puts pass.old pass.new
        (dll_texts dll.now (option_map (λ name. name.now) third.entry) ++ 0 ∷ []) }
    ensures left { pass.new.left
        + (length (dll_texts dll.now (option_map (λ name. name.now) third.entry)) + 1)
        ≡ pass.old.left }
{
    pass.put_bytes(dll.as_bytes());
    if let Some(name) = third {
        pass.put_bytes(b"\0");
        pass.put_bytes(name.as_bytes());
    }
    pass.put_bytes(b"\0");
}

impl<'a> ShortImport<'a> {
    /// The bytes of the short import.
    ///
    /// # Errors
    ///
    /// `MemberTooLong` where it has 2^32 bytes or more; or an allocation failed.
    pub fn to_bytes(&self, alloc: Global) -> Result<Vec<u8>, Error>
        requires import_type { self.now.import_type ≤ 3 }
        requires name_type { self.now.name_type ≤ 7 }
        ensures ok { IfOk result (λ bytes.
            bytes.items ≡ short_import_bytes (short_import_view self.now)) }
        ensures fits { OnOk result (short_import_size (short_import_view self.now) ≤ u32.MAX) }
        ensures too_long { IfInvalid result (λ cause. (cause ≡ MemberTooLong)
            × (u32.MAX < short_import_size (short_import_view self.now))) }
    {
        let Some(size) = short_import_size(self.symbol, self.dll, self.third) else {
            return Err(Error::Invalid(Fault::MemberTooLong));
        };
        let mut pass = Pass::reserve(alloc, size)?;
        self.put_header(&mut pass, size - RECORD_HEADER_SIZE as u32);
        pass.put_bytes(self.symbol.as_bytes());
        pass.put_bytes(b"\0");
        put_dll_texts(&mut pass, self.dll, self.third);
        Ok(pass.finish())
    }

    /// The bytes of a short import that is not too long.
    ///
    /// # Errors
    ///
    /// An allocation failed.
    pub(crate) fn to_short_bytes(&self, alloc: Global) -> Result<Vec<u8>, AllocError>
        requires import_type { self.now.import_type ≤ 3 }
        requires name_type { self.now.name_type ≤ 7 }
        requires fits { short_import_size (short_import_view self.now) ≤ u32.MAX }
        ensures { IfOk result (λ bytes.
            bytes.items ≡ short_import_bytes (short_import_view self.now)) }
    {
        match self.to_bytes(alloc) {
            Ok(bytes) => Ok(bytes),
            Err(Error::OutOfMemory(refused)) => Err(refused),
            Err(Error::Invalid(_)) => unreachable!(),
        }
    }

    // Puts the header; `data_size` is the size of the texts with their NULs.
    fn put_header(&self, pass: &mut Pass, data_size: u32)
        requires import_type { self.now.import_type ≤ 3 }
        requires name_type { self.now.name_type ≤ 7 }
        requires room { RECORD_HEADER_SIZE ≤ pass.old.left }
        requires size { data_size ≡ short_import_data_size (short_import_view self.now) }
        ensures puts { Puts pass.old pass.new (short_import_header (short_import_view self.now)) }
        ensures left { pass.new.left + RECORD_HEADER_SIZE ≡ pass.old.left }
    {
        pass.put_u16(0);
        pass.put_u16(0xFFFF);
        pass.put_u16(0);
        pass.put_u16(self.machine.number());
        pass.put_u32(0);
        pass.put_u32(data_size);
        pass.put_u16(self.ordinal);
        pass.put_u16(self.import_type + 4 * self.name_type);
    }
}

// The bytes of an export's short import.
fn short_import_bytes<'a>(
    alloc: Global,
    export: &'a ShortExport,
    machine: MachineType,
    dll: &'a str,
) -> Result<Vec<u8>, Error>
    ensures ok { IfOk result (λ bytes. bytes.items
        ≡ short_import_bytes (short_import_of machine dll.now (export_view export.now))) }
    ensures fits { OnOk result
        (short_import_size (short_import_of machine dll.now (export_view export.now)) ≤ u32.MAX) }
    ensures too_long { IfInvalid result (λ cause. (cause ≡ MemberTooLong)
        × (u32.MAX
        < short_import_size (short_import_of machine dll.now (export_view export.now)))) }
{
    let import = ShortImport {
        machine,
        ordinal: export.ordinal,
        import_type: import_type(export),
        name_type: name_type(export, machine),
        symbol: short_import_symbol(export),
        dll,
        third: None,
    };
    import.to_bytes(alloc)
}

/// The archive symbols of a short import by this symbol: of the import's address and, where it is
/// no data, of the import itself.
///
/// # Errors
///
/// An allocation failed.
pub fn import_symbols(alloc: Global, is_data: bool, symbol: &str) -> Result<Vec<String>, AllocError>
    ensures { IfOk result (λ symbols. map string_bytes symbols.items
        ≡ import_symbols is_data symbol.now) }
{
    let address = imp_symbol(alloc, symbol)?;
    if is_data {
        return Ok(vec![in alloc; address]?);
    }
    let name = String::from_str(alloc, symbol)?;
    Ok(vec![in alloc; address, name]?)
}

/// The short import of an export of a DLL, as a member under the library's name for the linker.
pub(crate) fn short_import_member(
    alloc: Global,
    export: &ShortExport,
    machine: MachineType,
    library: &str,
    dll: &str,
) -> Result<Member, Error>
    ensures made { MakesMember (short_import_spec machine
        (record { linked = library.now; text = dll.now }) (export_view export.now)) result }
    ensures ordinal { OnOk result (has_u16_ordinal (export_view export.now) ≡ true) }
{
    // This brings the range of the ordinal, 16 bits, into the proof.
    let _ordinal = export.ordinal;
    let bytes = short_import_bytes(alloc, export, machine, dll)?;
    let symbols = import_symbols(alloc, export.is_data, short_import_symbol(export))?;
    let name = String::from_str(alloc, library)?;
    Ok(Member {
        name,
        bytes,
        symbols,
    })
}

/// Refuses an export whose short import would be too long.
pub(crate) fn test_short_import(export: &ShortExport, dll: &str) -> Result<(), Error>
    ensures fits { OnOk result ((machine : MachineType) (linked : List ℕ)
        → is_too_long (short_import_spec machine (record { linked = linked; text = dll.now })
        (export_view export.now)) ≡ false) }
    ensures too_long { IfInvalid result (λ cause. (cause ≡ MemberTooLong)
        × ((machine : MachineType) (linked : List ℕ)
        → is_too_long (short_import_spec machine (record { linked = linked; text = dll.now })
        (export_view export.now)) ≡ true)) }
    ensures ordinal { OnOk result (has_u16_ordinal (export_view export.now) ≡ true) }
{
    // This brings the range of the ordinal, 16 bits, into the proof.
    let _ordinal = export.ordinal;
    match short_import_size(short_import_symbol(export), dll, None) {
        Some(_) => Ok(()),
        None => Err(Error::Invalid(Fault::MemberTooLong)),
    }
}
