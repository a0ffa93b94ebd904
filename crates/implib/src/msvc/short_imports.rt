//! Short imports that are kept as what they say, and made when they are wanted.

ghost use Rattle.implib.specs.Definition.{export_view};
ghost use Rattle.implib.specs.LibraryName.{NamesOfDll};
ghost use Rattle.implib.specs.Members.MemberSpec.{member_of};
ghost use Rattle.implib.specs.Formats.ShortImport.{import_data};
ghost use Rattle.implib.specs.Members.Members.{has_u16_ordinal, is_too_long};
ghost use Rattle.implib.specs.Members.Msvc.{short_import_view};
ghost use Rattle.implib.specs.Members.MsvcMembers.{short_import_spec};
ghost use Rattle.implib.specs.Views.KeptImports.{IsKept, KeepsMembers, kept_import, kept_symbol};
ghost use Rattle.implib.specs.Views.KeptImports.{kept_view};
ghost use Rattle.std.specs.List.{slice_get};
ghost use Rattle.std.specs.Prelude.{string_bytes, true, ℕ, ◌≡◌, ◌≤◌, ◌==◌, ◌∷◌, [], IfOk, IfSome};
ghost use Rattle.std.specs.Prelude.{List, MatchOption, None, OnOk, false, length};

use crate::coff::constants::import_type::IMPORT_DATA;
use crate::def::definition::ShortExport;
use crate::error::Error;
use crate::import_name::{name_type, short_import_symbol};
use crate::import_tables::imp_symbol;
use crate::machine::MachineType;
use crate::msvc::short_import::{ShortImport, import_type, test_short_import};
use std::alloc::{AllocError, Global};
use std::marker::Model;

// The length of the prefix of the symbol of an address.
const ADDRESS_PREFIX_LENGTH: usize = 6;

// The size of a short import but for the symbol of its address and the DLL's name: a header and two
// NULs, less the prefix.
const SIZE_AROUND: usize = 16;

// What a short import says but for its DLL: the symbol of its address, and so its own after the
// prefix, and the numbers.
#[derive(Debug, Drop)]
struct KeptImport {
    address: String,
    ordinal: u16,
    import_type: u16,
    name_type: u16,
}

/// Short imports of one DLL for one machine, as members in order. Of each what it says is kept, a
/// quarter of a member's memory; its bytes are made when they are wanted.
#[derive(Debug, Drop)]
pub struct ShortImports {
    machine: MachineType,
    library: String,
    dll: String,
    imports: Vec<KeptImport>,
}

impl Model for ShortImports {
    ghost use Rattle.implib.specs.LibraryName.{NamesOfDll};
    ghost use Rattle.implib.specs.Members.ShortImports.{ShortImportsView};
    ghost use Rattle.implib.specs.Views.KeptImports.{IsKept, kept_view};
    ghost use Rattle.std.specs.List.{AllByRecursion};
    ghost use Rattle.std.specs.Prelude.{map, string_bytes};

    ghost Value = { ShortImportsView };

    ghost view = { λ s. record {
      machine = s.machine;
      dll = record { linked = string_bytes s.library; text = string_bytes s.dll };
      members = map (kept_view s.machine
          (record { linked = string_bytes s.library; text = string_bytes s.dll })) s.imports.items;
    } };

    ghost invariant = { λ s. AllByRecursion (IsKept (string_bytes s.dll)) s.imports.items };
}

// What is kept of the short import of an export.
fn kept_of(
    alloc: Global,
    export: &ShortExport,
    machine: MachineType,
) -> Result<KeptImport, AllocError>
    ensures view { IfOk result (λ kept. (dll : NamesOfDll) → kept_view machine dll kept
        ≡ member_of (short_import_spec machine dll (export_view export.now))) }
    ensures kept { IfOk result (λ kept. (dll : NamesOfDll)
        → is_too_long (short_import_spec machine dll (export_view export.now)) ≡ false
        → IsKept dll.text kept) }
{
    Ok(KeptImport {
        address: imp_symbol(alloc, short_import_symbol(export))?,
        ordinal: export.ordinal,
        import_type: import_type(export),
        name_type: name_type(export, machine),
    })
}

impl KeptImport {
    // The symbol.
    fn symbol(&self) -> &str
        requires { (dll : List ℕ) × IsKept dll self.now }
        ensures { result.now ≡ kept_symbol self.now }
    {
        &self.address[ADDRESS_PREFIX_LENGTH..]
    }

    // Whether it is of data, and has no symbol but that of its address.
    fn is_data(&self) -> bool
        ensures { result ≡ (self.now.import_type == import_data) }
    {
        self.import_type == IMPORT_DATA
    }

    // What it says.
    fn said<'a>(&'a self, machine: MachineType, dll: &'a str) -> ShortImport<'a>
        requires { IsKept dll.now self.now }
        ensures says { short_import_view result ≡ kept_import machine dll.now self.now }
        ensures import_type { result.import_type ≤ 3 }
        ensures name_type { result.name_type ≤ 7 }
    {
        ShortImport {
            machine,
            ordinal: self.ordinal,
            import_type: self.import_type,
            name_type: self.name_type,
            symbol: self.symbol(),
            dll,
            third: None,
        }
    }
}

impl ShortImports {
    /// No short import of a DLL, whose members are named after a library, with room for some.
    ///
    /// # Errors
    ///
    /// An allocation failed.
    pub(crate) fn with_capacity(
        alloc: Global,
        machine: MachineType,
        library: &str,
        dll: String,
        capacity: usize,
    ) -> Result<ShortImports, AllocError>
        ensures { IfOk result (λ imports. imports ≡ record {
          machine = machine;
          dll = record { linked = library.now; text = string_bytes dll };
          members = [];
        }) }
    {
        Ok(ShortImports {
            machine,
            library: String::from_str(alloc, library)?,
            dll,
            imports: Vec::with_capacity(alloc, capacity)?,
        })
    }

    /// The machine that they are for.
    pub fn machine(&self) -> MachineType
        ensures { result ≡ self.now.machine }
    {
        self.machine
    }

    /// The library's name for the linker, which each member has.
    pub fn library(&self) -> &str
        ensures { result.now ≡ self.now.dll.linked }
    {
        self.library.as_str()
    }

    /// The name of the DLL.
    pub fn dll(&self) -> &str
        ensures { result.now ≡ self.now.dll.text }
    {
        self.dll.as_str()
    }

    /// Keeps the short import of one export more.
    ///
    /// # Errors
    ///
    /// `MemberTooLong` where it has 2^32 bytes or more; or an allocation failed.
    pub(crate) fn push(&mut self, export: &ShortExport) -> Result<(), Error>
        ensures pushed { KeepsMembers
            (short_import_spec self.old.machine self.old.dll (export_view export.now) ∷ [])
            self.old self.new result }
        ensures ordinal { OnOk result (has_u16_ordinal (export_view export.now) ≡ true) }
    {
        test_short_import(export, self.dll.as_str())?;
        let kept = kept_of(*self.imports.allocator(), export, self.machine)?;
        self.imports.push(kept)?;
        Ok(())
    }

    /// How many there are.
    pub fn len(&self) -> usize
        ensures { result ≡ length self.now.members }
    {
        self.imports.len()
    }

    /// The name of the member at an index, which is the same at each: the library's.
    pub fn name(&self, _index: usize) -> &str
        ensures member { IfSome (slice_get self.now.members _index) (λ m. result.now ≡ m.name) }
        ensures same { result.now ≡ self.now.dll.linked }
    {
        self.library.as_str()
    }

    /// The size of the bytes of the member at an index; 0 where there is none.
    pub fn size(&self, index: usize) -> usize
        ensures member { IfSome (slice_get self.now.members index)
            (λ m. result ≡ length m.bytes) }
        ensures none { slice_get self.now.members index ≡ None → result ≡ 0 }
    {
        match self.imports.get(index) {
            Some(kept) => SIZE_AROUND + kept.address.as_str().len() + self.dll.as_str().len(),
            None => 0,
        }
    }

    /// The number of archive symbols of the member at an index; 0 where there is none.
    pub fn symbol_count(&self, index: usize) -> usize
        ensures member { IfSome (slice_get self.now.members index)
            (λ m. result ≡ length m.symbols) }
        ensures none { slice_get self.now.members index ≡ None → result ≡ 0 }
    {
        match self.imports.get(index) {
            Some(kept) if kept.is_data() => 1,
            Some(_) => 2,
            None => 0,
        }
    }

    /// An archive symbol of the member at an index: that of the import's address at 0, and at 1 the
    /// import's own; empty where there is none.
    pub fn symbol(&self, index: usize, number: usize) -> &str
        ensures member { IfSome (slice_get self.now.members index) (λ m.
            MatchOption (slice_get m.symbols number) (result.now ≡ [])
            (λ symbol. result.now ≡ symbol)) }
        ensures none { slice_get self.now.members index ≡ None → result.now ≡ [] }
    {
        match self.imports.get(index) {
            Some(kept) if number == 0 => kept.address.as_str(),
            Some(kept) if number == 1 && !kept.is_data() => kept.symbol(),
            Some(_) | None => "",
        }
    }

    /// The bytes of the member at an index; none where there is none.
    ///
    /// # Errors
    ///
    /// An allocation failed.
    pub fn bytes(&self, alloc: Global, index: usize) -> Result<Vec<u8>, AllocError>
        ensures member { IfOk result (λ bytes. IfSome (slice_get self.now.members index)
            (λ m. bytes.items ≡ m.bytes)) }
        ensures none { IfOk result (λ bytes. slice_get self.now.members index ≡ None
            → bytes.items ≡ []) }
    {
        match self.imports.get(index) {
            Some(kept) => kept
                .said(self.machine, self.dll.as_str())
                .to_short_bytes(alloc),
            None => Ok(Vec::new(alloc)),
        }
    }
}
