//! Objects of exports for GNU's linker that are kept as what they say, and made when they are
//! wanted.

ghost use Rattle.implib.specs.Definition.{export_view};
ghost use Rattle.implib.specs.Formats.Layout.{contents_size, encoded, encoded_size};
ghost use Rattle.implib.specs.Formats.Layout.{string_size};
ghost use Rattle.implib.specs.Formats.Writer.{layout_of, long_names};
ghost use Rattle.implib.specs.Import.{holds, is_empty_text, name_asked};
ghost use Rattle.implib.specs.Members.Gnu.{export_object, export_sections, export_symbols};
ghost use Rattle.implib.specs.Members.Gnu.{head_symbol};
ghost use Rattle.implib.specs.Members.GnuMembers.{export_spec};
ghost use Rattle.implib.specs.Members.Members.{has_u16_ordinal};
ghost use Rattle.implib.specs.Members.NameRules.{holds_nul};
ghost use Rattle.implib.specs.Views.KeptObjects.{HasAddress, IsKept, KeepsExport, KeepsObjects};
ghost use Rattle.implib.specs.Views.KeptObjects.{kept_export, kept_name, kept_view};
ghost use Rattle.implib.specs.Views.KeptObjects.{long_name_size, stub_size};
ghost use Rattle.std.specs.List.{slice_get, sum_by};
ghost use Rattle.std.specs.Option.{option_map};
ghost use Rattle.std.specs.Prelude.{string_bytes, true, ℕ, min, ◌≡◌, ◌≤◌, ◌∷◌, [], IfOk, IfSome};
ghost use Rattle.std.specs.Prelude.{List, MatchOption, None, OnOk, false, length};

use crate::def::definition::ShortExport;
use crate::error::{Error, Fault};
use crate::gnu::names::{export_name, head_symbol};
use crate::gnu::objects::export_object;
use crate::import_tables::{imp_symbol, thunk_width};
use crate::machine::MachineType;
use crate::underscore::without_underscore;
use std::alloc::{AllocError, Global};
use std::marker::Model;

// The length of the prefix of the symbol of an address.
const ADDRESS_PREFIX_LENGTH: usize = 6;

// The sizes in bytes of a relocation and of a symbol's record.
const RELOCATION_SIZE: usize = 10;

const RECORD_SIZE: usize = 18;

// The size in bytes of the headers of an object of seven sections, and of the size field of its
// string table.
const HEADERS_SIZE: usize = 20 + 7 * 40 + 4;

// The size in bytes of the data and the relocation of `.idata$7`, which names the head.
const TO_HEAD_SIZE: usize = 4 + RELOCATION_SIZE;

// The length in bytes of the longest name that a symbol's record has.
const LONGEST_SHORT_NAME: usize = 8;

// The greatest size in bytes of a member.
const LONGEST_MEMBER: usize = 0xFFFF_FFFF;

// What the object of an export says but for its library: the symbol of the address, and so the
// export's own after the prefix; what it asks for; and the member's name.
#[derive(Debug, Drop)]
struct KeptObject {
    name: String,
    address: String,
    asked_name: Option<String>,
    ordinal: u16,
    no_name: bool,
    is_data: bool,
}

// The size in bytes of the stub of an export and of its relocations (docs/FORMATS.md, "Stubs").
fn stub_size(machine: MachineType) -> usize
    ensures { result ≡ stub_size machine }
{
    match machine {
        MachineType::I386 | MachineType::AMD64 => 8 + RELOCATION_SIZE,
        MachineType::ARMNT => 12 + RELOCATION_SIZE,
        MachineType::ARM64 => 12 + 2 * RELOCATION_SIZE,
    }
}

// The size in bytes of a name in the string table; 0 where its record has it.
#[tactic(auto, unfolding(crate::specs::Formats::Layout::string_size))]
fn long_name_size(name: &str) -> usize
    ensures { result ≡ long_name_size name.now }
{
    if name.len() > LONGEST_SHORT_NAME {
        name.len() + 1
    } else {
        0
    }
}

/// The objects of exports of one library for GNU's linker and one machine, as members in order. Of
/// each what it says is kept; its bytes are made when they are wanted.
#[derive(Debug, Drop)]
pub struct ExportObjects {
    machine: MachineType,
    library: String,
    head: String,
    objects: Vec<KeptObject>,
}

impl Model for ExportObjects {
    ghost use Rattle.implib.specs.Members.ExportObjects.{ExportObjectsView};
    ghost use Rattle.implib.specs.Views.KeptObjects.{AreKept, kept_view};
    ghost use Rattle.std.specs.Prelude.{map, string_bytes};

    ghost Value = { ExportObjectsView };

    ghost view = { λ s. record {
      machine = s.machine;
      linked = string_bytes s.library;
      members = map (kept_view s.machine (string_bytes s.library)) s.objects.items;
    } };

    ghost invariant = { λ s.
        AreKept s.machine (string_bytes s.library) (string_bytes s.head) s.objects.items };
}

impl KeptObject {
    // What is kept of the export of this number.
    fn of(
        alloc: Global,
        export: ShortExport,
        library: &str,
        number: usize,
    ) -> Result<KeptObject, AllocError>
        ensures { IfOk result (KeepsExport library.now number (export_view export)) }
    {
        let ShortExport {
            name,
            asked_name,
            ordinal,
            no_name,
            is_data,
            ..
        } = export;
        Ok(KeptObject {
            name: export_name(alloc, library, number)?,
            address: imp_symbol(alloc, name.as_str())?,
            asked_name,
            ordinal,
            no_name,
            is_data,
        })
    }

    // The symbol.
    fn symbol(&self) -> &str
        requires { HasAddress self.now }
        ensures { result.now ≡ kept_name self.now }
    {
        &self.address[ADDRESS_PREFIX_LENGTH..]
    }

    // The name that the DLL is asked for.
    fn asked(&self, machine: MachineType) -> &[u8]
        requires { HasAddress self.now }
        ensures { result.now ≡ name_asked machine (kept_export self.now) }
    {
        match &self.asked_name {
            Some(given) => given.as_bytes(),
            None => without_underscore(self.symbol().as_bytes(), machine),
        }
    }

    // The size in bytes of the sections' data and relocations.
    fn contents_size(&self, machine: MachineType) -> usize
        requires { HasAddress self.now }
        ensures { result ≡ sum_by contents_size (export_sections machine (kept_export self.now)) }
    {
        let stub = if self.is_data { 0 } else { stub_size(machine) };
        let by_name = if self.no_name {
            0
        } else {
            2 * RELOCATION_SIZE + 3 + self.asked(machine).len()
        };
        stub + TO_HEAD_SIZE + 2 * thunk_width(machine) + by_name
    }

    // The size in bytes of the names in the string table, each once; 2^64 - 1 where it is more. The
    // symbol of the head is never that of an address.
    fn names_size(&self, head: &str) -> usize
        requires { HasAddress self.now }
        ensures { (machine : MachineType) → (linked : List ℕ) →
            head.now ≡ head_symbol machine linked
            → result ≡ min u64.MAX
            (sum_by string_size (long_names (export_symbols head.now (kept_export self.now)))) }
    {
        let code = if self.is_data || self.symbol() == head {
            0
        } else {
            long_name_size(self.symbol())
        };
        long_name_size(head)
            .saturating_add(code)
            .saturating_add(long_name_size(self.address.as_str()))
    }

    // The size in bytes of the object; 2^64 - 1 where it is more.
    fn size(&self, machine: MachineType, head: &str) -> usize
        requires { HasAddress self.now }
        ensures { (linked : List ℕ) → head.now ≡ head_symbol machine linked
            → result ≡ min u64.MAX
            (encoded_size (layout_of (export_object machine linked (kept_export self.now)))) }
    {
        let records = if self.is_data { 3 } else { 4 };
        (HEADERS_SIZE + records * RECORD_SIZE)
            .saturating_add(self.contents_size(machine))
            .saturating_add(self.names_size(head))
    }

    // The export, as far as its object says it.
    fn to_export(&self, alloc: Global) -> Result<ShortExport, AllocError>
        requires { HasAddress self.now }
        ensures { IfOk result (λ export. export_view export ≡ kept_export self.now) }
    {
        Ok(ShortExport {
            name: String::from_str(alloc, self.symbol())?,
            ext_name: None,
            symbol_name: String::new(alloc),
            asked_name: copy_of(alloc, &self.asked_name)?,
            alias_target: String::new(alloc),
            ordinal: self.ordinal,
            no_name: self.no_name,
            is_data: self.is_data,
            private: false,
            constant: false,
        })
    }

    // The bytes of the object.
    fn bytes(
        &self,
        alloc: Global,
        machine: MachineType,
        library: &str,
        head: &str,
    ) -> Result<Vec<u8>, AllocError>
        requires kept { IsKept machine library.now self.now }
        requires library_text { holds 0 library.now ≡ false }
        requires head { head.now ≡ head_symbol machine library.now }
        ensures { IfOk result (λ bytes. bytes.items
            ≡ encoded (layout_of (export_object machine library.now (kept_export self.now)))) }
    {
        let export = self.to_export(alloc)?;
        let address = self.address.as_str();
        match export_object(alloc, &export, machine, library, head, address) {
            Ok(bytes) => Ok(bytes),
            Err(Error::OutOfMemory(refused)) => Err(refused),
            Err(Error::Invalid(_)) => unreachable!(),
        }
    }
}

// A copy of a text, if there is one.
fn copy_of(alloc: Global, text: &Option<String>) -> Result<Option<String>, AllocError>
    ensures { IfOk result
        (λ copy. option_map string_bytes copy ≡ option_map string_bytes text.now) }
{
    match text {
        Some(text) => Ok(Some(String::from_str(alloc, text.as_str())?)),
        None => Ok(None),
    }
}

impl ExportObjects {
    /// No object of a library of this name, with room for some.
    ///
    /// # Errors
    ///
    /// An allocation failed.
    pub(crate) fn with_capacity(
        alloc: Global,
        machine: MachineType,
        library: &str,
        capacity: usize,
    ) -> Result<ExportObjects, AllocError>
        requires { holds 0 library.now ≡ false }
        ensures { IfOk result (λ objects. objects
            ≡ record { machine = machine; linked = library.now; members = [] }) }
    {
        Ok(ExportObjects {
            machine,
            library: String::from_str(alloc, library)?,
            head: head_symbol(alloc, machine, library)?,
            objects: Vec::with_capacity(alloc, capacity)?,
        })
    }

    /// Keeps the object of one export more, of this number.
    ///
    /// # Errors
    ///
    /// `MemberTooLong` where it has 2^32 bytes or more; or an allocation failed.
    pub(crate) fn push(&mut self, export: ShortExport, number: usize) -> Result<(), Error>
        requires nul { holds_nul (export_view export) ≡ false }
        requires filled { is_empty_text (export_view export).name ≡ false }
        ensures pushed { KeepsObjects
            (export_spec self.old.machine self.old.linked number (export_view export) ∷ [])
            self.old self.new result }
        ensures ordinal { OnOk result (has_u16_ordinal (export_view export) ≡ true) }
    {
        // This brings the range of the ordinal, 16 bits, into the proof.
        let _ordinal = export.ordinal;
        let alloc = *self.objects.allocator();
        let kept = KeptObject::of(alloc, export, self.library.as_str(), number)?;
        if kept.size(self.machine, self.head.as_str()) > LONGEST_MEMBER {
            return Err(Error::Invalid(Fault::MemberTooLong));
        }
        self.objects.push(kept)?;
        Ok(())
    }

    /// How many there are.
    pub fn len(&self) -> usize
        ensures { result ≡ length self.now.members }
    {
        self.objects.len()
    }

    /// The name of the member at an index; empty where there is none.
    pub fn name(&self, index: usize) -> &str
        ensures member { IfSome (slice_get self.now.members index) (λ m. result.now ≡ m.name) }
        ensures none { slice_get self.now.members index ≡ None → result.now ≡ [] }
    {
        match self.objects.get(index) {
            Some(kept) => kept.name.as_str(),
            None => "",
        }
    }

    /// The size of the bytes of the member at an index; 0 where there is none.
    pub fn size(&self, index: usize) -> usize
        ensures member { IfSome (slice_get self.now.members index)
            (λ m. result ≡ length m.bytes) }
        ensures none { slice_get self.now.members index ≡ None → result ≡ 0 }
    {
        match self.objects.get(index) {
            Some(kept) => kept.size(self.machine, self.head.as_str()),
            None => 0,
        }
    }

    /// The number of archive symbols of the member at an index; 0 where there is none.
    pub fn symbol_count(&self, index: usize) -> usize
        ensures member { IfSome (slice_get self.now.members index)
            (λ m. result ≡ length m.symbols) }
        ensures none { slice_get self.now.members index ≡ None → result ≡ 0 }
    {
        match self.objects.get(index) {
            Some(kept) if kept.is_data => 1,
            Some(_) => 2,
            None => 0,
        }
    }

    /// An archive symbol of the member at an index: of a function its own at 0 and that of its
    /// address at 1, of data that of its address at 0; empty where there is none.
    pub fn symbol(&self, index: usize, number: usize) -> &str
        ensures member { IfSome (slice_get self.now.members index) (λ m.
            MatchOption (slice_get m.symbols number) (result.now ≡ [])
            (λ symbol. result.now ≡ symbol)) }
        ensures none { slice_get self.now.members index ≡ None → result.now ≡ [] }
    {
        match self.objects.get(index) {
            Some(kept) if number == 0 && !kept.is_data => kept.symbol(),
            Some(kept) if number == 0 || (number == 1 && !kept.is_data) => kept.address.as_str(),
            Some(_) | None => "",
        }
    }

    /// The bytes of the member at an index; none where there is none.
    ///
    /// # Errors
    ///
    /// An allocation failed.
    pub fn bytes(&self, alloc: Global, index: usize) -> Result<Vec<u8>, AllocError>
        ensures member { IfOk result (λ bytes. IfSome (slice_get self.now.members index)
            (λ m. bytes.items ≡ m.bytes)) }
        ensures none { IfOk result (λ bytes. slice_get self.now.members index ≡ None
            → bytes.items ≡ []) }
    {
        match self.objects.get(index) {
            Some(kept) => kept.bytes(
                alloc,
                self.machine,
                self.library.as_str(),
                self.head.as_str(),
            ),
            None => Ok(Vec::new(alloc)),
        }
    }
}
