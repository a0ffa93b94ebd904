//! Members of delayed exports that are kept as what they say, and made when they are wanted.

ghost use Rattle.implib.specs.Definition.{export_view};
ghost use Rattle.implib.specs.Formats.Layout.{encoded};
ghost use Rattle.implib.specs.Formats.Writer.{layout_of};
ghost use Rattle.implib.specs.Import.{holds, is_empty_text};
ghost use Rattle.implib.specs.Members.Members.{has_u16_ordinal};
ghost use Rattle.implib.specs.Members.NameRules.{holds_nul};
ghost use Rattle.implib_archive.specs.Sources.{member_at, symbol_at};
ghost use Rattle.implib_delay.specs.Kept.{HasAddress, IsKept, KeepsExport, KeepsExports};
ghost use Rattle.implib_delay.specs.Kept.{kept_export, kept_name, kept_view};
ghost use Rattle.implib_delay.specs.Members.{export_spec};
ghost use Rattle.implib_delay.specs.Names.{handle_symbol, name_symbol, tail_symbol};
ghost use Rattle.implib_delay.specs.Objects.{export_object};
ghost use Rattle.std.specs.Option.{option_map};
ghost use Rattle.std.specs.Prelude.{◌≡◌, ◌<◌, ◌^◌, ◌∷◌, [], IfOk, OnOk, false, length};
ghost use Rattle.std.specs.Prelude.{string_bytes, true};

use crate::names::{export_name, handle_symbol, name_symbol, tail_symbol};
use crate::objects::{export_object, export_size};
use implib::def::ShortExport;
use implib::import_tables::imp_symbol;
use implib::{Error, Fault, MachineType};
use std::alloc::{AllocError, Global};
use std::marker::Model;

// The length in bytes of the prefix of the symbol of an entry.
const ADDRESS_PREFIX_LENGTH: usize = 6;

// The greatest size in bytes of a member.
const LONGEST_MEMBER: usize = 0xFFFF_FFFF;

// What the object of an export says but for its library: the symbol of the entry, and so the
// export's own after the prefix; and the name that is asked for, where the export gives one. Beside
// it the member's name, and the object's size in bytes.
#[derive(Debug, Drop)]
struct KeptExport {
    name: String,
    address: String,
    asked_name: Option<String>,
    ordinal: u16,
    no_name: bool,
    size: u32,
}

/// The members of exports of one library that are delayed on one machine, in order. Of each what it
/// says is kept; its bytes are made when they are wanted.
#[derive(Debug, Drop)]
pub(crate) struct DelayedExports {
    machine: MachineType,
    library: String,
    // The symbols that the head and the tail define.
    tail: String,
    dll_name: String,
    handle: String,
    exports: Vec<KeptExport>,
}

impl Model for DelayedExports {
    ghost use Rattle.implib_delay.specs.Kept.{AreKept, DelayedExportsView, kept_view};
    ghost use Rattle.std.specs.Prelude.{map, string_bytes};

    ghost Value = { DelayedExportsView };

    ghost view = { λ s. record {
      machine = s.machine;
      linked = string_bytes s.library;
      members = map (kept_view s.machine (string_bytes s.library)) s.exports.items;
    } };

    ghost invariant = { λ s. AreKept s.machine (string_bytes s.library) (string_bytes s.tail)
        (string_bytes s.dll_name) (string_bytes s.handle) s.exports.items };
}

// A copy of a text, if there is one.
fn copy_of(alloc: Global, text: &Option<String>) -> Result<Option<String>, AllocError>
    ensures { IfOk result
        (λ copy. option_map string_bytes copy ≡ option_map string_bytes text.now) }
{
    match text {
        Some(text) => Ok(Some(String::from_str(alloc, text.as_str())?)),
        None => Ok(None),
    }
}

impl KeptExport {
    // What is kept of an export, with its member's name, the symbol of its entry and the size of
    // its object.
    fn of(
        alloc: Global,
        export: &ShortExport,
        name: String,
        address: String,
        size: u32,
    ) -> Result<KeptExport, AllocError>
        ensures { IfOk result
            (KeepsExport (string_bytes name) (string_bytes address) size (export_view export.now)) }
    {
        Ok(KeptExport {
            name,
            address,
            asked_name: copy_of(alloc, &export.asked_name)?,
            ordinal: export.ordinal,
            no_name: export.no_name,
            size,
        })
    }

    // The symbol.
    fn symbol(&self) -> &str
        requires { HasAddress self.now }
        ensures { result.now ≡ kept_name self.now }
    {
        &self.address[ADDRESS_PREFIX_LENGTH..]
    }

    // The export, as far as its object says it.
    fn to_export(&self, alloc: Global) -> Result<ShortExport, AllocError>
        requires { HasAddress self.now }
        ensures { IfOk result (λ export. export_view export ≡ kept_export self.now) }
    {
        Ok(ShortExport {
            name: String::from_str(alloc, self.symbol())?,
            ext_name: None,
            symbol_name: String::new(alloc),
            asked_name: copy_of(alloc, &self.asked_name)?,
            alias_target: String::new(alloc),
            ordinal: self.ordinal,
            no_name: self.no_name,
            is_data: false,
            private: false,
            constant: false,
        })
    }

    // The bytes of the object.
    fn bytes(
        &self,
        alloc: Global,
        machine: MachineType,
        library: &str,
        tail: &str,
        dll_name: &str,
        handle: &str,
    ) -> Result<Vec<u8>, AllocError>
        requires kept { IsKept machine library.now self.now }
        requires library_text { holds 0 library.now ≡ false }
        requires tail { tail.now ≡ tail_symbol machine library.now }
        requires name { dll_name.now ≡ name_symbol library.now }
        requires handle { handle.now ≡ handle_symbol library.now }
        ensures { IfOk result (λ bytes. bytes.items
            ≡ encoded (layout_of (export_object machine library.now (kept_export self.now)))) }
    {
        let export = self.to_export(alloc)?;
        let address = self.address.as_str();
        match export_object(
            alloc, &export, machine, library, tail, dll_name, handle, address,
        ) {
            Ok(bytes) => Ok(bytes),
            Err(Error::OutOfMemory(refused)) => Err(refused),
            Err(Error::Invalid(_)) => unreachable!(),
        }
    }
}

impl DelayedExports {
    /// No member of a library of this name, with room for `capacity` of them.
    ///
    /// # Errors
    ///
    /// An allocation failed.
    pub(crate) fn with_capacity(
        alloc: Global,
        machine: MachineType,
        library: &str,
        capacity: usize,
    ) -> Result<DelayedExports, AllocError>
        requires { holds 0 library.now ≡ false }
        ensures { IfOk result (λ exports. exports
            ≡ record { machine = machine; linked = library.now; members = [] }) }
    {
        Ok(DelayedExports {
            machine,
            library: String::from_str(alloc, library)?,
            tail: tail_symbol(alloc, machine, library)?,
            dll_name: name_symbol(alloc, library)?,
            handle: handle_symbol(alloc, library)?,
            exports: Vec::with_capacity(alloc, capacity)?,
        })
    }

    /// Keeps the member of one export more, of this number.
    ///
    /// # Errors
    ///
    /// `Invalid` with `MemberTooLong` where its object has 2^32 bytes or more; `OutOfMemory`.
    pub(crate) fn push(&mut self, export: &ShortExport, number: usize) -> Result<(), Error>
        requires nul { holds_nul (export_view export.now) ≡ false }
        requires filled { is_empty_text (export_view export.now).name ≡ false }
        ensures pushed { KeepsExports
            (export_spec self.old.machine self.old.linked number (export_view export.now) ∷ [])
            self.old self.new result }
        ensures ordinal { OnOk result (has_u16_ordinal (export_view export.now) ≡ true) }
    {
        // This brings the range of the ordinal, 16 bits, into the proof.
        let _ordinal = export.ordinal;
        let alloc = *self.exports.allocator();
        let library = self.library.as_str();
        let address = imp_symbol(alloc, export.name.as_str())?;
        let size = export_size(
            export,
            self.machine,
            library,
            self.tail.as_str(),
            self.dll_name.as_str(),
            self.handle.as_str(),
            address.as_str(),
        );
        if size > LONGEST_MEMBER {
            return Err(Error::Invalid(Fault::MemberTooLong));
        }
        let name = export_name(alloc, library, number)?;
        let kept = KeptExport::of(alloc, export, name, address, size as u32)?;
        self.exports.push(kept)?;
        Ok(())
    }

    /// How many there are.
    pub(crate) fn len(&self) -> usize
        ensures count { result ≡ length self.now.members }
        ensures few { result < 2 ^ 63 }
    {
        self.exports.len()
    }

    // What is kept of the one at an index.
    fn kept(&self, index: usize) -> &KeptExport
        requires { index < length self.now.members }
        ensures shows { member_at self.now.members index
            ≡ kept_view self.now.machine self.now.linked result.now }
        ensures sound { IsKept self.now.machine self.now.linked result.now }
        ensures library_text { holds 0 self.now.linked ≡ false }
    {
        &self.exports[index]
    }

    /// The name of the member at an index.
    pub(crate) fn name(&self, index: usize) -> &str
        requires { index < length self.now.members }
        ensures { result.now ≡ (member_at self.now.members index).name }
    {
        self.kept(index).name.as_str()
    }

    /// The size of the bytes of the member at an index.
    pub(crate) fn size(&self, index: usize) -> usize
        requires { index < length self.now.members }
        ensures { result ≡ length (member_at self.now.members index).bytes }
    {
        self.kept(index).size as usize
    }

    /// The number of archive symbols of the member at an index: its own, and that of its entry.
    pub(crate) fn symbol_count(&self, index: usize) -> usize
        requires { index < length self.now.members }
        ensures { result ≡ length (member_at self.now.members index).symbols }
    {
        let _kept = self.kept(index);
        2
    }

    /// The archive symbol of the member at an index: its own at 0, that of its entry at 1.
    pub(crate) fn symbol(&self, index: usize, number: usize) -> &str
        requires within { index < length self.now.members }
        requires listed { number < length (member_at self.now.members index).symbols }
        ensures { result.now ≡ symbol_at (member_at self.now.members index) number }
    {
        let kept = self.kept(index);
        if number == 0 {
            kept.symbol()
        } else {
            kept.address.as_str()
        }
    }

    /// The bytes of the member at an index.
    ///
    /// # Errors
    ///
    /// An allocation failed.
    pub(crate) fn bytes(&self, alloc: Global, index: usize) -> Result<Vec<u8>, AllocError>
        requires { index < length self.now.members }
        ensures { IfOk result (λ bytes. bytes.items ≡ (member_at self.now.members index).bytes) }
    {
        self.kept(index).bytes(
            alloc,
            self.machine,
            self.library.as_str(),
            self.tail.as_str(),
            self.dll_name.as_str(),
            self.handle.as_str(),
        )
    }
}
