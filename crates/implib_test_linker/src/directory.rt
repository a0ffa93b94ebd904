//! The import directory of an image, as a strict loader reads it: by the PE/COFF specification,
//! "The .idata Section". The tables of each DLL are walked in the image to their ends.

ghost use Rattle.std.specs.Prelude.{◌<◌};

use super::image::Image;
use super::object::{Flaw, bytes_from, is_zero, number_in, text_in, u16_at, u32_at, usize_at};
use super::short_import::Ask;
use std::alloc::Global;
use std::test::Fail;

/// An import descriptor.
#[derive(Clone, Copy)]
pub struct Descriptor<'a> {
    pub dll: &'a str,
    pub lookups: usize,
    pub name: usize,
    pub addresses: usize,
}

/// What a DLL is asked for: its descriptor, and the thunks of its lookup table with what they ask
/// for.
#[derive(Drop)]
pub struct Import<'a> {
    pub descriptor: Descriptor<'a>,
    pub thunks: Vec<(u64, Ask<'a>)>,
}

impl Image {
    /// The DLLs that the directory at an address lists, each with what it is asked for in both
    /// tables, up to the null descriptor.
    pub fn directory(
        &self,
        alloc: Global,
        address: usize,
        is_32bit: bool,
    ) -> Result<Vec<Import<'_>>, Fail> {
        let count = self.check_directory(address, is_32bit)?;
        let mut imports = Vec::new(alloc);
        for bytes in self.bytes_from(address)?.chunks_exact(20).take(count) {
            if let Some(descriptor) = self.descriptor(bytes)? {
                let thunks = self.thunks(alloc, descriptor.lookups, is_32bit)?;
                imports.push(Import { descriptor, thunks })?;
            }
        }
        Ok(imports)
    }

    /// How many DLLs the directory at an address lists.
    pub fn check_directory(&self, address: usize, is_32bit: bool) -> Result<usize, Flaw> {
        let mut count = 0usize;
        for bytes in self.bytes_from(address)?.chunks_exact(20) {
            if !self.check_dll(bytes, is_32bit)? {
                return Ok(count);
            }
            count = count.saturating_add(1);
        }
        Err("a directory has no end")
    }

    /// Whether bytes are a descriptor, whose tables are right, and not the null descriptor.
    fn check_dll(&self, bytes: &[u8], is_32bit: bool) -> Result<bool, Flaw> {
        match self.descriptor(bytes)? {
            Some(descriptor) => {
                self.check_tables(&descriptor, is_32bit)?;
                Ok(true)
            }
            None => Ok(false),
        }
    }

    /// The descriptor in bytes, or none where it is the null descriptor. It is bound to nothing,
    /// has no forwarder, and its three addresses are not 0.
    pub fn descriptor(&self, bytes: &[u8]) -> Result<Option<Descriptor<'_>>, Flaw> {
        if is_zero(bytes) {
            return Ok(None);
        }
        if u32_at(bytes, 4)? != 0 {
            return Err("a descriptor has a time");
        }
        if u32_at(bytes, 8)? != 0 {
            return Err("a descriptor has a forwarder chain");
        }
        let lookups = usize_at(bytes, 0)?;
        let name = usize_at(bytes, 12)?;
        let addresses = usize_at(bytes, 16)?;
        if lookups == 0 || name == 0 || addresses == 0 {
            return Err("an address in a descriptor is 0");
        }
        let dll = text_in(self.bytes_from(name)?)?;
        Ok(Some(Descriptor {
            dll,
            lookups,
            name,
            addresses,
        }))
    }

    /// Holds that both tables ask for the same, and end.
    fn check_tables(&self, descriptor: &Descriptor, is_32bit: bool) -> Result<(), Flaw> {
        let lookups = self.bytes_from(descriptor.lookups)?;
        let addresses = self.bytes_from(descriptor.addresses)?;
        let size = thunk_size(is_32bit);
        for (lookup, address) in lookups.chunks_exact(size).zip(addresses.chunks_exact(size)) {
            if !self.check_thunks(lookup, address)? {
                return Ok(());
            }
        }
        Err("a table has no end")
    }

    /// Whether two thunks, which ask for the same, are not the null thunk.
    fn check_thunks(&self, lookup: &[u8], address: &[u8]) -> Result<bool, Flaw> {
        let first = self.ask(lookup)?;
        if first != self.ask(address)? {
            return Err("two tables differ");
        }
        Ok(first.is_some())
    }

    /// The thunks from an address on, up to the null thunk, with what they ask for.
    fn thunks(
        &self,
        alloc: Global,
        address: usize,
        is_32bit: bool,
    ) -> Result<Vec<(u64, Ask<'_>)>, Fail> {
        let mut thunks = Vec::new(alloc);
        for bytes in self.bytes_from(address)?.chunks_exact(thunk_size(is_32bit)) {
            match self.ask(bytes)? {
                Some(ask) => thunks.push((number_in(bytes)?, ask))?,
                None => break,
            }
        }
        Ok(thunks)
    }

    /// What a thunk asks for, or none where it is the null thunk: by its top bit an ordinal in its
    /// low 16 bits, and else the hint and the name at an address of 31 bits. The other bits are 0.
    pub fn ask(&self, bytes: &[u8]) -> Result<Option<Ask<'_>>, Flaw> {
        let (is_ordinal, rest) = split(bytes)?;
        if is_ordinal {
            return match u16::try_from(rest) {
                Ok(ordinal) => Ok(Some(Ask::Ordinal(ordinal))),
                Err(_) => Err("an ordinal has further bits"),
            };
        }
        if rest == 0 {
            return Ok(None);
        }
        if rest >= 0x8000_0000 {
            return Err("the address of a name has further bits");
        }
        let text = self.bytes_from(rest as usize)?;
        let name = text_in(bytes_from(text, 2)?)?;
        Ok(Some(Ask::Name(name, u16_at(text, 0)?)))
    }
}

/// The size of a thunk in bytes, that of an address of the machine.
pub fn thunk_size(is_32bit: bool) -> usize
    ensures { 0 < result }
{
    if is_32bit { 4 } else { 8 }
}

/// The top bit of a thunk, and the others.
fn split(bytes: &[u8]) -> Result<(bool, u64), Flaw> {
    let thunk = number_in(bytes)?;
    if bytes.len() == 4 {
        Ok((thunk >> 31 == 1, thunk & 0x7FFF_FFFF))
    } else {
        Ok((thunk >> 63 == 1, thunk & 0x7FFF_FFFF_FFFF_FFFF))
    }
}
