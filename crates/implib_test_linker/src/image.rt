//! An image: the groups of sections, and the bytes at addresses. Addresses count from the image's
//! base.

use super::object::{Flaw, Section, bytes_from, number_in};
use std::alloc::{AllocError, Global};
use std::test::Fail;

/// The bases of the groups, in the order of [`GROUPS`].
pub type Bases = [usize; 6];

/// The names of the sections that are placed, a group for each: the import tables, and code.
const GROUPS: &[&str] = &[
    ".idata$2", ".idata$4", ".idata$5", ".idata$6", ".idata$7", ".text",
];

/// The sections of one name, one after another from the group's base on.
#[derive(Drop)]
struct Group {
    name: &'static str,
    base: usize,
    bytes: Vec<u8>,
}

/// The bytes of all groups.
#[derive(Drop)]
pub struct Image {
    groups: Vec<Group>,
}

/// Why bases do not serve.
#[derive(Clone, Copy)]
pub enum Misplaced {
    /// The base of a group is 0 or no multiple of 4.
    Base(&'static str),
    /// A group does not end below 2^31.
    End(&'static str),
    /// An address is in two groups.
    Overlap(&'static str, &'static str),
}

impl Group {
    /// The address after the last byte.
    fn end(&self) -> usize {
        self.base.saturating_add(self.bytes.len())
    }

    /// Appends a section's data at the next multiple of its alignment, and gives its address.
    fn place(&mut self, section: &Section) -> Result<usize, Fail> {
        let Some(address) = self.end().checked_next_multiple_of(section.alignment()) else {
            return Err(Fail::new("a section has no address"));
        };
        let Some(offset) = address.checked_sub(self.base) else {
            return Err(Fail::new("a section is below its base"));
        };
        self.bytes.resize(offset, 0)?;
        self.bytes.extend_from_slice(section.data)?;
        Ok(address)
    }

    /// Whether an address is in it and in another one. None is in a group without bytes.
    fn overlaps(&self, other: &Group) -> bool {
        let is_apart = self.end() <= other.base || other.end() <= self.base;
        !is_apart && !self.bytes.is_empty() && !other.bytes.is_empty()
    }

    /// Which of other groups it overlaps first.
    fn overlap(&self, others: &[Group]) -> Option<Misplaced> {
        for other in others {
            if self.overlaps(other) {
                return Some(Misplaced::Overlap(self.name, other.name));
            }
        }
        None
    }

    /// Why its base does not serve.
    fn misplaced(&self) -> Option<Misplaced> {
        if self.base == 0 || self.base % 4 != 0 {
            Some(Misplaced::Base(self.name))
        } else if self.end() >= 0x8000_0000 {
            Some(Misplaced::End(self.name))
        } else {
            None
        }
    }
}

impl Image {
    /// An image without bytes.
    pub fn new(alloc: Global, bases: Bases) -> Result<Self, AllocError> {
        let mut groups = Vec::new(alloc);
        for (index, name) in GROUPS.iter().enumerate() {
            if let Some(base) = bases.get(index) {
                groups.push(Group {
                    name: *name,
                    base: *base,
                    bytes: Vec::new(alloc),
                })?;
            }
        }
        Ok(Image { groups })
    }

    /// Places a section after those of its name, and gives its address, if there is a group of that
    /// name.
    pub fn place(&mut self, section: &Section) -> Result<Option<usize>, Fail> {
        for group in self.groups.iter_mut() {
            if group.name == section.name {
                return Ok(Some(group.place(section)?));
            }
        }
        Ok(None)
    }

    /// Appends what ends the import directory, and gives its address.
    pub fn end_directory(&mut self, bytes: &[u8]) -> Result<Option<usize>, AllocError> {
        for group in self.groups.iter_mut() {
            if group.name == ".idata$2" {
                let address = group.end();
                group.bytes.extend_from_slice(bytes)?;
                return Ok(Some(address));
            }
        }
        Ok(None)
    }

    /// Why the bases do not serve.
    pub fn misplaced(&self) -> Option<Misplaced> {
        for group in self.groups.iter() {
            if let Some(misplaced) = group.misplaced() {
                return Some(misplaced);
            }
        }
        for (index, group) in self.groups.iter().enumerate() {
            if let Some(later) = self.groups.as_slice().get(index.saturating_add(1)..)
                && let Some(misplaced) = group.overlap(later)
            {
                return Some(misplaced);
            }
        }
        None
    }

    /// The bytes from an address to the end of its group.
    pub fn bytes_from(&self, address: usize) -> Result<&[u8], Flaw> {
        for group in self.groups.iter() {
            if group.base <= address && address < group.end() {
                return bytes_from(group.bytes.as_slice(), address - group.base);
            }
        }
        Err("an address leads out of the image")
    }

    /// Writes bytes at an address. They are in one group.
    pub fn write(&mut self, address: usize, bytes: &[u8]) -> Result<(), Flaw> {
        for group in self.groups.iter_mut() {
            if let Some(offset) = address.checked_sub(group.base)
                && let Some(rest) = group.bytes.as_mut_slice().get_mut(offset..)
                && let Some(field) = rest.get_mut(..bytes.len())
            {
                field.copy_from_slice(bytes);
                return Ok(());
            }
        }
        Err("a field leads out of the image")
    }

    /// The bytes of a field at an address.
    pub fn bytes_at(&self, address: usize, size: usize) -> Result<&[u8], Flaw> {
        match self.bytes_from(address)?.get(..size) {
            Some(field) => Ok(field),
            None => Err("a field leads out of the image"),
        }
    }

    /// Adds to the number in a field of 4 or 8 bytes, modulo what the field holds.
    pub fn add(&mut self, address: usize, size: usize, number: u64) -> Result<(), Flaw> {
        let sum = number_in(self.bytes_at(address, size)?)?.wrapping_add(number);
        match sum.to_le_bytes().get(..size) {
            Some(field) => self.write(address, field),
            None => Err("a field is too wide"),
        }
    }

    /// Appends the bytes of each group.
    pub fn show(&self, text: &mut String) -> Result<(), AllocError> {
        for group in self.groups.iter() {
            let Group { name, base, bytes } = group;
            let end = group.end();
            write!(text, "{name} {base:#x} to {end:#x}:")?;
            for byte in bytes.iter() {
                write!(text, " {byte:02x}")?;
            }
            text.push('\n')?;
        }
        Ok(())
    }
}
