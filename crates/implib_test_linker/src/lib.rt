//! A linker and a loader for tests: of objects they know the names and the bytes alone.
//! The linker reads the objects, places their sections, resolves their symbols and relocates them;
//! the loader reads the import directory of the image. The rules are those of the PE/COFF specification and, for the placement, of
//! `docs/FORMATS.md`. They are test equipment: proved safe and total, like all code here, and held
//! to no further contract.
#![tactic(auto)]

mod code;
mod directory;
mod expansion;
mod file;
mod image;
mod object;
mod short_import;

use code::{ARMNT, I386, IMAGE_BASE, jump_reads, relocated, whole_size};
use directory::{Descriptor, Import, thunk_size};
pub use expansion::{Expansion, expanded};
pub use file::{File, Purpose, file_in};
pub use image::{Bases, Image, Misplaced};
pub use object::{Flaw, Object};
use object::{Relocation, Section, Symbol, bytes_at, object_in, u32_at};
pub use short_import::{Ask, push_ask};
use std::alloc::{AllocError, Global};
use std::fmt;
use std::test::Fail;

/// An object of a file, whose sections are placed.
#[derive(Drop)]
struct Placed<'a> {
    object: Object<'a>,
}

/// Objects that are linked.
#[derive(Drop)]
pub struct Linked<'a> {
    machine: u16,
    directory: usize,
    objects: Vec<Placed<'a>>,
    pub image: Image,
}

impl Placed<'_> {
    /// The address of a symbol of its own sections, if it has one.
    fn own_address(&self, symbol: &Symbol) -> Option<usize> {
        let index = usize::from(symbol.section).checked_sub(1)?;
        let section = self.object.sections.get(index)?;
        section.address?.checked_add(symbol.value)
    }
}

/// Why objects do not link.
#[derive(Clone, Copy)]
pub enum Unlinked<'a> {
    /// No object defines the symbol.
    Undefined(&'a str),
    /// The symbol is defined twice.
    Ambiguous(&'a str),
    /// The bases do not serve.
    Misplaced(Misplaced),
    /// A field cannot be relocated.
    Unrelocated(Flaw),
}

impl fmt::Display for Unlinked<'_> {
    fn fmt<W: fmt::Write>(&self, f: &mut fmt::Formatter<W>) -> fmt::Result {
        match self {
            Unlinked::Undefined(name) => write!(f, "{name} is not defined"),
            Unlinked::Ambiguous(name) => write!(f, "{name} is defined twice"),
            Unlinked::Misplaced(Misplaced::Base(group)) => {
                write!(f, "the base of {group} is 0 or no multiple of 4")
            }
            Unlinked::Misplaced(Misplaced::End(group)) => {
                write!(f, "{group} does not end below 2^31")
            }
            Unlinked::Misplaced(Misplaced::Overlap(first, second)) => {
                write!(f, "{first} and {second} overlap")
            }
            Unlinked::Unrelocated(flaw) => write!(f, "{flaw}"),
        }
    }
}

/// Links objects in this order. The bases are those of `.idata$2`,
/// `$4`, `$5`, `$6`, `$7` and `.text`. Where the directory is not to be ended, `.idata$2` has the
/// descriptors of the objects alone, and no `.idata$3` is placed.
pub fn link<'a>(
    alloc: Global,
    objects: Vec<Object<'a>>,
    bases: Bases,
    is_ended: bool,
) -> Result<Result<Linked<'a>, Unlinked<'a>>, Fail> {
    let mut linked = place(alloc, objects, bases)?;
    if is_ended {
        linked = ended(linked)?;
    }
    if let Some(unlinked) = linked.refusal() {
        return Ok(Err(unlinked));
    }
    match linked.relocate() {
        Ok(()) => Ok(Ok(linked)),
        Err(flaw) => Ok(Err(Unlinked::Unrelocated(flaw))),
    }
}

/// The object in a file's bytes, or the one that a short import stands for.
pub fn object_of<'a>(
    alloc: Global,
    file: &'a [u8],
    expansion: &'a Option<Expansion>,
) -> Result<Object<'a>, Fail> {
    match expansion {
        Some(expansion) => expansion.object(alloc),
        None => object_in(alloc, file),
    }
}

/// Places the sections of objects, and nothing that ends the import directory.
fn place<'a>(alloc: Global, files: Vec<Object<'a>>, bases: Bases) -> Result<Linked<'a>, Fail> {
    let mut image = Image::new(alloc, bases)?;
    let mut objects = Vec::new(alloc);
    let mut machine = 0;
    for mut object in files {
        if machine != 0 && machine != object.machine {
            return Err(Fail::new("objects are for two machines"));
        }
        machine = object.machine;
        object.settle(alloc)?;
        place_sections(&mut image, object.sections.as_mut_slice())?;
        objects.push(Placed { object })?;
    }
    Ok(Linked {
        machine,
        directory: bases[0],
        objects,
        image,
    })
}

/// Places sections after others.
fn place_sections(image: &mut Image, sections: &mut [Section]) -> Result<(), Fail> {
    for section in sections {
        section.address = image.place(section)?;
    }
    Ok(())
}

/// The same with the end of the import directory.
fn ended(linked: Linked) -> Result<Linked, Fail> {
    let Linked {
        machine,
        directory,
        mut objects,
        mut image,
    } = linked;
    end_directory(&mut image, &mut objects)?;
    Ok(Linked {
        machine,
        directory,
        objects,
        image,
    })
}

/// Ends the import directory: by the section `.idata$3` of an object, or else by the null
/// descriptor that linkers bring.
fn end_directory(image: &mut Image, objects: &mut Vec<Placed>) -> Result<(), Fail> {
    let mut is_ended = false;
    for placed in objects.iter_mut() {
        if end_by(image, placed.object.sections.as_mut_slice())? {
            is_ended = true;
        }
    }
    if !is_ended {
        image.end_directory(&[0; 20])?;
    }
    Ok(())
}

/// Ends the import directory by each section `.idata$3` of an object, and says whether it has one.
fn end_by(image: &mut Image, sections: &mut [Section]) -> Result<bool, Fail> {
    let mut is_ended = false;
    for section in sections {
        if section.name == ".idata$3" {
            section.address = image.end_directory(section.data)?;
            is_ended = true;
        }
    }
    Ok(is_ended)
}

/// Relocates all sections of an object that are placed.
fn relocate(objects: &[Placed], placed: &Placed, image: &mut Image) -> Result<(), Flaw> {
    for section in placed.object.sections.iter() {
        if let Some(address) = section.address {
            relocate_section(objects, placed, section, address, image)?;
        }
    }
    Ok(())
}

/// Relocates the section at an address.
fn relocate_section(
    objects: &[Placed],
    placed: &Placed,
    section: &Section,
    address: usize,
    image: &mut Image,
) -> Result<(), Flaw> {
    for relocation in section.relocations.iter() {
        relocate_field(objects, placed, section, relocation, address, image)?;
    }
    Ok(())
}

/// Relocates a field of the section at an address.
fn relocate_field(
    objects: &[Placed],
    placed: &Placed,
    section: &Section,
    relocation: &Relocation,
    address: usize,
    image: &mut Image,
) -> Result<(), Flaw> {
    let machine = placed.object.machine;
    let whole = whole_size(machine, relocation.kind);
    // The field is in the section.
    bytes_at(section.data, relocation.offset, whole.unwrap_or(4))?;
    let target = target_of(objects, placed, relocation)?;
    let field = address.saturating_add(relocation.offset);
    match whole {
        Some(size) => image.add(
            field,
            size,
            u64::from(IMAGE_BASE).wrapping_add(u64::from(target)),
        ),
        None => relocate_word(machine, relocation.kind, field, target, image),
    }
}

/// Relocates the word at an address for a target.
fn relocate_word(
    machine: u16,
    kind: u16,
    field: usize,
    target: u32,
    image: &mut Image,
) -> Result<(), Flaw> {
    let word = u32_at(image.bytes_from(field)?, 0)?;
    let word = relocated(machine, kind, word, address_of(field)?, target)?;
    image.write(field, &word.to_le_bytes())
}

/// The address of the symbol of an object's relocation.
fn target_of(objects: &[Placed], placed: &Placed, relocation: &Relocation) -> Result<u32, Flaw> {
    let symbol = placed.object.symbol(relocation.symbol)?;
    let target = if symbol.is_undefined() {
        match defined_address(objects, symbol.name) {
            Ok(address) => address,
            Err(_) => None,
        }
    } else {
        placed.own_address(&symbol)
    };
    match target {
        Some(address) => address_of(address),
        None => Err("a symbol has no address"),
    }
}

/// An address in 32 bits.
fn address_of(address: usize) -> Result<u32, Flaw> {
    match u32::try_from(address) {
        Ok(address) => Ok(address),
        Err(_) => Err("an address has more than 32 bits"),
    }
}

/// The address, if there is one, of the one symbol of a name that objects define for one another;
/// where there is none, that of the symbol for which an object makes the name weak.
fn defined_address<'a>(
    objects: &[Placed<'a>],
    name: &'a str,
) -> Result<Option<usize>, Unlinked<'a>> {
    match (strong_address(objects, name), weak_target(objects, name)) {
        (Err(Unlinked::Undefined(_)), Some(target)) => strong_address(objects, target),
        (address, _) => address,
    }
}

/// The symbol for which an object makes a name weak, if one does.
fn weak_target<'a>(objects: &[Placed<'a>], name: &str) -> Option<&'a str> {
    for placed in objects {
        if let Ok(Some((weak, target))) = placed.object.weak()
            && weak.name == name
        {
            return Some(target.name);
        }
    }
    None
}

/// The address, if there is one, of the one symbol of a name that objects define themselves.
fn strong_address<'a>(objects: &[Placed], name: &'a str) -> Result<Option<usize>, Unlinked<'a>> {
    let mut found = Err(Unlinked::Undefined(name));
    for placed in objects {
        for symbol in placed.object.symbols.iter() {
            if symbol.is_named(name) {
                if found.is_ok() {
                    return Err(Unlinked::Ambiguous(name));
                }
                found = Ok(placed.own_address(symbol));
            }
        }
    }
    found
}

impl<'a> Linked<'a> {
    /// Why the objects do not link: bases do not serve, or a symbol stays undefined or is defined
    /// twice.
    fn refusal(&self) -> Option<Unlinked<'a>> {
        if let Some(misplaced) = self.image.misplaced() {
            return Some(Unlinked::Misplaced(misplaced));
        }
        for placed in self.objects.iter() {
            let unlinked = unresolved(&self.objects, &placed.object);
            if unlinked.is_some() {
                return unlinked;
            }
        }
        None
    }
}

/// Why a symbol of an object among others has no address.
fn unresolved<'a>(objects: &[Placed<'a>], object: &Object<'a>) -> Option<Unlinked<'a>> {
    for symbol in object.symbols.iter() {
        if symbol.is_external()
            && let Err(unlinked) = defined_address(objects, symbol.name)
        {
            return Some(unlinked);
        }
    }
    None
}

impl Linked<'_> {
    /// Relocates all sections that are placed.
    fn relocate(&mut self) -> Result<(), Flaw> {
        for placed in self.objects.iter() {
            relocate(&self.objects, placed, &mut self.image)?;
        }
        Ok(())
    }

    /// Whether addresses have 4 bytes, and not 8.
    fn is_32bit(&self) -> bool {
        self.machine == I386 || self.machine == ARMNT
    }

    /// How many DLLs the import directory lists, and that a strict loader takes it.
    pub fn check_directory(&self) -> Result<usize, Flaw> {
        self.image.check_directory(self.directory, self.is_32bit())
    }

    /// What the import directory lists.
    fn imports(&self, alloc: Global) -> Result<Vec<Import<'_>>, Fail> {
        self.image.directory(alloc, self.directory, self.is_32bit())
    }

    /// The bytes of the image.
    pub fn image_text(&self, alloc: Global) -> Result<String, AllocError> {
        let mut text = String::new(alloc);
        self.image.show(&mut text)?;
        Ok(text)
    }

    /// The address of a symbol that an object defines for the others.
    pub fn address_of(&self, name: &str) -> Result<usize, Fail> {
        match defined_address(&self.objects, name) {
            Ok(Some(address)) => Ok(address),
            Ok(None) => Err(Fail::new("a symbol has no address")),
            Err(unlinked) => Err(Fail::new(unlinked)),
        }
    }

    /// The symbols of the address tables, those that begin with `__imp_`, with their addresses.
    pub fn entries(&self, alloc: Global) -> Result<Vec<(&str, usize)>, Fail> {
        let mut entries = Vec::new(alloc);
        for placed in self.objects.iter() {
            push_entries(placed, &mut entries)?;
        }
        Ok(entries)
    }

    /// The address from which the code at an address reads where it jumps.
    pub fn jump_at(&self, address: usize) -> Result<usize, Flaw> {
        let code = self.image.bytes_from(address)?;
        Ok(jump_reads(self.machine, address_of(address)?, code)? as usize)
    }

    /// What a loader finds in the import directory, and the address of each `__imp_` symbol.
    pub fn loaded(&self, alloc: Global) -> Result<String, Fail> {
        let mut text = String::new(alloc);
        for import in self.imports(alloc)? {
            show_import(&mut text, &import)?;
        }
        for (name, address) in self.entries(alloc)? {
            writeln!(text, "{name} {address:#x}")?;
        }
        Ok(text)
    }
}

/// Appends an object's symbols of the address tables.
fn push_entries<'a>(placed: &Placed<'a>, entries: &mut Vec<(&'a str, usize)>) -> Result<(), Fail> {
    for symbol in placed.object.symbols.iter() {
        if symbol.is_defined() && symbol.name.starts_with("__imp_") {
            let Some(address) = placed.own_address(symbol) else {
                return Err(Fail::new("no address"));
            };
            entries.push((symbol.name, address))?;
        }
    }
    Ok(())
}

/// Appends what a DLL is asked for.
fn show_import(text: &mut String, import: &Import) -> Result<(), AllocError> {
    show_descriptor(text, &import.descriptor)?;
    for (thunk, ask) in import.thunks.iter() {
        write!(text, "  {thunk:#x}: ")?;
        push_ask(text, *ask)?;
        text.push('\n')?;
    }
    Ok(())
}

/// Appends the addresses in a descriptor.
fn show_descriptor(text: &mut String, descriptor: &Descriptor) -> Result<(), AllocError> {
    text.push_str(descriptor.dll)?;
    show_address(text, ": name ", descriptor.name)?;
    show_address(text, ", lookups ", descriptor.lookups)?;
    show_address(text, ", addresses ", descriptor.addresses)?;
    text.push('\n')
}

/// Appends words and an address.
fn show_address(text: &mut String, words: &str, address: usize) -> Result<(), AllocError> {
    write!(text, "{words}{address:#x}")
}
