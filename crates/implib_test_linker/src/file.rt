//! What the members of a library are for, read from their bytes alone.

use super::object::{
    Flaw, Object, Section, Symbol, bytes_from, is_zero, object_in, text_in, u16_at,
};
use super::short_import::{Ask, ShortImport, is_short_import, short_import_in};
use std::alloc::Global;
use std::test::Fail;

/// A member's file.
#[derive(Drop)]
pub enum File<'a> {
    ShortImport(ShortImport<'a>),
    Object(Object<'a>),
}

/// What a file is for.
#[derive(Clone, Copy)]
pub enum Purpose<'a> {
    /// It asks a DLL for an export.
    Import(&'a str, Ask<'a>),
    /// It makes a symbol weak for another.
    Weak(&'a str, &'a str),
    /// Neither.
    Other,
}

/// The file in bytes.
pub fn file_in(alloc: Global, bytes: &[u8]) -> Result<File<'_>, Fail> {
    if is_short_import(bytes) {
        Ok(File::ShortImport(short_import_in(bytes)?))
    } else {
        Ok(File::Object(object_in(alloc, bytes)?))
    }
}

impl<'a> File<'a> {
    /// The number of its machine.
    pub fn machine(&self) -> u16 {
        match self {
            File::ShortImport(import) => import.machine,
            File::Object(object) => object.machine,
        }
    }

    /// Whether it declares a symbol: defines it for others, or makes it weak.
    pub fn declares(&self, name: &str) -> bool {
        match self {
            File::ShortImport(import) => import.declares(name),
            File::Object(object) => object.declares(name),
        }
    }

    /// What it is for, among the files of a library.
    pub fn purpose(&self, files: &[File<'a>]) -> Result<Purpose<'a>, Fail> {
        match self {
            File::ShortImport(import) => Ok(Purpose::Import(import.dll, import.ask()?)),
            File::Object(object) => object_purpose(object, files),
        }
    }
}

/// What an object is for. That of an export has a field that leads to the head.
fn object_purpose<'a>(object: &Object<'a>, files: &[File<'a>]) -> Result<Purpose<'a>, Fail> {
    if let Some((weak, target)) = object.weak()? {
        return Ok(Purpose::Weak(weak.name, target.name));
    }
    match head_of(object)? {
        Some(head) => Ok(Purpose::Import(dll_of(head, files)?, ask_of(object)?)),
        None => Ok(Purpose::Other),
    }
}

/// The symbol to which the first field of a section `.idata$7` leads.
fn head_of<'a>(object: &Object<'a>) -> Result<Option<Symbol<'a>>, Flaw> {
    for section in object.sections.iter() {
        if section.name == ".idata$7"
            && let Some(relocation) = section.relocations.first()
        {
            return Ok(Some(object.symbol(relocation.symbol)?));
        }
    }
    Ok(None)
}

/// The section of an object that defines a symbol for others.
fn defining<'b, 'a>(
    name: &str,
    files: &'b [File<'a>],
) -> Result<(&'b Object<'a>, &'b Section<'a>), Fail> {
    for file in files {
        if let File::Object(object) = file
            && let Some(symbol) = object.defined(name)
        {
            return Ok((object, object.section_of(symbol)?));
        }
    }
    Err(Fail::new(format_args!("{name} is not defined")))
}

/// The DLL whose descriptor a symbol names: its name is that of the text to which the descriptor
/// leads.
fn dll_of<'a>(head: Symbol, files: &[File<'a>]) -> Result<&'a str, Fail> {
    let (object, descriptor) = defining(head.name, files)?;
    if descriptor.name != ".idata$2" {
        return Err(Fail::new("a head defines no descriptor"));
    }
    for relocation in descriptor.relocations.iter() {
        if relocation.offset == 12 {
            let symbol = object.symbol(relocation.symbol)?;
            let (_, section) = defining(symbol.name, files)?;
            return Ok(text_in(section.data)?);
        }
    }
    Err(Fail::new("a descriptor has no name"))
}

/// What the entry of an export in the address table asks for: by a relocation a hint and a name, by
/// its own bits an ordinal.
fn ask_of<'a>(object: &Object<'a>) -> Result<Ask<'a>, Flaw> {
    for section in object.sections.iter() {
        if section.name == ".idata$5" {
            let Some(relocation) = section.relocations.first() else {
                return ordinal_in(section.data);
            };
            let symbol = object.symbol(relocation.symbol)?;
            let text = object.section_of(symbol)?.data;
            return Ok(Ask::Name(text_in(bytes_from(text, 2)?)?, u16_at(text, 0)?));
        }
    }
    Err("an export has no entry")
}

/// The ordinal in a thunk whose first bit is set.
fn ordinal_in<'a>(thunk: &[u8]) -> Result<Ask<'a>, Flaw> {
    match thunk {
        [first, second, middle @ .., 0x80] if is_zero(middle) => {
            Ok(Ask::Ordinal(u16::from_le_bytes([*first, *second])))
        }
        _ => Err("a thunk has no ordinal"),
    }
}
