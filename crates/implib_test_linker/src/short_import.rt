//! Reads short imports, by the PE/COFF specification and, for what is asked for by the name
//! types, by `docs/FORMATS.md`.

use super::object::{Flaw, bytes_from, text_in, text_of, u16_at, usize_at};
use std::alloc::AllocError;

/// A short import.
#[derive(Clone, Copy)]
pub struct ShortImport<'a> {
    pub machine: u16,
    pub dll: &'a str,
    pub symbol: &'a str,
    ordinal: u16,
    types: u16,
}

/// What a DLL is asked for.
#[derive(Clone, Copy, PartialEq, Eq)]
pub enum Ask<'a> {
    Ordinal(u16),
    /// A name, with the hint.
    Name(&'a str, u16),
}

/// Appends what a DLL is asked for.
pub fn push_ask(text: &mut String, ask: Ask) -> Result<(), AllocError> {
    match ask {
        Ask::Ordinal(ordinal) => write!(text, "ordinal {ordinal}"),
        Ask::Name(name, hint) => write!(text, "{name}, hint {hint}"),
    }
}

/// Whether a file is a short import, and no object.
pub fn is_short_import(bytes: &[u8]) -> bool {
    bytes.starts_with(&[0, 0, 0xFF, 0xFF])
}

/// The short import in a file's bytes: a header, and two texts to the end.
pub fn short_import_in(bytes: &[u8]) -> Result<ShortImport<'_>, Flaw> {
    let texts = bytes_from(bytes, 20)?;
    let symbol = text_in(texts)?;
    let rest = bytes_from(texts, symbol.len().saturating_add(1))?;
    let dll = text_in(rest)?;
    if usize_at(bytes, 12)? != texts.len() || dll.len().saturating_add(1) != rest.len() {
        return Err("a short import has another size");
    }
    if u16_at(bytes, 4)? != 0 {
        return Err("a short import has another version");
    }
    Ok(ShortImport {
        machine: u16_at(bytes, 6)?,
        dll,
        symbol,
        ordinal: u16_at(bytes, 16)?,
        types: u16_at(bytes, 18)?,
    })
}

impl<'a> ShortImport<'a> {
    /// The import type: 0 code, 1 data, 2 a constant.
    pub fn import_type(&self) -> u16 {
        self.types % 4
    }

    /// Whether it declares a symbol: its own, but for data, and that of its address.
    pub fn declares(&self, symbol: &str) -> bool {
        let is_data = self.import_type() == 1;
        let address = symbol.strip_prefix("__imp_") == Some(self.symbol);
        address || !is_data && symbol == self.symbol
    }

    /// What it asks for, by its name type.
    pub fn ask(&self) -> Result<Ask<'a>, Flaw> {
        let name = match self.types / 4 {
            0 => return Ok(Ask::Ordinal(self.ordinal)),
            1 => self.symbol,
            2 => without_prefix(self.symbol)?,
            3 => undecorated(without_prefix(self.symbol)?),
            _ => return Err("a short import has another name type"),
        };
        Ok(Ask::Name(name, self.ordinal))
    }
}

/// A name without its first character, if that is one of three.
fn without_prefix(name: &str) -> Result<&str, Flaw> {
    match name.as_bytes() {
        [b'?' | b'@' | b'_', rest @ ..] => text_of(rest),
        _ => Ok(name),
    }
}

/// A name up to its first `@`.
fn undecorated(name: &str) -> &str {
    match name.split_once('@') {
        Some((front, _)) => front,
        None => name,
    }
}
