//! Reads COFF objects, by the PE/COFF specification alone: it follows the offsets and counts in the
//! bytes.

ghost use Rattle.std.specs.Prelude.{◌<◌, ◌^◌, IfOk};

use std::alloc::Global;
use std::str;
use std::test::Fail;

/// What is wrong with bytes.
pub type Flaw = &'static str;

/// An object.
#[derive(Drop)]
pub struct Object<'a> {
    pub machine: u16,
    pub sections: Vec<Section<'a>>,
    /// By index. An auxiliary record has an index and the class [`RECORD`].
    pub symbols: Vec<Symbol<'a>>,
    records: &'a [u8],
}

/// A section with its data and its relocations.
#[derive(Drop)]
pub struct Section<'a> {
    pub name: &'a str,
    pub flags: u32,
    pub data: &'a [u8],
    pub relocations: Vec<Relocation>,
    /// Where it is placed, if it is.
    pub address: Option<usize>,
}

/// A field of a section that depends on a symbol's address.
#[derive(Clone, Copy)]
pub struct Relocation {
    pub offset: usize,
    pub symbol: usize,
    pub kind: u16,
}

/// The class of an auxiliary record, which is no symbol: greater than any class in a byte.
const RECORD: u16 = 0x100;

/// A symbol, or an auxiliary record, about which each question is answered with no.
#[derive(Clone, Copy)]
pub struct Symbol<'a> {
    pub name: &'a str,
    pub value: usize,
    pub section: u16,
    class: u16,
}

impl<'a> Symbol<'a> {
    /// A symbol of value 0.
    pub fn new(name: &'a str, section: u16, class: u16) -> Self {
        Symbol {
            name,
            value: 0,
            section,
            class,
        }
    }
}

impl Symbol<'_> {
    /// Whether it stands for the section of its name.
    fn is_of_section(&self) -> bool {
        self.class == 104 && self.section == 0
    }

    /// Whether objects share it by its name.
    pub fn is_external(&self) -> bool {
        self.class == 2
    }

    /// Whether a section of its object defines it for the others.
    pub fn is_defined(&self) -> bool {
        self.is_external() && self.section >= 1 && self.section <= 0x7FFF
    }

    /// Whether its object gives it an absolute value for the others.
    pub fn is_absolute(&self) -> bool {
        self.is_external() && self.section == 0xFFFF
    }

    /// Whether its object gives it an address or a value for the others, by this name.
    pub fn is_named(&self, name: &str) -> bool {
        (self.is_defined() || self.is_absolute()) && self.name == name
    }

    /// Whether another symbol may replace it.
    pub fn is_weak(&self) -> bool {
        self.class == 105
    }

    /// Whether its object leaves it to the others.
    pub fn is_undefined(&self) -> bool {
        self.is_external() && self.section == 0
    }
}

impl<'a> Object<'a> {
    /// An object without auxiliary records.
    pub fn new(machine: u16, sections: Vec<Section<'a>>, symbols: Vec<Symbol<'a>>) -> Self {
        Object {
            machine,
            sections,
            symbols,
            records: &[],
        }
    }

    /// Puts each undefined symbol of class section into the section of its name; where there is
    /// none, into one without bytes, aligned to 4.
    pub fn settle(&mut self, alloc: Global) -> Result<(), Fail> {
        for symbol in self.symbols.iter_mut() {
            if symbol.is_of_section() {
                let number = section_number(alloc, &mut self.sections, symbol.name)?;
                *symbol = Symbol::new(symbol.name, number, 3);
            }
        }
        Ok(())
    }

    /// The symbol of a name that it defines for the others.
    pub fn defined(&self, name: &str) -> Option<Symbol<'a>> {
        for symbol in self.symbols.iter() {
            if symbol.is_defined() && symbol.name == name {
                return Some(*symbol);
            }
        }
        None
    }

    /// Whether it declares a symbol: defines it for the others, or makes it weak.
    pub fn declares(&self, name: &str) -> bool {
        for symbol in self.symbols.iter() {
            if (symbol.is_defined() || symbol.is_weak()) && symbol.name == name {
                return true;
            }
        }
        false
    }

    /// The symbol of an index.
    pub fn symbol(&self, index: usize) -> Result<Symbol<'a>, Flaw> {
        match self.symbols.get(index) {
            Some(symbol) if symbol.class != RECORD => Ok(*symbol),
            _ => Err("an index has no symbol"),
        }
    }

    /// The section that has a symbol.
    pub fn section_of(&self, symbol: Symbol) -> Result<&Section<'a>, Flaw> {
        let Some(index) = usize::from(symbol.section).checked_sub(1) else {
            return Err("a symbol has no section");
        };
        match self.sections.get(index) {
            Some(section) => Ok(section),
            None => Err("a symbol has a section that is not there"),
        }
    }

    /// The symbol that it makes weak, if there is one, and the symbol for which. An auxiliary
    /// record says that it is an alias.
    pub fn weak(&self) -> Result<Option<(Symbol<'a>, Symbol<'a>)>, Flaw> {
        for (index, symbol) in self.symbols.iter().enumerate() {
            if symbol.is_weak() {
                return Ok(Some((*symbol, self.weak_target(index)?)));
            }
        }
        Ok(None)
    }

    /// The symbol for which the symbol of an index is made weak, by the auxiliary record after it.
    fn weak_target(&self, index: usize) -> Result<Symbol<'a>, Flaw> {
        let offset = index.saturating_add(1).saturating_mul(18);
        let auxiliary = bytes_from(self.records, offset)?;
        if u32_at(auxiliary, 4)? != 3 {
            return Err("a weak symbol is no alias");
        }
        self.symbol(usize_at(auxiliary, 0)?)
    }
}

/// The number of the section of a name, which is put after the others where there is none.
fn section_number<'a>(
    alloc: Global,
    sections: &mut Vec<Section<'a>>,
    name: &'a str,
) -> Result<u16, Fail> {
    let index = index_of(sections.as_slice(), name);
    if index == sections.len() {
        sections.push(Section {
            name,
            flags: 0xC030_0040,
            data: &[],
            relocations: Vec::new(alloc),
            address: None,
        })?;
    }
    match u16::try_from(index.saturating_add(1)) {
        Ok(number) => Ok(number),
        Err(_) => Err(Fail::new("an object has too many sections")),
    }
}

/// The index of the first section of a name, or how many sections there are.
fn index_of(sections: &[Section], name: &str) -> usize {
    for (index, section) in sections.iter().enumerate() {
        if section.name == name {
            return index;
        }
    }
    sections.len()
}

impl Section<'_> {
    /// A power of two, by the flags: their field is one more than its exponent.
    pub fn alignment(&self) -> usize {
        match self.flags / 0x0010_0000 % 16 {
            0 => 1,
            field => 1 << (field - 1),
        }
    }
}

/// The bytes from an offset on.
pub fn bytes_from(bytes: &[u8], offset: usize) -> Result<&[u8], Flaw> {
    match bytes.get(offset..) {
        Some(rest) => Ok(rest),
        None => Err("an offset leads out of its bytes"),
    }
}

/// This many bytes from an offset on.
pub fn bytes_at(bytes: &[u8], offset: usize, count: usize) -> Result<&[u8], Flaw> {
    match bytes_from(bytes, offset)?.get(..count) {
        Some(front) => Ok(front),
        None => Err("a count leads out of its bytes"),
    }
}

/// The array at an offset.
fn array_at<const N: usize>(bytes: &[u8], offset: usize) -> Result<[u8; N], Flaw> {
    match bytes_from(bytes, offset)?.first_chunk() {
        Some(array) => Ok(*array),
        None => Err("a field leads out of its bytes"),
    }
}

/// The number in two bytes.
pub fn u16_at(bytes: &[u8], offset: usize) -> Result<u16, Flaw> {
    Ok(u16::from_le_bytes(array_at(bytes, offset)?))
}

/// The number in four bytes.
pub fn u32_at(bytes: &[u8], offset: usize) -> Result<u32, Flaw> {
    Ok(u32::from_le_bytes(array_at(bytes, offset)?))
}

/// The number in eight bytes.
fn u64_at(bytes: &[u8], offset: usize) -> Result<u64, Flaw> {
    Ok(u64::from_le_bytes(array_at(bytes, offset)?))
}

/// The address, the offset or the count in four bytes.
pub fn usize_at(bytes: &[u8], offset: usize) -> Result<usize, Flaw>
    ensures { IfOk result (λ value. value < 2 ^ 32) }
{
    Ok(u32_at(bytes, offset)? as usize)
}

/// Whether all bytes are 0.
pub fn is_zero(bytes: &[u8]) -> bool {
    for byte in bytes {
        if *byte != 0 {
            return false;
        }
    }
    true
}

/// The number in a field of 4 or 8 bytes.
pub fn number_in(bytes: &[u8]) -> Result<u64, Flaw> {
    if bytes.len() == 4 {
        Ok(u64::from(u32_at(bytes, 0)?))
    } else {
        u64_at(bytes, 0)
    }
}

/// The text that a NUL ends.
pub fn text_in(bytes: &[u8]) -> Result<&str, Flaw> {
    let end = end_of(bytes);
    if end == bytes.len() {
        return Err("a text has no end");
    }
    text_of(bytes_at(bytes, 0, end)?)
}

/// The offset of the first NUL, or how many bytes there are.
fn end_of(bytes: &[u8]) -> usize {
    for (offset, byte) in bytes.iter().enumerate() {
        if *byte == 0 {
            return offset;
        }
    }
    bytes.len()
}

/// The text that bytes are.
pub fn text_of(bytes: &[u8]) -> Result<&str, Flaw> {
    match str::from_utf8(bytes) {
        Ok(text) => Ok(text),
        Err(_) => Err("a text is not UTF-8"),
    }
}

/// The text in a field of eight bytes, which NULs fill.
fn filled_text(record: &[u8]) -> Result<&str, Flaw> {
    let field = bytes_at(record, 0, 8)?;
    text_of(bytes_at(field, 0, end_of(field))?)
}

/// The object in a file's bytes.
pub fn object_in(alloc: Global, bytes: &[u8]) -> Result<Object<'_>, Fail> {
    let machine = u16_at(bytes, 0)?;
    let (records, strings) = tables_in(bytes)?;
    let symbols = symbols_in(alloc, records, strings)?;
    Ok(Object {
        machine,
        sections: sections_in(alloc, bytes)?,
        symbols,
        records,
    })
}

/// The records of the symbol table, and the string table.
fn tables_in(bytes: &[u8]) -> Result<(&[u8], &[u8]), Flaw> {
    let size = 18 * usize_at(bytes, 12)?;
    let Some((records, strings)) = bytes_from(bytes, usize_at(bytes, 8)?)?.split_at_checked(size)
    else {
        return Err("symbols lead out of their object");
    };
    Ok((records, bytes_at(strings, 0, usize_at(strings, 0)?)?))
}

/// The sections of an object, in the order of their headers.
fn sections_in(alloc: Global, bytes: &[u8]) -> Result<Vec<Section<'_>>, Fail> {
    let headers_offset = 20 + usize::from(u16_at(bytes, 16)?);
    let headers_count = usize::from(u16_at(bytes, 2)?);
    let mut sections = Vec::new(alloc);
    for header in bytes_at(bytes, headers_offset, 40 * headers_count)?.chunks_exact(40) {
        sections.push(section_of(alloc, bytes, header)?)?;
    }
    Ok(sections)
}

/// The section that a header describes. Where the offset of its data is 0 it has none.
fn section_of<'a>(alloc: Global, bytes: &'a [u8], header: &'a [u8]) -> Result<Section<'a>, Fail> {
    let data_offset = usize_at(header, 20)?;
    let data_size = if data_offset == 0 {
        0
    } else {
        usize_at(header, 16)?
    };
    Ok(Section {
        name: filled_text(header)?,
        flags: u32_at(header, 36)?,
        data: bytes_at(bytes, data_offset, data_size)?,
        relocations: relocations_of(alloc, bytes, header)?,
        address: None,
    })
}

/// The relocations of the section that a header describes.
fn relocations_of(alloc: Global, bytes: &[u8], header: &[u8]) -> Result<Vec<Relocation>, Fail> {
    let records_count = usize::from(u16_at(header, 32)?);
    let records = bytes_at(bytes, usize_at(header, 24)?, 10 * records_count)?;
    let mut relocations = Vec::new(alloc);
    for record in records.chunks_exact(10) {
        relocations.push(relocation_in(record)?)?;
    }
    Ok(relocations)
}

/// The relocation in a record: an offset, the index of a symbol and a type.
fn relocation_in(record: &[u8]) -> Result<Relocation, Flaw> {
    let [o0, o1, o2, o3, s0, s1, s2, s3, k0, k1] = array_at::<10>(record, 0)?;
    Ok(Relocation {
        offset: u32::from_le_bytes([o0, o1, o2, o3]) as usize,
        symbol: u32::from_le_bytes([s0, s1, s2, s3]) as usize,
        kind: u16::from_le_bytes([k0, k1]),
    })
}

/// The symbols of a symbol table, each followed by the auxiliary records that it counts.
fn symbols_in<'a>(
    alloc: Global,
    records: &'a [u8],
    strings: &'a [u8],
) -> Result<Vec<Symbol<'a>>, Fail> {
    let mut symbols = Vec::new(alloc);
    let mut auxiliary = 0;
    for record in records.chunks_exact(18) {
        if auxiliary > 0 {
            symbols.push(Symbol::new("", 0, RECORD))?;
            auxiliary -= 1;
        } else {
            let (symbol, count) = symbol_in(record, strings)?;
            symbols.push(symbol)?;
            auxiliary = count;
        }
    }
    if auxiliary > 0 {
        return Err(Fail::new("auxiliary records lead out of the symbol table"));
    }
    Ok(symbols)
}

/// The symbol in a record, and how many auxiliary records follow it.
fn symbol_in<'a>(record: &'a [u8], strings: &'a [u8]) -> Result<(Symbol<'a>, u8), Flaw> {
    let [class, count] = array_at::<2>(record, 16)?;
    let symbol = Symbol {
        name: name_of(record, strings)?,
        value: usize_at(record, 8)?,
        section: u16_at(record, 12)?,
        class: u16::from(class),
    };
    Ok((symbol, count))
}

/// The name of a symbol: after four zero bytes it is in the string table.
fn name_of<'a>(record: &'a [u8], strings: &'a [u8]) -> Result<&'a str, Flaw> {
    if u32_at(record, 0)? == 0 {
        text_in(bytes_from(strings, usize_at(record, 4)?)?)
    } else {
        filled_text(record)
    }
}
