//! What is kept of a short import, which is made when it is wanted.

ghost use Rattle.implib.specs.Members.Msvc.{dll_texts, short_import_bytes, short_import_size};
ghost use Rattle.implib.specs.Members.Msvc.{short_import_view};
ghost use Rattle.implib_arm64ec.specs.KeptImports.{IsKept, IsKeptWith, auxiliary_end, kept_address};
ghost use Rattle.implib_arm64ec.specs.KeptImports.{kept_auxiliary, kept_import, kept_plain};
ghost use Rattle.implib_arm64ec.specs.KeptImports.{kept_symbol, kept_symbols, kept_third};
ghost use Rattle.implib_arm64ec.specs.KeptImports.{third_with};
ghost use Rattle.std.specs.Prelude.{◌≡◌, ◌≤◌, ◌+◌, ◌++◌, ◌<◌, ℕ, List, [], IfOk, MatchBool, OnOk};
ghost use Rattle.std.specs.Prelude.{bytes_eq, get_or, length, not, option_map, set, string_bytes};

use implib::msvc::ShortImport;
use implib::{Error, MachineType};
use std::alloc::{AllocError, Global};

const ADDRESS_PREFIX: &str = "__imp_";

const AUXILIARY_PREFIX: &str = "__imp_aux_";

// By how much the second is longer than the first.
const AUXILIARY_LONGER: usize = 4;

// The size of a short import but for its texts: a header, and the NULs of two texts.
const SIZE_AROUND: usize = 22;

const IMPORT_DATA: u16 = 1;

// Which text is the third.
#[derive(Clone, Copy, Debug)]
pub(crate) enum Third {
    // There is none.
    Absent,
    // The name without a mark.
    Plain,
    // Another, which is kept.
    Other,
}

// What a short import says but for its DLL, and the numbers.
#[derive(Debug, Drop)]
pub(crate) struct KeptImport {
    // Four texts: the symbols of the address, of the auxiliary address and of the import itself,
    // and a third text that is not the name without a mark. As of the function `f`:
    // `__imp_f__imp_aux_f#f`.
    texts: String,
    address_end: usize,
    symbol_end: usize,
    ordinal: u16,
    import_type: u16,
    name_type: u16,
    third: Third,
}

// The numbers of a short import.
#[derive(Clone, Copy, Debug)]
pub(crate) struct Numbers {
    pub(crate) ordinal: u16,
    pub(crate) import_type: u16,
    pub(crate) name_type: u16,
}

// Whether a `u32` can hold the size of a short import with these texts.
pub(crate) fn is_short(symbol: &str, dll: &str, third: Option<&str>) -> bool
    ensures { MatchBool result
        (22 + (length symbol.now
        + length (dll_texts dll.now (option_map (λ name. name.now) third.entry))) ≤ u32.MAX)
        (u32.MAX < 22 + (length symbol.now
        + length (dll_texts dll.now (option_map (λ name. name.now) third.entry)))) }
{
    let third_size = match third {
        Some(name) => name.len().saturating_add(1),
        None => 0,
    };
    let texts = symbol
        .len()
        .saturating_add(dll.len())
        .saturating_add(third_size);
    texts <= u32::MAX as usize - SIZE_AROUND
}

// Which text is the third, and that text where it has to be kept.
fn third_of<'a>(third: Option<&'a str>, plain: &str) -> (Third, &'a str)
    ensures { third_with result.0 plain.now result.1.now
        ≡ option_map (λ name. name.now) third.entry }
{
    match third {
        None => (Third::Absent, ""),
        Some(name) => {
            if name == plain {
                (Third::Plain, "")
            } else {
                (Third::Other, name)
            }
        }
    }
}

// Writes the number of the machine over another's.
fn set_machine(bytes: &mut [u8])
    requires { 8 ≤ length bytes.old }
    ensures { bytes.new ≡ set (set bytes.old 6 0x41) 7 0xA6 }
{
    bytes[6] = 0x41;
    bytes[7] = 0xA6;
}

// A size that holds three texts twice; it saturates.
fn texts_size(plain: &str, symbol: &str, other: &str) -> usize {
    let prefixes = ADDRESS_PREFIX.len() + AUXILIARY_PREFIX.len();
    plain
        .len()
        .saturating_mul(2)
        .saturating_add(symbol.len())
        .saturating_add(other.len())
        .saturating_add(prefixes)
}

// Appends a prefix and a name.
fn push_prefixed(texts: &mut String, prefix: &str, name: &str) -> Result<(), AllocError>
    ensures { OnOk result (string_bytes texts.new ≡ string_bytes texts.old
        ++ (prefix.now ++ name.now)) }
{
    texts.push_str(prefix)?;
    texts.push_str(name)?;
    Ok(())
}

impl KeptImport {
    // What is kept of the short import with this symbol, which is that name with a mark or without
    // one, and with this third text.
    pub(crate) fn new(
        alloc: Global,
        numbers: Numbers,
        plain: &str,
        symbol: &str,
        third: Option<&str>,
    ) -> Result<KeptImport, AllocError>
        ensures texts { IfOk result (λ kept. IsKeptWith plain.now symbol.now
            (option_map (λ name. name.now) third.entry) kept) }
        ensures ordinal { IfOk result (λ kept. kept.ordinal ≡ numbers.ordinal) }
        ensures import_type { IfOk result (λ kept. kept.import_type ≡ numbers.import_type) }
        ensures name_type { IfOk result (λ kept. kept.name_type ≡ numbers.name_type) }
    {
        let (third, other) = third_of(third, plain);
        let mut texts = String::with_capacity(alloc, texts_size(plain, symbol, other))?;
        push_prefixed(&mut texts, ADDRESS_PREFIX, plain)?;
        let address_end = texts.as_str().len();
        push_prefixed(&mut texts, AUXILIARY_PREFIX, plain)?;
        texts.push_str(symbol)?;
        let symbol_end = texts.as_str().len();
        texts.push_str(other)?;
        Ok(KeptImport {
            texts,
            address_end,
            symbol_end,
            ordinal: numbers.ordinal,
            import_type: numbers.import_type,
            name_type: numbers.name_type,
            third,
        })
    }

    // Where the symbol of the auxiliary address ends.
    fn auxiliary_end(&self) -> usize
        requires { (dll : List ℕ) × IsKept dll self.now }
        ensures { result ≡ auxiliary_end self.now }
    {
        self.address_end + (self.address_end + AUXILIARY_LONGER)
    }

    // The symbol of the address.
    fn address(&self) -> &str
        requires { (dll : List ℕ) × IsKept dll self.now }
        ensures { result.now ≡ kept_address self.now }
    {
        &self.texts[..self.address_end]
    }

    // The name without a mark.
    fn plain(&self) -> &str
        requires { (dll : List ℕ) × IsKept dll self.now }
        ensures { result.now ≡ kept_plain self.now }
    {
        &self.texts[ADDRESS_PREFIX.len()..self.address_end]
    }

    // The symbol of the auxiliary address.
    fn auxiliary(&self) -> &str
        requires { (dll : List ℕ) × IsKept dll self.now }
        ensures { result.now ≡ kept_auxiliary self.now }
    {
        &self.texts[self.address_end..self.auxiliary_end()]
    }

    // The symbol.
    fn symbol(&self) -> &str
        requires { (dll : List ℕ) × IsKept dll self.now }
        ensures { result.now ≡ kept_symbol self.now }
    {
        &self.texts[self.auxiliary_end()..self.symbol_end]
    }

    // The third text.
    fn third(&self) -> Option<&str>
        requires { (dll : List ℕ) × IsKept dll self.now }
        ensures { option_map (λ name. name.now) result ≡ kept_third self.now }
    {
        match self.third {
            Third::Absent => None,
            Third::Plain => Some(self.plain()),
            Third::Other => Some(&self.texts[self.symbol_end..]),
        }
    }

    // Whether the symbol is another than the name without a mark.
    fn is_marked(&self) -> bool
        requires { (dll : List ℕ) × IsKept dll self.now }
        ensures { result ≡ not (bytes_eq (kept_symbol self.now) (kept_plain self.now)) }
    {
        self.symbol() != self.plain()
    }

    // The number of its archive symbols.
    pub(crate) fn symbol_count(&self) -> usize
        requires { (dll : List ℕ) × IsKept dll self.now }
        ensures { result ≡ length (kept_symbols self.now) }
    {
        if self.import_type == IMPORT_DATA {
            1
        } else if self.is_marked() {
            4
        } else {
            3
        }
    }

    // The archive symbol at a number.
    pub(crate) fn archive_symbol(&self, number: usize) -> &str
        requires kept { (dll : List ℕ) × IsKept dll self.now }
        requires listed { number < length (kept_symbols self.now) }
        ensures { result.now ≡ get_or (kept_symbols self.now) number [] }
    {
        match number {
            0 => self.address(),
            1 => self.plain(),
            2 => self.auxiliary(),
            _ => self.symbol(),
        }
    }

    // The size of its bytes, for a DLL with a name of this length.
    pub(crate) fn size(&self, dll: &str) -> usize
        requires { IsKept dll.now self.now }
        ensures { result ≡ short_import_size (kept_import dll.now self.now) }
    {
        let texts = SIZE_AROUND + self.symbol().len() + dll.len();
        match self.third() {
            Some(name) => texts + name.len() + 1,
            None => texts,
        }
    }

    // What it says, but for the machine.
    fn said<'a>(&'a self, dll: &'a str) -> ShortImport<'a>
        requires { IsKept dll.now self.now }
        ensures says { short_import_view result ≡ record (kept_import dll.now self.now)
            { machine = 0xAA64 } }
        ensures import_type { result.import_type ≤ 3 }
        ensures name_type { result.name_type ≤ 7 }
    {
        ShortImport {
            machine: MachineType::ARM64,
            ordinal: self.ordinal,
            import_type: self.import_type,
            name_type: self.name_type,
            symbol: self.symbol(),
            dll,
            third: self.third(),
        }
    }

    // Its bytes.
    pub(crate) fn bytes(&self, alloc: Global, dll: &str) -> Result<Vec<u8>, AllocError>
        requires { IsKept dll.now self.now }
        ensures { IfOk result (λ bytes.
            bytes.items ≡ short_import_bytes (kept_import dll.now self.now)) }
    {
        match self.said(dll).to_bytes(alloc) {
            Ok(bytes) => Ok(for_arm64ec(bytes)),
            Err(Error::OutOfMemory(refused)) => Err(refused),
            Err(Error::Invalid(_)) => unreachable!(),
        }
    }
}

// The bytes of a short import, of the machine ARM64EC.
fn for_arm64ec(bytes: Vec<u8>) -> Vec<u8>
    requires { 8 ≤ length bytes.items }
    ensures { result.items ≡ set (set bytes.items 6 0x41) 7 0xA6 }
{
    let mut bytes = bytes;
    set_machine(&mut bytes);
    bytes
}
