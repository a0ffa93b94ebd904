//! What is imported.

/// What is asked of a DLL: a name, with a hint, or an ordinal.
#[derive(Clone, Copy)]
pub enum AskFound<'a> {
    Name(&'a [u8], u16),
    Ordinal(u16),
}

/// The symbols that an import declares.
#[derive(Drop)]
pub enum DeclaredFound<'a> {
    /// Those of a short import of another machine than ARM64EC: `__imp_` before this name, and the
    /// name itself unless it is data.
    OfName(&'a [u8], bool),
    /// Those of a short import of ARM64EC, in order.
    OfArm64ec(Vec<Vec<u8>>),
    /// Those of an object: of addresses, and of code.
    OfObject(Vec<&'a [u8]>, Vec<&'a [u8]>),
}

/// What an import is of.
#[derive(Clone, Copy, PartialEq, Eq)]
pub enum ImportKind {
    Code,
    Data,
    Const,
    /// Objects for GNU's linker do not tell CONSTANT from code.
    CodeOrConst,
    /// Code whose DLL is loaded at the first call.
    Delayed,
}

/// An import.
#[derive(Drop)]
pub struct ImportFound<'a> {
    pub dll: &'a [u8],
    pub declared: DeclaredFound<'a>,
    pub ask: AskFound<'a>,
    pub kind: ImportKind,
    pub machine: u16,
}
