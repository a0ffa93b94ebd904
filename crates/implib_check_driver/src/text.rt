//! The texts of members and names.

ghost use Rattle.std.specs.Prelude.{◌≡◌, IfSome, Some};
ghost use Rattle.implib_check_driver.specs.Json.{kind_word, site_view};
ghost use Rattle.implib_check_driver.specs.Listing.{doubt_of, is_listed, symbol_of};
ghost use Rattle.implib_check_driver.specs.Text.{asked_columns, asked_words, dll_column};
ghost use Rattle.implib_check_driver.specs.Text.{import_columns, is_plain, machine_text};
ghost use Rattle.implib_check_driver.specs.Text.{mark_column, path_of, place, said, shown};
ghost use Rattle.implib_check_driver.specs.Text.{shown_byte};
ghost use Rattle.implib_read.specs.ClassViews.{class_view, member_read_view};
ghost use Rattle.implib_read.specs.ImportViews.{ask_view};
ghost use Rattle.std.specs.Option.{option_map};

use crate::target::ARM64EC;
use implib::def::Position;
use implib_compare::compare::{is_other, is_unread};
use implib_read::{AskFound, ImportKind, MemberClass, MemberRead, linked_symbol};
use std::fmt;
use std::fmt::Write as _;

/// Bytes of a name, as they are shown: what is no visible ASCII, and a backslash, as `\x` and two
/// digits.
#[derive(Clone, Copy)]
pub struct Shown<'a>(pub &'a [u8]);

// Whether a byte is shown as it is.
fn is_plain(byte: u8) -> bool
    ensures { result ≡ is_plain byte }
{
    0x21 <= byte && byte <= 0x7E && byte != b'\\'
}

// The text of a name whose bytes are all shown as they are.
#[tactic(auto, unfolding(crate::specs::Text::shown))]
fn plain_text(name: &[u8]) -> Option<&str>
    ensures { IfSome result (λ text. text.now ≡ shown name.now) }
{
    for byte in name {
        if !is_plain(*byte) {
            return None;
        }
    }
    str::from_utf8(name).ok()
}

// A byte of a name.
#[derive(Clone, Copy)]
struct ShownByte(u8);

impl fmt::Display for ShownByte {
    ghost output = { λ b. Some (shown_byte b.0) };

    fn fmt<W: fmt::Write>(&self, f: &mut fmt::Formatter<W>) -> fmt::Result {
        let byte = self.0;
        if is_plain(byte) {
            return f.write_char(byte as char);
        }
        let high = byte / 16;
        let low = byte % 16;
        write!(f, "\\x{high:x}{low:x}")
    }
}

impl<'a> fmt::Display for Shown<'a> {
    ghost output = { λ s. Some (shown s.0.now) };

    #[tactic(auto, unfolding(crate::specs::Text::shown))]
    fn fmt<W: fmt::Write>(&self, f: &mut fmt::Formatter<W>) -> fmt::Result {
        if let Some(text) = plain_text(self.0) {
            return f.write_str(text);
        }
        for byte in self.0 {
            write!(f, "{}", ShownByte(*byte))?;
        }
        Ok(())
    }
}

/// The word of a kind.
pub fn kind_word(kind: ImportKind) -> &'static str
    ensures { result.now ≡ kind_word kind }
{
    match kind {
        ImportKind::Code => "code",
        ImportKind::Data => "data",
        ImportKind::Const => "const",
        ImportKind::CodeOrConst => "code-or-const",
        ImportKind::Delayed => "delayed",
    }
}

/// The symbol of a member that is an import or an alias.
pub fn symbol_of_member<'m, 'a: 'm>(member: &'m MemberRead<'a>) -> &'m [u8]
    ensures { result.now ≡ symbol_of (class_view member.now.class) }
{
    match &member.class {
        MemberClass::Import(import) => linked_symbol(&import.declared),
        MemberClass::Alias(alias) => alias.weak,
        _ => b"",
    }
}

// What a DLL is asked for, in columns.
#[derive(Clone, Copy)]
struct AskColumns<'a>(AskFound<'a>);

impl<'a> fmt::Display for AskColumns<'a> {
    ghost output = { λ a. Some (asked_columns (ask_view a.0)) };

    fn fmt<W: fmt::Write>(&self, f: &mut fmt::Formatter<W>) -> fmt::Result {
        match self.0 {
            AskFound::Name(name, hint) => write!(f, "name\t{}\t{hint}", Shown(name)),
            AskFound::Ordinal(ordinal) => write!(f, "ordinal\t\t{ordinal}"),
        }
    }
}

// The column that an import for ARM64EC has more.
fn mark_column(machine: u16) -> &'static str
    ensures { result.now ≡ mark_column machine }
{
    if machine == ARM64EC { "\tarm64ec" } else { "" }
}

/// The DLL of a member in a row of the list.
#[derive(Clone, Copy)]
pub struct DllColumn<'m, 'a>(pub &'m MemberRead<'a>);

impl<'m, 'a> fmt::Display for DllColumn<'m, 'a> {
    ghost output = { λ m. Some (dll_column (member_read_view m.0.now).class) };

    #[tactic(auto, unfolding(crate::specs::Text::dll_column))]
    fn fmt<W: fmt::Write>(&self, f: &mut fmt::Formatter<W>) -> fmt::Result {
        match &self.0.class {
            MemberClass::Import(import) => write!(f, "{}", Shown(import.dll)),
            _ => Ok(()),
        }
    }
}

/// The columns of a member behind its symbol.
#[derive(Clone, Copy)]
pub struct ImportColumns<'m, 'a>(pub &'m MemberRead<'a>);

impl<'m, 'a> fmt::Display for ImportColumns<'m, 'a> {
    ghost output = { λ m. Some (import_columns (member_read_view m.0.now).class) };

    #[tactic(auto, unfolding(crate::specs::Text::import_columns))]
    fn fmt<W: fmt::Write>(&self, f: &mut fmt::Formatter<W>) -> fmt::Result {
        match &self.0.class {
            MemberClass::Import(import) => {
                let kind = kind_word(import.kind);
                let asked = AskColumns(import.ask);
                let mark = mark_column(import.machine);
                write!(f, "{kind}\t{asked}{mark}")
            }
            MemberClass::Alias(alias) => write!(f, "alias\tsymbol\t{}\t", Shown(alias.target)),
            _ => Ok(()),
        }
    }
}

/// Whether a member is an import or an alias.
pub fn is_listed(class: &MemberClass) -> bool
    ensures { result ≡ is_listed (class_view class.now) }
{
    match class {
        MemberClass::Import(_) | MemberClass::Alias(_) => true,
        _ => false,
    }
}

// What a DLL is asked for, in words.
#[derive(Clone, Copy)]
struct AskWords<'a>(AskFound<'a>);

impl<'a> fmt::Display for AskWords<'a> {
    ghost output = { λ a. Some (asked_words (ask_view a.0)) };

    fn fmt<W: fmt::Write>(&self, f: &mut fmt::Formatter<W>) -> fmt::Result {
        match self.0 {
            AskFound::Name(name, _) => write!(f, "{}", Shown(name)),
            AskFound::Ordinal(ordinal) => write!(f, "ordinal {ordinal}"),
        }
    }
}

// The number of a machine.
#[derive(Clone, Copy)]
struct MachineNumber(u16);

impl fmt::Display for MachineNumber {
    ghost output = { λ m. Some (machine_text m.0) };

    #[tactic(auto, unfolding(crate::specs::Text::machine_text))]
    fn fmt<W: fmt::Write>(&self, f: &mut fmt::Formatter<W>) -> fmt::Result {
        let number = self.0;
        write!(f, "0x{number:04x}")
    }
}

/// What a member says, in words.
#[derive(Clone, Copy)]
pub struct Said<'m, 'a>(pub &'m MemberRead<'a>);

impl<'m, 'a> fmt::Display for Said<'m, 'a> {
    ghost output = { λ m. Some (said (member_read_view m.0.now).class) };

    #[tactic(auto, unfolding(crate::specs::Text::said))]
    fn fmt<W: fmt::Write>(&self, f: &mut fmt::Formatter<W>) -> fmt::Result {
        match &self.0.class {
            MemberClass::Import(import) => {
                let dll = Shown(import.dll);
                let asked = AskWords(import.ask);
                let kind = kind_word(import.kind);
                let machine = MachineNumber(import.machine);
                write!(f, "asks {dll} for {asked}, {kind}, machine {machine}")
            }
            MemberClass::Alias(alias) => write!(f, "is an alias of {}", Shown(alias.target)),
            _ => f.write_str("says nothing"),
        }
    }
}

/// Where an import or an alias is.
#[derive(Clone, Copy)]
pub enum Site<'p> {
    /// In the library of this file.
    Library(&'p str),
    /// In the definition of this file, and there, if the definition writes it.
    Definition(&'p str, Option<Position>),
}

impl<'p> Site<'p> {
    /// The file.
    pub fn path(self) -> &'p str
        ensures { result.now ≡ path_of (site_view self.entry) }
    {
        match self {
            Site::Library(path) | Site::Definition(path, _) => path,
        }
    }
}

/// Where a member is: the library, the member's name, and the offset of its header; or the
/// definition, and the place of the export in it.
#[derive(Clone, Copy)]
pub struct Place<'p, 'm, 'a>(pub Site<'p>, pub &'m MemberRead<'a>);

impl<'p, 'm, 'a> fmt::Display for Place<'p, 'm, 'a> {
    ghost output = { λ p. Some (place (site_view p.0) (member_read_view p.1.now)) };

    #[tactic(auto, unfolding(crate::specs::Text::place))]
    fn fmt<W: fmt::Write>(&self, f: &mut fmt::Formatter<W>) -> fmt::Result {
        match self.0 {
            Site::Library(path) => {
                let name = Shown(self.1.name);
                let offset = self.1.offset;
                write!(f, "{path}({name}@0x{offset:x})")
            }
            Site::Definition(path, position) => match position {
                Some(Position { line, column, .. }) => write!(f, "{path}:{line}:{column}"),
                None => f.write_str(path),
            },
        }
    }
}

/// What is wrong with a member that leaves a comparison open, or nothing.
pub fn doubt_of(class: &MemberClass, others: bool) -> Option<&'static str>
    ensures { option_map (λ text. text.now) result ≡ doubt_of others (class_view class.now) }
{
    if is_unread(class) {
        return match class {
            MemberClass::DelayImport => Some("part of delayed imports, and not followed"),
            _ => Some("not understood"),
        };
    }
    if others && is_other(class) {
        Some("another object")
    } else {
        None
    }
}

// What is wrong with a name for a definition, or nothing.
fn fault_of_name(name: &[u8]) -> Option<&'static str> {
    let Ok(text) = str::from_utf8(name) else {
        return Some("a name that is no UTF-8");
    };
    if name.contains(&b'"') {
        return Some("a name with a quote, which no definition says");
    }
    if text.is_empty() {
        return Some("an empty name, which no definition says");
    }
    if text.trim().len() < text.len() {
        return Some("a name with white space at an end, which no definition says");
    }
    None
}

/// What of a member no definition says, or nothing.
pub fn fault_of(class: &MemberClass) -> Option<&'static str> {
    let (first, second) = match class {
        MemberClass::Import(import) => match import.ask {
            AskFound::Name(name, _) => (linked_symbol(&import.declared), name),
            AskFound::Ordinal(_) => (linked_symbol(&import.declared), import.dll),
        },
        MemberClass::Alias(alias) => (alias.weak, alias.target),
        _ => return None,
    };
    match fault_of_name(first) {
        Some(fault) => Some(fault),
        None => fault_of_name(second),
    }
}
