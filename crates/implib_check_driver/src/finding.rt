//! What is found in libraries, and the line of text that says it.

ghost use Rattle.std.specs.Prelude.{◌≡◌, Some};
ghost use Rattle.implib_check_driver.specs.Json.{address_word, export_view, fault_view, site_view};
ghost use Rattle.implib_check_driver.specs.Json.{finding_view, loss_words, piece_words, side_view};
ghost use Rattle.implib_check_driver.specs.Json.{stop_words, unmet_view};
ghost use Rattle.implib_check_driver.specs.Listing.{library_side, symbol_of};
ghost use Rattle.implib_check_driver.specs.Text.{asked_by_program, before_last, export_named};
ghost use Rattle.implib_check_driver.specs.Text.{export_row, fault_text, finding_text, forwarded};
ghost use Rattle.implib_check_driver.specs.Text.{forwards};
ghost use Rattle.implib_check_driver.specs.Text.{index_words, loss_said, name_columns, place, row};
ghost use Rattle.implib_check_driver.specs.Text.{stopped, target_columns, unmet_text};
ghost use Rattle.implib_dll.specs.Views.{ask_view, target_view};
ghost use Rattle.implib_read.specs.ClassViews.{member_read_view};
ghost use Rattle.std.specs.Option.{option_map};

use crate::positions::Positions;
use crate::target::ARM64EC;
use crate::text::{DllColumn, ImportColumns, Place, Said, Shown, Site, symbol_of_member};
use implib_compare::dll_check::{Loss, Stop, split_last};
use implib_compare::working::Piece;
use implib_dll::{AddressKind, Ask, Target};
use implib_read::{CutApart, DeclaredFound, IndexEntry, MemberClass, MemberRead};
use std::fmt;

/// What members are from.
#[derive(Clone, Copy)]
pub enum Source<'p> {
    /// The file of a library.
    Library(&'p str),
    /// The file of a definition, and where its exports are.
    Definition(&'p str, &'p Positions),
    /// The same of the two definitions of a library for ARM64EC, of which the second has the
    /// exports of ARM64.
    Definitions(Written<'p>, Written<'p>),
}

/// The file of a definition, and where its exports are.
#[derive(Clone, Copy)]
pub struct Written<'p> {
    pub path: &'p str,
    pub positions: &'p Positions,
}

// Whether a member of a library for ARM64EC is of its native definition.
fn is_native(class: &MemberClass) -> bool {
    match class {
        MemberClass::Import(import) => import.machine != ARM64EC,
        MemberClass::Alias(_) => true,
        _ => false,
    }
}

// The last symbol of a short import for ARM64EC: its first text, if that has a mark.
fn marked_symbol<'m>(class: &'m MemberClass<'_>) -> Option<&'m [u8]> {
    let MemberClass::Import(import) = class else {
        return None;
    };
    match &import.declared {
        DeclaredFound::OfArm64ec(symbols) => match symbols.last() {
            Some(symbol) => Some(symbol.as_slice()),
            None => None,
        },
        _ => None,
    }
}

impl<'p> Written<'p> {
    // The place of an export for ARM64EC, whose symbol the definition may write with its mark.
    fn site(self, symbol: &[u8], class: &MemberClass) -> Site<'p> {
        let position = match self.positions.at(symbol) {
            Some(position) => Some(position),
            None => match marked_symbol(class) {
                Some(marked) => self.positions.at(marked),
                None => None,
            },
        };
        Site::Definition(self.path, position)
    }
}

// A member that is at this place.
fn side_at<'p, 'm, 'a>(site: Site<'p>, member: &'m MemberRead<'a>) -> Side<'p, 'm, 'a>
    ensures { side_view result ≡ record {
      site = site_view site.entry;
      symbol = symbol_of (member_read_view member.now).class;
      member = member_read_view member.now;
    } }
{
    Side {
        site,
        symbol: symbol_of_member(member),
        member,
    }
}

/// A member of the library of a file.
pub fn library_side<'p, 'm, 'a>(path: &'p str, member: &'m MemberRead<'a>) -> Side<'p, 'm, 'a>
    ensures { side_view result ≡ library_side path.now (member_read_view member.now) }
{
    side_at(Site::Library(path), member)
}

// Where an export for ARM64EC is, in one of two definitions.
fn site_of_two<'p>(own: Written<'p>, native: Written<'p>, member: &MemberRead) -> Site<'p> {
    let written = if is_native(&member.class) {
        native
    } else {
        own
    };
    written.site(symbol_of_member(member), &member.class)
}

impl<'p> Source<'p> {
    /// The file.
    pub fn file(self) -> Site<'p> {
        match self {
            Source::Library(path) => Site::Library(path),
            Source::Definition(path, _) => Site::Definition(path, None),
            Source::Definitions(own, _) => Site::Definition(own.path, None),
        }
    }

    /// An import or an alias that is from here.
    pub fn side<'m, 'a>(self, member: &'m MemberRead<'a>) -> Side<'p, 'm, 'a> {
        match self {
            Source::Library(path) => library_side(path, member),
            Source::Definition(path, positions) => {
                let position = positions.at(symbol_of_member(member));
                side_at(Site::Definition(path, position), member)
            }
            Source::Definitions(own, native) => side_at(site_of_two(own, native, member), member),
        }
    }
}

/// An import or an alias, and where it is.
#[derive(Clone, Copy)]
pub struct Side<'p, 'm, 'a> {
    pub site: Site<'p>,
    pub symbol: &'m [u8],
    pub member: &'m MemberRead<'a>,
}

/// Why a library does not work, or why that is not decided. An index is named by its number: 1, 2,
/// or 3, which is the EC index.
#[derive(Clone, Copy)]
pub enum Fault<'e, 'a> {
    NoIndex,
    /// The counts of an index lead out of it.
    UnreadableIndex(u8),
    /// An entry of an index does not lead to the first member that declares its symbol.
    MisleadingEntry(u8, &'e IndexEntry<'a>),
    /// Linkers ask for different names by a short import.
    CutApart(&'e CutApart<'a>),
    /// A part of import tables is not there, or twice.
    NotOnePart(Piece),
    /// The imports are of two or more DLLs.
    SeveralDlls,
}

/// An export of a DLL.
#[derive(Clone, Copy)]
pub struct Export<'a> {
    pub ordinal: u32,
    pub target: Target<'a>,
    /// Its name, if it has one, and the position of that in the name table.
    pub name: Option<(usize, &'a [u8])>,
}

/// Why a program does not find what it imports from a DLL.
#[derive(Clone, Copy)]
pub enum Unmet<'q, 'a> {
    /// No folder has the DLL.
    NoFile,
    /// The DLL of this file exports nothing.
    NoExports(&'q str),
    /// This file is no DLL that can be read.
    Unread(&'q str),
    /// In the DLL of this file, this is lost, or all of it.
    Lost(&'q str, Loss, Option<Ask<'a>>),
}

/// What is found.
#[derive(Clone, Copy)]
pub enum Finding<'p, 'q, 'm, 'a> {
    /// An import or an alias of a library.
    Listed(Side<'p, 'm, 'a>),
    /// What two libraries have of one symbol, which differs.
    Different(Side<'p, 'm, 'a>, Side<'q, 'm, 'a>),
    /// What one library has of a symbol, and the other does not have.
    Missing(Side<'p, 'm, 'a>, Site<'q>),
    /// A symbol, what the first library in a link has of it, and what a later one has, which
    /// clashes.
    Clash(&'q [u8], Side<'p, 'm, 'a>, Side<'p, 'm, 'a>),
    /// The file of a library, and why that does not work.
    Fault(&'p str, Fault<'m, 'a>),
    /// An import that is lost in the DLL of this file.
    Lost(Side<'p, 'm, 'a>, &'q str, Loss),
    /// An import that the DLL of this file forwards to nothing: the last forwarder, and why.
    Stopped(Side<'p, 'm, 'a>, &'q str, &'q [u8], Stop),
    /// How many imports from here a loader searches for.
    Searched(Site<'p>, usize),
    /// An export of the DLL of this file that no import asks for.
    Unasked(&'p str, Export<'a>),
    /// An export of the DLL of this file.
    Exported(&'p str, Export<'a>),
    /// The file of a program, a DLL that it imports from, and what it does not find there.
    Unmet(&'p str, &'a [u8], Unmet<'q, 'a>),
}

/// The words for a part of import tables.
pub fn piece_words(piece: Piece) -> &'static str
    ensures { result.now ≡ piece_words piece }
{
    match piece {
        Piece::OfDescriptor => "import descriptor",
        Piece::OfNullDescriptor => "null descriptor",
        Piece::OfNullThunk => "null thunk",
        Piece::OfHead => "head",
        Piece::OfTail => "tail",
    }
}

/// Why an import is lost.
pub fn loss_words(loss: Loss) -> &'static str
    ensures { result.now ≡ loss_words loss }
{
    match loss {
        Loss::OtherDll => "another DLL",
        Loss::OtherMachine => "another machine",
        Loss::NotFound => "not exported",
        Loss::DataAsFunction => "data as a function",
    }
}

/// The word of what is at an address.
pub fn address_word(kind: AddressKind) -> &'static str
    ensures { result.now ≡ address_word kind }
{
    match kind {
        AddressKind::Code => "code",
        AddressKind::Data => "data",
        AddressKind::Outside => "outside",
    }
}

// What a DLL says against an import that is lost in it.
fn loss_said(loss: Loss) -> &'static str
    ensures { result.now ≡ loss_said loss }
{
    match loss {
        Loss::OtherDll => "is another DLL",
        Loss::OtherMachine => "is for another machine",
        Loss::NotFound => "does not export that",
        Loss::DataAsFunction => "has data there, and a function is imported",
    }
}

/// Why a forwarder leads to nothing.
pub fn stop_words(stop: Stop) -> &'static str
    ensures { result.now ≡ stop_words stop }
{
    match stop {
        Stop::NoFullStop => "no DLL named",
        Stop::NoFile => "no file",
        Stop::Refused => "not read",
        Stop::NoExports => "no export",
        Stop::OtherMachine => "another machine",
        Stop::NotExported => "not exported",
        Stop::DataAsFunction => "data as a function",
        Stop::Endless => "circle",
    }
}

// What a forwarder has before its last full stop.
fn before_last(text: &[u8]) -> &[u8]
    ensures { result.now ≡ before_last text.now }
{
    match split_last(text) {
        Some((front, _)) => front,
        None => b"",
    }
}

// The file of the DLL that a forwarder names: without an ending it has `.dll`.
#[derive(Clone, Copy)]
struct Forwarded<'q>(&'q [u8]);

impl<'q> fmt::Display for Forwarded<'q> {
    ghost output = { λ d. Some (forwarded d.0.now) };

    #[tactic(auto, unfolding(crate::specs::Text::forwarded))]
    fn fmt<W: fmt::Write>(&self, f: &mut fmt::Formatter<W>) -> fmt::Result {
        let name = before_last(self.0);
        let ending = if name.contains(&b'.') { "" } else { ".dll" };
        write!(f, "{}{ending}", Shown(name))
    }
}

// What is said against the last forwarder of an import.
#[derive(Clone, Copy)]
struct Stopped<'q>(&'q [u8], Stop);

impl<'q> fmt::Display for Stopped<'q> {
    ghost output = { λ s. Some (stopped s.0.now s.1) };

    #[tactic(auto, unfolding(crate::specs::Text::stopped))]
    fn fmt<W: fmt::Write>(&self, f: &mut fmt::Formatter<W>) -> fmt::Result {
        let dll = Forwarded(self.0);
        match self.1 {
            Stop::NoFullStop => f.write_str("which names no DLL"),
            Stop::NoFile => write!(f, "and no folder has {dll}"),
            Stop::Refused => write!(f, "and {dll} is no DLL that can be read"),
            Stop::NoExports => write!(f, "and {dll} exports nothing"),
            Stop::OtherMachine => write!(f, "and {dll} is for another machine"),
            Stop::NotExported => write!(f, "and {dll} does not export that"),
            Stop::DataAsFunction => {
                write!(f, "and {dll} has data there, and a function is imported")
            }
            Stop::Endless => f.write_str("in a circle, or through 32 others"),
        }
    }
}

// The last forwarder of an import, and what is said against it.
#[derive(Clone, Copy)]
struct Forwards<'q>(&'q [u8], Stop);

impl<'q> fmt::Display for Forwards<'q> {
    ghost output = { λ s. Some (forwards s.0.now s.1) };

    #[tactic(auto, unfolding(crate::specs::Text::forwards))]
    fn fmt<W: fmt::Write>(&self, f: &mut fmt::Formatter<W>) -> fmt::Result {
        let last = Shown(self.0);
        let why = Stopped(self.0, self.1);
        write!(f, "{last}, {why}")
    }
}

// The words for an index.
fn index_words(number: u8) -> &'static str
    ensures { result.now ≡ index_words number }
{
    if number == 1 {
        "the index"
    } else if number == 2 {
        "the second index"
    } else {
        "the EC index"
    }
}

// What is asked for, in words.
#[derive(Clone, Copy)]
struct Asked<'a>(Ask<'a>);

impl<'a> fmt::Display for Asked<'a> {
    ghost output = { λ a. Some (asked_by_program (ask_view a.0)) };

    fn fmt<W: fmt::Write>(&self, f: &mut fmt::Formatter<W>) -> fmt::Result {
        match self.0 {
            Ask::Name { text, .. } => write!(f, "{}", Shown(text)),
            Ask::Ordinal(ordinal) => write!(f, "ordinal {ordinal}"),
        }
    }
}

impl<'q, 'a> fmt::Display for Unmet<'q, 'a> {
    ghost output = { λ u. Some (unmet_text (unmet_view u)) };

    #[tactic(auto, unfolding(crate::specs::Text::unmet_text))]
    fn fmt<W: fmt::Write>(&self, f: &mut fmt::Formatter<W>) -> fmt::Result {
        match self {
            Unmet::NoFile => f.write_str("no folder has it"),
            Unmet::NoExports(path) => write!(f, "{path} exports nothing"),
            Unmet::Unread(path) => write!(f, "{path} is no DLL that can be read"),
            Unmet::Lost(path, loss, ask) => {
                let said = loss_said(*loss);
                match ask {
                    Some(ask) => write!(f, "asks for {}; {path} {said}", Asked(*ask)),
                    None => write!(f, "{path} {said}"),
                }
            }
        }
    }
}

impl<'p, 'm, 'a> fmt::Display for Side<'p, 'm, 'a> {
    ghost output = { λ s. Some (place (side_view s).site (side_view s).member) };

    fn fmt<W: fmt::Write>(&self, f: &mut fmt::Formatter<W>) -> fmt::Result {
        write!(f, "{}", Place(self.site, self.member))
    }
}

// A row of the list.
#[derive(Clone, Copy)]
struct Row<'s, 'p, 'm, 'a>(&'s Side<'p, 'm, 'a>);

impl<'s, 'p, 'm, 'a> fmt::Display for Row<'s, 'p, 'm, 'a> {
    ghost output = { λ r. Some (row (side_view r.0.now)) };

    #[tactic(auto, unfolding(crate::specs::Text::row))]
    fn fmt<W: fmt::Write>(&self, f: &mut fmt::Formatter<W>) -> fmt::Result {
        let offset = self.0.member.offset;
        let dll = DllColumn(self.0.member);
        let symbol = Shown(self.0.symbol);
        let rest = ImportColumns(self.0.member);
        write!(f, "0x{offset:x}\t{dll}\t{symbol}\t{rest}")
    }
}

impl<'e, 'a> fmt::Display for Fault<'e, 'a> {
    ghost output = { λ x. Some (fault_text (fault_view x)) };

    #[tactic(auto, unfolding(crate::specs::Text::fault_text))]
    fn fmt<W: fmt::Write>(&self, f: &mut fmt::Formatter<W>) -> fmt::Result {
        match self {
            Fault::NoIndex => f.write_str("no index"),
            Fault::UnreadableIndex(number) => {
                let index = index_words(*number);
                write!(f, "{index} cannot be read")
            }
            Fault::MisleadingEntry(number, entry) => {
                let index = index_words(*number);
                let symbol = Shown(entry.symbol);
                let place = entry.place;
                write!(
                    f,
                    "{index} leads {symbol} to 0x{place:x}, not to the first member that declares it"
                )
            }
            Fault::CutApart(apart) => {
                let offset = apart.member.offset;
                let symbol = Shown(apart.cut.symbol);
                let by_lld = Shown(apart.cut.by_lld);
                let by_gnu = Shown(apart.cut.by_gnu);
                write!(
                    f,
                    "{symbol}, at 0x{offset:x}: lld asks for {by_lld}, GNU ld for {by_gnu}"
                )
            }
            Fault::NotOnePart(piece) => {
                let part = piece_words(*piece);
                write!(f, "no {part}, or two or more")
            }
            Fault::SeveralDlls => {
                f.write_str("imports from two or more DLLs, whose tables are not told apart")
            }
        }
    }
}

// Where an export leads, in two columns.
#[derive(Clone, Copy)]
struct TargetColumns<'a>(Target<'a>);

impl<'a> fmt::Display for TargetColumns<'a> {
    ghost output = { λ t. Some (target_columns (target_view t.0)) };

    #[tactic(auto, unfolding(crate::specs::Text::target_columns))]
    fn fmt<W: fmt::Write>(&self, f: &mut fmt::Formatter<W>) -> fmt::Result {
        match self.0 {
            Target::Empty => f.write_str("\t"),
            Target::Address(address, kind) => {
                let word = address_word(kind);
                write!(f, "{word}\t0x{address:x}")
            }
            Target::Forwarder(text) => write!(f, "forwarder\t{}", Shown(text)),
        }
    }
}

// The position of a name, and the name.
#[derive(Clone, Copy)]
struct NameColumns<'a>(Option<(usize, &'a [u8])>);

impl<'a> fmt::Display for NameColumns<'a> {
    ghost output = { λ n. Some (name_columns (option_map (λ found. (found.0, found.1.now)) n.0)) };

    #[tactic(auto, unfolding(crate::specs::Text::name_columns))]
    fn fmt<W: fmt::Write>(&self, f: &mut fmt::Formatter<W>) -> fmt::Result {
        match self.0 {
            Some((position, name)) => write!(f, "{position}\t{}", Shown(name)),
            None => f.write_str("\t"),
        }
    }
}

impl<'a> fmt::Display for Export<'a> {
    ghost output = { λ e. Some (export_row (export_view e)) };

    #[tactic(auto, unfolding(crate::specs::Text::export_row))]
    fn fmt<W: fmt::Write>(&self, f: &mut fmt::Formatter<W>) -> fmt::Result {
        let ordinal = self.ordinal;
        let target = TargetColumns(self.target);
        let name = NameColumns(self.name);
        write!(f, "{ordinal}\t{target}\t{name}")
    }
}

// An export, as a message names it.
#[derive(Clone, Copy)]
struct Named<'e, 'a>(&'e Export<'a>);

impl<'e, 'a> fmt::Display for Named<'e, 'a> {
    ghost output = { λ e. Some (export_named (export_view e.0.now)) };

    #[tactic(auto, unfolding(crate::specs::Text::export_named))]
    fn fmt<W: fmt::Write>(&self, f: &mut fmt::Formatter<W>) -> fmt::Result {
        let ordinal = self.0.ordinal;
        match self.0.name {
            Some((_, name)) => write!(f, "{}, ordinal {ordinal}", Shown(name)),
            None => write!(f, "ordinal {ordinal}"),
        }
    }
}

impl<'p, 'q, 'm, 'a> fmt::Display for Finding<'p, 'q, 'm, 'a> {
    ghost output = { λ x. Some (finding_text (finding_view x)) };

    #[tactic(auto, unfolding(crate::specs::Text::finding_text))]
    fn fmt<W: fmt::Write>(&self, f: &mut fmt::Formatter<W>) -> fmt::Result {
        match self {
            Finding::Listed(side) => write!(f, "{}", Row(side)),
            Finding::Different(here, there) => {
                let symbol = Shown(here.symbol);
                let said = Said(here.member);
                let other = Said(there.member);
                write!(f, "{here}: {symbol}: {said}; {there}: {other}")
            }
            Finding::Missing(here, there) => {
                let symbol = Shown(here.symbol);
                let said = Said(here.member);
                let path = there.path();
                write!(f, "{here}: {symbol}: {said}; not so in {path}")
            }
            Finding::Clash(symbol, first, later) => {
                let symbol = Shown(symbol);
                let said = Said(first.member);
                let other = Said(later.member);
                write!(f, "{symbol}: {first}: {said}; {later}: {other}")
            }
            Finding::Fault(path, fault) => write!(f, "{path}: {fault}"),
            Finding::Lost(side, dll, loss) => {
                let symbol = Shown(side.symbol);
                let said = Said(side.member);
                let lost = loss_said(*loss);
                write!(f, "{side}: {symbol}: {said}; {dll} {lost}")
            }
            Finding::Stopped(side, dll, text, stop) => {
                let symbol = Shown(side.symbol);
                let said = Said(side.member);
                let end = Forwards(text, *stop);
                write!(f, "{side}: {symbol}: {said}; {dll} forwards that to {end}")
            }
            Finding::Searched(site, count) => {
                let path = site.path();
                write!(
                    f,
                    "{path}: a loader searches for {count}, which do not stand at their hints"
                )
            }
            Finding::Unasked(path, export) => {
                let named = Named(export);
                write!(f, "{path}: no import asks for {named}")
            }
            Finding::Exported(_, export) => write!(f, "{export}"),
            Finding::Unmet(program, dll, unmet) => {
                let name = Shown(dll);
                write!(f, "{program}: imports from {name}: {unmet}")
            }
        }
    }
}
