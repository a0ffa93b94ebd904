//! The places of a text that a fault or a warning is at.

ghost use Rattle.implib.specs.Definition.{definition_view};
ghost use Rattle.implib.specs.Fault.{cause_of};
ghost use Rattle.implib.specs.Text.Parses.{Parses};
ghost use Rattle.implib.specs.Text.Position.{position_at};
ghost use Rattle.implib.specs.Text.RefusedAt.{IsRefusedAt};
ghost use Rattle.implib.specs.declared.machine.MachineType.TheVariants.{AMD64};
ghost use Rattle.implib_rules.specs.Places.{ArePlacesOf, IsAtFault, IsAtName, attribute_of};
ghost use Rattle.implib_rules.specs.Places.{export_lines, is_export, is_heading, placed, site_at};
ghost use Rattle.std.specs.Prelude.{◌≡◌, ◌≤◌, ◌++◌, ◌||◌, IfErr, IfOk, None};

use crate::warnings::words::Attribute;
use implib::def::lexer::{Token, TokenKind};
use implib::def::listener::{Listener, Role};
use implib::def::{ModuleDef, Position};
use implib::{Fault, MachineType, ParseError};
use std::alloc::{AllocError, Global};

/// What stands at a place of a text.
#[derive(Clone, Copy, Debug, PartialEq, Eq)]
pub enum Site {
    /// The name of an export.
    Export,
    /// An attribute of the export before it, as the first word of a line.
    Attribute(Attribute),
    /// `LIBRARY` or `NAME`, after another of these.
    Heading,
}

/// A place of a text.
#[derive(Clone, Copy, Debug, PartialEq, Eq)]
pub struct Place {
    /// What stands there.
    pub site: Site,
    /// Where it begins.
    pub position: Position,
}

// The attribute of a keyword.
fn attribute_of(kind: TokenKind) -> Option<Attribute>
    ensures { result ≡ attribute_of kind }
{
    match kind {
        TokenKind::KwData => Some(Attribute::Data),
        TokenKind::KwConstant => Some(Attribute::Constant),
        TokenKind::KwPrivate => Some(Attribute::Private),
        TokenKind::KwNoname => Some(Attribute::NoName),
        _ => None,
    }
}

// Whether a keyword begins a statement that names the DLL.
fn is_heading(kind: TokenKind) -> bool
    ensures { result ≡ is_heading kind }
{
    match kind {
        TokenKind::KwLibrary | TokenKind::KwName => true,
        _ => false,
    }
}

// Whether a heading is among tokens, once one more is read.
fn is_headed_after(before: bool, kind: TokenKind) -> bool
    ensures { result ≡ (before || is_heading kind) }
{
    before || is_heading(kind)
}

// What stands at a token in its role, if it is a place: after a heading or not, after a token in
// the line `before`, and in this line.
fn site_at(is_headed: bool, before: usize, line: usize, role: Role, kind: TokenKind) -> Option<Site>
    ensures { result ≡ site_at is_headed before line role kind }
{
    match role {
        Role::Name => Some(Site::Export),
        Role::Other => {
            if is_heading(kind) && is_headed {
                return Some(Site::Heading);
            }
            match attribute_of(kind) {
                Some(attribute) if before < line => Some(Site::Attribute(attribute)),
                _ => None,
            }
        }
    }
}

// The beginning of a text.
const BEGINNING: Position = Position {
    offset: 0,
    line: 1,
    column: 1,
};

// The position of an offset, from that of another.
fn advanced(text: &[u8], from: Position, offset: usize) -> Position
    requires { from ≡ position_at text.now from.offset }
    ensures { result ≡ position_at text.now offset }
{
    if offset < from.offset {
        return Position::in_bytes(text, offset);
    }
    from.advanced(text, offset)
}

// Appends a place, if there is one, or keeps that an allocation failed.
fn note_place(
    places: &mut Vec<Place>,
    failure: &mut Option<AllocError>,
    site: Option<Site>,
    position: Position,
)
    ensures { failure.new ≡ None → (failure.old ≡ None)
        × (places.new.items ≡ places.old.items ++ placed site position) }
{
    if let Some(site) = site {
        if let Err(refused) = places.push(Place { site, position }) {
            *failure = Some(AllocError::from(refused));
        }
    }
}

// The places of the tokens of a text that were heard.
#[derive(Drop)]
struct Places<'a> {
    text: &'a str,
    places: Vec<Place>,
    // Where the last token is.
    here: Position,
    // Whether `LIBRARY` or `NAME` was among the tokens.
    is_headed: bool,
    // The allocation that failed, if one did: then places are missing.
    failure: Option<AllocError>,
    ghost in_text: { here ≡ position_at text.now here.offset },
}

impl<'a> Listener for Places<'a> {
    ghost use Rattle.implib_rules.specs.Heard.{HasPlacesOf};

    ghost has_heard = { HasPlacesOf };

    fn hear(&mut self, role: Role, token: Token<'_>) {
        let here = advanced(self.text.as_bytes(), self.here, token.at);
        let site = site_at(self.is_headed, self.here.line, here.line, role, token.kind);
        note_place(&mut self.places, &mut self.failure, site, here);
        self.here = here;
        self.is_headed = is_headed_after(self.is_headed, token.kind);
    }
}

/// What a text means with its words as they are written, and its places, in its order, in one pass
/// over the text.
///
/// # Errors
///
/// A syntax error, with its position; a failed allocation.
pub fn read_with_places(alloc: Global, text: &str) -> Result<(ModuleDef, Vec<Place>), ParseError>
    ensures parses { IfOk result (λ read. Parses text.now AMD64 (definition_view read.0)) }
    ensures places { IfOk result (λ read. ArePlacesOf text.now read.1.items) }
    ensures refused { IfErr result (IsRefusedAt text.now) }
{
    let mut places = Places {
        text,
        places: Vec::new(alloc),
        here: BEGINNING,
        is_headed: false,
        failure: None,
    };
    let def = ModuleDef::parse_with(alloc, text, MachineType::AMD64, &mut places)?;
    let Places {
        places,
        failure,
        ..
    } = places;
    match failure {
        Some(refused) => Err(ParseError::OutOfMemory(refused)),
        None => Ok((def, places)),
    }
}

// Whether the name of an export is there.
fn is_export(site: Site) -> bool
    ensures { result ≡ is_export site }
{
    match site {
        Site::Export => true,
        Site::Attribute(_) | Site::Heading => false,
    }
}

/// The lines of exports among the places, in order.
///
/// # Errors
///
/// An allocation failed.
pub fn export_lines(alloc: Global, places: &[Place]) -> Result<Vec<usize>, AllocError>
    ensures { IfOk result (λ lines. lines.items ≡ export_lines places.now) }
{
    places
        .iter()
        .filter(|place| is_export(place.site))
        .map(|place| place.position.line)
        .collect(alloc)
}

// The offset of the name of the export at an index, if it was heard.
#[derive(Clone, Copy, Drop)]
struct NameOffset {
    // How many names are to come before it; at the start this is the index.
    left: usize,
    offset: Option<usize>,
}

impl Listener for NameOffset {
    ghost use Rattle.implib_rules.specs.Heard.{HasOffsetOf};

    ghost has_heard = { HasOffsetOf };

    fn hear(&mut self, role: Role, token: Token<'_>) {
        match role {
            Role::Name => {
                if self.offset.is_none() {
                    if self.left == 0 {
                        self.offset = Some(token.at);
                    } else {
                        self.left -= 1;
                    }
                }
            }
            Role::Other => {}
        }
    }
}

// Where the name of the export at an index begins.
fn position_of_name(alloc: Global, text: &str, index: usize) -> Result<Position, ParseError>
    ensures at { IfOk result (IsAtName text.now index) }
    ensures refused { IfErr result (IsRefusedAt text.now) }
{
    let mut name = NameOffset {
        left: index,
        offset: None,
    };
    let _read = ModuleDef::parse_with(alloc, text, MachineType::AMD64, &mut name)?;
    Ok(Position::at(text, name.offset.unwrap_or(0)))
}

/// Where a fault of members is: at the name of its export, or at the beginning of the text.
///
/// # Errors
///
/// An allocation failed while the text was read again for the name.
pub fn position_of_fault(alloc: Global, text: &str, fault: &Fault) -> Result<Position, ParseError>
    ensures at { IfOk result (IsAtFault text.now (cause_of fault.now)) }
    ensures refused { IfErr result (IsRefusedAt text.now) }
{
    match fault.export_index() {
        Some(index) => position_of_name(alloc, text, index),
        None => Ok(Position::at(text, 0)),
    }
}
