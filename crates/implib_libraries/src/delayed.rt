//! The library of delayed imports of a definition's text, for GNU's linker.
//!
//! `implib_rules` has the definition that a text states under options, and `implib_delay` makes the
//! members: [`delayed_members_for`]. [`delayed_archive`] is their library.

ghost use Rattle.implib_archive.specs.declared.kind.Kind.TheVariants as kind;
ghost use Rattle.implib_archive.specs.Refusal.{refusal_of};
ghost use Rattle.implib.specs.Definition.{definition_view, export_view};
ghost use Rattle.implib_libraries.specs.Delayed.{DelayedMembersFor, LeavesOut};
ghost use Rattle.implib_libraries.specs.Delayed.{IsRefusalOfDelayedArchive};
ghost use Rattle.implib_libraries.specs.Delayed.{IsRefusalOfDelayedMembers, IsRefusalPlaced};
ghost use Rattle.implib_libraries.specs.Delayed.{delayed_options, is_left_out, leaving_out};
ghost use Rattle.implib_libraries.specs.Delayed.{position_of_undelayed, symbol_left_out};
ghost use Rattle.implib_libraries.specs.Delayed.{without_data};
ghost use Rattle.implib_delay.specs.Refusal.{delay_cause};
ghost use Rattle.implib_rules.specs.Options.{library_options_view};
ghost use Rattle.std.specs.List.{flat_map};
ghost use Rattle.std.specs.Prelude.{◌≡◌, IfErr, IfOk, None, OnOk, map};
ghost use Rattle.std.specs.String.{string_bytes};

use implib::Fault;
use implib::def::{ModuleDef, Position, ShortExport};
use implib_archive::{Archive, Kind};
use implib_delay::{DelayError, DelayFault, DelayedMembers, delayed_members};
use implib_rules::library::{Refusal, definition_for};
use implib_rules::linked::Naming;
use implib_rules::options::LibraryOptions;
use implib_rules::places::position_of_fault;
use implib_rules::text::DefinitionText;
use std::alloc::{AllocError, Global};

/// Why the imports of a definition cannot be delayed, where an ordinary library could be made.
#[derive(Clone, Copy, Debug)]
pub enum Undelayed {
    /// The export that begins here is data or a constant.
    Data(Position),
    /// The export that begins here is a weak name for another.
    Alias(Position),
    /// The machine has no code for delayed imports.
    Machine,
}

impl Undelayed {
    /// Where that is, if it is not of the whole definition.
    pub fn position(&self) -> Option<Position>
        ensures { result ≡ position_of_undelayed self.now }
    {
        match self {
            Undelayed::Data(position) | Undelayed::Alias(position) => Some(*position),
            Undelayed::Machine => None,
        }
    }
}

/// Why a definition has no library of delayed imports.
#[derive(Debug, Drop)]
pub enum DelayRefusal {
    /// An ordinary library is refused so too.
    Refused(Refusal),
    /// Its imports cannot be delayed.
    Undelayed(Undelayed),
}

impl From<AllocError> for DelayRefusal {
    ghost use Rattle.implib_libraries.specs.declared.delayed.DelayRefusal.TheVariants.{Refused};
    ghost use Rattle.implib_rules.specs.declared.library.Refusal.TheVariants.{OutOfMemory};
    ghost use Rattle.std.specs.Prelude.{◌≡◌};

    ghost from_gives = { λ _ error. error ≡ Refused OutOfMemory };

    fn from(_refused: AllocError) -> DelayRefusal {
        DelayRefusal::Refused(Refusal::OutOfMemory)
    }
}

impl From<Refusal> for DelayRefusal {
    ghost use Rattle.implib_libraries.specs.declared.delayed.DelayRefusal.TheVariants.{Refused};
    ghost use Rattle.std.specs.Prelude.{◌≡◌};

    ghost from_gives = { λ refusal error. error ≡ Refused refusal };

    fn from(refusal: Refusal) -> DelayRefusal {
        DelayRefusal::Refused(refusal)
    }
}

// The options under which a delayed library is made: its names are asked for as under `-k`.
fn delayed_options<'a>(options: &LibraryOptions<'a>) -> LibraryOptions<'a>
    ensures { library_options_view result ≡ delayed_options (library_options_view options.now) }
{
    LibraryOptions {
        naming: Naming {
            kills_at: true,
            ..options.naming
        },
        ..*options
    }
}

// A refusal of an export, or of the whole definition, with its place in the text.
fn refusal_placed(alloc: Global, text: &str, fault: DelayFault) -> DelayRefusal
    ensures { IsRefusalPlaced text.now (delay_cause fault) result }
{
    // An export's place is asked for by a fault of it, whichever.
    let at = match &fault {
        DelayFault::Machine => return DelayRefusal::Undelayed(Undelayed::Machine),
        DelayFault::Data(index) | DelayFault::Alias(index) => {
            position_of_fault(alloc, text, &Fault::EmptyName(*index))
        }
        DelayFault::Names(names) => position_of_fault(alloc, text, names),
    };
    let Ok(position) = at else {
        return DelayRefusal::Refused(Refusal::OutOfMemory);
    };
    match fault {
        DelayFault::Machine => DelayRefusal::Undelayed(Undelayed::Machine),
        DelayFault::Data(_) => DelayRefusal::Undelayed(Undelayed::Data(position)),
        DelayFault::Alias(_) => DelayRefusal::Undelayed(Undelayed::Alias(position)),
        DelayFault::Names(names) => DelayRefusal::Refused(Refusal::Members(names, position)),
    }
}

/// The members of a library of delayed imports, and the symbols of the public exports that have none
/// in it.
#[derive(Drop)]
pub struct Delayed {
    pub members: DelayedMembers,
    pub left_out: Vec<String>,
}

// Whether an export is left out: it is public, and no function that a first call could load.
fn is_left_out(export: &ShortExport) -> bool
    ensures { result ≡ is_left_out (export_view export.now) }
{
    !export.private && (export.is_data || export.constant)
}

// The symbols of the exports that are left out.
fn symbols_left_out(alloc: Global, exports: &[ShortExport]) -> Result<Vec<String>, AllocError>
    ensures { IfOk result (λ symbols. map string_bytes symbols.items
        ≡ flat_map symbol_left_out (map export_view exports.now)) }
{
    let mut symbols = Vec::new(alloc);
    for export in exports {
        if is_left_out(export) {
            symbols.push(export.name.clone()?)?;
        }
    }
    Ok(symbols)
}

// Makes an export private that is left out.
fn leave_out(export: &mut ShortExport)
    ensures { export_view export.new ≡ leaving_out (export_view export.old) }
{
    export.private = export.private || (export.is_data || export.constant);
}

// Makes the exports private that are left out.
fn leave_out_data(exports: &mut Vec<ShortExport>)
    ensures { map export_view exports.new.items
        ≡ map leaving_out (map export_view exports.old.items) }
{
    for export in exports.iter_mut() {
        leave_out(export);
    }
}

// A definition without its data and constants.
fn without_data(mut def: ModuleDef) -> ModuleDef
    ensures { definition_view result ≡ without_data (definition_view def) }
{
    leave_out_data(&mut def.exports);
    def
}

/// The members of the library of delayed imports of a definition, for the machine and under the
/// name of the options. Names are asked for as under `-k`, as by GNU dlltool. Data and constants
/// are left out, since nothing is called by which they could be loaded: a program that uses one
/// does not link with this library alone.
///
/// # Errors
///
/// `Refused`: bytes that are not UTF-8; what [`definition_for`] refuses; an export that an ordinary
/// library for GNU's linker refuses too. `Undelayed`: a machine without code for delayed imports.
pub fn delayed_members_for(
    alloc: Global,
    bytes: &[u8],
    options: &LibraryOptions<'_>,
) -> Result<Delayed, DelayRefusal>
    ensures made { IfOk result (λ delayed.
        DelayedMembersFor bytes.now (library_options_view options.now) delayed.members) }
    ensures left { IfOk result (λ delayed.
        LeavesOut bytes.now (library_options_view options.now)
        (map string_bytes delayed.left_out.items)) }
    ensures refused { IfErr result
        (IsRefusalOfDelayedMembers bytes.now (library_options_view options.now)) }
{
    let read = DefinitionText::new(alloc, bytes)?;
    let text = match read.text() {
        Ok(text) => text,
        Err(position) => return Err(DelayRefusal::Refused(Refusal::NotUtf8(position))),
    };
    let def = definition_for(alloc, text, &delayed_options(options))?;
    let left_out = symbols_left_out(alloc, def.exports.as_slice())?;
    match delayed_members(without_data(def), options.machine) {
        Ok(members) => Ok(Delayed { members, left_out }),
        Err(DelayError::Invalid(fault)) => Err(refusal_placed(alloc, text, fault)),
        Err(DelayError::OutOfMemory(_)) => Err(DelayRefusal::Refused(Refusal::OutOfMemory)),
    }
}

/// The archive of delayed imports: of GNU's kind.
///
/// # Errors
///
/// `Archive`: what such an archive cannot carry. `OutOfMemory`.
pub fn delayed_archive(
    alloc: Global,
    members: &DelayedMembers,
) -> Result<Archive<'_, &DelayedMembers>, Refusal>
    ensures holds { IfOk result
        (λ archive. archive ≡ record { kind = kind.Gnu; members = members.now }) }
    ensures accepted { OnOk result (refusal_of kind.Gnu members.now ≡ None) }
    ensures refused { IfErr result (IsRefusalOfDelayedArchive members.now) }
{
    Ok(Archive::new(alloc, members, Kind::Gnu)?)
}
