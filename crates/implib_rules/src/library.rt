//! From the bytes of a definition to those of its import library.

ghost use Rattle.implib.specs.Definition.{definition_view};
ghost use Rattle.implib.specs.Fault.{IfInvalid};
ghost use Rattle.implib.specs.Members.Members.{refusal};
ghost use Rattle.implib.specs.Members.OlderSymbols.{older_refusal};
ghost use Rattle.implib.specs.Renaming.{renamed};
ghost use Rattle.implib.specs.declared.flavor.Flavor.TheVariants.{Gnu, Msvc};
ghost use Rattle.implib_archive.specs.Refusal.{refusal_of};
ghost use Rattle.implib_rules.specs.ExportAs.{AreMadeFor, IsExportAsLibrary};
ghost use Rattle.implib_rules.specs.ExportAs.{export_as_refusal, refusal_made};
ghost use Rattle.implib_rules.specs.Linked.{naming_view};
ghost use Rattle.implib_rules.specs.Library.{BreaksOff, CountsMembers, DefinitionFor};
ghost use Rattle.implib_rules.specs.Library.{HasMembers, HasNoMembers, IsRefusalOfArchive};
ghost use Rattle.implib_rules.specs.Library.{IsRefusalOfBytes, IsRefusalOfMembers};
ghost use Rattle.implib_rules.specs.Library.{IfBrokenOff, IfRefused, IsRefusalOfText};
ghost use Rattle.implib_rules.specs.Library.{MembersFor, WritesLibrary};
ghost use Rattle.implib_rules.specs.Library.{definition_for, is_out_of_memory, kind_for, kind_of};
ghost use Rattle.implib_rules.specs.Names.{lacks_name};
ghost use Rattle.implib_rules.specs.Older.{AreMadeWith, AreOlderMade, IsRefusalOfAsked};
ghost use Rattle.implib_rules.specs.Older.{MembersAsked, has_older, refusal_with};
ghost use Rattle.implib_rules.specs.Order.{AreInOrder};
ghost use Rattle.implib_rules.specs.Forms.{open_quote};
ghost use Rattle.implib_rules.specs.Options.{LibraryOptionsView, library_options_view};
ghost use Rattle.std.specs.Prelude.{◌≡◌, ◌⊎◌, IfErr, IfOk, MatchOption, None, OnOk, Some, false};
ghost use Rattle.std.specs.Prelude.{true};

use crate::additions::extend_exports;
use crate::aliases::link_with_targets;
use crate::export_as::{keep_exports, laters_of, place};
use crate::form::{DefinitionHeard, FirstMisplaced, open_quote};
use crate::library_name::library_name_for;
use crate::linked::Naming;
use crate::members::{LibraryMembers, MadeLater};
use crate::name::{FirstHeading, dll_name, lacks_name};
use crate::nameless::with_ordinals;
use crate::options::LibraryOptions;
use crate::places::position_of_fault;
use crate::repeats::leave_out_repeats;
use crate::text::DefinitionText;
use implib::def::lexer::TokenKind;
use implib::def::{ModuleDef, Position};
use implib::gnu::{GnuImportLibrary, GnuMembers};
use implib::msvc::{MemberLists, MsvcImportLibrary, linked_dll};
use implib::{Error, Fault, Flavor, MachineType, ParseError};
use implib_archive::{Archive, Kind, WriteError};
use std::alloc::{AllocError, Global};
use std::io;

/// Why a definition has no import library here.
#[derive(Debug, Drop)]
pub enum Refusal {
    /// The definition is not UTF-8: its first byte that is not is here.
    NotUtf8(Position),
    /// This is no module definition.
    Syntax(Fault, Position),
    /// No name of the DLL is given.
    NoName,
    /// An export, which begins here, or the name of the DLL is refused.
    Members(Fault, Position),
    /// The archive's format cannot carry the members.
    Archive(implib_archive::Fault),
    /// An allocation failed.
    OutOfMemory,
}

impl From<AllocError> for Refusal {
    ghost use Rattle.implib_rules.specs.declared.library.Refusal.TheVariants.{OutOfMemory};
    ghost use Rattle.std.specs.Prelude.{◌≡◌};

    ghost from_gives = { λ _ error. error ≡ OutOfMemory };

    fn from(_refused: AllocError) -> Refusal {
        Refusal::OutOfMemory
    }
}

impl From<implib_archive::Error> for Refusal {
    ghost use Rattle.implib_rules.specs.Library.{archive_refusal};
    ghost use Rattle.std.specs.Prelude.{◌≡◌};

    ghost from_gives = { λ cause error. error ≡ archive_refusal cause };

    fn from(cause: implib_archive::Error) -> Refusal {
        match cause {
            implib_archive::Error::Invalid(fault) => Refusal::Archive(fault),
            implib_archive::Error::OutOfMemory(_) => Refusal::OutOfMemory,
        }
    }
}

impl From<ParseError> for Refusal {
    ghost use Rattle.implib_rules.specs.Library.{parse_refusal};
    ghost use Rattle.std.specs.Prelude.{◌≡◌};

    ghost from_gives = { λ cause error. error ≡ parse_refusal cause };

    fn from(cause: ParseError) -> Refusal {
        match cause {
            ParseError::Invalid(fault, position) => Refusal::Syntax(fault, position),
            ParseError::OutOfMemory(_) => Refusal::OutOfMemory,
        }
    }
}

/// Why a library was not written whole.
#[derive(Debug, Drop)]
pub enum LibraryError {
    /// There is none.
    Refused(Refusal),
    /// Writing it failed.
    Writing(WriteError),
}

impl From<Refusal> for LibraryError {
    ghost use Rattle.implib_rules.specs.declared.library.LibraryError.TheVariants.{Refused};
    ghost use Rattle.std.specs.Prelude.{◌≡◌};

    ghost from_gives = { λ refusal error. error ≡ Refused refusal };

    fn from(refusal: Refusal) -> LibraryError {
        LibraryError::Refused(refusal)
    }
}

impl From<WriteError> for LibraryError {
    ghost use Rattle.implib_rules.specs.declared.library.LibraryError.TheVariants.{Writing};
    ghost use Rattle.std.specs.Prelude.{◌≡◌};

    ghost from_gives = { λ cause error. error ≡ Writing cause };

    fn from(cause: WriteError) -> LibraryError {
        LibraryError::Writing(cause)
    }
}

impl From<io::Error> for LibraryError {
    ghost use Rattle.implib_archive.specs.declared.error.WriteError.TheVariants.{Writer};
    ghost use Rattle.implib_rules.specs.declared.library.LibraryError.TheVariants.{Writing};
    ghost use Rattle.std.specs.Prelude.{◌≡◌};

    ghost from_gives = { λ cause error. error ≡ Writing (Writer cause) };

    fn from(cause: io::Error) -> LibraryError {
        LibraryError::Writing(WriteError::Writer(cause))
    }
}

/// A definition by the rules of `dlltool`, under the name of the DLL that is given, or else its
/// own: with what the options add to its exports, of the exports of one word the first alone, each
/// as it is linked on the machine, and with the name of its library for the linker. There is none
/// where neither name is one.
///
/// # Errors
///
/// An allocation failed.
pub(crate) fn by_rules(
    alloc: Global,
    mut def: ModuleDef,
    own: &str,
    is_program: bool,
    options: &LibraryOptions,
) -> Result<Option<ModuleDef>, AllocError>
    ensures { IfOk result (λ found. MatchOption found
        (lacks_name (library_options_view options.now).dll own.now ≡ true)
        (λ made. (lacks_name (library_options_view options.now).dll own.now ≡ false)
        × (definition_view made ≡ definition_for (library_options_view options.now)
        (definition_view def) own.now is_program))) }
{
    if lacks_name(options.dll, own) {
        return Ok(None);
    }
    def.import_name = dll_name(alloc, options.dll, own, is_program)?;
    extend_exports(
        alloc,
        options.machine,
        options.naming,
        &options.additions,
        &mut def.exports,
    )?;
    leave_out_repeats(alloc, &mut def.exports)?;
    link_with_targets(
        alloc,
        options.machine,
        options.naming,
        options.flavor,
        &mut def.exports,
    )?;
    def.library_name = library_name_for(alloc, options.machine, options.flavor, &def)?;
    Ok(Some(def))
}

/// Whether each quoted name of a text is closed in its line.
///
/// # Errors
///
/// One is not: where the first such quote is.
pub fn test_quotes(text: &str) -> Result<(), Refusal>
    ensures closed { OnOk result (open_quote text.now ≡ None) }
    ensures open { IfErr result (λ refusal. (options : LibraryOptionsView)
        → IsRefusalOfText text.now options refusal) }
{
    match open_quote(text.as_bytes()) {
        Some(offset) => {
            let fault = Fault::ExpectedIdentifier(TokenKind::Unknown);
            Err(Refusal::Syntax(fault, Position::at(text, offset)))
        }
        None => Ok(()),
    }
}

/// The definition that a text means for a DLL of the name that is given, or of its own: of the
/// exports of one word the first alone, each as it is linked on the machine, and with the name of
/// its library for the linker. An alias of an export without a name asks for its ordinal.
///
/// # Errors
///
/// A quote that its line does not close; else a syntax error; else an ordinal that is none, or a
/// second one of an export; else that no name is given.
pub fn definition_for(
    alloc: Global,
    text: &str,
    options: &LibraryOptions,
) -> Result<ModuleDef, Refusal>
    ensures meant { IfOk result
        (λ def. DefinitionFor text.now (library_options_view options.now) (definition_view def)) }
    ensures refused { IfErr result (IsRefusalOfText text.now (library_options_view options.now)) }
{
    if let Err(refusal) = test_quotes(text) {
        return Err(refusal);
    }
    // The words are read as they are written, as on a machine without an underscore.
    let mut heard = DefinitionHeard {
        heading: FirstHeading::new(alloc),
        form: FirstMisplaced::new(alloc, text),
    };
    let def = ModuleDef::parse_with(alloc, text, MachineType::AMD64, &mut heard)?;
    let DefinitionHeard { heading, form } = heard;
    let (own, is_program) = heading.finish()?;
    if let Some(misplaced) = form.finish()? {
        let position = Position::at(text, misplaced.at);
        return Err(Refusal::Syntax(misplaced.fault(), position));
    }
    let def = with_ordinals(alloc, def)?;
    match by_rules(alloc, def, own.as_str(), is_program, options)? {
        Some(def) => Ok(def),
        None => Err(Refusal::NoName),
    }
}

// The members for Microsoft's linker, weak externals last, and without the short imports of
// aliases.
fn msvc_members_in_order(def: ModuleDef, machine: MachineType) -> Result<LibraryMembers, Error>
    ensures ok { IfOk result (λ members. AreInOrder (renamed (definition_view def)) machine Msvc
        members) }
    ensures refused { IfInvalid result
        (λ cause. refusal (renamed (definition_view def)) machine Msvc ≡ Some cause) }
{
    let lists = MsvcImportLibrary::new(def, machine).into_member_lists()?;
    let MemberLists {
        header,
        imports,
        aliases,
    } = lists;
    Ok(LibraryMembers::new(header, MadeLater::Imports(imports), aliases)?)
}

// The members for Microsoft's linker where an export may have a short import with a third text,
// which stands where the weak externals of an alias would.
fn msvc_members_exported_as(
    mut def: ModuleDef,
    machine: MachineType,
) -> Result<LibraryMembers, Error>
    ensures ok { IfOk result (λ members. IsExportAsLibrary (renamed (definition_view def)) machine
        members) }
    ensures refused { IfInvalid result
        (λ cause. export_as_refusal (renamed (definition_view def)) machine ≡ Some cause) }
{
    let alloc = *def.exports.allocator();
    let linked = linked_dll(alloc, &def)?;
    let laters = laters_of(
        alloc,
        machine,
        linked.as_str(),
        def.import_name.as_str(),
        def.exports.as_slice(),
    );
    keep_exports(alloc, machine, &mut def.exports)?;
    let lists = MsvcImportLibrary::new(def, machine).into_member_lists()?;
    let MemberLists {
        header,
        imports,
        aliases,
    } = lists;
    let mut after = Vec::new(alloc);
    place(laters?, aliases, &mut after)?;
    Ok(LibraryMembers::new(header, MadeLater::Imports(imports), after)?)
}

// The members for GNU's linker.
fn gnu_members(def: ModuleDef, machine: MachineType) -> Result<LibraryMembers, Error>
    ensures ok { IfOk result (λ members. AreInOrder (renamed (definition_view def)) machine Gnu
        members) }
    ensures refused { IfInvalid result
        (λ cause. refusal (renamed (definition_view def)) machine Gnu ≡ Some cause) }
{
    let after = Vec::new(*def.exports.allocator());
    let members = GnuImportLibrary::new(def, machine).into_members()?;
    let GnuMembers { before, objects } = members;
    Ok(LibraryMembers::new(before, MadeLater::Objects(objects), after)?)
}

// The members for GNU's linker, those of exports with the older symbols of their addresses.
fn gnu_members_with_older_symbols(
    def: ModuleDef,
    machine: MachineType,
) -> Result<LibraryMembers, Error>
    ensures ok { IfOk result (AreOlderMade (renamed (definition_view def)) machine) }
    ensures refused { IfInvalid result
        (λ cause. older_refusal (renamed (definition_view def)) machine ≡ Some cause) }
{
    let after = Vec::new(*def.exports.allocator());
    let members = GnuImportLibrary::new(def, machine).members_with_older_symbols()?;
    Ok(LibraryMembers::new(members, MadeLater::Nothing, after)?)
}

/// The members of a definition in the order in which an archive is to have them.
pub(crate) fn members_in_order(
    def: ModuleDef,
    machine: MachineType,
    flavor: Flavor,
    naming: Naming,
) -> Result<LibraryMembers, Error>
    ensures ok { IfOk result (λ members. AreMadeFor (naming_view naming)
        (renamed (definition_view def)) machine flavor members) }
    ensures refused { IfInvalid result (λ cause. refusal_made (naming_view naming) machine flavor
        (renamed (definition_view def)) ≡ Some cause) }
{
    match flavor {
        Flavor::Msvc if naming.exports_as => msvc_members_exported_as(def, machine),
        Flavor::Msvc => msvc_members_in_order(def, machine),
        Flavor::Gnu => gnu_members(def, machine),
    }
}

// The members of a definition, with the older symbols of addresses where they are asked for and the
// flavour has them.
fn members_of(
    def: ModuleDef,
    options: &LibraryOptions,
    older_symbols: bool,
) -> Result<LibraryMembers, Error>
    ensures ok { IfOk result (AreMadeWith (has_older older_symbols options.now.flavor)
        (library_options_view options.now) (renamed (definition_view def))) }
    ensures refused { IfInvalid result
        (λ cause. refusal_with (has_older older_symbols options.now.flavor)
        (library_options_view options.now) (renamed (definition_view def)) ≡ Some cause) }
{
    match options.flavor {
        Flavor::Gnu if older_symbols => gnu_members_with_older_symbols(def, options.machine),
        Flavor::Msvc | Flavor::Gnu => {
            members_in_order(def, options.machine, options.flavor, options.naming)
        }
    }
}

/// The members of the library that is asked for.
///
/// # Errors
///
/// What [`definition_for`] refuses; bytes that are not UTF-8; an export that is refused.
pub fn members_for(
    alloc: Global,
    bytes: &[u8],
    options: &LibraryOptions,
) -> Result<LibraryMembers, Refusal>
    ensures made { IfOk result (λ members. MembersFor bytes.now (library_options_view options.now)
        members) }
    ensures refused { IfErr result
        (IsRefusalOfMembers bytes.now (library_options_view options.now)) }
{
    members_asked(alloc, bytes, options, false)
}

/// The members of the library that is asked for, with the older symbols of addresses where they are
/// asked for and the flavour is GNU's: `___imp` and the symbol beside `__imp_` and it. They are
/// then all held.
///
/// # Errors
///
/// Those of [`members_for`].
pub fn members_asked(
    alloc: Global,
    bytes: &[u8],
    options: &LibraryOptions,
    older_symbols: bool,
) -> Result<LibraryMembers, Refusal>
    ensures made { IfOk result (λ members. MembersAsked older_symbols bytes.now
        (library_options_view options.now) members) }
    ensures refused { IfErr result
        (IsRefusalOfAsked older_symbols bytes.now (library_options_view options.now)) }
{
    let read = DefinitionText::new(alloc, bytes)?;
    let text = match read.text() {
        Ok(text) => text,
        Err(position) => return Err(Refusal::NotUtf8(position)),
    };
    let def = definition_for(alloc, text, options)?;
    match members_of(def, options, older_symbols) {
        Ok(members) => Ok(members),
        Err(Error::Invalid(fault)) => {
            // The export is one of the text: the targets after them break no rule on names that
            // their aliases keep.
            let position = position_of_fault(alloc, text, &fault)?;
            Err(Refusal::Members(fault, position))
        }
        Err(Error::OutOfMemory(_)) => Err(Refusal::OutOfMemory),
    }
}

// Whether an allocation failed.
fn is_out_of_memory(refusal: &Refusal) -> bool
    ensures { result ≡ is_out_of_memory refusal.now }
{
    match refusal {
        Refusal::OutOfMemory => true,
        _ => false,
    }
}

// The number of members, or 0 where there are none.
fn count_members(
    alloc: Global,
    bytes: &[u8],
    options: &LibraryOptions<'_>,
) -> Result<usize, AllocError>
    ensures { IfOk result (λ count. HasMembers bytes.now (library_options_view options.now) count
        ⊎ HasNoMembers bytes.now (library_options_view options.now) count) }
{
    match members_for(alloc, bytes, options) {
        Ok(members) => Ok(members.len()),
        Err(refusal) => {
            if is_out_of_memory(&refusal) {
                Err(AllocError)
            } else {
                Ok(0)
            }
        }
    }
}

/// The number of members of the library that is asked for, as its warnings count them: 0 where it
/// has none, and for GNU's linker, where no warning needs it.
///
/// # Errors
///
/// An allocation failed.
pub fn member_count(
    alloc: Global,
    bytes: &[u8],
    options: &LibraryOptions<'_>,
) -> Result<usize, AllocError>
    ensures { IfOk result (CountsMembers bytes.now (library_options_view options.now)
        options.now.flavor) }
{
    match options.flavor {
        Flavor::Gnu => Ok(0),
        Flavor::Msvc => count_members(alloc, bytes, options),
    }
}

/// The kind of archive for a number of members: Microsoft's for its linker, if the index can number
/// them, and else GNU's.
pub fn kind_for(flavor: Flavor, count: usize) -> Kind
    ensures { result ≡ kind_for flavor count }
{
    match flavor {
        Flavor::Msvc if count < 65535 => Kind::Coff,
        Flavor::Msvc | Flavor::Gnu => Kind::Gnu,
    }
}

/// The archive of members for a flavour, of the kind that [`kind_for`] names.
///
/// # Errors
///
/// What an archive of this kind cannot carry; or an allocation failed.
pub fn archive_for<'a>(
    alloc: Global,
    members: &'a LibraryMembers,
    flavor: Flavor,
) -> Result<Archive<'a, &'a LibraryMembers>, Refusal>
    ensures holds { IfOk result (λ archive. archive
        ≡ record { kind = kind_of flavor members.now; members = members.now }) }
    ensures accepted { OnOk result (refusal_of (kind_of flavor members.now) members.now ≡ None) }
    ensures refused { IfErr result (IsRefusalOfArchive flavor members.now) }
{
    let kind = kind_for(flavor, members.len());
    Ok(Archive::new(alloc, members, kind)?)
}

/// Writes the import library that is asked for. It is never held, nor are the members of its
/// imports: they are made one by one.
///
/// It calls `write` a few times for each member, so a writer to a file wants a `BufWriter` before
/// it. It does not flush.
///
/// # Errors
///
/// `Refused`: what [`members_for`] refuses, and what an archive cannot carry; nothing was written.
/// `Writing`: the writer failed, or an allocation; it has a beginning of the library, where its
/// bytes are known.
pub fn write_library<W: io::Write>(
    alloc: Global,
    bytes: &[u8],
    options: &LibraryOptions,
    writer: &mut W,
) -> Result<(), LibraryError>
    ensures written { OnOk result (WritesLibrary bytes.now (library_options_view options.now)
        (W.contents writer.old) (W.contents writer.new)) }
    ensures refused { IfRefused result (λ refusal.
        IsRefusalOfBytes bytes.now (library_options_view options.now) refusal
        × (writer.new ≡ writer.old)) }
    ensures failed { IfBrokenOff result (BreaksOff bytes.now (library_options_view options.now)
        (W.contents writer.old) (W.contents writer.new)) }
{
    let members = members_for(alloc, bytes, options)?;
    let archive = archive_for(alloc, &members, options.flavor)?;
    archive.write_to(alloc, writer)?;
    Ok(())
}
