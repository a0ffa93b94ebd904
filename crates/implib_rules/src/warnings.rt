//! What is doubtful in a definition.

ghost use Rattle.implib.specs.Definition.{export_view};
ghost use Rattle.implib_rules.specs.Linked.{naming_view};
ghost use Rattle.implib_rules.specs.Options.{library_options_view};
ghost use Rattle.implib_rules.specs.Firsts.{AreFirstDeclared, AreFirstOrdinals, AreFirstWords};
ghost use Rattle.implib_rules.specs.Warnings.{asked_warnings, earlier};
ghost use Rattle.implib_rules.specs.Warnings.{export_notices, heading_notice, is_asked_by_word};
ghost use Rattle.implib_rules.specs.Warnings.{index_after, lowered_notice, notice_view};
ghost use Rattle.implib_rules.specs.Warnings.{ordinal_like_notice, ordinal_notice};
ghost use Rattle.implib_rules.specs.Warnings.{other_kind_notice, no_export_notice};
ghost use Rattle.implib_rules.specs.Warnings.{repeat_notice, stdcall_notice, target_notice};
ghost use Rattle.implib_rules.specs.Warnings.{serves_gnu, warned, warning_view, warnings_at};
ghost use Rattle.implib_rules.specs.Warnings.{warnings_of, weak_notice, word_before};
ghost use Rattle.std.specs.Option.{option_map};
ghost use Rattle.std.specs.Prelude.{◌≡◌, ◌++◌, ◌-◌, ◌<◌, ◌^◌, IfOk, OnOk, map};

pub mod words;

use crate::firsts::{first_declared, first_ordinals, first_words};
use crate::linked::{Naming, is_apart, word_of};
use crate::options::LibraryOptions;
use crate::places::{Place, Site};
use crate::shown::Shown;
use crate::warnings::words::{Attribute, is_ordinal_like, is_stdcall_word, lowered_attribute};
use implib::def::{Position, ShortExport};
use implib::{Flavor, MachineType};
use std::alloc::{AllocError, Global};
use std::collections::HashMap;
use std::fmt;

/// What a warning says.
#[derive(Clone, Copy, Debug, PartialEq, Eq)]
pub enum Notice<'a> {
    /// There is no export.
    NoExport,
    /// There are too many members for an archive of Microsoft's kind.
    OtherKind,
    /// The export of this index has the same word, so this one is left out.
    Repeated(&'a str, usize),
    /// The export of this index has the same ordinal.
    RepeatedOrdinal(u16, usize),
    /// An attribute of the export of this word is the first word of a line.
    OpensLine(Attribute, &'a str),
    /// The name would be an attribute in capitals.
    Lowered(&'a str, Attribute),
    /// The name begins as an ordinal.
    OrdinalLike(&'a str),
    /// The DLL is asked for a name of stdcall.
    Stdcall(&'a str),
    /// The word after `==` is no export.
    NotExported(&'a str),
    /// A second `LIBRARY` or `NAME`.
    SecondHeading,
    /// A statement that is of no account for an import library.
    Skipped,
    /// A NUL ends the text, and something follows it.
    EndsEarly,
    /// The word begins a statement elsewhere, or names what an export asks for, and is a name here.
    StandsAlone(&'a str),
    /// The attribute stands behind the name of EXPORTAS, where `llvm-dlltool` refuses it.
    Late(&'a str),
    /// The name of an export begins as a comment of other tools.
    CommentLike(&'a str),
    /// The symbol is weak for that of an import, which GNU `ld` does not link.
    Weak(&'a str),
}

/// A warning.
#[derive(Clone, Copy, Debug, PartialEq, Eq)]
pub struct Warning<'a> {
    /// What it says.
    pub notice: Notice<'a>,
    /// Where it is.
    pub position: Position,
}

// The position of warnings about a whole text.
pub(crate) const WHOLE: Position = Position {
    offset: 0,
    line: 1,
    column: 1,
};

// An index, if it is before another.
fn earlier(first: Option<usize>, index: usize) -> Option<usize>
    ensures { result ≡ earlier first index }
{
    match first {
        Some(first) if first < index => Some(first),
        _ => None,
    }
}

// That an export has the word of an earlier one, and is left out; `first` is the first of its word
// that is not private.
fn repeat_notice<'a>(
    export: &'a ShortExport,
    first: Option<usize>,
    index: usize,
) -> Option<Notice<'a>>
    ensures { option_map notice_view result ≡ repeat_notice (export_view export.now) first index }
{
    if export.private {
        return None;
    }
    match earlier(first, index) {
        Some(first) => Some(Notice::Repeated(word_of(export), first)),
        None => None,
    }
}

// That an export has the ordinal of an earlier one; `first` is the first of its ordinal.
fn ordinal_notice<'a>(ordinal: u16, first: Option<usize>, index: usize) -> Option<Notice<'a>>
    ensures { option_map notice_view result ≡ ordinal_notice ordinal first index }
{
    if ordinal == 0 {
        return None;
    }
    match earlier(first, index) {
        Some(first) => Some(Notice::RepeatedOrdinal(ordinal, first)),
        None => None,
    }
}

// That a name would be an attribute in capitals.
fn lowered_notice(word: &str) -> Option<Notice<'_>>
    ensures { option_map notice_view result ≡ lowered_notice word.now }
{
    match lowered_attribute(word) {
        Some(attribute) => Some(Notice::Lowered(word, attribute)),
        None => None,
    }
}

// That a name begins as an ordinal.
fn ordinal_like_notice(word: &str) -> Option<Notice<'_>>
    ensures { option_map notice_view result ≡ ordinal_like_notice word.now }
{
    if is_ordinal_like(word) {
        Some(Notice::OrdinalLike(word))
    } else {
        None
    }
}

// Whether the DLL is asked for a word by an export's import.
fn is_asked_by_word(export: &ShortExport) -> bool
    ensures { result ≡ is_asked_by_word (export_view export.now) }
{
    !export.private && !export.no_name
}

// That the DLL is asked for a name of stdcall.
fn stdcall_notice<'a>(
    machine: MachineType,
    naming: Naming,
    export: &'a ShortExport,
) -> Option<Notice<'a>>
    ensures { option_map notice_view result
        ≡ stdcall_notice machine (naming_view naming) (export_view export.now) }
{
    if !machine.has_leading_underscore() || naming.kills_at {
        return None;
    }
    let word = word_of(export);
    if is_asked_by_word(export) && export.alias_target.is_empty() && is_stdcall_word(word) {
        Some(Notice::Stdcall(word))
    } else {
        None
    }
}

// That the word after `==` is no export; `first` is the first export of that word.
fn target_notice<'a>(
    flavor: Flavor,
    export: &'a ShortExport,
    first: Option<usize>,
) -> Option<Notice<'a>>
    ensures { option_map notice_view result
        ≡ target_notice flavor (export_view export.now) first }
{
    match flavor {
        Flavor::Gnu => None,
        Flavor::Msvc => {
            if first.is_none() && is_asked_by_word(export) && !export.alias_target.is_empty() {
                Some(Notice::NotExported(export.alias_target.as_str()))
            } else {
                None
            }
        }
    }
}

// Whether GNU's flavour serves GNU `ld` on a machine, by stubs that run.
fn serves_gnu(machine: MachineType) -> bool
    ensures { result ≡ serves_gnu machine }
{
    matches!(machine, MachineType::I386 | MachineType::AMD64)
}

// That the symbol of an export is weak for that of an import.
fn weak_notice<'a>(
    alloc: Global,
    options: &LibraryOptions<'_>,
    export: &'a ShortExport,
) -> Result<Option<Notice<'a>>, AllocError>
    ensures { IfOk result (λ notice. option_map notice_view notice
        ≡ weak_notice (library_options_view options.now) (export_view export.now)) }
{
    if !serves_gnu(options.machine)
        || options.naming.exports_as
        || !is_apart(alloc, options.machine, options.naming, export)?
    {
        return Ok(None);
    }
    Ok(match options.flavor {
        Flavor::Gnu => None,
        Flavor::Msvc => Some(Notice::Weak(word_of(export))),
    })
}

// That there is a second `LIBRARY` or `NAME`, unless the name is given otherwise.
fn heading_notice<'a>(dll: Option<&str>) -> Option<Notice<'a>>
    ensures { option_map notice_view result
        ≡ heading_notice (option_map (λ text. text.now) dll.entry) }
{
    match dll {
        Some(_) => None,
        None => Some(Notice::SecondHeading),
    }
}

// That there is no export.
pub(crate) fn no_export_notice<'a>(exports: &[ShortExport]) -> Option<Notice<'a>>
    ensures { option_map notice_view result ≡ no_export_notice (map export_view exports.now) }
{
    if exports.is_empty() {
        Some(Notice::NoExport)
    } else {
        None
    }
}

// That there are too many members for an archive of Microsoft's kind.
fn other_kind_notice<'a>(flavor: Flavor, count: usize) -> Option<Notice<'a>>
    ensures { option_map notice_view result ≡ other_kind_notice flavor count }
{
    match flavor {
        Flavor::Msvc if count >= 65535 => Some(Notice::OtherKind),
        Flavor::Msvc | Flavor::Gnu => None,
    }
}

// Appends a warning, if there is one.
pub(crate) fn push_notice<'a>(
    warnings: &mut Vec<Warning<'a>>,
    notice: Option<Notice<'a>>,
    position: Position,
) -> Result<(), AllocError>
    ensures { OnOk result (map warning_view warnings.new.items
        ≡ map warning_view warnings.old.items ++ warned (option_map notice_view notice.entry)
        position) }
{
    if let Some(notice) = notice {
        warnings.push(Warning { notice, position })?;
    }
    Ok(())
}

// What is looked up in the exports of a definition.
#[derive(Drop)]
struct Firsts<'a> {
    exports: &'a [ShortExport],
    // The first export of each word.
    words: HashMap<&'a str, usize>,
    // The export that declares each word.
    declared: HashMap<&'a str, usize>,
    // The first export of each ordinal.
    ordinals: HashMap<u16, usize>,
    ghost are_words: { AreFirstWords words (map export_view exports.now) },
    ghost are_declared: { AreFirstDeclared declared (map export_view exports.now) },
    ghost are_ordinals: { AreFirstOrdinals ordinals (map export_view exports.now) },
}

// Appends the warnings of what an export asks for, unless it is left out.
fn push_asked<'a>(
    warnings: &mut Vec<Warning<'a>>,
    firsts: &Firsts<'a>,
    export: &'a ShortExport,
    options: &LibraryOptions<'_>,
    is_left_out: bool,
    position: Position,
) -> Result<(), AllocError>
    ensures { OnOk result (map warning_view warnings.new.items
        ≡ map warning_view warnings.old.items
        ++ asked_warnings (library_options_view options.now)
        (map export_view firsts.now.exports.now) is_left_out position (export_view export.now)) }
{
    if is_left_out {
        return Ok(());
    }
    push_notice(
        warnings,
        stdcall_notice(options.machine, options.naming, export),
        position,
    )?;
    let first = firsts.words.get(export.alias_target.as_str()).copied();
    push_notice(
        warnings,
        target_notice(options.flavor, export, first),
        position,
    )?;
    let weak = weak_notice(*warnings.allocator(), options, export)?;
    push_notice(warnings, weak, position)?;
    Ok(())
}

// Appends the warnings of an export by its index.
fn push_export<'a>(
    warnings: &mut Vec<Warning<'a>>,
    firsts: &Firsts<'a>,
    options: &LibraryOptions<'_>,
    index: usize,
    position: Position,
) -> Result<(), AllocError>
    ensures { OnOk result (map warning_view warnings.new.items
        ≡ map warning_view warnings.old.items
        ++ export_notices (library_options_view options.now)
        (map export_view firsts.now.exports.now) index position) }
{
    let Some(export) = firsts.exports.get(index) else {
        return Ok(());
    };
    let word = word_of(export);
    let first = firsts.declared.get(word).copied();
    let repeated = repeat_notice(export, first, index);
    push_notice(warnings, repeated, position)?;
    let first = firsts.ordinals.get(&export.ordinal).copied();
    push_notice(
        warnings,
        ordinal_notice(export.ordinal, first, index),
        position,
    )?;
    push_notice(warnings, lowered_notice(word), position)?;
    push_notice(warnings, ordinal_like_notice(word), position)?;
    push_asked(
        warnings,
        firsts,
        export,
        options,
        repeated.is_some(),
        position,
    )?;
    Ok(())
}

// The word of the export before an index.
fn word_before(exports: &[ShortExport], index: usize) -> &str
    ensures { result.now ≡ word_before (map export_view exports.now) index }
{
    if index == 0 {
        return "";
    }
    match exports.get(index - 1) {
        Some(export) => word_of(export),
        None => "",
    }
}

// Appends the warnings at a place; `index` counts the exports before it.
fn push_place<'a>(
    warnings: &mut Vec<Warning<'a>>,
    firsts: &Firsts<'a>,
    options: &LibraryOptions<'_>,
    index: usize,
    place: Place,
) -> Result<(), AllocError>
    ensures { OnOk result (map warning_view warnings.new.items
        ≡ map warning_view warnings.old.items
        ++ warnings_at (library_options_view options.now)
        (map export_view firsts.now.exports.now) index place) }
{
    match place.site {
        Site::Export => push_export(warnings, firsts, options, index, place.position),
        Site::Attribute(attribute) => {
            let notice = Notice::OpensLine(attribute, word_before(firsts.exports, index));
            push_notice(warnings, Some(notice), place.position)
        }
        Site::Heading => push_notice(warnings, heading_notice(options.dll), place.position),
    }
}

// The number of exports up to and including a place.
fn index_after(site: Site, index: usize) -> usize
    requires { index < 2 ^ 64 - 1 }
    ensures { result ≡ index_after site index }
{
    match site {
        Site::Export => index + 1,
        Site::Attribute(_) | Site::Heading => index,
    }
}

/// The warnings of a definition of these exports and places and this number of members, in the
/// order of their places; those about the whole text come first.
///
/// # Errors
///
/// An allocation failed.
pub fn warnings_of<'a>(
    alloc: Global,
    exports: &'a [ShortExport],
    places: &[Place],
    options: &LibraryOptions<'_>,
    count: usize,
) -> Result<Vec<Warning<'a>>, AllocError>
    ensures { IfOk result (λ warnings. map warning_view warnings.items
        ≡ warnings_of (library_options_view options.now) (map export_view exports.now) places.now
        count) }
{
    let words = first_words(alloc, exports)?;
    let declared = first_declared(alloc, exports)?;
    let ordinals = first_ordinals(alloc, exports)?;
    let firsts = Firsts {
        exports,
        words,
        declared,
        ordinals,
    };
    let mut warnings = Vec::new(alloc);
    push_notice(&mut warnings, no_export_notice(exports), WHOLE)?;
    push_notice(
        &mut warnings,
        other_kind_notice(options.flavor, count),
        WHOLE,
    )?;
    let mut index = 0;
    for place in places {
        push_place(&mut warnings, &firsts, options, index, *place)?;
        index = index_after(place.site, index);
    }
    Ok(warnings)
}

impl fmt::Display for Attribute {
    fn fmt<W: fmt::Write>(&self, f: &mut fmt::Formatter<W>) -> fmt::Result {
        f.write_str(match self {
            Attribute::Data => "DATA",
            Attribute::Constant => "CONSTANT",
            Attribute::Private => "PRIVATE",
            Attribute::NoName => "NONAME",
        })
    }
}

/// A notice in a user's words, with the lines of the exports.
#[derive(Drop)]
pub struct NoticeMessage<'a>(pub Notice<'a>, pub &'a [usize]);

impl<'a> fmt::Display for NoticeMessage<'a> {
    fn fmt<W: fmt::Write>(&self, f: &mut fmt::Formatter<W>) -> fmt::Result {
        match self.0 {
            Notice::NoExport => f.write_str("no export"),
            Notice::OtherKind => f.write_str(
                "the archive is of GNU's kind: Microsoft's has fewer than 65,535 members here",
            ),
            Notice::Repeated(word, first) => {
                let line = self.1.get(first).copied().unwrap_or(0);
                write!(
                    f,
                    "`{}` is exported twice, first in line {line}; this one is left out",
                    Shown(word)
                )
            }
            Notice::RepeatedOrdinal(ordinal, first) => {
                let line = self.1.get(first).copied().unwrap_or(0);
                write!(f, "ordinal {ordinal} is given twice, first in line {line}")
            }
            Notice::OpensLine(attribute, word) => write!(
                f,
                "{attribute} is an attribute of `{}`; quote it to name an export",
                Shown(word)
            ),
            Notice::Lowered(word, attribute) => write!(
                f,
                "`{}` is an export's name here, not the attribute {attribute}",
                Shown(word)
            ),
            Notice::OrdinalLike(word) => write!(
                f,
                "`{}` is an export's name here: an ordinal is a number from 0 to 65535, behind a \
                 name",
                Shown(word)
            ),
            Notice::Stdcall(word) => {
                let killed = word.split_once('@').map_or(word, |(name, _)| name);
                write!(
                    f,
                    "the DLL is asked for `{}`; -k asks for `{}`",
                    Shown(word),
                    Shown(killed)
                )
            }
            Notice::NotExported(word) => write!(
                f,
                "`{}` is no export here; the DLL is asked for it",
                Shown(word)
            ),
            Notice::SecondHeading => {
                f.write_str("the name of the DLL is given twice; the first counts")
            }
            Notice::Skipped => f.write_str(
                "this statement is skipped: it is of no account for an import library",
            ),
            Notice::EndsEarly => {
                f.write_str("the definition ends here, at a null byte; what follows is not read")
            }
            Notice::StandsAlone(word) => write!(
                f,
                "`{}` is an export's name here, not a keyword; quote it to name an export",
                Shown(word)
            ),
            Notice::Late(word) => write!(
                f,
                "`{word}` follows the name of EXPORTAS; llvm-dlltool refuses it there"
            ),
            Notice::CommentLike(word) => write!(
                f,
                "`{word}` begins an export's name here; a comment begins with `;`"
            ),
            Notice::Weak(word) => write!(
                f,
                "`{}` is a weak symbol here, which GNU ld leaves undefined; --flavor gnu serves it",
                Shown(word)
            ),
        }
    }
}
