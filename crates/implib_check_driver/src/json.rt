//! What is found, as a JSON object.

ghost use Rattle.std.specs.Prelude.{◌≡◌, IfOk, OnOk, take};
ghost use Rattle.std.specs.Str.Lossy.{utf8_valid_len};
ghost use Rattle.std.specs.String.{string_bytes};
ghost use Rattle.implib_check_driver.specs.Json.{class_word, fault_view, finding_view, line_of};
ghost use Rattle.implib_check_driver.specs.Json.{object_of, side_object, side_view, site_object};
ghost use Rattle.implib_check_driver.specs.Json.{site_view, text_of};
ghost use Rattle.implib_check_driver.specs.Json.{what_of, with_asked, with_class, with_fault};
ghost use Rattle.implib_check_driver.specs.Json.{with_finding, with_member, with_name, with_number};
ghost use Rattle.implib_check_driver.specs.Json.{with_position};
ghost use Rattle.implib_check_driver.specs.Json.{with_side, with_sides, with_site, with_word};
ghost use Rattle.implib_check_driver.specs.Json.{CutApart as CutApartView, MisleadingEntry};
ghost use Rattle.implib_check_driver.specs.Json.{export_view, unmet_view, with_export, with_loss};
ghost use Rattle.implib_check_driver.specs.Json.{with_named, with_stop, with_target};
ghost use Rattle.implib_check_driver.specs.Json.{with_ask_of, with_program, with_unmet};
ghost use Rattle.implib_dll.specs.Views.{ask_view as asked_view, target_view};
ghost use Rattle.std.specs.Option.{option_map};
ghost use Rattle.implib_read.specs.ClassViews.{class_view, member_read_view};
ghost use Rattle.implib_read.specs.CuttingViews.{cut_apart_view};
ghost use Rattle.implib_read.specs.ImportViews.{ask_view};
ghost use Rattle.implib_read.specs.IndexViews.{index_entry_view};
ghost use Rattle.serde_json.specs.View.{members_view, view};

use crate::finding::{
    Export, Fault, Finding, Side, Unmet, address_word, loss_words, piece_words, stop_words,
};
use crate::text::{Site, kind_word};
use implib::def::Position;
use implib_compare::dll_check::{Loss, Stop};
use implib_dll::{Ask, Target};
use implib_read::{AskFound, CutApart, IndexEntry, MemberClass, MemberRead};
use serde_json::{Map, Value, put};
use std::alloc::{AllocError, Global};

// The members of an object.
type Fields = Map<String, Value>;

// The longest text that is in front.
fn front_text(bytes: &[u8]) -> &str
    ensures { result.now ≡ take (utf8_valid_len bytes.now) bytes.now }
{
    let length = match str::from_utf8(bytes) {
        Ok(text) => return text,
        Err(error) => error.valid_up_to(),
    };
    str::from_utf8(&bytes[..length]).unwrap_or("")
}

// A name as text: each byte that is no part of UTF-8 becomes U+FFFD.
fn text_of(alloc: Global, name: &[u8]) -> Result<String, AllocError>
    ensures { IfOk result (λ text. string_bytes text ≡ text_of name.now) }
{
    let mut text = String::new(alloc);
    let mut rest = name;
    for _i in 0..name.len() + 1 {
        let front = front_text(rest);
        text.push_str(front)?;
        match rest.get(front.len() + 1..) {
            Some(more) => {
                text.push('\u{FFFD}')?;
                rest = more;
            }
            None => return Ok(text),
        }
    }
    Ok(text)
}

// Adds a word.
fn put_word(fields: &mut Fields, alloc: Global, key: &str, word: &str) -> Result<(), AllocError>
    ensures { OnOk result
        (members_view fields.new.entries
        ≡ with_word key.now word.now (members_view fields.old.entries)) }
{
    put(fields, alloc, key, Value::try_from_str(alloc, word)?)
}

// Adds a name.
fn put_name(fields: &mut Fields, alloc: Global, key: &str, name: &[u8]) -> Result<(), AllocError>
    ensures { OnOk result
        (members_view fields.new.entries
        ≡ with_name key.now name.now (members_view fields.old.entries)) }
{
    put(fields, alloc, key, Value::String(text_of(alloc, name)?))
}

// Adds a number.
fn put_number(
    fields: &mut Fields,
    alloc: Global,
    key: &str,
    number: usize,
) -> Result<(), AllocError>
    ensures { OnOk result
        (members_view fields.new.entries
        ≡ with_number key.now number (members_view fields.old.entries)) }
{
    put(fields, alloc, key, Value::from(number))
}

// Adds where in a definition an export is.
fn put_position(
    fields: &mut Fields,
    alloc: Global,
    position: Option<Position>,
) -> Result<(), AllocError>
    ensures { OnOk result
        (members_view fields.new.entries
        ≡ with_position position (members_view fields.old.entries)) }
{
    match position {
        Some(position) => {
            put_number(fields, alloc, "line", position.line)?;
            put_number(fields, alloc, "column", position.column)
        }
        None => Ok(()),
    }
}

// Adds the file of a library or a definition, and where in a definition an export is.
fn put_site(fields: &mut Fields, alloc: Global, site: Site) -> Result<(), AllocError>
    ensures { OnOk result
        (members_view fields.new.entries
        ≡ with_site (site_view site.entry) (members_view fields.old.entries)) }
{
    match site {
        Site::Library(path) => put_word(fields, alloc, "library", path),
        Site::Definition(path, position) => {
            put_word(fields, alloc, "file", path)?;
            put_position(fields, alloc, position)
        }
    }
}

// Adds which member of a library it is; a definition has none.
fn put_member(
    fields: &mut Fields,
    alloc: Global,
    site: Site,
    member: &MemberRead,
) -> Result<(), AllocError>
    ensures { OnOk result
        (members_view fields.new.entries
        ≡ with_member (site_view site.entry) (member_read_view member.now)
        (members_view fields.old.entries)) }
{
    match site {
        Site::Library(_) => {
            put_name(fields, alloc, "member", member.name)?;
            put_number(fields, alloc, "offset", member.offset)
        }
        Site::Definition(_, _) => Ok(()),
    }
}

// Adds what a DLL is asked for.
fn put_asked(fields: &mut Fields, alloc: Global, ask: AskFound) -> Result<(), AllocError>
    ensures { OnOk result
        (members_view fields.new.entries
        ≡ with_asked (ask_view ask.entry) (members_view fields.old.entries)) }
{
    match ask {
        AskFound::Name(name, hint) => {
            put_name(fields, alloc, "name", name)?;
            put_number(fields, alloc, "hint", hint as usize)
        }
        AskFound::Ordinal(ordinal) => put_number(fields, alloc, "ordinal", ordinal as usize),
    }
}

// Adds what an import or an alias is.
fn put_class(fields: &mut Fields, alloc: Global, class: &MemberClass) -> Result<(), AllocError>
    ensures { OnOk result
        (members_view fields.new.entries
        ≡ with_class (class_view class.now) (members_view fields.old.entries)) }
{
    match class {
        MemberClass::Import(import) => {
            put_word(fields, alloc, "kind", kind_word(import.kind))?;
            put_name(fields, alloc, "dll", import.dll)?;
            put_asked(fields, alloc, import.ask)?;
            put_number(fields, alloc, "machine", import.machine as usize)
        }
        MemberClass::Alias(alias) => {
            put_word(fields, alloc, "kind", "alias")?;
            put_name(fields, alloc, "target", alias.target)
        }
        _ => Ok(()),
    }
}

// Adds an import or an alias, and where it is.
fn put_side(fields: &mut Fields, alloc: Global, side: &Side) -> Result<(), AllocError>
    ensures { OnOk result
        (members_view fields.new.entries
        ≡ with_side (side_view side.now) (members_view fields.old.entries)) }
{
    put_site(fields, alloc, side.site)?;
    put_member(fields, alloc, side.site, side.member)?;
    put_name(fields, alloc, "symbol", side.symbol)?;
    put_class(fields, alloc, &side.member.class)
}

// An import or an alias, and where it is.
fn side_of(alloc: Global, side: &Side) -> Result<Value, AllocError>
    ensures { IfOk result (λ object. view object ≡ side_object (side_view side.now)) }
{
    let mut fields = Map::new(alloc);
    put_side(&mut fields, alloc, side)?;
    Ok(Value::Object(fields))
}

// The file of a library or a definition.
fn site_of(alloc: Global, site: Site) -> Result<Value, AllocError>
    ensures { IfOk result (λ object. view object ≡ site_object (site_view site.entry)) }
{
    let mut fields = Map::new(alloc);
    put_site(&mut fields, alloc, site)?;
    Ok(Value::Object(fields))
}

// Adds what two sides have of a symbol.
fn put_sides(
    fields: &mut Fields,
    alloc: Global,
    symbol: &[u8],
    here: Value,
    there: Value,
) -> Result<(), AllocError>
    ensures { OnOk result
        (members_view fields.new.entries
        ≡ with_sides symbol.now (view here) (view there) (members_view fields.old.entries)) }
{
    put_name(fields, alloc, "symbol", symbol)?;
    put(fields, alloc, "here", here)?;
    put(fields, alloc, "there", there)
}

// Adds an entry of an index, and that it misleads.
fn put_entry(
    fields: &mut Fields,
    alloc: Global,
    number: u8,
    entry: &IndexEntry,
) -> Result<(), AllocError>
    ensures { OnOk result
        (members_view fields.new.entries
        ≡ with_fault (MisleadingEntry number (index_entry_view entry.now))
        (members_view fields.old.entries)) }
{
    put_word(fields, alloc, "why", "entry misleads")?;
    put_number(fields, alloc, "index", number as usize)?;
    put_name(fields, alloc, "symbol", entry.symbol)?;
    put_number(fields, alloc, "offset", entry.place as usize)
}

// Adds a short import, and the names that linkers ask for by it.
fn put_cut(fields: &mut Fields, alloc: Global, apart: &CutApart) -> Result<(), AllocError>
    ensures { OnOk result
        (members_view fields.new.entries
        ≡ with_fault (CutApartView (cut_apart_view apart.now).0 (cut_apart_view apart.now).1)
        (members_view fields.old.entries)) }
{
    put_word(fields, alloc, "why", "linkers cut differently")?;
    put_number(fields, alloc, "offset", apart.member.offset)?;
    put_name(fields, alloc, "symbol", apart.cut.symbol)?;
    put_name(fields, alloc, "lld", apart.cut.by_lld)?;
    put_name(fields, alloc, "gnu", apart.cut.by_gnu)
}

// Adds why a library does not work.
fn put_fault(fields: &mut Fields, alloc: Global, fault: &Fault) -> Result<(), AllocError>
    ensures { OnOk result
        (members_view fields.new.entries
        ≡ with_fault (fault_view fault.now) (members_view fields.old.entries)) }
{
    match fault {
        Fault::NoIndex => put_word(fields, alloc, "why", "no index"),
        Fault::UnreadableIndex(number) => {
            put_word(fields, alloc, "why", "unreadable index")?;
            put_number(fields, alloc, "index", *number as usize)
        }
        Fault::MisleadingEntry(number, entry) => put_entry(fields, alloc, *number, entry),
        Fault::CutApart(apart) => put_cut(fields, alloc, apart),
        Fault::NotOnePart(piece) => {
            put_word(fields, alloc, "why", "not one part")?;
            put_word(fields, alloc, "part", piece_words(*piece))
        }
        Fault::SeveralDlls => put_word(fields, alloc, "why", "several DLLs"),
    }
}

// Adds where an export leads.
fn put_target(fields: &mut Fields, alloc: Global, target: Target) -> Result<(), AllocError>
    ensures { OnOk result
        (members_view fields.new.entries
        ≡ with_target (target_view target.entry) (members_view fields.old.entries)) }
{
    match target {
        Target::Empty => Ok(()),
        Target::Address(address, kind) => {
            put_word(fields, alloc, "kind", address_word(kind))?;
            put_number(fields, alloc, "address", address as usize)
        }
        Target::Forwarder(text) => {
            put_word(fields, alloc, "kind", "forwarder")?;
            put_name(fields, alloc, "target", text)
        }
    }
}

// Adds the name of an export, and its position.
fn put_named(
    fields: &mut Fields,
    alloc: Global,
    name: Option<(usize, &[u8])>,
) -> Result<(), AllocError>
    ensures { OnOk result
        (members_view fields.new.entries
        ≡ with_named (option_map (λ found. (found.0, found.1.now)) name.entry)
        (members_view fields.old.entries)) }
{
    match name {
        Some((position, text)) => {
            put_name(fields, alloc, "name", text)?;
            put_number(fields, alloc, "hint", position)
        }
        None => Ok(()),
    }
}

// Adds an export of the DLL of a file.
fn put_export(
    fields: &mut Fields,
    alloc: Global,
    path: &str,
    export: &Export,
) -> Result<(), AllocError>
    ensures { OnOk result
        (members_view fields.new.entries
        ≡ with_export path.now (export_view export.now) (members_view fields.old.entries)) }
{
    put_word(fields, alloc, "file", path)?;
    put_number(fields, alloc, "ordinal", export.ordinal as usize)?;
    put_target(fields, alloc, export.target)?;
    put_named(fields, alloc, export.name)
}

// Adds an import that is lost in the DLL of a file.
fn put_loss(
    fields: &mut Fields,
    alloc: Global,
    side: &Side,
    dll: &str,
    loss: Loss,
) -> Result<(), AllocError>
    ensures { OnOk result
        (members_view fields.new.entries
        ≡ with_loss (side_view side.now) dll.now loss (members_view fields.old.entries)) }
{
    put_word(fields, alloc, "why", loss_words(loss))?;
    put_word(fields, alloc, "dll_file", dll)?;
    put_side(fields, alloc, side)
}

// Adds an import that the DLL of a file forwards to nothing.
fn put_stop(
    fields: &mut Fields,
    alloc: Global,
    side: &Side,
    dll: &str,
    text: &[u8],
    stop: Stop,
) -> Result<(), AllocError>
    ensures { OnOk result
        (members_view fields.new.entries
        ≡ with_stop (side_view side.now) dll.now text.now stop (members_view fields.old.entries)) }
{
    put_word(fields, alloc, "why", "forwarded to nothing")?;
    put_word(fields, alloc, "dll_file", dll)?;
    put_name(fields, alloc, "forwarder", text)?;
    put_word(fields, alloc, "end", stop_words(stop))?;
    put_side(fields, alloc, side)
}

// Adds what a program asks a DLL for, if that is told.
fn put_ask_of(fields: &mut Fields, alloc: Global, ask: Option<Ask>) -> Result<(), AllocError>
    ensures { OnOk result
        (members_view fields.new.entries
        ≡ with_ask_of (option_map asked_view ask.entry) (members_view fields.old.entries)) }
{
    match ask {
        Some(Ask::Name { text, hint }) => {
            put_name(fields, alloc, "name", text)?;
            put_number(fields, alloc, "hint", hint as usize)
        }
        Some(Ask::Ordinal(ordinal)) => put_number(fields, alloc, "ordinal", ordinal as usize),
        None => Ok(()),
    }
}

// Adds why a program does not find what it imports.
fn put_unmet(fields: &mut Fields, alloc: Global, unmet: &Unmet) -> Result<(), AllocError>
    ensures { OnOk result
        (members_view fields.new.entries
        ≡ with_unmet (unmet_view unmet.now) (members_view fields.old.entries)) }
{
    match unmet {
        Unmet::NoFile => put_word(fields, alloc, "why", "no file"),
        Unmet::NoExports(path) => {
            put_word(fields, alloc, "why", "no export")?;
            put_word(fields, alloc, "dll_file", path)
        }
        Unmet::Unread(path) => {
            put_word(fields, alloc, "why", "not read")?;
            put_word(fields, alloc, "dll_file", path)
        }
        Unmet::Lost(path, loss, ask) => {
            put_word(fields, alloc, "why", loss_words(*loss))?;
            put_word(fields, alloc, "dll_file", path)?;
            put_ask_of(fields, alloc, *ask)
        }
    }
}

// Adds the file of a program, a DLL that it imports from, and what it does not find there.
fn put_program(
    fields: &mut Fields,
    alloc: Global,
    program: &str,
    dll: &[u8],
    unmet: &Unmet,
) -> Result<(), AllocError>
    ensures { OnOk result
        (members_view fields.new.entries
        ≡ with_program program.now dll.now (unmet_view unmet.now)
        (members_view fields.old.entries)) }
{
    put_word(fields, alloc, "program", program)?;
    put_name(fields, alloc, "dll", dll)?;
    put_unmet(fields, alloc, unmet)
}

// What a member is, in a word.
fn class_word(class: &MemberClass) -> &'static str
    ensures { result.now ≡ class_word (class_view class.now) }
{
    match class {
        MemberClass::Alias(_) => "alias",
        _ => "import",
    }
}

// What is found, in a word.
fn what_of(finding: &Finding) -> &'static str
    ensures { result.now ≡ what_of (finding_view finding.now) }
{
    match finding {
        Finding::Listed(side) => class_word(&side.member.class),
        Finding::Different(_, _) | Finding::Missing(_, _) => "difference",
        Finding::Clash(_, _, _) => "clash",
        Finding::Fault(_, Fault::SeveralDlls) => "not decided",
        Finding::Fault(_, _) => "broken",
        Finding::Lost(_, _, _) | Finding::Stopped(_, _, _, _) => "lost",
        Finding::Searched(_, _) => "searched",
        Finding::Unasked(_, _) => "unasked",
        Finding::Exported(_, _) => "export",
        Finding::Unmet(_, _, _) => "unmet",
    }
}

// Adds what is found.
fn put_finding(fields: &mut Fields, alloc: Global, finding: &Finding) -> Result<(), AllocError>
    ensures { OnOk result
        (members_view fields.new.entries
        ≡ with_finding (finding_view finding.now) (members_view fields.old.entries)) }
{
    match finding {
        Finding::Listed(side) => put_side(fields, alloc, side),
        Finding::Different(here, there) => {
            let other = side_of(alloc, there)?;
            put_sides(fields, alloc, here.symbol, side_of(alloc, here)?, other)
        }
        Finding::Missing(here, there) => {
            let other = site_of(alloc, *there)?;
            put_sides(fields, alloc, here.symbol, side_of(alloc, here)?, other)
        }
        Finding::Clash(symbol, first, later) => {
            let other = side_of(alloc, later)?;
            put_sides(fields, alloc, symbol, side_of(alloc, first)?, other)
        }
        Finding::Fault(path, fault) => {
            put_word(fields, alloc, "library", path)?;
            put_fault(fields, alloc, fault)
        }
        Finding::Lost(side, dll, loss) => put_loss(fields, alloc, side, dll, *loss),
        Finding::Stopped(side, dll, text, stop) => {
            put_stop(fields, alloc, side, dll, text, *stop)
        }
        Finding::Searched(site, count) => {
            put_site(fields, alloc, *site)?;
            put_number(fields, alloc, "count", *count)
        }
        Finding::Unasked(path, export) => put_export(fields, alloc, path, export),
        Finding::Exported(path, export) => put_export(fields, alloc, path, export),
        Finding::Unmet(program, dll, unmet) => put_program(fields, alloc, program, dll, unmet),
    }
}

// The JSON object of what is found.
fn object_of(alloc: Global, finding: &Finding) -> Result<Value, AllocError>
    ensures { IfOk result (λ object. view object ≡ object_of (finding_view finding.now)) }
{
    let mut fields = Map::new(alloc);
    put_word(&mut fields, alloc, "what", what_of(finding))?;
    put_finding(&mut fields, alloc, finding)?;
    Ok(Value::Object(fields))
}

/// The line of what is found: its JSON object, and a line feed.
#[tactic(auto, using(crate::proofs::JsonLines::object_floatless))]
pub fn line_of(alloc: Global, finding: &Finding) -> Result<String, AllocError>
    ensures { IfOk result (λ line. string_bytes line ≡ line_of (finding_view finding.now)) }
{
    let mut line = object_of(alloc, finding)?.to_string(alloc)?;
    line.push_str("\n")?;
    Ok(line)
}
