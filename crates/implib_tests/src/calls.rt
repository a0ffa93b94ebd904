//! The calls of the library where memory is refused: with each allocation failed in turn
//! (`checks/memory`) these tests still pass, or fail for want of memory alone.

use implib::def::{ModuleDef, ShortExport};
use implib::{Error, Fault, Flavor, ImportLibrary, MachineType, Member};
use std::alloc::Global;
use std::process::Abort;
use std::test::Fail;

// A text for AMD64, with the lengths of its members for Microsoft's linker and for GNU's.
type Text = (&'static str, &'static [usize], &'static [usize]);

// One function.
const BAR: Text = (
    "LIBRARY foo.dll\nEXPORTS\nbar",
    &[358, 127, 159, 32],
    &[356, 450, 474],
);

// An export under another name, with an alias.
const ALIASED: Text = (
    "LIBRARY foo.dll\nEXPORTS\nfoo = bar == baz",
    &[358, 127, 159, 162, 174, 32],
    &[356, 450, 474, 174, 162],
);

// Functions and data, as a tool writes them.
const PYTHON: Text = (
    ";\n; Definition file of python310.dll\n;\nLIBRARY \"python310.dll\"\nEXPORTS\n\
    PyAIter_Check\nPyArg_Parse\nPyByteArray_Type DATA\nPyBytesIter_Type DATA",
    &[376, 127, 165, 48, 46, 51, 51],
    &[368, 462, 470, 470, 508, 514],
);

// The texts of all.
const TEXTS: &[Text] = &[BAR, ALIASED, PYTHON];

// Whether members have these lengths.
fn have_lengths(members: &[Member], lengths: &[usize]) -> bool {
    if members.len() != lengths.len() {
        return false;
    }
    for (index, member) in members.iter().enumerate() {
        match lengths.get(index) {
            Some(length) if member.bytes.len() == *length => {}
            _ => return false,
        }
    }
    true
}

// What a fault says is empty.
fn empty_part(fault: &Fault) -> &'static str {
    match fault {
        Fault::EmptyImportName => "import name",
        Fault::EmptyName(0) => "name",
        Fault::EmptyAskedName(0) => "asked name",
        _ => "",
    }
}

// Whether a library is refused because this is empty.
fn is_refused_for(library: &ImportLibrary, part: &str) -> bool {
    match library.members() {
        Err(Error::Invalid(fault)) => empty_part(&fault) == part,
        _ => false,
    }
}

// Whether a text's libraries are refused, once and again, because this is empty. They are made
// first, so that every allocation after them can fail.
fn are_refused_for(
    alloc: Global,
    text: &str,
    machine: MachineType,
    part: &str,
) -> Result<bool, Error> {
    let microsoft = ImportLibrary::new(alloc, text, machine, Flavor::Msvc)?;
    let gnu = ImportLibrary::new(alloc, text, machine, Flavor::Gnu)?;
    let once = is_refused_for(&microsoft, part) && is_refused_for(&gnu, part);
    Ok(once && is_refused_for(&microsoft, part) && is_refused_for(&gnu, part))
}

// Texts whose libraries are refused since this is empty, each for a machine.
const REFUSED: &[(&str, MachineType, &str)] = &[
    ("", MachineType::AMD64, "import name"),
    (
        "LIBRARY foo.dll\nEXPORTS\n\"abc",
        MachineType::AMD64,
        "name",
    ),
    (
        "LIBRARY foo.dll\nEXPORTS\n\"\"",
        MachineType::I386,
        "asked name",
    ),
];

#[test]
fn empty_names_are_refused_without_memory(rt: HostRuntime) -> Result<(), Fail> {
    for (text, machine, part) in REFUSED {
        let refused = are_refused_for(rt.alloc(), *text, *machine, *part)?;
        assert!(rt; refused, "{text:?}");
    }
    Ok(())
}

// A definition of foo.dll with one export, that asks for another name than its own.
fn asking(alloc: Global, name: &str, asked: &str) -> Result<ModuleDef, Error> {
    let mut export = ShortExport::named(alloc, name)?;
    export.asked_name = Some(String::from_str(alloc, asked)?);
    let mut def = ModuleDef::empty(alloc);
    def.import_name.push_str("foo.dll")?;
    def.exports.push(export)?;
    Ok(def)
}

#[test]
fn a_name_that_no_name_type_makes_is_refused_without_memory(rt: HostRuntime) -> Result<(), Fail> {
    let def = asking(rt.alloc(), "a", "b")?;
    let library = ImportLibrary::from_def(def, MachineType::I386, Flavor::Msvc);
    let is_refused = match library.members() {
        Err(Error::Invalid(Fault::NoNameType(0))) => true,
        _ => false,
    };
    assert!(rt; is_refused);
    Ok(())
}

// Whether members have the same names, files and listed symbols.
fn are_same(left: &[Member], right: &[Member]) -> bool {
    if left.len() != right.len() {
        return false;
    }
    for (index, one) in left.iter().enumerate() {
        match right.get(index) {
            Some(other) if is_same(one, other) => {}
            _ => return false,
        }
    }
    true
}

// Whether a member has the same name, file and listed symbols.
fn is_same(one: &Member, other: &Member) -> bool {
    one.name == other.name && one.bytes == other.bytes && one.symbols == other.symbols
}

// Makes a library, once more where memory is refused.
fn made(alloc: Global, text: &str, flavor: Flavor) -> Result<ImportLibrary, Error> {
    match ImportLibrary::new(alloc, text, MachineType::AMD64, flavor) {
        Err(Error::OutOfMemory(_)) => ImportLibrary::new(alloc, text, MachineType::AMD64, flavor),
        answer => answer,
    }
}

// Copies a library, once more where memory is refused.
fn copied(library: &ImportLibrary) -> Result<ImportLibrary, Error> {
    match library.clone() {
        Err(Error::OutOfMemory(_)) => library.clone(),
        answer => answer,
    }
}

// Whether a library gives members of these lengths. Where memory is refused, it then gives those
// that another library of the text gives.
fn gives(
    alloc: Global,
    library: &ImportLibrary,
    text: &str,
    flavor: Flavor,
    lengths: &[usize],
) -> Result<bool, Error> {
    match library.members() {
        Err(Error::OutOfMemory(_)) => {
            let members = library.members()?;
            let other = ImportLibrary::new(alloc, text, MachineType::AMD64, flavor)?;
            Ok(have_lengths(&members, lengths) && are_same(&members, &other.members()?))
        }
        answer => Ok(have_lengths(&answer?, lengths)),
    }
}

#[test]
fn members_for_microsoft_are_unchanged_by_refused_memory(rt: HostRuntime) -> Result<(), Fail> {
    for (text, lengths, _) in TEXTS {
        let library = made(rt.alloc(), *text, Flavor::Msvc)?;
        let same = gives(rt.alloc(), &library, *text, Flavor::Msvc, *lengths)?;
        assert!(rt; same, "{text:?}");
    }
    Ok(())
}

#[test]
fn members_for_gnu_are_unchanged_by_refused_memory(rt: HostRuntime) -> Result<(), Fail> {
    for (text, _, lengths) in &[BAR, ALIASED] {
        let library = made(rt.alloc(), *text, Flavor::Gnu)?;
        let same = gives(rt.alloc(), &library, *text, Flavor::Gnu, *lengths)?;
        assert!(rt; same, "{text:?}");
    }
    Ok(())
}

#[test]
fn many_members_for_gnu_are_unchanged_by_refused_memory(rt: HostRuntime) -> Result<(), Fail> {
    let (text, _, lengths) = PYTHON;
    let library = made(rt.alloc(), text, Flavor::Gnu)?;
    assert!(rt; gives(rt.alloc(), &library, text, Flavor::Gnu, lengths)?);
    Ok(())
}

#[test]
fn copies_are_unchanged_by_refused_memory(rt: HostRuntime) -> Result<(), Fail> {
    for (text, lengths, _) in TEXTS {
        let copy = copied(&made(rt.alloc(), *text, Flavor::Msvc)?)?;
        let same = gives(rt.alloc(), &copy, *text, Flavor::Msvc, *lengths)?;
        assert!(rt; same, "{text:?}");
    }
    Ok(())
}

// Parses a text, once more where memory is refused.
fn parsed(alloc: Global, text: &str) -> Result<ModuleDef, Error> {
    match ModuleDef::parse(alloc, text, MachineType::AMD64) {
        Err(Error::OutOfMemory(_)) => ModuleDef::parse(alloc, text, MachineType::AMD64),
        answer => answer,
    }
}

// Copies a definition, once more where memory is refused.
fn definition_copied(def: &ModuleDef) -> Result<ModuleDef, Error> {
    match def.clone() {
        Err(Error::OutOfMemory(_)) => def.clone(),
        answer => answer,
    }
}

// Copies an export, once more where memory is refused.
fn export_copied(export: &ShortExport) -> Result<ShortExport, Error> {
    match export.clone() {
        Err(Error::OutOfMemory(_)) => export.clone(),
        answer => answer,
    }
}

// An export: its name, its name outside, its alias target, and whether it is data.
type Expected = (&'static str, Option<&'static str>, &'static str, bool);

// The texts, each with its import name and its exports.
const DEFINITIONS: &[(Text, &str, &[Expected])] = &[
    (BAR, "foo.dll", &[("bar", None, "", false)]),
    (ALIASED, "foo.dll", &[("bar", Some("foo"), "baz", false)]),
    (
        PYTHON,
        "python310.dll",
        &[
            ("PyAIter_Check", None, "", false),
            ("PyArg_Parse", None, "", false),
            ("PyByteArray_Type", None, "", true),
            ("PyBytesIter_Type", None, "", true),
        ],
    ),
];

// Whether an export is the expected one, and has no more set.
fn is_expected(export: &ShortExport, row: &Expected) -> bool {
    let (name, outside, alias_target, is_data) = *row;
    let is_outside = match (&export.ext_name, outside) {
        (Some(name), Some(outside)) => name.as_str() == outside,
        (None, None) => true,
        _ => false,
    };
    let more = export.ordinal != 0 || export.no_name || export.private || export.constant;
    is_outside
        && export.name.as_str() == name
        && export.alias_target.as_str() == alias_target
        && export.is_data == is_data
        && export.symbol_name.is_empty()
        && export.asked_name.is_none()
        && !more
}

// Whether a definition has the expected import name and exports.
fn has_expected(def: &ModuleDef, import_name: &str, rows: &[Expected]) -> bool {
    if def.import_name.as_str() != import_name || def.exports.len() != rows.len() {
        return false;
    }
    for (index, row) in rows.iter().enumerate() {
        match def.exports.get(index) {
            Some(export) if is_expected(export, row) => {}
            _ => return false,
        }
    }
    true
}

// Whether copies of a definition's exports are the expected ones.
fn are_copied(def: &ModuleDef, rows: &[Expected]) -> Result<bool, Error> {
    for (index, row) in rows.iter().enumerate() {
        let Some(export) = def.exports.get(index) else {
            return Ok(false);
        };
        if !is_expected(&export_copied(export)?, row) {
            return Ok(false);
        }
    }
    Ok(true)
}

// Holds what texts mean, and that copies are the same.
fn expect_definitions(
    rt: &impl Abort,
    alloc: Global,
    rows: &[(Text, &str, &[Expected])],
) -> Result<(), Fail> {
    for row in rows {
        let ((text, _, _), import_name, rows) = *row;
        let def = parsed(alloc, text)?;
        let copy = definition_copied(&def)?;
        let is_copied = are_copied(&def, rows)? && has_expected(&copy, import_name, rows);
        assert!(rt;
            is_copied && has_expected(&def, import_name, rows),
            "{text:?}"
        );
    }
    Ok(())
}

#[test]
fn definitions_are_unchanged_by_refused_memory(rt: HostRuntime) -> Result<(), Fail> {
    expect_definitions(&rt, rt.alloc(), DEFINITIONS)
}
