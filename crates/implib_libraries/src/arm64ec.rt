//! The library for ARM64EC of a definition's text, and of a native definition's, for Microsoft's
//! linkers.
//!
//! `implib_rules` has the definition that a text states under options and the members of the native
//! one, `implib_arm64ec` the short imports and the archive: [`arm64ec_library_for`] has the
//! members, in three lists, and [`arm64ec_archive`] their archive.

ghost use Rattle.implib.specs.Definition.{definition_view, export_view};
ghost use Rattle.implib.specs.Library.{member_view};
ghost use Rattle.implib_arm64ec.specs.Archive.{library_refusal};
ghost use Rattle.implib_arm64ec.specs.LibraryImports.{IsFault, imports_fault, imports_of};
ghost use Rattle.implib_libraries.specs.Arm64ec.{AreOrdinary, IsLibraryOfTexts, IsRefusalOfArchive};
ghost use Rattle.implib_libraries.specs.Arm64ec.{IsRefusalOfTexts, IsUnimported, GivesName};
ghost use Rattle.implib_libraries.specs.Arm64ec.{IsLibraryNamed, IsNativeName, IsRefusalNamed};
ghost use Rattle.implib_libraries.specs.Arm64ec.{IsRefusalOfDefinition, RefusesName};
ghost use Rattle.implib_libraries.specs.Arm64ec.{arm64ec_options, asking, asking_by, for_linkers};
ghost use Rattle.implib_libraries.specs.Arm64ec.{native_options};
ghost use Rattle.implib.specs.LibraryName.{names_for};
ghost use Rattle.implib.specs.declared.flavor.Flavor.TheVariants.{Msvc};
ghost use Rattle.implib_rules.specs.Library.{IsRefusalOfMembers};
ghost use Rattle.implib_rules.specs.Options.{library_options_view};
ghost use Rattle.std.specs.Option.{option_map};
ghost use Rattle.std.specs.String.{string_bytes};
ghost use Rattle.std.specs.Prelude.{◌≡◌, [], IfErr, IfOk, None, OnOk, drop, map, unwrap_or};

mod held;
pub mod laws;

use implib::def::{ModuleDef, Position, ShortExport};
use implib::msvc::linked_dll;
use implib::{Fault, Flavor, ImportLibrary, MachineType, Member};
use implib_arm64ec::{Archive, Arm64ecImports, ImportsError, ImportsFault, short_imports};
use implib_rules::library::{Refusal, definition_for, members_for};
use implib_rules::library_name::library_name_for;
use implib_rules::linked::Naming;
use implib_rules::options::LibraryOptions;
use implib_rules::places::position_of_fault;
use implib_rules::text::DefinitionText;
use std::alloc::{AllocError, Global};
use std::slice::Iter;

/// The members of a library for ARM64EC, in this order.
#[derive(Drop)]
pub struct Arm64ecLibrary {
    /// The descriptor, the null descriptor and the null thunk, of ARM64.
    pub headers: Vec<Member>,
    /// The short imports of the definition, of ARM64EC, which are made when they are wanted.
    pub imports: Arm64ecImports,
    /// The members of the native definition, of ARM64.
    pub natives: Vec<Member>,
}

/// Why the exports of a definition have no short imports for ARM64EC.
#[derive(Clone, Copy, Debug)]
pub struct Unimported {
    /// What is wrong.
    pub fault: ImportsFault,
    /// Where in the text the export begins that is at fault; of no export, the beginning.
    pub position: Position,
}

/// Why there is no library for ARM64EC.
#[derive(Debug, Drop)]
pub enum Arm64ecRefusal {
    /// The definition is refused.
    OfDefinition(Refusal),
    /// Its short imports are.
    OfImports(Unimported),
    /// The native definition is refused.
    OfNative(Refusal),
    /// An allocation failed.
    OutOfMemory,
}

impl From<AllocError> for Arm64ecRefusal {
    ghost use Rattle.implib_libraries.specs.declared.arm64ec.Arm64ecRefusal.TheVariants.{OutOfMemory};
    ghost use Rattle.std.specs.Prelude.{◌≡◌};

    ghost from_gives = { λ _ error. error ≡ OutOfMemory };

    fn from(_refused: AllocError) -> Arm64ecRefusal {
        Arm64ecRefusal::OutOfMemory
    }
}

// The options under which the definition is read.
fn arm64ec_options<'a>(options: &LibraryOptions<'a>) -> LibraryOptions<'a>
    ensures { library_options_view result ≡ arm64ec_options (library_options_view options.now) }
{
    LibraryOptions {
        machine: MachineType::ARM64,
        flavor: Flavor::Gnu,
        ..*options
    }
}

// Those of the native definition.
fn native_options<'a>(options: &LibraryOptions<'a>, dll: &'a str) -> LibraryOptions<'a>
    ensures { library_options_view result ≡ native_options (library_options_view options.now)
        dll.now }
{
    LibraryOptions {
        machine: MachineType::ARM64,
        flavor: Flavor::Msvc,
        dll: Some(dll),
        naming: Naming {
            exports_as: true,
            ..options.naming
        },
        ..*options
    }
}

// A fault of short imports, with its place in the text.
fn told(alloc: Global, text: &str, fault: ImportsFault) -> Result<Unimported, AllocError>
    ensures { IfOk result (IsUnimported text.now fault) }
{
    // An export's place is asked for by a fault of it, whichever.
    let sought = match fault {
        ImportsFault::NulInDllName => Fault::NulInImportName,
        ImportsFault::NulInExport(index)
        | ImportsFault::Unreadable(index, _)
        | ImportsFault::MemberTooLong(index) => Fault::EmptyName(index),
    };
    let Ok(position) = position_of_fault(alloc, text, &sought) else {
        return Err(AllocError);
    };
    Ok(Unimported { fault, position })
}

// Gives an export without an asked name its word after `==`, which the next of these has, if it has
// one.
fn ask_written(export: &mut ShortExport, left: &mut Iter<'_, ShortExport>) -> Result<(), AllocError>
    ensures export { OnOk result (export_view export.new
        ≡ asking_by (map export_view left.old.rest.now) (export_view export.old)) }
    ensures left { OnOk result (map export_view left.new.rest.now
        ≡ drop 1 (map export_view left.old.rest.now)) }
{
    let Some(written) = left.next() else {
        return Ok(());
    };
    if export.asked_name.is_none() && !written.alias_target.is_empty() {
        export.asked_name = Some(written.alias_target.clone()?);
    }
    Ok(())
}

// Lets each export ask for its word after `==` in the text, also where that is its symbol.
fn ask_as_written(exports: &mut Vec<ShortExport>, written: &[ShortExport]) -> Result<(), AllocError>
    ensures { OnOk result (map export_view exports.new.items
        ≡ asking (map export_view written.now) (map export_view exports.old.items)) }
{
    let mut left = written.iter();
    for export in exports.iter_mut() {
        ask_written(export, &mut left)?;
    }
    Ok(())
}

// A definition with its library's name for Microsoft's linkers, each export under the name to link
// by.
fn for_linkers(alloc: Global, written: &ModuleDef, def: ModuleDef) -> Result<ModuleDef, AllocError>
    ensures { IfOk result (λ linked. definition_view linked
        ≡ for_linkers (definition_view written.now).exports (definition_view def)) }
{
    let mut def = def;
    ask_as_written(&mut def.exports, written.exports.as_slice())?;
    def.library_name = library_name_for(alloc, MachineType::ARM64, Flavor::Msvc, &def)?;
    Ok(ImportLibrary::from_def(def, MachineType::ARM64, Flavor::Msvc).into_def())
}

// The short imports of a definition.
fn imports_for(alloc: Global, def: &ModuleDef) -> Result<Arm64ecImports, ImportsError>
    ensures made { IfOk result (λ members. members
        ≡ imports_of (names_for Msvc (definition_view def.now)) (definition_view def.now).exports) }
    ensures accepted { OnOk result (imports_fault (names_for Msvc (definition_view def.now))
        (definition_view def.now).exports ≡ None) }
    ensures refused { IfErr result (IsFault (imports_fault
        (names_for Msvc (definition_view def.now)) (definition_view def.now).exports)) }
{
    let linked = linked_dll(alloc, def)?;
    short_imports(
        alloc,
        def.exports.as_slice(),
        linked.as_str(),
        def.import_name.as_str(),
    )
}

// The bytes of the native definition, or none.
fn native_bytes(native: Option<&[u8]>) -> &[u8]
    ensures { result.now ≡ unwrap_or (option_map (λ text. text.now) native.entry) [] }
{
    match native {
        Some(bytes) => bytes,
        None => b"",
    }
}

// The headers and the native members of a DLL of this name.
fn ordinary_for(
    alloc: Global,
    native: Option<&[u8]>,
    options: &LibraryOptions<'_>,
    dll: &str,
) -> Result<(Vec<Member>, Vec<Member>), Refusal>
    ensures made { IfOk result (λ both. AreOrdinary (option_map (λ text. text.now) native.entry)
        (library_options_view options.now) dll.now
        (map member_view both.0.items) (map member_view both.1.items)) }
    ensures refused { IfErr result (IsRefusalOfMembers
        (unwrap_or (option_map (λ text. text.now) native.entry) [])
        (native_options (library_options_view options.now) dll.now)) }
{
    let ordinary = members_for(alloc, native_bytes(native), &native_options(options, dll))?;
    let headers = held::held(alloc, &&ordinary, 0, 3)?;
    let natives = held::held(alloc, &&ordinary, 3, ordinary.len())?;
    Ok((headers, natives))
}

// The library under the name of the DLL that is given, or that of the definition.
fn library_named(
    alloc: Global,
    bytes: &[u8],
    native: Option<&[u8]>,
    options: &LibraryOptions<'_>,
) -> Result<Arm64ecLibrary, Arm64ecRefusal>
    ensures made { IfOk result (λ library. IsLibraryNamed bytes.now
        (option_map (λ text. text.now) native.entry) (library_options_view options.now) (record {
          headers = map member_view library.headers.items;
          imports = library.imports;
          natives = map member_view library.natives.items;
        })) }
    ensures refused { IfErr result (IsRefusalNamed bytes.now
        (option_map (λ text. text.now) native.entry) (library_options_view options.now)) }
{
    let read = DefinitionText::new(alloc, bytes)?;
    let text = match read.text() {
        Ok(text) => text,
        Err(position) => {
            return Err(Arm64ecRefusal::OfDefinition(Refusal::NotUtf8(position)));
        }
    };
    let def = match definition_for(alloc, text, &arm64ec_options(options)) {
        Ok(def) => def,
        Err(refusal) => return Err(Arm64ecRefusal::OfDefinition(refusal)),
    };
    // The text parses, since it has a definition: an error is want of memory.
    let Ok(written) = ModuleDef::parse(alloc, text, MachineType::AMD64) else {
        return Err(Arm64ecRefusal::OutOfMemory);
    };
    let def = for_linkers(alloc, &written, def)?;
    drop(written);
    let imports = match imports_for(alloc, &def) {
        Ok(imports) => imports,
        Err(ImportsError::Invalid(fault)) => {
            return Err(Arm64ecRefusal::OfImports(told(alloc, text, fault)?));
        }
        Err(ImportsError::OutOfMemory(_)) => return Err(Arm64ecRefusal::OutOfMemory),
    };
    match ordinary_for(alloc, native, options, def.import_name.as_str()) {
        Ok((headers, natives)) => Ok(Arm64ecLibrary {
            headers,
            imports,
            natives,
        }),
        Err(refusal) => Err(Arm64ecRefusal::OfNative(refusal)),
    }
}

// The name of the DLL by a definition's bytes, if it has one.
fn name_by(
    alloc: Global,
    bytes: &[u8],
    options: &LibraryOptions<'_>,
) -> Result<Option<String>, Refusal>
    ensures given { IfOk result (λ name. GivesName bytes.now
        (library_options_view options.now) (option_map string_bytes name)) }
    ensures refused { IfErr result (IsRefusalOfDefinition bytes.now
        (library_options_view options.now)) }
{
    let read = DefinitionText::new(alloc, bytes)?;
    let text = match read.text() {
        Ok(text) => text,
        Err(position) => return Err(Refusal::NotUtf8(position)),
    };
    match definition_for(alloc, text, &arm64ec_options(options)) {
        Ok(def) => Ok(Some(def.import_name)),
        Err(Refusal::NoName) => Ok(None),
        Err(refusal) => Err(refusal),
    }
}

// The name that the native definition gives the DLL, where none is given.
fn native_name(
    alloc: Global,
    native: Option<&[u8]>,
    options: &LibraryOptions<'_>,
) -> Result<Option<String>, Refusal>
    ensures given { IfOk result (λ name. IsNativeName (option_map (λ text. text.now) native.entry)
        (library_options_view options.now) (option_map string_bytes name)) }
    ensures refused { IfErr result (RefusesName (option_map (λ text. text.now) native.entry)
        (library_options_view options.now)) }
{
    match native {
        Some(bytes) if options.dll.is_none() => name_by(alloc, bytes, options),
        _ => Ok(None),
    }
}

/// The members of the library for ARM64EC of a definition's bytes, and of a native definition's.
/// The DLL has the name that is given, or else that of the native definition, or else the
/// definition's. The machine and the flavour of the options are of no effect.
///
/// # Errors
///
/// `OfDefinition`: bytes that are not UTF-8, or what `definition_for` refuses. `OfImports`: a name
/// that a short import of ARM64EC cannot have. `OfNative`: what `members_for` refuses of the native
/// definition, first what is no definition, where it could name the DLL.
pub fn arm64ec_library_for(
    alloc: Global,
    bytes: &[u8],
    native: Option<&[u8]>,
    options: &LibraryOptions<'_>,
) -> Result<Arm64ecLibrary, Arm64ecRefusal>
    ensures made { IfOk result (λ library. IsLibraryOfTexts bytes.now
        (option_map (λ text. text.now) native.entry) (library_options_view options.now) (record {
          headers = map member_view library.headers.items;
          imports = library.imports;
          natives = map member_view library.natives.items;
        })) }
    ensures refused { IfErr result (IsRefusalOfTexts bytes.now
        (option_map (λ text. text.now) native.entry) (library_options_view options.now)) }
{
    let own = match native_name(alloc, native, options) {
        Ok(own) => own,
        Err(refusal) => return Err(Arm64ecRefusal::OfNative(refusal)),
    };
    let named = match &own {
        Some(name) => LibraryOptions {
            dll: Some(name.as_str()),
            ..*options
        },
        None => *options,
    };
    library_named(alloc, bytes, native, &named)
}

/// The archive of the members of a library for ARM64EC.
///
/// # Errors
///
/// `Archive`: what such an archive cannot carry. `OutOfMemory`.
pub fn arm64ec_archive(library: &Arm64ecLibrary, alloc: Global) -> Result<Archive<'_>, Refusal>
    ensures holds { IfOk result (λ archive. archive ≡ record {
      headers = map member_view library.now.headers.items;
      imports = library.now.imports;
      natives = map member_view library.now.natives.items;
    }) }
    ensures accepted { OnOk result (library_refusal (record {
      headers = map member_view library.now.headers.items;
      imports = library.now.imports;
      natives = map member_view library.now.natives.items;
    }) ≡ None) }
    ensures refused { IfErr result (IsRefusalOfArchive (record {
      headers = map member_view library.now.headers.items;
      imports = library.now.imports;
      natives = map member_view library.now.natives.items;
    })) }
{
    Ok(Archive::new(
        alloc,
        library.headers.as_slice(),
        &library.imports,
        library.natives.as_slice(),
    )?)
}
