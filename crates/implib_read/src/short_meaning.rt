//! What a short import imports.

ghost use Rattle.std.specs.Prelude.{◌≡◌, IfOk};
ghost use Rattle.std.specs.Option.{option_map};
ghost use Rattle.implib_read.specs.Classes.{imported_by_short_import, kind_of_type};
ghost use Rattle.implib_read.specs.ClassViews.{imported_view};
ghost use Rattle.implib_read.specs.ImportViews.{ask_view, declared_view};
ghost use Rattle.implib_read.specs.ShortImports.{ask_of_found, declared_by_short_import};
ghost use Rattle.implib_read.specs.ShortImports.{short_import_view};

use crate::arm64ec::{ARM64EC, arm64ec_symbols};
use crate::import::{AskFound, DeclaredFound, ImportFound, ImportKind};
use crate::short_import::ShortImport;
use implib::msvc::name_type::asked_by_name_type;
use std::alloc::{AllocError, Global};

/// What a short import asks for.
pub(crate) fn ask_of_found<'a>(import: &ShortImport<'a>) -> Option<AskFound<'a>>
    ensures { option_map ask_view result ≡ ask_of_found (short_import_view import.now) }
{
    if import.import_type > 2 {
        return None;
    }
    if let Some(name) = import.exported {
        return Some(AskFound::Name(name, import.ordinal));
    }
    if import.name_type > 3 {
        return None;
    }
    if import.name_type == 0 {
        return Some(AskFound::Ordinal(import.ordinal));
    }
    Some(AskFound::Name(
        asked_by_name_type(import.name_type, import.symbol),
        import.ordinal,
    ))
}

/// The kind that a short import's type says.
fn kind_of_type(import_type: u16) -> ImportKind
    ensures { result ≡ kind_of_type import_type }
{
    if import_type == 0 {
        ImportKind::Code
    } else if import_type == 1 {
        ImportKind::Data
    } else {
        ImportKind::Const
    }
}

/// The symbols that a short import declares.
fn declared_by<'a>(alloc: Global, import: &ShortImport<'a>) -> Result<DeclaredFound<'a>, AllocError>
    ensures { IfOk result (λ declared. declared_view declared
        ≡ declared_by_short_import (short_import_view import.now).fields) }
{
    if import.machine == ARM64EC {
        let symbols = arm64ec_symbols(alloc, import.import_type, import.symbol)?;
        return Ok(DeclaredFound::OfArm64ec(symbols));
    }
    Ok(DeclaredFound::OfName(import.symbol, import.import_type == 1))
}

/// The import that a short import is, where its types have a meaning.
pub(crate) fn imported_by_short_import<'a>(
    alloc: Global,
    import: &ShortImport<'a>,
) -> Result<Option<ImportFound<'a>>, AllocError>
    ensures { IfOk result (λ found. option_map imported_view found
        ≡ imported_by_short_import (short_import_view import.now)) }
{
    let Some(ask) = ask_of_found(import) else {
        return Ok(None);
    };
    let declared = declared_by(alloc, import)?;
    Ok(Some(ImportFound {
        dll: import.dll,
        declared,
        ask,
        kind: kind_of_type(import.import_type),
        machine: import.machine,
    }))
}
