//! What the short import of an export says.

ghost use Rattle.implib.specs.Definition.{export_view};
ghost use Rattle.implib.specs.Members.Msvc.{short_import_symbol};
ghost use Rattle.implib_arm64ec.specs.Refusal.{IfUnreadable};
ghost use Rattle.implib_arm64ec.specs.ShortImports.{is_function, name_given, name_type_of};
ghost use Rattle.implib_arm64ec.specs.ShortImports.{plain_symbol};
ghost use Rattle.implib_arm64ec.specs.ShortImports.{symbol_of, third_text};
ghost use Rattle.std.specs.Prelude.{Err, IfOk, Ok, option_map, string_bytes, ◌≡◌, ◌≤◌};

use crate::error::MarkError;
use crate::names::{mark, unmark};
use implib::def::ShortExport;
use std::alloc::{AllocError, Global};

const IMPORT_ORDINAL: u16 = 0;

const IMPORT_NAME: u16 = 1;

const IMPORT_NAME_EXPORTAS: u16 = 4;

// Whether an export is a function.
fn is_function(export: &ShortExport) -> bool
    ensures { result ≡ is_function (export_view export.now) }
{
    !export.is_data && !export.constant
}

// The symbol of the export's short import, without a mark of its own.
fn own_symbol(export: &ShortExport) -> &str
    ensures { result.now ≡ short_import_symbol (export_view export.now) }
{
    if export.symbol_name.is_empty() {
        export.name.as_str()
    } else {
        export.symbol_name.as_str()
    }
}

// The symbol: of a function with its mark.
pub(crate) fn symbol_of(alloc: Global, export: &ShortExport) -> Result<String, MarkError>
    ensures ok { IfOk result (λ symbol. symbol_of (export_view export.now)
        ≡ Ok (string_bytes symbol)) }
    ensures refused { IfUnreadable result (λ place. symbol_of (export_view export.now)
        ≡ Err place) }
{
    if is_function(export) {
        mark(alloc, own_symbol(export))
    } else {
        Ok(String::from_str(alloc, own_symbol(export))?)
    }
}

// A symbol without its mark, if it has one.
pub(crate) fn plain_symbol(alloc: Global, symbol: &str) -> Result<String, AllocError>
    ensures { IfOk result (λ plain. string_bytes plain ≡ plain_symbol symbol.now) }
{
    match unmark(alloc, symbol)? {
        Some(plain) => Ok(plain),
        None => String::from_str(alloc, symbol),
    }
}

// The name that an export gives to ask its DLL for: its asked name, or the target of an alias.
fn name_given(export: &ShortExport) -> Option<&str>
    ensures { option_map (λ name. name.now) result
        ≡ name_given (export_view export.now) (export_view export.now).asked_name }
{
    match &export.asked_name {
        Some(name) => Some(name.as_str()),
        None => {
            let target = export.alias_target.as_str();
            if !target.is_empty() && target != own_symbol(export) {
                Some(target)
            } else {
                None
            }
        }
    }
}

// The third text, `plain` being the symbol without its mark.
pub(crate) fn third_text<'a>(
    export: &'a ShortExport,
    symbol: &str,
    plain: &'a str,
) -> Option<&'a str>
    requires { plain.now ≡ plain_symbol symbol.now }
    ensures { option_map (λ name. name.now) result ≡ third_text (export_view export.now)
        symbol.now }
{
    if export.no_name {
        return None;
    }
    match name_given(export) {
        Some(name) => Some(name),
        None => {
            if is_function(export) {
                Some(plain)
            } else {
                None
            }
        }
    }
}

// The name type.
pub(crate) fn name_type(no_name: bool, third: Option<&str>) -> u16
    ensures number { result ≡ name_type_of no_name (option_map (λ name. name.now) third.entry) }
    ensures at_most { result ≤ 4 }
{
    match third {
        Some(_) => IMPORT_NAME_EXPORTAS,
        None => { if no_name { IMPORT_ORDINAL } else { IMPORT_NAME } }
    }
}
