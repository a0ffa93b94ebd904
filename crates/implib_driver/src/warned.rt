//! The warnings of a definition, and which of them are said.

ghost use Rattle.implib.specs.Definition.{definition_view, export_view};
ghost use Rattle.implib_driver.specs.Program.{Warned, is_bare, warning_lines};
ghost use Rattle.implib_driver.specs.Reports.{Says};
ghost use Rattle.implib_driver.specs.Request.{request_view};
ghost use Rattle.implib_driver.specs.Warned.{IsNoDefinition, SaysWarnings, WarnsOfNone};
ghost use Rattle.implib_driver.specs.Warned.{warnings_for};
ghost use Rattle.implib_rules.specs.Warnings.{warning_view};
ghost use Rattle.std.specs.Prelude.{◌≡◌, ◌⊎◌, IfOk, OnErr, OnOk, map};

use crate::reporter::Reporter;
use crate::request::Request;
use implib::def::{ModuleDef, ShortExport};
use implib::{MachineType, ParseError};
use implib_rules::places::{Place, export_lines, read_with_places};
use implib_rules::text::DefinitionText;
use implib_rules::text_warnings::{none_warnings, text_warnings};
use implib_rules::warnings::{Warning, warnings_of};
use std::alloc::{AllocError, Global};

// Says warnings of the definition of a path, whose exports are in these lines.
fn say_warnings<T: Reporter>(
    reporter: &mut T,
    path: &str,
    warnings: &[Warning<'_>],
    lines: &[usize],
)
    ensures { Says (T.said reporter.old) (T.said reporter.new)
        (warning_lines path.now lines.now (map warning_view warnings.now)) }
{
    for warning in warnings {
        reporter.warn(path, warning, lines);
    }
}

// The bytes of a definition, how many members its warnings are of, and whether its library has no
// more members than those of its DLL.
#[derive(Clone, Copy, Debug)]
pub(crate) struct Counted<'a> {
    pub(crate) bytes: &'a [u8],
    pub(crate) members: usize,
    pub(crate) is_bare: bool,
}

// Whether a library of this many members has no more than those of its DLL.
pub(crate) fn is_bare(count: usize) -> bool
    ensures { result ≡ is_bare count }
{
    count < 4
}

// Says that a definition has no export though something follows EXPORTS, where that is so.
fn warn_of_none<T: Reporter>(
    alloc: Global,
    bytes: &[u8],
    request: &Request<'_>,
    reporter: &mut T,
) -> Result<(), AllocError>
    ensures warned { OnOk result (WarnsOfNone bytes.now (request_view request.now)
        (T.said reporter.old) (T.said reporter.new)
        ⊎ IsNoDefinition bytes.now (T.said reporter.old) (T.said reporter.new)) }
    ensures silent { OnErr result (T.said reporter.new ≡ T.said reporter.old) }
{
    let read = DefinitionText::new(alloc, bytes)?;
    let Ok(text) = read.text() else {
        return Ok(());
    };
    match ModuleDef::parse_with_position(alloc, text, MachineType::AMD64) {
        Ok(def) => {
            let warnings = none_warnings(alloc, text, def.exports.as_slice())?;
            say_warnings(reporter, request.definition, warnings.as_slice(), &[]);
            Ok(())
        }
        Err(ParseError::Invalid(..)) => Ok(()),
        Err(ParseError::OutOfMemory(refused)) => Err(refused),
    }
}

// The warnings that are asked for, of a definition of these exports and places and this number of
// members; none without `-v`.
fn warnings_for<'a>(
    alloc: Global,
    exports: &'a [ShortExport],
    places: &[Place],
    request: &Request<'_>,
    count: usize,
) -> Result<Vec<Warning<'a>>, AllocError>
    ensures { IfOk result (λ warnings. map warning_view warnings.items
        ≡ warnings_for (request_view request.now) (map export_view exports.now) places.now count) }
{
    if request.is_verbose {
        return warnings_of(alloc, exports, places, &request.library, count);
    }
    Ok(Vec::new(alloc))
}

// Says the warnings of a definition, of which these are the places.
fn warn_of<T: Reporter>(
    alloc: Global,
    counted: Counted<'_>,
    def: &ModuleDef,
    places: &[Place],
    request: &Request<'_>,
    reporter: &mut T,
) -> Result<(), AllocError>
    ensures warned { OnOk result (SaysWarnings counted.entry.members counted.entry.bytes.now
        (definition_view def.now) places.now (request_view request.now)
        (T.said reporter.old) (T.said reporter.new)) }
    ensures silent { OnErr result (T.said reporter.new ≡ T.said reporter.old) }
{
    let exports = def.exports.as_slice();
    let mut warnings = text_warnings(alloc, counted.bytes)?;
    let mut others = warnings_for(alloc, exports, places, request, counted.members)?;
    warnings.append(&mut others)?;
    let lines = export_lines(alloc, places)?;
    say_warnings(
        reporter,
        request.definition,
        warnings.as_slice(),
        lines.as_slice(),
    );
    Ok(())
}

// Says the warnings of a definition, where they are asked for, and of a bare library that there is
// no export. What is no definition has none.
pub(crate) fn warn<T: Reporter>(
    alloc: Global,
    counted: Counted<'_>,
    request: &Request<'_>,
    reporter: &mut T,
) -> Result<(), AllocError>
    ensures warned { OnOk result (Warned request.now.is_verbose counted.entry.is_bare
        counted.entry.members counted.entry.bytes.now (request_view request.now)
        (T.said reporter.old) (T.said reporter.new)) }
    ensures silent { OnErr result (T.said reporter.new ≡ T.said reporter.old) }
{
    if !request.is_verbose && counted.is_bare {
        return warn_of_none(alloc, counted.bytes, request, reporter);
    }
    if !request.is_verbose {
        return Ok(());
    }
    let read = DefinitionText::new(alloc, counted.bytes)?;
    let Ok(text) = read.text() else {
        return Ok(());
    };
    match read_with_places(alloc, text) {
        Ok((def, places)) => warn_of(alloc, counted, &def, places.as_slice(), request, reporter),
        Err(ParseError::Invalid(..)) => Ok(()),
        Err(ParseError::OutOfMemory(refused)) => Err(refused),
    }
}
