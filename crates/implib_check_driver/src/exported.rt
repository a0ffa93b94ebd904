//! The exports of a DLL, one by one: those of its names, in the order of the name table, and then
//! by ordinal those without a name. Names and ordinals that lead to nothing are left out.

ghost use Rattle.std.specs.Prelude.{◌≡◌, IfErr, IfOk, Ok, Some};
ghost use Rattle.implib_check_driver.specs.Answer.{answer_view};
ghost use Rattle.implib_check_driver.specs.Exported.{IsExportsAnswer, IsNoDll};
ghost use Rattle.implib_dll.specs.Exports.{exports_in};
ghost use Rattle.implib_dll.specs.Views.{exports_view};
ghost use Rattle.implib_dll.specs.declared.section.Layout.TheVariants.{File};

use crate::answer::{Answer, said_of, saying};
use crate::finding::{Export, Finding};
use crate::report::{Form, tell};
use implib_dll::{Exports, Fault, Name, ReadError, Target};
use std::alloc::{AllocError, Global};
use std::fmt;

// Why a file is no DLL that is read.
#[derive(Drop)]
struct NoDll(Fault);

impl fmt::Display for NoDll {
    fn fmt<W: fmt::Write>(&self, f: &mut fmt::Formatter<W>) -> fmt::Result {
        let offset = self.0.offset;
        write!(
            f,
            "no DLL that can be read: {}, at {offset:#x}",
            self.0.cause
        )
    }
}

/// What a DLL exports; or the answer where it exports nothing, or is no DLL that can be read.
pub(crate) fn exports_of<'a>(
    alloc: Global,
    path: &str,
    bytes: &'a [u8],
) -> Result<Result<Exports<'a>, Answer>, AllocError>
    ensures read { IfOk result (λ found. IfOk found (λ exports. exports_in File bytes.now
        ≡ Ok (Some (exports_view exports)))) }
    ensures none { IfOk result (λ found. IfErr found
        (λ a. IsNoDll path.now (exports_in File bytes.now) (answer_view a))) }
{
    match Exports::read(alloc, bytes) {
        Ok(Some(exports)) => Ok(Ok(exports)),
        Ok(None) => Ok(Err(saying(alloc, 1, path, "exports nothing")?)),
        Err(ReadError::Refused(fault)) => Ok(Err(said_of(alloc, 1, path, NoDll(fault))?)),
        Err(ReadError::OutOfMemory) => Err(AllocError),
    }
}

/// The position of the first name of each index, where it has one.
pub(crate) fn first_positions(
    alloc: Global,
    exports: &Exports,
) -> Result<Vec<Option<usize>>, AllocError> {
    let mut positions = vec![in alloc; None; exports.targets.len()]?;
    for (position, name) in exports.names.iter().enumerate() {
        let index = name.index as usize;
        if index < positions.len() && positions[index].is_none() {
            positions[index] = Some(position);
        }
    }
    Ok(positions)
}

/// The export of an index, with its name at that index of these positions.
pub(crate) fn export_at<'a>(
    exports: &Exports<'a>,
    positions: &[Option<usize>],
    index: usize,
) -> Export<'a> {
    let position = positions.get(index).copied().flatten();
    let name = position.and_then(|at| named(exports, at));
    Export {
        ordinal: exports.ordinal_of(index),
        target: exports.target_at(index).unwrap_or(Target::Empty),
        name,
    }
}

// A name and its position.
fn named<'a>(exports: &Exports<'a>, position: usize) -> Option<(usize, &'a [u8])> {
    let name = exports.names.get(position)?;
    Some((position, name.text))
}

// The export of a name, if it leads to something.
fn export_named<'a>(exports: &Exports<'a>, position: usize, name: &Name<'a>) -> Option<Export<'a>> {
    let index = name.index as usize;
    let target = exports.target_at(index)?;
    Some(Export {
        ordinal: exports.ordinal_of(index),
        target,
        name: Some((position, name.text)),
    })
}

// Adds the exports of names.
fn tell_named(
    form: Form,
    out: &mut Vec<u8>,
    path: &str,
    exports: &Exports,
) -> Result<(), AllocError> {
    for (position, name) in exports.names.iter().enumerate() {
        if let Some(export) = export_named(exports, position, name) {
            tell(form, out, &Finding::Exported(path, export))?;
        }
    }
    Ok(())
}

// Adds the exports without a name.
fn tell_nameless(
    form: Form,
    out: &mut Vec<u8>,
    path: &str,
    exports: &Exports,
) -> Result<(), AllocError> {
    let positions = first_positions(form.alloc, exports)?;
    for index in 0..exports.targets.len() {
        let export = export_at(exports, &positions, index);
        if export.name.is_none() && exports.target_at(index).is_some() {
            tell(form, out, &Finding::Exported(path, export))?;
        }
    }
    Ok(())
}

/// The answer to the call that lists the exports of a DLL.
pub fn exports(form: Form, path: &str, bytes: &[u8]) -> Result<Answer, AllocError>
    ensures { IfOk result (λ a. IsExportsAnswer path.now (exports_in File bytes.now)
        (answer_view a)) }
{
    let found = match exports_of(form.alloc, path, bytes)? {
        Ok(found) => found,
        Err(answer) => return Ok(answer),
    };
    let mut out = Vec::new(form.alloc);
    tell_named(form, &mut out, path, &found)?;
    tell_nameless(form, &mut out, path, &found)?;
    Ok(Answer {
        status: 0,
        out,
        err: Vec::new(form.alloc),
    })
}
