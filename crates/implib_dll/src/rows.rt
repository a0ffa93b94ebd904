//! What an image exports, ordinal by ordinal.

ghost use Rattle.std.specs.Prelude.{◌≡◌, ◌++◌, [], ◌∷◌, map, IfOk, OnOk};
ghost use Rattle.implib_dll.specs.Rows.{oddity_of, rows_from, rows_of};
ghost use Rattle.implib_dll.specs.Views.{exports_view, name_view, row_view, target_view};

use crate::exports::Exports;
use crate::name::Name;
use crate::target::Target;
use std::alloc::{AllocError, Global};

/// An entry of the export address table, with its names.
#[derive(Debug, Drop)]
pub struct Row<'a> {
    pub ordinal: u32,
    pub target: Target<'a>,
    /// In the order of the name table: none, one, or several.
    pub names: Vec<&'a [u8]>,
}

/// Why a name of the table leads to no target. Loaders take such a file, and only a lookup of the
/// name fails.
#[derive(Clone, Copy, Debug, PartialEq, Eq)]
pub enum Oddity {
    /// The index is past the export address table.
    PastTable,
    /// The target there is empty.
    AtEmpty,
}

/// One more name of a row.
fn add_name<'a>(row: &mut Row<'a>, text: &'a [u8]) -> Result<(), AllocError>
    ensures { OnOk result
        (row_view row.new ≡ record
        (row_view row.old) { names = (row_view row.old).names ++ text.now ∷ [] }) }
{
    row.names.push(text)?;
    Ok(())
}

/// Names, each at the row of its index; those past the rows at none.
fn add_names<'a>(
    rows: &mut Vec<Row<'a>>,
    names: &[Name<'a>],
    base: u32,
    targets: &[Target<'a>],
) -> Result<(), AllocError>
    requires { map row_view rows.old.items ≡ rows_from base [] (map target_view targets.now) 0 }
    ensures { OnOk result
        (map row_view rows.new.items
        ≡ rows_from base (map name_view names.now) (map target_view targets.now) 0) }
{
    for name in names {
        let index = name.index as usize;
        if index < rows.len() {
            add_name(&mut rows[index], name.text)?;
        }
    }
    Ok(())
}

impl<'a> Exports<'a> {
    /// A row for each entry of the export address table, in order, empty ones too.
    pub fn rows(&self, alloc: Global) -> Result<Vec<Row<'a>>, AllocError>
        ensures { IfOk result (λ rows. map row_view rows.items ≡ rows_of (exports_view self.now)) }
    {
        let mut rows = Vec::new(alloc);
        for index in 0..self.targets.len() {
            rows.push(Row {
                ordinal: self.ordinal_of(index),
                target: self.targets[index],
                names: Vec::new(alloc),
            })?;
        }
        add_names(&mut rows, &self.names, self.base, &self.targets)?;
        Ok(rows)
    }

    /// Why a name with this index leads to no target, if it does not.
    pub fn oddity(&self, index: u16) -> Option<Oddity>
        ensures { result ≡ oddity_of (exports_view self.now).targets index }
    {
        if index as usize >= self.targets.len() {
            return Some(Oddity::PastTable);
        }
        match self.target_at(index as usize) {
            Some(_) => None,
            None => Some(Oddity::AtEmpty),
        }
    }
}
