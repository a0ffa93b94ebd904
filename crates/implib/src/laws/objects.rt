//! Laws of objects: their layout and their reading.

ghost use Rattle.implib.specs.Formats.Object.{Object, object_in};
ghost use Rattle.implib.specs.Formats.Layout.{Fits, ObjectLayout, encoded, encoded_size, object_of};
ghost use Rattle.implib.specs.Worked.Layouts.{WorkedLayouts};
ghost use Rattle.implib.specs.Worked.Objects.{WorkedObjects};
ghost use Rattle.implib.specs.Worked.Records.{WorkedFieldsOfRecords};
ghost use Rattle.implib.specs.Worked.Refused.{RefusedNames, RefusedObjects, RefusedShortImports};
ghost use Rattle.implib.specs.Worked.Tables.{WorkedAskedNames, WorkedGnuNames, WorkedGnuTables};
ghost use Rattle.implib.specs.Worked.Tables.{WorkedMsvcTables, WorkedNameTypes, WorkedNames};
ghost use Rattle.implib.specs.Worked.Tables.{WorkedRecords};
ghost use Rattle.std.specs.Prelude.{◌<◌, ◌^◌, ◌≡◌, ℕ, List, Some, length};

use crate::machine::MachineType;

/// A layout whose fields have their ranges and whose encoding has fewer than 2^32 bytes reads back
/// from its bytes as the object that it describes.
pub fn layout_reads_back()
    ensures { (p : ObjectLayout) → Fits p → encoded_size p < 2 ^ 32 →
        object_in (encoded p) ≡ Some (object_of p) }
{}

/// The encoding of such a layout has the size in bytes that `encoded_size` computes from the
/// layout.
pub fn layout_has_its_size()
    ensures { (p : ObjectLayout) → Fits p → encoded_size p < 2 ^ 32 →
        length (encoded p) ≡ encoded_size p }
{}

/// Bytes are read as one object at most.
pub fn object_is_one()
    ensures { (bytes : List ℕ) (a b : Object) → object_in bytes ≡ Some a →
        object_in bytes ≡ Some b → a ≡ b }
{}

/// Objects that were worked by hand have these sizes, offsets and bytes, and their records these
/// fields.
pub fn worked_objects()
    ensures sizes { WorkedObjects }
    ensures bytes { WorkedLayouts }
    ensures fields { WorkedFieldsOfRecords }
{}

/// The tables of foo.dll, which was worked by hand, are these objects on each machine.
pub fn worked_tables()
    ensures for_microsoft { (machine : MachineType) → WorkedMsvcTables machine }
    ensures for_gnu { (machine : MachineType) → WorkedGnuTables machine }
    ensures asked_of_gnu { WorkedGnuNames }
    ensures names { WorkedNames }
{}

/// Short imports that were worked by hand have these bytes, and ask for these names.
pub fn worked_records()
    ensures bytes { WorkedRecords }
    ensures name_types { WorkedNameTypes }
    ensures asked { WorkedAskedNames }
{}

/// From bytes, names and numbers that were made by hand nothing is read, or nothing that has a
/// meaning.
pub fn refused_readings()
    ensures objects { RefusedObjects }
    ensures short_imports { RefusedShortImports }
    ensures names { RefusedNames }
{}
