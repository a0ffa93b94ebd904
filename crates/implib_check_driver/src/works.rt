//! The call that says whether a library works.

ghost use Rattle.std.specs.List.{flat_map};
ghost use Rattle.std.specs.Option.{option_map, option_map_or};
ghost use Rattle.std.specs.Prelude.{◌≡◌, ◌++◌, [], ◌∷◌, IfOk, OnOk, map};
ghost use Rattle.implib_check_driver.specs.Answer.{answer_view};
ghost use Rattle.implib_check_driver.specs.Json.{CutApart as CutApartView, MisleadingEntry};
ghost use Rattle.implib_check_driver.specs.Json.{NoIndex, fault_view};
ghost use Rattle.implib_check_driver.specs.Listing.{broken, broken_if_same, fault_lines};
ghost use Rattle.implib_check_driver.specs.Listing.{misled_faults};
ghost use Rattle.implib_check_driver.specs.Listing.{piece_faults, pieces_of, table_faults};
ghost use Rattle.implib_check_driver.specs.Listing.{works_answer, works_of};
ghost use Rattle.implib_compare.specs.Flavors.{flavor_of};
ghost use Rattle.implib_compare.specs.Working.{working_of};
ghost use Rattle.implib_compare.specs.declared.compare.Verdict.TheVariants.{Same};
ghost use Rattle.implib_read.specs.ArchiveViews.{archive_view};
ghost use Rattle.implib_read.specs.ClassViews.{member_read_view};
ghost use Rattle.implib_read.specs.CuttingViews.{cut_apart_view};
ghost use Rattle.implib_read.specs.IndexViews.{index_entry_view};

use crate::answer::{Answer, library_of};
use crate::finding::{Fault, Finding};
use crate::list::doubt;
use crate::report::{Form, tell};
use implib::Flavor;
use implib_compare::compare::Verdict;
use implib_compare::working::{IndexFound, Piece, Working, examine, has_one, working_status};
use implib_read::{CutApart, IndexEntry, Library, MemberRead};
use std::alloc::AllocError;

// Adds the line of a fault.
fn tell_fault(form: Form, out: &mut Vec<u8>, path: &str, fault: Fault) -> Result<(), AllocError>
    ensures { OnOk result (out.new.items ≡ out.old.items
        ++ fault_lines form.is_json path.now (fault_view fault.entry ∷ [])) }
{
    tell(form, out, &Finding::Fault(path, fault))
}

// Adds the entries of an index that mislead.
fn tell_entries(
    form: Form,
    out: &mut Vec<u8>,
    path: &str,
    number: u8,
    entries: &[IndexEntry],
) -> Result<(), AllocError>
    ensures { OnOk result (out.new.items ≡ out.old.items ++ fault_lines form.is_json path.now
        (map (MisleadingEntry number) (map index_entry_view entries.now))) }
{
    for entry in entries {
        tell_fault(form, out, path, Fault::MisleadingEntry(number, entry))?;
    }
    Ok(())
}

// Adds what is wrong with an index.
fn tell_index(
    form: Form,
    out: &mut Vec<u8>,
    path: &str,
    number: u8,
    found: &IndexFound,
) -> Result<(), AllocError>
    ensures { OnOk result (out.new.items ≡ out.old.items ++ fault_lines form.is_json path.now
        (misled_faults number (option_map (λ v. map index_entry_view v.items) found.now))) }
{
    match found {
        Some(entries) => tell_entries(form, out, path, number, entries),
        None => tell_fault(form, out, path, Fault::UnreadableIndex(number)),
    }
}

// Adds what is wrong with the first index, without which a linker finds nothing.
fn tell_first(
    form: Form,
    out: &mut Vec<u8>,
    path: &str,
    found: &Option<IndexFound>,
) -> Result<(), AllocError>
    ensures { OnOk result (out.new.items ≡ out.old.items ++ fault_lines form.is_json path.now
        (option_map_or (misled_faults 1)
        (option_map (option_map (λ v. map index_entry_view v.items)) found.now) (NoIndex ∷ []))) }
{
    match found {
        Some(found) => tell_index(form, out, path, 1, found),
        None => tell_fault(form, out, path, Fault::NoIndex),
    }
}

// Adds what is wrong with a further index, if it is there.
fn tell_further(
    form: Form,
    out: &mut Vec<u8>,
    path: &str,
    number: u8,
    found: &Option<IndexFound>,
) -> Result<(), AllocError>
    ensures { OnOk result (out.new.items ≡ out.old.items ++ fault_lines form.is_json path.now
        (option_map_or (misled_faults number)
        (option_map (option_map (λ v. map index_entry_view v.items)) found.now) [])) }
{
    match found {
        Some(found) => tell_index(form, out, path, number, found),
        None => Ok(()),
    }
}

// Adds the short imports by which linkers ask for different names.
fn tell_cuts(form: Form, out: &mut Vec<u8>, path: &str, cut: &[CutApart]) -> Result<(), AllocError>
    ensures { OnOk result (out.new.items ≡ out.old.items ++ fault_lines form.is_json path.now
        (map (λ c. CutApartView c.0 c.1) (map cut_apart_view cut.now))) }
{
    for apart in cut {
        tell_fault(form, out, path, Fault::CutApart(apart))?;
    }
    Ok(())
}

// Adds that a part of import tables is not there once, if it is not.
fn tell_piece(
    form: Form,
    out: &mut Vec<u8>,
    path: &str,
    members: &[MemberRead],
    part: Piece,
) -> Result<(), AllocError>
    ensures { OnOk result (out.new.items ≡ out.old.items ++ fault_lines form.is_json path.now
        (piece_faults (map member_read_view members.now) part)) }
{
    if has_one(part, members) {
        return Ok(());
    }
    tell_fault(form, out, path, Fault::NotOnePart(part))
}

// Adds which parts of import tables are not there once.
fn tell_pieces(
    form: Form,
    out: &mut Vec<u8>,
    path: &str,
    flavor: Flavor,
    members: &[MemberRead],
) -> Result<(), AllocError>
    ensures { OnOk result (out.new.items ≡ out.old.items ++ fault_lines form.is_json path.now
        (flat_map (piece_faults (map member_read_view members.now)) (pieces_of flavor))) }
{
    match flavor {
        Flavor::Msvc => {
            tell_piece(form, out, path, members, Piece::OfDescriptor)?;
            tell_piece(form, out, path, members, Piece::OfNullDescriptor)?;
            tell_piece(form, out, path, members, Piece::OfNullThunk)
        }
        Flavor::Gnu => {
            tell_piece(form, out, path, members, Piece::OfHead)?;
            tell_piece(form, out, path, members, Piece::OfTail)
        }
    }
}

// Adds what is wrong with the import tables of a number of DLLs.
fn tell_tables(
    form: Form,
    out: &mut Vec<u8>,
    path: &str,
    flavor: Flavor,
    dlls: usize,
    members: &[MemberRead],
) -> Result<(), AllocError>
    requires { flavor ≡ flavor_of (map member_read_view members.now) }
    ensures { OnOk result (out.new.items ≡ out.old.items ++ fault_lines form.is_json path.now
        (table_faults dlls (map member_read_view members.now))) }
{
    if dlls == 1 {
        tell_pieces(form, out, path, flavor, members)
    } else if dlls > 1 {
        tell_fault(form, out, path, Fault::SeveralDlls)
    } else {
        Ok(())
    }
}

/// Adds why a library does not work, if it does not, and says whether it does.
#[tactic(auto, unfolding(crate::specs::Listing::broken))]
pub(crate) fn tell_working(
    form: Form,
    out: &mut Vec<u8>,
    path: &str,
    library: &Library,
) -> Result<Working, AllocError>
    ensures working { IfOk result
        (λ working. working
        ≡ working_of (archive_view library.now.archive)
        (map member_read_view library.now.members.items)) }
    ensures told { OnOk result (out.new.items ≡ out.old.items
        ++ broken form.is_json path.now (archive_view library.now.archive)
        (map member_read_view library.now.members.items)) }
{
    let found = examine(form.alloc, library)?;
    tell_first(form, out, path, &found.first)?;
    tell_further(form, out, path, 2, &found.second)?;
    tell_further(form, out, path, 3, &found.ec)?;
    tell_cuts(form, out, path, &found.cut)?;
    tell_tables(form, out, path, found.flavor, found.dlls, &library.members)?;
    Ok(found.working)
}

/// The same of a library that is the same as another; of any other nothing.
pub(crate) fn tell_working_if_same(
    form: Form,
    out: &mut Vec<u8>,
    verdict: Verdict,
    path: &str,
    library: &Library,
) -> Result<Working, AllocError>
    ensures working { IfOk result (λ working. verdict ≡ Same → working
        ≡ working_of (archive_view library.now.archive)
        (map member_read_view library.now.members.items)) }
    ensures told { OnOk result (out.new.items ≡ out.old.items
        ++ broken_if_same verdict form.is_json path.now (archive_view library.now.archive)
        (map member_read_view library.now.members.items)) }
{
    match verdict {
        Verdict::Same => tell_working(form, out, path, library),
        Verdict::Different | Verdict::NotDecided => Ok(Working::Works),
    }
}

// Whether a library that is read works.
fn works_read(form: Form, path: &str, library: &Library) -> Result<Answer, AllocError>
    ensures { IfOk result (λ a. answer_view a
        ≡ works_of form.is_json path.now (archive_view library.now.archive)
        (map member_read_view library.now.members.items)) }
{
    let mut out = Vec::new(form.alloc);
    let mut err = Vec::new(form.alloc);
    doubt(form.alloc, &mut err, path, &library.members, false)?;
    let working = tell_working(form, &mut out, path, library)?;
    Ok(Answer {
        status: working_status(working),
        out,
        err,
    })
}

/// The answer to the call that says whether a library works.
#[tactic(auto, using(crate::proofs::Answers::by_read, crate::proofs::Answers::by_none))]
pub fn works(form: Form, path: &str, bytes: &[u8]) -> Result<Answer, AllocError>
    ensures { IfOk result
        (λ a. answer_view a ≡ works_answer form.is_json path.now bytes.now) }
{
    match library_of(form.alloc, path, bytes)? {
        Ok(library) => works_read(form, path, &library),
        Err(answer) => Ok(answer),
    }
}
