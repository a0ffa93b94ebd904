//! Members that are held.

ghost use Rattle.implib.specs.Library.{member_view};
ghost use Rattle.implib_archive.specs.Sources.{member_at};
ghost use Rattle.std.specs.Prelude.{◌≡◌, ◌++◌, ◌∷◌, ◌<◌, [], IfOk, OnOk, drop, length, map, take};
ghost use Rattle.std.specs.String.{string_bytes};

use implib::Member;
use implib_archive::{Members, Source};
use std::alloc::{AllocError, Global};

// The symbols of the member at an index.
fn symbols_at<'a, S: Source<'a>>(
    alloc: Global,
    source: &S,
    index: usize,
) -> Result<Vec<String>, AllocError>
    requires { index < length (S.members source.now) }
    ensures { IfOk result (λ symbols. map string_bytes symbols.items
        ≡ (member_at (S.members source.now) index).symbols) }
{
    let mut symbols = Vec::with_capacity(alloc, source.symbol_count(index))?;
    for number in 0..source.symbol_count(index) {
        symbols.push(String::from_str(alloc, source.symbol(index, number))?)?;
    }
    Ok(symbols)
}

// The member at an index.
fn member_of<'a, S: Source<'a>>(
    alloc: Global,
    source: &S,
    index: usize,
) -> Result<Member, AllocError>
    requires { index < length (S.members source.now) }
    ensures { IfOk result (λ member. member_view member ≡ member_at (S.members source.now) index) }
{
    let name = String::from_str(alloc, source.name(index))?;
    let mut bytes = Vec::with_capacity(alloc, source.size(index))?;
    source.push_bytes(index, &mut bytes)?;
    let symbols = symbols_at(alloc, source, index)?;
    Ok(Member {
        name,
        bytes,
        symbols,
    })
}

/// The members of a source from an index to another one, or to its end.
pub(crate) fn held<'a, S: Source<'a>>(
    alloc: Global,
    source: &S,
    start: usize,
    end: usize,
) -> Result<Vec<Member>, AllocError>
    ensures { IfOk result (λ members. map member_view members.items
        ≡ drop start (take end (S.members source.now))) }
{
    let last = end.min(source.count());
    let mut members = Vec::new(alloc);
    for index in start..last {
        members.push(member_of(alloc, source, index)?)?;
    }
    Ok(members)
}
