//! Which members are refused.

ghost use Rattle.implib.specs.Library.{member_view};
ghost use Rattle.implib_archive.specs.Refusal.{member_refusal, members_refusal, name_refusal};
ghost use Rattle.implib_archive.specs.Refusal.{symbol_refusal, symbols_refusal};
ghost use Rattle.implib_archive.specs.Sources.{member_at};
ghost use Rattle.std.specs.Prelude.{◌≡◌, ◌<◌, length, map};

use crate::error::Fault;
use crate::kind::Kind;
use crate::source::{Members, Source};
use implib::Member;

// What is wrong with a name.
#[tactic(auto, unfolding(crate::specs::Refusal::name_refusal))]
fn name_refusal(kind: Kind, name: &[u8]) -> Option<Fault>
    ensures { result ≡ name_refusal kind name.now }
{
    if name.is_empty() {
        return Some(Fault::EmptyName);
    }
    if name.contains(&0) {
        return Some(Fault::NulInName);
    }
    match kind {
        Kind::Coff => None,
        Kind::Gnu => {
            if name.contains(&b'\n') {
                Some(Fault::LineEndInName)
            } else {
                None
            }
        }
    }
}

// What is wrong with a symbol.
#[tactic(auto, unfolding(crate::specs::Refusal::symbol_refusal))]
fn symbol_refusal(symbol: &[u8]) -> Option<Fault>
    ensures { result ≡ symbol_refusal symbol.now }
{
    if symbol.is_empty() {
        return Some(Fault::EmptySymbol);
    }
    if symbol.contains(&0) {
        return Some(Fault::NulInSymbol);
    }
    None
}

// What is wrong with the first symbol of a member that is refused.
fn symbols_refusal<'a, S: Source<'a>>(source: &S, index: usize) -> Option<Fault>
    requires { index < length (S.members source.now) }
    ensures { result ≡ symbols_refusal (member_at (S.members source.now) index).symbols }
{
    for number in 0..source.symbol_count(index) {
        let refusal = symbol_refusal(source.symbol(index, number).as_bytes());
        if refusal.is_some() {
            return refusal;
        }
    }
    None
}

// What is wrong with a member.
fn member_refusal<'a, S: Source<'a>>(kind: Kind, source: &S, index: usize) -> Option<Fault>
    requires { index < length (S.members source.now) }
    ensures { result ≡ member_refusal kind (member_at (S.members source.now) index) }
{
    let of_name = name_refusal(kind, source.name(index).as_bytes());
    if of_name.is_some() {
        return of_name;
    }
    let of_symbols = symbols_refusal(source, index);
    if of_symbols.is_some() {
        return of_symbols;
    }
    if source.size(index) as u64 > u32::MAX as u64 {
        return Some(Fault::MemberTooLong);
    }
    None
}

/// What is wrong with the first member of a source that is refused.
pub fn source_refusal<'a, S: Source<'a>>(kind: Kind, source: &S) -> Option<Fault>
    ensures { result ≡ members_refusal kind (S.members source.now) }
{
    for index in 0..source.count() {
        let refusal = member_refusal(kind, source, index);
        if refusal.is_some() {
            return refusal;
        }
    }
    None
}

/// What is wrong with the first member that is refused: its name, a symbol, its length. Whether
/// there are too many members, or too long ones together, is not asked.
pub fn members_refusal(kind: Kind, members: &[Member]) -> Option<Fault>
    ensures { result ≡ members_refusal kind (map member_view members.now) }
{
    source_refusal(kind, &members)
}
