//! What several libraries do to each other in one link.

ghost use Rattle.std.specs.Prelude.{◌≡◌, ℕ, ◌∷◌, ◌++◌, [], List, None, Some, bytes_eq};
ghost use Rattle.std.specs.Prelude.{if◌then◌else◌, map, IfOk, OnOk};
ghost use Rattle.std.specs.Char.{to_ascii_lowercase};
ghost use Rattle.std.specs.HashMap.{get_by};
ghost use Rattle.std.specs.Option.{option_or};
ghost use Rattle.implib.specs.Import.{import_symbols};
ghost use Rattle.implib_compare.specs.Facts.{asked_by, asked_key, text_key};
ghost use Rattle.implib_check_driver.specs.Together.{apart, claim_for, claim_view, claims_from};
ghost use Rattle.implib_check_driver.specs.Together.{claims_of, clash_of, clashes, first_of};
ghost use Rattle.implib_check_driver.specs.Together.{made_of, symbols_of};
ghost use Rattle.implib_read.specs.AliasViews.{alias_view};
ghost use Rattle.implib_read.specs.Classes.{AnAlias, AnImport};
ghost use Rattle.implib_read.specs.ClassViews.{class_view, imported_view, member_read_view};
ghost use Rattle.implib_read.specs.ImportViews.{ask_view, declared_view};

use implib_compare::keys::{push_asked, push_dll, push_text};
use implib_read::{AliasFound, DeclaredFound, ImportFound, MemberClass, MemberRead};
use std::alloc::{AllocError, Global};
use std::collections::HashMap;

/// What a library makes of a symbol that it declares.
#[derive(Drop)]
pub struct Claim {
    pub symbol: Vec<u8>,
    /// The bytes of what is made of it; no other thing has them.
    pub made: Vec<u8>,
    /// The number of the library, from 0.
    pub library: usize,
    /// The number of the member in the library, from 0.
    pub member: usize,
}

// The bytes of what an import makes of its symbols.
fn made_by_import(alloc: Global, import: &ImportFound) -> Result<Vec<u8>, AllocError>
    ensures { IfOk result (λ made. made.items ≡ made_of (AnImport (imported_view import.now))) }
{
    let mut made = Vec::new(alloc);
    made.push(1)?;
    push_asked(&mut made, import.ask)?;
    push_dll(&mut made, import.dll)?;
    Ok(made)
}

// The bytes of what an alias makes of its symbol.
fn made_by_alias(alloc: Global, alias: &AliasFound) -> Result<Vec<u8>, AllocError>
    ensures { IfOk result (λ made. made.items ≡ made_of (AnAlias (alias_view alias.now))) }
{
    let mut made = Vec::new(alloc);
    made.push(2)?;
    push_text(&mut made, alias.target)?;
    Ok(made)
}

// What a member makes of its symbols, and the numbers of its library and of it, from 0.
#[derive(Clone, Copy)]
struct Making<'m> {
    library: usize,
    member: usize,
    made: &'m [u8],
}

// Bytes that two texts are one after the other.
fn joined(alloc: Global, front: &[u8], text: &[u8]) -> Result<Vec<u8>, AllocError>
    ensures { IfOk result (λ whole. whole.items ≡ front.now ++ text.now) }
{
    let mut whole = Vec::new(alloc);
    whole.extend_from_slice(front)?;
    whole.extend_from_slice(text)?;
    Ok(whole)
}

// Adds the claim of a symbol, which is in two parts.
fn add_claim(
    alloc: Global,
    claims: &mut Vec<Claim>,
    making: Making,
    front: &[u8],
    text: &[u8],
) -> Result<(), AllocError>
    ensures { OnOk result (map claim_view claims.new.items ≡ map claim_view claims.old.items
        ++ claim_for making.entry.library making.entry.member making.entry.made.now
        (front.now ++ text.now) ∷ []) }
{
    let symbol = joined(alloc, front, text)?;
    let made = joined(alloc, b"", making.made)?;
    claims.push(Claim {
        symbol,
        made,
        library: making.library,
        member: making.member,
    })?;
    Ok(())
}

// Adds the claims of symbols.
fn add_texts(
    alloc: Global,
    claims: &mut Vec<Claim>,
    making: Making,
    texts: &[&[u8]],
) -> Result<(), AllocError>
    ensures { OnOk result (map claim_view claims.new.items ≡ map claim_view claims.old.items
        ++ map (claim_for making.entry.library making.entry.member making.entry.made.now)
        (map (λ t. t.now) texts.now)) }
{
    for text in texts {
        add_claim(alloc, claims, making, b"", text)?;
    }
    Ok(())
}

// Adds the claims of symbols that are held.
fn add_held(
    alloc: Global,
    claims: &mut Vec<Claim>,
    making: Making,
    texts: &[Vec<u8>],
) -> Result<(), AllocError>
    ensures { OnOk result (map claim_view claims.new.items ≡ map claim_view claims.old.items
        ++ map (claim_for making.entry.library making.entry.member making.entry.made.now)
        (map (λ t. t.items) texts.now)) }
{
    for text in texts {
        add_claim(alloc, claims, making, b"", text)?;
    }
    Ok(())
}

// Adds the claims of the symbols of a short import.
fn add_name(
    alloc: Global,
    claims: &mut Vec<Claim>,
    making: Making,
    symbol: &[u8],
    is_data: bool,
) -> Result<(), AllocError>
    ensures { OnOk result (map claim_view claims.new.items ≡ map claim_view claims.old.items
        ++ map (claim_for making.entry.library making.entry.member making.entry.made.now)
        (import_symbols is_data symbol.now)) }
{
    add_claim(alloc, claims, making, b"__imp_", symbol)?;
    if is_data {
        return Ok(());
    }
    add_claim(alloc, claims, making, b"", symbol)?;
    Ok(())
}

// Adds the claims of the symbols that an import declares.
fn add_declared(
    alloc: Global,
    claims: &mut Vec<Claim>,
    making: Making,
    declared: &DeclaredFound,
) -> Result<(), AllocError>
    ensures { OnOk result (map claim_view claims.new.items ≡ map claim_view claims.old.items
        ++ map (claim_for making.entry.library making.entry.member making.entry.made.now)
        (declared_view declared.now)) }
{
    match declared {
        DeclaredFound::OfName(symbol, is_data) => {
            add_name(alloc, claims, making, symbol, *is_data)
        }
        DeclaredFound::OfArm64ec(symbols) => add_held(alloc, claims, making, symbols),
        DeclaredFound::OfObject(addresses, code) => {
            add_texts(alloc, claims, making, addresses)?;
            add_texts(alloc, claims, making, code)
        }
    }
}

// Adds the claims of an import.
fn add_import(
    alloc: Global,
    claims: &mut Vec<Claim>,
    library: usize,
    member: usize,
    import: &ImportFound,
) -> Result<(), AllocError>
    ensures { OnOk result (map claim_view claims.new.items ≡ map claim_view claims.old.items
        ++ claims_of library member (AnImport (imported_view import.now))) }
{
    let made = made_by_import(alloc, import)?;
    let making = Making {
        library,
        member,
        made: &made,
    };
    add_declared(alloc, claims, making, &import.declared)
}

// Adds the claim of an alias.
fn add_alias(
    alloc: Global,
    claims: &mut Vec<Claim>,
    library: usize,
    member: usize,
    alias: &AliasFound,
) -> Result<(), AllocError>
    ensures { OnOk result (map claim_view claims.new.items ≡ map claim_view claims.old.items
        ++ claims_of library member (AnAlias (alias_view alias.now))) }
{
    let made = made_by_alias(alloc, alias)?;
    let making = Making {
        library,
        member,
        made: &made,
    };
    add_claim(alloc, claims, making, b"", alias.weak)
}

// Adds the claims of a member.
fn add_member(
    alloc: Global,
    claims: &mut Vec<Claim>,
    library: usize,
    member: usize,
    class: &MemberClass,
) -> Result<(), AllocError>
    ensures { OnOk result (map claim_view claims.new.items ≡ map claim_view claims.old.items
        ++ claims_of library member (class_view class.now)) }
{
    match class {
        MemberClass::Import(import) => add_import(alloc, claims, library, member, import),
        MemberClass::Alias(alias) => add_alias(alloc, claims, library, member, alias),
        MemberClass::Descriptor
        | MemberClass::NullDescriptor
        | MemberClass::NullThunk
        | MemberClass::Head
        | MemberClass::Tail
        | MemberClass::DelayImport
        | MemberClass::Other
        | MemberClass::NotUnderstood => Ok(()),
    }
}

/// Adds the claims of a library's members, in order.
pub fn add_claims(
    alloc: Global,
    claims: &mut Vec<Claim>,
    library: usize,
    members: &[MemberRead],
) -> Result<(), AllocError>
    ensures { OnOk result (map claim_view claims.new.items ≡ map claim_view claims.old.items
        ++ claims_from library 0 (map member_read_view members.now)) }
{
    for i in 0..members.len() {
        add_member(alloc, claims, library, i, &members[i].class)?;
    }
    Ok(())
}

// The numbers of the first claims of symbols.
pub(crate) type Firsts<'n> = HashMap<&'n [u8], usize>;

// Notes the number of a claim, unless its symbol has one.
pub(crate) fn note<'n>(
    firsts: &mut Firsts<'n>,
    symbol: &'n [u8],
    number: usize,
) -> Result<(), AllocError>
    ensures { OnOk result ((other : List ℕ) → get_by (λ k. bytes_eq other k.now) firsts.new
        ≡ option_or (get_by (λ k. bytes_eq other k.now) firsts.old)
        (if bytes_eq symbol.now other then Some number else None)) }
{
    if !firsts.contains_key(&symbol) {
        firsts.insert(symbol, number)?;
    }
    Ok(())
}

// The numbers of the first claims of symbols.
fn firsts_of<'n>(alloc: Global, claims: &'n [Claim]) -> Result<Firsts<'n>, AllocError>
    ensures { IfOk result (λ firsts. (other : List ℕ) → get_by (λ k. bytes_eq other k.now) firsts
        ≡ first_of 0 (map claim_view claims.now) other) }
{
    let mut firsts = HashMap::new(alloc);
    for i in 0..claims.len() {
        note(&mut firsts, &claims[i].symbol, i)?;
    }
    Ok(firsts)
}

// A number, if the claim that has it is another library's than this one, and makes another thing of
// the symbol.
fn apart(claim: &Claim, number: usize, first: &Claim) -> Option<usize>
    ensures { result ≡ apart (claim_view claim.now) number (claim_view first.now) }
{
    if first.library == claim.library || first.made.as_slice() == claim.made.as_slice() {
        None
    } else {
        Some(number)
    }
}

// The number of the first claim of a claim's symbol, if they clash.
fn clash_of(firsts: &Firsts, claims: &[Claim], claim: &Claim) -> Option<usize>
    requires { (other : List ℕ) → get_by (λ k. bytes_eq other k.now) firsts.now
        ≡ first_of 0 (map claim_view claims.now) other }
    ensures { result ≡ clash_of (map claim_view claims.now) (claim_view claim.now) }
{
    let symbol = claim.symbol.as_slice();
    let Some(number) = firsts.get(&symbol).copied() else {
        return None;
    };
    match claims.get(number) {
        Some(first) => apart(claim, number, first),
        None => None,
    }
}

/// With which first claim each claim clashes, if it does: by its number among the claims.
pub fn clashes(alloc: Global, claims: &[Claim]) -> Result<Vec<Option<usize>>, AllocError>
    ensures { IfOk result (λ found. found.items ≡ clashes (map claim_view claims.now)) }
{
    let firsts = firsts_of(alloc, claims)?;
    let mut found = Vec::with_capacity(alloc, claims.len())?;
    for claim in claims {
        found.push(clash_of(&firsts, claims, claim))?;
    }
    Ok(found)
}
