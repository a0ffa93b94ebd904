//! The keys by which members are compared.

ghost use Rattle.std.specs.Prelude.{◌≡◌, ◌++◌, ◌∷◌, [], ◌&&◌, not, map, IfOk, OnOk};
ghost use Rattle.std.specs.Char.{to_ascii_lowercase};
ghost use Rattle.std.specs.List.{flat_map, list_any};
ghost use Rattle.std.specs.Option.{option_map, option_map_or};
ghost use Rattle.implib_compare.specs.Facts.{asked_by, asked_key, both_tell, bytes_key, fact_key};
ghost use Rattle.implib_compare.specs.Facts.{has_untold, import_fact, is_untold};
ghost use Rattle.implib_compare.specs.Facts.{addresses_first, is_wanted, listed_if};
ghost use Rattle.implib_compare.specs.Facts.{keys_of, kind_compared, kind_number, listed_key};
ghost use Rattle.implib_compare.specs.Facts.{member_key, number_key};
ghost use Rattle.implib_compare.specs.Facts.{tells_constants, text_key, texts_key, Imports};
ghost use Rattle.implib_compare.specs.Facts.{Aliases};
ghost use Rattle.implib.specs.Import.{import_symbols};
ghost use Rattle.implib_read.specs.AliasViews.{alias_view};
ghost use Rattle.implib_read.specs.ClassViews.{class_view, imported_view, member_read_view};
ghost use Rattle.implib_read.specs.ImportViews.{ask_view, declared_view};

use implib_read::{
    AliasFound, AskFound, DeclaredFound, ImportFound, ImportKind, MemberClass, MemberRead,
    begins_imp,
};
use std::alloc::{AllocError, Global};

// Adds a byte of a text.
fn push_byte(key: &mut Vec<u8>, byte: u8) -> Result<(), AllocError>
    ensures { OnOk result (key.new.items ≡ key.old.items ++ 1 ∷ byte ∷ []) }
{
    key.push(1)?;
    key.push(byte)?;
    Ok(())
}

// Adds the bytes of a text.
fn push_bytes(key: &mut Vec<u8>, text: &[u8]) -> Result<(), AllocError>
    ensures { OnOk result (key.new.items ≡ key.old.items ++ bytes_key text.now) }
{
    for byte in text {
        push_byte(key, *byte)?;
    }
    Ok(())
}

// Adds the bytes of a text, in small letters.
fn push_lowered(key: &mut Vec<u8>, text: &[u8]) -> Result<(), AllocError>
    ensures { OnOk result
        (key.new.items ≡ key.old.items ++ bytes_key (map to_ascii_lowercase text.now)) }
{
    for byte in text {
        push_byte(key, byte.to_ascii_lowercase())?;
    }
    Ok(())
}

/// Appends a text to a key.
pub fn push_text(key: &mut Vec<u8>, text: &[u8]) -> Result<(), AllocError>
    ensures { OnOk result (key.new.items ≡ key.old.items ++ text_key text.now) }
{
    push_bytes(key, text)?;
    key.push(0)?;
    Ok(())
}

/// Appends a DLL's name to a key, in small letters.
pub fn push_dll(key: &mut Vec<u8>, dll: &[u8]) -> Result<(), AllocError>
    ensures { OnOk result
        (key.new.items ≡ key.old.items ++ text_key (map to_ascii_lowercase dll.now)) }
{
    push_lowered(key, dll)?;
    key.push(0)?;
    Ok(())
}

// Adds a text of a list, which is in two parts.
fn push_parts(key: &mut Vec<u8>, front: &[u8], text: &[u8]) -> Result<(), AllocError>
    ensures { OnOk result (key.new.items ≡ key.old.items ++ listed_key (front.now ++ text.now)) }
{
    key.push(1)?;
    push_bytes(key, front)?;
    push_text(key, text)
}

// Whether a symbol is of an address, or is not.
fn is_wanted(wanted: bool, symbol: &[u8]) -> bool
    ensures { result ≡ is_wanted wanted symbol.now }
{
    begins_imp(symbol) == wanted
}

// Adds a text of a list, if it is of an address, or is not.
fn push_if(key: &mut Vec<u8>, wanted: bool, text: &[u8]) -> Result<(), AllocError>
    ensures { OnOk result (key.new.items ≡ key.old.items ++ listed_if wanted text.now) }
{
    if is_wanted(wanted, text) {
        push_parts(key, b"", text)?;
    }
    Ok(())
}

// Adds the texts of a list that are of addresses, or those that are not, without its end.
fn push_texts(key: &mut Vec<u8>, wanted: bool, texts: &[&[u8]]) -> Result<(), AllocError>
    ensures { OnOk result
        (key.new.items ≡ key.old.items
        ++ flat_map (listed_if wanted) (map (λ t. t.now) texts.now)) }
{
    for text in texts {
        push_if(key, wanted, text)?;
    }
    Ok(())
}

// Adds the texts of a list that are of addresses, or those that are not, without its end, of texts
// that are held.
fn push_held(key: &mut Vec<u8>, wanted: bool, texts: &[Vec<u8>]) -> Result<(), AllocError>
    ensures { OnOk result
        (key.new.items ≡ key.old.items
        ++ flat_map (listed_if wanted) (map (λ t. t.items) texts.now)) }
{
    for text in texts {
        push_if(key, wanted, text)?;
    }
    Ok(())
}

// Adds the symbols of a short import, without the end of the list.
fn push_symbols(key: &mut Vec<u8>, symbol: &[u8], is_data: bool) -> Result<(), AllocError>
    ensures { OnOk result
        (key.new.items ≡ key.old.items ++ flat_map listed_key (import_symbols is_data symbol.now)) }
{
    push_parts(key, b"__imp_", symbol)?;
    if is_data {
        return Ok(());
    }
    push_parts(key, b"", symbol)?;
    Ok(())
}

// Adds the symbols that an import declares, those of addresses first, without the end of the list.
#[tactic(auto, using(crate::proofs::Declared::own_first, crate::proofs::Declared::one_list, crate::proofs::Declared::both_lists))]
fn push_declared(key: &mut Vec<u8>, declared: &DeclaredFound) -> Result<(), AllocError>
    ensures { OnOk result (key.new.items ≡ key.old.items
        ++ flat_map listed_key (addresses_first (declared_view declared.now))) }
{
    match declared {
        DeclaredFound::OfName(symbol, is_data) => push_symbols(key, symbol, *is_data),
        DeclaredFound::OfArm64ec(symbols) => {
            push_held(key, true, symbols)?;
            push_held(key, false, symbols)
        }
        DeclaredFound::OfObject(addresses, code) => {
            push_texts(key, true, addresses)?;
            push_texts(key, true, code)?;
            push_texts(key, false, addresses)?;
            push_texts(key, false, code)
        }
    }
}

// Adds a number of 16 bits.
fn push_number(key: &mut Vec<u8>, number: u16) -> Result<(), AllocError>
    ensures { OnOk result (key.new.items ≡ key.old.items ++ number_key number) }
{
    key.push((number % 256) as u8)?;
    key.push((number / 256) as u8)?;
    Ok(())
}

/// Appends what is asked for to a key.
pub fn push_asked(key: &mut Vec<u8>, ask: AskFound) -> Result<(), AllocError>
    ensures { OnOk result
        (key.new.items ≡ key.old.items ++ asked_key (asked_by (ask_view ask.entry))) }
{
    match ask {
        AskFound::Ordinal(ordinal) => {
            key.push(0)?;
            push_number(key, ordinal)
        }
        AskFound::Name(name, _) => {
            key.push(1)?;
            push_text(key, name)
        }
    }
}

// The number of a kind, as it is compared.
fn kind_number(told: bool, kind: ImportKind) -> u8
    ensures { result ≡ kind_number (kind_compared told kind) }
{
    match kind {
        ImportKind::Data => 1,
        ImportKind::Code => { if told { 0 } else { 3 } }
        ImportKind::Const => { if told { 2 } else { 3 } }
        ImportKind::CodeOrConst => 3,
        ImportKind::Delayed => 4,
    }
}

// The key of an import.
fn import_key(alloc: Global, told: bool, import: &ImportFound) -> Result<Vec<u8>, AllocError>
    ensures { IfOk result
        (λ key. key.items ≡ fact_key (Imports (import_fact told (imported_view import.now)))) }
{
    let mut key = Vec::new(alloc);
    key.push(1)?;
    key.push(kind_number(told, import.kind))?;
    push_number(&mut key, import.machine)?;
    push_asked(&mut key, import.ask)?;
    push_dll(&mut key, import.dll)?;
    push_declared(&mut key, &import.declared)?;
    key.push(0)?;
    Ok(key)
}

// The key of an alias.
fn alias_key(alloc: Global, alias: &AliasFound) -> Result<Vec<u8>, AllocError>
    ensures { IfOk result (λ key. key.items ≡ fact_key (Aliases (alias_view alias.now))) }
{
    let mut key = Vec::new(alloc);
    key.push(2)?;
    push_text(&mut key, alias.weak)?;
    push_text(&mut key, alias.target)?;
    Ok(key)
}

// The key of a member, and no byte for one that says nothing.
fn member_key(alloc: Global, told: bool, class: &MemberClass) -> Result<Vec<u8>, AllocError>
    ensures { IfOk result (λ key. key.items ≡ member_key told (class_view class.now)) }
{
    match class {
        MemberClass::Import(import) => import_key(alloc, told, import),
        MemberClass::Alias(alias) => alias_key(alloc, alias),
        MemberClass::Descriptor
        | MemberClass::NullDescriptor
        | MemberClass::NullThunk
        | MemberClass::Head
        | MemberClass::Tail
        | MemberClass::DelayImport
        | MemberClass::Other
        | MemberClass::NotUnderstood => Ok(Vec::new(alloc)),
    }
}

/// The keys of the members of a library, in order: equal for equal imports or aliases, and empty
/// for a member that is neither. `told` says whether each import of both libraries tells CONSTANT
/// from code.
pub fn keys_of(
    alloc: Global,
    told: bool,
    members: &[MemberRead],
) -> Result<Vec<Vec<u8>>, AllocError>
    ensures { IfOk result (λ keys. map (λ key. key.items) keys.items
        ≡ keys_of told (map member_read_view members.now)) }
{
    let mut keys = Vec::with_capacity(alloc, members.len())?;
    for member in members {
        keys.push(member_key(alloc, told, &member.class)?)?;
    }
    Ok(keys)
}

// Whether an import's kind is not told.
fn is_untold(kind: ImportKind) -> bool
    ensures { result ≡ is_untold kind }
{
    match kind {
        ImportKind::CodeOrConst => true,
        ImportKind::Code | ImportKind::Data | ImportKind::Const | ImportKind::Delayed => false,
    }
}

// Whether a member is an import whose kind is not told.
fn has_untold(class: &MemberClass) -> bool
    ensures { result ≡ has_untold (class_view class.now) }
{
    match class {
        MemberClass::Import(import) => is_untold(import.kind),
        _ => false,
    }
}

/// Whether each import of a library tells CONSTANT from code.
pub fn tells_constants(members: &[MemberRead]) -> bool
    ensures { result ≡ tells_constants (map member_read_view members.now) }
{
    for member in members {
        if has_untold(&member.class) {
            return false;
        }
    }
    true
}

/// Whether each import of two libraries tells CONSTANT from code.
pub fn both_tell(left: &[MemberRead], right: &[MemberRead]) -> bool
    ensures { result ≡ both_tell (map member_read_view left.now) (map member_read_view right.now) }
{
    tells_constants(left) && tells_constants(right)
}
