//! By which symbols exports are linked, and what they ask the DLL for: the rules of `dlltool`.

ghost use Rattle.implib.specs.Definition.{export_view};
ghost use Rattle.implib_rules.specs.Linked.{asked_of, asks_apart, has_two_at_signs, is_at_sign};
ghost use Rattle.implib_rules.specs.Linked.{keeps_word};
ghost use Rattle.implib_rules.specs.Linked.{is_apart, is_named_import, is_number, killed};
ghost use Rattle.implib_rules.specs.Linked.{linked_alias, without_size};
ghost use Rattle.implib_rules.specs.Linked.{linked_import, linked_to, makes};
ghost use Rattle.implib_rules.specs.Linked.{name_given, naming_view, symbol_linked, symbol_of};
ghost use Rattle.implib_rules.specs.Linked.{word_asked, word_of};
ghost use Rattle.implib_rules.specs.Views.{first_given, is_linked, linked_by};
ghost use Rattle.std.specs.Prelude.{◌==◌, ◌≡◌, IfOk, OnOk, drop, map, option_map};
ghost use Rattle.std.specs.Char.{is_ascii_digit};
ghost use Rattle.std.specs.List.{before_last, list_all, list_any};
ghost use Rattle.std.specs.String.{string_bytes};

use implib::MachineType;
use implib::def::ShortExport;
use implib::msvc::name_type::{before_at_sign, without_prefix};
use std::alloc::{AllocError, Global};
use std::slice::Iter;

/// How names are read on I386, and how a short import names what Microsoft's linker asks for.
#[derive(Clone, Copy, Debug, PartialEq, Eq)]
pub struct Naming {
    /// Symbols are as written (`--no-leading-underscore`), without an underscore in front.
    pub is_plain: bool,
    /// The DLL is asked for names without the `@` and the number after them (`-k`).
    pub kills_at: bool,
    /// A name that no other name type makes of its symbol is the third text of a short import, of
    /// name type 4 (`--export-as`), for linkers that know it.
    pub exports_as: bool,
    /// A word with an `@` is a symbol as it is (LIB), and gets no underscore.
    pub keeps_decorated: bool,
}

// Whether two `@` stand side by side, as in a vectorcall name.
fn has_two_at_signs(word: &[u8]) -> bool
    ensures { result ≡ has_two_at_signs word.now }
{
    let mut is_after = false;
    for byte in word {
        if is_after && *byte == b'@' {
            return true;
        }
        is_after = *byte == b'@';
    }
    false
}

// Whether a word has an `@`.
pub(crate) fn has_at_sign(word: &[u8]) -> bool
    ensures { result ≡ list_any is_at_sign word.now }
{
    word.contains(&b'@')
}

/// Whether a word is a symbol of I386 as it is: of fastcall, C++ or vectorcall, and for LIB of
/// stdcall.
pub fn keeps_word(naming: Naming, word: &[u8]) -> bool
    ensures { result ≡ keeps_word (naming_view naming) word.now }
{
    word.first() == Some(&b'@')
        || word.first() == Some(&b'?')
        || has_two_at_signs(word)
        || (naming.keeps_decorated && has_at_sign(word))
}

/// The symbol that a word names.
///
/// # Errors
///
/// An allocation failed.
pub fn symbol_of(
    alloc: Global,
    machine: MachineType,
    naming: Naming,
    word: &str,
) -> Result<String, AllocError>
    ensures { IfOk result
        (λ symbol. string_bytes symbol ≡ symbol_of machine (naming_view naming) word.now) }
{
    let mut symbol = String::new(alloc);
    if machine.has_leading_underscore()
        && !naming.is_plain
        && !keeps_word(naming, word.as_bytes())
    {
        symbol.push('_')?;
    }
    symbol.push_str(word)?;
    Ok(symbol)
}

// Whether bytes are digits alone.
fn are_digits(bytes: &[u8]) -> bool
    ensures { result ≡ list_all is_ascii_digit bytes.now }
{
    bytes.iter().all(|byte| byte.is_ascii_digit())
}

// Whether a text is digits, and has some.
pub(crate) fn is_number(text: &[u8]) -> bool
    ensures { result ≡ is_number text.now }
{
    !text.is_empty() && are_digits(text)
}

// The text before the last `@` of a word; nothing where it has none.
fn before_last_at_sign(word: &str) -> &str
    ensures { result.now ≡ before_last is_at_sign word.now }
{
    match word.rfind('@') {
        Some(end) => &word[..end],
        None => "",
    }
}

// A text from an offset on.
fn from_offset(text: &[u8], from: usize) -> &[u8]
    ensures { result.now ≡ drop from text.now }
{
    &text[from.min(text.len())..]
}

// A name of C++ without the size of its arguments behind it.
fn without_size(word: &str) -> &str
    ensures { result.now ≡ without_size word.now }
{
    let front = before_last_at_sign(word);
    if front.as_bytes().ends_with(b"Z")
        && is_number(from_offset(word.as_bytes(), front.len() + 1))
    {
        front
    } else {
        word
    }
}

// A word without its `@` and the number after it, and without the `@` of fastcall in front.
fn killed(word: &str) -> &str
    ensures { result.now ≡ killed word.now }
{
    if word.as_bytes().first() == Some(&b'?') {
        return without_size(word);
    }
    let Some((front, rest)) = word.split_once('@') else {
        return word;
    };
    if !front.is_empty() {
        return front;
    }
    match rest.split_once('@') {
        Some((name, _)) => name,
        None => word,
    }
}

// What the DLL is asked for, for a word.
pub(crate) fn word_asked(machine: MachineType, naming: Naming, word: &str) -> &str
    ensures { result.now ≡ word_asked machine (naming_view naming) word.now }
{
    if machine.has_leading_underscore() && naming.kills_at {
        killed(word)
    } else {
        word
    }
}

/// What the DLL is asked for: the word after `==`, or else what the export's own word says.
pub fn asked_of<'a>(machine: MachineType, naming: Naming, word: &'a str, target: &'a str) -> &'a str
    ensures { result.now ≡ asked_of machine (naming_view naming) word.now target.now }
{
    if target.is_empty() {
        word_asked(machine, naming, word)
    } else {
        target
    }
}

/// The word by which an export is linked: its name, or its external name where it has one.
pub fn word_of(export: &ShortExport) -> &str
    ensures { result.now ≡ word_of (export_view export.now) }
{
    match &export.ext_name {
        Some(name) => name.as_str(),
        None => export.name.as_str(),
    }
}

/// The symbol by which an export is linked.
///
/// # Errors
///
/// An allocation failed.
pub fn symbol_linked(
    alloc: Global,
    machine: MachineType,
    naming: Naming,
    export: &ShortExport,
) -> Result<String, AllocError>
    ensures { IfOk result (λ symbol. string_bytes symbol
        ≡ symbol_linked machine (naming_view naming) (export_view export.now)) }
{
    symbol_of(alloc, machine, naming, word_of(export))
}

// Whether a name type makes a name of the symbol, whichever linker reads it: one that cuts does on
// I386 alone.
pub(crate) fn makes(machine: MachineType, symbol: &[u8], name: &[u8]) -> bool
    ensures { result ≡ makes machine symbol.now name.now }
{
    if symbol == name {
        return true;
    }
    let plain = without_prefix(symbol);
    machine.has_leading_underscore() && (plain == name || before_at_sign(plain) == name)
}

// Whether an export of this symbol cannot be an import by name for Microsoft's linker: it has a
// word after `==` that no short import of the symbol can ask for.
fn asks_apart(machine: MachineType, symbol: &str, export: &ShortExport) -> bool
    ensures { result ≡ asks_apart machine symbol.now (export_view export.now) }
{
    !export.alias_target.is_empty()
        && !export.private
        && !export.no_name
        && !makes(machine, symbol.as_bytes(), export.alias_target.as_bytes())
}

/// Whether an export cannot be an import by name for Microsoft's linker.
///
/// # Errors
///
/// An allocation failed.
pub fn is_apart(
    alloc: Global,
    machine: MachineType,
    naming: Naming,
    export: &ShortExport,
) -> Result<bool, AllocError>
    ensures { IfOk result
        (λ is. is ≡ is_apart machine (naming_view naming) (export_view export.now)) }
{
    if export.alias_target.is_empty() {
        return Ok(false);
    }
    let symbol = symbol_linked(alloc, machine, naming, export)?;
    Ok(asks_apart(machine, symbol.as_str(), export))
}

/// Whether Microsoft's linker imports an export by name.
///
/// # Errors
///
/// An allocation failed.
pub fn is_named_import(
    alloc: Global,
    machine: MachineType,
    naming: Naming,
    export: &ShortExport,
) -> Result<bool, AllocError>
    ensures { IfOk result
        (λ is. is ≡ is_named_import machine (naming_view naming) (export_view export.now)) }
{
    Ok(!export.private && !export.no_name && !is_apart(alloc, machine, naming, export)?)
}

// The asked name that an import gives: none where its members ask for its symbol and that is the
// name.
fn name_given(
    alloc: Global,
    machine: MachineType,
    symbol: &str,
    asked: &str,
) -> Result<Option<String>, AllocError>
    ensures { IfOk result
        (λ given. option_map string_bytes given ≡ name_given machine symbol.now asked.now) }
{
    if !machine.has_leading_underscore() && symbol == asked {
        return Ok(None);
    }
    Ok(Some(String::from_str(alloc, asked)?))
}

// Whether an export that gives no asked name is linked as it is: its word is its symbol, and what
// it asks for.
fn is_linked(machine: MachineType, export: &ShortExport) -> bool
    ensures { result ≡ is_linked machine (export_view export.now) }
{
    !machine.has_leading_underscore() && export.ext_name.is_none() && export.alias_target.is_empty()
}

// Gives an import its symbol, and the name that it asks the DLL for.
fn link_import(
    alloc: Global,
    machine: MachineType,
    naming: Naming,
    export: &mut ShortExport,
) -> Result<(), AllocError>
    ensures { OnOk result (export_view export.new
        ≡ linked_import machine (naming_view naming) (export_view export.old)) }
{
    if is_linked(machine, export) {
        export.asked_name = None;
        return Ok(());
    }
    let symbol = symbol_linked(alloc, machine, naming, export)?;
    let word = word_of(export);
    let target = export.alias_target.as_str();
    let asked = asked_of(machine, naming, word, target);
    let given = name_given(alloc, machine, symbol.as_str(), asked)?;
    export.name = symbol;
    export.ext_name = None;
    export.asked_name = given;
    export.alias_target = String::new(alloc);
    Ok(())
}

// Makes an export an alias: gives it its symbol, and the one that it is weak for.
fn link_alias(
    alloc: Global,
    machine: MachineType,
    naming: Naming,
    target: &str,
    export: &mut ShortExport,
) -> Result<(), AllocError>
    ensures { OnOk result (export_view export.new
        ≡ linked_alias machine (naming_view naming) target.now (export_view export.old)) }
{
    let symbol = symbol_linked(alloc, machine, naming, export)?;
    let asked = symbol.clone()?;
    let target = String::from_str(alloc, target)?;
    export.name = symbol;
    export.ext_name = None;
    export.asked_name = Some(asked);
    export.alias_target = target;
    Ok(())
}

// Gives an export its symbol, and what it asks the DLL for, or is weak for: the next of the
// symbols, if there is one and it is given.
fn link_export(
    alloc: Global,
    machine: MachineType,
    naming: Naming,
    export: &mut ShortExport,
    left: &mut Iter<'_, Option<String>>,
) -> Result<(), AllocError>
    ensures export { OnOk result (export_view export.new ≡ linked_to machine (naming_view naming)
        (first_given (map (option_map string_bytes) left.old.rest.now)) (export_view export.old)) }
    ensures left { OnOk result (map (option_map string_bytes) left.new.rest.now
        ≡ drop 1 (map (option_map string_bytes) left.old.rest.now)) }
{
    match left.next() {
        Some(Some(target)) => link_alias(alloc, machine, naming, target.as_str(), export),
        _ => link_import(alloc, machine, naming, export),
    }
}

/// Gives each export its symbol, and what it asks the DLL for by its words as they are written, or
/// is weak for: its own of these symbols, if there is one and it is given.
///
/// # Errors
///
/// An allocation failed; then some exports may be as they were.
pub fn link_exports(
    alloc: Global,
    machine: MachineType,
    naming: Naming,
    targets: &[Option<String>],
    exports: &mut Vec<ShortExport>,
) -> Result<(), AllocError>
    ensures { OnOk result (map export_view exports.new.items
        ≡ linked_by machine (naming_view naming) (map (option_map string_bytes) targets.now)
        (map export_view exports.old.items)) }
{
    let mut left = targets.iter();
    for export in exports.iter_mut() {
        link_export(alloc, machine, naming, export, &mut left)?;
    }
    Ok(())
}
