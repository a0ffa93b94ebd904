//! The text of the definition of a library.

ghost use Rattle.std.specs.Prelude.{◌≡◌, ◌++◌, [], decimal, map, IfOk, OnOk};
ghost use Rattle.std.specs.List.{list_all, list_any};
ghost use Rattle.implib_check_driver.specs.DefinitionText.{alias_text, asked_text, definition_text};
ghost use Rattle.implib_check_driver.specs.DefinitionText.{export_text, first_dll, hint_ordinal};
ghost use Rattle.implib_check_driver.specs.DefinitionText.{other_text, flavor_text, head_text};
ghost use Rattle.implib_check_driver.specs.DefinitionText.{hint_text, import_text, is_address};
ghost use Rattle.implib_check_driver.specs.DefinitionText.{is_behind, is_of_aliases};
ghost use Rattle.implib_check_driver.specs.DefinitionText.{word_of_target};
ghost use Rattle.implib_check_driver.specs.DefinitionText.{is_capital_or_digit, is_name_byte};
ghost use Rattle.implib_check_driver.specs.DefinitionText.{is_name_sign, is_plain_name};
ghost use Rattle.implib_check_driver.specs.DefinitionText.{is_small_letter, kind_text};
ghost use Rattle.implib_check_driver.specs.DefinitionText.{machine_text, member_text, members_text};
ghost use Rattle.implib_check_driver.specs.DefinitionText.{name_text};
ghost use Rattle.implib_check_driver.specs.DefinitionText.{naming_text, untold_text, weak_of};
ghost use Rattle.implib_check_driver.specs.DefinitionText.{weak_text, without_underscore};
ghost use Rattle.implib_check_driver.specs.DefinitionText.{word_of_symbol};
ghost use Rattle.implib_read.specs.AliasViews.{alias_view};
ghost use Rattle.implib_read.specs.ClassViews.{class_view, imported_view, member_read_view};
ghost use Rattle.implib_read.specs.ImportViews.{ask_view};
ghost use Rattle.implib_read.specs.Symbols.{linked_symbol, without_imp};
ghost use Rattle.implib_rules.specs.Linked.{naming_view};
ghost use Rattle.implib_rules.specs.Options.{library_options_view};

use implib::{Flavor, MachineType};
use implib_compare::keys::tells_constants;
use implib_read::{
    AliasFound, AskFound, ImportFound, ImportKind, MemberClass, MemberRead, dll_of, linked_symbol,
    without_imp,
};
use implib_rules::linked::{Naming, keeps_word};
use implib_rules::options::LibraryOptions;
use std::alloc::{AllocError, Global};

// Whether a byte is a small letter.
fn is_small_letter(byte: u8) -> bool
    ensures { result ≡ is_small_letter byte }
{
    b'a' <= byte && byte <= b'z'
}

// Whether a byte is a capital letter or a digit.
fn is_capital_or_digit(byte: u8) -> bool
    ensures { result ≡ is_capital_or_digit byte }
{
    (b'A' <= byte && byte <= b'Z') || (b'0' <= byte && byte <= b'9')
}

// Whether a byte is another one of names.
fn is_name_sign(byte: u8) -> bool
    ensures { result ≡ is_name_sign byte }
{
    byte == b'_' || byte == b'$' || byte == b'?' || byte == b'@' || byte == b'.'
}

// Whether a byte may be in a name without quotes.
fn is_name_byte(byte: u8) -> bool
    ensures { result ≡ is_name_byte byte }
{
    is_small_letter(byte) || is_capital_or_digit(byte) || is_name_sign(byte)
}

// Whether a name is of such bytes alone.
fn is_of_name_bytes(name: &[u8]) -> bool
    ensures { result ≡ list_all is_name_byte name.now }
{
    name.iter().all(|byte| is_name_byte(*byte))
}

// Whether a name has a small letter.
fn has_small_letter(name: &[u8]) -> bool
    ensures { result ≡ list_any is_small_letter name.now }
{
    name.iter().any(|byte| is_small_letter(*byte))
}

// Whether a name is written without quotes.
fn is_plain_name(name: &[u8]) -> bool
    ensures { result ≡ is_plain_name name.now }
{
    is_of_name_bytes(name) && has_small_letter(name) && name.first() != Some(&b'@')
}

// Adds a name, in quotes unless it needs none.
fn push_name(text: &mut Vec<u8>, name: &[u8]) -> Result<(), AllocError>
    ensures { OnOk result (text.new.items ≡ text.old.items ++ name_text name.now) }
{
    if is_plain_name(name) {
        text.extend_from_slice(name)?;
        return Ok(());
    }
    text.push(b'"')?;
    text.extend_from_slice(name)?;
    text.push(b'"')?;
    Ok(())
}

// Whether a symbol is that of an address.
fn is_address(symbol: &[u8]) -> bool
    ensures { result ≡ is_address symbol.now }
{
    symbol.starts_with(b"__imp_")
}

// A symbol without the underscore of C's names.
fn without_underscore(naming: Naming, symbol: &[u8]) -> &[u8]
    ensures { result.now ≡ without_underscore (naming_view naming) symbol.now }
{
    match symbol {
        [first, rest @ ..] => {
            if *first == b'_' && !keeps_word(naming, rest) {
                rest
            } else {
                symbol
            }
        }
        [] => symbol,
    }
}

// The word that names a symbol.
fn word_of_symbol(machine: MachineType, naming: Naming, symbol: &[u8]) -> &[u8]
    ensures { result.now ≡ word_of_symbol machine (naming_view naming) symbol.now }
{
    if machine.has_leading_underscore() && !naming.is_plain {
        without_underscore(naming, symbol)
    } else {
        symbol
    }
}

// Adds a number.
fn push_number(text: &mut Vec<u8>, number: u16) -> Result<(), AllocError>
    ensures { OnOk result (text.new.items ≡ text.old.items ++ decimal number) }
{
    let mut digits = itoa::Buffer::new();
    text.extend_from_slice(digits.format(number).as_bytes())?;
    Ok(())
}

// Adds the hint as an ordinal, if it is asked for.
fn push_hint_ordinal(text: &mut Vec<u8>, hints: bool, hint: u16) -> Result<(), AllocError>
    ensures { OnOk result (text.new.items ≡ text.old.items ++ hint_ordinal hints hint) }
{
    if hints && hint != 0 {
        text.extend_from_slice(b" @")?;
        push_number(text, hint)?;
    }
    Ok(())
}

// Adds a name that is asked for, unless it is the word.
fn push_other(text: &mut Vec<u8>, word: &[u8], name: &[u8]) -> Result<(), AllocError>
    ensures { OnOk result (text.new.items ≡ text.old.items ++ other_text word.now name.now) }
{
    if name != word {
        text.extend_from_slice(b" == ")?;
        push_name(text, name)?;
    }
    Ok(())
}

// Adds what is asked for, unless it is the word, and the hint where it is an ordinal.
fn push_asked(text: &mut Vec<u8>, hints: bool, word: &[u8], ask: AskFound) -> Result<(), AllocError>
    ensures { OnOk result
        (text.new.items ≡ text.old.items ++ asked_text hints word.now (ask_view ask.entry)) }
{
    match ask {
        AskFound::Ordinal(ordinal) => {
            text.extend_from_slice(b" @")?;
            push_number(text, ordinal)?;
            text.extend_from_slice(b" NONAME")?;
        }
        AskFound::Name(name, hint) => {
            push_other(text, word, name)?;
            push_hint_ordinal(text, hints, hint)?;
        }
    }
    Ok(())
}

// What an import is of. No text says that one is delayed.
fn kind_text(kind: ImportKind) -> &'static [u8]
    ensures { result.now ≡ kind_text kind }
{
    match kind {
        ImportKind::Code | ImportKind::CodeOrConst | ImportKind::Delayed => b"",
        ImportKind::Data => b" DATA",
        ImportKind::Const => b" CONSTANT",
    }
}

// Adds the hint, as a comment, where it is no ordinal.
fn push_hint(text: &mut Vec<u8>, hints: bool, ask: AskFound) -> Result<(), AllocError>
    ensures { OnOk result
        (text.new.items ≡ text.old.items ++ hint_text hints (ask_view ask.entry)) }
{
    match ask {
        AskFound::Name(_, hint) if !hints && hint != 0 => {
            text.extend_from_slice(b" ; hint ")?;
            push_number(text, hint)
        }
        _ => Ok(()),
    }
}

// Adds the line of an import, by its word.
fn push_export(
    text: &mut Vec<u8>,
    hints: bool,
    word: &[u8],
    import: &ImportFound,
) -> Result<(), AllocError>
    ensures { OnOk result
        (text.new.items ≡ text.old.items ++ export_text hints word.now (imported_view import.now)) }
{
    text.extend_from_slice(b"    ")?;
    push_name(text, word)?;
    push_asked(text, hints, word, import.ask)?;
    text.extend_from_slice(kind_text(import.kind))?;
    push_hint(text, hints, import.ask)?;
    text.push(b'\n')?;
    Ok(())
}

// Whether a symbol is the name that is asked for behind this byte.
fn is_behind(first: u8, symbol: &[u8], ask: AskFound) -> bool
    ensures { result ≡ is_behind first symbol.now (ask_view ask.entry) }
{
    match (symbol, ask) {
        ([byte, rest @ ..], AskFound::Name(name, _)) => *byte == first && rest == name,
        _ => false,
    }
}

// Whether an import is one that aliases lead to.
fn is_of_aliases(import: &ImportFound) -> bool
    ensures { result ≡ is_of_aliases (imported_view import.now) }
{
    let first = match import.kind {
        ImportKind::Data | ImportKind::Const => b'@',
        ImportKind::Code | ImportKind::CodeOrConst | ImportKind::Delayed => b'?',
    };
    is_behind(first, linked_symbol(&import.declared), import.ask)
}

// Adds the line of an import, unless the aliases that lead to it say it.
fn push_import(
    text: &mut Vec<u8>,
    hints: bool,
    machine: MachineType,
    naming: Naming,
    import: &ImportFound,
) -> Result<(), AllocError>
    ensures { OnOk result
        (text.new.items ≡ text.old.items
        ++ import_text hints machine (naming_view naming) (imported_view import.now)) }
{
    if is_of_aliases(import) {
        return Ok(());
    }
    let word = word_of_symbol(machine, naming, linked_symbol(&import.declared));
    push_export(text, hints, word, import)
}

// What an alias's line says of the symbol that it is weak for.
fn word_of_target(machine: MachineType, naming: Naming, symbol: &[u8]) -> &[u8]
    ensures { result.now ≡ word_of_target machine (naming_view naming) symbol.now }
{
    match symbol {
        [b'?' | b'@', rest @ ..] => rest,
        _ => word_of_symbol(machine, naming, symbol),
    }
}

// Adds the line of an alias of one symbol for another, with what it is of.
fn push_weak(
    text: &mut Vec<u8>,
    machine: MachineType,
    naming: Naming,
    symbols: (&[u8], &[u8]),
    of: &[u8],
) -> Result<(), AllocError>
    ensures { OnOk result
        (text.new.items ≡ text.old.items
        ++ weak_text machine (naming_view naming) symbols.entry.0.now symbols.entry.1.now of.now) }
{
    text.extend_from_slice(b"    ")?;
    push_name(text, word_of_symbol(machine, naming, symbols.0))?;
    text.extend_from_slice(b" == ")?;
    push_name(text, word_of_target(machine, naming, symbols.1))?;
    text.extend_from_slice(of)?;
    text.push(b'\n')?;
    Ok(())
}

// Adds the line of an alias, unless it is of an address and the member before it is that of the
// symbol.
fn push_alias(
    text: &mut Vec<u8>,
    machine: MachineType,
    naming: Naming,
    before: &[u8],
    alias: &AliasFound,
) -> Result<(), AllocError>
    ensures { OnOk result
        (text.new.items ≡ text.old.items
        ++ alias_text machine (naming_view naming) before.now (alias_view alias.now)) }
{
    if !is_address(alias.weak) {
        return push_weak(text, machine, naming, (alias.weak, alias.target), b"");
    }
    let weak = without_imp(alias.weak);
    if before == weak {
        return Ok(());
    }
    let target = without_imp(alias.target);
    push_weak(text, machine, naming, (weak, target), b" DATA")
}

// Adds the line of a member, if it has one.
fn push_member(
    text: &mut Vec<u8>,
    hints: bool,
    machine: MachineType,
    naming: Naming,
    before: &[u8],
    class: &MemberClass,
) -> Result<(), AllocError>
    ensures { OnOk result
        (text.new.items ≡ text.old.items
        ++ member_text hints machine (naming_view naming) before.now (class_view class.now)) }
{
    match class {
        MemberClass::Import(import) => push_import(text, hints, machine, naming, import),
        MemberClass::Alias(alias) => push_alias(text, machine, naming, before, alias),
        _ => Ok(()),
    }
}

// The weak symbol of a member, if it is an alias.
fn weak_of<'a>(class: &MemberClass<'a>) -> &'a [u8]
    ensures { result.now ≡ weak_of (class_view class.now) }
{
    match class {
        MemberClass::Alias(alias) => alias.weak,
        _ => b"",
    }
}

// Adds the lines of members.
fn push_members(
    text: &mut Vec<u8>,
    hints: bool,
    machine: MachineType,
    naming: Naming,
    members: &[MemberRead],
) -> Result<(), AllocError>
    ensures { OnOk result
        (text.new.items ≡ text.old.items
        ++ members_text hints machine (naming_view naming) [] (map member_read_view members.now)) }
{
    let mut before: &[u8] = b"";
    for member in members {
        push_member(text, hints, machine, naming, before, &member.class)?;
        before = weak_of(&member.class);
    }
    Ok(())
}

// A machine's name.
fn machine_text(machine: MachineType) -> &'static [u8]
    ensures { result.now ≡ machine_text machine }
{
    match machine {
        MachineType::I386 => b"i386",
        MachineType::AMD64 => b"i386:x86-64",
        MachineType::ARMNT => b"arm",
        MachineType::ARM64 => b"arm64",
    }
}

// A flavour's name.
fn flavor_text(flavor: Flavor) -> &'static [u8]
    ensures { result.now ≡ flavor_text flavor }
{
    match flavor {
        Flavor::Msvc => b"msvc",
        Flavor::Gnu => b"gnu",
    }
}

// The option that says how names are read.
fn naming_text(naming: Naming) -> &'static [u8]
    ensures { result.now ≡ naming_text (naming_view naming) }
{
    if naming.is_plain {
        b" --no-leading-underscore"
    } else {
        b""
    }
}

// That CONSTANT is not told from code.
fn untold_text(told: bool) -> &'static [u8]
    ensures { result.now ≡ untold_text told }
{
    if told {
        b""
    } else {
        b"; CONSTANT is not told from code\n"
    }
}

// The DLL of the first import.
fn first_dll<'a>(members: &[MemberRead<'a>]) -> &'a [u8]
    ensures { result.now ≡ first_dll (map member_read_view members.now) }
{
    for member in members {
        if let Some(dll) = dll_of(&member.class) {
            return dll;
        }
    }
    b""
}

// Adds what stands before the exports.
fn push_head(
    text: &mut Vec<u8>,
    options: &LibraryOptions,
    told: bool,
    dll: &[u8],
) -> Result<(), AllocError>
    ensures { OnOk result
        (text.new.items ≡ text.old.items
        ++ head_text (library_options_view options.now) told dll.now) }
{
    text.extend_from_slice(b"; -m ")?;
    text.extend_from_slice(machine_text(options.machine))?;
    text.extend_from_slice(b" --flavor ")?;
    text.extend_from_slice(flavor_text(options.flavor))?;
    text.extend_from_slice(naming_text(options.naming))?;
    text.push(b'\n')?;
    text.extend_from_slice(untold_text(told))?;
    text.extend_from_slice(b"LIBRARY ")?;
    push_name(text, dll)?;
    text.extend_from_slice(b"\nEXPORTS\n")?;
    Ok(())
}

/// The text that says the imports and aliases of a library, as far as a text can, in time linear in
/// their length. The hints are ordinals of exports by name, by which an import library has them
/// again, or comments.
pub fn definition_text(
    alloc: Global,
    hints: bool,
    options: &LibraryOptions,
    members: &[MemberRead],
) -> Result<Vec<u8>, AllocError>
    ensures { IfOk result
        (λ text. text.items
        ≡ definition_text hints (library_options_view options.now)
        (map member_read_view members.now)) }
{
    let mut text = Vec::new(alloc);
    push_head(
        &mut text,
        options,
        tells_constants(members),
        first_dll(members),
    )?;
    push_members(&mut text, hints, options.machine, options.naming, members)?;
    Ok(text)
}
