//! The parts that follow the first byte of any part of a mangled name.

ghost use Rattle.implib_arm64ec.specs.Grammar.{arguments, class_name, class_names, parameters};
ghost use Rattle.implib_arm64ec.specs.Grammar.{parameters_rest, pointee, pointee_rest, scopes};
ghost use Rattle.implib_arm64ec.specs.Grammar.{followed, next};
ghost use Rattle.implib_arm64ec.specs.Views.{production};
ghost use Rattle.std.specs.Prelude.{option_map, ◌≡◌};

use crate::grammar::{
    any_type, argument, argument_dollar, argument_dollars, array, at_sign, encoding, function_type,
    leaf, leaf_mark, leaf_underscore, leaf_underscores, letters, mangled_name, name, name_rest,
    no_except, number, pack_end, plain_type, qualifier, qualifiers, question, return_type, scope,
    scope_mark, signature, signature_end, storage, storage_rest, type_dollar, type_dollars,
    type_underscore, unsigned,
};
use crate::nonterminal::Nonterminal::{
    self, AnyByte, AnyType, Argument, ArgumentDollar, ArgumentDollars, Arguments, Array, At,
    ClassName, ClassNames, Encoding, FunctionType, Leaf, LeafMark, LeafUnderscore, LeafUnderscores,
    Letters, MangledName, Mark, Name, NameRest, NoExcept, Number, PackEnd, Parameters,
    ParametersRest, Pointee, PointeeRest, Qualifier, Qualifiers, ReturnType, ScopeMark, Scopes,
    Signature, SignatureEnd, Storage, StorageRest, TypeDollar, TypeDollars, TypeUnderscore,
    Unsigned,
};

/// The parts that are to come, in order: these, and then those of `then`.
#[derive(Clone, Copy)]
pub(crate) struct Production {
    pub parts: &'static [Nonterminal],
    pub then: &'static [Nonterminal],
}

// No further parts.
fn alone(parts: Option<&'static [Nonterminal]>) -> Option<Production>
    ensures { option_map production result ≡ option_map (λ next. next.now) parts.entry }
{
    followed(parts, &[])
}

// Some parts, if there are any, and then others.
fn followed(
    parts: Option<&'static [Nonterminal]>,
    then: &'static [Nonterminal],
) -> Option<Production>
    ensures { option_map production result ≡ followed (option_map (λ next. next.now) parts.entry)
        then.now }
{
    match parts {
        Some(parts) => Some(Production { parts, then }),
        None => None,
    }
}

// Scopes up to an `@`.
fn scopes(byte: u8) -> Option<Production>
    ensures { option_map production result ≡ scopes byte }
{
    match byte {
        b'@' => alone(Some(&[])),
        _ => followed(scope(byte), &[Scopes]),
    }
}

// Arguments up to an `@`.
fn arguments(byte: u8) -> Option<Production>
    ensures { option_map production result ≡ arguments byte }
{
    match byte {
        b'@' => alone(Some(&[])),
        _ => followed(argument(byte), &[Arguments]),
    }
}

// Qualifiers of the pointer, and a type.
fn pointee_rest(byte: u8) -> Option<Production>
    ensures { option_map production result ≡ pointee_rest byte }
{
    match byte {
        b'E' | b'F' | b'I' => alone(Some(&[PointeeRest])),
        _ => followed(qualifier(byte), &[AnyType]),
    }
}

// A function, a member function of a class, or a type.
fn pointee(byte: u8) -> Option<Production>
    ensures { option_map production result ≡ pointee byte }
{
    match byte {
        b'6' | b'7' => alone(Some(&[Signature])),
        b'8' | b'9' => alone(Some(&[ClassName, Qualifiers, Signature])),
        _ => pointee_rest(byte),
    }
}

// A class, with its scopes.
fn class_name(byte: u8) -> Option<Production>
    ensures { option_map production result ≡ class_name byte }
{
    followed(scope(byte), &[Scopes])
}

// Classes up to an `@`.
fn class_names(byte: u8) -> Option<Production>
    ensures { option_map production result ≡ class_names byte }
{
    match byte {
        b'@' => alone(Some(&[])),
        _ => followed(scope(byte), &[Scopes, ClassNames]),
    }
}

// Parameters up to an `@`, or to a `Z` for more of any type; a digit for a type seen before.
fn parameters_rest(byte: u8) -> Option<Production>
    ensures { option_map production result ≡ parameters_rest byte }
{
    match byte {
        b'@' | b'Z' => alone(Some(&[])),
        b'0'..=b'9' => alone(Some(&[ParametersRest])),
        _ => followed(any_type(byte), &[ParametersRest]),
    }
}

// No parameters, or some.
fn parameters(byte: u8) -> Option<Production>
    ensures { option_map production result ≡ parameters byte }
{
    match byte {
        b'X' => alone(Some(&[])),
        _ => parameters_rest(byte),
    }
}

/// The parts behind the first byte of a part.
pub(crate) fn next(part: Nonterminal, byte: u8) -> Option<Production>
    ensures { option_map production result ≡ next part byte }
{
    match part {
        Leaf => alone(leaf(byte)),
        LeafMark => alone(leaf_mark(byte)),
        LeafUnderscore => alone(leaf_underscore(byte)),
        LeafUnderscores => alone(leaf_underscores(byte)),
        Name => alone(name(byte)),
        NameRest => alone(name_rest(byte)),
        Scopes => scopes(byte),
        ScopeMark => alone(scope_mark(byte)),
        Letters => alone(letters(byte)),
        Mark => alone(question(byte)),
        At => alone(at_sign(byte)),
        Arguments => arguments(byte),
        Argument => alone(argument(byte)),
        ArgumentDollar => alone(argument_dollar(byte)),
        ArgumentDollars => alone(argument_dollars(byte)),
        PackEnd => alone(pack_end(byte)),
        AnyType => alone(any_type(byte)),
        TypeDollar => alone(type_dollar(byte)),
        TypeDollars => alone(type_dollars(byte)),
        TypeUnderscore => alone(type_underscore(byte)),
        AnyByte => alone(Some(&[])),
        Array => alone(array(byte)),
        FunctionType => alone(function_type(byte)),
        Qualifiers => alone(qualifiers(byte)),
        Qualifier => alone(qualifier(byte)),
        Pointee => pointee(byte),
        PointeeRest => pointee_rest(byte),
        ClassName => class_name(byte),
        ClassNames => class_names(byte),
        Number => alone(number(byte)),
        Unsigned => alone(unsigned(byte)),
        Signature => alone(signature(byte)),
        ReturnType => alone(return_type(byte)),
        Parameters => parameters(byte),
        ParametersRest => parameters_rest(byte),
        SignatureEnd => alone(signature_end(byte)),
        NoExcept => alone(no_except(byte)),
        MangledName => alone(mangled_name(byte)),
        Encoding => alone(encoding(byte)),
        Storage => alone(storage(byte)),
        StorageRest => alone(storage_rest(byte)),
    }
}
