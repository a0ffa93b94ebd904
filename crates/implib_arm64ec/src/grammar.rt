//! The grammar of mangled names of C++ for Microsoft's compilers, as far as qualified names need
//! it: for each part and its first byte, the parts that are still to come.

ghost use Rattle.implib_arm64ec.specs.Grammar.{any_type, argument, argument_dollar};
ghost use Rattle.implib_arm64ec.specs.Grammar.{argument_dollars, array, at_sign, encoding};
ghost use Rattle.implib_arm64ec.specs.Grammar.{function_type, leaf, leaf_mark, leaf_underscore};
ghost use Rattle.implib_arm64ec.specs.Grammar.{leaf_underscores, letters, mangled_name, name};
ghost use Rattle.implib_arm64ec.specs.Grammar.{name_rest, no_except, number, pack_end, parameters};
ghost use Rattle.implib_arm64ec.specs.Grammar.{plain_type, qualifier, qualifiers, question};
ghost use Rattle.implib_arm64ec.specs.Grammar.{return_type, scope, scope_mark, signature};
ghost use Rattle.implib_arm64ec.specs.Grammar.{signature_end, storage, storage_rest, type_dollar};
ghost use Rattle.implib_arm64ec.specs.Grammar.{type_dollars, type_underscore, unsigned};
ghost use Rattle.std.specs.Prelude.{option_map, ◌≡◌};

use crate::nonterminal::Nonterminal::{
    self, AnyByte, AnyType, Argument, ArgumentDollar, ArgumentDollars, Arguments, Array, At,
    ClassName, ClassNames, Encoding, FunctionType, Leaf, LeafMark, LeafUnderscore, LeafUnderscores,
    Letters, MangledName, Mark, Name, NameRest, NoExcept, Number, PackEnd, Parameters, Pointee,
    Qualifier, Qualifiers, ReturnType, ScopeMark, Scopes, Signature, SignatureEnd, Storage,
    StorageRest, TypeDollar, TypeDollars, TypeUnderscore, Unsigned,
};

// A leaf, by its first byte: a digit for a name seen before, or a plain name.
pub(crate) fn leaf(byte: u8) -> Option<&'static [Nonterminal]>
    ensures { option_map (λ next. next.now) result ≡ leaf byte }
{
    match byte {
        b'0'..=b'9' => Some(&[]),
        b'?' => Some(&[LeafMark]),
        b'@' => None,
        _ => Some(&[NameRest]),
    }
}

// A template, or the code of an operator.
pub(crate) fn leaf_mark(byte: u8) -> Option<&'static [Nonterminal]>
    ensures { option_map (λ next. next.now) result ≡ leaf_mark byte }
{
    match byte {
        b'$' => Some(&[Leaf, Arguments]),
        b'_' => Some(&[LeafUnderscore]),
        b'0'..=b'9' | b'A'..=b'Z' => Some(&[]),
        _ => None,
    }
}

// The code of an operator behind `?_`.
pub(crate) fn leaf_underscore(byte: u8) -> Option<&'static [Nonterminal]>
    ensures { option_map (λ next. next.now) result ≡ leaf_underscore byte }
{
    match byte {
        b'_' => Some(&[LeafUnderscores]),
        b'0'..=b'9' | b'A'..=b'Z' => Some(&[]),
        _ => None,
    }
}

// The code of an operator behind `?__`: a literal's has a name.
pub(crate) fn leaf_underscores(byte: u8) -> Option<&'static [Nonterminal]>
    ensures { option_map (λ next. next.now) result ≡ leaf_underscores byte }
{
    match byte {
        b'K' => Some(&[Name]),
        b'0'..=b'9' | b'A'..=b'Z' => Some(&[]),
        _ => None,
    }
}

// A plain name is not empty.
pub(crate) fn name(byte: u8) -> Option<&'static [Nonterminal]>
    ensures { option_map (λ next. next.now) result ≡ name byte }
{
    match byte {
        b'@' => None,
        _ => Some(&[NameRest]),
    }
}

// A plain name ends at its `@`.
pub(crate) fn name_rest(byte: u8) -> Option<&'static [Nonterminal]>
    ensures { option_map (λ next. next.now) result ≡ name_rest byte }
{
    match byte {
        b'@' => Some(&[]),
        _ => Some(&[NameRest]),
    }
}

// A scope: a digit for a name seen before, or a plain name.
pub(crate) fn scope(byte: u8) -> Option<&'static [Nonterminal]>
    ensures { option_map (λ next. next.now) result ≡ scope byte }
{
    match byte {
        b'0'..=b'9' => Some(&[]),
        b'?' => Some(&[ScopeMark]),
        b'@' => None,
        _ => Some(&[NameRest]),
    }
}

// A template, a namespace without a name, or a block of a function, by its number.
pub(crate) fn scope_mark(byte: u8) -> Option<&'static [Nonterminal]>
    ensures { option_map (λ next. next.now) result ≡ scope_mark byte }
{
    match byte {
        b'$' => Some(&[Leaf, Arguments]),
        b'A' => Some(&[NameRest]),
        b'0'..=b'9' | b'@' => Some(&[Mark, MangledName]),
        b'B'..=b'P' => Some(&[Letters, Mark, MangledName]),
        _ => None,
    }
}

// Letters from A to P, for the digits to the base 16, and `@`.
pub(crate) fn letters(byte: u8) -> Option<&'static [Nonterminal]>
    ensures { option_map (λ next. next.now) result ≡ letters byte }
{
    match byte {
        b'@' => Some(&[]),
        b'A'..=b'P' => Some(&[Letters]),
        _ => None,
    }
}

// A `?`.
pub(crate) fn question(byte: u8) -> Option<&'static [Nonterminal]>
    ensures { option_map (λ next. next.now) result ≡ question byte }
{
    match byte {
        b'?' => Some(&[]),
        _ => None,
    }
}

// An `@`.
pub(crate) fn at_sign(byte: u8) -> Option<&'static [Nonterminal]>
    ensures { option_map (λ next. next.now) result ≡ at_sign byte }
{
    match byte {
        b'@' => Some(&[]),
        _ => None,
    }
}

// An argument: a digit for a type seen before, or a type.
pub(crate) fn argument(byte: u8) -> Option<&'static [Nonterminal]>
    ensures { option_map (λ next. next.now) result ≡ argument byte }
{
    match byte {
        b'$' => Some(&[ArgumentDollar]),
        b'0'..=b'9' => Some(&[]),
        _ => plain_type(byte),
    }
}

// An argument behind `$`: a value, a symbol, a symbol with offsets, offsets alone.
pub(crate) fn argument_dollar(byte: u8) -> Option<&'static [Nonterminal]>
    ensures { option_map (λ next. next.now) result ≡ argument_dollar byte }
{
    match byte {
        b'S' => Some(&[]),
        b'$' => Some(&[ArgumentDollars]),
        b'M' => Some(&[AnyType, Argument]),
        b'0' => Some(&[Number]),
        b'1' | b'E' => Some(&[MangledName]),
        b'H' => Some(&[MangledName, Number]),
        b'I' => Some(&[MangledName, Number, Number]),
        b'J' => Some(&[MangledName, Number, Number, Number]),
        b'F' => Some(&[Number, Number]),
        b'G' => Some(&[Number, Number, Number]),
        _ => None,
    }
}

// An argument behind `$$`: an empty pack, the name of a template, a type.
pub(crate) fn argument_dollars(byte: u8) -> Option<&'static [Nonterminal]>
    ensures { option_map (λ next. next.now) result ≡ argument_dollars byte }
{
    match byte {
        b'V' | b'Z' => Some(&[]),
        b'$' => Some(&[PackEnd]),
        b'Y' => Some(&[ClassName]),
        b'B' => Some(&[AnyType]),
        _ => type_dollars(byte),
    }
}

// The end of an empty pack.
pub(crate) fn pack_end(byte: u8) -> Option<&'static [Nonterminal]>
    ensures { option_map (λ next. next.now) result ≡ pack_end byte }
{
    match byte {
        b'V' => Some(&[]),
        _ => None,
    }
}

// A type.
pub(crate) fn any_type(byte: u8) -> Option<&'static [Nonterminal]>
    ensures { option_map (λ next. next.now) result ≡ any_type byte }
{
    match byte {
        b'$' => Some(&[TypeDollar]),
        _ => plain_type(byte),
    }
}

// The second `$`.
pub(crate) fn type_dollar(byte: u8) -> Option<&'static [Nonterminal]>
    ensures { option_map (λ next. next.now) result ≡ type_dollar byte }
{
    match byte {
        b'$' => Some(&[TypeDollars]),
        _ => None,
    }
}

// A type behind `$$`: with qualifiers, a reference to a value that moves, a function, the type of
// `nullptr`.
pub(crate) fn type_dollars(byte: u8) -> Option<&'static [Nonterminal]>
    ensures { option_map (λ next. next.now) result ≡ type_dollars byte }
{
    match byte {
        b'C' => Some(&[Qualifier, AnyType]),
        b'Q' | b'R' => Some(&[Pointee]),
        b'A' => Some(&[FunctionType]),
        b'T' => Some(&[]),
        _ => None,
    }
}

// A type without `$`: with qualifiers, a built-in one, a class, an enumeration, a pointer, an
// array.
pub(crate) fn plain_type(byte: u8) -> Option<&'static [Nonterminal]>
    ensures { option_map (λ next. next.now) result ≡ plain_type byte }
{
    match byte {
        b'?' => Some(&[Qualifier, AnyType]),
        b'C' | b'D' | b'E' | b'F' | b'G' | b'H' | b'I' | b'J' | b'K' | b'M' | b'N' | b'O' | b'X' =>
            Some(&[]),
        b'_' => Some(&[TypeUnderscore]),
        b'T' | b'U' | b'V' => Some(&[ClassName]),
        b'W' => Some(&[AnyByte, ClassName]),
        b'A' | b'B' | b'P' | b'Q' | b'R' | b'S' => Some(&[Pointee]),
        b'Y' => Some(&[Array]),
        _ => None,
    }
}

// A built-in type behind `_`.
pub(crate) fn type_underscore(byte: u8) -> Option<&'static [Nonterminal]>
    ensures { option_map (λ next. next.now) result ≡ type_underscore byte }
{
    match byte {
        b'D'
        | b'E'
        | b'F'
        | b'G'
        | b'H'
        | b'I'
        | b'J'
        | b'K'
        | b'L'
        | b'M'
        | b'N'
        | b'O'
        | b'P'
        | b'Q'
        | b'S'
        | b'T'
        | b'U'
        | b'W'
        | b'Z' => Some(&[]),
        _ => None,
    }
}

// A function, or a member function.
pub(crate) fn function_type(byte: u8) -> Option<&'static [Nonterminal]>
    ensures { option_map (λ next. next.now) result ≡ function_type byte }
{
    match byte {
        b'6' => Some(&[Signature]),
        b'8' => Some(&[At, At, Qualifiers, Signature]),
        _ => None,
    }
}

// Qualifiers of a member function, in any order, and of its object.
pub(crate) fn qualifiers(byte: u8) -> Option<&'static [Nonterminal]>
    ensures { option_map (λ next. next.now) result ≡ qualifiers byte }
{
    match byte {
        b'E' | b'F' | b'G' | b'H' | b'I' => Some(&[Qualifiers]),
        _ => qualifier(byte),
    }
}

// Qualifiers of a value, and of a member, with its class.
pub(crate) fn qualifier(byte: u8) -> Option<&'static [Nonterminal]>
    ensures { option_map (λ next. next.now) result ≡ qualifier byte }
{
    match byte {
        b'A' | b'B' | b'C' | b'D' => Some(&[]),
        b'Q' | b'R' | b'S' | b'T' => Some(&[ClassName]),
        _ => None,
    }
}

// A number with a sign, if it has one.
pub(crate) fn number(byte: u8) -> Option<&'static [Nonterminal]>
    ensures { option_map (λ next. next.now) result ≡ number byte }
{
    match byte {
        b'?' => Some(&[Unsigned]),
        _ => unsigned(byte),
    }
}

// A digit, or letters.
pub(crate) fn unsigned(byte: u8) -> Option<&'static [Nonterminal]>
    ensures { option_map (λ next. next.now) result ≡ unsigned byte }
{
    match byte {
        b'0'..=b'9' => Some(&[]),
        _ => letters(byte),
    }
}

// The end of a signature.
pub(crate) fn signature_end(byte: u8) -> Option<&'static [Nonterminal]>
    ensures { option_map (λ next. next.now) result ≡ signature_end byte }
{
    match byte {
        b'Z' => Some(&[]),
        b'_' => Some(&[NoExcept]),
        _ => None,
    }
}

// The end of a function that throws nothing.
pub(crate) fn no_except(byte: u8) -> Option<&'static [Nonterminal]>
    ensures { option_map (λ next. next.now) result ≡ no_except byte }
{
    match byte {
        b'E' => Some(&[]),
        _ => None,
    }
}

// A whole mangled name.
pub(crate) fn mangled_name(byte: u8) -> Option<&'static [Nonterminal]>
    ensures { option_map (λ next. next.now) result ≡ mangled_name byte }
{
    match byte {
        b'?' => Some(&[Leaf, Scopes, Encoding]),
        _ => None,
    }
}

// A variable; a guard; a table; other data; a function, whose object may have an offset.
pub(crate) fn encoding(byte: u8) -> Option<&'static [Nonterminal]>
    ensures { option_map (λ next. next.now) result ≡ encoding byte }
{
    match byte {
        b'0' | b'1' | b'2' | b'3' | b'4' => Some(&[AnyType, Storage]),
        b'5' => Some(&[Number]),
        b'6' | b'7' => Some(&[Qualifier, ClassNames]),
        b'8' | b'9' => Some(&[]),
        b'G' | b'H' | b'O' | b'P' | b'W' | b'X' => Some(&[Number, Qualifiers, Signature]),
        b'A' | b'B' | b'E' | b'F' | b'I' | b'J' | b'M' | b'N' | b'Q' | b'R' | b'U' | b'V' => Some(&[
            Qualifiers, Signature,
        ]),
        b'C' | b'D' | b'K' | b'L' | b'S' | b'T' | b'Y' | b'Z' => Some(&[Signature]),
        _ => None,
    }
}

// A variable's qualifiers.
pub(crate) fn storage_rest(byte: u8) -> Option<&'static [Nonterminal]>
    ensures { option_map (λ next. next.now) result ≡ storage_rest byte }
{
    match byte {
        b'I' => Some(&[Qualifier]),
        _ => qualifier(byte),
    }
}

// A constructor has no type of a result.
pub(crate) fn return_type(byte: u8) -> Option<&'static [Nonterminal]>
    ensures { option_map (λ next. next.now) result ≡ return_type byte }
{
    match byte {
        b'@' => Some(&[]),
        _ => any_type(byte),
    }
}

// An array: the number of its dimensions less 1, the dimensions, and the type of an item.
pub(crate) fn array(byte: u8) -> Option<&'static [Nonterminal]>
    ensures { option_map (λ next. next.now) result ≡ array byte }
{
    match byte {
        b'0' => Some(&[Number, AnyType]),
        b'1' => Some(&[Number, Number, AnyType]),
        b'2' => Some(&[Number, Number, Number, AnyType]),
        b'3' => Some(&[Number, Number, Number, Number, AnyType]),
        b'4' => Some(&[Number, Number, Number, Number, Number, AnyType]),
        b'5' => Some(&[Number, Number, Number, Number, Number, Number, AnyType]),
        b'6' => Some(&[
            Number, Number, Number, Number, Number, Number, Number, AnyType,
        ]),
        b'7' => Some(&[
            Number, Number, Number, Number, Number, Number, Number, Number, AnyType,
        ]),
        b'8' => Some(&[
            Number, Number, Number, Number, Number, Number, Number, Number, Number, AnyType,
        ]),
        b'9' => Some(&[
            Number, Number, Number, Number, Number, Number, Number, Number, Number, Number, AnyType,
        ]),
        _ => None,
    }
}

// A signature, behind any byte for the convention.
pub(crate) fn signature(_byte: u8) -> Option<&'static [Nonterminal]>
    ensures { option_map (λ next. next.now) result ≡ signature _byte }
{
    Some(&[ReturnType, Parameters, SignatureEnd])
}

// A variable's qualifiers, the first for pointers of 64 bits.
pub(crate) fn storage(byte: u8) -> Option<&'static [Nonterminal]>
    ensures { option_map (λ next. next.now) result ≡ storage byte }
{
    match byte {
        b'E' => Some(&[StorageRest]),
        _ => storage_rest(byte),
    }
}
