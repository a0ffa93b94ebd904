//! The words of a command line, read as options.

ghost use Rattle.implib_options.specs.Given.{GivenView, given_view};
ghost use Rattle.implib_options.specs.Saying.{file_saying, said_view, saying};
ghost use Rattle.implib_options.specs.Words.{Adds, AddsLetters, IsRead, IsRefusal, LeadsOn};
ghost use Rattle.implib_options.specs.Words.{is_lib, is_option, is_switch, long_saying};
ghost use Rattle.implib_options.specs.Words.{unless_empty};
ghost use Rattle.implib_options.specs.declared.words.ReadError.TheVariants.{OutOfMemory};
ghost use Rattle.std.specs.Bool.{OnTrue};
ghost use Rattle.std.specs.Option.{option_map};
ghost use Rattle.std.specs.Prelude.{◌≡◌, ◌<◌, ◌≤◌, ◌∷◌, IfErr, IfOk, Ok, length, map};
ghost use Rattle.std.specs.String.{string_bytes};

use crate::given::Given;
use crate::lib_words::lib_saying;
use crate::lookup::{lettered, named};
use crate::table::{Meaning, Takes, Words};
use std::alloc::{AllocError, AllocFailed, Global};

/// What is wrong with the words of a command line; of LIB's alone what comes after `NoValue`.
#[derive(Clone, Copy, Debug, PartialEq, Eq)]
pub enum Fault<'a> {
    /// The option has no meaning here.
    Unsupported(&'a str),
    /// There is no such option, or it takes no value and has one.
    Unknown(&'a str),
    /// The word is no option, and no file where one may stand: it names a file of options, or comes
    /// after `--`.
    File(&'a str),
    /// The last word is an option that lacks its value.
    NoValue(Meaning),
    /// The option of the word lacks its colon or its value.
    NoValueIn(&'a str),
    /// The word names no machine.
    NoMachine(&'a str),
    /// There is no definition.
    NoDefinition,
    /// There is no file for the library.
    NoOutput,
    /// There is no library whose members are listed.
    NoLibrary,
    /// The word is the file of a further one.
    Further(&'a str),
    /// Members are listed, and there is a definition.
    ListedDefinition,
}

/// Why words are not read.
#[derive(Debug, Drop)]
pub enum ReadError<'a> {
    /// A word is refused.
    Refused(Fault<'a>),
    /// An allocation failed.
    OutOfMemory,
}

impl<'a> From<AllocError> for ReadError<'a> {
    ghost from_gives = { λ _ error. error ≡ OutOfMemory };

    fn from(_refused: AllocError) -> ReadError<'a> {
        ReadError::OutOfMemory
    }
}

impl<'a, T: Drop> From<AllocFailed<T>> for ReadError<'a> {
    ghost from_gives = { λ _ error. error ≡ OutOfMemory };

    fn from(_refused: AllocFailed<T>) -> ReadError<'a> {
        ReadError::OutOfMemory
    }
}

// What a word says.
#[derive(Clone, Copy)]
pub(crate) enum Said<'a> {
    // An option that is whole, or a file.
    Whole(Given<'a>),
    // An option whose value is the next word.
    Begun(Meaning),
    // No option follows.
    Ends,
    Wrong(Fault<'a>),
}

// What an option says that takes and means this, in a word that may have its value.
fn saying<'a>(word: &'a str, kind: Option<(Takes, Meaning)>, value: Option<&'a str>) -> Said<'a>
    ensures { said_view result
        ≡ saying word.now kind (option_map (λ text. text.now) value.entry) }
{
    match kind {
        None => Said::Wrong(Fault::Unknown(word)),
        Some((Takes::Refused, _)) => Said::Wrong(Fault::Unsupported(word)),
        Some((Takes::Nothing, meaning)) => match value {
            None => Said::Whole(Given { meaning, value: "" }),
            Some(_) => Said::Wrong(Fault::Unknown(word)),
        },
        Some((Takes::Value, meaning)) => match value {
            None => Said::Begun(meaning),
            Some(value) => Said::Whole(Given { meaning, value }),
        },
    }
}

// What the text behind the `--` of a word says.
fn long_saying<'a>(of: Words, word: &'a str, text: &'a str) -> Said<'a>
    ensures { said_view result ≡ long_saying of word.now text.now }
{
    match text.split_once('=') {
        Some((name, value)) => saying(word, named(of, name), Some(value)),
        None => saying(word, named(of, text), None),
    }
}

// Whether a word is an option.
fn is_option(word: &str) -> bool
    ensures test { result ≡ is_option word.now }
    ensures long { OnTrue result (1 < length word.now) }
{
    match word.as_bytes() {
        [b'-', _, ..] => true,
        _ => false,
    }
}

// What a word says that is no option: it is a file of this meaning, but for `@FILE`, a file of
// options.
pub(crate) fn file_saying(meaning: Meaning, word: &str) -> Said<'_>
    ensures { said_view result ≡ file_saying meaning word.now }
{
    match word.as_bytes() {
        [b'@', ..] => Said::Wrong(Fault::File(word)),
        _ => Said::Whole(Given {
            meaning,
            value: word,
        }),
    }
}

// Whether the words are LIB's.
fn is_lib(of: Words) -> bool
    ensures { result ≡ is_lib of }
{
    match of {
        Words::Lib => true,
        Words::Dlltool | Words::Check => false,
    }
}

// Whether an option that takes this takes no value.
fn is_switch(takes: Takes) -> bool
    ensures { result ≡ is_switch takes }
{
    match takes {
        Takes::Nothing => true,
        Takes::Value | Takes::Refused => false,
    }
}

// A text, if it is not empty.
fn unless_empty(text: &str) -> Option<&str>
    ensures { option_map (λ text. text.now) result ≡ unless_empty text.now }
{
    if text.is_empty() { None } else { Some(text) }
}

// Adds the options of the letters behind the `-` of a word that come before its last one, and gives
// what that says.
fn add_letters<'a>(
    given: &mut Vec<Given<'a>>,
    of: Words,
    word: &'a str,
    letters: &'a str,
) -> Result<Said<'a>, AllocError>
    requires { 0 < length letters.now }
    ensures { IfOk result (λ said. AddsLetters of word.now letters.now
        (map given_view given.old.items) (map given_view given.new.items) (said_view said)) }
{
    let mut text = letters;
    'letters: loop {
        let letter = text.as_bytes()[0];
        let Some((takes, meaning)) = lettered(of, letter) else {
            return Ok(Said::Wrong(Fault::Unknown(word)));
        };
        let rest = &text[1..];
        if rest.is_empty() || !is_switch(takes) {
            return Ok(saying(word, Some((takes, meaning)), unless_empty(rest)));
        }
        given.push(Given { meaning, value: "" })?;
        text = rest;
    }
}

// Adds the options of a word that come before its last one, and gives what that says.
fn add_front<'a>(
    alloc: Global,
    given: &mut Vec<Given<'a>>,
    of: Words,
    word: &'a str,
) -> Result<Said<'a>, AllocError>
    ensures { IfOk result (λ said. Adds of word.now
        (map given_view given.old.items) (map given_view given.new.items) (said_view said)) }
{
    if is_lib(of) {
        let said = lib_saying(alloc, word)?;
        return Ok(said);
    }
    if !is_option(word) {
        return Ok(file_saying(Meaning::Input, word));
    }
    let bytes = word.as_bytes();
    if bytes[1] != b'-' {
        let said = add_letters(given, of, word, &word[1..])?;
        return Ok(said);
    }
    if bytes.len() == 2 {
        return Ok(Said::Ends);
    }
    Ok(long_saying(of, word, &word[2..]))
}

// Adds the options of a word, with the next one where that is a value, and gives the words behind.
fn add_word<'a>(
    alloc: Global,
    given: &mut Vec<Given<'a>>,
    of: Words,
    word: &'a str,
    next: &'a [String],
) -> Result<&'a [String], ReadError<'a>>
    ensures ok { IfOk result (λ rest. LeadsOn of
        (map given_view given.old.items) (word.now ∷ map string_bytes next.now)
        (map given_view given.new.items) (map string_bytes rest.now)) }
    ensures fewer { IfOk result (λ rest. length rest.now ≤ length next.now) }
    ensures refused { IfErr result (IsRefusal (IsRead of (word.now ∷ map string_bytes next.now))) }
{
    match add_front(alloc, given, of, word)? {
        Said::Whole(option) => {
            given.push(option)?;
            Ok(next)
        }
        Said::Begun(meaning) => match next {
            [value, rest @ ..] => {
                given.push(Given {
                    meaning,
                    value: value.as_str(),
                })?;
                Ok(rest)
            }
            [] => Err(ReadError::Refused(Fault::NoValue(meaning))),
        },
        Said::Ends => match next {
            [] => Ok(next),
            [file, ..] => Err(ReadError::Refused(Fault::File(file.as_str()))),
        },
        Said::Wrong(fault) => Err(ReadError::Refused(fault)),
    }
}

/// The options that words spell, in order, each with its value, and files among them as
/// `Meaning::Input`: `--NAME`, `--NAME VALUE`, `--NAME=VALUE`, `-x`, `-x VALUE`, `-xVALUE`, letters
/// without a value in one word with the last, as in `-kd FILE`; after `--` nothing follows. LIB's
/// are `/NAME` and `/NAME:VALUE`, with `/` or `-` and in letters of any case, with a machine by its
/// name for `-m`, and files among them as `Meaning::Identify`.
///
/// # Errors
///
/// The first word that is refused, or an option at the end that lacks its value; before these,
/// perhaps, `OutOfMemory`.
pub fn read<'a>(
    alloc: Global,
    of: Words,
    words: &'a [String],
) -> Result<Vec<Given<'a>>, ReadError<'a>>
    ensures ok { IfOk result
        (λ given. IsRead of (map string_bytes words.now) (Ok (map given_view given.items))) }
    ensures refused { IfErr result (IsRefusal (IsRead of (map string_bytes words.now))) }
{
    let mut given = Vec::new(alloc);
    let mut left = words;
    while let [word, next @ ..] = left {
        match add_word(alloc, &mut given, of, word.as_str(), next) {
            Ok(rest) => left = rest,
            Err(error) => return Err(error),
        }
    }
    Ok(given)
}
