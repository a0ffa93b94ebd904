//! The words of a command line: as Microsoft's LIB has them, or as dlltool.

ghost use Rattle.implib_driver.specs.LibWords.{AreRead, IsReadAsLib, IsReadBy, is_lib_called};
ghost use Rattle.implib_driver.specs.LibWords.{is_lib_name, lack_for_listing, lack_for_making};
ghost use Rattle.implib_driver.specs.LibWords.{lack_of, lib_ways};
ghost use Rattle.implib_options.specs.Given.{given_view};
ghost use Rattle.implib_options.specs.Saying.{fault_view};
ghost use Rattle.implib_options.specs.Words.{IsRefusal};
ghost use Rattle.std.specs.Option.{option_map};
ghost use Rattle.std.specs.Prelude.{◌≡◌, ◌++◌, IfErr, IfOk, Ok, OnOk, map};
ghost use Rattle.std.specs.String.{string_bytes};

use crate::request::holds_text;
use implib_options::given::{Given, all, has, last};
use implib_options::table::{Meaning, Words};
use implib_options::words::{Fault, ReadError, read};
use implib_rules::name::last_part;
use std::alloc::{AllocError, Global};

// What options for a library lack, or have too much, by their files.
fn lack_for_making<'a>(options: &[Given<'a>], files: &[&'a str]) -> Option<Fault<'a>>
    ensures { option_map fault_view result ≡ lack_for_making (map given_view options.now)
        (map (λ file. file.now) files.now) }
{
    if let [file, ..] = files {
        return Some(Fault::File(file));
    }
    if last(options, Meaning::Definition).is_none() {
        return Some(Fault::NoDefinition);
    }
    if last(options, Meaning::Output).is_none() {
        return Some(Fault::NoOutput);
    }
    None
}

// The same of options for a list of members.
fn lack_for_listing<'a>(options: &[Given<'a>], files: &[&'a str]) -> Option<Fault<'a>>
    ensures { option_map fault_view result ≡ lack_for_listing (map given_view options.now)
        (map (λ file. file.now) files.now) }
{
    match files {
        [] => Some(Fault::NoLibrary),
        [_, further, ..] => Some(Fault::Further(further)),
        [_] => {
            if last(options, Meaning::Definition).is_some() {
                Some(Fault::ListedDefinition)
            } else {
                None
            }
        }
    }
}

// What options lack, or have too much, unless they ask for the help.
fn lack_of<'a>(alloc: Global, options: &[Given<'a>]) -> Result<Option<Fault<'a>>, AllocError>
    ensures { IfOk result (λ lack. option_map fault_view lack
        ≡ lack_of (map given_view options.now)) }
{
    if has(options, Meaning::Help) {
        return Ok(None);
    }
    let files = all(alloc, options, Meaning::Identify)?;
    if has(options, Meaning::ListsMembers) {
        Ok(lack_for_listing(options, &files))
    } else {
        Ok(lack_for_making(options, &files))
    }
}

// Appends what each library in LIB's words is made with: Microsoft's flavour, third texts, and
// decorated words as they are.
fn push_ways(given: &mut Vec<Given<'_>>) -> Result<(), AllocError>
    ensures { OnOk result
        (map given_view given.new.items ≡ map given_view given.old.items ++ lib_ways) }
{
    given.push(Given {
        meaning: Meaning::Flavor,
        value: "msvc",
    })?;
    given.push(Given {
        meaning: Meaning::ExportAs,
        value: "",
    })?;
    given.push(Given {
        meaning: Meaning::KeepsDecorated,
        value: "",
    })?;
    Ok(())
}

// The options of a command line in LIB's words, in order, and then these.
fn read_lib<'a>(alloc: Global, words: &'a [String]) -> Result<Vec<Given<'a>>, ReadError<'a>>
    ensures ok { IfOk result
        (λ given. IsReadAsLib (map string_bytes words.now) (Ok (map given_view given.items))) }
    ensures refused { IfErr result (IsRefusal (IsReadAsLib (map string_bytes words.now))) }
{
    match read(alloc, Words::Lib, words) {
        Ok(mut given) => {
            if let Some(fault) = lack_of(alloc, &given)? {
                return Err(ReadError::Refused(fault));
            }
            push_ways(&mut given)?;
            Ok(given)
        }
        Err(error) => Err(error),
    }
}

// Whether a name in small letters is LIB's: `lib`, or what ends in `-lib`, with `.exe` or without.
fn is_lib_called(name: &str) -> bool
    ensures { result ≡ is_lib_called name.now }
{
    let bytes = name.as_bytes();
    if holds_text(bytes, b"dlltool") {
        return false;
    }
    match name {
        "lib" | "lib.exe" => true,
        _ => bytes.ends_with(b"-lib") || bytes.ends_with(b"-lib.exe"),
    }
}

/// Whether the program is called as LIB is, by a name that is `lib` or ends in `-lib`, with `.exe`
/// or without, in letters of any case, and that does not hold `dlltool`.
///
/// # Errors
///
/// An allocation failed.
pub fn is_lib_name(alloc: Global, program: &str) -> Result<bool, AllocError>
    ensures { IfOk result (λ is. is ≡ is_lib_name program.now) }
{
    let name = last_part(program).to_ascii_lowercase(alloc)?;
    Ok(is_lib_called(name.as_str()))
}

// The options of a command line, in LIB's words or in those of dlltool.
fn read_by<'a>(
    alloc: Global,
    is_lib: bool,
    words: &'a [String],
) -> Result<Vec<Given<'a>>, ReadError<'a>>
    ensures ok { IfOk result
        (λ given. IsReadBy is_lib (map string_bytes words.now) (Ok (map given_view given.items))) }
    ensures refused { IfErr result (IsRefusal (IsReadBy is_lib (map string_bytes words.now))) }
{
    if is_lib {
        read_lib(alloc, words)
    } else {
        read(alloc, Words::Dlltool, words)
    }
}

/// The options of a command line, where the program is called so: in LIB's words after a first word
/// `--lib`, and where the program is called as LIB is; else in those of dlltool. To those in LIB's
/// words are added Microsoft's flavour, `--export-as` and that decorated words are symbols.
///
/// # Errors
///
/// The first fault of the words; of LIB's where none is and the help is not asked for, for a list
/// of members that there is no library, a further one, or a definition; else a file that is no
/// option, that there is no definition, or no file for the library. Before these, perhaps,
/// `OutOfMemory`.
pub fn words_read<'a>(
    alloc: Global,
    program: &str,
    words: &'a [String],
) -> Result<Vec<Given<'a>>, ReadError<'a>>
    ensures ok { IfOk result
        (λ given. AreRead program.now (map string_bytes words.now)
        (Ok (map given_view given.items))) }
    ensures refused { IfErr result
        (IsRefusal (AreRead program.now (map string_bytes words.now))) }
{
    if let [first, rest @ ..] = words {
        if first.as_str() == "--lib" {
            return read_by(alloc, true, rest);
        }
    }
    let is_lib = is_lib_name(alloc, program)?;
    read_by(alloc, is_lib, words)
}
