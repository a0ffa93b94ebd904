//! The words of a command line as Microsoft's LIB has them.

ghost use Rattle.implib_options.specs.LibWords.{is_mark, is_path, lib_kind_saying};
ghost use Rattle.implib_options.specs.LibWords.{lib_option_saying, lib_raw_saying, lib_saying};
ghost use Rattle.implib_options.specs.LibWords.{machine_saying};
ghost use Rattle.implib_options.specs.Saying.{said_view};
ghost use Rattle.implib_options.specs.Table.{lib_machine};
ghost use Rattle.std.specs.Bool.{OnTrue};
ghost use Rattle.std.specs.Option.{option_map};
ghost use Rattle.std.specs.Prelude.{◌≡◌, ◌<◌, IfOk};

use crate::given::Given;
use crate::lookup::{lib_machine, named};
use crate::table::{Meaning, Takes, Words};
use crate::words::{Fault, Said, file_saying};
use std::alloc::{AllocError, Global};

// Whether a word that is no option is the path of a file: after its `/` is another one or a full
// stop, and no `=`.
fn is_path(word: &str) -> bool
    ensures { result ≡ is_path word.now }
{
    match word.as_bytes() {
        [b'/', rest @ ..] => {
            !rest.contains(&b'=') && (rest.contains(&b'/') || rest.contains(&b'.'))
        }
        _ => false,
    }
}

// What an option says that takes and means this, in a word that may have a value.
fn lib_kind_saying<'a>(
    word: &'a str,
    kind: Option<(Takes, Meaning)>,
    value: Option<&'a str>,
) -> Said<'a>
    ensures { said_view result
        ≡ lib_kind_saying word.now kind (option_map (λ text. text.now) value.entry) }
{
    match kind {
        None => match value {
            None if is_path(word) => file_saying(Meaning::Identify, word),
            _ => Said::Wrong(Fault::Unknown(word)),
        },
        Some((Takes::Refused, _)) => Said::Wrong(Fault::Unsupported(word)),
        Some((Takes::Nothing, meaning)) => match value {
            None => Said::Whole(Given { meaning, value: "" }),
            Some(_) => Said::Wrong(Fault::Unknown(word)),
        },
        Some((Takes::Value, meaning)) => match value {
            Some(value) if !value.is_empty() => Said::Whole(Given { meaning, value }),
            _ => Said::Wrong(Fault::NoValueIn(word)),
        },
    }
}

// What the text of an option says, behind the first byte of a word.
fn lib_option_saying<'a>(
    alloc: Global,
    word: &'a str,
    text: &'a str,
) -> Result<Said<'a>, AllocError>
    ensures { IfOk result (λ said. said_view said ≡ lib_option_saying word.now text.now) }
{
    match text.split_once(':') {
        Some((name, value)) => {
            let name = name.to_ascii_lowercase(alloc)?;
            Ok(lib_kind_saying(word, named(Words::Lib, name.as_str()), Some(value)))
        }
        None => {
            let name = text.to_ascii_lowercase(alloc)?;
            Ok(lib_kind_saying(word, named(Words::Lib, name.as_str()), None))
        }
    }
}

// Whether an option begins with the byte.
fn is_mark(byte: u8) -> bool
    ensures test { result ≡ is_mark byte }
    ensures ascii { OnTrue result (byte < 128) }
{
    byte == b'/' || byte == b'-'
}

// What a word says, whose machine is not named for `-m`.
fn lib_raw_saying<'a>(alloc: Global, word: &'a str) -> Result<Said<'a>, AllocError>
    ensures { IfOk result (λ said. said_view said ≡ lib_raw_saying word.now) }
{
    let bytes = word.as_bytes();
    if bytes.is_empty() || !is_mark(bytes[0]) {
        return Ok(file_saying(Meaning::Identify, word));
    }
    lib_option_saying(alloc, word, &word[1..])
}

// What a word says that names a machine in small letters.
fn machine_saying<'a>(word: &'a str, name: &str) -> Said<'a>
    ensures { said_view result ≡ machine_saying word.now (lib_machine name.now) }
{
    match lib_machine(name) {
        None => Said::Wrong(Fault::NoMachine(word)),
        Some(value) if value.is_empty() => Said::Wrong(Fault::Unsupported(word)),
        Some(value) => Said::Whole(Given {
            meaning: Meaning::Machine,
            value,
        }),
    }
}

// What a word of LIB's says.
pub(crate) fn lib_saying<'a>(alloc: Global, word: &'a str) -> Result<Said<'a>, AllocError>
    ensures { IfOk result (λ said. said_view said ≡ lib_saying word.now) }
{
    let said = lib_raw_saying(alloc, word)?;
    match said {
        Said::Whole(given) => {
            if given.meaning == Meaning::Machine {
                let name = given.value.to_ascii_lowercase(alloc)?;
                return Ok(machine_saying(word, name.as_str()));
            }
            Ok(said)
        }
        Said::Begun(_) | Said::Ends | Said::Wrong(_) => Ok(said),
    }
}
