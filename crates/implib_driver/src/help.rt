//! The texts of `--help` and `--version`, and the program's name.

ghost use Rattle.implib_driver.specs.Program.{help_text, subject_of};
ghost use Rattle.std.specs.Prelude.{◌≡◌, IfOk};
ghost use Rattle.std.specs.String.{string_bytes};

use implib_options::help::push_help;
use implib_options::table::Words;
use implib_rules::name::last_part;
use std::alloc::{AllocError, Global};

// What the program prints for `--help` before the options.
pub(crate) const FRONT: &str = "\
usage: implib_dlltool -d FILE [-l OUT] [-y OUT] [-m MACHINE] [-D DLL] [--flavor FLAVOUR]
       implib_dlltool -m arm64ec -d FILE [-N FILE] [-l OUT] [-D DLL]
       implib_dlltool -l OUT FOO.dll [--search DIR]..

Makes the import library of a module definition, or of all that a DLL exports.

";

// Between the options and those in LIB's words.
pub(crate) const MIDDLE: &str = "
Options of one letter without a value may share a word, as in -kd FILE; after --
there is no option.

Taken and ignored: -S --as, -f --as-flags, -t --temp-prefix, each with a value;
-n --no-delete, -A --add-stdcall-alias, -u --no-export-all-symbols,
--deterministic-libraries, --non-deterministic-libraries.

Called as LIB is, by a name that is lib or ends in -lib, or with a first word
--lib:

";

// Behind them.
pub(crate) const END: &str = "
Each with / or -, in letters of any case. The library is for Microsoft's linker,
with --export-as.

Status: 0 made; 1 FILE or LIB is refused; 2 wrong call; 3 a file or memory
failed.
";

// What the program prints for `--version`.
pub(crate) const VERSION: &str = "implib_dlltool 0.1.0\n";

// The name of the program.
pub(crate) const NAME: &str = "implib_dlltool";

// What the program prints for `--help`.
pub(crate) fn help_text(alloc: Global) -> Result<String, AllocError>
    ensures { IfOk result (λ text. string_bytes text ≡ help_text) }
{
    let mut text = String::from_str(alloc, FRONT)?;
    push_help(&mut text, Words::Dlltool)?;
    text.push_str(MIDDLE)?;
    push_help(&mut text, Words::Lib)?;
    text.push_str(END)?;
    Ok(text)
}

// The name that the program says of itself, by the one that it is called by.
pub(crate) fn subject_of(program: &str) -> &str
    ensures { result.now ≡ subject_of program.now }
{
    let name = last_part(program);
    if name.is_empty() {
        return NAME;
    }
    name
}
