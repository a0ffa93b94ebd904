//! What the words of a command line ask for, by the options that they spell (`implib_options`).
//!
//! One option may ask for something else than a comparison; the others say more of it. Where several
//! values are given of which one counts, as of machines, the last one does.

ghost use Rattle.implib_check_driver.specs.Calls.{check_view, define_view};
ghost use Rattle.implib_check_driver.specs.Tasks.{IsCallRefused, check_of, command_of};
ghost use Rattle.implib_check_driver.specs.Tasks.{commands, define_of, dll_of, flavor_of, is_among};
ghost use Rattle.implib_check_driver.specs.Tasks.{lacks_older, machine_named, machine_of, more_files};
ghost use Rattle.implib_check_driver.specs.Tasks.{naming_of, one_file, options_of, task_compared};
ghost use Rattle.implib_check_driver.specs.Tasks.{task_of, task_of_command, task_view, two_files};
ghost use Rattle.implib_check_driver.specs.Tasks.{is_unfit, unfit, wrong_view};
ghost use Rattle.implib_options.specs.Given.{all, given_view};
ghost use Rattle.implib_options.specs.Words.{IsRead, IsRefusal};
ghost use Rattle.implib_options.specs.declared.table.Meaning.TheVariants.{Input, Search};
ghost use Rattle.implib_options.specs.declared.table.Words.TheVariants as spelled;
ghost use Rattle.implib_rules.specs.Linked.{naming_view};
ghost use Rattle.std.specs.Option.{option_map};
ghost use Rattle.std.specs.Prelude.{◌≡◌, map, IfErr, IfOk, Err, Ok};
ghost use Rattle.std.specs.Result.{result_map_both};
ghost use Rattle.std.specs.String.{string_bytes};

use crate::call::{Check, Define};
use implib::{Flavor, MachineType};
use implib_options::given::{Given, all, has, last};
use implib_options::table::{Meaning, Words};
use implib_options::words::{ReadError, read};
use implib_rules::linked::Naming;
use implib_rules::machine::machine_called;
use implib_rules::name::last_part;
use std::alloc::{AllocError, AllocFailed, Global};

/// What is asked for.
#[derive(Clone, Copy, Debug)]
pub enum Task<'a> {
    Help,
    Version,
    /// A line for each import of a library.
    List(&'a str),
    /// A line for each export of a DLL.
    Exports(&'a str),
    /// The DLLs of a library; whether there is to be one alone.
    Identify(&'a str, bool),
    /// Whether a library works.
    Works(&'a str),
    /// Whether two libraries mean the same.
    Same(&'a str, &'a str),
    /// What libraries of one link do to each other.
    Together(&'a [String]),
    /// Whether a library means what a definition means.
    Check(Check<'a>),
    /// The definition of a library.
    Define(Define<'a>),
    /// Whether a program finds what it imports in the DLLs of folders.
    Program(&'a str, &'a [String]),
}

/// What is wrong with what options and files ask for.
#[derive(Clone, Copy, Debug)]
pub enum Wrong<'a> {
    /// Two options ask for two things.
    Two(Meaning, Meaning),
    /// The option says nothing of what is asked for.
    Unfit(Meaning),
    /// A file is missing.
    NoFile,
    /// There is one file, and nothing is asked of it.
    Alone,
    /// The file is one too many.
    Further(&'a str),
    /// There is no machine of this name.
    NoMachine(&'a str),
    /// There is no flavour of this name.
    NoFlavor(&'a str),
    /// The name of the DLL that is given is empty.
    EmptyDll,
    /// Older symbols are asked for, and Microsoft's flavour, which has none.
    NoOlder,
    /// The definition of a library for ARM64EC is asked for.
    NoDefinition,
}

/// Why options and files ask for nothing.
#[derive(Drop)]
pub enum CallError<'a> {
    /// They are wrong.
    Wrong(Wrong<'a>),
    /// An allocation failed.
    OutOfMemory,
}

impl<'a> From<Wrong<'a>> for CallError<'a> {
    ghost use Rattle.implib_check_driver.specs.declared.task.CallError.TheVariants as error;
    ghost use Rattle.std.specs.Prelude.{◌≡◌};

    ghost from_gives = { λ wrong given. given ≡ error.Wrong wrong };

    fn from(wrong: Wrong<'a>) -> CallError<'a> {
        CallError::Wrong(wrong)
    }
}

impl<'a> From<AllocError> for CallError<'a> {
    ghost use Rattle.implib_check_driver.specs.declared.task.CallError.TheVariants as error;
    ghost use Rattle.std.specs.Prelude.{◌≡◌};

    ghost from_gives = { λ _ given. given ≡ error.OutOfMemory };

    fn from(_refused: AllocError) -> CallError<'a> {
        CallError::OutOfMemory
    }
}

/// What the words of a command line spell.
#[derive(Drop)]
pub struct CommandLine<'a> {
    /// The options and the files, in order.
    pub given: Vec<Given<'a>>,
    /// The files.
    pub files: Vec<String>,
    /// The folders of `--search`.
    pub folders: Vec<String>,
}

// Texts of their own.
fn texts_of(alloc: Global, values: &[&str]) -> Result<Vec<String>, AllocError>
    ensures { IfOk result (λ texts. map string_bytes texts.items
        ≡ map (λ value. value.now) values.now) }
{
    let mut texts = Vec::new(alloc);
    for value in values {
        texts.push(String::from_str(alloc, value)?)?;
    }
    Ok(texts)
}

// The values that are given for a meaning, in order.
fn values_of(
    alloc: Global,
    given: &[Given<'_>],
    meaning: Meaning,
) -> Result<Vec<String>, AllocError>
    ensures { IfOk result (λ values. map string_bytes values.items
        ≡ all meaning (map given_view given.now)) }
{
    let values = all(alloc, given, meaning)?;
    texts_of(alloc, &values)
}

impl<'a> CommandLine<'a> {
    /// The command line of words.
    ///
    /// # Errors
    ///
    /// The first word that is refused, or an option at the end that lacks its value; before these,
    /// perhaps, `OutOfMemory`.
    pub fn read(alloc: Global, words: &'a [String]) -> Result<CommandLine<'a>, ReadError<'a>>
        ensures given { IfOk result (λ line. IsRead spelled.Check (map string_bytes words.now)
            (Ok (map given_view line.given.items))) }
        ensures files { IfOk result (λ line. map string_bytes line.files.items
            ≡ all Input (map given_view line.given.items)) }
        ensures folders { IfOk result (λ line. map string_bytes line.folders.items
            ≡ all Search (map given_view line.given.items)) }
        ensures refused { IfErr result
            (IsRefusal (IsRead spelled.Check (map string_bytes words.now))) }
    {
        let given = read(alloc, Words::Check, words)?;
        let files = values_of(alloc, &given, Meaning::Input)?;
        let folders = values_of(alloc, &given, Meaning::Search)?;
        Ok(CommandLine {
            given,
            files,
            folders,
        })
    }
}

// What is asked for by an option alone.
#[derive(Clone, Copy)]
enum Command {
    List,
    Exports,
    Identify,
    IdentifyStrict,
    Works,
    Same,
    Together,
    Define,
}

// What an option asks for that asks for something else than a comparison.
fn command_of(meaning: Meaning) -> Option<Command>
    ensures { result ≡ command_of meaning }
{
    match meaning {
        Meaning::ListsImports => Some(Command::List),
        Meaning::ListsExports => Some(Command::Exports),
        Meaning::Identify => Some(Command::Identify),
        Meaning::IdentifyStrict => Some(Command::IdentifyStrict),
        Meaning::Works => Some(Command::Works),
        Meaning::Same => Some(Command::Same),
        Meaning::Together => Some(Command::Together),
        Meaning::Define => Some(Command::Define),
        _ => None,
    }
}

// Options that ask for something else than a comparison, in order, and what each asks for.
fn commands(alloc: Global, given: &[Given<'_>]) -> Result<Vec<(Meaning, Command)>, AllocError>
    ensures { IfOk result (λ found. found.items ≡ commands (map given_view given.now)) }
{
    let mut found = Vec::new(alloc);
    for option in given {
        if let Some(command) = command_of(option.meaning) {
            found.push((option.meaning, command))?;
        }
    }
    Ok(found)
}

// The options that say more of what a command asks for.
fn options_of(command: Command) -> &'static [Meaning]
    ensures { result.now ≡ options_of command }
{
    match command {
        Command::Define => &[
            Meaning::Machine,
            Meaning::Flavor,
            Meaning::NoLeadingUnderscore,
            Meaning::CompatImplib,
        ],
        Command::Identify | Command::IdentifyStrict => &[],
        Command::List | Command::Exports | Command::Works | Command::Same | Command::Together => &[
            Meaning::Json,
        ],
    }
}

// Whether a meaning is one of these.
fn is_among(meanings: &[Meaning], meaning: Meaning) -> bool
    ensures { result ≡ is_among meanings.now meaning }
{
    for one in meanings {
        if *one == meaning {
            return true;
        }
    }
    false
}

// Whether an option is none of these, and neither a command nor a file.
fn is_unfit(meanings: &[Meaning], meaning: Meaning) -> bool
    ensures { result ≡ is_unfit meanings.now meaning }
{
    meaning != Meaning::Input && command_of(meaning).is_none() && !is_among(meanings, meaning)
}

// The first option, if there is one, that is none of these, and neither a command nor a file.
fn unfit(given: &[Given<'_>], meanings: &[Meaning]) -> Option<Meaning>
    ensures { result ≡ unfit meanings.now (map given_view given.now) }
{
    for option in given {
        if is_unfit(meanings, option.meaning) {
            return Some(option.meaning);
        }
    }
    None
}

// The one file.
fn one_file(files: &[String]) -> Result<&str, Wrong<'_>>
    ensures { result_map_both (λ path. path.now) wrong_view result
        ≡ one_file (map string_bytes files.now) }
{
    match files {
        [] => Err(Wrong::NoFile),
        [path] => Ok(path.as_str()),
        [_, further, ..] => Err(Wrong::Further(further.as_str())),
    }
}

// The two files.
fn two_files(files: &[String]) -> Result<(&str, &str), Wrong<'_>>
    ensures { result_map_both (λ paths. (paths.0.now, paths.1.now)) wrong_view result
        ≡ two_files (map string_bytes files.now) }
{
    match files {
        [] | [_] => Err(Wrong::NoFile),
        [left, right] => Ok((left.as_str(), right.as_str())),
        [_, _, further, ..] => Err(Wrong::Further(further.as_str())),
    }
}

// The files, of which there are two or more.
fn more_files(files: &[String]) -> Result<&[String], Wrong<'_>>
    ensures { result_map_both (λ paths. map string_bytes paths.now) wrong_view result
        ≡ more_files (map string_bytes files.now) }
{
    match files {
        [] | [_] => Err(Wrong::NoFile),
        [_, _, ..] => Ok(files),
    }
}

// The machine of a name, in letters of any case, and whether it is ARM64EC.
fn machine_named(alloc: Global, name: &str) -> Result<Option<(MachineType, bool)>, AllocError>
    ensures { IfOk result (λ machine. machine ≡ machine_named name.now) }
{
    let name = name.to_ascii_lowercase(alloc)?;
    if name.as_str() == "arm64ec" {
        return Ok(Some((MachineType::ARM64, true)));
    }
    match machine_called(name.as_str()) {
        Some(machine) => Ok(Some((machine, false))),
        None => Ok(None),
    }
}

// The machine that is named, if one is, and whether it is ARM64EC.
fn machine_of<'a>(
    alloc: Global,
    given: &[Given<'a>],
) -> Result<(Option<MachineType>, bool), CallError<'a>>
    ensures named { IfOk result (λ machine. machine_of (map given_view given.now) ≡ Ok machine) }
    ensures wrong { IfErr result
        (IsCallRefused (λ wrong. machine_of (map given_view given.now) ≡ Err wrong)) }
{
    let Some(name) = last(given, Meaning::Machine) else {
        return Ok((None, false));
    };
    match machine_named(alloc, name)? {
        Some((machine, arm64ec)) => Ok((Some(machine), arm64ec)),
        None => Err(CallError::Wrong(Wrong::NoMachine(name))),
    }
}

// The flavour that is named, if one is.
fn flavor_of<'a>(given: &[Given<'a>]) -> Result<Option<Flavor>, Wrong<'a>>
    ensures { result_map_both (λ flavor. flavor) wrong_view result
        ≡ flavor_of (map given_view given.now) }
{
    let Some(name) = last(given, Meaning::Flavor) else {
        return Ok(None);
    };
    match name.parse::<Flavor>() {
        Ok(flavor) => Ok(Some(flavor)),
        Err(_) => Err(Wrong::NoFlavor(name)),
    }
}

// The name of the DLL that is given, if one is.
fn dll_of<'a>(given: &[Given<'a>]) -> Result<Option<&'a str>, Wrong<'a>>
    ensures { result_map_both (option_map (λ dll. dll.now)) wrong_view result
        ≡ dll_of (map given_view given.now) }
{
    match last(given, Meaning::Dll) {
        Some(dll) if last_part(dll).is_empty() => Err(Wrong::EmptyDll),
        dll => Ok(dll),
    }
}

// How names are read on I386.
fn naming_of(given: &[Given<'_>]) -> Naming
    ensures { naming_view result ≡ naming_of (map given_view given.now) }
{
    let is_lib = has(given, Meaning::LibWays);
    Naming {
        is_plain: has(given, Meaning::NoLeadingUnderscore),
        kills_at: has(given, Meaning::KillAt),
        exports_as: is_lib || has(given, Meaning::ExportAs),
        keeps_decorated: is_lib,
    }
}

// Whether older symbols are asked for, and the flavour that is named has none.
fn lacks_older(given: &[Given<'_>], flavor: Option<Flavor>) -> bool
    ensures { result ≡ lacks_older (map given_view given.now) flavor }
{
    match flavor {
        Some(Flavor::Msvc) => has(given, Meaning::CompatImplib),
        Some(Flavor::Gnu) | None => false,
    }
}

// The comparison of two files.
fn check_of<'a>(
    alloc: Global,
    given: &[Given<'a>],
    files: (&'a str, &'a str),
    folders: &'a [String],
) -> Result<Check<'a>, CallError<'a>>
    ensures check { IfOk result (λ check. check_of (map given_view given.now)
        (files.entry.0.now, files.entry.1.now) (map string_bytes folders.now) ≡ Ok (check_view check)) }
    ensures wrong { IfErr result (IsCallRefused (λ wrong. check_of (map given_view given.now)
        (files.entry.0.now, files.entry.1.now) (map string_bytes folders.now) ≡ Err wrong)) }
{
    let (machine, arm64ec) = machine_of(alloc, given)?;
    let flavor = flavor_of(given)?;
    let dll = dll_of(given)?;
    if lacks_older(given, flavor) {
        return Err(CallError::Wrong(Wrong::NoOlder));
    }
    Ok(Check {
        library: files.0,
        definition: files.1,
        machine,
        arm64ec,
        native: last(given, Meaning::NativeDefinition),
        flavor,
        dll,
        naming: naming_of(given),
        older_symbols: has(given, Meaning::CompatImplib),
        lists_unasked: has(given, Meaning::ListsUnasked),
        folders,
    })
}

// The definition of a file. A library has the name of its DLL and the names that it asks for itself,
// so no option says these.
fn define_of<'a>(
    alloc: Global,
    given: &[Given<'a>],
    path: &'a str,
) -> Result<Define<'a>, CallError<'a>>
    ensures define { IfOk result (λ define. define_of (map given_view given.now) path.now
        ≡ Ok (define_view define)) }
    ensures wrong { IfErr result (IsCallRefused
        (λ wrong. define_of (map given_view given.now) path.now ≡ Err wrong)) }
{
    let (machine, arm64ec) = machine_of(alloc, given)?;
    let flavor = flavor_of(given)?;
    if lacks_older(given, flavor) {
        return Err(CallError::Wrong(Wrong::NoOlder));
    }
    if arm64ec {
        return Err(CallError::Wrong(Wrong::NoDefinition));
    }
    Ok(Define {
        library: path,
        machine,
        flavor,
        is_plain: has(given, Meaning::NoLeadingUnderscore),
        older_symbols: has(given, Meaning::CompatImplib),
    })
}

// What a command asks for.
fn task_of_command<'a>(
    alloc: Global,
    command: Command,
    given: &[Given<'a>],
    files: &'a [String],
) -> Result<Task<'a>, CallError<'a>>
    ensures task { IfOk result (λ task. task_of_command command (map given_view given.now)
        (map string_bytes files.now) ≡ Ok (task_view task)) }
    ensures wrong { IfErr result (IsCallRefused (λ wrong. task_of_command command
        (map given_view given.now) (map string_bytes files.now) ≡ Err wrong)) }
{
    if let Some(meaning) = unfit(given, options_of(command)) {
        return Err(CallError::Wrong(Wrong::Unfit(meaning)));
    }
    match command {
        Command::List => Ok(Task::List(one_file(files)?)),
        Command::Exports => Ok(Task::Exports(one_file(files)?)),
        Command::Identify => Ok(Task::Identify(one_file(files)?, false)),
        Command::IdentifyStrict => Ok(Task::Identify(one_file(files)?, true)),
        Command::Works => Ok(Task::Works(one_file(files)?)),
        Command::Same => {
            let (left, right) = two_files(files)?;
            Ok(Task::Same(left, right))
        }
        Command::Together => Ok(Task::Together(more_files(files)?)),
        Command::Define => {
            let path = one_file(files)?;
            Ok(Task::Define(define_of(alloc, given, path)?))
        }
    }
}

// The options of a program beside folders.
const OF_PROGRAM: [Meaning; 2] = [Meaning::Search, Meaning::Json];

// What is asked for without a command: a comparison of two files, or what a program finds in
// folders.
fn task_compared<'a>(
    alloc: Global,
    given: &[Given<'a>],
    files: &'a [String],
    folders: &'a [String],
) -> Result<Task<'a>, CallError<'a>>
    ensures task { IfOk result (λ task. task_compared (map given_view given.now)
        (map string_bytes files.now) (map string_bytes folders.now) ≡ Ok (task_view task)) }
    ensures wrong { IfErr result (IsCallRefused (λ wrong. task_compared (map given_view given.now)
        (map string_bytes files.now) (map string_bytes folders.now) ≡ Err wrong)) }
{
    match files {
        [] => Err(CallError::Wrong(Wrong::NoFile)),
        [program] => {
            if folders.is_empty() {
                return Err(CallError::Wrong(Wrong::Alone));
            }
            match unfit(given, &OF_PROGRAM) {
                Some(meaning) => Err(CallError::Wrong(Wrong::Unfit(meaning))),
                None => Ok(Task::Program(program.as_str(), folders)),
            }
        }
        [library, definition] => {
            let paths = (library.as_str(), definition.as_str());
            Ok(Task::Check(check_of(alloc, given, paths, folders)?))
        }
        [_, _, further, ..] => Err(CallError::Wrong(Wrong::Further(further.as_str()))),
    }
}

/// What a command line asks for.
///
/// # Errors
///
/// `Wrong`: it asks for nothing. `OutOfMemory`: an allocation failed.
pub fn task_of<'a>(alloc: Global, line: &'a CommandLine<'a>) -> Result<Task<'a>, CallError<'a>>
    ensures task { IfOk result (λ task. task_of (map given_view line.now.given.items)
        (map string_bytes line.now.files.items) (map string_bytes line.now.folders.items)
        ≡ Ok (task_view task)) }
    ensures wrong { IfErr result (IsCallRefused (λ wrong.
        task_of (map given_view line.now.given.items) (map string_bytes line.now.files.items)
        (map string_bytes line.now.folders.items) ≡ Err wrong)) }
{
    let given = line.given.as_slice();
    if has(given, Meaning::Help) {
        return Ok(Task::Help);
    }
    if has(given, Meaning::Version) {
        return Ok(Task::Version);
    }
    let found = commands(alloc, given)?;
    match found.as_slice() {
        [] => task_compared(alloc, given, &line.files, &line.folders),
        [one] => task_of_command(alloc, one.1, given, &line.files),
        [one, other, ..] => Err(CallError::Wrong(Wrong::Two(one.0, other.0))),
    }
}
