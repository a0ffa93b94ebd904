//! The program: its arguments, its files, what it writes, and its exit status.

ghost use Rattle.std.specs.Prelude.{◌≡◌, ℕ, IfErr, IfOk, IfSome, List, map};
ghost use Rattle.std.specs.String.{string_bytes};
ghost use Rattle.implib_check_driver.specs.Answer.{IsHalt, answer_view};
ghost use Rattle.implib_check_driver.specs.Answers.{Answers, AnswersAsked, AnswersTask, IsDefineAnswer};
ghost use Rattle.implib_check_driver.specs.Answers.{help_text, text_alone};
ghost use Rattle.implib_check_driver.specs.Calls.{define_view};
ghost use Rattle.implib_check_driver.specs.Differences.{IsSameAnswer};
ghost use Rattle.implib_check_driver.specs.Exported.{IsExportsAnswer};
ghost use Rattle.implib_check_driver.specs.Listing.{identify_answer, list_answer, works_answer};
ghost use Rattle.implib_check_driver.specs.Run.{IsWritten, Runs};
ghost use Rattle.implib_check_driver.specs.Tasks.{task_of, task_view};
ghost use Rattle.implib_check_driver.specs.Together.{IsJoinedAnswer, first_none};
ghost use Rattle.implib_dll.specs.Exports.{exports_in};
ghost use Rattle.implib_dll.specs.declared.section.Layout.TheVariants.{File};
ghost use Rattle.implib_compare.specs.DllCheck.Folders.{AreKnown};
ghost use Rattle.implib_options.specs.Given.{given_view, has};
ghost use Rattle.implib_options.specs.declared.table.Meaning.TheVariants.{Json};
ghost use Rattle.implib_read.specs.Archives.{archive_in};

use crate::answer::{Answer, Halt, NAME, bytes_of, said_of};
use crate::call::Define;
use crate::checking::check;
use crate::defining::define;
use crate::differences::same;
use crate::exported::exports;
use crate::joined::{all_bytes, together};
use crate::list::{identify, list};
use crate::report::Form;
use crate::shelf::Shelf;
use crate::starting::start;
use crate::task::{CallError, CommandLine, Task, task_of};
use crate::works::works;
use crate::wrong::WordMessage;
use implib_options::given::has;
use implib_options::help::push_help;
use implib_options::table::{Meaning, Words};
use implib_options::words::ReadError;
use std::alloc::{AllocError, Global};
use std::env::Env;
use std::io::{ErrorKind, Write};
use std::{env, io};

// What the program prints for `--help` before the options.
const FRONT: &str = "\
usage: implib_check LIB DLL [--all] [-D DLL] [--json] [--search DIR]..
       implib_check LIB DEF [-m MACHINE] [-k] [--no-leading-underscore]
                    [--export-as] [--lib] [-C] [-D DLL] [--flavor FLAVOUR]
                    [-N NATIVE] [--json]
       implib_check DEF DLL [--all] [options of LIB DEF] [--search DIR]..
       implib_check --def LIB [-m MACHINE] [--no-leading-underscore] [-C]
                    [--flavor FLAVOUR]
       implib_check --def DLL and these options but -C
       implib_check PROGRAM --search DIR [--search DIR].. [--json]
       implib_check --exports DLL [--json]
       implib_check --list LIB [--json]
       implib_check --identify LIB
       implib_check --identify-strict LIB
       implib_check --same LIB LIB [--json]
       implib_check --works LIB [--json]
       implib_check --together LIB LIB.. [--json]

Reads import libraries of any maker. With a library and a module definition:
whether the library has the imports and aliases that implib_dlltool would give
one of the definition; the differences. With a DLL: whether a program that is
linked with the library, or with that of the definition, finds in the DLL what
it imports; what it does not find.

";

// Behind them.
const END: &str = "
Status: 0 done, the same, found in the DLL; 1 different, not found, a refused
definition, no DLL, no import, no export, no definition, broken, or a clash;
2 wrong call; 3 a file or memory failed; 4 a member that may matter was not
understood.
";

// What the program prints for `--version`.
const VERSION: &str = "implib_check 0.1.0\n";

// What the program prints for `--help`.
fn help_text(alloc: Global) -> Result<String, AllocError>
    ensures { IfOk result (λ text. string_bytes text ≡ help_text) }
{
    let mut text = String::from_str(alloc, FRONT)?;
    push_help(&mut text, Words::Check)?;
    text.push_str(END)?;
    Ok(text)
}

// The answer of a text alone.
fn text_alone(alloc: Global, text: &str) -> Result<Answer, AllocError>
    ensures { IfOk result (λ a. answer_view a ≡ text_alone text.now) }
{
    let mut out = Vec::new(alloc);
    out.extend_from_slice(text.as_bytes())?;
    Ok(Answer {
        status: 0,
        out,
        err: Vec::new(alloc),
    })
}

// The answer to `--help`.
fn help_answer(alloc: Global) -> Result<Answer, AllocError>
    ensures { IfOk result (λ a. answer_view a ≡ text_alone help_text) }
{
    let text = help_text(alloc)?;
    text_alone(alloc, text.as_str())
}

// The list of the library of a file.
#[tactic(auto, using(crate::proofs::Answers::of_file))]
fn list_file<S: Shelf>(form: Form, shelf: &S, path: &str) -> Result<Answer, Halt>
    ensures answered { IfOk result (λ a. IfSome (S.seen shelf.now path.now)
        (λ f. answer_view a ≡ list_answer form.is_json path.now f)) }
    ensures halted { IfErr result (IsHalt (S.may_fail shelf.now)) }
{
    let bytes = bytes_of(form.alloc, shelf, path)?;
    Ok(list(form, path, &bytes)?)
}

// The exports of the DLL of a file.
#[tactic(auto, using(crate::proofs::Answers::of_file))]
fn exports_of_file<S: Shelf>(form: Form, shelf: &S, path: &str) -> Result<Answer, Halt>
    ensures answered { IfOk result (λ a. IfSome (S.seen shelf.now path.now)
        (λ f. IsExportsAnswer path.now (exports_in File f) (answer_view a))) }
    ensures halted { IfErr result (IsHalt (S.may_fail shelf.now)) }
{
    let bytes = bytes_of(form.alloc, shelf, path)?;
    Ok(exports(form, path, &bytes)?)
}

// The names of the DLLs of the library of a file.
#[tactic(auto, using(crate::proofs::Answers::of_file))]
fn identify_file<S: Shelf>(
    form: Form,
    shelf: &S,
    path: &str,
    is_strict: bool,
) -> Result<Answer, Halt>
    ensures answered { IfOk result (λ a. IfSome (S.seen shelf.now path.now)
        (λ f. answer_view a ≡ identify_answer is_strict path.now f)) }
    ensures halted { IfErr result (IsHalt (S.may_fail shelf.now)) }
{
    let bytes = bytes_of(form.alloc, shelf, path)?;
    Ok(identify(form.alloc, path, is_strict, &bytes)?)
}

// Whether the library of a file works.
#[tactic(auto, using(crate::proofs::Answers::of_file))]
fn works_file<S: Shelf>(form: Form, shelf: &S, path: &str) -> Result<Answer, Halt>
    ensures answered { IfOk result (λ a. IfSome (S.seen shelf.now path.now)
        (λ f. answer_view a ≡ works_answer form.is_json path.now f)) }
    ensures halted { IfErr result (IsHalt (S.may_fail shelf.now)) }
{
    let bytes = bytes_of(form.alloc, shelf, path)?;
    Ok(works(form, path, &bytes)?)
}

// Whether the libraries of two files are the same.
#[tactic(auto, using(crate::proofs::Answers::of_files))]
fn same_files<S: Shelf>(form: Form, shelf: &S, left: &str, right: &str) -> Result<Answer, Halt>
    ensures answered { IfOk result (λ a. IfSome (S.seen shelf.now left.now)
        (λ l. IfSome (S.seen shelf.now right.now)
        (λ r. IsSameAnswer form.is_json left.now right.now l r (archive_in l) (archive_in r)
        (answer_view a)))) }
    ensures halted { IfErr result (IsHalt (S.may_fail shelf.now)) }
{
    let first = bytes_of(form.alloc, shelf, left)?;
    let second = bytes_of(form.alloc, shelf, right)?;
    Ok(same(form, (left, right), &first, &second)?)
}

// The definition of the library or the DLL of a file.
#[tactic(auto, using(crate::proofs::Answers::of_file))]
fn define_file<S: Shelf>(form: Form, shelf: &S, asked: &Define) -> Result<Answer, Halt>
    ensures answered { IfOk result (λ a. IfSome (S.seen shelf.now asked.now.library.now)
        (λ f. IsDefineAnswer (define_view asked.now) f (answer_view a))) }
    ensures halted { IfErr result (IsHalt (S.may_fail shelf.now)) }
{
    let bytes = bytes_of(form.alloc, shelf, asked.library)?;
    Ok(define(form.alloc, asked, &bytes)?)
}

// What the libraries of files do to each other.
fn together_files<S: Shelf>(form: Form, shelf: &S, paths: &[String]) -> Result<Answer, Halt>
    ensures answered { IfOk result (λ a. (file : List ℕ → List ℕ) → AreKnown (S.seen shelf.now) file
        → IsJoinedAnswer (map string_bytes paths.now) (map file (map string_bytes paths.now))
        (first_none (map string_bytes paths.now) (map file (map string_bytes paths.now)))
        (answer_view a)) }
    ensures halted { IfErr result (IsHalt (S.may_fail shelf.now)) }
{
    let files = all_bytes(form.alloc, shelf, paths)?;
    Ok(together(form, paths, &files)?)
}

// The answer to what a command line asks for.
fn answer_task<S: Shelf>(form: Form, shelf: &S, task: Task) -> Result<Answer, Halt>
    ensures answered { IfOk result (λ a. AnswersTask form.is_json (S.seen shelf.now)
        (S.listed shelf.now) (task_view task.entry) (answer_view a)) }
    ensures halted { IfErr result (IsHalt (S.may_fail shelf.now)) }
{
    match task {
        Task::Help => Ok(help_answer(form.alloc)?),
        Task::Version => Ok(text_alone(form.alloc, VERSION)?),
        Task::List(path) => list_file(form, shelf, path),
        Task::Exports(path) => exports_of_file(form, shelf, path),
        Task::Identify(path, is_strict) => identify_file(form, shelf, path, is_strict),
        Task::Works(path) => works_file(form, shelf, path),
        Task::Same(left, right) => same_files(form, shelf, left, right),
        Task::Together(paths) => together_files(form, shelf, paths),
        Task::Check(asked) => check(form, shelf, &asked),
        Task::Define(asked) => define_file(form, shelf, &asked),
        Task::Program(path, folders) => start(form, shelf, path, folders),
    }
}

// The answer to options and files.
fn answer_line<S: Shelf>(alloc: Global, shelf: &S, line: &CommandLine) -> Result<Answer, Halt>
    ensures answered { IfOk result (λ a. AnswersAsked (has Json (map given_view line.now.given.items))
        (S.seen shelf.now) (S.listed shelf.now) (task_of (map given_view line.now.given.items)
        (map string_bytes line.now.files.items) (map string_bytes line.now.folders.items))
        (answer_view a)) }
    ensures halted { IfErr result (IsHalt (S.may_fail shelf.now)) }
{
    let is_json = has(&line.given, Meaning::Json);
    match task_of(alloc, line) {
        Ok(task) => answer_task(Form { alloc, is_json }, shelf, task),
        Err(CallError::Wrong(wrong)) => Ok(said_of(alloc, 2, NAME, wrong)?),
        Err(CallError::OutOfMemory) => Err(Halt::OutOfMemory),
    }
}

/// The answer to what the words of a command line ask for.
///
/// # Errors
///
/// `Ends`: a file or a folder cannot be read, and the answer says so, with status 3.
pub fn answer<S: Shelf>(alloc: Global, shelf: &S, words: &[String]) -> Result<Answer, Halt>
    ensures answered { IfOk result (λ a. Answers (S.seen shelf.now) (S.listed shelf.now)
        (map string_bytes words.now) (answer_view a)) }
    ensures halted { IfErr result (IsHalt (S.may_fail shelf.now)) }
{
    match CommandLine::read(alloc, words) {
        Ok(line) => answer_line(alloc, shelf, &line),
        Err(ReadError::Refused(fault)) => Ok(said_of(alloc, 2, NAME, WordMessage(fault))?),
        Err(ReadError::OutOfMemory) => Err(Halt::OutOfMemory),
    }
}

/// Why a call has no exit status of its own.
#[derive(Drop)]
pub enum Failure {
    /// Standard output failed.
    Output(io::Error),
    /// Standard error failed.
    Errors,
    /// An allocation failed.
    OutOfMemory,
}

// Writes an answer, first what goes to standard error, and gives its status.
fn write_answer<O: Write, E: Write>(
    printer: &mut O,
    faults: &mut E,
    found: &Answer,
) -> Result<u8, Failure>
    ensures { IfOk result (IsWritten (answer_view found.now)
        (O.contents printer.old) (O.contents printer.new)
        (E.contents faults.old) (E.contents faults.new)) }
{
    let said = faults.write_all(&found.err);
    if let Err(error) = printer.write_all(&found.out) {
        return Err(Failure::Output(error));
    }
    match said {
        Ok(()) => Ok(found.status),
        Err(_) => Err(Failure::Errors),
    }
}

/// Does what the words of a command line ask for: reads, finds the answer, and then writes it, first what goes
/// to standard error; and gives the exit status: 0 where it is done or the libraries are the same, 1
/// where they differ, or a content is refused, 2 where the call is wrong, 3 where a file or a folder
/// cannot be read, and 4 where a member that may matter was not understood.
///
/// # Errors
///
/// `Output`, `Errors`: a stream failed. `OutOfMemory`: an allocation.
pub fn run<S: Shelf, O: Write, E: Write>(
    alloc: Global,
    shelf: &S,
    words: &[String],
    printer: &mut O,
    faults: &mut E,
) -> Result<u8, Failure>
    ensures { IfOk result (Runs (S.may_fail shelf.now) (S.seen shelf.now) (S.listed shelf.now)
        (map string_bytes words.now)
        (O.contents printer.old) (O.contents printer.new)
        (E.contents faults.old) (E.contents faults.new)) }
{
    match answer(alloc, shelf, words) {
        Ok(found) => {
            let status = write_answer(printer, faults, &found)?;
            Ok(status)
        }
        Err(Halt::Ends(found)) => {
            let status = write_answer(printer, faults, &found)?;
            Ok(status)
        }
        Err(Halt::OutOfMemory) => Err(Failure::OutOfMemory),
    }
}

// Writes a line of standard error, and gives status 3. A failure of the writer is ignored.
fn fail<E: Write>(faults: &mut E, text: &str) -> u8 {
    let _ = faults.write_all(NAME.as_bytes());
    let _ = faults.write_all(b": ");
    let _ = faults.write_all(text.as_bytes());
    let _ = faults.write_all(b"\n");
    3
}

/// The exit status of a call; what failed is said on standard error, and has status 3.
pub fn status_of<E: Write>(faults: &mut E, done: Result<u8, Failure>) -> u8
    ensures { IfOk done (λ status. result ≡ status) }
{
    match done {
        Ok(status) => status,
        Err(Failure::OutOfMemory) => fail(faults, "out of memory"),
        Err(Failure::Errors) => 3,
        Err(Failure::Output(error)) => match error.kind() {
            ErrorKind::OutOfMemory => fail(faults, "out of memory"),
            _ => fail(faults, "standard output failed"),
        },
    }
}

// The words of the process behind the program's name.
fn words_of<R: Env + AllocGlobal>(rt: &R) -> io::Result<Vec<String>> {
    let words: Result<Vec<String>, AllocError> = env::args(rt)?.skip(1).collect(rt.alloc());
    Ok(words?)
}

/// Runs the program with the command line of the process, and gives the exit status.
pub fn perform<R: Env + AllocGlobal, S: Shelf, O: Write, E: Write>(
    rt: &R,
    shelf: &S,
    printer: &mut O,
    faults: &mut E,
) -> u8 {
    let words = match words_of(rt) {
        Ok(words) => words,
        Err(error) => {
            let Ok(text) = error.to_string(rt.alloc()) else {
                return fail(faults, "out of memory");
            };
            return fail(faults, text.as_str());
        }
    };
    let done = run(rt.alloc(), shelf, &words, printer, faults);
    status_of(faults, done)
}
