//! What a call comes to: an exit status, and what is written on each stream.

ghost use Rattle.std.specs.Prelude.{◌≡◌, ◌++◌, false, IfErr, IfOk, IfSome, None, OnOk, Some};
ghost use Rattle.implib_check_driver.specs.Answer.{IsHalt, IsRefusedAs, IsSaid, answer_view};
ghost use Rattle.implib_check_driver.specs.Answer.{line_about, no_archive_text, no_library, saying};
ghost use Rattle.implib_check_driver.specs.Answer.{IsReadAs};
ghost use Rattle.implib_read.specs.Archives.{archive_in, cut_in};
ghost use Rattle.implib_rules.specs.Library.{is_out_of_memory};

use crate::shelf::Shelf;
use implib_read::{Library, cut_at};
use implib_rules::library::Refusal;
use implib_rules::{ShownPlace, position_of};
use std::alloc::{AllocError, AllocFailed, Global};
use std::fmt;

/// The program's name.
pub(crate) const NAME: &str = "implib_check";

/// What a call comes to.
#[derive(Drop)]
pub struct Answer {
    /// The exit status.
    pub status: u8,
    /// What is written on standard output.
    pub out: Vec<u8>,
    /// What is written on standard error.
    pub err: Vec<u8>,
}

/// Why a call ends early.
#[derive(Drop)]
pub enum Halt {
    /// It ends with this answer, as where a file cannot be read.
    Ends(Answer),
    /// An allocation failed.
    OutOfMemory,
}

impl From<AllocError> for Halt {
    ghost use Rattle.implib_check_driver.specs.declared.answer.Halt.TheVariants.{OutOfMemory};
    ghost use Rattle.std.specs.Prelude.{◌≡◌};

    ghost from_gives = { λ _ halt. halt ≡ OutOfMemory };

    fn from(_refused: AllocError) -> Halt {
        Halt::OutOfMemory
    }
}

impl<T: Drop> From<AllocFailed<T>> for Halt {
    ghost use Rattle.implib_check_driver.specs.declared.answer.Halt.TheVariants.{OutOfMemory};
    ghost use Rattle.std.specs.Prelude.{◌≡◌};

    ghost from_gives = { λ _ halt. halt ≡ OutOfMemory };

    fn from(_refused: AllocFailed<T>) -> Halt {
        Halt::OutOfMemory
    }
}

/// Adds a line about a file.
pub(crate) fn say(err: &mut Vec<u8>, path: &str, text: &str) -> Result<(), AllocError>
    ensures { OnOk result (err.new.items ≡ err.old.items ++ line_about path.now text.now) }
{
    err.extend_from_slice(path.as_bytes())?;
    err.extend_from_slice(b": ")?;
    err.extend_from_slice(text.as_bytes())?;
    err.extend_from_slice(b"\n")
}

/// An answer of one line of standard error alone.
pub(crate) fn saying(
    alloc: Global,
    status: u8,
    path: &str,
    text: &str,
) -> Result<Answer, AllocError>
    ensures { IfOk result (λ a. answer_view a ≡ saying status path.now text.now) }
{
    let mut err = Vec::new(alloc);
    say(&mut err, path, text)?;
    Ok(Answer {
        status,
        out: Vec::new(alloc),
        err,
    })
}

/// An answer of one line, which is that of a refusal.
pub(crate) fn refused_as<D: fmt::Display + Drop>(
    alloc: Global,
    status: u8,
    why: D,
) -> Result<Answer, AllocError>
    ensures { IfOk result (λ a. IsRefusedAs status (answer_view a)) }
{
    let text = why.to_string(alloc)?;
    let mut err = Vec::new(alloc);
    err.extend_from_slice(text.as_bytes())?;
    err.extend_from_slice(b"\n")?;
    Ok(Answer {
        status,
        out: Vec::new(alloc),
        err,
    })
}

/// An answer of one line about a file, whatever it says.
pub(crate) fn said_of<D: fmt::Display + Drop>(
    alloc: Global,
    status: u8,
    path: &str,
    why: D,
) -> Result<Answer, AllocError>
    ensures { IfOk result (λ a. IsSaid status path.now (answer_view a)) }
{
    let text = why.to_string(alloc)?;
    saying(alloc, status, path, text.as_str())
}

/// The answer where a definition is refused.
pub(crate) fn refused(alloc: Global, path: &str, why: &Refusal) -> Result<Answer, AllocError>
    ensures refused { IfOk result (λ a. IsRefusedAs 1 (answer_view a)) }
    ensures has_memory { IfOk result (λ _. is_out_of_memory why.now ≡ false) }
{
    if let Refusal::OutOfMemory = why {
        return Err(AllocError);
    }
    let place = ShownPlace(path, position_of(why)).to_string(alloc)?;
    let text = format!(in alloc; "{place} {why}")?;
    refused_as(alloc, 1, text)
}

/// The bytes of a file.
///
/// # Errors
///
/// `Ends`: the file cannot be read.
pub(crate) fn bytes_of<S: Shelf>(alloc: Global, shelf: &S, path: &str) -> Result<Vec<u8>, Halt>
    ensures read { IfOk result
        (λ bytes. IfSome (S.seen shelf.now path.now) (λ file. bytes.items ≡ file)) }
    ensures halted { IfErr result (IsHalt (S.may_fail shelf.now)) }
{
    match shelf.read(alloc, path) {
        Ok(bytes) => Ok(bytes),
        Err(error) => Err(Halt::Ends(said_of(alloc, 3, path, error)?)),
    }
}

// What is said of bytes that are no library.
#[derive(Clone, Copy)]
struct NoArchive(Option<usize>);

impl fmt::Display for NoArchive {
    ghost output = { λ n. Some (no_archive_text n.0) };

    #[tactic(auto, unfolding(crate::specs::Answer::no_archive_text))]
    fn fmt<W: fmt::Write>(&self, f: &mut fmt::Formatter<W>) -> fmt::Result {
        match self.0 {
            Some(offset) => write!(
                f,
                "the library is cut off: the member at 0x{offset:x} passes the end of the file"
            ),
            None => f.write_str("not an archive, or a thin one"),
        }
    }
}

// The answer to bytes that are no library.
fn no_library(alloc: Global, path: &str, bytes: &[u8]) -> Result<Answer, AllocError>
    ensures { IfOk result (λ a. answer_view a ≡ no_library path.now bytes.now) }
{
    let text = NoArchive(cut_at(bytes)).to_string(alloc)?;
    saying(alloc, 1, path, text.as_str())
}

/// The library that bytes are, or the answer where they are none.
pub(crate) fn library_of<'a>(
    alloc: Global,
    path: &str,
    bytes: &'a [u8],
) -> Result<Result<Library<'a>, Answer>, AllocError>
    ensures read { IfOk result (λ found. IfOk found (IsReadAs bytes.now)) }
    ensures none { IfOk result (λ found. IfErr found (λ a.
        (archive_in bytes.now ≡ None) × (answer_view a ≡ no_library path.now bytes.now))) }
{
    match Library::read(alloc, bytes)? {
        Some(library) => Ok(Ok(library)),
        None => Ok(Err(no_library(alloc, path, bytes)?)),
    }
}
