//! What is printed and said, and the exit status for it.

ghost use Rattle.implib_driver.specs.Program.{Prints, answer_status, own_name, verdict};
ghost use Rattle.implib_driver.specs.Reports.{Complains, Refuses, Says, complaint_view};
ghost use Rattle.implib_driver.specs.Request.{request_view};
ghost use Rattle.implib_rules.specs.Library.{status_of};
ghost use Rattle.implib_rules.specs.declared.library.Refusal.TheVariants.{OutOfMemory};
ghost use Rattle.std.specs.Prelude.{◌≡◌, [], ◌∷◌};

use crate::help::NAME;
use crate::reporter::{Complaint, Reporter};
use crate::request::Request;
use implib_rules::library::{LibraryError, Refusal};
use std::io::Write;

// Prints bytes. A failure is status 3.
pub(crate) fn print_bytes<O: Write, T: Reporter>(
    printer: &mut O,
    reporter: &mut T,
    name: &str,
    bytes: &[u8],
) -> u8
    ensures { Prints name.now bytes.now (T.said reporter.old) (T.said reporter.new)
        (O.contents printer.old) (O.contents printer.new) result }
{
    match printer.write_all(bytes) {
        Ok(()) => 0,
        Err(error) => {
            reporter.complain(name, Complaint::System(error));
            3
        }
    }
}

// Prints a text. A failure is status 3.
pub(crate) fn print<O: Write, T: Reporter>(
    printer: &mut O,
    reporter: &mut T,
    name: &str,
    text: &str,
) -> u8
    ensures { Prints name.now text.now (T.said reporter.old) (T.said reporter.new)
        (O.contents printer.old) (O.contents printer.new) result }
{
    print_bytes(printer, reporter, name, text.as_bytes())
}

// The exit status for a refusal.
pub(crate) fn refusal_status(refusal: &Refusal) -> u8
    ensures { result ≡ status_of refusal.now }
{
    match refusal {
        Refusal::OutOfMemory => 3,
        _ => 1,
    }
}

// Says what came of a definition, and gives the exit status.
pub(crate) fn conclude<T: Reporter>(
    reporter: &mut T,
    request: &Request<'_>,
    answer: Result<(), LibraryError>,
) -> u8
    ensures said { Says (T.said reporter.old) (T.said reporter.new)
        (verdict (request_view request.now) answer) }
    ensures status { result ≡ answer_status answer }
{
    match answer {
        Ok(()) => 0,
        Err(LibraryError::Refused(refusal)) => {
            reporter.refuse(request.definition, &refusal);
            refusal_status(&refusal)
        }
        Err(LibraryError::Writing(cause)) => {
            let path = request.output.unwrap_or("-");
            reporter.complain(path, Complaint::Writing(cause));
            3
        }
    }
}

// Says that memory was refused before a warning was said, and gives the exit status.
pub(crate) fn give_up<T: Reporter>(reporter: &mut T, request: &Request<'_>) -> u8
    ensures said { Says (T.said reporter.old) (T.said reporter.new)
        (Refuses (request_view request.now).definition OutOfMemory ∷ []) }
    ensures status { result ≡ 3 }
{
    reporter.refuse(request.definition, &Refusal::OutOfMemory);
    3
}

// Says a complaint of the command line under the program's name, and gives the exit status.
pub(crate) fn complain<T: Reporter>(
    reporter: &mut T,
    name: &str,
    complaint: Complaint<'_>,
    status: u8,
) -> u8
    ensures said { Says (T.said reporter.old) (T.said reporter.new)
        (Complains name.now (complaint_view complaint.entry) ∷ []) }
    ensures status { result ≡ status }
{
    reporter.complain(name, complaint);
    status
}

// Says a complaint under the program's own name, where it is not known what it is called, and gives
// the exit status.
pub(crate) fn complain_uncalled<T: Reporter>(
    reporter: &mut T,
    complaint: Complaint<'_>,
    status: u8,
) -> u8
    ensures said { Says (T.said reporter.old) (T.said reporter.new)
        (Complains own_name (complaint_view complaint.entry) ∷ []) }
    ensures status { result ≡ status }
{
    complain(reporter, NAME, complaint, status)
}
