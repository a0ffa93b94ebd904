//! What the program says of a definition, and of a call.

ghost use Rattle.implib_driver.specs.Reports.{Complains, Line, Refuses, Says, Warns};
ghost use Rattle.implib_driver.specs.Reports.{complaint_view};
ghost use Rattle.implib_rules.specs.Warnings.{warning_view};
ghost use Rattle.std.specs.Prelude.{[], ◌∷◌, List, Option};

use crate::dll::DllRefusal;
use crate::identity::NotIdentified;
use crate::request::CallFault;
use implib_archive::WriteError;
use implib_libraries::arm64ec::Unimported;
use implib_libraries::delayed::Undelayed;
use implib_options::words::Fault;
use implib_rules::library::Refusal;
use implib_rules::warnings::Warning;
use std::io;

/// What the program complains of.
#[derive(Debug, Drop)]
pub enum Complaint<'a> {
    /// A word of the command line is refused.
    Word(Fault<'a>),
    /// What the options ask for is refused.
    Call(CallFault<'a>),
    /// An argument is not UTF-8: this one, as far as it can be shown.
    NotUtf8(&'a str),
    /// An allocation failed.
    OutOfMemory,
    /// A call of the system failed.
    System(io::Error),
    /// A library was not written whole.
    Writing(WriteError),
    /// The DLLs of a library are not named.
    Identity(NotIdentified),
    /// A library would have stubs that cannot run.
    FailingStub,
    /// A definition is in UTF-16.
    Utf16,
    /// A definition has no library of delayed imports.
    Undelayed(Undelayed),
    /// A library of delayed imports leaves so many exports out, since they are data, and this one
    /// first: a warning.
    LeftOut(usize, &'a str),
    /// A definition has no short imports for ARM64EC.
    Unimported(Unimported),
    /// A DLL has no library.
    Dll(DllRefusal),
    /// A file with an archive's signature is no archive.
    NoLibrary,
    /// A file for `--decorations` lacks this many functions of a DLL: a warning.
    Missing(usize),
    /// So many forwarders of a DLL lead to nothing in the folders of `--search`: a warning.
    Astray(usize),
    /// The export directory of a DLL has another name than its file: a warning.
    Renamed,
}

/// Who says what is wrong, each a line.
pub trait Reporter {
    // What was said so far, if it is known.
    ghost said: { Self → Option (List Line) };

    /// Says a warning of the definition of a path, whose exports are in these lines.
    fn warn(&mut self, path: &str, warning: &Warning<'_>, lines: &[usize])
        ensures { Says (said self.old) (said self.new)
            (Warns path.now (warning_view warning.now) lines.now ∷ []) };

    /// Says why the definition of a path is refused.
    fn refuse(&mut self, path: &str, refusal: &Refusal)
        ensures { Says (said self.old) (said self.new) (Refuses path.now refusal.now ∷ []) };

    /// Says a complaint of a path, or of the program by its name.
    fn complain(&mut self, subject: &str, complaint: Complaint<'_>)
        ensures { Says (said self.old) (said self.new)
            (Complains subject.now (complaint_view complaint.entry) ∷ []) };
}
