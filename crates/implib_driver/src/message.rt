//! What the program says of a call that it refuses, or that failed.

use crate::dll::DllRefusal;
use crate::identity::NotIdentified;
use crate::reporter::Complaint;
use crate::request::CallFault;
use implib::Fault as DefinitionFault;
use implib::def::Position;
use implib_arm64ec::ImportsFault;
use implib_libraries::arm64ec::Unimported;
use implib_libraries::delayed::Undelayed;
use implib_options::help::OptionName;
use implib_options::table::Words;
use implib_options::words::Fault;
use implib_rules::{FaultMessage, Shown};
use std::fmt;

/// The long names of options, one of which a message may tell in full. `input-native-def` is none
/// of them, so that `--input`, which GNU dlltool takes, is told as `--input-def`.
pub const NAMES: [&str; 41] = [
    "input-def",
    "def",
    "dll",
    "output-lib",
    "machine",
    "dllname",
    "flavor",
    "as",
    "as-flags",
    "temp-prefix",
    "kill-at",
    "no-leading-underscore",
    "leading-underscore",
    "export-as",
    "deterministic-libraries",
    "non-deterministic-libraries",
    "no-delete",
    "verbose",
    "help",
    "version",
    "output-exp",
    "output-def",
    "output-delaylib",
    "base-file",
    "identify",
    "identify-strict",
    "decorations",
    "search",
    "no-idata4",
    "no-idata5",
    "add-indirect",
    "ext-prefix-alias",
    "add-underscore",
    "add-stdcall-underscore",
    "add-stdcall-alias",
    "compat-implib",
    "export-all-symbols",
    "no-export-all-symbols",
    "exclude-symbols",
    "no-default-excludes",
    "use-nul-prefixed-import-tables",
];

// The one long name that an option of a word begins, if there is one.
fn whole_name(word: &str) -> Option<&'static str> {
    let name = match word.split_once('=') {
        Some((name, _)) => name,
        None => word,
    };
    let name = name.strip_prefix("--")?.as_bytes();
    let mut found = None;
    for whole in NAMES {
        if !name.is_empty() && whole.as_bytes().starts_with(name) {
            if found.is_some() {
                return None;
            }
            found = Some(whole);
        }
    }
    found
}

// The tool that has what an option of GNU dlltool asks for, behind a semicolon, where it is known.
fn other_tool(word: &str) -> &'static str {
    match word {
        "-e" | "--output-exp" => "; GNU dlltool writes the exports of objects",
        "-z" | "--output-def" => {
            "; implib_check --def writes the definition of a DLL, ld --output-def that of objects"
        }
        _ => "",
    }
}

/// What is wrong with words, in a user's words.
#[derive(Drop)]
pub struct WordMessage<'a>(pub Fault<'a>);

impl<'a> fmt::Display for WordMessage<'a> {
    fn fmt<W: fmt::Write>(&self, f: &mut fmt::Formatter<W>) -> fmt::Result {
        match self.0 {
            Fault::Unsupported(word) => {
                write!(f, "{}: not supported{}", Shown(word), other_tool(word))
            }
            Fault::Unknown(word) => match whole_name(word) {
                Some(name) => {
                    write!(f, "{}: no such option; write --{name} in full", Shown(word))
                }
                None => write!(f, "{}: no such option", Shown(word)),
            },
            Fault::File(word) if word.as_bytes().starts_with(b"@") => {
                write!(f, "{}: files of options are not supported", Shown(word))
            }
            Fault::File(word) => {
                write!(
                    f,
                    "{}: no option; objects are not supported; llvm-lib makes libraries of them",
                    Shown(word)
                )
            }
            Fault::NoValue(meaning) => {
                let name = OptionName(Words::Dlltool, meaning);
                write!(f, "the option {name} lacks its value")
            }
            Fault::NoValueIn(word) => { write!(f, "{}: expected a colon and a value", Shown(word)) }
            Fault::NoMachine(word) => write!(
                f,
                "{}: no such machine: expected x86, x64, arm, arm64 or arm64ec",
                Shown(word)
            ),
            Fault::NoDefinition => f.write_str(
                "no definition: expected the option /def\n\
                 usage: implib_dlltool --lib /def:FILE /out:OUT [/machine:MACHINE] [/name:DLL]",
            ),
            Fault::NoOutput => f.write_str(
                "no name for the library's file: expected the option /out",
            ),
            Fault::NoLibrary => f.write_str("no library: expected its file beside /list"),
            Fault::Further(word) => {
                write!(f, "{}: expected one library beside /list", Shown(word))
            }
            Fault::ListedDefinition => f.write_str("/list: not together with /def"),
        }
    }
}

impl<'a> fmt::Display for CallFault<'a> {
    fn fmt<W: fmt::Write>(&self, f: &mut fmt::Formatter<W>) -> fmt::Result {
        match self {
            CallFault::TwoInputs => {
                f.write_str(
                    "expected one definition or DLL; objects are not supported; \
                     ld --output-def writes the definition of objects",
                )
            }
            CallFault::NoDefinition => f.write_str(
                "no definition: expected the option -d\n\
                 usage: implib_dlltool -d FILE [-l OUT] [-y OUT] [-m MACHINE] [-D DLL] [--flavor FLAVOUR]",
            ),
            CallFault::UnknownMachine(name) => write!(
                f,
                "{}: no such machine: expected i386, i386:x86-64, arm, arm64 or arm64ec",
                Shown(name)
            ),
            CallFault::UnknownFlavor(name) => {
                write!(f, "{}: no such flavour: expected msvc or gnu", Shown(name))
            }
            CallFault::EmptyDll => f.write_str("the name of the DLL that is given is empty"),
            CallFault::OutputToStandard => {
                f.write_str("the library cannot go to standard output")
            }
            CallFault::EmptyDefinition => {
                f.write_str("the name of the definition's file is empty")
            }
            CallFault::EmptyOutput => f.write_str("the name of the library's file is empty"),
            CallFault::OtherArchitecture => f.write_str(
                "the program's name is of a machine that is not supported: expected the option -m, or \
                 /machine after --lib",
            ),
            CallFault::OutputIsDefinition => {
                f.write_str("the library would take the place of the definition")
            }
            CallFault::OutputIsDecorations => f.write_str(
                "the library would take the place of the file of --decorations",
            ),
            CallFault::OutputIsSearched => f.write_str(
                "the library would take the place of a DLL in a folder of --search",
            ),
            CallFault::OneOutput => {
                f.write_str("-l and -y name one file; expected a file for each library")
            }
            CallFault::NoDelay => f.write_str(
                "--output-delaylib: not supported on arm, arm64 and arm64ec; -m i386 and \
                 i386:x86-64 can",
            ),
            CallFault::DelayForMicrosoft => f.write_str(
                "--output-delaylib: not for Microsoft's linkers, which delay the imports of an \
                 ordinary library by /delayload; --flavor gnu can",
            ),
            CallFault::NoUnderscore => {
                f.write_str("--leading-underscore: C's symbols have one on i386 alone")
            }
            CallFault::DecoratedDefinition => f.write_str(
                "--decorations: for a DLL alone, since a definition has its symbols",
            ),
            CallFault::SearchedDefinition => f.write_str(
                "--search: for a DLL alone, since a definition says which exports are data",
            ),
            CallFault::Arm64ecForGnu => f.write_str(
                "arm64ec: not supported for GNU's linker; leave out --flavor, or make it msvc",
            ),
            CallFault::NativeElsewhere => f.write_str(
                "--input-native-def: for arm64ec alone; add -m arm64ec, or /machine:arm64ec after \
                 --lib",
            ),
            CallFault::EmptyNative => {
                f.write_str("the name of the native definition's file is empty")
            }
            CallFault::OutputIsNative => {
                f.write_str("the library would take the place of the native definition")
            }
            CallFault::OneInput => f.write_str(
                "-d and -N are both standard input; expected a file for one of them",
            ),
            CallFault::NoOlderSymbols => f.write_str(
                "--compat-implib: not supported for Microsoft's linker; --flavor gnu can, but on \
                 arm64ec",
            ),
        }
    }
}

impl fmt::Display for DllRefusal {
    fn fmt<W: fmt::Write>(&self, f: &mut fmt::Formatter<W>) -> fmt::Result {
        match self {
            DllRefusal::Read(fault) => { write!(f, "{} (offset {})", fault.cause, fault.offset) }
            DllRefusal::NoExports => f.write_str("it exports nothing"),
            DllRefusal::UnknownMachine(number) => write!(
                f,
                "it is for machine {number:#06x}: expected i386, i386:x86-64, arm or arm64"
            ),
            DllRefusal::OtherMachine => f.write_str("it is for another machine than -m names"),
            DllRefusal::Arm64ec => f.write_str(
                "arm64ec: not supported for a DLL; for a definition it is, as implib_check --def \
                 writes one",
            ),
            DllRefusal::OlderSymbols => {
                f.write_str("--compat-implib: not supported for a DLL; for a definition it is")
            }
            DllRefusal::Delayed => f.write_str(
                "--output-delaylib: not supported for a DLL; for a definition it is",
            ),
            DllRefusal::Undecorated => {
                f.write_str("--decorations: C's symbols count bytes of arguments on i386 alone")
            }
            DllRefusal::NameNotUtf8 => {
                f.write_str("the name in its export directory is not UTF-8; -D can give one")
            }
            DllRefusal::Unsaid(unsaid) => write!(f, "{unsaid}"),
            DllRefusal::NoName => f.write_str("no name of the DLL; -D can give one"),
            DllRefusal::Members(fault) => write!(f, "{fault}"),
            DllRefusal::OutOfMemory => f.write_str("out of memory"),
        }
    }
}

/// Why imports cannot be delayed.
pub fn undelayed_text(why: &Undelayed) -> &'static str {
    match why {
        Undelayed::Data(_) => {
            "data cannot be delayed, since only a call loads the DLL; leave it out for -y"
        }
        Undelayed::Alias(_) => "an alias cannot be delayed; leave it out for -y",
        Undelayed::Machine => "this machine has no code for delayed imports",
    }
}

/// Why a definition has no short imports for ARM64EC, in a user's words.
#[derive(Drop)]
pub struct UnimportedMessage<'a>(pub &'a Unimported);

impl<'a> fmt::Display for UnimportedMessage<'a> {
    fn fmt<W: fmt::Write>(&self, f: &mut fmt::Formatter<W>) -> fmt::Result {
        match self.0.fault {
            ImportsFault::NulInDllName => {
                write!(f, "{}", FaultMessage(&DefinitionFault::NulInImportName))
            }
            ImportsFault::NulInExport(index) => {
                write!(f, "{}", FaultMessage(&DefinitionFault::NulInExport(index)))
            }
            ImportsFault::Unreadable(_, place) => write!(
                f,
                "a name of C++ for arm64ec that is not understood after {place} bytes; with $$h in \
                 it a name is taken as it is"
            ),
            ImportsFault::MemberTooLong(_) => {
                write!(f, "{}", FaultMessage(&DefinitionFault::MemberTooLong))
            }
        }
    }
}

/// Where that is; none where it is of the DLL's name.
pub fn position_of_unimported(why: &Unimported) -> Option<Position> {
    match why.fault {
        ImportsFault::NulInDllName => None,
        _ => Some(why.position),
    }
}

impl<'a> fmt::Display for Complaint<'a> {
    fn fmt<W: fmt::Write>(&self, f: &mut fmt::Formatter<W>) -> fmt::Result {
        match self {
            Complaint::Word(fault) => write!(f, "{}", WordMessage(*fault)),
            Complaint::Call(fault) => write!(f, "{fault}"),
            Complaint::NotUtf8("") => f.write_str("an argument is not UTF-8"),
            Complaint::NotUtf8(text) => write!(f, "{}: not UTF-8", Shown(text)),
            Complaint::OutOfMemory => f.write_str("out of memory"),
            Complaint::System(cause) => write!(f, "{cause}"),
            Complaint::Writing(cause) => write!(f, "{cause}"),
            Complaint::Identity(fault) => f.write_str(match fault {
                NotIdentified::NoLibrary => "no archive, or a thin one",
                NotIdentified::NoDll => "no import of a DLL is in it",
                NotIdentified::SeveralDlls => "it imports from two DLLs or more",
            }),
            Complaint::Dll(refusal) => write!(f, "{refusal}"),
            Complaint::NoLibrary => f.write_str("no archive"),
            Complaint::Missing(1) => {
                f.write_str("warning: one function of the DLL is not in it")
            }
            Complaint::Missing(count) => {
                write!(f, "warning: {count} functions of the DLL are not in it")
            }
            Complaint::Astray(1) => f.write_str(
                "warning: one forwarder leads to nothing in the folders, and stays code",
            ),
            Complaint::Astray(count) => write!(
                f,
                "warning: {count} forwarders lead to nothing in the folders, and stay code"
            ),
            Complaint::Renamed => f.write_str(
                "warning: its export directory has another name, by which programs will ask for \
                 the DLL; -D gives the library the file's",
            ),
            Complaint::Undelayed(why) => f.write_str(undelayed_text(why)),
            Complaint::LeftOut(1, first) => write!(
                f,
                "warning: {} is data, which no first call loads, and is left out of -y's library",
                Shown(first)
            ),
            Complaint::LeftOut(count, first) => write!(
                f,
                "warning: {count} exports are data, which no first call loads, and are left out \
                 of -y's library; the first is {}",
                Shown(first)
            ),
            Complaint::Unimported(why) => write!(f, "{}", UnimportedMessage(why)),
            Complaint::Utf16 => f.write_str("the definition is UTF-16; expected UTF-8"),
            Complaint::FailingStub => f.write_str(
                "functions for GNU's linker cannot run on arm, by the stubs that they have there; \
                 --flavor msvc can",
            ),
        }
    }
}
