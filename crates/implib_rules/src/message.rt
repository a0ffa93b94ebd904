//! What is said of a definition that is refused.

ghost use Rattle.implib_rules.specs.Library.{position_of};
ghost use Rattle.std.specs.Prelude.{◌≡◌};

use crate::library::Refusal;
use crate::shown::Shown;
use implib::Fault;
use implib::def::Position;
use implib::def::lexer::TokenKind;
use std::fmt;

/// A token's kind as it is written.
#[derive(Drop)]
struct Written(TokenKind);

impl fmt::Display for Written {
    fn fmt<W: fmt::Write>(&self, f: &mut fmt::Formatter<W>) -> fmt::Result {
        f.write_str(match self.0 {
            // The lexer gives no such token: it is a quote without its end.
            TokenKind::Unknown => "a quote that its line does not close",
            TokenKind::Eof => "the end of the file",
            TokenKind::Identifier => "a name",
            TokenKind::Comma => "`,`",
            TokenKind::Equal => "`=`",
            // The words of other tools are replaced before a text is read (`plain`).
            TokenKind::EqualEqual => "`==` or EXPORTAS",
            TokenKind::KwBase => "the word BASE",
            TokenKind::KwConstant => "the word CONSTANT",
            TokenKind::KwData => "the word DATA",
            TokenKind::KwExports => "the word EXPORTS",
            TokenKind::KwHeapsize => "the word HEAPSIZE",
            TokenKind::KwLibrary => "the word LIBRARY",
            TokenKind::KwName => "the word NAME",
            TokenKind::KwNoname => "the word NONAME",
            TokenKind::KwPrivate => "the word PRIVATE",
            TokenKind::KwStacksize => "the word STACKSIZE",
            TokenKind::KwVersion => "the word VERSION",
        })
    }
}

/// A fault of a definition in a user's words.
#[derive(Drop)]
pub struct FaultMessage<'a>(pub &'a Fault);

impl<'a> fmt::Display for FaultMessage<'a> {
    fn fmt<W: fmt::Write>(&self, f: &mut fmt::Formatter<W>) -> fmt::Result {
        match self.0 {
            Fault::UnknownDirective(word) if word.is_empty() => {
                f.write_str("expected a statement, as LIBRARY or EXPORTS")
            }
            Fault::UnknownDirective(word) if word.as_str() == "==" => f.write_str(
                "expected a statement, as LIBRARY or EXPORTS, not `==` or EXPORTAS",
            ),
            Fault::UnknownDirective(word) => {
                write!(
                    f,
                    "expected a statement, as LIBRARY or EXPORTS, not `{}`",
                    Shown(word.as_str())
                )
            }
            Fault::ExpectedIdentifier(found) => {
                write!(f, "expected a name, not {}", Written(*found))
            }
            Fault::ExpectedEqual(found) => write!(f, "expected `=`, not {}", Written(*found)),
            Fault::ExpectedInteger => f.write_str("expected a number"),
            Fault::InvalidOrdinal(word) => {
                write!(
                    f,
                    "expected an ordinal from 0 to 65535, not `{}`",
                    Shown(word.as_str())
                )
            }
            Fault::LoneAt => f.write_str("expected a name behind `=`, not `@`"),
            Fault::EmptyImportName => f.write_str("the name of the DLL is empty"),
            Fault::NulInImportName => f.write_str("the name of the DLL has a null byte"),
            // The library's name is made of the DLL's.
            Fault::EmptyLibraryName => f.write_str("the name of the library is empty"),
            Fault::NulInLibraryName => f.write_str("the name of the library has a null byte"),
            Fault::LineEndInLibraryName => f.write_str("the name of the DLL has a line feed"),
            Fault::EmptyName(_) => f.write_str("the name of the export is empty"),
            Fault::NulInExport(_) => f.write_str("a name of the export has a null byte"),
            Fault::EmptyAskedName(_) => {
                f.write_str("the name that the DLL would be asked for is empty")
            }
            Fault::NoNameType(_) => f.write_str(
                "not supported for Microsoft's linker: the export asks the DLL for another name \
                 than its symbol's; --export-as or --flavor gnu can",
            ),
            Fault::MemberTooLong => f.write_str("a member would have 4 GiB or more"),
        }
    }
}

/// Where the refusal of a definition is; none where it is of all of it.
pub fn position_of(refusal: &Refusal) -> Option<Position>
    ensures { result ≡ position_of refusal.now }
{
    match refusal {
        Refusal::NotUtf8(position) | Refusal::Syntax(_, position) => Some(*position),
        Refusal::Members(fault, position) => match fault.export_index() {
            Some(_) => Some(*position),
            None => None,
        },
        Refusal::NoName | Refusal::Archive(_) | Refusal::OutOfMemory => None,
    }
}

impl fmt::Display for Refusal {
    fn fmt<W: fmt::Write>(&self, f: &mut fmt::Formatter<W>) -> fmt::Result {
        match self {
            Refusal::NotUtf8(_) => f.write_str("the definition is not UTF-8"),
            Refusal::Syntax(fault, _) | Refusal::Members(fault, _) => write!(
                f,
                "{}",
                FaultMessage(fault)
            ),
            Refusal::NoName => {
                f.write_str("no name of a DLL: expected LIBRARY or NAME with one, or the option -D")
            }
            Refusal::Archive(fault) => write!(f, "{fault}"),
            Refusal::OutOfMemory => f.write_str("out of memory"),
        }
    }
}
