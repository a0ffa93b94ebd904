//! What faults say.

use implib::def::lexer::TokenKind;
use implib::{Error, Fault, ParseError};
use std::alloc::{AllocError, Global};

/// Appends a line for each fault of a library: what it says, and the export that it tells. Then
/// what is said of memory, and a line for each fault of an archive.
pub fn show_faults(alloc: Global, text: &mut String) -> Result<(), AllocError> {
    let found = String::from_str(alloc, "foo")?;
    show_fault(alloc, text, Fault::UnknownDirective(found))?;
    let found = String::from_str(alloc, "65536")?;
    show_fault(alloc, text, Fault::InvalidOrdinal(found))?;
    for fault in [
        Fault::ExpectedIdentifier(TokenKind::Eof),
        Fault::ExpectedEqual(TokenKind::Comma),
        Fault::ExpectedInteger,
        Fault::LoneAt,
        Fault::EmptyImportName,
        Fault::NulInImportName,
        Fault::EmptyLibraryName,
        Fault::NulInLibraryName,
        Fault::LineEndInLibraryName,
        Fault::EmptyName(7),
        Fault::NulInExport(7),
        Fault::EmptyAskedName(7),
        Fault::NoNameType(7),
        Fault::MemberTooLong,
    ] {
        show_fault(alloc, text, fault)?;
    }
    writeln!(text, "  {}", Error::OutOfMemory(AllocError))?;
    writeln!(text, "  {}", ParseError::OutOfMemory(AllocError))?;
    show_archive_faults(alloc, text)
}

/// Appends what a fault says, and as an error where that says something else.
fn show_fault(alloc: Global, text: &mut String, fault: Fault) -> Result<(), AllocError> {
    let own = format!(in alloc; "{fault}")?;
    write!(text, "  {own}")?;
    if let Some(index) = fault.export_index() {
        write!(text, ": export {index}")?;
    }
    show_other(alloc, text, own.as_str(), Error::from(fault))?;
    text.push('\n')
}

/// Appends what an error says, if it is not this.
fn show_other(alloc: Global, text: &mut String, own: &str, error: Error) -> Result<(), AllocError> {
    let whole = format!(in alloc; "{error}")?;
    if whole.as_str() != own {
        write!(text, "; as an error {whole}")?;
    }
    Ok(())
}

/// Appends a line for each fault of an archive.
fn show_archive_faults(alloc: Global, text: &mut String) -> Result<(), AllocError> {
    for fault in [
        implib_archive::Fault::EmptyName,
        implib_archive::Fault::NulInName,
        implib_archive::Fault::LineEndInName,
        implib_archive::Fault::EmptySymbol,
        implib_archive::Fault::NulInSymbol,
        implib_archive::Fault::MemberTooLong,
        implib_archive::Fault::TooManyMembers,
        implib_archive::Fault::ArchiveTooLong,
    ] {
        let own = format!(in alloc; "{fault}")?;
        let whole = format!(in alloc; "{}", implib_archive::Error::from(fault))?;
        writeln!(text, "  {own}")?;
        if own != whole {
            writeln!(text, "  {whole}")?;
        }
    }
    Ok(())
}
