//! The statuses that C gets.

ghost use Rattle.implib.specs.Fault.{cause_of};
ghost use Rattle.implib_c_calls.specs.Status.{archive_status, cause_status, delay_status};
ghost use Rattle.implib_c_calls.specs.Status.{export_status, status_number, text_for, with_text};
ghost use Rattle.std.specs.Prelude.{◌<◌, ◌≡◌, length};

use crate::export::ExportFault;
use crate::outcome::NoDelay;
use implib::Fault;

/// How a call ended.
#[derive(Clone, Copy, Debug)]
pub enum Status {
    /// Done.
    Success,
    /// The encoding is longer than the buffer.
    BufferTooSmall,
    /// An allocation failed.
    OutOfMemory,
    /// The text is not UTF-8.
    NotUtf8,
    /// No machine has this number.
    UnknownMachine,
    /// No flavour has this number.
    UnknownFlavor,
    /// [`Fault::UnknownDirective`], and each further one by its name.
    UnknownDirective,
    /// [`Fault::ExpectedIdentifier`].
    ExpectedIdentifier,
    /// [`Fault::ExpectedEqual`].
    ExpectedEqual,
    /// [`Fault::ExpectedInteger`].
    ExpectedInteger,
    /// [`Fault::InvalidOrdinal`].
    InvalidOrdinal,
    /// [`Fault::LoneAt`].
    LoneAt,
    /// [`Fault::EmptyImportName`].
    EmptyImportName,
    /// [`Fault::NulInImportName`].
    NulInImportName,
    /// [`Fault::EmptyName`].
    EmptyName,
    /// [`Fault::NulInExport`].
    NulInExport,
    /// [`Fault::EmptyAskedName`].
    EmptyAskedName,
    /// [`Fault::MemberTooLong`], of the library and of an archive.
    MemberTooLong,
    /// [`Fault::NoNameType`].
    NoNameType,
    /// [`implib_archive::Fault::EmptyName`].
    EmptyMemberName,
    /// [`implib_archive::Fault::NulInName`].
    NulInMemberName,
    /// [`implib_archive::Fault::LineEndInName`].
    LineEndInMemberName,
    /// [`implib_archive::Fault::EmptySymbol`], and each further one by its name.
    EmptySymbol,
    /// [`implib_archive::Fault::NulInSymbol`].
    NulInSymbol,
    /// [`implib_archive::Fault::TooManyMembers`].
    TooManyMembers,
    /// [`implib_archive::Fault::ArchiveTooLong`].
    ArchiveTooLong,
    /// [`Fault::EmptyLibraryName`].
    EmptyLibraryName,
    /// [`Fault::NulInLibraryName`].
    NulInLibraryName,
    /// [`Fault::LineEndInLibraryName`].
    LineEndInLibraryName,
    /// By the rules of the program, no name of the DLL is given.
    NoDllName,
    /// The size of the options is that of none that the header knows.
    UnknownOptions,
    /// No options have these flags.
    UnknownFlags,
    /// The name of the DLL that is given is not UTF-8.
    DllNotUtf8,
    /// An export has an unknown flag.
    UnknownExportFlags,
    /// A name of an export is not UTF-8.
    ExportNotUtf8,
    /// A pointer of an export is null. The header alone gives it.
    NullInExport,
    /// The bytes are no archive, or a thin one.
    NotALibrary,
    /// The bytes are no image: [`implib_dll::Fault`].
    NotAnImage,
    /// The image has no export directory.
    NoExportDirectory,
    /// A function of the header's caller did not take a piece of a library.
    WriteFailed,
    /// Delayed imports for Microsoft's linkers, and each further one: [`NoDelay`].
    DelayFlavor,
    /// The machine has no code for delayed imports.
    DelayMachine,
    /// An export that is data is not delayed.
    DelayData,
    /// An export that is a weak name for another is not delayed.
    DelayAlias,
    /// The DLL is for another machine than the options.
    OtherMachine,
    /// The position of a DLL's name, or an ordinal without a name, is above 65,535.
    ExportOutOfRange,
    /// A function's name has no reading as one of C++, by which ARM64EC marks it.
    UnreadableName,
    /// The native definition is refused.
    NativeRefused,
}

impl Status {
    /// The number that C gets.
    pub fn number(self) -> u32
        ensures { result ≡ status_number self }
    {
        match self {
            Status::Success => 0,
            Status::BufferTooSmall => 1,
            Status::OutOfMemory => 2,
            Status::NotUtf8 => 3,
            Status::UnknownMachine => 4,
            Status::UnknownFlavor => 5,
            Status::UnknownDirective => 16,
            Status::ExpectedIdentifier => 17,
            Status::ExpectedEqual => 18,
            Status::ExpectedInteger => 19,
            Status::InvalidOrdinal => 20,
            Status::LoneAt => 21,
            Status::EmptyImportName => 22,
            Status::NulInImportName => 23,
            Status::EmptyName => 24,
            Status::NulInExport => 25,
            Status::EmptyAskedName => 26,
            Status::MemberTooLong => 27,
            Status::NoNameType => 28,
            Status::EmptyMemberName => 29,
            Status::NulInMemberName => 30,
            Status::LineEndInMemberName => 31,
            Status::EmptySymbol => 32,
            Status::NulInSymbol => 33,
            Status::TooManyMembers => 34,
            Status::ArchiveTooLong => 35,
            Status::EmptyLibraryName => 36,
            Status::NulInLibraryName => 37,
            Status::LineEndInLibraryName => 38,
            Status::NoDllName => 39,
            Status::UnknownOptions => 40,
            Status::UnknownFlags => 41,
            Status::DllNotUtf8 => 42,
            Status::UnknownExportFlags => 43,
            Status::ExportNotUtf8 => 44,
            Status::NullInExport => 45,
            Status::NotALibrary => 46,
            Status::WriteFailed => 47,
            Status::NotAnImage => 48,
            Status::NoExportDirectory => 49,
            Status::DelayFlavor => 50,
            Status::DelayMachine => 51,
            Status::DelayData => 52,
            Status::DelayAlias => 53,
            Status::OtherMachine => 54,
            Status::ExportOutOfRange => 55,
            Status::UnreadableName => 56,
            Status::NativeRefused => 57,
        }
    }

    /// The status of a fault of the input.
    pub fn of_fault(fault: &Fault) -> Status
        ensures { result ≡ cause_status (cause_of fault.now) }
    {
        match fault {
            Fault::UnknownDirective(_) => Status::UnknownDirective,
            Fault::ExpectedIdentifier(_) => Status::ExpectedIdentifier,
            Fault::ExpectedEqual(_) => Status::ExpectedEqual,
            Fault::ExpectedInteger => Status::ExpectedInteger,
            Fault::InvalidOrdinal(_) => Status::InvalidOrdinal,
            Fault::LoneAt => Status::LoneAt,
            Fault::EmptyImportName => Status::EmptyImportName,
            Fault::NulInImportName => Status::NulInImportName,
            Fault::EmptyLibraryName => Status::EmptyLibraryName,
            Fault::NulInLibraryName => Status::NulInLibraryName,
            Fault::LineEndInLibraryName => Status::LineEndInLibraryName,
            Fault::EmptyName(_) => Status::EmptyName,
            Fault::NulInExport(_) => Status::NulInExport,
            Fault::EmptyAskedName(_) => Status::EmptyAskedName,
            Fault::MemberTooLong => Status::MemberTooLong,
            Fault::NoNameType(_) => Status::NoNameType,
        }
    }

    /// The status of an export that is refused by itself.
    pub fn of_export(fault: ExportFault) -> Status
        ensures { result ≡ export_status fault }
    {
        match fault {
            ExportFault::UnknownFlags => Status::UnknownExportFlags,
            ExportFault::NotUtf8 => Status::ExportNotUtf8,
            ExportFault::OutOfRange => Status::ExportOutOfRange,
        }
    }

    /// The status of imports that are not delayed.
    pub fn of_delay(why: NoDelay) -> Status
        ensures { result ≡ delay_status why }
    {
        match why {
            NoDelay::Flavor => Status::DelayFlavor,
            NoDelay::Machine => Status::DelayMachine,
            NoDelay::Data => Status::DelayData,
            NoDelay::Alias => Status::DelayAlias,
        }
    }

    /// The status of members that have no archive.
    pub fn of_archive(fault: implib_archive::Fault) -> Status
        ensures { result ≡ archive_status fault }
    {
        match fault {
            implib_archive::Fault::EmptyName => Status::EmptyMemberName,
            implib_archive::Fault::NulInName => Status::NulInMemberName,
            implib_archive::Fault::LineEndInName => Status::LineEndInMemberName,
            implib_archive::Fault::EmptySymbol => Status::EmptySymbol,
            implib_archive::Fault::NulInSymbol => Status::NulInSymbol,
            implib_archive::Fault::MemberTooLong => Status::MemberTooLong,
            implib_archive::Fault::TooManyMembers => Status::TooManyMembers,
            implib_archive::Fault::ArchiveTooLong => Status::ArchiveTooLong,
        }
    }
}

/// The text for a number, which may be no status: in ASCII without NUL. A fault's is its displayed
/// text, less the value that this ends with.
pub fn status_text(number: u32) -> &'static str
    ensures text { result.now ≡ text_for number }
    ensures short { length result.now < 32 }
{
    match number {
        0 => "success",
        1 => "buffer too small",
        2 => "out of memory",
        3 => "input is not UTF-8",
        4 => "unknown machine",
        5 => "unknown flavour",
        16 => "unknown directive",
        17 => "expected identifier",
        18 => "expected equal",
        19 => "expected integer",
        20 => "invalid ordinal",
        21 => "lone @ after =",
        22 => "import name is empty",
        23 => "import name contains null byte",
        24 => "export name is empty",
        25 => "export name contains null byte",
        26 => "asked name is empty",
        27 => "member too long",
        28 => "no name type for the asked name",
        29 => "member name is empty",
        30 => "member name contains null byte",
        31 => "member name contains line end",
        32 => "symbol is empty",
        33 => "symbol contains null byte",
        34 => "too many members",
        35 => "archive too long",
        36 => "library name is empty",
        37 => "library name contains null byte",
        38 => "library name contains line end",
        39 => "no name of the DLL",
        40 => "unknown options",
        41 => "unknown flags",
        42 => "name of the DLL is not UTF-8",
        43 => "unknown flags of an export",
        44 => "export name is not UTF-8",
        45 => "export has a null pointer",
        46 => "not a library",
        47 => "writing failed",
        48 => "not an image",
        49 => "no export directory",
        50 => "no delay for Microsoft's linker",
        51 => "no delayed imports on machine",
        52 => "data cannot be delayed",
        53 => "alias cannot be delayed",
        54 => "DLL is for another machine",
        55 => "hint or ordinal is above 65535",
        56 => "no name of C++ for ARM64EC",
        57 => "native definition is refused",
        _ => "unknown status",
    }
}

/// Puts the text of a status and a NUL at the beginning of `buffer`, where it has room for both;
/// otherwise the buffer is as it was. Gives the length of the text without the NUL, less than 32. A
/// number that is no status has a text, too.
pub fn put_status_text(status: u32, buffer: &mut [u8]) -> usize
    ensures text { buffer.new ≡ with_text buffer.old (text_for status) }
    ensures length { result ≡ length (text_for status) }
    ensures short { result < 32 }
{
    let text = status_text(status);
    let end = text.len();
    if end < buffer.len() {
        buffer[..end].copy_from_slice(text.as_bytes());
        buffer[end] = 0;
    }
    end
}
