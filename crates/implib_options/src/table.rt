//! The options of the programs `implib_dlltool` and `implib_check`, each in one row: how it is
//! spelled, what it takes, what it means, and its lines of `--help`.

ghost use Rattle.implib_options.specs.Table.{help_rows, options};
ghost use Rattle.std.specs.Prelude.{◌≡◌, map};

/// Whose words an option is spelled in.
#[derive(Clone, Copy, Debug, PartialEq, Eq)]
pub enum Words {
    /// Those of `implib_dlltool`, after GNU dlltool and llvm-dlltool.
    Dlltool,
    /// Those of Microsoft's LIB, which `implib_dlltool` takes too.
    Lib,
    /// Those of `implib_check`.
    Check,
}

/// What an option takes.
#[derive(Clone, Copy, Debug, PartialEq, Eq)]
pub enum Takes {
    /// No value.
    Nothing,
    /// A value.
    Value,
    /// It has a meaning in another program and none here, and is refused by its name.
    Refused,
}

/// What an option means; the lines of `--help` of its row say it.
#[derive(Clone, Copy, Debug, PartialEq, Eq)]
pub enum Meaning {
    /// No option: the file of a word that is none.
    Input,
    Definition,
    Output,
    DelayedOutput,
    NativeDefinition,
    Machine,
    Dll,
    Flavor,
    Assembler,
    AssemblerFlags,
    TemporaryPrefix,
    FurtherPrefix,
    Identify,
    Decorations,
    Search,
    KillAt,
    NoLeadingUnderscore,
    LeadingUnderscore,
    ExportAs,
    AddUnderscore,
    AddStdcallUnderscore,
    CompatImplib,
    IdentifyStrict,
    /// On I386 a word with an `@` is a symbol as it is. LIB's words have it without an option.
    KeepsDecorated,
    ListsMembers,
    Verbose,
    Help,
    Version,
    LibWays,
    Define,
    ListsUnasked,
    ListsExports,
    ListsImports,
    Same,
    Together,
    Works,
    Json,
    /// It is taken, and has no effect: it is about exports that objects have, about files that are
    /// not made, or about what is so in any case.
    Ignored,
    Refused,
}

/// An option: in whose words it is; its name, without `--` or `/`, of LIB's in small letters; the
/// letter of its short form, if it has one; what it takes and means; its lines of `--help`.
pub type Row = (
    Words,
    &'static str,
    Option<u8>,
    Takes,
    Meaning,
    &'static str,
);

// A row, with or without a letter.
macro_rules! row {
    ($of:ident $name:literal $takes:ident $meaning:ident $help:literal) => {
        (Words::$of, $name, None, Takes::$takes, Meaning::$meaning, $help)
    };
    ($of:ident $name:literal $letter:literal $takes:ident $meaning:ident $help:literal) => {
        (Words::$of, $name, Some($letter), Takes::$takes, Meaning::$meaning, $help)
    };
}

/// The options. Of rows that have one name, or one letter, the first counts, and of those that have
/// one meaning messages tell the first.
pub const OPTIONS: [Row; 91] = [
    row!(Dlltool "input-def" b'd' Value Definition
"  -d, --input-def FILE     the module definition; - is standard input; also
                           --def"),
    row!(Dlltool "def" Value Definition ""),
    row!(Dlltool "dll" Value Definition
"      --dll FILE           the DLL; its machine is the library's. A FILE that
                           begins with MZ is a DLL, and any other a definition"),
    row!(Dlltool "output-lib" b'l' Value Output
"  -l, --output-lib OUT     the import library; without it FILE is checked"),
    row!(Dlltool "output-delaylib" b'y' Value DelayedOutput
"  -y, --output-delaylib OUT
                           a library by which GNU's linker makes each first call
                           of a function load the DLL; link it with -ldelayimp.
                           On i386 and i386:x86-64, of functions alone; names
                           are asked for as under -k"),
    row!(Dlltool "machine" b'm' Value Machine
"  -m, --machine MACHINE    i386 or x86; i386:x86-64, amd64, x64 or x86_64; arm
                           or armnt; arm64 or aarch64; arm64ec; by default the
                           one that the program's name begins with, as
                           i686-w64-mingw32-dlltool, and else i386:x86-64"),
    row!(Dlltool "input-native-def" b'N' Value NativeDefinition
"  -N, --input-native-def FILE
                           with -m arm64ec, the definition of what the DLL
                           exports to programs for arm64"),
    row!(Dlltool "dllname" b'D' Value Dll
"  -D, --dllname DLL        the name of the DLL, before that of FILE"),
    row!(Dlltool "flavor" Value Flavor
"      --flavor FLAVOUR     msvc or gnu: whose linker the library is for; by
                           default msvc for arm, arm64 and arm64ec and for OUT
                           in .lib, unless -S, -f, -t or -y is given, and else
                           gnu; called as llvm-dlltool msvc, and called as
                           another dlltool gnu but for arm, arm64 and arm64ec"),
    row!(Dlltool "flavour" Value Flavor ""),
    row!(Dlltool "kill-at" b'k' Nothing KillAt
"  -k, --kill-at            on I386 ask for names without @ and what follows it"),
    row!(Dlltool "no-leading-underscore" Nothing NoLeadingUnderscore
"      --no-leading-underscore
                           on I386 take symbols as they are written"),
    row!(Dlltool "leading-underscore" Nothing LeadingUnderscore
"      --leading-underscore on I386 undo it"),
    row!(Dlltool "ext-prefix-alias" b'p' Value FurtherPrefix
"  -p, --ext-prefix-alias P a further import of each export, by P and its symbol"),
    row!(Dlltool "add-underscore" b'U' Nothing AddUnderscore
"  -U, --add-underscore     ask for each name with _ in front, but for fastcall's"),
    row!(Dlltool "add-stdcall-underscore" Nothing AddStdcallUnderscore
"      --add-stdcall-underscore
                           the same of names with @"),
    row!(Dlltool "export-as" Nothing ExportAs
"      --export-as          for Microsoft's linker, and for lld from 18 on, write
                           a name that is not made of its symbol beside it"),
    row!(Dlltool "decorations" Value Decorations
"      --decorations FILE   with a DLL for i386, take symbols as _Sleep@4 from
                           FILE, an import library or a definition"),
    row!(Dlltool "search" Value Search
"      --search DIR         with a DLL, make data of exports that are forwarded
                           to data, through the DLLs of folders; one at a time"),
    row!(Dlltool "compat-implib" b'C' Nothing CompatImplib
"  -C, --compat-implib      for GNU's linker, name each address by ___imp and its
                           symbol too, as in Cygwin's libraries before 2000"),
    row!(Dlltool "verbose" b'v' Nothing Verbose
"  -v, --verbose            write warnings of FILE on standard error"),
    row!(Dlltool "identify" b'I' Value Identify
"  -I, --identify LIB       print the names of the DLLs that LIB imports from,
                           and make nothing"),
    row!(Dlltool "identify-strict" Nothing IdentifyStrict
"      --identify-strict    refuse a LIB that imports from two DLLs or more"),
    row!(Dlltool "help" b'h' Nothing Help "  -h, --help"),
    row!(Dlltool "version" b'V' Nothing Version "  -V, --version"),
    row!(Dlltool "as" b'S' Value Assembler ""),
    row!(Dlltool "as-flags" b'f' Value AssemblerFlags ""),
    row!(Dlltool "temp-prefix" b't' Value TemporaryPrefix ""),
    row!(Dlltool "no-delete" b'n' Nothing Ignored ""),
    row!(Dlltool "add-stdcall-alias" b'A' Nothing Ignored ""),
    row!(Dlltool "no-export-all-symbols" b'u' Nothing Ignored ""),
    row!(Dlltool "deterministic-libraries" Nothing Ignored ""),
    row!(Dlltool "non-deterministic-libraries" Nothing Ignored ""),
    row!(Dlltool "output-exp" b'e' Refused Refused ""),
    row!(Dlltool "output-def" b'z' Refused Refused ""),
    row!(Dlltool "base-file" b'b' Refused Refused ""),
    row!(Dlltool "no-idata4" b'x' Refused Refused ""),
    row!(Dlltool "no-idata5" b'c' Refused Refused ""),
    row!(Dlltool "add-indirect" b'a' Refused Refused ""),
    row!(Dlltool "export-all-symbols" Refused Refused ""),
    row!(Dlltool "exclude-symbols" Refused Refused ""),
    row!(Dlltool "no-default-excludes" Refused Refused ""),
    row!(Dlltool "use-nul-prefixed-import-tables" Refused Refused ""),
    row!(Lib "def" Value Definition "  /def:FILE /out:OUT       the definition and the library"),
    row!(Lib "out" Value Output ""),
    row!(Lib "machine" Value Machine
"  /machine:MACHINE         x86, x64, arm, arm64, arm64ec, or arm64x, which is
                           the same"),
    row!(Lib "defarm64native" Value NativeDefinition "  /defArm64Native:FILE     as -N"),
    row!(Lib "name" Value Dll
"  /name:DLL                the name of the DLL, before that of FILE"),
    row!(Lib "verbose" Nothing Verbose "  /verbose                 as -v"),
    row!(Lib "list" Nothing ListsMembers
"  /list LIB                print the names of LIB's members, and make nothing"),
    row!(Lib "nologo" Nothing Ignored "  /nologo                  taken and ignored"),
    row!(Lib "help" Nothing Help "  /help, /?"),
    row!(Lib "?" Nothing Help ""),
    row!(Lib "extract" Refused Refused ""),
    row!(Lib "remove" Refused Refused ""),
    row!(Lib "libpath" Refused Refused ""),
    row!(Lib "export" Refused Refused ""),
    row!(Lib "include" Refused Refused ""),
    row!(Lib "subsystem" Refused Refused ""),
    row!(Lib "ltcg" Refused Refused ""),
    row!(Lib "wx" Refused Refused ""),
    row!(Lib "errorreport" Refused Refused ""),
    row!(Lib "nodefaultlib" Refused Refused ""),
    row!(Lib "linkrepro" Refused Refused ""),
    row!(Lib "linkreprotarget" Refused Refused ""),
    row!(Lib "ignore" Refused Refused ""),
    row!(Lib "llvmlibempty" Refused Refused ""),
    row!(Lib "llvmlibthin" Refused Refused ""),
    row!(Check "machine" b'm' Value Machine
"  -m, --machine MACHINE
                     i386, i386:x86-64, arm, arm64 or arm64ec; without it the
                     library's"),
    row!(Check "input-native-def" b'N' Value NativeDefinition
"  -N, --input-native-def FILE
                     of arm64ec, the definition of what the DLL exports for
                     arm64"),
    row!(Check "kill-at" b'k' Nothing KillAt
"  -k, --kill-at      ask for names without @ and the number after it, on i386"),
    row!(Check "no-leading-underscore" Nothing NoLeadingUnderscore
"  --no-leading-underscore
                     no underscore before symbols, on i386"),
    row!(Check "export-as" Nothing ExportAs
"  --export-as        names that are not made of their symbols stand beside them"),
    row!(Check "lib" Nothing LibWays
"  --lib              as implib_dlltool --lib: that, and on i386 words with an @
                     are symbols as they are"),
    row!(Check "compat-implib" b'C' Nothing CompatImplib
"  -C, --compat-implib
                     as implib_dlltool -C: each address has its symbol ___imp..
                     too"),
    row!(Check "dllname" b'D' Value Dll
"  -D, --dllname DLL  the DLL's name, before the definition's"),
    row!(Check "flavor" Value Flavor
"  --flavor FLAVOUR   msvc or gnu; without it the library's"),
    row!(Check "flavour" Value Flavor ""),
    row!(Check "def" Nothing Define
"  --def              a definition that means the library's imports and aliases,
                     or which member no definition says; of a DLL, a definition
                     of which implib_dlltool makes the library of the DLL"),
    row!(Check "search" Value Search
"  --search DIR       a folder, once for each: whether a program, or a DLL, finds
                     what it imports in the DLLs there; what it does not find.
                     With LIB or DEF and a DLL: where its forwarders lead there"),
    row!(Check "all" Nothing ListsUnasked
"  --all              the exports of the DLL, too, that no import asks for"),
    row!(Check "exports" Nothing ListsExports
"  --exports          a line for each export of a DLL: ordinal, code, data or
                     forwarder, address or other DLL's export, hint, name"),
    row!(Check "list" Nothing ListsImports
"  --list             a line for each import and alias: offset, DLL, symbol,
                     type, what is asked by, name, ordinal or hint; arm64ec
                     for that machine"),
    row!(Check "identify" Nothing Identify
"  --identify         the DLLs that the library imports from"),
    row!(Check "identify-strict" Nothing IdentifyStrict
"  --identify-strict  the DLL; an error where there are several"),
    row!(Check "same" Nothing Same
"  --same             whether two libraries have the same imports and aliases;
                     the differences"),
    row!(Check "together" Nothing Together
"  --together         which symbols two of these libraries take from different
                     DLLs, or by different names, in one link"),
    row!(Check "works" Nothing Works
"  --works            whether the indexes lead to what they name, each linker
                     asks for the same by the short imports, and the parts of
                     the import tables are there once each"),
    row!(Check "json" Nothing Json "  --json             a JSON object in place of each line"),
    row!(Check "help" b'h' Nothing Help "  -h, --help"),
    row!(Check "version" b'V' Nothing Version "  -V, --version"),
];

/// The options; what names `OPTIONS` itself has the whole table in its proof.
pub fn rows() -> &'static [Row]
    ensures spelled { map (λ row. (row.0, row.1.now, row.2, (row.3, row.4))) result.now ≡ options }
    ensures help { map (λ row. (row.0, row.5.now)) result.now ≡ help_rows }
{
    &OPTIONS
}

/// The machines that LIB and llvm-lib name, in small letters, each by its name for `-m`; nothing
/// for one that is not supported. ARM64X is ARM64EC, whose library it has.
pub const LIB_MACHINES: [(&'static str, &'static str); 23] = [
    ("x86", "i386"),
    ("i386", "i386"),
    ("x64", "i386:x86-64"),
    ("amd64", "i386:x86-64"),
    ("arm", "arm"),
    ("arm64", "arm64"),
    ("arm64ec", "arm64ec"),
    ("arm64x", "arm64ec"),
    ("ebc", ""),
    ("ia64", ""),
    ("thumb", ""),
    ("am33", ""),
    ("m32r", ""),
    ("ppc", ""),
    ("mips", ""),
    ("mips16", ""),
    ("mipsfpu", ""),
    ("mipsfpu16", ""),
    ("mipsr41xx", ""),
    ("sh3", ""),
    ("sh3dsp", ""),
    ("sh4", ""),
    ("sh5", ""),
];
