//! What the options of a command line ask for.

ghost use Rattle.implib_driver.specs.Machines.{machine_type};
ghost use Rattle.implib_driver.specs.declared.request.CallFault.TheVariants.{TwoInputs};
ghost use Rattle.implib_options.specs.Given.{all, given_view};
ghost use Rattle.implib_options.specs.declared.table.Meaning.TheVariants.{Input};
ghost use Rattle.implib_rules.specs.Additions.{additions_view};
ghost use Rattle.implib_rules.specs.Linked.{naming_view};
ghost use Rattle.implib_driver.specs.Request.{additions_in, arm64ec_in, native_or};
ghost use Rattle.implib_driver.specs.Request.{IsCallRefusal, architecture_named, call_fault_view};
ghost use Rattle.implib_driver.specs.Request.{called_as};
ghost use Rattle.implib_driver.specs.Request.{caller_of};
ghost use Rattle.implib_driver.specs.Request.{default_flavor, dll_in, flavor_by_ending};
ghost use Rattle.implib_driver.specs.Request.{flavor_in};
ghost use Rattle.implib_driver.specs.Request.{has_gnu_habits, holds_text, input_in};
ghost use Rattle.implib_driver.specs.Request.{is_other_architecture};
ghost use Rattle.implib_driver.specs.Request.{machine_in, machine_named, machine_of_architecture};
ghost use Rattle.implib_driver.specs.Request.{machine_of_name};
ghost use Rattle.implib_driver.specs.Request.{delay_for, delayed_in, output_in, output_or};
ghost use Rattle.implib_driver.specs.Request.{naming_in, older_symbols_in, request_in};
ghost use Rattle.implib_driver.specs.Request.{request_view, wish_view};
ghost use Rattle.implib_driver.specs.Request.{task_of, task_view, wanted_of};
ghost use Rattle.std.specs.Option.{option_map, option_to_list};
ghost use Rattle.std.specs.Prelude.{◌≡◌, ◌<◌, Err, IfErr, IfOk, Ok, OnOk, length, map};

use crate::identity::Wanted;
use crate::machine::{LibraryMachine, library_machine_called};
use implib::{Flavor, MachineType};
use implib_options::given::{Given, has, is_last, last};
use implib_options::table::Meaning;
use implib_rules::additions::Additions;
use implib_rules::linked::Naming;
use implib_rules::name::last_part;
use implib_rules::options::LibraryOptions;
use std::alloc::{AllocError, Global};
use std::str::FromStr;

/// What is asked for beside a library for ARM64EC.
#[derive(Clone, Copy, Debug)]
pub struct Arm64ecWish<'a> {
    /// The file of the native definition, if one is given; `-` is standard input.
    pub native: Option<&'a str>,
}

/// What is to be made.
#[derive(Clone, Copy, Debug)]
pub struct Request<'a> {
    /// The file of the definition, or of the DLL; `-` is standard input.
    pub definition: &'a str,
    /// The file of the import library; none is written without it.
    pub output: Option<&'a str>,
    /// The file of the library of delayed imports; none is written without it.
    pub delayed: Option<&'a str>,
    /// What the library is made for; one for ARM64EC for ARM64.
    pub library: LibraryOptions<'a>,
    /// Whether the library is for ARM64EC.
    pub arm64ec: Option<Arm64ecWish<'a>>,
    /// The file that has the symbols of a DLL's names, if one is given.
    pub decorations: Option<&'a str>,
    /// The options, of which `--search` gives the folders of further DLLs.
    pub options: &'a [Given<'a>],
    /// Whether addresses have their older symbols too (`-C`).
    pub older_symbols: bool,
    /// Whether warnings are written (`-v`).
    pub is_verbose: bool,
}

/// The library whose DLLs or members are to be named.
#[derive(Clone, Copy, Debug)]
pub struct Identification<'a> {
    /// Its file.
    pub library: &'a str,
    /// What is printed of it.
    pub wanted: Wanted,
}

/// What a command line asks for.
#[derive(Clone, Copy, Debug)]
pub enum Task<'a> {
    /// The help.
    Help,
    /// The version.
    Version,
    /// The DLLs of a library, or its members.
    Identify(Identification<'a>),
    /// A library.
    Make(Request<'a>),
}

/// Why options ask for nothing that can be done.
#[derive(Clone, Copy, Debug, PartialEq, Eq)]
pub enum CallFault<'a> {
    /// There is no definition.
    NoDefinition,
    /// There are two files to make a library of.
    TwoInputs,
    /// There is no such machine.
    UnknownMachine(&'a str),
    /// There is no such flavour.
    UnknownFlavor(&'a str),
    /// The DLL's name that is given is empty, or a directory.
    EmptyDll,
    /// The library cannot go to standard output.
    OutputToStandard,
    /// The name of the library's file is empty.
    EmptyOutput,
    /// The name of the definition's file is empty.
    EmptyDefinition,
    /// No machine is named, and the program's name begins with an architecture that is not
    /// supported.
    OtherArchitecture,
    /// `--leading-underscore` where C's symbols have none.
    NoUnderscore,
    /// `--compat-implib` for Microsoft's linker, whose short imports cannot declare its symbols.
    NoOlderSymbols,
    /// A library would take the definition's or the DLL's place.
    OutputIsDefinition,
    /// A library would take the place of the file of symbols.
    OutputIsDecorations,
    /// A library would take the place of a DLL in a folder of `--search`.
    OutputIsSearched,
    /// Both libraries would be in one place.
    OneOutput,
    /// `--output-delaylib` for a machine without code for delayed imports.
    NoDelay,
    /// `--output-delaylib` for Microsoft's linkers, which delay imports of an ordinary library.
    DelayForMicrosoft,
    /// `--decorations` for a definition, which has its symbols.
    DecoratedDefinition,
    /// `--search` for a definition, which says which exports are data.
    SearchedDefinition,
    /// A library for ARM64EC and GNU's linker, which has none.
    Arm64ecForGnu,
    /// A native definition for another machine than ARM64EC.
    NativeElsewhere,
    /// The name of the native definition's file is empty.
    EmptyNative,
    /// A library would take the native definition's place.
    OutputIsNative,
    /// Both definitions are standard input.
    OneInput,
}

/// Whose ways a program's name asks for.
#[derive(Clone, Copy, Debug, PartialEq, Eq)]
pub enum CalledAs {
    /// The program's own: the library's name decides.
    Itself,
    /// Those of `llvm-dlltool`, which makes libraries for Microsoft's linker.
    Llvm,
    /// Those of GNU dlltool.
    Gnu,
}

/// What the name that a program is called by says.
#[derive(Clone, Copy, Debug, PartialEq, Eq)]
pub struct Caller {
    /// The machine where none is named; none where the name is of another architecture.
    pub machine: Option<LibraryMachine>,
    /// Whose ways it asks for.
    pub called_as: CalledAs,
}

/// Why options ask for nothing that can be done, or want of memory.
#[derive(Debug, Drop)]
pub enum CallError<'a> {
    /// The options are refused.
    Refused(CallFault<'a>),
    /// An allocation failed.
    OutOfMemory,
}

impl<'a> From<AllocError> for CallError<'a> {
    ghost use Rattle.implib_driver.specs.declared.request.CallError.TheVariants.{OutOfMemory};
    ghost use Rattle.std.specs.Prelude.{◌≡◌};

    ghost from_gives = { λ _ error. error ≡ OutOfMemory };

    fn from(_refused: AllocError) -> CallError<'a> {
        CallError::OutOfMemory
    }
}

impl<'a> From<CallFault<'a>> for CallError<'a> {
    ghost use Rattle.implib_driver.specs.declared.request.CallError.TheVariants.{Refused};
    ghost use Rattle.std.specs.Prelude.{◌≡◌};

    ghost from_gives = { λ fault error. error ≡ Refused fault };

    fn from(fault: CallFault<'a>) -> CallError<'a> {
        CallError::Refused(fault)
    }
}

/// The machine of a name, in letters of any case.
///
/// # Errors
///
/// An allocation failed.
pub fn machine_named(alloc: Global, name: &str) -> Result<Option<LibraryMachine>, AllocError>
    ensures { IfOk result (λ machine. machine ≡ machine_named name.now) }
{
    Ok(library_machine_called(name.to_ascii_lowercase(alloc)?.as_str()))
}

// Whether a text is the name of an architecture that is not supported.
fn is_other_architecture(name: &str) -> bool
    ensures { result ≡ is_other_architecture name.now }
{
    match name {
        "arm64e" | "aarch64_be" | "armeb" | "thumb" | "thumbeb" => true,
        "riscv32" | "riscv64" | "loongarch32" | "loongarch64" | "ia64" | "alpha" => true,
        "mips" | "mipsel" | "mips64" | "mips64el" | "sh3" | "sh4" | "sparc" | "sparc64" => true,
        "powerpc" | "powerpc64" | "powerpc64le" | "ppc" | "ppc64" | "ppc64le" => true,
        "s390x" | "wasm32" | "wasm64" | "mcore" => true,
        _ => false,
    }
}

// The machine of an architecture that has this name.
fn architecture_named(name: &str) -> Option<LibraryMachine>
    ensures { result ≡ architecture_named name.now }
{
    let machine = match name {
        "i386" | "i486" | "i586" | "i686" | "i786" | "i886" | "i986" => MachineType::I386,
        "arm" => MachineType::ARMNT,
        "aarch64" | "arm64" => MachineType::ARM64,
        "arm64ec" => return Some(LibraryMachine::Arm64ec),
        _ => return None,
    };
    Some(LibraryMachine::Ordinary(machine))
}

// The machine of an architecture, as the first part of a target's name; AMD64 for what is none, and
// none for an architecture that is not supported.
fn machine_of_architecture(name: &str) -> Option<LibraryMachine>
    ensures { result ≡ machine_of_architecture name.now }
{
    let named = architecture_named(name);
    if named.is_some() {
        return named;
    }
    if name.as_bytes().starts_with(b"armv7") {
        return Some(LibraryMachine::Ordinary(MachineType::ARMNT));
    }
    if is_other_architecture(name) {
        return None;
    }
    Some(LibraryMachine::Ordinary(MachineType::AMD64))
}

// The machine of a program's name, by what is before its first `-`; AMD64 without one.
fn machine_of_name(name: &str) -> Option<LibraryMachine>
    ensures { result ≡ machine_of_name name.now }
{
    match name.split_once('-') {
        Some((architecture, _)) => machine_of_architecture(architecture),
        None => Some(LibraryMachine::Ordinary(MachineType::AMD64)),
    }
}

/// Whether a text is within another.
pub fn holds_text(name: &[u8], text: &[u8]) -> bool
    ensures { result ≡ holds_text name.now text.now }
{
    for start in 0..name.len() {
        if name[start..].starts_with(text) {
            return true;
        }
    }
    false
}

// Whose ways a program's name asks for.
fn called_as(name: &str) -> CalledAs
    ensures { result ≡ called_as name.now }
{
    let name = name.as_bytes();
    if holds_text(name, b"llvm-dlltool") {
        return CalledAs::Llvm;
    }
    if holds_text(name, b"dlltool") && !holds_text(name, b"implib_dlltool") {
        return CalledAs::Gnu;
    }
    CalledAs::Itself
}

/// What the name that the program is called by says, without its directory.
pub fn caller_of(program: &str) -> Caller
    ensures { result ≡ caller_of program.now }
{
    let name = last_part(program);
    Caller {
        machine: machine_of_name(name),
        called_as: called_as(name),
    }
}

// Whether an option is given that only GNU dlltool has a use for.
fn has_gnu_habits(options: &[Given<'_>]) -> bool
    ensures { result ≡ has_gnu_habits (map given_view options.now) }
{
    last(options, Meaning::Assembler).is_some()
        || last(options, Meaning::AssemblerFlags).is_some()
        || last(options, Meaning::TemporaryPrefix).is_some()
        || last(options, Meaning::DelayedOutput).is_some()
}

// The flavour by the ending of a file's name.
fn flavor_by_ending(output: Option<&str>) -> Flavor
    ensures { result ≡ flavor_by_ending (option_map (λ text. text.now) output.entry) }
{
    match output {
        Some(path) if path.as_bytes().ends_with(b".lib") => Flavor::Msvc,
        Some(path) if path.as_bytes().ends_with(b".LIB") => Flavor::Msvc,
        _ => Flavor::Gnu,
    }
}

// The flavour where none is given.
fn default_flavor(
    called_as: CalledAs,
    machine: MachineType,
    has_gnu_habits: bool,
    output: Option<&str>,
) -> Flavor
    ensures { result ≡ default_flavor called_as machine has_gnu_habits
        (option_map (λ text. text.now) output.entry) }
{
    match called_as {
        CalledAs::Llvm => Flavor::Msvc,
        CalledAs::Gnu | CalledAs::Itself => match machine {
            MachineType::ARMNT | MachineType::ARM64 => Flavor::Msvc,
            MachineType::I386 | MachineType::AMD64 => match called_as {
                CalledAs::Itself if !has_gnu_habits => flavor_by_ending(output),
                _ => Flavor::Gnu,
            },
        },
    }
}

// The machine that the options name, or that of the program's name.
fn machine_in<'a>(
    alloc: Global,
    options: &[Given<'a>],
    unnamed: Option<LibraryMachine>,
) -> Result<LibraryMachine, CallError<'a>>
    ensures ok { IfOk result
        (λ machine. machine_in unnamed (map given_view options.now) ≡ Ok machine) }
    ensures refused { IfErr result
        (IsCallRefusal (machine_in unnamed (map given_view options.now))) }
{
    let Some(name) = last(options, Meaning::Machine) else {
        return match unnamed {
            Some(machine) => Ok(machine),
            None => Err(CallError::Refused(CallFault::OtherArchitecture)),
        };
    };
    match machine_named(alloc, name)? {
        Some(machine) => Ok(machine),
        None => Err(CallError::Refused(CallFault::UnknownMachine(name))),
    }
}

// The flavour that the options name, or the default.
fn flavor_in<'a>(
    options: &[Given<'a>],
    called_as: CalledAs,
    machine: MachineType,
    output: Option<&str>,
) -> Result<Flavor, CallFault<'a>>
    ensures ok { IfOk result (λ flavor.
        flavor_in called_as machine (option_map (λ text. text.now) output.entry)
        (map given_view options.now) ≡ Ok flavor) }
    ensures refused { IfErr result (λ fault.
        flavor_in called_as machine (option_map (λ text. text.now) output.entry)
        (map given_view options.now) ≡ Err (call_fault_view fault)) }
{
    let Some(name) = last(options, Meaning::Flavor) else {
        return Ok(default_flavor(called_as, machine, has_gnu_habits(options), output));
    };
    match Flavor::from_str(name) {
        Ok(flavor) => Ok(flavor),
        Err(_) => Err(CallFault::UnknownFlavor(name)),
    }
}

// The name of the DLL that the options give.
fn dll_in<'a>(options: &[Given<'a>]) -> Result<Option<&'a str>, CallFault<'a>>
    ensures ok { IfOk result (λ dll.
        dll_in (map given_view options.now) ≡ Ok (option_map (λ text. text.now) dll)) }
    ensures refused { IfErr result (λ fault.
        dll_in (map given_view options.now) ≡ Err (call_fault_view fault)) }
{
    let Some(name) = last(options, Meaning::Dll) else {
        return Ok(None);
    };
    if last_part(name).is_empty() {
        return Err(CallFault::EmptyDll);
    }
    Ok(Some(name))
}

// The file of a library.
fn output_given(given: Option<&str>) -> Result<Option<&str>, CallFault<'_>>
    ensures ok { IfOk result (λ output. output_or (option_map (λ text. text.now) given.entry)
        ≡ Ok (option_map (λ text. text.now) output)) }
    ensures refused { IfErr result (λ fault.
        output_or (option_map (λ text. text.now) given.entry) ≡ Err (call_fault_view fault)) }
{
    match given {
        Some("-") => Err(CallFault::OutputToStandard),
        Some("") => Err(CallFault::EmptyOutput),
        output => Ok(output),
    }
}

// The file of the library that the options give.
fn output_in<'a>(options: &[Given<'a>]) -> Result<Option<&'a str>, CallFault<'a>>
    ensures ok { IfOk result (λ output. output_in (map given_view options.now)
        ≡ Ok (option_map (λ text. text.now) output)) }
    ensures refused { IfErr result (λ fault.
        output_in (map given_view options.now) ≡ Err (call_fault_view fault)) }
{
    output_given(last(options, Meaning::Output))
}

// The file of the library of delayed imports that the options give.
fn delayed_in<'a>(options: &[Given<'a>]) -> Result<Option<&'a str>, CallFault<'a>>
    ensures ok { IfOk result (λ output. delayed_in (map given_view options.now)
        ≡ Ok (option_map (λ text. text.now) output)) }
    ensures refused { IfErr result (λ fault.
        delayed_in (map given_view options.now) ≡ Err (call_fault_view fault)) }
{
    output_given(last(options, Meaning::DelayedOutput))
}

// The file of the native definition, which is not standard input if the definition is.
fn native_given<'a>(
    given: Option<&'a str>,
    definition: &str,
) -> Result<Option<&'a str>, CallFault<'a>>
    ensures ok { IfOk result (λ native. native_or definition.now
        (option_map (λ text. text.now) given.entry)
        ≡ Ok (option_map (λ text. text.now) native)) }
    ensures refused { IfErr result (λ fault. native_or definition.now
        (option_map (λ text. text.now) given.entry) ≡ Err (call_fault_view fault)) }
{
    match given {
        Some("") => Err(CallFault::EmptyNative),
        Some("-") if definition == "-" => Err(CallFault::OneInput),
        native => Ok(native),
    }
}

// What the options ask for beside a library for ARM64EC, if the machine is that.
fn arm64ec_in<'a>(
    options: &[Given<'a>],
    machine: LibraryMachine,
    flavor: Flavor,
    definition: &str,
) -> Result<Option<Arm64ecWish<'a>>, CallFault<'a>>
    ensures ok { IfOk result (λ wish. arm64ec_in machine flavor definition.now
        (map given_view options.now) ≡ Ok (option_map wish_view wish)) }
    ensures refused { IfErr result (λ fault. arm64ec_in machine flavor definition.now
        (map given_view options.now) ≡ Err (call_fault_view fault)) }
{
    let given = last(options, Meaning::NativeDefinition);
    match machine {
        LibraryMachine::Ordinary(_) if given.is_some() => Err(CallFault::NativeElsewhere),
        LibraryMachine::Ordinary(_) => Ok(None),
        LibraryMachine::Arm64ec => match flavor {
            Flavor::Gnu => Err(CallFault::Arm64ecForGnu),
            Flavor::Msvc => {
                let native = native_given(given, definition)?;
                Ok(Some(Arm64ecWish { native }))
            }
        },
    }
}

// Whether imports can be delayed so: on machines that have the code, by GNU's linker.
fn test_delay<'a>(
    delayed: Option<&str>,
    machine: MachineType,
    flavor: Flavor,
) -> Result<(), CallFault<'a>>
    ensures ok { OnOk result (delay_for machine flavor (option_map (λ text. text.now) delayed.entry)
        ≡ Ok tt) }
    ensures refused { IfErr result (λ fault.
        delay_for machine flavor (option_map (λ text. text.now) delayed.entry)
        ≡ Err (call_fault_view fault)) }
{
    if delayed.is_none() {
        return Ok(());
    }
    match machine {
        MachineType::ARMNT | MachineType::ARM64 => Err(CallFault::NoDelay),
        MachineType::I386 | MachineType::AMD64 => match flavor {
            Flavor::Msvc => Err(CallFault::DelayForMicrosoft),
            Flavor::Gnu => Ok(()),
        },
    }
}

// How the options want names to be read.
fn naming_in<'a>(options: &[Given<'a>], machine: MachineType) -> Result<Naming, CallFault<'a>>
    ensures ok { IfOk result (λ naming.
        naming_in machine (map given_view options.now) ≡ Ok (naming_view naming)) }
    ensures refused { IfErr result (λ fault.
        naming_in machine (map given_view options.now) ≡ Err (call_fault_view fault)) }
{
    let has_underscore = is_last(
        options,
        Meaning::LeadingUnderscore,
        Meaning::NoLeadingUnderscore,
    );
    if has_underscore && !machine.has_leading_underscore() {
        return Err(CallFault::NoUnderscore);
    }
    Ok(Naming {
        is_plain: is_last(
            options,
            Meaning::NoLeadingUnderscore,
            Meaning::LeadingUnderscore,
        ),
        kills_at: has(options, Meaning::KillAt),
        exports_as: has(options, Meaning::ExportAs),
        keeps_decorated: has(options, Meaning::KeepsDecorated),
    })
}

// Whether the options ask for older symbols of addresses, which are for GNU's linker.
fn older_symbols_in<'a>(options: &[Given<'a>], flavor: Flavor) -> Result<bool, CallFault<'a>>
    ensures ok { IfOk result (λ asked.
        older_symbols_in flavor (map given_view options.now) ≡ Ok asked) }
    ensures refused { IfErr result (λ fault.
        older_symbols_in flavor (map given_view options.now) ≡ Err (call_fault_view fault)) }
{
    let is_asked = has(options, Meaning::CompatImplib);
    match flavor {
        Flavor::Msvc if is_asked => Err(CallFault::NoOlderSymbols),
        Flavor::Msvc | Flavor::Gnu => Ok(is_asked),
    }
}

// What the options add to the exports.
fn additions_in<'a>(options: &[Given<'a>]) -> Additions<'a>
    ensures { additions_view result ≡ additions_in (map given_view options.now) }
{
    Additions {
        prefix: last(options, Meaning::FurtherPrefix),
        underscore: has(options, Meaning::AddUnderscore),
        stdcall_underscore: has(options, Meaning::AddStdcallUnderscore),
    }
}

// The one file that is given without an option, if there is one.
fn only_input<'a>(options: &[Given<'a>]) -> Result<Option<&'a str>, CallFault<'a>>
    ensures ok { IfOk result (λ input. all Input (map given_view options.now)
        ≡ option_to_list (option_map (λ text. text.now) input)) }
    ensures refused { IfErr result (λ fault. (fault ≡ TwoInputs)
        × (1 < length (all Input (map given_view options.now)))) }
{
    let mut found = None;
    for option in options {
        if option.meaning == Meaning::Input {
            if found.is_some() {
                return Err(CallFault::TwoInputs);
            }
            found = Some(option.value);
        }
    }
    Ok(found)
}

// The file that a library is to be made of, if there is one.
fn input_in<'a>(options: &[Given<'a>]) -> Result<Option<&'a str>, CallFault<'a>>
    ensures ok { IfOk result (λ input.
        input_in (map given_view options.now) ≡ Ok (option_map (λ text. text.now) input)) }
    ensures refused { IfErr result (λ fault.
        input_in (map given_view options.now) ≡ Err (call_fault_view fault)) }
{
    let input = only_input(options)?;
    let definition = last(options, Meaning::Definition);
    match input {
        None => Ok(definition),
        Some(path) => match definition {
            None => Ok(Some(path)),
            Some(_) => Err(CallFault::TwoInputs),
        },
    }
}

// The library that the options ask for.
pub(crate) fn request_in<'a>(
    alloc: Global,
    options: &'a [Given<'a>],
    caller: Caller,
) -> Result<Request<'a>, CallError<'a>>
    ensures ok { IfOk result (λ request.
        request_in caller (map given_view options.now) ≡ Ok (request_view request)) }
    ensures refused { IfErr result
        (IsCallRefusal (request_in caller (map given_view options.now))) }
{
    let Some(definition) = input_in(options)? else {
        return Err(CallError::Refused(CallFault::NoDefinition));
    };
    if definition.is_empty() {
        return Err(CallError::Refused(CallFault::EmptyDefinition));
    }
    let output = output_in(options)?;
    let delayed = delayed_in(options)?;
    let named = machine_in(alloc, options, caller.machine)?;
    let machine = named.machine_type();
    let flavor = flavor_in(options, caller.called_as, machine, output)?;
    let arm64ec = arm64ec_in(options, named, flavor, definition)?;
    let dll = dll_in(options)?;
    let naming = naming_in(options, machine)?;
    test_delay(delayed, machine, flavor)?;
    let older_symbols = older_symbols_in(options, flavor)?;
    let additions = additions_in(options);
    Ok(Request {
        definition,
        output,
        delayed,
        library: LibraryOptions {
            machine,
            flavor,
            dll,
            naming,
            additions,
        },
        arm64ec,
        decorations: last(options, Meaning::Decorations),
        options,
        older_symbols,
        is_verbose: has(options, Meaning::Verbose),
    })
}

// What is printed of a library.
fn wanted_of(options: &[Given<'_>]) -> Wanted
    ensures { result ≡ wanted_of (map given_view options.now) }
{
    if has(options, Meaning::ListsMembers) {
        Wanted::Members
    } else if has(options, Meaning::IdentifyStrict) {
        Wanted::OneDll
    } else {
        Wanted::Dlls
    }
}

/// What the options ask for: the help or the version where one of them does, else the DLLs or the
/// members of a library, else a library.
///
/// # Errors
///
/// What is wrong first: two files to make a library of; no definition, or one in a file without a
/// name; the library, and then that of delayed imports, to standard output or to a file without a
/// name; an unknown machine, or none where the program's name is of another architecture; an
/// unknown flavour; ARM64EC for GNU's linker, or a native definition for another machine, in a file
/// without a name, or twice from standard input; an empty name of the DLL; an underscore where C's
/// symbols have none; delayed imports for a machine without their code, or for Microsoft's linkers;
/// older symbols for Microsoft's linker. `OutOfMemory` may come before those that follow the
/// machine.
pub fn task_of<'a>(
    alloc: Global,
    options: &'a [Given<'a>],
    caller: Caller,
) -> Result<Task<'a>, CallError<'a>>
    ensures ok { IfOk result (λ task.
        task_of caller (map given_view options.now) ≡ Ok (task_view task)) }
    ensures refused { IfErr result
        (IsCallRefusal (task_of caller (map given_view options.now))) }
{
    if has(options, Meaning::Help) {
        return Ok(Task::Help);
    }
    if has(options, Meaning::Version) {
        return Ok(Task::Version);
    }
    if let Some(library) = last(options, Meaning::Identify) {
        return Ok(Task::Identify(Identification {
            library,
            wanted: wanted_of(options),
        }));
    }
    Ok(Task::Make(request_in(alloc, options, caller)?))
}
