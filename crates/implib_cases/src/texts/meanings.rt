//! What texts mean, or why they are refused, in lines of text.

use crate::lines::push_escaped;
use implib::def::parser::Parser;
use implib::def::{ModuleDef, ShortExport};
use implib::{Error, MachineType, ParseError};
use std::alloc::{AllocError, Global};
use std::fmt::Write as _;
use std::test::Fail;

/// Appends what a text means, or the fault; of the parser by itself, or of a copy, where that is
/// other.
pub fn show_meaning(
    alloc: Global,
    text: &mut String,
    machine: MachineType,
    source: &str,
) -> Result<(), Fail> {
    let answer = outcome(alloc, ModuleDef::parse(alloc, source, machine))?;
    push_outcome(text, answer.as_str())?;
    let own = outcome(alloc, copied(Parser::new(source, machine).parse(alloc)))?;
    if own != answer {
        push_outcome(text, own.as_str())?;
    }
    Ok(())
}

/// A copy of what a call answered.
fn copied(answer: Result<ModuleDef, Error>) -> Result<ModuleDef, Error> {
    Ok(answer?.clone()?)
}

/// Appends the offset of the token at which a text is refused, and what the error shows; then what
/// the error shows without the position, and, where it is other, that of the call that tells none.
pub fn show_refusal(
    alloc: Global,
    text: &mut String,
    machine: MachineType,
    source: &str,
) -> Result<(), Fail> {
    match ModuleDef::parse_with_position(alloc, source, machine) {
        Ok(def) => push_outcome(text, shown(&def)?.as_str())?,
        Err(error) => {
            if let ParseError::Invalid(_, position) = &error {
                writeln!(text, "  at {}", position.offset)?;
            }
            push_outcome(text, format!(in alloc; "{error}")?.as_str())?;
            let placed = format!(in alloc; "{}", Error::from(error))?;
            push_outcome(text, placed.as_str())?;
            let own = outcome(alloc, ModuleDef::parse(alloc, source, machine))?;
            if own != placed {
                push_outcome(text, own.as_str())?;
            }
        }
    }
    Ok(())
}

/// Appends an outcome as a line.
fn push_outcome(text: &mut String, outcome: &str) -> Result<(), AllocError> {
    text.push_str("  ")?;
    push_escaped(text, outcome)?;
    text.push('\n')
}

/// What a call answered: the definition, or the fault.
fn outcome(alloc: Global, answer: Result<ModuleDef, Error>) -> Result<String, AllocError> {
    match answer {
        Ok(def) => shown(&def),
        Err(error) => format!(in alloc; "{error}"),
    }
}

/// What is set in a definition.
fn shown(def: &ModuleDef) -> Result<String, AllocError> {
    let mut out = def.import_name.clone()?;
    if def.image_base != 0 {
        write!(out, " base {}", def.image_base)?;
    }
    if def.heap_reserve != 0 {
        write!(out, " heap {} {}", def.heap_reserve, def.heap_commit)?;
    }
    if def.stack_reserve != 0 {
        write!(out, " stack {} {}", def.stack_reserve, def.stack_commit)?;
    }
    if def.major_image_version != 0 {
        write!(
            out,
            " version {}.{}",
            def.major_image_version, def.minor_image_version
        )?;
    }
    for export in &def.exports {
        show_export(&mut out, export)?;
    }
    Ok(out)
}

/// What is set in an export.
fn show_export(out: &mut String, export: &ShortExport) -> Result<(), AllocError> {
    write!(out, "; {}", export.name)?;
    if let Some(name) = &export.ext_name {
        write!(out, " outside {name}")?;
    }
    if !export.alias_target.is_empty() {
        write!(out, " for {}", export.alias_target)?;
    }
    if export.ordinal != 0 {
        write!(out, " @{}", export.ordinal)?;
    }
    show_flag(out, export.no_name, " noname")?;
    show_flag(out, export.is_data, " data")?;
    show_flag(out, export.private, " private")?;
    show_flag(out, export.constant, " constant")
}

/// The word of a flag that is set.
fn show_flag(out: &mut String, is_set: bool, word: &str) -> Result<(), AllocError> {
    if is_set {
        out.push_str(word)?;
    }
    Ok(())
}
