//! What is answered to a case.

use super::definitions::members_of;
use super::linkers::answer_linkers;
use super::readings::show_members;
use super::stored::compare;
use crate::lines::{Case, numbers_in, push_bytes};
use implib::{Fault, Flavor, MachineType, Member};
use std::alloc::{AllocError, Global};
use std::test::Fail;

/// The name of a case and, for each line that asks, the answer.
pub fn answered(alloc: Global, case: &Case) -> Result<String, Fail> {
    let mut text = format!(in alloc; "case {}\n", case.name)?;
    let machine: MachineType = case.argument("machine")?.parse()?;
    for line in case.lines.iter() {
        match line.word {
            "members" => answer_both(alloc, &mut text, case, machine, [0, 0])?,
            "exports" => answer_both(alloc, &mut text, case, machine, [3, 2])?,
            "bytes" => answer_bytes(alloc, &mut text, case, machine, line.rest)?,
            "compare" => answer_compare(alloc, &mut text, case, machine, line.rest)?,
            word if is_of_case(word) => {}
            word => answer_linkers(alloc, &mut text, case, machine, word)?,
        }
    }
    Ok(text)
}

/// Whether a line of this word says what a case is made of.
fn is_of_case(word: &str) -> bool {
    match word {
        "machine"
        | "text"
        | "dll"
        | "export"
        | "outside"
        | "symbol"
        | "asked"
        | "alias"
        | "ordinal"
        | "noname"
        | "private"
        | "stored"
        | "=" => true,
        _ => false,
    }
}

/// The members for Microsoft's linker and those for GNU's, each from an index on, or why there are
/// none.
fn answer_both(
    alloc: Global,
    text: &mut String,
    case: &Case,
    machine: MachineType,
    from: [usize; 2],
) -> Result<(), Fail> {
    for (flavor, from) in [(Flavor::Msvc, from[0]), (Flavor::Gnu, from[1])] {
        writeln!(text, "{flavor}:")?;
        match members_of(alloc, case, machine, flavor)? {
            Ok(members) => show_members(alloc, text, members.as_slice(), machine, from)?,
            Err(fault) => show_fault(text, &fault)?,
        }
    }
    Ok(())
}

/// A fault, with the number of its export if it tells one.
fn show_fault(text: &mut String, fault: &Fault) -> Result<(), AllocError> {
    match fault.export_index() {
        Some(export) => writeln!(text, "{fault}: export {export}"),
        None => writeln!(text, "{fault}"),
    }
}

/// The members for a linker, which there have to be.
fn made(
    alloc: Global,
    case: &Case,
    machine: MachineType,
    flavor: Flavor,
) -> Result<Vec<Member>, Fail> {
    match members_of(alloc, case, machine, flavor)? {
        Ok(members) => Ok(members),
        Err(_) => Err(Fail::new("there are no members")),
    }
}

/// Bytes of a member: `gnu 2 308 10` asks for ten from the offset 308 on, or fewer at the end.
fn answer_bytes(
    alloc: Global,
    text: &mut String,
    case: &Case,
    machine: MachineType,
    words: &str,
) -> Result<(), Fail> {
    let (flavor, numbers) = words.split_once(' ').ok_or("bytes have no place")?;
    let numbers = numbers_in(alloc, numbers)?;
    let [index, offset, count] = *numbers.as_slice() else {
        return Err(Fail::new("bytes have another place"));
    };
    let members = made(alloc, case, machine, flavor.parse()?)?;
    let member = members.as_slice().get(index as usize);
    let bytes = member.ok_or("there is no such member")?.bytes.as_slice();
    let rest = bytes.get(offset as usize..).ok_or("a member is short")?;
    write!(text, "{flavor} {index} at {offset}:")?;
    push_bytes(text, rest.get(..count as usize).unwrap_or(rest))?;
    Ok(writeln!(text, "")?)
}

/// Holds the members for a linker against the stored bytes.
fn answer_compare(
    alloc: Global,
    text: &mut String,
    case: &Case,
    machine: MachineType,
    flavor: &str,
) -> Result<(), Fail> {
    let members = made(alloc, case, machine, flavor.parse()?)?;
    writeln!(text, "{flavor}:")?;
    compare(alloc, text, members.as_slice(), case.lines.as_slice())
}
