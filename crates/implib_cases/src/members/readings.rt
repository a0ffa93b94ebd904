//! What members are called, how long they are, which symbols they are listed for and what they are
//! for, in lines of text. All but the name and the symbols is read from their bytes.

use crate::lines::push_escaped;
use implib::{MachineType, Member};
use implib_test_linker::{File, Purpose, file_in, push_ask};
use std::alloc::{AllocError, Global};
use std::test::Fail;

/// Appends a line for each member from the one of this index on: its name, its length and the
/// symbols that it is listed for; then what it asks for, or what it makes weak.
pub fn show_members(
    alloc: Global,
    text: &mut String,
    members: &[Member],
    machine: MachineType,
    from: usize,
) -> Result<(), Fail> {
    let mut files = Vec::new(alloc);
    for member in members {
        files.push(file_in(alloc, member.bytes.as_slice())?)?;
    }
    for (member, file) in members.iter().zip(files.iter()).skip(from) {
        show_listed(text, member)?;
        show_flaws(text, member, file, machine)?;
        let purpose = file.purpose(files.as_slice())?;
        push_escaped(text, shown(alloc, purpose)?.as_str())?;
        text.push('\n')?;
    }
    Ok(())
}

/// Appends a member's name, its length and the symbols that it is listed for.
pub fn show_listed(text: &mut String, member: &Member) -> Result<(), AllocError> {
    push_escaped(text, member.name.as_str())?;
    let length = member.bytes.len();
    write!(text, " {length}")?;
    for symbol in member.symbols.iter() {
        push_symbol(text, symbol.as_str())?;
    }
    Ok(())
}

/// Appends a symbol after a space.
fn push_symbol(text: &mut String, symbol: &str) -> Result<(), AllocError> {
    text.push(' ')?;
    push_escaped(text, symbol)
}

/// Appends what is wrong with a member: another machine, or a listed symbol that it does not
/// declare.
fn show_flaws(
    text: &mut String,
    member: &Member,
    file: &File,
    machine: MachineType,
) -> Result<(), AllocError> {
    if file.machine() != machine.number() {
        write!(text, "; for another machine")?;
    }
    for symbol in member.symbols.iter() {
        if !file.declares(symbol.as_str()) {
            write!(text, "; {symbol} is not declared")?;
        }
    }
    Ok(())
}

/// What a member is for.
fn shown(alloc: Global, purpose: Purpose) -> Result<String, AllocError> {
    match purpose {
        Purpose::Import(dll, ask) => {
            let mut text = format!(in alloc; "; asks {dll} for ")?;
            push_ask(&mut text, ask)?;
            Ok(text)
        }
        Purpose::Weak(weak, target) => format!(in alloc; "; {weak} is weak for {target}"),
        Purpose::Other => Ok(String::new(alloc)),
    }
}
