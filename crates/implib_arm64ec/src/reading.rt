//! Reading a qualified name from the beginning of a text.

ghost use Rattle.implib_arm64ec.specs.Reading.{qualified_name, read};
ghost use Rattle.std.specs.Prelude.{reverse, ◌++◌, ◌≡◌, IfOk, OnOk};

use crate::nonterminal::Nonterminal;
use crate::production::next;
use std::alloc::{AllocError, Global};

/// Where reading ends, as an offset.
#[derive(Clone, Copy)]
pub enum Reading {
    /// Behind what was to be read.
    Ends(usize),
    /// Before a byte with which nothing goes on, or at the end of the text.
    Stops(usize),
}

/// Reads a qualified name.
pub(crate) fn read_qualified_name(alloc: Global, text: &[u8]) -> Result<Reading, AllocError>
    ensures { IfOk result (λ reading. reading ≡ read qualified_name text.now) }
{
    let mut stack = vec![in alloc; Nonterminal::Scopes, Nonterminal::Leaf]?;
    for (place, byte) in text.iter().enumerate() {
        match stack.pop() {
            None => return Ok(Reading::Ends(place)),
            Some(part) => match next(part, *byte) {
                None => return Ok(Reading::Stops(place)),
                Some(production) => {
                    push_reversed(&mut stack, production.then)?;
                    push_reversed(&mut stack, production.parts)?;
                }
            },
        }
    }
    if stack.is_empty() {
        Ok(Reading::Ends(text.len()))
    } else {
        Ok(Reading::Stops(text.len()))
    }
}

// Pushes parts so that the first is on top.
fn push_reversed(stack: &mut Vec<Nonterminal>, parts: &[Nonterminal]) -> Result<(), AllocError>
    ensures { OnOk result (stack.new.items ≡ stack.old.items ++ reverse parts.now) }
{
    let mut rest = parts;
    while let [before @ .., last] = rest {
        stack.push(*last)?;
        rest = before;
    }
    Ok(())
}
