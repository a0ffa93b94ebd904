//! The options of names and letters.

ghost use Rattle.implib_options.specs.Table.{lettered, lettered_in, lib_machine, machine_in, named};
ghost use Rattle.implib_options.specs.Table.{named_in};
ghost use Rattle.std.specs.Option.{option_map};
ghost use Rattle.std.specs.Prelude.{◌≡◌, ◌<◌, IsSome, map};

use crate::table::{LIB_MACHINES, Meaning, Row, Takes, Words, rows};

// What the first row of a name takes and means, if there is one.
fn named_in(mut rows: &[Row], of: Words, name: &str) -> Option<(Takes, Meaning)>
    ensures { result ≡ named_in
        (map (λ row. (row.0, row.1.now, row.2, (row.3, row.4))) rows.entry.now) of name.now }
{
    while let [row, rest @ ..] = rows {
        if row.0 == of && row.1 == name {
            return Some((row.3, row.4));
        }
        rows = rest;
    }
    None
}

// What the first row of a letter takes and means, if there is one.
fn lettered_in(mut rows: &[Row], of: Words, letter: u8) -> Option<(Takes, Meaning)>
    ensures { result ≡ lettered_in
        (map (λ row. (row.0, row.1.now, row.2, (row.3, row.4))) rows.entry.now) of letter }
{
    while let [row, rest @ ..] = rows {
        if row.0 == of && row.2 == Some(letter) {
            return Some((row.3, row.4));
        }
        rows = rest;
    }
    None
}

// The name for `-m` of the first machine of a name.
fn machine_in(mut rows: &[(&str, &'static str)], name: &str) -> Option<&'static str>
    ensures { option_map (λ text. text.now) result
        ≡ machine_in (map (λ row. (row.0.now, row.1.now)) rows.entry.now) name.now }
{
    while let [row, rest @ ..] = rows {
        if row.0 == name {
            return Some(row.1);
        }
        rows = rest;
    }
    None
}

/// What the option of a name takes and means, if there is one.
#[tactic(auto, unfolding(crate::specs::Table::named))]
pub fn named(of: Words, name: &str) -> Option<(Takes, Meaning)>
    ensures { result ≡ named of name.now }
{
    named_in(rows(), of, name)
}

/// What the option of a letter, which is ASCII, takes and means, if there is one.
#[tactic(auto, unfolding(crate::specs::Table::lettered))]
pub fn lettered(of: Words, letter: u8) -> Option<(Takes, Meaning)>
    ensures kind { result ≡ lettered of letter }
    ensures ascii { IsSome result → letter < 128 }
{
    if letter >= 128 {
        return None;
    }
    lettered_in(rows(), of, letter)
}

/// The name for `-m` of a machine of LIB's, if there is one; nothing where it is not supported.
#[tactic(auto, unfolding(crate::specs::Table::lib_machine))]
pub fn lib_machine(name: &str) -> Option<&'static str>
    ensures { option_map (λ text. text.now) result ≡ lib_machine name.now }
{
    machine_in(&LIB_MACHINES, name)
}
