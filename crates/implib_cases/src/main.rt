//! Answers cases in files, which the arguments name ([`lines`] has their form): of the library
//! `implib`, the archives of its members, the programs and the library for C. The folder of a file
//! says what its cases are about: [`texts`], [`members`], [`archives`], [`links`], [`filter`],
//! [`buffers`], [`dlltool`] or [`check`].
#![tactic(auto)]

mod archives;
mod buffers;
mod check;
mod dlltool;
mod filter;
mod lines;
mod links;
mod members;
mod texts;

use lines::{Case, cases_in};
use std::test::Fail;
use std::{env, fs};

fn main(rt: HostRuntime) -> Result<(), Fail> {
    for name in env::args(&rt)?.skip(1) {
        answer_file(&rt, name.as_str())?;
    }
    Ok(())
}

/// Prints the answers to the cases of a file.
fn answer_file(rt: &HostRuntime, name: &str) -> Result<(), Fail> {
    let (path, _) = name.rsplit_once('/').ok_or("a file is in no folder")?;
    let (_, folder) = path.rsplit_once('/').unwrap_or(("", path));
    let file = fs::read_to_string(rt, name)?;
    for case in cases_in(rt.alloc(), file.as_str())? {
        print!(rt; "{}", answered(rt, folder, &case)?)?;
    }
    Ok(())
}

/// The answer to a case of a folder.
fn answered(rt: &HostRuntime, folder: &str, case: &Case) -> Result<String, Fail> {
    let alloc = rt.alloc();
    match folder {
        "texts" => texts::answered(alloc, case),
        "members" => members::answers::answered(alloc, case),
        "archives" => archives::answered(alloc, case),
        "links" => links::answers::answered(alloc, case),
        "filter" => filter::answered(alloc, case),
        "buffers" => buffers::answered(alloc, case),
        "dlltool" => dlltool::answered_apart(rt, case),
        "check" => check::answered(alloc, case),
        _ => Err(Fail::new(format_args!("{folder} is no folder of cases"))),
    }
}
