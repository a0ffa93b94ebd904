//! Cases about `implib_dlltool`: calls of the program in a folder of files that a case makes, with
//! the exit status, each line that is written, and the files that are there then.
//!
//! A case is answered line by line: a line makes files ([`room`]), calls the program ([`calls`]),
//! asks for files ([`shown`]) or tries a part of the program by itself ([`devices`]).

mod calls;
mod devices;
mod room;
mod shown;

use crate::lines::{Case, Line};
use calls::{answer_call, answer_each};
use devices::answer_device;
use room::Room;
use shown::answer_shown;
use std::test::Fail;
use std::{env, fs};

/// The folder of a case.
const ROOM: &str = "room";

/// The answer to a case, in a new folder that is removed afterwards.
pub fn answered_apart(rt: &HostRuntime, case: &Case) -> Result<String, Fail> {
    // What a run that failed left.
    let _ = fs::remove_dir_all(rt, ROOM);
    fs::create_dir(rt, ROOM)?;
    env::set_current_dir(rt, ROOM)?;
    let text = answered(rt, case)?;
    env::set_current_dir(rt, "..")?;
    fs::remove_dir_all(rt, ROOM)?;
    Ok(text)
}

/// The name of a case and, for each line that asks, the answer.
fn answered(rt: &HostRuntime, case: &Case) -> Result<String, Fail> {
    let mut text = format!(in rt.alloc(); "case {}\n", case.name)?;
    let mut room = Room::new(rt)?;
    for line in case.lines.iter() {
        if !room.is_made_by(line)? {
            answer(&mut text, &room, line)?;
        }
    }
    Ok(text)
}

/// The answer to a line.
fn answer(text: &mut String, room: &Room, line: &Line) -> Result<(), Fail> {
    match line.word {
        "call" => answer_call(text, room, line.rest),
        "each" | "named" => answer_each(text, room, line),
        "show" | "sum" | "permissions" | "at" | "holds" | "same" => answer_shown(
            room.rt, text, line,
        ),
        _ => answer_device(room.rt, text, line),
    }
}
