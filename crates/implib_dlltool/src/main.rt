//! Makes the import library of a module definition: a program in place of `dlltool`.
//!
//! What it does is in the crate `implib_driver`, over the system's devices.
#![tactic(auto)]

use implib_driver::devices::console::Console;
use implib_driver::devices::files::SystemDisk;
use implib_driver::program::{CommandLine, perform};
use std::alloc::AllocError;
use std::env::{Env, FillError};
use std::process::ExitCode;
use std::{env, process};

// The longest argument that is shown, in bytes.
const SHOWN: usize = 4096;

// The first argument that is not UTF-8, with U+FFFD for what is not. It is empty where each is
// UTF-8, or one before it is too long to be looked at.
fn unread(rt: &HostRuntime) -> Result<String, AllocError> {
    let mut buffer = [0u8; SHOWN];
    for number in 0..usize::MAX {
        match rt.arg(number, &mut buffer) {
            Ok(length) => {
                let argument = &buffer[..length];
                if str::from_utf8(argument).is_err() {
                    return String::from_utf8_lossy(rt.alloc(), argument);
                }
            }
            Err(FillError::TooLong) | Err(FillError::NotPresent) => break,
        }
    }
    Ok(String::new(rt.alloc()))
}

fn main(rt: HostRuntime) -> ExitCode {
    let mut stdin = rt.stdin();
    let mut stdout = rt.stdout();
    let id = process::id(rt.process());
    let mut disk = SystemDisk::new(&rt, id);
    let mut console = Console::new(rt.alloc(), rt.stderr());
    let arguments = env::args(&rt);
    let unread = match &arguments {
        Ok(_) => Ok(String::new(rt.alloc())),
        Err(_) => unread(&rt),
    };
    let command_line = CommandLine {
        arguments,
        unread: match &unread {
            Ok(text) => text.as_str(),
            Err(_) => "",
        },
    };
    ExitCode::from(perform(
        rt.alloc(),
        command_line,
        &mut disk,
        &mut stdin,
        &mut stdout,
        &mut console,
    ))
}
