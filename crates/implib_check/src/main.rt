//! Reads import libraries of any maker: lists their imports, names their DLLs, and compares them
//! with one another, with definitions and with DLLs.
//!
//! What it does is in the crate `implib_check_driver`, over the system's files.
#![tactic(auto)]

use implib_check_driver::program::perform;
use implib_check_driver::shelf::SystemFiles;
use std::process::ExitCode;

fn main(rt: HostRuntime) -> ExitCode {
    let mut stdout = rt.stdout();
    let mut stderr = rt.stderr();
    let files = SystemFiles { rt: &rt };
    ExitCode::from(perform(&rt, &files, &mut stdout, &mut stderr))
}
