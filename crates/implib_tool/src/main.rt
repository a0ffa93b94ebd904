//! Prints the members of the import libraries of module definitions.
//!
//! What it does is in the crate `implib_tool_driver`, over the system's streams.
#![tactic(auto)]

use implib_tool_driver::host::Host;
use implib_tool_driver::program::perform;
use std::env;
use std::process::ExitCode;

fn main(rt: HostRuntime) -> ExitCode {
    let mut reader = Host::new(rt.stdin());
    let mut writer = Host::new(rt.stdout());
    let mut faults = Host::new(rt.stderr());
    perform(
        rt.alloc(),
        env::args(&rt),
        &mut reader,
        &mut writer,
        &mut faults,
    )
}
