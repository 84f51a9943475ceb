//! The program: it runs the script of its third word on the disk image of its second, and writes the transcript to
//! standard output.
#![tactic(auto)]

use std::process::ExitCode;

fn main(rt: HostRuntime) -> ExitCode {
    ktm_command::exit_code(ktm_command::outcome(&rt))
}
