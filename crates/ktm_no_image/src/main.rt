//! The program once more, over a file that is no image, so that a run that ends with another status than 0 is stored too.
#![tactic(auto)]

use std::process::ExitCode;

fn main(rt: HostRuntime) -> ExitCode {
    ktm_command::exit_code(ktm_command::outcome(&rt))
}
