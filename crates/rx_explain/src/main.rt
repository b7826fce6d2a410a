//! The program `rx-explain`: runs an Expect script as `rx` does, and tells the story of the run.
#![tactic(auto)]

use explain::program::program;
use std::process::ExitCode;

fn main(rt: HostRuntime) -> ExitCode {
    ExitCode::from(program(&rt, rt.stdout(), rt.stderr(), rt.stderr()))
}
