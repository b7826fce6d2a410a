//! The program `rx`: runs an Expect script, live or against the recorded answers of an earlier run.
#![tactic(auto)]

use std::process::ExitCode;
use worlds::program::program;

fn main(rt: HostRuntime) -> ExitCode {
    ExitCode::from(program(&rt, rt.stdout(), rt.stderr()))
}
