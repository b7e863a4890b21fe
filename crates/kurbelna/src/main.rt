// The program: its commands stand in `shell`.
#![tactic(auto)]

use shell::run;
use std::process::ExitCode;

fn main(rt: HostRuntime) -> ExitCode {
    run(&rt)
}
