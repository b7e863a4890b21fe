// The program on a log of gateway lines.
#![tactic(auto)]

use shell::run;
use std::process::ExitCode;

fn main(rt: HostRuntime) -> ExitCode {
    run(&rt)
}
