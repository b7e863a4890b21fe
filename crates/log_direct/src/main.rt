// The program on a log of raw USSD strings.
#![tactic(auto)]

use shell::run;
use std::process::ExitCode;

fn main(rt: HostRuntime) -> ExitCode {
    run(&rt)
}
