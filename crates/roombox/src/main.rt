//! The program `roombox`.
#![tactic(auto)]

mod agenda;
mod behind;
mod host;
mod progress;
mod reasons;

use std::process::ExitCode;

fn main(rt: HostRuntime) -> ExitCode {
    ExitCode::from(host::run(&rt, rt.stderr()))
}
