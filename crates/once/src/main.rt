//! The program `once`.
#![tactic(auto)]

use std::io::IsTerminal;
use std::process::ExitCode;

fn main(rt: HostRuntime) -> ExitCode {
    ExitCode::from(fx_cli::run(&rt, rt.stdin().is_terminal()))
}
