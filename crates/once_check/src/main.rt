//! The program `once_check`, the checker of certificates by itself.
#![tactic(auto)]

use std::process::ExitCode;

fn main(rt: HostRuntime) -> ExitCode {
    ExitCode::from(fx_checker::run(&rt))
}
