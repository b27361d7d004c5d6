// Judges a rule file on recordings of a line, and says in plain lines what comes of it.
#![tactic(auto)]

use std::process::ExitCode;

mod fault;
mod judged;
mod task;
mod telling;
mod text;

fn main(rt: HostRuntime) -> anyhow::Result<ExitCode> {
    // Kept: the new form is no plainer: `ExitCode::from` takes a number, and these names say more.
    if task::run(&rt)? {
        Ok(ExitCode::SUCCESS)
    } else {
        Ok(ExitCode::FAILURE)
    }
}
