// Runs cases from standard input, one to a line, and the border cases of the calls.
#![tactic(auto)]

use std::process::ExitCode;

mod borders;
mod cases;
mod runs;

fn main(rt: HostRuntime) -> anyhow::Result<ExitCode> {
    borders::tell_borders(&rt)?;
    // Kept: the new form is no plainer: `ExitCode::from` takes a number, and these names say more.
    if runs::run_cases(&rt)? {
        Ok(ExitCode::SUCCESS)
    } else {
        Ok(ExitCode::FAILURE)
    }
}
