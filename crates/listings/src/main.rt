// Runs cases from standard input: a rule file in hexadecimal, and below it the lines of its automaton or refusal.
#![tactic(auto)]

mod lines;
mod runs;

fn main(rt: HostRuntime) -> anyhow::Result<()> {
    runs::run_cases(&rt)
}
