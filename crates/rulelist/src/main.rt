// Reads a rule file from standard input and prints the automaton of its rule, a line for each state and arc.
#![tactic(auto)]

mod task;

fn main(rt: HostRuntime) -> anyhow::Result<()> {
    task::run(&rt)
}
