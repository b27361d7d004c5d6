// The task: a rule file is read, its rule is translated over the longest lists, and the listing is printed.
use listing::outcome::Listed;
use listing::text::{ArcLine, HeadLine, StateLine};
use lists::LongestLists;
use rules::reading::MOST_BYTES;
use std::io;
use std::io::Read;
use tableau::translation::Finished;

// Reads no more than one byte over what a rule file may have.
fn read_file(rt: &HostRuntime) -> io::Result<Vec<u8>> {
    let mut bytes = Vec::new(rt.alloc());
    rt.stdin()
        .take(MOST_BYTES as u64 + 1)
        .read_to_end(&mut bytes)?;
    Ok(bytes)
}

// Prints a line for each state and each arc of a finished translation.
fn tell_automaton(rt: &HostRuntime, lists: &LongestLists, finished: &Finished) -> io::Result<()> {
    let totals = finished.totals();
    let states = lists.states.iter().take(totals.states() as usize);
    for (index, &state) in states.enumerate() {
        let number = index + 1;
        println!(rt; "{}", StateLine { number, state })?;
    }
    for &arc in lists.arcs.iter().take(totals.arcs() as usize) {
        println!(rt; "{}", ArcLine(arc))?;
    }
    Ok(())
}

pub(crate) fn run(rt: &HostRuntime) -> anyhow::Result<()> {
    let file = read_file(rt)?;
    let mut lists = LongestLists::new(rt.alloc())?;
    let answer = lists.list_rule(file.as_slice());
    println!(rt; "{}", HeadLine::from(&answer))?;
    if let Ok(Listed::Finished(finished)) = &answer {
        tell_automaton(rt, &lists, finished)?;
    }
    Ok(())
}
