// From a rule file to the automaton of its rule.
#![tactic(auto)]

ghost use Rattle.std.specs.Prelude.{◌≡◌, None as Nothing};
ghost use Rattle.tableau.specs.Stepping.{lists, standing, short_list, progress_told, Steps};
ghost use Rattle.listing.specs.Listing.{ending, StepsOn, Listing};

use crate::fault::ListFault;
use crate::outcome::Listed;
use automata::items::{Arc, Item, State};
use automata::nodes::CoreNode;
use rules::book::Book;
use rules::reading::read;
use tableau::beginning::begin;
use tableau::stepping::step;
use tableau::translation::{Progress, Running};

pub mod fault;
pub mod outcome;
pub mod text;

// How many steps a call of step may make: the most that one takes.
const ALLOWANCE: u16 = 65535;

// One call of step, on lists that are long enough for what is in use of them.
// Kept: the new form is no plainer: with the lists in a type, each call would promise their lengths and their loans.
fn step_once(
    running: Running,
    sheet: &[CoreNode],
    states: &mut [State],
    arcs: &mut [Arc],
    pending: &mut [Item],
) -> Progress
    requires { short_list (standing running) (lists sheet.now states.old arcs.old pending.old) ≡ Nothing }
    ensures { Steps (standing running) (lists sheet.now states.old arcs.old pending.old) 65535 (progress_told result) (lists sheet.now states.new arcs.new pending.new) }
{
    match step(running, sheet, states, arcs, pending, ALLOWANCE) {
        Ok(progress) => progress,
        Err(_refused) => unreachable(),
    }
}

// Steps until the translation is finished or there is no room.
fn step_on(
    running: Running,
    sheet: &[CoreNode],
    states: &mut [State],
    arcs: &mut [Arc],
    pending: &mut [Item],
) -> Listed
    requires { short_list (standing running) (lists sheet.now states.old arcs.old pending.old) ≡ Nothing }
    ensures { StepsOn (standing running) (lists sheet.now states.old arcs.old pending.old) (ending result) (lists sheet.now states.new arcs.new pending.new) }
{
    // Kept: the new form is no plainer: a translation is moved from call to call, and nothing is counted.
    let mut current = running;
    loop {
        match step_once(current, sheet, states, arcs, pending) {
            Progress::Finished(finished) => return Listed::Finished(finished),
            Progress::Running(next) => {
                current = next;
            }
            Progress::NoRoom(stopped, lack) => return Listed::NoRoom(stopped, lack),
        }
    }
}

/// Reads a rule file of 1 to 4,096 bytes into a new book, and translates its rule over the lists that the caller
/// lends. Refusals are those of reading (1 to 6) and of beginning (7, 8, 9, 11), in that order; a refused job
/// leaves the lists as they were. The rule is in `docs/TRANSLATION.md`, the numbers in `docs/REFUSALS.md`.
pub fn list_rule(
    file: &[u8],
    sheet: &mut [CoreNode],
    states: &mut [State],
    arcs: &mut [Arc],
    pending: &mut [Item],
) -> Result<Listed, ListFault>
    ensures { Listing file.now (lists sheet.old states.old arcs.old pending.old) result (lists sheet.new states.new arcs.new pending.new) }
{
    let mut book = Book::new();
    let place = read(&mut book, file)?;
    let running = begin(&book, place, sheet, pending)?;
    Ok(step_on(running, sheet, states, arcs, pending))
}

#[cfg(test)]
mod tests {
    use crate::fault::{FileFault, ListFault};
    use crate::text::{ArcLine, HeadLine, StateLine};
    use automata::items::{Arc, State};
    use std::alloc::AllocError;
    use tableau::translation::Lack;

    #[test]
    fn lines(rt: HostRuntime) -> Result<(), AllocError> {
        let heap = rt.alloc();
        let head = HeadLine::Automaton {
            states: 3,
            arcs: 6,
            sets: 1,
            steps: 12,
        };
        assert_eq!(rt; format!(in heap; "{head}")?.as_str(), "A 3 6 1 12");
        let head = HeadLine::NoRoom(Lack::Pending);
        assert_eq!(rt; format!(in heap; "{head}")?.as_str(), "N pending");
        let head = HeadLine::Refused(ListFault::Read(FileFault::Size(4097)));
        assert_eq!(rt; format!(in heap; "{head}")?.as_str(), "R 1 read 0");
        let state = State {
            on: 31,
            off: 0,
            marks: 2,
            ..State::default()
        };
        let line = StateLine { number: 10, state };
        assert_eq!(rt; format!(in heap; "{line}")?.as_str(), "S 10 1f 0 2");
        let line = ArcLine(Arc { from: 0, to: 10 });
        assert_eq!(rt; format!(in heap; "{line}")?.as_str(), "E 0 10");
        Ok(())
    }
}
