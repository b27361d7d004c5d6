// The steps of a translation.
ghost use Rattle.std.specs.Prelude.{◌≡◌, ◌≤◌};
ghost use Rattle.std.specs.Result.{result_err};
ghost use Rattle.tableau.specs.declared.limits.TheConstants.{MOST_STATES, MOST_ARCS, MOST_PENDING};
ghost use Rattle.tableau.specs.Ends.{stopped_told};
ghost use Rattle.tableau.specs.Limits.{Limits};
ghost use Rattle.tableau.specs.Stepping.{lists, standing, short_list, progress_told, told, Steps};

use crate::fault::{LentList, ShortFault, check_length};
use crate::rooms::Counts;
use crate::sheets::Sheet;
use crate::translation::{Finished, Progress, Running, StepRefused, Totals};
use crate::walks::{Stopped, advance};
use automata::items::{Arc, Item, State};
use automata::nodes::CoreNode;

// Refuses the first list that is shorter than what the translation uses of it.
fn check_lists(
    translation: &Running,
    sheet: &[CoreNode],
    states: &[State],
    arcs: &[Arc],
    pending: &[Item],
) -> Result<(), ShortFault>
    ensures { result_err result ≡ short_list (standing translation.now) (lists sheet.now states.now arcs.now pending.now) }
{
    let totals = translation.totals;
    check_length(LentList::Sheet, sheet.len(), totals.cores as usize)?;
    check_length(LentList::States, states.len(), totals.states as usize)?;
    check_length(LentList::Arcs, arcs.len(), totals.arcs as usize)?;
    check_length(
        LentList::Pending,
        pending.len(),
        translation.pending as usize,
    )
}

// What the steps have come to.
fn progress(before: Totals, stopped: Stopped) -> Progress
    requires states { stopped.counts.states ≤ MOST_STATES }
    requires arcs { stopped.counts.arcs ≤ MOST_ARCS }
    requires pending { stopped.counts.pending ≤ MOST_PENDING }
    ensures { progress_told result ≡ stopped_told before.cores before.sets stopped }
{
    let counts = stopped.counts;
    let pending = counts.pending as u16;
    let totals = Totals {
        cores: before.cores,
        sets: before.sets,
        steps: counts.steps,
        states: counts.states as u16,
        arcs: counts.arcs as u16,
    };
    match stopped.lack {
        Some(lack) => Progress::NoRoom(Running { totals, pending }, lack),
        None if pending == 0 => Progress::Finished(Finished { totals }),
        None => Progress::Running(Running { totals, pending }),
    }
}

/// Makes as many steps as are allowed, 0 to 65,535, until the translation is finished or there is no
/// room for the next. A list that is shorter than what the translation uses of it is refused (11): then
/// nothing changes, and the translation comes back. See docs/TRANSLATION.md.
pub fn step(
    translation: Running,
    sheet: &[CoreNode],
    states: &mut [State],
    arcs: &mut [Arc],
    pending: &mut [Item],
    allowance: u16,
) -> Result<Progress, StepRefused>
    ensures steps { Steps (standing translation) (lists sheet.now states.old arcs.old pending.old) allowance (told result) (lists sheet.now states.new arcs.new pending.new) }
    ensures limits { Limits }
{
    if let Err(fault) = check_lists(&translation, sheet, states, arcs, pending) {
        return Err(StepRefused { translation, fault });
    }
    let Running {
        totals,
        pending: waiting,
    } = translation;
    let used = Sheet {
        nodes: &sheet[..totals.cores as usize],
    };
    let start = Counts {
        steps: totals.steps,
        states: totals.states as usize,
        arcs: totals.arcs as usize,
        pending: waiting as usize,
    };
    let stopped = advance(start, &used, states, arcs, pending, allowance);
    Ok(progress(totals, stopped))
}
