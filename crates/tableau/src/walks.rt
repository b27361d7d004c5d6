// Step after step, as long as there is room.
ghost use Rattle.std.specs.Prelude.{◌≡◌, ◌<◌, ◌≤◌, length};
ghost use Rattle.tableau.specs.Rooms.{Within};
ghost use Rattle.tableau.specs.Walks.{space_of, Turned, Walked};

use crate::limits::{MOST_ARCS, MOST_PENDING, MOST_STATES};
use crate::plans::plan_for;
use crate::rooms::{Counts, Space, check_room};
use crate::sheets::Sheet;
use crate::translation::Lack;
use automata::items::{Arc, Item, State};

// Where the steps have stopped, and what there was no room for.
#[derive(Clone, Copy)]
pub(crate) struct Stopped {
    pub counts: Counts,
    pub lack: Option<Lack>,
}

// How many entries of each list may be in use: its length, and no more than a translation may use.
fn space_in(states: &[State], arcs: &[Arc], pending: &[Item]) -> Space
    ensures { result ≡ space_of states.now arcs.now pending.now }
{
    Space {
        states: states.len().min(MOST_STATES),
        arcs: arcs.len().min(MOST_ARCS),
        pending: pending.len().min(MOST_PENDING),
    }
}

// One step: there is a pending item.
// Kept: the new form is no plainer: with the lists in a type, each call would promise their lengths and their loans.
// Kept: no plainer: a type of such counts would be tied to a space, and a finished translation has no pending items.
fn turn(
    counts: Counts,
    space: Space,
    sheet: &Sheet<'_>,
    states: &mut [State],
    arcs: &mut [Arc],
    pending: &mut [Item],
) -> Result<Counts, Lack>
    requires inside { Within counts space }
    requires some { 0 < counts.pending }
    requires states { space.states ≤ length states.old }
    requires arcs { space.arcs ≤ length arcs.old }
    requires pending { space.pending ≤ length pending.old }
    ensures { Turned sheet.now.nodes.now space counts states.old arcs.old pending.old result states.new arcs.new pending.new }
{
    let item = pending[counts.pending - 1];
    let plan = plan_for(sheet, &states[..counts.states], &arcs[..counts.arcs], item);
    check_room(&plan, counts, space)?;
    Ok(plan.write(counts, states, arcs, pending))
}

// As many steps as are allowed, until none is pending or there is no room.
pub(crate) fn advance(
    start: Counts,
    sheet: &Sheet<'_>,
    states: &mut [State],
    arcs: &mut [Arc],
    pending: &mut [Item],
    allowance: u16,
) -> Stopped
    requires { Within start (space_of states.old arcs.old pending.old) }
    ensures { Walked sheet.now.nodes.now start states.old arcs.old pending.old allowance result states.new arcs.new pending.new }
{
    let space = space_in(states, arcs, pending);
    let mut counts = start;
    for _ in 0..allowance {
        if counts.pending == 0 {
            return Stopped { counts, lack: None };
        }
        match turn(counts, space, sheet, states, arcs, pending) {
            Ok(after) => {
                counts = after;
            }
            Err(lack) => return Stopped {
                counts,
                lack: Some(lack),
            },
        }
    }
    Stopped { counts, lack: None }
}
