// Counts of what is in use, and the room there is.
ghost use Rattle.std.specs.Prelude.{◌≡◌, ◌<◌, ◌≤◌, length};
ghost use Rattle.std.specs.Option.{option_to_list};
ghost use Rattle.std.specs.Result.{result_err};
ghost use Rattle.tableau.specs.Plans.{state_in, arc_in, items_in, new_items};
ghost use Rattle.tableau.specs.Rooms.{lack_of, Within};

use crate::limits::MOST_STEPS;
use crate::plans::Plan;
use crate::translation::Lack;
use automata::items::{Arc, Item, State};

// How many steps are made, and how many entries of each list are in use.
#[derive(Clone, Copy)]
pub(crate) struct Counts {
    pub steps: u32,
    pub states: usize,
    pub arcs: usize,
    pub pending: usize,
}

// How much of each list may come into use.
#[derive(Clone, Copy)]
pub(crate) struct Space {
    pub states: usize,
    pub arcs: usize,
    pub pending: usize,
}

// How many entries an option has: one or none.
pub(crate) fn count<T: Copy>(entry: Option<T>) -> usize
    ensures count { result ≡ length (option_to_list entry) }
    ensures few { result ≤ 1 }
{
    entry.is_some() as usize
}

impl Plan {
    // The state that it adds.
    pub(crate) fn state(&self) -> Option<State>
        ensures { result ≡ state_in self.now }
    {
        match *self {
            Plan::Make(state, _, _) => Some(state),
            _ => None,
        }
    }

    // The arc that it adds.
    pub(crate) fn arc(&self) -> Option<Arc>
        ensures { result ≡ arc_in self.now }
    {
        match *self {
            Plan::Join(arc) | Plan::Make(_, arc, _) => Some(arc),
            _ => None,
        }
    }

    // The items that it puts in: in the place of the one taken, and above it, to be taken next.
    pub(crate) fn items(&self) -> (Option<Item>, Option<Item>)
        ensures { result ≡ items_in self.now }
    {
        match *self {
            Plan::One(item) | Plan::Make(_, _, item) => (Some(item), None),
            Plan::Two(first, second) => (Some(second), Some(first)),
            _ => (None, None),
        }
    }

    // How many items it puts in.
    pub(crate) fn new_items(&self) -> usize
        ensures count { result ≡ length (new_items self.now) }
        ensures few { result ≤ 2 }
    {
        match self {
            Plan::One(_) | Plan::Make(_, _, _) => 1,
            Plan::Two(_, _) => 2,
            _ => 0,
        }
    }
}

// Refuses a plan for which there is no room, by the first of the four that lacks.
// Kept: no plainer: a type of such counts would be tied to a space, and a finished translation has no pending items.
pub(crate) fn check_room(plan: &Plan, counts: Counts, space: Space) -> Result<(), Lack>
    requires inside { Within counts space }
    requires some { 0 < counts.pending }
    ensures { result_err result ≡ lack_of plan.now counts space }
{
    if counts.steps == MOST_STEPS {
        Err(Lack::Steps)
    } else if counts.states + count(plan.state()) > space.states {
        Err(Lack::States)
    } else if counts.arcs + count(plan.arc()) > space.arcs {
        Err(Lack::Arcs)
    } else if counts.pending - 1 + plan.new_items() > space.pending {
        Err(Lack::Pending)
    } else {
        Ok(())
    }
}
