// Writing what a plan adds.
ghost use Rattle.std.specs.Prelude.{◌≡◌, ◌+◌, ◌-◌, ◌<◌, ◌≤◌, length, IfSome};
ghost use Rattle.std.specs.Option.{option_to_list};
ghost use Rattle.tableau.specs.declared.limits.TheConstants.{MOST_STEPS};
ghost use Rattle.tableau.specs.Plans.{new_states, new_arcs, new_items, entered_at, states_with, arcs_with, items_with};
ghost use Rattle.tableau.specs.Rooms.{counts_with};

use crate::plans::Plan;
use crate::rooms::Counts;
use automata::items::{Arc, Item, State};

// An entry, where there is one, behind the first n, and how many there are then.
fn enter<T: Copy>(list: &mut [T], n: usize, entry: Option<T>) -> usize
    requires { IfSome entry (λ _. n < length list.old) }
    ensures count { result ≡ n + length (option_to_list entry) }
    ensures list { list.new ≡ entered_at entry n list.old }
{
    match entry {
        Some(entry) => {
            list[n] = entry;
            n + 1
        }
        None => n,
    }
}

impl Plan {
    // Writes what the plan adds, for which there is room.
    pub(crate) fn write(
        &self,
        counts: Counts,
        states: &mut [State],
        arcs: &mut [Arc],
        pending: &mut [Item],
    ) -> Counts
        requires some { 0 < counts.pending }
        requires steps { counts.steps < MOST_STEPS }
        requires states { counts.states + length (new_states self.now) ≤ length states.old }
        requires arcs { counts.arcs + length (new_arcs self.now) ≤ length arcs.old }
        requires pending { counts.pending - 1 + length (new_items self.now) ≤ length pending.old }
        ensures counts { result ≡ counts_with self.now counts }
        ensures states { states.new ≡ states_with self.now counts.states states.old }
        ensures arcs { arcs.new ≡ arcs_with self.now counts.arcs arcs.old }
        ensures pending { pending.new ≡ items_with self.now counts.pending pending.old }
    {
        let (here, above) = self.items();
        let below = enter(pending, counts.pending - 1, here);
        Counts {
            steps: counts.steps + 1,
            states: enter(states, counts.states, self.state()),
            arcs: enter(arcs, counts.arcs, self.arc()),
            pending: enter(pending, below, above),
        }
    }
}
