// The longest lists that a translation ever uses, on the heap that their maker hands them.
#![tactic(auto)]

ghost use Rattle.std.specs.Prelude.{◌≡◌, length, IfOk};
ghost use Rattle.tableau.specs.declared.limits.TheConstants.{MOST_CORES, MOST_STATES, MOST_ARCS, MOST_PENDING};
ghost use Rattle.listing.specs.Listing.{Listing};
ghost use Rattle.lists.specs.Lent.{lent};

use automata::items::{Arc, Item, State};
use automata::nodes::CoreNode;
use listing::fault::ListFault;
use listing::list_rule;
use listing::outcome::Listed;
use std::alloc::{AllocError, Global};
use tableau::limits::{MOST_ARCS, MOST_CORES, MOST_PENDING, MOST_STATES};

/// The four lists that the listing job is lent.
#[derive(Drop)]
pub struct LongestLists {
    pub sheet: Vec<CoreNode>,
    pub states: Vec<State>,
    pub arcs: Vec<Arc>,
    pub pending: Vec<Item>,
}

impl LongestLists {
    /// Lists of 64 core nodes, 1,023 states, 8,191 arcs and 1,024 pending items; an `Err` where there is no
    /// memory for them.
    pub fn new(heap: Global) -> Result<LongestLists, AllocError>
        ensures sheet { IfOk result (λ all. length all.sheet.items ≡ MOST_CORES) }
        ensures states { IfOk result (λ all. length all.states.items ≡ MOST_STATES) }
        ensures arcs { IfOk result (λ all. length all.arcs.items ≡ MOST_ARCS) }
        ensures pending { IfOk result (λ all. length all.pending.items ≡ MOST_PENDING) }
    {
        Ok(LongestLists {
            sheet: vec![in heap; CoreNode::False; MOST_CORES]?,
            states: vec![in heap; State::default(); MOST_STATES]?,
            arcs: vec![in heap; Arc::default(); MOST_ARCS]?,
            pending: vec![in heap; Item::default(); MOST_PENDING]?,
        })
    }

    /// Lists the automaton of a rule file on these lists, with the refusals of `listing::list_rule`.
    pub fn list_rule(&mut self, file: &[u8]) -> Result<Listed, ListFault>
        ensures { Listing file.now (lent self.old) result (lent self.new) }
    {
        list_rule(
            file,
            self.sheet.as_mut_slice(),
            self.states.as_mut_slice(),
            self.arcs.as_mut_slice(),
            self.pending.as_mut_slice(),
        )
    }
}

#[cfg(test)]
mod tests {
    use crate::LongestLists;
    use automata::items::Arc;
    use listing::text::HeadLine;
    use std::alloc::AllocError;

    #[test]
    fn true_is_listed(rt: HostRuntime) -> Result<(), AllocError> {
        let mut lists = LongestLists::new(rt.alloc())?;
        let answer = lists.list_rule(&[0]);
        let head = HeadLine::Automaton {
            states: 2,
            arcs: 3,
            sets: 0,
            steps: 4,
        };
        assert_eq!(rt; HeadLine::from(&answer), head);
        assert_eq!(rt; lists.arcs.get(0).copied(), Some(Arc { from: 0, to: 1 }));
        Ok(())
    }
}
