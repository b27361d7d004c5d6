// What a state keeps of its Old.
ghost use Rattle.std.specs.Prelude.{◌≡◌, ◌<◌, length};
ghost use Rattle.automata.specs.Steps.{signals, on_signals, off_signals, untils_below, mark_of, marks_below, state_of};

use crate::sets::contains;
use crate::sheets::{Checked, Sheet};
use automata::items::State;
use automata::nodes::{CoreNode, CoreSet};

// The mark set j, if it is the one of node k and an Old bears it.
// Kept: no plainer: numbers inside a core node are plain `u8`, so a type for k < 64 would be made anew at each use.
fn mark_of(read: Checked, k: u8, old: CoreSet, j: u8) -> u64
    requires node { k < 64 }
    requires set { j < 64 }
    ensures { result ≡ mark_of read.node k old j }
{
    match read.node {
        CoreNode::Until(_, b) if !contains(old, k) || contains(old, b) => 1 << j,
        _ => 0,
    }
}

impl Sheet<'_> {
    // The signals of the literals in an Old.
    fn signals<F: Fn(Checked) -> u64>(&self, old: CoreSet, literal: F) -> u64
        requires { F.IsAlwaysCallable literal }
        ensures { (bit : _) → ((n : _) (r : _) → F.post literal n r → r ≡ bit n.node) → result ≡ signals bit self.now.nodes.now old (length self.now.nodes.now) }
    {
        let mut signals = 0;
        // Kept: the new form is no plainer: k is a core number that is looked for in Old, and node_at reads its node.
        for k in 0..self.nodes.len() as u8 {
            if contains(old, k) {
                signals |= literal(self.node_at(k));
            }
        }
        signals
    }

    // The signals that an Old has on.
    pub(crate) fn on_signals(&self, old: CoreSet) -> u64
        ensures { result ≡ on_signals self.now.nodes.now old }
    {
        self.signals(old, |read| match read.node {
            CoreNode::On(s) => 1 << s,
            _ => 0,
        })
    }

    // The signals that an Old has off.
    pub(crate) fn off_signals(&self, old: CoreSet) -> u64
        ensures { result ≡ off_signals self.now.nodes.now old }
    {
        self.signals(old, |read| match read.node {
            CoreNode::Off(s) => 1 << s,
            _ => 0,
        })
    }

    // The mark sets that an Old bears.
    fn marks(&self, old: CoreSet) -> u64
        ensures { result ≡ marks_below self.now.nodes.now old (length self.now.nodes.now) }
    {
        let mut borne = 0;
        let mut untils = 0;
        // Kept: the new form is no plainer: k is a core number that is looked for in Old, and node_at reads its node.
        for k in 0..self.nodes.len() as u8 {
            let read = self.node_at(k);
            borne |= mark_of(read, k, old, untils);
            if matches!(read.node, CoreNode::Until(_, _)) {
                untils += 1;
            }
        }
        borne
    }

    // How many untils there are: each has a mark set.
    // Kept: the new form is no plainer: a filter and a count need a closure over node_at, and the count another definition.
    pub(crate) fn count_untils(&self) -> u8
        ensures { result ≡ untils_below self.now.nodes.now (length self.now.nodes.now) }
    {
        let mut untils = 0;
        for k in 0..self.nodes.len() as u8 {
            if matches!(self.node_at(k).node, CoreNode::Until(_, _)) {
                untils += 1;
            }
        }
        untils
    }

    // The state of an Old and a Next.
    pub(crate) fn state_of(&self, old: CoreSet, next: CoreSet) -> State
        ensures { result ≡ state_of self.now.nodes.now old next }
    {
        State {
            old,
            next,
            marks: self.marks(old),
            on: self.on_signals(old),
            off: self.off_signals(old),
        }
    }
}
