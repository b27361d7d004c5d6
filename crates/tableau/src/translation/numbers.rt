// What is told of each translation.
ghost use Rattle.std.specs.Prelude.{◌≡◌};

use crate::translation::Totals;

impl Totals {
    /// The steps made since the translation began: 0 to 4,294,967,295.
    pub fn steps(&self) -> u32
        ensures { result ≡ self.now.steps }
    {
        self.steps
    }

    /// How many entries of the list of states are in use: 0 to 1,023.
    pub fn states(&self) -> u16
        ensures { result ≡ self.now.states }
    {
        self.states
    }

    /// How many entries of the list of arcs are in use: 0 to 8,191.
    pub fn arcs(&self) -> u16
        ensures { result ≡ self.now.arcs }
    {
        self.arcs
    }

    /// How many mark sets the automaton has: 0 to 16, one for each until.
    pub fn mark_sets(&self) -> u8
        ensures { result ≡ self.now.sets }
    {
        self.sets
    }
}
