// What is told of a finished translation.
ghost use Rattle.std.specs.Prelude.{◌≡◌};

use crate::translation::{Finished, Totals};

impl Finished {
    /// The steps, states, arcs and mark sets so far.
    // Kept: no plainer: a trait for both would take the place of one getter each.
    pub fn totals(&self) -> Totals
        ensures { result ≡ self.now.totals }
    {
        self.totals
    }
}
