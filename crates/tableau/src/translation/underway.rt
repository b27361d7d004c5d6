// What is told of a running translation.
ghost use Rattle.std.specs.Prelude.{◌≡◌};

use crate::translation::{Running, Totals};

impl Running {
    /// The steps, states, arcs and mark sets so far.
    // Kept: no plainer: a trait for both would take the place of one getter each.
    pub fn totals(&self) -> Totals
        ensures { result ≡ self.now.totals }
    {
        self.totals
    }
}
