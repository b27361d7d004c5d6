// What becomes of a translation.
use tableau::translation::{Finished, Lack, Running};

/// What a translation comes to (`docs/TRANSLATION.md`).
// Kept: the new form is no plainer: a listing never answers that it is still running.
#[derive(Drop)]
pub enum Listed {
    /// the automaton stands on the lists
    Finished(Finished),
    /// there is no room for the next step; the translation as it was before it
    NoRoom(Running, Lack),
}
