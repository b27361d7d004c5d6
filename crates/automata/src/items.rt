// What a translation reads and writes: pending items, states and arcs.
use crate::nodes::CoreSet;

/// An item that is still to be worked on, on behalf of its source: 0 for the start, else a state's
/// number, from 1. How step goes about it is in docs/TRANSLATION.md.
#[derive(Clone, Copy, PartialEq, Eq, Debug, Default)]
pub struct Item {
    // Kept: a public promise; the definitions under the law have 0 for the start.
    pub source: u32,
    pub new: CoreSet,
    pub old: CoreSet,
    pub next: CoreSet,
}

/// A state of the automaton; states are numbered from 1. Bit j of `marks` is mark set j, from 0 to 15;
/// bit s of `on` and of `off` is signal s, from 0 to 63, whose on or off literal is in `old`.
#[derive(Clone, Copy, PartialEq, Eq, Debug, Default)]
pub struct State {
    pub old: CoreSet,
    pub next: CoreSet,
    pub marks: u64,
    pub on: u64,
    pub off: u64,
}

/// An arc from a state, or from the start, which is 0, to a state, by their numbers.
// Kept: a public promise; the definitions under the law and what is printed have 0 for the start.
#[derive(Clone, Copy, PartialEq, Eq, Debug, Default)]
pub struct Arc {
    pub from: u32,
    pub to: u32,
}
