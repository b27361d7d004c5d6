// The most that a translation may have: nodes, untils, steps, and entries of each list. docs/TRANSLATION.md.

use coreform::draft::MOST_NODES;

/// The most nodes of a core form, 64: more are refused (7).
pub const MOST_CORES: usize = MOST_NODES;

/// The most untils of a core form, each of which has a mark set: more are refused (8).
pub const MOST_UNTILS: u8 = 16;

/// The most states of an automaton, also on longer lists.
pub const MOST_STATES: usize = 1023;

/// The most arcs of an automaton, also on longer lists.
pub const MOST_ARCS: usize = 8191;

/// The most items that are pending at one time, also on longer lists.
pub const MOST_PENDING: usize = 1024;

/// The most steps of a translation, over all its calls.
pub const MOST_STEPS: u32 = 4294967295;
