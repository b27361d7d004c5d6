// The core form of a rule: nodes of a few kinds, numbered from 0.

/// A node of a core form. Operands are core numbers, the numbers of nodes on the same sheet; signals
/// are numbered from 0 to 63. A node of a lent sheet may hold any number: one that names no node
/// there, or no signal, makes the node count as false. The kinds are in docs/TRANSLATION.md.
#[derive(Clone, Copy, PartialEq, Eq, Debug, Default)]
pub enum CoreNode {
    True,
    #[default]
    False,
    /// The literal of a signal that is on.
    On(u8),
    /// The literal of a signal that is off.
    Off(u8),
    Next(u8),
    And(u8, u8),
    Or(u8, u8),
    Until(u8, u8),
    Release(u8, u8),
}

/// A set of core numbers from 0 to 63: number k is a member when bit k is on.
#[derive(Clone, Copy, PartialEq, Eq, Debug, Default)]
pub struct CoreSet {
    pub bits: u64,
}
