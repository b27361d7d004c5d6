// What stands at one place of a book: an operator with the places of its operands.

/// Where a node stands in a book: nodes are counted from 0 in the order of their entry. A place may
/// name nothing that is entered; a book has places 0 to 255 at most.
#[derive(Clone, Copy, PartialEq, Eq, Debug)]
pub struct Place {
    pub index: u16,
}

/// The operators of one operand; docs/RULES.md says when each holds.
#[derive(Clone, Copy, PartialEq, Eq, Debug)]
pub enum UnaryOp {
    Not,
    Next,
    Eventually,
    Always,
}

/// The operators of two operands, the left one first; docs/RULES.md says when each holds.
#[derive(Clone, Copy, PartialEq, Eq, Debug)]
pub enum BinaryOp {
    And,
    Or,
    Implies,
    Equivalent,
    ExclusiveOr,
    Until,
    Release,
    WeakUntil,
    StrongRelease,
}

/// A part of a rule: a constant, a signal by its number, 0 to 63 in a book, or an operator with the
/// places of its operands, which lie below the node's own in a book.
#[derive(Clone, Copy, PartialEq, Eq, Debug)]
pub enum Node {
    True,
    False,
    Signal(u8),
    Unary(UnaryOp, Place),
    Binary(BinaryOp, Place, Place),
}
