// What a node says of one scan, from what its operands say there.
ghost use Rattle.std.specs.Prelude.{◌≡◌, ◌&&◌, ◌||◌};
ghost use Rattle.judging.specs.Turns.{unary_hold, unary_pass, binary_hold, binary_pass, lasts_of, denies_of};

use rules::node::{BinaryOp, Node, UnaryOp};

/// What a node says of a scan: it is true there where it holds, or where it passes on and is true at the next
/// scan. The table is in `docs/VERDICTS.md`.
#[derive(Clone, Copy, PartialEq, Eq, Debug)]
pub struct Turn {
    pub hold: bool,
    pub pass: bool,
}

impl Turn {
    // The truth at a scan, from the truth at the next one.
    pub(crate) fn before(self, next: bool) -> bool
        ensures { result ≡ (self.hold || (self.pass && next)) }
    {
        self.hold || (self.pass && next)
    }
}

// What an operator of one operand says of a scan, from what the operand says there and at the next one.
pub(crate) fn unary_turn(op: UnaryOp, now: bool, next: bool) -> Turn
    ensures hold { result.hold ≡ unary_hold op now next }
    ensures pass { result.pass ≡ unary_pass op }
{
    match op {
        UnaryOp::Not => Turn {
            hold: !now,
            pass: false,
        },
        UnaryOp::Next => Turn {
            hold: next,
            pass: false,
        },
        UnaryOp::Eventually => Turn {
            hold: now,
            pass: true,
        },
        UnaryOp::Always => Turn {
            hold: !now,
            pass: true,
        },
    }
}

// What an operator of two operands says of a scan, from what the operands say there.
pub(crate) fn binary_turn(op: BinaryOp, a: bool, b: bool) -> Turn
    ensures hold { result.hold ≡ binary_hold op a b }
    ensures pass { result.pass ≡ binary_pass op a }
{
    match op {
        BinaryOp::And => Turn {
            hold: a && b,
            pass: false,
        },
        BinaryOp::Or => Turn {
            hold: a || b,
            pass: false,
        },
        BinaryOp::Implies => Turn {
            hold: !a || b,
            pass: false,
        },
        BinaryOp::Equivalent => Turn {
            hold: a == b,
            pass: false,
        },
        BinaryOp::ExclusiveOr => Turn {
            hold: a != b,
            pass: false,
        },
        BinaryOp::Until => Turn { hold: b, pass: a },
        BinaryOp::Release => Turn { hold: !b, pass: !a },
        BinaryOp::WeakUntil => Turn { hold: b, pass: a },
        BinaryOp::StrongRelease => Turn { hold: !b, pass: !a },
    }
}

// What a sweep takes for true beyond the last scan: where a node that passes on for ever is true.
pub(crate) fn lasts(node: Node) -> bool
    ensures { result ≡ lasts_of node }
{
    matches!(
        node,
        Node::Binary(BinaryOp::WeakUntil | BinaryOp::StrongRelease, _, _)
    )
}

// Whether a node says the opposite of what its turns say: release, strong release and always are
// until, weak until and eventually of the denials, denied.
pub(crate) fn denies(node: Node) -> bool
    ensures { result ≡ denies_of node }
{
    matches!(
        node,
        Node::Unary(UnaryOp::Always, _)
            | Node::Binary(BinaryOp::Release | BinaryOp::StrongRelease, _, _)
    )
}
