// The core form of the rule at a place of a book.
ghost use Rattle.std.specs.Prelude.{◌≤◌, length};
ghost use Rattle.coreform.specs.declared.draft.TheConstants.{MOST_NODES};

use crate::draft::Draft;
use rules::node::Place;

pub mod forming;

/// A core form: its nodes, at most 64, and the number of the whole.
#[derive(Drop)]
pub struct CoreForm {
    nodes: Draft,
    root: u8,
    ghost few: { length nodes.items ≤ MOST_NODES },
}

/// Why there is no core form. docs/REFUSALS.md has the numbers.
#[derive(Clone, Copy, PartialEq, Eq, Debug)]
pub enum FormFault {
    /// 9: nothing is entered at this place.
    // Kept: a public promise: the refusal carries the place.
    NotInBook(Place),
    /// 7: the core form has over 64 nodes.
    TooManyNodes,
}
