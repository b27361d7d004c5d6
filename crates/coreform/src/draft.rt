// A sheet of our own, on which a core form is written before the caller's sheet is looked at.
ghost use Rattle.std.specs.Prelude.{◌≡◌, ◌≤◌, length};
ghost use Rattle.std.specs.List.{position};
ghost use Rattle.automata.specs.Sheets.{SameDecides, same, put};
ghost use Rattle.coreform.specs.Drafts.{Drafted};
ghost use Rattle.coreform.specs.declared.draft.TheConstants.{MOST_NODES};

use arrayvec::ArrayVec;
use automata::nodes::CoreNode;

/// The most nodes that a core form may have.
pub const MOST_NODES: usize = 64;

/// The nodes of a core form, in the order of their numbers: at most 64.
pub type Draft = ArrayVec<CoreNode, MOST_NODES>;

// Where a node stands.
fn number_on(nodes: &[CoreNode], node: CoreNode) -> Option<usize>
    ensures position { result ≡ position (λ x. same x node) nodes.now }
    ensures equal { SameDecides }
{
    nodes.iter().position(|written| *written == node)
}

// Writes a node unless it is there, and answers its number: none where 64 others are written.
#[tactic(auto, using(crate::proofs::Drafting::put_there, crate::proofs::Drafting::put_next, crate::proofs::Drafting::put_longer))]
pub(crate) fn put(draft: &mut Draft, node: CoreNode) -> Option<u8>
    ensures drafted { Drafted draft.new.items result (put node draft.old.items) }
    ensures few { length draft.new.items ≤ MOST_NODES }
{
    if let Some(number) = number_on(draft.as_slice(), node) {
        return Some(number as u8);
    }
    let number = draft.len();
    draft.try_push(node).ok()?;
    Some(number as u8)
}
