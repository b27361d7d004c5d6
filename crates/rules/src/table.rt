// The nodes of a book at their places.
ghost use Rattle.std.specs.Prelude.{◌≡◌, ◌<◌, length, IfSome};
ghost use Rattle.rules.specs.Nodes.{SameDecides, same, place_of};

use crate::node::Node;

/// How many nodes a book has room for.
pub const ROOM: usize = 256;

/// The nodes at their places, counted from 0: those below `count` are entered.
// Kept: a rule of the project: a book stands over an inner table of 256 records.
#[derive(Drop)]
pub struct Table {
    pub nodes: [Node; ROOM],
    pub count: usize,
}

// The place of the first node of a list that equals this one.
pub(crate) fn place_in(nodes: &[Node], node: Node) -> Option<usize>
    ensures place { result ≡ place_of node nodes.now }
    ensures inside { IfSome result (λ place. place < length nodes.now) }
    ensures equal { SameDecides }
{
    nodes.iter().position(
        |entered|
            ensures { result ≡ same entered.now node }
        { *entered == node },
    )
}
