// Reading a sheet of at most 64 core nodes.
ghost use Rattle.std.specs.Prelude.{◌≡◌, ◌≤◌, true, length};
ghost use Rattle.automata.specs.Steps.{checked, node_on, both_below, sound_on};
ghost use Rattle.tableau.specs.declared.limits.TheConstants.{MOST_CORES};

use automata::nodes::CoreNode;

// The nodes of a sheet.
#[derive(Clone, Copy)]
pub(crate) struct Sheet<'a> {
    pub nodes: &'a [CoreNode],
    ghost few: { length nodes.now ≤ MOST_CORES },
}

// A node that names only numbers and signals below 64.
#[derive(Clone, Copy)]
pub(crate) struct Checked {
    pub node: CoreNode,
    ghost sound: { sound_on MOST_CORES node ≡ true },
}

// Whether both numbers are below n.
fn both_below(n: usize, a: u8, b: u8) -> bool
    ensures { result ≡ both_below n a b }
{
    (a as usize) < n && (b as usize) < n
}

// Whether each number that a node names is below n, and each signal below 64.
fn is_sound(n: usize, node: CoreNode) -> bool
    ensures { result ≡ sound_on n node }
{
    match node {
        CoreNode::True | CoreNode::False => true,
        // Two arms: one for both costs a scan of Old up to half as much again.
        CoreNode::On(s) => s < 64,
        CoreNode::Off(s) => s < 64,
        CoreNode::Next(a) => (a as usize) < n,
        CoreNode::And(a, b)
        | CoreNode::Or(a, b)
        | CoreNode::Until(a, b)
        | CoreNode::Release(a, b) => both_below(n, a, b),
    }
}

// The node, or false if it names what is not there.
fn check(n: usize, node: CoreNode) -> Checked
    requires { n ≤ MOST_CORES }
    ensures { result.node ≡ checked n node }
{
    if is_sound(n, node) {
        Checked { node }
    } else {
        Checked {
            node: CoreNode::False,
        }
    }
}

impl Sheet<'_> {
    // The node of a number: false if it is not on the sheet, or names what is not there.
    pub(crate) fn node_at(&self, k: u8) -> Checked
        ensures { result.node ≡ node_on self.now.nodes.now k }
    {
        match self.nodes.get(k as usize) {
            Some(node) => check(self.nodes.len(), *node),
            None => Checked {
                node: CoreNode::False,
            },
        }
    }
}
