// A new book, and what stands in one.
ghost use Rattle.std.specs.Prelude.{◌≡◌, [], length, if◌then◌else◌, Some, None, nat_lt, slice_index_or};
ghost use Rattle.rules.specs.declared.node.Node.TheVariants.{True};
ghost use Rattle.rules.specs.Tables.{SoundBook};

use crate::book::Book;
use crate::node::{Node, Place};
use crate::table::{ROOM, Table};

impl Book {
    /// A book in which nothing is entered.
    pub fn new() -> Book
        ensures nodes { result ≡ [] }
        ensures sound { SoundBook result }
    {
        Book {
            table: Table {
                nodes: [Node::True; ROOM],
                count: 0,
            },
        }
    }

    /// How many nodes are entered, 0 to 256.
    pub fn len(&self) -> usize
        ensures count { result ≡ length self.now }
        ensures sound { SoundBook self.now }
    {
        self.table.count
    }

    /// The node at a place, and `None` where no node is entered.
    pub fn get(&self, place: Place) -> Option<Node>
        ensures node { result ≡ (if nat_lt place.index (length self.now) then Some (slice_index_or self.now place.index True) else None) }
        ensures sound { SoundBook self.now }
    {
        self.nodes().get(place.index as usize).copied()
    }

    /// The nodes that are entered, in the order of their places.
    pub fn nodes(&self) -> &[Node]
        ensures nodes { result.now ≡ self.now }
        ensures sound { SoundBook self.now }
    {
        &self.table.nodes[0..self.table.count]
    }
}
