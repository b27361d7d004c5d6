// Entering one command.
ghost use Rattle.std.specs.Prelude.{◌≡◌, true, length, if◌then◌else◌, Some, None, nat_lt};
ghost use Rattle.std.specs.Option.{option_map};
ghost use Rattle.std.specs.Result.{result_err};
ghost use Rattle.rules.specs.Entering.{missing, added, Enters};
ghost use Rattle.rules.specs.Tables.{fits_at, SoundBook};
ghost use Rattle.rules.specs.declared.fault.EnterFault.TheVariants.{NotEntered};

use crate::book::Book;
use crate::decode::decode;
use crate::fault::EnterFault;
use crate::node::{Node, Place};
use crate::table::{ROOM, place_in};

impl Book {
    // Refuses the first operand of the node that is not entered.
    fn check_operands(&self, node: Node) -> Result<(), EnterFault>
        ensures { result_err result ≡ option_map NotEntered (missing node (length self.now)) }
    {
        match node {
            Node::True | Node::False | Node::Signal(_) => Ok(()),
            Node::Unary(_, a) => self.check_entered(a),
            Node::Binary(_, a, b) => {
                self.check_entered(a)?;
                self.check_entered(b)
            }
        }
    }

    // Refuses a place at which nothing is entered.
    fn check_entered(&self, place: Place) -> Result<(), EnterFault>
        ensures { result_err result ≡ (if nat_lt place.index (length self.now) then None else Some (NotEntered place)) }
    {
        if place.index as usize >= self.table.count {
            return Err(EnterFault::NotEntered(place));
        }
        Ok(())
    }

    // The place of an equal node, or else of this one as the newest.
    fn add(&mut self, node: Node) -> Result<Place, EnterFault>
        requires { fits_at node (length self.old) ≡ true }
        ensures answer { result ≡ (added self.old node).0 }
        ensures after { self.new ≡ (added self.old node).1 }
        ensures sound { SoundBook self.new }
    {
        if let Some(place) = place_in(self.nodes(), node) {
            return Ok(Place {
                index: place as u16,
            });
        }
        let count = self.table.count;
        if count == ROOM {
            return Err(EnterFault::Full);
        }
        self.table.nodes[count] = node;
        self.table.count = count + 1;
        Ok(Place {
            index: count as u16,
        })
    }

    /// Enters the command at the front of the bytes, and answers the place of its node and how many
    /// bytes the command has: 1, 3 or 5. An equal node keeps its place, and a new one stands last.
    /// Refusals 2 to 6, in this order: the command byte, the length, the signal, the operands, the
    /// room; a refused call leaves the book as it is. Every call leaves the book sound. docs/RULES.md,
    /// docs/REFUSALS.md.
    pub fn enter(&mut self, bytes: &[u8]) -> Result<(Place, usize), EnterFault>
        ensures enters { Enters self.old bytes.now result self.new }
        ensures sound { SoundBook self.new }
    {
        // looked at, so that the book is known to be sound where the command is refused
        let _ = &self.table;
        let (node, length) = decode(bytes)?;
        self.check_operands(node)?;
        let place = self.add(node)?;
        Ok((place, length))
    }
}
