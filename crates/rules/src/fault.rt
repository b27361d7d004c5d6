// Why a command is refused, in the order in which the causes are looked for.
ghost use Rattle.std.specs.Prelude.{◌≡◌, Some};
ghost use Rattle.rules.specs.Causes.{cause_text};
ghost use Rattle.rules.specs.Refusals.{enter_number};

use crate::node::Place;
use std::fmt;

/// Why `Book::enter` refuses a command (docs/REFUSALS.md).
#[derive(Clone, Copy, PartialEq, Eq, Debug)]
pub enum EnterFault {
    /// 2: no command begins with this byte
    UnknownCommand(u8),
    /// 3: the bytes end before or inside the command
    Truncated,
    /// 4: there is no signal of this number; signals are 0 to 63
    SignalAbove(u16),
    /// 5: this operand, the first such one, names a place that is not entered
    NotEntered(Place),
    /// 6: the book has 256 nodes, and the node is a new one
    Full,
}

impl EnterFault {
    /// The number of the refusal, 2 to 6.
    // Kept: a public promise, and docs/REFUSALS.md lists the numbers.
    pub fn number(&self) -> u8
        ensures { result ≡ enter_number self.now }
    {
        match *self {
            EnterFault::UnknownCommand(_) => 2,
            EnterFault::Truncated => 3,
            EnterFault::SignalAbove(_) => 4,
            EnterFault::NotEntered(_) => 5,
            EnterFault::Full => 6,
        }
    }
}

/// The cause, as the end of a sentence about a command of a file.
impl fmt::Display for EnterFault {
    ghost output = { λ fault. Some (cause_text fault) };

    #[tactic(auto, using(std::proofs::lemmas::Fmt::hex_byte))]
    fn fmt<W: fmt::Write>(&self, f: &mut fmt::Formatter<W>) -> fmt::Result {
        match *self {
            EnterFault::UnknownCommand(byte) => write!(
                f,
                "no command begins with the byte {byte:02x}"
            ),
            EnterFault::Truncated => f.write_str("the file ends inside this command"),
            EnterFault::SignalAbove(signal) => write!(
                f,
                "there is no signal {signal}; signals are 0 to 63"
            ),
            EnterFault::NotEntered(place) => write!(
                f,
                "there is no node yet at place {}",
                place.index
            ),
            EnterFault::Full => f.write_str("the book is full; it has room for 256 nodes"),
        }
    }
}
