// The command at the front of some bytes.
ghost use Rattle.std.specs.Prelude.{◌≡◌};
ghost use Rattle.rules.specs.Decoding.{decoded, place};

use crate::command::{Command, command_length, operand};
use crate::fault::EnterFault;
use crate::node::{Node, Place};

// The greatest number of a signal.
const LAST_SIGNAL: u16 = 63;

// The place that two bytes say.
// Kept: no plainer: used on bytes taken by `let .. else`, and an impl for a pair says no more.
fn place_at(high: u8, low: u8) -> Place
    ensures { result ≡ place high low }
{
    Place {
        index: operand(high, low),
    }
}

// The node that the first command says, and how long the command is.
// Kept: a rule of the project: the parts of a command are taken by `let .. else`, whose `else` leaves with the fault.
pub(crate) fn decode(bytes: &[u8]) -> Result<(Node, usize), EnterFault>
    ensures { result ≡ decoded bytes.now }
{
    let [byte, rest @ ..] = bytes else {
        return Err(EnterFault::Truncated);
    };
    let node = match Command::try_from(*byte)? {
        Command::Plain(node) => node,
        Command::Signal => {
            let [high, low, ..] = rest else {
                return Err(EnterFault::Truncated);
            };
            let signal = operand(*high, *low);
            if signal > LAST_SIGNAL {
                return Err(EnterFault::SignalAbove(signal));
            }
            Node::Signal(signal as u8)
        }
        Command::Unary(op) => {
            let [high, low, ..] = rest else {
                return Err(EnterFault::Truncated);
            };
            Node::Unary(op, place_at(*high, *low))
        }
        Command::Binary(op) => {
            let [high, low, next_high, next_low, ..] = rest else {
                return Err(EnterFault::Truncated);
            };
            Node::Binary(op, place_at(*high, *low), place_at(*next_high, *next_low))
        }
    };
    Ok((node, command_length(*byte)))
}
