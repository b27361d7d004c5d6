// The commands of a rule file: which byte begins one, how long it is, and what it says.
ghost use Rattle.std.specs.Prelude.{◌≡◌, ◌+◌, ◌*◌};
ghost use Rattle.std.specs.Option.{ok_or};
ghost use Rattle.rules.specs.Commands.{command_of, length_of};
ghost use Rattle.rules.specs.declared.fault.EnterFault.TheVariants.{UnknownCommand};

use crate::fault::EnterFault;
use crate::node::{BinaryOp, Node, UnaryOp};

// How many bytes the command has that begins with a byte, or 0 where none does.
// Kept: a rule of the project, by which the lengths stand in a constant array.
const LENGTHS: [u8; 256] = [
    1, 1, 0, 0, 0, 0, 0, 0, 0, 0, 0, 0, 0, 0, 0, 0, 3, 3, 3, 3, 3, 0, 0, 0, 0, 0, 0, 0, 0, 0, 0, 0,
    5, 5, 5, 5, 5, 5, 5, 5, 5, 0, 0, 0, 0, 0, 0, 0, 0, 0, 0, 0, 0, 0, 0, 0, 0, 0, 0, 0, 0, 0, 0, 0,
    0, 0, 0, 0, 0, 0, 0, 0, 0, 0, 0, 0, 0, 0, 0, 0, 0, 0, 0, 0, 0, 0, 0, 0, 0, 0, 0, 0, 0, 0, 0, 0,
    0, 0, 0, 0, 0, 0, 0, 0, 0, 0, 0, 0, 0, 0, 0, 0, 0, 0, 0, 0, 0, 0, 0, 0, 0, 0, 0, 0, 0, 0, 0, 0,
    0, 0, 0, 0, 0, 0, 0, 0, 0, 0, 0, 0, 0, 0, 0, 0, 0, 0, 0, 0, 0, 0, 0, 0, 0, 0, 0, 0, 0, 0, 0, 0,
    0, 0, 0, 0, 0, 0, 0, 0, 0, 0, 0, 0, 0, 0, 0, 0, 0, 0, 0, 0, 0, 0, 0, 0, 0, 0, 0, 0, 0, 0, 0, 0,
    0, 0, 0, 0, 0, 0, 0, 0, 0, 0, 0, 0, 0, 0, 0, 0, 0, 0, 0, 0, 0, 0, 0, 0, 0, 0, 0, 0, 0, 0, 0, 0,
    0, 0, 0, 0, 0, 0, 0, 0, 0, 0, 0, 0, 0, 0, 0, 0, 0, 0, 0, 0, 0, 0, 0, 0, 0, 0, 0, 0, 0, 0, 0, 0,
];

/// What a first byte asks for: a node without operands, a signal's number, one place or two.
/// The bytes are in docs/RULES.md.
#[derive(Clone, Copy, Debug, PartialEq, Eq)]
pub enum Command {
    Plain(Node),
    Signal,
    Unary(UnaryOp),
    Binary(BinaryOp),
}

/// The command that a byte begins; refusal 2, with the byte, where none does.
impl TryFrom<u8> for Command {
    type Error = EnterFault;

    ghost try_from_gives = { λ byte result. result ≡ ok_or (command_of byte) (UnknownCommand byte) };

    fn try_from(byte: u8) -> Result<Command, EnterFault> {
        match byte {
            0x00 => Ok(Command::Plain(Node::True)),
            0x01 => Ok(Command::Plain(Node::False)),
            0x10 => Ok(Command::Signal),
            0x11 => Ok(Command::Unary(UnaryOp::Not)),
            0x12 => Ok(Command::Unary(UnaryOp::Next)),
            0x13 => Ok(Command::Unary(UnaryOp::Eventually)),
            0x14 => Ok(Command::Unary(UnaryOp::Always)),
            0x20 => Ok(Command::Binary(BinaryOp::And)),
            0x21 => Ok(Command::Binary(BinaryOp::Or)),
            0x22 => Ok(Command::Binary(BinaryOp::Implies)),
            0x23 => Ok(Command::Binary(BinaryOp::Equivalent)),
            0x24 => Ok(Command::Binary(BinaryOp::ExclusiveOr)),
            0x25 => Ok(Command::Binary(BinaryOp::Until)),
            0x26 => Ok(Command::Binary(BinaryOp::Release)),
            0x27 => Ok(Command::Binary(BinaryOp::WeakUntil)),
            0x28 => Ok(Command::Binary(BinaryOp::StrongRelease)),
            _ => Err(EnterFault::UnknownCommand(byte)),
        }
    }
}

// How long the command is that begins with the byte.
pub(crate) fn command_length(byte: u8) -> usize
    ensures { result ≡ length_of byte }
{
    LENGTHS[byte as usize] as usize
}

// The number that two bytes say, the high byte first.
// Kept: no plainer: used on bytes taken by `let .. else`, and an impl for a pair says no more.
pub(crate) fn operand(high: u8, low: u8) -> u16
    ensures { result ≡ high * 256 + low }
{
    u16::from_be_bytes([high, low])
}
