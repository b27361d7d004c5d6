// Reading a rule file: its commands are entered in turn, and the last one is the rule.
ghost use Rattle.std.specs.Prelude.{◌≡◌, ◌≤◌, length, drop, IfErr, Ok, Err, MatchResult};
ghost use Rattle.rules.specs.declared.reading.ReadFault.TheVariants.{Command as AtCommand};
ghost use Rattle.rules.specs.Entering.{Enters};
ghost use Rattle.rules.specs.Tables.{SoundBook};
ghost use Rattle.rules.specs.Reading.{Reads};
ghost use Rattle.rules.specs.Refusals.{file_fault, file_number, file_start, read_number, read_start};
ghost use Rattle.rules.specs.HandedBack.{told, HandsBack};

use crate::book::Book;
use crate::fault::EnterFault;
use crate::node::Place;

/// How many bytes a rule file may have at most; it has at least one.
pub const MOST_BYTES: usize = 4096;

/// A command that was refused: why, the byte of the file where it starts, and the file from there on.
#[derive(Clone, Copy, Debug, PartialEq, Eq)]
pub struct CommandFault<'a> {
    pub fault: EnterFault,
    pub start: usize,
    pub rest: &'a [u8],
}

/// Why a rule file is refused, with a part of the file (docs/REFUSALS.md).
#[derive(Clone, Copy, Debug, PartialEq, Eq)]
pub enum ReadFault<'a> {
    /// 1: the file, handed back whole, is empty or over 4,096 bytes
    FileSize(&'a [u8]),
    /// 2 to 6: the command is refused by `Book::enter`
    Command(CommandFault<'a>),
}

/// Why a rule file is refused, without the file's bytes (docs/REFUSALS.md).
#[derive(Clone, Copy, Debug, PartialEq, Eq)]
pub enum FileFault {
    /// 1: the file has this many bytes, which are none or over 4,096
    Size(usize),
    /// 2 to 6: the command that starts at this byte, counted from 0, is refused by `Book::enter`
    Command { start: usize, fault: EnterFault },
}

// Kept: no plainer: a derive's From has no contract, and clauses name the error.
impl<'a> From<CommandFault<'a>> for ReadFault<'a> {
    ghost from_gives = { λ x y. y ≡ AtCommand x };

    fn from(fault: CommandFault<'a>) -> ReadFault<'a> {
        ReadFault::Command(fault)
    }
}

impl From<ReadFault<'_>> for FileFault {
    ghost from_gives = { λ x y. y ≡ file_fault x };

    fn from(fault: ReadFault<'_>) -> FileFault {
        match fault {
            ReadFault::FileSize(file) => FileFault::Size(file.len()),
            ReadFault::Command(command) => FileFault::Command {
                start: command.start,
                fault: command.fault,
            },
        }
    }
}

impl FileFault {
    /// The number of the refusal, 1 to 6.
    // Kept: a public promise, and docs/REFUSALS.md lists the numbers.
    pub fn number(&self) -> u8
        ensures { result ≡ file_number self.now }
    {
        match *self {
            FileFault::Size(_) => 1,
            FileFault::Command { start: _, fault } => fault.number(),
        }
    }

    /// The byte where the refused command starts, counted from 0, and 0 where the file's size is refused.
    // Kept: a public promise, which says 0 where there is no such byte.
    pub fn start(&self) -> usize
        ensures { result ≡ file_start self.now }
    {
        match *self {
            FileFault::Size(_) => 0,
            FileFault::Command { start, fault: _ } => start,
        }
    }
}

impl ReadFault<'_> {
    /// The number of the refusal, 1 to 6.
    // Kept: a public promise, and docs/REFUSALS.md lists the numbers.
    pub fn number(&self) -> u8
        ensures { result ≡ read_number self.now }
    {
        FileFault::from(*self).number()
    }

    /// The byte where the refused command starts, counted from 0, and 0 where the file's size is refused.
    // Kept: a public promise, which says 0 where there is no such byte.
    pub fn start(&self) -> usize
        ensures { result ≡ read_start self.now }
    {
        FileFault::from(*self).start()
    }
}

// Enters the command that starts at a byte of the file.
fn enter_at<'a>(
    book: &mut Book,
    file: &'a [u8],
    start: usize,
) -> Result<(Place, usize), CommandFault<'a>>
    requires { start ≤ length file.now }
    ensures enters { MatchResult result (λ p. Enters book.old (drop start file.now) (Ok p) book.new) (λ e. Enters book.old (drop start file.now) (Err e.fault) book.new × (e.start ≡ start) × (e.rest.now ≡ drop start file.now)) }
    ensures sound { SoundBook book.new }
{
    let rest = &file[start..];
    book.enter(rest)
        .map_err(|fault| CommandFault { fault, start, rest })
}

/// Enters the commands of a rule file in turn, and answers the place of the rule, which is its last
/// command. Refusal 1 for a file that is empty or over 4,096 bytes, which enters nothing, else 2 to 6
/// of the first refused command; the commands before it stay entered. Every call leaves the book sound.
/// docs/RULES.md, docs/REFUSALS.md.
pub fn read<'a>(book: &mut Book, file: &'a [u8]) -> Result<Place, ReadFault<'a>>
    ensures reads { Reads book.old file.now (told result) book.new }
    ensures rest { IfErr result (λ e. HandsBack file.now e) }
    ensures sound { SoundBook book.new }
{
    // asked, so that the book is known to be sound where the file's size is refused
    let _entered = book.len();
    if file.is_empty() || file.len() > MOST_BYTES {
        return Err(ReadFault::FileSize(file));
    }
    // Kept: no plainer with the rest of the file, since a fault says where its command starts.
    let mut start = 0;
    loop {
        let (place, length) = enter_at(book, file, start)?;
        start += length;
        if start >= file.len() {
            return Ok(place);
        }
    }
}
