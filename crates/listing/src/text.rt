// The text of a listing: a line for what became of a rule file, and one for each state and arc.
ghost use Rattle.std.specs.Prelude.{◌≡◌, Some};
ghost use Rattle.listing.specs.Texts.{head_of, head_text, state_text, arc_text};

use crate::fault::ListFault;
use crate::outcome::Listed;
use automata::items::{Arc, State};
use std::fmt;
use tableau::translation::Lack;

/// The first line of a listing (docs/FORMATS.md).
#[derive(Clone, Copy, PartialEq, Eq, Debug)]
pub enum HeadLine {
    /// `A states arcs mark-sets steps`: the counts of an automaton, in decimal
    Automaton {
        states: u16,
        arcs: u16,
        sets: u8,
        steps: u32,
    },
    /// `N lack`: there is no room for the next step
    NoRoom(Lack),
    /// `R number stage byte`: the refusal's number, `read` or `begin`, and the byte where the refused command
    /// starts
    Refused(ListFault),
}

/// The first line of what becomes of a rule file.
impl From<&Result<Listed, ListFault>> for HeadLine {
    ghost from_gives = { λ answer line. line ≡ head_of answer.now };

    fn from(answer: &Result<Listed, ListFault>) -> HeadLine {
        match answer {
            Ok(Listed::Finished(finished)) => {
                let totals = finished.totals();
                HeadLine::Automaton {
                    states: totals.states(),
                    arcs: totals.arcs(),
                    sets: totals.mark_sets(),
                    steps: totals.steps(),
                }
            }
            Ok(Listed::NoRoom(_, lack)) => HeadLine::NoRoom(*lack),
            Err(fault) => HeadLine::Refused(*fault),
        }
    }
}

impl fmt::Display for HeadLine {
    ghost output = { λ line. Some (head_text line) };

    fn fmt<W: fmt::Write>(&self, f: &mut fmt::Formatter<W>) -> fmt::Result {
        match self {
            HeadLine::Automaton {
                states,
                arcs,
                sets,
                steps,
            } => write!(f, "A {states} {arcs} {sets} {steps}"),
            HeadLine::NoRoom(lack) => write!(f, "N {lack}"),
            HeadLine::Refused(fault) => write!(
                f,
                "R {} {} {}",
                fault.number(),
                fault.stage(),
                fault.start()
            ),
        }
    }
}

/// `S number on off marks`: a state, by its number from 1; the signals that are on and off in it, and its marks,
/// in lower-case hexadecimal (docs/FORMATS.md).
#[derive(Clone, Copy, PartialEq, Eq, Debug)]
pub struct StateLine {
    pub number: usize,
    pub state: State,
}

impl fmt::Display for StateLine {
    ghost output = { λ line. Some (state_text line.number line.state) };

    fn fmt<W: fmt::Write>(&self, f: &mut fmt::Formatter<W>) -> fmt::Result {
        write!(
            f,
            "S {} {:x} {:x} {:x}",
            self.number, self.state.on, self.state.off, self.state.marks
        )
    }
}

/// `E from to`: an arc, from a state or from 0 for the start (docs/FORMATS.md).
#[derive(Clone, Copy, PartialEq, Eq, Debug)]
pub struct ArcLine(pub Arc);

impl fmt::Display for ArcLine {
    ghost output = { λ line. Some (arc_text line.0) };

    fn fmt<W: fmt::Write>(&self, f: &mut fmt::Formatter<W>) -> fmt::Result {
        write!(f, "E {} {}", self.0.from, self.0.to)
    }
}
