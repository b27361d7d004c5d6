// A translation: how far it has come, and what of each lent list is in use.
ghost use Rattle.std.specs.Prelude.{◌≤◌, Some};
ghost use Rattle.tableau.specs.declared.limits.TheConstants.{MOST_CORES, MOST_UNTILS, MOST_STATES, MOST_ARCS, MOST_PENDING};
ghost use Rattle.tableau.specs.Texts.{lack_text};

use crate::fault::ShortFault;
use std::fmt;

pub mod ended;
pub mod numbers;
pub mod underway;

/// What is told of each translation: the nodes of its core form and its mark sets, the steps made
/// since it began, and how many entries of the lists of states and of arcs are in use.
#[derive(Clone, Copy, PartialEq, Eq, Debug)]
pub struct Totals {
    pub(crate) cores: u8,
    pub(crate) sets: u8,
    pub(crate) steps: u32,
    pub(crate) states: u16,
    pub(crate) arcs: u16,
    ghost few_cores: { cores ≤ MOST_CORES },
    ghost few_sets: { sets ≤ MOST_UNTILS },
    ghost few_states: { states ≤ MOST_STATES },
    ghost few_arcs: { arcs ≤ MOST_ARCS },
}

/// A translation that is still running, with 0 to 1,024 pending items. It is handed on from call to
/// call, and cannot be copied.
#[derive(Drop)]
pub struct Running {
    pub(crate) totals: Totals,
    pub(crate) pending: u16,
    ghost few_pending: { pending ≤ MOST_PENDING },
}

/// A translation whose automaton is made: nothing is pending.
#[derive(Drop)]
pub struct Finished {
    pub(crate) totals: Totals,
}

/// What there is no room for: the first of these four. It is printed as `steps`, `states`, `arcs` or `pending`.
#[derive(Clone, Copy, PartialEq, Eq, Debug)]
pub enum Lack {
    Steps,
    States,
    Arcs,
    Pending,
}

impl fmt::Display for Lack {
    ghost output = { λ lack. Some (lack_text lack) };

    fn fmt<W: fmt::Write>(&self, f: &mut fmt::Formatter<W>) -> fmt::Result {
        match self {
            Lack::Steps => write!(f, "steps"),
            Lack::States => write!(f, "states"),
            Lack::Arcs => write!(f, "arcs"),
            Lack::Pending => write!(f, "pending"),
        }
    }
}

/// What a call of step comes to where it is not refused. See docs/TRANSLATION.md.
#[derive(Drop)]
pub enum Progress {
    /// nothing is pending: the states and arcs in use are the automaton
    Finished(Finished),
    /// the allowance is spent
    Running(Running),
    /// the next step needs more than there is; the translation as it was before it
    NoRoom(Running, Lack),
}

/// A refused step (11) hands the translation back.
#[derive(Drop)]
pub struct StepRefused {
    pub translation: Running,
    pub fault: ShortFault,
}
