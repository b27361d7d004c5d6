// The lines of a listing, by number.
use listing::text::{ArcLine, HeadLine, StateLine};
use lists::LongestLists;
use std::alloc::{AllocError, Global};

// How many lines there are.
pub(crate) fn line_count(head: HeadLine) -> usize {
    match head {
        HeadLine::Automaton { states, arcs, .. } => 1 + states as usize + arcs as usize,
        _ => 1,
    }
}

// The line of a number, counted from 0, if there is one.
pub(crate) fn line_at(
    heap: Global,
    lists: &LongestLists,
    head: HeadLine,
    number: usize,
) -> Result<Option<String>, AllocError> {
    if number >= line_count(head) {
        return Ok(None);
    }
    match head {
        HeadLine::Automaton { states, .. } if number > states as usize => {
            let arc = lists.arcs.get(number - states as usize - 1).copied();
            arc.map(|arc| format!(in heap; "{}", ArcLine(arc)))
                .transpose()
        }
        HeadLine::Automaton { .. } if number > 0 => {
            let state = lists.states.get(number - 1).copied();
            state
                .map(|state| format!(in heap; "{}", StateLine { number, state }))
                .transpose()
        }
        _ => Ok(Some(format!(in heap; "{head}")?)),
    }
}
