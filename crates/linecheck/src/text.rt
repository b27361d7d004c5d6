// The text of a recording: a heading, and then a line for each word or each edge.
ghost use Rattle.linecheck.specs.Lines.{EdgeLine, HeadingLine};

use models::edges::Edge;
use std::alloc::{AllocError, AllocFailed, Global};
use texts::{decimal, hex_word};

// What the heading says.
#[derive(Clone, Copy)]
pub(crate) enum Heading {
    Packed { loop_start: usize },
    Edges { count: usize, loop_start: usize },
}

// A recording as its text says it, which no check has passed yet.
#[derive(Drop)]
pub(crate) enum Recorded {
    Packed {
        words: Vec<u64>,
        loop_start: usize,
    },
    Edges {
        edges: Vec<Edge>,
        count: usize,
        loop_start: usize,
    },
}

// What a line should have been.
#[derive(Clone, Copy)]
pub(crate) enum Expected {
    Heading,
    Word,
    Edge,
}

// Why a text is no recording.
// Kept: a derive of `thiserror` is no plainer: each sentence names the file in its middle, which no fault holds.
#[derive(Clone, Copy)]
pub(crate) enum TextFault {
    // every line is blank or a comment
    NoHeading,
    // this line, counted from 1, is not what it should be
    Line { line: usize, expected: Expected },
    // there is no memory for the recording
    Memory,
}

impl From<AllocError> for TextFault {
    fn from(_error: AllocError) -> TextFault {
        TextFault::Memory
    }
}

impl<T: Drop> From<AllocFailed<T>> for TextFault {
    fn from(_error: AllocFailed<T>) -> TextFault {
        TextFault::Memory
    }
}

// Whether a line says nothing: it is blank, or begins with `#`.
fn is_silent(line: &str) -> bool {
    line.starts_with('#') || line.trim().is_empty()
}

// What a line says as a heading, if it says one.
// Kept: the new form is no plainer: as `FromStr` it would have an error, which says no more than `None`.
fn heading_of(line: &str) -> Option<Heading>
    ensures { HeadingLine line.now result }
{
    if let Some(digits) = line.strip_prefix("packed loop ") {
        let loop_start = decimal(digits.as_bytes())?;
        return Some(Heading::Packed { loop_start });
    }
    let rest = line.strip_prefix("edges ")?;
    let (front, back) = rest.split_once(" loop ")?;
    let count = decimal(front.as_bytes())?;
    let loop_start = decimal(back.as_bytes())?;
    Some(Heading::Edges { count, loop_start })
}

// The edge that a line says, if it says one.
// Kept: the new form is no plainer: `Edge` is of another crate, so that `FromStr` would need a type around it.
fn edge_of(line: &str) -> Option<Edge>
    ensures { EdgeLine line.now result }
{
    let (front, back) = line.split_once(' ')?;
    let scan = decimal(front.as_bytes())?;
    let word = hex_word(back.as_bytes())?;
    Some(Edge { scan, word })
}

// The heading, which is the first line that says something, and the number of its line, counted from 1.
fn first_line(text: &str) -> Result<(usize, Heading), TextFault> {
    let (index, line) = text
        .lines()
        .enumerate()
        .find(|(_, line)| !is_silent(line))
        .ok_or(TextFault::NoHeading)?;
    let line_number = index + 1;
    let fault = TextFault::Line {
        line: line_number,
        expected: Expected::Heading,
    };
    Ok((line_number, heading_of(line.trim_end()).ok_or(fault)?))
}

// The entries of the lines that follow the first ones, each as `entry` reads it.
fn entries_after<T: Drop, F: Fn(&str) -> Option<T>>(
    heap: Global,
    text: &str,
    first: usize,
    expected: Expected,
    entry: F,
) -> Result<Vec<T>, TextFault>
    requires { F.IsAlwaysCallable entry }
{
    let mut entries = Vec::new(heap);
    for (index, line) in text.lines().enumerate().skip(first) {
        if !is_silent(line) {
            let fault = TextFault::Line {
                line: index + 1,
                expected,
            };
            entries.push(entry(line.trim_end()).ok_or(fault)?)?;
        }
    }
    Ok(entries)
}

// The recording that a text says.
pub(crate) fn parse(heap: Global, text: &str) -> Result<Recorded, TextFault> {
    let (first, heading) = first_line(text)?;
    match heading {
        Heading::Packed { loop_start } => {
            let words = entries_after(
                heap,
                text,
                first,
                Expected::Word,
                |line| hex_word(line.as_bytes()),
            )?;
            Ok(Recorded::Packed { words, loop_start })
        }
        Heading::Edges { count, loop_start } => {
            let edges = entries_after(heap, text, first, Expected::Edge, edge_of)?;
            Ok(Recorded::Edges {
                edges,
                count,
                loop_start,
            })
        }
    }
}
