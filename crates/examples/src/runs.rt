// Each case is judged on its recording as a word per scan, and as a word per change.
ghost use Rattle.std.specs.Prelude.{◌≡◌, ℕ, ◌<◌, false, length, IfOk, Some, slice_index};
ghost use Rattle.models.specs.EdgeWords.{word_at};

use crate::cases::{CaseFault, parse};
use judging::judge::judge;
use judging::truths::WORDS_PER_SCAN;
use models::edges::{Edge, Edges};
use models::packed::Packed;
use models::recording::Recording;
use rules::book::Book;
use rules::node::Place;
use rules::reading::read;
use std::alloc::Global;
use std::io::{BufRead, BufReader};

// What the case expects, and what the two kinds of recording say.
#[derive(Clone, Copy)]
struct Verdicts {
    expected: bool,
    packed: bool,
    edges: bool,
}

// An edge at each scan where the word changes.
fn changes(heap: Global, words: &[u64]) -> Result<Vec<Edge>, CaseFault>
    ensures { IfOk result (λ edges. (k : ℕ) → k < length words.now → word_at edges.items k ≡ slice_index words.now k) }
{
    let mut edges = Vec::new(heap);
    let mut last = None;
    for (scan, &word) in words.iter().enumerate() {
        if last != Some(word) {
            edges.push(Edge { scan, word })?;
            last = Some(word);
        }
    }
    Ok(edges)
}

// Whether the rule at a place holds of a recording.
// Kept: the new form is no plainer: a crate for two lines, and `linecheck` gives its verdict under the law.
fn holds<R: Recording>(
    heap: Global,
    book: &Book,
    place: Place,
    recording: &R,
) -> Result<bool, CaseFault> {
    let mut work = vec![in heap; 0; WORDS_PER_SCAN * recording.count()]?;
    Ok(judge(book, place, recording, work.as_mut_slice())?)
}

// The verdicts on the case of a line.
fn verdicts_of(heap: Global, line: &str) -> Result<Verdicts, CaseFault> {
    let case = parse(heap, line)?;
    let mut book = Book::new();
    let place = read(&mut book, case.rule.as_slice())?;
    let words = case.words.as_slice();
    let start = case.loop_start;
    Packed::check(words, start)?;
    let edges = changes(heap, words)?;
    Edges::check(edges.as_slice(), words.len(), start)?;
    Ok(Verdicts {
        expected: case.holds,
        packed: holds(heap, &book, place, &Packed::new(words, start))?,
        edges: holds(
            heap,
            &book,
            place,
            &Edges::new(edges.as_slice(), words.len(), start),
        )?,
    })
}

// Runs the case of a line, says where it is not as expected, and answers whether it is.
fn run_line(rt: &HostRuntime, line: &str) -> anyhow::Result<bool> {
    match verdicts_of(rt.alloc(), line) {
        Ok(told) if told.packed == told.expected && told.edges == told.expected => return Ok(true),
        Ok(Verdicts { packed, edges, .. }) => println!(rt;
            "{line}: packed says {packed}, edges say {edges}"
        )?,
        Err(fault) => println!(rt; "{line}: {fault}")?,
    }
    Ok(false)
}

// Runs the cases of standard input, says how many are as expected, and answers whether all are.
pub(crate) fn run_cases(rt: &HostRuntime) -> anyhow::Result<bool> {
    let mut cases = 0u64;
    let mut expected = 0u64;
    for line in BufReader::new(rt.alloc(), rt.stdin())?.lines(rt.alloc()) {
        let line = line?;
        let line = line.as_str();
        if line.starts_with('#') {
            continue;
        }
        cases = cases.saturating_add(1);
        if run_line(rt, line)? {
            expected = expected.saturating_add(1);
        }
    }
    println!(rt; "{cases} cases, {expected} as expected")?;
    Ok(expected == cases)
}
