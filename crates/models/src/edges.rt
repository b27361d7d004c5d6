// A recording with a word per change.
ghost use Rattle.std.specs.Prelude.{◌≡◌, true, is_ok};
ghost use Rattle.models.specs.EdgeWords.{Smalls, edge_fault, order_check, word_at, edges_check, of_edges, edges_of};
ghost use Rattle.models.specs.Soundness.{edges_sound};

use crate::fault::RecordingFault;
use crate::recording::{Recording, check_scans};

/// From this scan on, up to the next edge, the word is this one. Bit s of the word is signal s, s from 0 to 63.
#[derive(Clone, Copy, PartialEq, Eq, Debug)]
pub struct Edge {
    pub scan: usize,
    pub word: u64,
}

/// A recording with a word per change: the edges in the order of their scans, how many scans there are
/// (1 to 65,535), and the loop start. The rule is in `docs/RECORDINGS.md`.
#[derive(Drop)]
pub struct Edges<'a> {
    edges: &'a [Edge],
    count: usize,
    loop_start: usize,
    ghost passed: { is_ok (edges_check edges.now count loop_start) ≡ true },
    ghost small: { Smalls edges.now },
}

// Refuses the first edge at fault: the first is at scan 0, each other after the one before, and all below the count.
fn check_order(edges: &[Edge], count: usize) -> Result<(), RecordingFault>
    ensures value { result ≡ order_check (edge_fault count edges.now) }
    ensures small { is_ok result ≡ true → Smalls edges.now }
{
    if edges.is_empty() || edges[0].scan != 0 {
        return Err(RecordingFault::EdgeOrder(0));
    }
    // Kept: the new form is no plainer: each edge is compared with the one before it, which a chain would have to carry.
    let mut low = 0;
    for (index, &edge) in edges.iter().enumerate() {
        if edge.scan < low || edge.scan >= count {
            return Err(RecordingFault::EdgeOrder(index));
        }
        low = edge.scan + 1;
    }
    Ok(())
}

impl<'a> Edges<'a> {
    /// Whether these edges, with this count of scans and this loop start, are a recording. Refused are, in
    /// this order, a count that is 0 or over 65,535 (12), a loop start that is not below the count (13), and
    /// edges of which the first is not at scan 0, or that do not rise, or that reach the count (14). The words
    /// of edges that pass have 64 bits. The rule is in `docs/RECORDINGS.md`.
    pub fn check(edges: &[Edge], count: usize, loop_start: usize) -> Result<(), RecordingFault>
        ensures value { result ≡ edges_check edges.now count loop_start }
        ensures small { is_ok result ≡ true → Smalls edges.now }
    {
        check_scans(count, loop_start)?;
        check_order(edges, count)
    }

    /// The recording of these edges; where `check` refuses them, one scan of the word 0, which loops.
    pub fn new(edges: &'a [Edge], count: usize, loop_start: usize) -> Edges<'a>
        ensures { of_edges result.edges.now result.count result.loop_start ≡ edges_of edges.now count loop_start }
    {
        match Edges::check(edges, count, loop_start) {
            Ok(()) => Edges {
                edges,
                count,
                loop_start,
            },
            Err(_) => Edges {
                edges: &[Edge { scan: 0, word: 0 }],
                count: 1,
                loop_start: 0,
            },
        }
    }

    // The word of the last edge at or before the scan.
    fn word_at(&self, scan: usize) -> u64
        ensures { result ≡ word_at self.now.edges.now scan }
    {
        // the first edge is at scan 0, so that only those after it are searched
        let later = self.edges[1..].partition_point(|edge| edge.scan <= scan);
        self.edges[later].word
    }
}

#[tactic(auto, using(crate::proofs::Unrolled::edge_words))]
impl Recording for Edges<'_> {
    ghost meaning = { λ p. of_edges p.edges.now p.count p.loop_start };

    ghost sound = { λ p. edges_sound p.edges.now p.count p.loop_start p.passed p.small };

    fn count(&self) -> usize {
        self.count
    }

    fn loop_start(&self) -> usize {
        self.loop_start
    }

    fn word(&self, scan: usize) -> u64 {
        if scan < self.count {
            self.word_at(scan)
        } else {
            0
        }
    }
}
