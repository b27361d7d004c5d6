// One place of a book at all scans of a recording: a column of the work list.
ghost use Rattle.std.specs.Prelude.{◌≡◌, ℕ, ◌*◌, ◌<◌, ◌≤◌, true, false, length, drop, Decides, ◌≢◌, slice_index};
ghost use Rattle.rules.specs.Tables.{fits_at};
ghost use Rattle.semantics.specs.Lassos.{following};
ghost use Rattle.semantics.specs.Solutions.{Solution};
ghost use Rattle.judging.specs.Columns.{hold_on, pass_on, Column};
ghost use Rattle.judging.specs.Truths.{told};
ghost use Rattle.judging.specs.Turns.{node_hold, node_pass, lasts_of};

use crate::truths::{is_on, note, truth};
use crate::turn::{Turn, binary_turn, denies, lasts, unary_turn};
use models::recording::Recording;
use rules::node::{Node, Place};

// The scan after a scan.
fn next_scan<R: Recording>(recording: &R, scan: usize) -> usize
    requires { scan < length (R.meaning recording.now).words }
    ensures { result ≡ following (length (R.meaning recording.now).words) (R.meaning recording.now).start scan }
{
    if scan + 1 < recording.count() {
        scan + 1
    } else {
        recording.loop_start()
    }
}

// The turn of a node at a scan, from the truths of its operands.
// Kept: the new form is no plainer: a list lent to be read would be of a type of its own, beside the one that is written.
fn turn_at<R: Recording>(node: Node, recording: &R, work: &[u64], scan: usize) -> Turn
    requires fits { fits_at node 256 ≡ true }
    requires inside { scan < length (R.meaning recording.now).words }
    requires enough { 4 * length (R.meaning recording.now).words ≤ length work.now }
    ensures hold { result.hold ≡ node_hold node (slice_index (R.meaning recording.now).words scan) (told work.now scan) (told work.now (following (length (R.meaning recording.now).words) (R.meaning recording.now).start scan)) }
    ensures pass { result.pass ≡ node_pass node (told work.now scan) }
{
    match node {
        Node::True => Turn {
            hold: true,
            pass: false,
        },
        Node::False => Turn {
            hold: false,
            pass: false,
        },
        Node::Signal(s) => Turn {
            hold: is_on(recording.word(scan), s as usize),
            pass: false,
        },
        Node::Unary(op, a) => {
            let next = next_scan(recording, scan);
            unary_turn(op, truth(work, scan, a), truth(work, next, a))
        }
        Node::Binary(op, a, b) => binary_turn(op, truth(work, scan, a), truth(work, scan, b)),
    }
}

// What the turns of a node say beyond the last scan: one turn of the loop is enough to know.
// Kept: the new form is no plainer: `fill_column` knows more of its node, and would make a node that fits 256 for these two.
fn first_sweep<R: Recording>(node: Node, recording: &R, work: &[u64]) -> bool
    requires fits { fits_at node 256 ≡ true }
    requires enough { 4 * length (R.meaning recording.now).words ≤ length work.now }
    ensures { Decides result (Solution (hold_on node (R.meaning recording.now) work.now) (pass_on node (R.meaning recording.now) work.now) (lasts_of node) (length (R.meaning recording.now).words)) }
{
    // Kept: the new form is no plainer: a sweep carries a value from each scan to the one before it.
    let mut value = lasts(node);
    for scan in (recording.loop_start()..recording.count()).rev() {
        value = turn_at(node, recording, work, scan).before(value);
    }
    value
}

// Writes the column of a place, which is empty before, from those of its operands.
// Kept: the new form is no plainer: with the list in a type, each function that writes would promise its length and its loan.
// Kept: the new form is no plainer: a type of a place below 256 would be made anew for each operand.
pub(crate) fn fill_column<R: Recording>(node: Node, place: Place, recording: &R, work: &mut [u64])
    requires few { place.index < 256 }
    requires lower { fits_at node place.index ≡ true }
    requires enough { 4 * length (R.meaning recording.now).words ≤ length work.old }
    requires empty { (i : ℕ) → i < length (R.meaning recording.now).words → told work.old i place.index ≡ false }
    ensures column { (i : ℕ) → i < length (R.meaning recording.now).words → Decides (told work.new i place.index) (Column node (R.meaning recording.now) work.old i) }
    ensures others { (i q : ℕ) → i < length (R.meaning recording.now).words → q < 256 → (q ≢ place.index) → told work.new i q ≡ told work.old i q }
    ensures rest { drop (4 * length (R.meaning recording.now).words) work.new ≡ drop (4 * length (R.meaning recording.now).words) work.old }
{
    let denied = denies(node);
    // Kept: the new form is no plainer: a sweep that also writes into the list that it reads.
    let mut value = first_sweep(node, recording, work);
    for scan in (0..recording.count()).rev() {
        value = turn_at(node, recording, work, scan).before(value);
        if value != denied {
            note(work, scan, place);
        }
    }
}
