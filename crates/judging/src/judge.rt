// Judging the rule at a place of a book on a recording.
ghost use Rattle.std.specs.Prelude.{◌≡◌, ℕ, ◌+◌, ◌*◌, ◌<◌, ◌≤◌, length, drop, slice_index};
ghost use Rattle.judging.specs.Judging.{Judges};
ghost use Rattle.judging.specs.Tabled.{Tabled};

use crate::column::fill_column;
use crate::fault::{JudgeFault, LentList};
use crate::truths::{WORDS_PER_SCAN, clear, truth};
use models::recording::Recording;
use rules::book::Book;
use rules::node::Place;

// Fills the columns of all places up to this one, in their order, in a cleared list.
fn fill_table<R: Recording>(book: &Book, place: Place, recording: &R, work: &mut [u64])
    requires entered { place.index < length book.now }
    requires enough { 4 * length (R.meaning recording.now).words ≤ length work.old }
    requires cleared { (k : ℕ) → k < 4 * length (R.meaning recording.now).words → slice_index work.old k ≡ 0 }
    ensures table { Tabled book.now (R.meaning recording.now) (place.index + 1) work.new }
    ensures rest { drop (4 * length (R.meaning recording.now).words) work.new ≡ drop (4 * length (R.meaning recording.now).words) work.old }
{
    let end = place.index as usize + 1;
    for (index, &node) in book.nodes()[..end].iter().enumerate() {
        let at = Place {
            index: index as u16,
        };
        fill_column(node, at, recording, work);
    }
}

/// Whether the rule at a place holds of a recording, at its first scan. The work list needs 4 words for each
/// scan. Refused are a place that is not in the book (9), and then a shorter list (11), which is left as it was.
/// Else word 4 × i + j of the list has afterwards in bit b the truth of place 64 × j + b at scan i, and 0 for
/// places above the judged one; later words stay. The rule is in `docs/VERDICTS.md`.
pub fn judge<R: Recording>(
    book: &Book,
    place: Place,
    recording: &R,
    work: &mut [u64],
) -> Result<bool, JudgeFault>
    ensures { Judges book.now place (R.meaning recording.now) work.old result work.new }
{
    if place.index as usize >= book.len() {
        return Err(JudgeFault::NotInBook(place));
    }
    let needed = WORDS_PER_SCAN * recording.count();
    if work.len() < needed {
        return Err(JudgeFault::Short(LentList::Work, needed));
    }
    clear(work, needed);
    fill_table(book, place, recording, work);
    Ok(truth(work, 0, place))
}
