// The work list: four words for each scan, with a bit for each place of a book.
ghost use Rattle.std.specs.Prelude.{◌≡◌, ℕ, ◌+◌, ◌*◌, ◌/◌, ◌%◌, ◌^◌, ◌<◌, ◌≤◌, length, drop, ◌==◌, bit_or, slice_index, slice_set};
ghost use Rattle.semantics.specs.Meaning.{bit};
ghost use Rattle.judging.specs.Truths.{told, word_of, bit_of};

use rules::node::Place;

/// How many words of the work list a scan has: 256 bits, one for each place of a book. The rule is in
/// `docs/VERDICTS.md`.
pub const WORDS_PER_SCAN: usize = 4;

// Whether a bit of a word is on.
pub(crate) fn is_on(word: u64, at: usize) -> bool
    requires { at < 64 }
    ensures { result ≡ (bit word at == 1) }
{
    (word >> at) & 1 == 1
}

// What the list says of a place at a scan.
// Kept: the new form is no plainer: a type of a place below 256 would be made anew for each operand.
pub(crate) fn truth(work: &[u64], scan: usize, place: Place) -> bool
    requires enough { 4 * scan + 4 ≤ length work.now }
    requires few { place.index < 256 }
    ensures { result ≡ told work.now scan place.index }
{
    let index = place.index as usize;
    is_on(work[WORDS_PER_SCAN * scan + index / 64], index % 64)
}

// Notes that a place is true at a scan.
// Kept: the new form is no plainer: a type of a place below 256 would be made anew for each operand.
pub(crate) fn note(work: &mut [u64], scan: usize, place: Place)
    requires enough { 4 * scan + 4 ≤ length work.old }
    requires few { place.index < 256 }
    ensures { work.new ≡ slice_set work.old (word_of scan place.index) (bit_or (slice_index work.old (word_of scan place.index)) (2 ^ bit_of place.index)) }
{
    let index = place.index as usize;
    let at = WORDS_PER_SCAN * scan + index / 64;
    work[at] |= 1 << (index % 64);
}

// Sets the first words of the list to 0.
pub(crate) fn clear(work: &mut [u64], words: usize)
    requires { words ≤ length work.old }
    ensures cleared { (k : ℕ) → k < words → slice_index work.new k ≡ 0 }
    ensures rest { drop words work.new ≡ drop words work.old }
{
    work[..words].fill(0);
}
