// A recording with a word per scan.
ghost use Rattle.std.specs.Prelude.{◌≡◌, ℕ, ◌^◌, ◌<◌, true, is_ok, slice_index};
ghost use Rattle.models.specs.PackedWords.{packed_check, of_packed, packed_of};
ghost use Rattle.models.specs.Soundness.{packed_sound};

use crate::fault::RecordingFault;
use crate::recording::{Recording, check_scans};

/// A recording with a word per scan (1 to 65,535 of them), and the loop start. Bit s of a word is signal s,
/// s from 0 to 63. The rule is in `docs/RECORDINGS.md`.
#[derive(Drop)]
pub struct Packed<'a> {
    words: &'a [u64],
    loop_start: usize,
    ghost passed: { is_ok (packed_check words.now loop_start) ≡ true },
    ghost small: { (k : ℕ) → slice_index words.now k < 2 ^ 64 },
}

impl<'a> Packed<'a> {
    /// Whether these words and this loop start are a recording. Refused are no word or over 65,535 (12), and
    /// then a loop start that is not below their count (13). The rule is in `docs/RECORDINGS.md`.
    pub fn check(words: &[u64], loop_start: usize) -> Result<(), RecordingFault>
        ensures { result ≡ packed_check words.now loop_start }
    {
        check_scans(words.len(), loop_start)
    }

    /// The recording of these words; where `check` refuses them, one scan of the word 0, which loops.
    pub fn new(words: &'a [u64], loop_start: usize) -> Packed<'a>
        ensures { of_packed result.words.now result.loop_start ≡ packed_of words.now loop_start }
    {
        match Packed::check(words, loop_start) {
            Ok(()) => Packed { words, loop_start },
            Err(_) => Packed {
                words: &[0],
                loop_start: 0,
            },
        }
    }
}

impl Recording for Packed<'_> {
    ghost meaning = { λ p. of_packed p.words.now p.loop_start };

    ghost sound = { λ p. packed_sound p.words.now p.loop_start p.passed p.small };

    fn count(&self) -> usize {
        self.words.len()
    }

    fn loop_start(&self) -> usize {
        self.loop_start
    }

    fn word(&self, scan: usize) -> u64 {
        self.words.get(scan).copied().unwrap_or(0)
    }
}
