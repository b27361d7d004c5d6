// A recording: a word for each of its scans, and the scan at which its loop starts.
ghost use Rattle.std.specs.Prelude.{◌≡◌, length, slice_index};
ghost use Rattle.semantics.specs.Lassos.{Lasso, Sound};
ghost use Rattle.models.specs.Scans.{scans_check};

use crate::fault::RecordingFault;

/// How many scans a recording may have.
pub const MOST_SCANS: usize = 65_535;

/// What a recording is asked, of whatever kind. Scans are numbered from 0; bit s of a word is signal s, s from
/// 0 to 63. The rule is in `docs/RECORDINGS.md`.
pub trait Recording {
    // the words and the loop start
    ghost meaning: { Self → Lasso };

    ghost sound: { (x : Self) → Sound (meaning x) };

    /// How many scans there are, 1 to 65,535.
    fn count(&self) -> usize
        ensures { result ≡ length (meaning self.now).words };

    /// The scan that follows the last one; it is below the count.
    fn loop_start(&self) -> usize
        ensures { result ≡ (meaning self.now).start };

    /// The word of a scan, and 0 where there is no such scan.
    // Kept: a rule of the project, a public promise: it is 0 past the last scan, and no `Option`.
    fn word(&self, scan: usize) -> u64
        ensures { result ≡ slice_index (meaning self.now).words scan };
}

// Whether a recording may have so many scans and this loop start.
pub(crate) fn check_scans(count: usize, loop_start: usize) -> Result<(), RecordingFault>
    ensures { result ≡ scans_check count loop_start }
{
    if count == 0 || count > MOST_SCANS {
        return Err(RecordingFault::ScanCount(count));
    }
    if loop_start >= count {
        return Err(RecordingFault::LoopStart(loop_start));
    }
    Ok(())
}
