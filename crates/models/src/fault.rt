// Why a recording is refused, in the order in which the causes are looked for.
ghost use Rattle.std.specs.Prelude.{◌≡◌};
ghost use Rattle.models.specs.Faults.{recording_number};

/// Why a recording is refused. The rule is in `docs/RECORDINGS.md`, the numbers in `docs/REFUSALS.md`.
#[derive(Clone, Copy, PartialEq, Eq, Debug)]
pub enum RecordingFault {
    /// 12: there is no scan, or there are over 65,535; this is their count
    ScanCount(usize),
    /// 13: this loop start is not below the count of the scans
    LoopStart(usize),
    /// 14: there is no edge, the first is not at scan 0, the scans do not rise, or one is not below
    /// the count; this is the first edge at fault, 0 where there is none
    EdgeOrder(usize),
}

impl RecordingFault {
    /// The number of the refusal, 12 to 14.
    // Kept: a public promise, and docs/REFUSALS.md lists the numbers.
    pub fn number(&self) -> u8
        ensures { result ≡ recording_number self.now }
    {
        match *self {
            RecordingFault::ScanCount(_) => 12,
            RecordingFault::LoopStart(_) => 13,
            RecordingFault::EdgeOrder(_) => 14,
        }
    }
}
