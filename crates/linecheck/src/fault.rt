// Why there is no verdict.
ghost use Rattle.std.specs.Prelude.{◌≡◌};
ghost use Rattle.linecheck.specs.declared.fault.NoVerdict.TheVariants.{Recording as AtRecording};

use crate::text::TextFault;
use judging::fault::JudgeFault;
use models::fault::RecordingFault;
use rules::reading::{FileFault, ReadFault};
use std::alloc::AllocError;
use std::io;

// Kept: a derive of `thiserror` is no plainer: each sentence names the file in its middle, which no fault holds, and without it nothing derives `From`.
#[derive(Clone, Copy)]
pub(crate) enum NoVerdict {
    // the file cannot be read
    File(io::Error),
    // the rule file is refused
    Rule(FileFault),
    // the text is no recording
    Text(TextFault),
    // the recording is refused
    Recording(RecordingFault),
    // the judge call is refused
    Judge(JudgeFault),
    // there is no memory for the work list
    Memory,
}

impl From<io::Error> for NoVerdict {
    fn from(error: io::Error) -> NoVerdict {
        NoVerdict::File(error)
    }
}

impl From<ReadFault<'_>> for NoVerdict {
    fn from(fault: ReadFault<'_>) -> NoVerdict {
        NoVerdict::Rule(FileFault::from(fault))
    }
}

impl From<TextFault> for NoVerdict {
    fn from(fault: TextFault) -> NoVerdict {
        NoVerdict::Text(fault)
    }
}

impl From<RecordingFault> for NoVerdict {
    ghost from_gives = { λ x y. y ≡ AtRecording x };

    fn from(fault: RecordingFault) -> NoVerdict {
        NoVerdict::Recording(fault)
    }
}

impl From<JudgeFault> for NoVerdict {
    fn from(fault: JudgeFault) -> NoVerdict {
        NoVerdict::Judge(fault)
    }
}

impl From<AllocError> for NoVerdict {
    fn from(_error: AllocError) -> NoVerdict {
        NoVerdict::Memory
    }
}
