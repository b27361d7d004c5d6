// What the program says: one line for each verdict, and for each cause that there is none.
use crate::fault::NoVerdict;
use crate::judged::{Judged, Kind};
use crate::text::{Expected, TextFault};
use judging::fault::JudgeFault;
use models::fault::RecordingFault;
use models::recording::MOST_SCANS;
use rules::reading::{FileFault, MOST_BYTES};
use std::fmt;
use std::io::ErrorKind;

// A number of things, by the name of one of them.
#[derive(Clone, Copy)]
pub(crate) struct Counted(pub usize, pub &'static str);

impl fmt::Display for Counted {
    fn fmt<W: fmt::Write>(&self, f: &mut fmt::Formatter<W>) -> fmt::Result {
        let plural = if self.0 == 1 { "" } else { "s" };
        write!(f, "{} {}{plural}", self.0, self.1)
    }
}

impl fmt::Display for Kind {
    fn fmt<W: fmt::Write>(&self, f: &mut fmt::Formatter<W>) -> fmt::Result {
        match self {
            Kind::Packed => write!(f, "packed"),
            Kind::Edges => write!(f, "edges"),
        }
    }
}

impl fmt::Display for Judged {
    fn fmt<W: fmt::Write>(&self, f: &mut fmt::Formatter<W>) -> fmt::Result {
        let verdict = if self.holds { "holds" } else { "does not hold" };
        let scans = Counted(self.scans, "scan");
        write!(
            f,
            "{}, {scans}, loop start {}: {verdict}",
            self.kind, self.loop_start
        )
    }
}

// A file, and why there is no verdict of it.
#[derive(Clone, Copy)]
pub(crate) struct Sentence<'a> {
    pub file: &'a str,
    pub cause: NoVerdict,
}

// What a line should have been, as the end of a sentence.
impl fmt::Display for Expected {
    fn fmt<W: fmt::Write>(&self, f: &mut fmt::Formatter<W>) -> fmt::Result {
        match self {
            Expected::Heading => write!(f, "expected `packed loop S` or `edges N loop S`"),
            Expected::Word => write!(f, "expected a word of 1 to 16 hexadecimal digits"),
            Expected::Edge => write!(f, "expected a scan and a word, as `12 a3`"),
        }
    }
}

fn file_fault<W: fmt::Write>(
    f: &mut fmt::Formatter<W>,
    file: &str,
    kind: ErrorKind,
) -> fmt::Result {
    match kind {
        ErrorKind::NotFound => write!(f, "unreadable: there is no file {file}"),
        ErrorKind::InvalidData => write!(f, "unreadable: {file} is no text"),
        other => write!(f, "unreadable: {file}: {other}"),
    }
}

fn rule_fault<W: fmt::Write>(
    f: &mut fmt::Formatter<W>,
    file: &str,
    fault: FileFault,
) -> fmt::Result {
    let number = fault.number();
    match fault {
        FileFault::Size(size) => {
            write!(
                f,
                "refused {number}: {file} has {}; a rule file has 1 to {MOST_BYTES}",
                Counted(size, "byte")
            )
        }
        FileFault::Command { start, fault } => {
            write!(f, "refused {number} at byte {start} of {file}: {fault}")
        }
    }
}

fn text_fault<W: fmt::Write>(
    f: &mut fmt::Formatter<W>,
    file: &str,
    fault: TextFault,
) -> fmt::Result {
    match fault {
        TextFault::NoHeading => write!(f, "unreadable: {file} has no heading"),
        TextFault::Line { line, expected } => {
            write!(f, "unreadable: line {line} of {file}: {expected}")
        }
        TextFault::Memory => write!(f, "unreadable: {file}: no memory for the recording"),
    }
}

fn recording_fault<W: fmt::Write>(
    f: &mut fmt::Formatter<W>,
    file: &str,
    fault: RecordingFault,
) -> fmt::Result {
    let number = fault.number();
    match fault {
        RecordingFault::ScanCount(count) => {
            write!(
                f,
                "refused {number}: {file} has {}; a recording has 1 to {MOST_SCANS}",
                Counted(count, "scan")
            )
        }
        RecordingFault::LoopStart(start) => {
            write!(
                f,
                "refused {number}: the loop start {start} is no scan of {file}"
            )
        }
        RecordingFault::EdgeOrder(index) => {
            write!(
                f,
                "refused {number} at edge {index} of {file}, counted from 0: edges begin at scan 0, rise, and lie below the number of scans"
            )
        }
    }
}

fn judge_fault<W: fmt::Write>(
    f: &mut fmt::Formatter<W>,
    file: &str,
    fault: JudgeFault,
) -> fmt::Result {
    let number = fault.number();
    match fault {
        JudgeFault::NotInBook(place) => {
            write!(
                f,
                "refused {number} for {file}: there is no node at place {}",
                place.index
            )
        }
        JudgeFault::Short(_, needed) => {
            write!(
                f,
                "refused {number} for {file}: the work list needs {needed} words"
            )
        }
    }
}

impl fmt::Display for Sentence<'_> {
    fn fmt<W: fmt::Write>(&self, f: &mut fmt::Formatter<W>) -> fmt::Result {
        let file = self.file;
        match self.cause {
            NoVerdict::File(error) => file_fault(f, file, error.kind()),
            NoVerdict::Rule(fault) => rule_fault(f, file, fault),
            NoVerdict::Text(fault) => text_fault(f, file, fault),
            NoVerdict::Recording(fault) => recording_fault(f, file, fault),
            NoVerdict::Judge(fault) => judge_fault(f, file, fault),
            NoVerdict::Memory => write!(f, "no memory to judge {file}"),
        }
    }
}
