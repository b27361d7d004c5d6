// A case: a rule, a recording, and whether the rule holds of it.
use judging::fault::JudgeFault;
use models::fault::RecordingFault;
use rules::reading::{FileFault, ReadFault};
use std::alloc::{AllocError, Global};
use texts::{decimal, hex_word};
use thiserror::Error;

#[derive(Drop)]
pub(crate) struct Case {
    pub rule: Vec<u8>,
    pub words: Vec<u64>,
    pub loop_start: usize,
    pub holds: bool,
}

// Why a case has no verdict.
#[derive(Debug, Drop, Error)]
pub(crate) enum CaseFault {
    #[error("no case")]
    NoCase,
    // the rule file is refused
    #[error("refused {number}", number = .0.number())]
    Rule(FileFault),
    // the recording is refused
    #[error("refused {number}", number = .0.number())]
    Recording(#[from] RecordingFault),
    // the judge call is refused
    #[error("refused {number}", number = .0.number())]
    Judge(#[from] JudgeFault),
    #[error("no memory")]
    Memory(#[from(alloc)] AllocError),
}

impl From<ReadFault<'_>> for CaseFault {
    fn from(fault: ReadFault<'_>) -> CaseFault {
        CaseFault::Rule(FileFault::from(fault))
    }
}

// The words of a text, which are hexadecimal.
fn words_of(heap: Global, text: &str) -> Result<Vec<u64>, CaseFault> {
    let mut words = Vec::new(heap);
    for part in text.split_whitespace() {
        words.push(hex_word(part.as_bytes()).ok_or(CaseFault::NoCase)?)?;
    }
    Ok(words)
}

// The bytes of a text, which are hexadecimal.
fn bytes_of(heap: Global, text: &str) -> Result<Vec<u8>, CaseFault> {
    let words = words_of(heap, text)?;
    let mut bytes = Vec::new(heap);
    for &word in &words {
        bytes.push(u8::try_from(word).map_err(|_| CaseFault::NoCase)?)?;
    }
    Ok(bytes)
}

// The four parts of a line.
fn parts_of(line: &str) -> Option<(&str, &str, &str, &str)> {
    let (rule, rest) = line.split_once(" | ")?;
    let (words, rest) = rest.split_once(" | ")?;
    let (loop_start, verdict) = rest.split_once(" | ")?;
    Some((rule, words, loop_start, verdict))
}

// The case of a line: `rule bytes | words, scan by scan | loop start | yes or no`.
pub(crate) fn parse(heap: Global, line: &str) -> Result<Case, CaseFault> {
    let (rule, words, loop_start, verdict) = parts_of(line).ok_or(CaseFault::NoCase)?;
    let loop_start = decimal(loop_start.as_bytes()).ok_or(CaseFault::NoCase)?;
    let holds = match verdict {
        "yes" => true,
        "no" => false,
        _ => return Err(CaseFault::NoCase),
    };
    Ok(Case {
        rule: bytes_of(heap, rule)?,
        words: words_of(heap, words)?,
        loop_start,
        holds,
    })
}
