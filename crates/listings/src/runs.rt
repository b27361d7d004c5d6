// Each case is a line that begins with `<` and has the bytes of a rule file, and below it the lines that are expected.
use crate::lines::{line_at, line_count};
use anyhow::anyhow;
use listing::text::HeadLine;
use lists::LongestLists;
use std::alloc::{AllocError, Global};
use std::io::{BufRead, BufReader};
use texts::hex_word;

// A case under way: the first line of its listing, how many lines have come, and whether each was as expected.
#[derive(Clone, Copy)]
struct Case {
    head: HeadLine,
    lines: usize,
    agrees: bool,
}

// Kept: the new form is no plainer: shared with `examples`, whose cases have one line, it would be a crate for two counts.
#[derive(Clone, Copy)]
struct Tally {
    cases: u64,
    expected: u64,
}

// The bytes of a text; what is no byte counts as 255, which begins no command.
// Kept: a rule of the project, the program's behavior: such a case is refused by reading, and not passed over.
fn bytes_of(heap: Global, text: &str) -> Result<Vec<u8>, AllocError> {
    let mut bytes = Vec::new(heap);
    for part in text.split_whitespace() {
        let byte = hex_word(part.as_bytes()).and_then(|word| u8::try_from(word).ok());
        bytes.push(byte.unwrap_or(255))?;
    }
    Ok(bytes)
}

fn begin_case(heap: Global, lists: &mut LongestLists, text: &str) -> Result<Case, AllocError> {
    let file = bytes_of(heap, text)?;
    let head = HeadLine::from(&lists.list_rule(file.as_slice()));
    Ok(Case {
        head,
        lines: 0,
        agrees: true,
    })
}

// The case after one more of its lines.
fn take_line(
    heap: Global,
    lists: &LongestLists,
    case: Case,
    line: &str,
) -> Result<Case, AllocError> {
    let expected = line_at(heap, lists, case.head, case.lines)?;
    Ok(Case {
        lines: case.lines.saturating_add(1),
        agrees: case.agrees && expected.is_some_and(|expected| expected.as_str() == line),
        ..case
    })
}

// Counts a case that has ended, and says where it is not as expected.
fn end_case(rt: &HostRuntime, tally: Tally, case: Option<Case>) -> anyhow::Result<Tally> {
    let Some(case) = case else {
        return Ok(tally);
    };
    let cases = tally.cases.saturating_add(1);
    let mut expected = tally.expected;
    if case.agrees && case.lines == line_count(case.head) {
        expected = expected.saturating_add(1);
    } else {
        println!(rt; "case {cases} is not as expected")?;
    }
    Ok(Tally { cases, expected })
}

// Runs the cases of standard input, and says how many are as expected.
pub(crate) fn run_cases(rt: &HostRuntime) -> anyhow::Result<()> {
    let heap = rt.alloc();
    let mut lists = LongestLists::new(heap)?;
    let mut tally = Tally {
        cases: 0,
        expected: 0,
    };
    let mut current = None;
    for line in BufReader::new(heap, rt.stdin())?.lines(heap) {
        let line = line?;
        let line = line.as_str();
        if let Some(text) = line.strip_prefix('<') {
            tally = end_case(rt, tally, current)?;
            current = Some(begin_case(heap, &mut lists, text)?);
        } else if !line.is_empty() && !line.starts_with('#') {
            if let Some(case) = current {
                current = Some(take_line(heap, &lists, case, line)?);
            }
        }
    }
    let Tally { cases, expected } = end_case(rt, tally, current)?;
    println!(rt; "{cases} cases, {expected} as expected")?;
    if expected == cases {
        Ok(())
    } else {
        Err(anyhow!("not every case is as expected"))
    }
}
