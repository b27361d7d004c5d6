// One verdict, by whichever call and in whichever log it is given.
#![tactic(auto)]

ghost use Rattle.judging.specs.Judging.{Judges};
ghost use Rattle.verdict.specs.Law.{OneVerdict};
ghost use Rattle.verdict.specs.Worked.{WorkedTable};

use judging::fault::JudgeFault;
use judging::judge::judge;
use models::recording::Recording;
use rules::book::Book;
use rules::node::Place;

// The law over all logs stands, and so does the table worked on paper.
fn law_stands()
    ensures law { OneVerdict }
    ensures worked { WorkedTable }
{}

/// Judges the rule at a place of the book on a recording, at its first scan. Its contract has the law over all
/// logs and the table worked on paper. The work list needs 4 words for each scan of the recording. Refused are a
/// place at which nothing is entered (9), and then a shorter list (11), which is left as it was. The rule is in
/// `docs/VERDICTS.md`.
pub fn give_verdict<R: Recording>(
    book: &Book,
    place: Place,
    recording: &R,
    work: &mut [u64],
) -> Result<bool, JudgeFault>
    ensures judged { Judges book.now place (R.meaning recording.now) work.old result work.new }
    ensures law { OneVerdict }
    ensures worked { WorkedTable }
{
    law_stands();
    judge(book, place, recording, work)
}

#[cfg(test)]
mod tests {
    use super::give_verdict;
    use models::packed::Packed;
    use rules::book::Book;
    use rules::reading::read;
    use std::test::Fail;

    // Reads a rule file and judges it on the words with the loop start.
    fn judged(
        file: &[u8],
        words: &[u64],
        loop_start: usize,
        work: &mut [u64],
    ) -> Result<bool, Fail> {
        let mut book = Book::new();
        let Ok(place) = read(&mut book, file) else {
            return Err(Fail::new("the rule is refused"));
        };
        let recording = Packed::new(words, loop_start);
        Ok(give_verdict(&book, place, &recording, work)?)
    }

    const UNTIL: [u8; 11] = [0x10, 0, 0, 0x10, 0, 1, 0x25, 0, 0, 0, 1];

    #[test]
    fn judgments_worked_on_paper(rt: HostRuntime) -> Result<(), Fail> {
        let mut work = [0; 12];
        let weak = [0x10, 0, 0, 0x10, 0, 1, 0x27, 0, 0, 0, 1];
        let often = [0x10, 0, 0, 0x13, 0, 0, 0x14, 0, 1];
        assert_eq!(rt; judged(&UNTIL, &[1, 1, 2], 2, &mut work)?, true);
        assert_eq!(rt; judged(&UNTIL, &[1], 0, &mut work)?, false);
        assert_eq!(rt; judged(&weak, &[1], 0, &mut work)?, true);
        assert_eq!(rt; judged(&often[0..6], &[1, 0], 1, &mut work)?, true);
        assert_eq!(rt; judged(&often, &[1, 0], 1, &mut work)?, false);
        Ok(())
    }

    // One sweep from the last scan back would miss that p0 until p1 holds at scan 1.
    #[test]
    fn until_looks_around_the_loop(rt: HostRuntime) -> Result<(), Fail> {
        let mut work = [0; 8];
        assert_eq!(rt; judged(&UNTIL, &[2, 1], 0, &mut work)?, true);
        assert_eq!(rt; (work[0], work[4]), (0b110, 0b101));
        Ok(())
    }
}
