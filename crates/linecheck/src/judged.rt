// The verdict on one recording.
ghost use Rattle.std.specs.Prelude.{IfOk};
ghost use Rattle.linecheck.specs.Reports.{Passes, Reports, check_of, lasso_of};

use crate::fault::NoVerdict;
use crate::text::Recorded;
use judging::truths::WORDS_PER_SCAN;
use models::edges::Edges;
use models::packed::Packed;
use models::recording::Recording;
use rules::book::Book;
use rules::node::Place;
use std::alloc::Global;
use verdict::give_verdict;

// How a recording is kept.
#[derive(Clone, Copy)]
pub(crate) enum Kind {
    Packed,
    Edges,
}

// What was judged, and whether the rule holds of it.
#[derive(Clone, Copy)]
pub(crate) struct Judged {
    pub kind: Kind,
    pub scans: usize,
    pub loop_start: usize,
    pub holds: bool,
}

// The rule at a place of a book, and the heap for its work lists.
#[derive(Clone, Copy)]
pub(crate) struct Judge<'a> {
    pub heap: Global,
    pub book: &'a Book,
    pub place: Place,
}

impl Judge<'_> {
    // The verdict on a recording, and what it was judged on.
    fn judge<R: Recording>(&self, recording: &R, kind: Kind) -> Result<Judged, NoVerdict>
        ensures { IfOk result (λ told. Reports self.now.book.now self.now.place (R.meaning recording.now) told) }
    {
        let scans = recording.count();
        let mut work = vec![in self.heap; 0; WORDS_PER_SCAN * scans]?;
        let holds = give_verdict(self.book, self.place, recording, work.as_mut_slice())?;
        Ok(Judged {
            kind,
            scans,
            loop_start: recording.loop_start(),
            holds,
        })
    }

    // The verdict on a recording that a text says, once it has passed the check of its kind.
    pub(crate) fn verdict(&self, recorded: &Recorded) -> Result<Judged, NoVerdict>
        ensures passes { Passes (check_of recorded.now) result }
        ensures verdict { IfOk result (λ told. Reports self.now.book.now self.now.place (lasso_of recorded.now) told) }
    {
        match recorded {
            Recorded::Packed { words, loop_start } => {
                let words = words.as_slice();
                Packed::check(words, *loop_start)?;
                self.judge(&Packed::new(words, *loop_start), Kind::Packed)
            }
            Recorded::Edges {
                edges,
                count,
                loop_start,
            } => {
                let edges = edges.as_slice();
                Edges::check(edges, *count, *loop_start)?;
                self.judge(&Edges::new(edges, *count, *loop_start), Kind::Edges)
            }
        }
    }
}
