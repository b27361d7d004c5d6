// Why a judge call is refused.
ghost use Rattle.std.specs.Prelude.{◌≡◌};
ghost use Rattle.judging.specs.Refusals.{judge_number};

use rules::node::Place;

/// A list that the caller lends.
// Kept: a rule of the project: each crate names the lists that its own calls are lent, here one.
#[derive(Clone, Copy, PartialEq, Eq, Debug)]
pub enum LentList {
    Work,
}

/// Why a judge call is refused, in the order in which the causes are looked for. The numbers are those of
/// `docs/REFUSALS.md`.
#[derive(Clone, Copy, PartialEq, Eq, Debug)]
pub enum JudgeFault {
    /// 9: nothing is entered at this place
    // Kept: a public promise: the refusal carries the place.
    NotInBook(Place),
    /// 11: this list is shorter than the length that it needs, in words
    // Kept: a public promise: the fault has the list and its length.
    Short(LentList, usize),
}

impl JudgeFault {
    /// The number of the refusal, 9 or 11.
    pub fn number(&self) -> u8
        ensures { result ≡ judge_number self.now }
    {
        // Kept: a public promise, and docs/REFUSALS.md lists the numbers.
        match *self {
            JudgeFault::NotInBook(_) => 9,
            JudgeFault::Short(_, _) => 11,
        }
    }
}
