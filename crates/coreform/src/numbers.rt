// The numbers that places and their denials have on a draft, once they are written.
ghost use Rattle.std.specs.Prelude.{◌≡◌, ℕ, ◌<◌, Bool, None};
ghost use Rattle.coreform.specs.Remembered.{number_of, with_number};
ghost use Rattle.rules.specs.declared.table.TheConstants.{ROOM};

use rules::node::Place;
use rules::table::ROOM;

// The number of the core form of the rule at a place, and of its denial's.
#[derive(Clone, Copy)]
pub(crate) struct Pair {
    pub held: Option<u8>,
    pub denied: Option<u8>,
}

/// For each place of a book, 0 to 255, the numbers that its core form and its denial's have on a draft.
#[derive(Drop)]
pub struct Numbers {
    pairs: [Pair; ROOM],
}

impl Numbers {
    // Nothing is remembered.
    pub(crate) fn new() -> Numbers
        ensures { (polarity : Bool) (k : ℕ) → number_of result polarity k ≡ None }
    {
        Numbers {
            pairs: [Pair {
                held: None,
                denied: None,
            }; ROOM],
        }
    }

    // The number of the rule at a place (true), or of its denial (false).
    pub(crate) fn get(&self, polarity: bool, place: Place) -> Option<u8>
        ensures { result ≡ number_of self.now polarity place.index }
    {
        let pair = self.pairs.get(place.index as usize)?;
        if polarity { pair.held } else { pair.denied }
    }

    // Remembers one number more.
    pub(crate) fn set(&mut self, polarity: bool, place: Place, number: u8)
        requires { place.index < ROOM }
        ensures { (p : Bool) (k : ℕ) → number_of self.new p k ≡ with_number self.old polarity place.index number p k }
    {
        let pair = &mut self.pairs[place.index as usize];
        if polarity {
            pair.held = Some(number);
        } else {
            pair.denied = Some(number);
        }
    }
}
