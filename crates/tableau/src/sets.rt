// Sets of core numbers.
// Kept: no plainer: numbers inside a core node are plain `u8`, so a type for k < 64 would be made anew at each use.
// Kept: a rule of the project: as methods of `CoreSet` these would be public of its crate, and no public function has a `requires`.
ghost use Rattle.std.specs.Prelude.{◌≡◌, ◌<◌};
ghost use Rattle.automata.specs.Sets.{has, insert as inserted, remove as removed, lowest as lowest_of, join as joined};

use automata::nodes::CoreSet;

// Whether a number is a member.
// Kept: the new form is no plainer: judging's `is_on` asks its own words, and no crate with code below both has bits of words.
#[tactic(auto, using(std::proofs::lemmas::Nat::and_mask))]
pub(crate) fn contains(members: CoreSet, k: u8) -> bool
    requires { k < 64 }
    ensures { result ≡ has members k }
{
    (members.bits >> k) & 1 == 1
}

// A number joins.
pub(crate) fn insert(members: CoreSet, k: u8) -> CoreSet
    requires { k < 64 }
    ensures { result ≡ inserted members k }
{
    CoreSet {
        bits: members.bits | (1 << k),
    }
}

// A member leaves.
pub(crate) fn remove(members: CoreSet, k: u8) -> CoreSet
    requires { k < 64 }
    ensures { result ≡ removed members k }
{
    CoreSet {
        bits: members.bits ^ (1 << k),
    }
}

// The lowest member of a set that is not empty.
pub(crate) fn lowest(members: CoreSet) -> u8
    requires { 0 < members.bits }
    ensures lowest { result ≡ lowest_of members }
    ensures small { result < 64 }
{
    members.bits.trailing_zeros() as u8
}

// A number joins the new ones unless it is an old one.
pub(crate) fn join(k: u8, old: CoreSet, new: CoreSet) -> CoreSet
    requires { k < 64 }
    ensures { result ≡ joined k old new }
{
    if contains(old, k) {
        new
    } else {
        insert(new, k)
    }
}
