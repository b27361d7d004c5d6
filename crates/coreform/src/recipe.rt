// How the core form of a node is written, from the numbers of its operands.
ghost use Rattle.std.specs.Prelude.{◌≡◌, ◌+◌, ◌<◌, ◌≤◌, [], ◌∷◌, ◌++◌, length, take};
ghost use Rattle.coreform.specs.declared.recipe.TheConstants.{MOST_RECIPE_STEPS};

use automata::nodes::CoreNode;
use rules::node::Place;

/// One step; the numbers that the steps before it answered are counted from 0. See docs/TRANSLATION.md.
// Kept: a rule of the project: `recipe_of` would hand out closures, which the gate refuses.
#[derive(Clone, Copy, PartialEq, Eq, Debug)]
pub enum Step {
    /// write the rule at a place (true), or its denial (false)
    // Kept: an enum of polarities is no plainer, for `core_of` and its laws take a Bool.
    Write(Place, bool),
    /// put a node, whose operands are given by the steps that answered their numbers
    Put(CoreNode),
}

/// The most steps that a recipe may have.
pub const MOST_RECIPE_STEPS: usize = 7;

/// The steps for one node, at most 7: the last one answers its number.
// Kept: no vector of the kit is `Copy`, which a recipe is.
#[derive(Clone, Copy)]
pub struct Recipe {
    pub steps: [Step; MOST_RECIPE_STEPS],
    pub count: usize,
    ghost few: { count ≤ MOST_RECIPE_STEPS },
}

impl Recipe {
    // A recipe without steps.
    pub(crate) fn new() -> Recipe
        ensures { result.count ≡ 0 }
    {
        // the step of zeros fills the unused places fastest
        Recipe {
            steps: [Step::Write(Place { index: 0 }, false); MOST_RECIPE_STEPS],
            count: 0,
        }
    }

    // One step more.
    #[tactic(auto, using(std::proofs::lemmas::List::take_more_set))]
    pub(crate) fn push(&mut self, step: Step)
        requires { self.old.count < MOST_RECIPE_STEPS }
        ensures count { self.new.count ≡ self.old.count + 1 }
        ensures steps { take self.new.count self.new.steps ≡ take self.old.count self.old.steps ++ step ∷ [] }
    {
        self.steps[self.count] = step;
        self.count += 1;
    }

    // The steps, at most 7.
    pub(crate) fn as_slice(&self) -> &[Step]
        ensures value { result.now ≡ take self.now.count self.now.steps }
        ensures few { length result.now ≤ MOST_RECIPE_STEPS }
    {
        &self.steps[..self.count]
    }
}
