// Writing the core form of the rule at a place, each place and polarity once.
ghost use Rattle.std.specs.Prelude.{◌≡◌, ◌<◌, ◌≤◌, [], length, IfSome};
ghost use Rattle.automata.specs.Cores.{core_of};
ghost use Rattle.coreform.specs.declared.draft.TheConstants.{MOST_NODES};
ghost use Rattle.coreform.specs.Recipes.{node_over};
ghost use Rattle.coreform.specs.Writing.{Known, Writes};
ghost use Rattle.semantics.specs.Rules.{rule_at};

use crate::cookbook::recipe_of;
use crate::draft::{Draft, put};
use crate::numbers::Numbers;
use crate::recipe::{MOST_RECIPE_STEPS, Recipe, Step};
use arrayvec::ArrayVec;
use automata::nodes::CoreNode;
use rules::book::Book;
use rules::node::Place;

// A node over the numbers that earlier steps answered, instead of the steps.
fn node_over(node: CoreNode, made: &[u8]) -> CoreNode
    ensures { result ≡ node_over node made.now }
{
    // Kept: no plainer: None already says that there is no room, and recipes name earlier steps alone.
    let number = |step: u8| made.get(step as usize).copied().unwrap_or(0);
    match node {
        CoreNode::True | CoreNode::False | CoreNode::On(_) | CoreNode::Off(_) => node,
        CoreNode::Next(i) => CoreNode::Next(number(i)),
        CoreNode::And(i, j) => CoreNode::And(number(i), number(j)),
        CoreNode::Or(i, j) => CoreNode::Or(number(i), number(j)),
        CoreNode::Until(i, j) => CoreNode::Until(number(i), number(j)),
        CoreNode::Release(i, j) => CoreNode::Release(number(i), number(j)),
    }
}

// A draft on which the rules of a book are written, and the numbers that they have there.
#[derive(Drop)]
pub(crate) struct Writer<'a> {
    pub(crate) draft: Draft,
    numbers: Numbers,
    book: &'a Book,
    ghost few: { length draft.items ≤ MOST_NODES },
}

impl<'a> Writer<'a> {
    // Nothing is written.
    pub(crate) fn new(book: &'a Book) -> Writer<'a>
        ensures draft { result.draft.items ≡ [] }
        ensures book { result.book.now ≡ book.now }
        ensures known { Known book.now result.draft.items result.numbers }
    {
        Writer {
            draft: Draft::new(),
            numbers: Numbers::new(),
            book,
        }
    }

    // Writes the core form of the rule at a place (true), or of its denial (false), and answers its
    // number: none where there are over 64 nodes.
    pub(crate) fn write(&mut self, place: Place, polarity: bool) -> Option<u8>
        requires entered { place.index < length self.old.book.now }
        requires known { Known self.old.book.now self.old.draft.items self.old.numbers }
        ensures writes { Writes (core_of (rule_at self.old.book.now place.index) polarity) self.old.draft.items result self.new.draft.items }
        ensures known { IfSome result (λ _. Known self.old.book.now self.new.draft.items self.new.numbers) }
        ensures book { self.new.book.now ≡ self.old.book.now }
    {
        if let Some(number) = self.numbers.get(polarity, place) {
            return Some(number);
        }
        let mut recipe = Recipe::new();
        recipe_of(
            &mut recipe,
            self.book.nodes()[place.index as usize],
            polarity,
        );
        let mut made = ArrayVec::<u8, MOST_RECIPE_STEPS>::new();
        for step in recipe.as_slice() {
            let number = match *step {
                Step::Write(a, p) => self.write(a, p)?,
                Step::Put(node) => put(&mut self.draft, node_over(node, made.as_slice()))?,
            };
            made.push(number);
        }
        let number = made[made.len() - 1];
        self.numbers.set(polarity, place, number);
        Some(number)
    }
}
