// The recipe of each node. Its steps are pushed to an empty recipe in place, so that none is copied.
ghost use Rattle.std.specs.Prelude.{◌≡◌, ◌<◌, [], ◌∷◌, take};
ghost use Rattle.coreform.specs.Recipes.{pair, fixed, guard, twins, unary_recipe, binary_recipe, recipe_of};

use crate::recipe::{Recipe, Step};
use automata::nodes::CoreNode;
use rules::node::{BinaryOp, Node, Place, UnaryOp};

// A node over the rules at two places, each of them or its denial.
fn pair(recipe: &mut Recipe, node: CoreNode, a: Place, p: bool, b: Place, q: bool)
    requires { recipe.old.count ≡ 0 }
    ensures { take recipe.new.count recipe.new.steps ≡ pair node a p b q }
{
    recipe.push(Step::Write(a, p));
    recipe.push(Step::Write(b, q));
    recipe.push(Step::Put(node));
}

// The same with the rules at both places, or the denials of both.
fn both(recipe: &mut Recipe, node: CoreNode, a: Place, b: Place, p: bool)
    requires { recipe.old.count ≡ 0 }
    ensures { take recipe.new.count recipe.new.steps ≡ pair node a p b p }
{
    pair(recipe, node, a, p, b, p);
}

// A node over a leaf and the rule at a place.
fn fixed(recipe: &mut Recipe, leaf: CoreNode, node: CoreNode, a: Place, p: bool)
    requires { recipe.old.count ≡ 0 }
    ensures { take recipe.new.count recipe.new.steps ≡ fixed leaf node a p }
{
    recipe.push(Step::Put(leaf));
    recipe.push(Step::Write(a, p));
    recipe.push(Step::Put(node));
}

// A node over the rule at b and an inner node, which is over the rules at a and b.
fn guard(recipe: &mut Recipe, outer: CoreNode, inner: CoreNode, a: Place, b: Place, p: bool)
    requires { recipe.old.count ≡ 0 }
    ensures { take recipe.new.count recipe.new.steps ≡ guard outer inner a b p }
{
    recipe.push(Step::Write(b, p));
    recipe.push(Step::Write(a, p));
    recipe.push(Step::Write(b, p));
    recipe.push(Step::Put(inner));
    recipe.push(Step::Put(outer));
}

// The rules at both places, or the denials of both; with q false, one of them and the denial of the other.
fn twins(recipe: &mut Recipe, a: Place, b: Place, q: bool)
    requires { recipe.old.count ≡ 0 }
    ensures { take recipe.new.count recipe.new.steps ≡ twins a b q }
{
    recipe.push(Step::Write(a, true));
    recipe.push(Step::Write(b, q));
    recipe.push(Step::Put(CoreNode::And(0, 1)));
    recipe.push(Step::Write(a, false));
    recipe.push(Step::Write(b, !q));
    recipe.push(Step::Put(CoreNode::And(3, 4)));
    recipe.push(Step::Put(CoreNode::Or(2, 5)));
}

// For a node of one operand.
fn unary_recipe(recipe: &mut Recipe, op: UnaryOp, p: bool, a: Place)
    requires { recipe.old.count ≡ 0 }
    ensures steps { take recipe.new.count recipe.new.steps ≡ unary_recipe op p a }
    ensures some { 0 < recipe.new.count }
{
    match (op, p) {
        (UnaryOp::Not, _) => recipe.push(Step::Write(a, !p)),
        (UnaryOp::Next, _) => {
            recipe.push(Step::Write(a, p));
            recipe.push(Step::Put(CoreNode::Next(0)));
        }
        (UnaryOp::Eventually, true) | (UnaryOp::Always, false) => fixed(
            recipe,
            CoreNode::True,
            CoreNode::Until(0, 1),
            a,
            p,
        ),
        (UnaryOp::Eventually, false) | (UnaryOp::Always, true) => fixed(
            recipe,
            CoreNode::False,
            CoreNode::Release(0, 1),
            a,
            p,
        ),
    }
}

// For a node of two operands.
fn binary_recipe(recipe: &mut Recipe, op: BinaryOp, p: bool, a: Place, b: Place)
    requires { recipe.old.count ≡ 0 }
    ensures steps { take recipe.new.count recipe.new.steps ≡ binary_recipe op p a b }
    ensures some { 0 < recipe.new.count }
{
    match (op, p) {
        (BinaryOp::And, true) | (BinaryOp::Or, false) => both(recipe, CoreNode::And(0, 1), a, b, p),
        (BinaryOp::And, false) | (BinaryOp::Or, true) => both(recipe, CoreNode::Or(0, 1), a, b, p),
        (BinaryOp::Implies, true) => pair(recipe, CoreNode::Or(0, 1), a, false, b, true),
        (BinaryOp::Implies, false) => pair(recipe, CoreNode::And(0, 1), a, true, b, false),
        (BinaryOp::Equivalent, _) => twins(recipe, a, b, p),
        (BinaryOp::ExclusiveOr, _) => twins(recipe, a, b, !p),
        (BinaryOp::Until, true) | (BinaryOp::Release, false) => both(
            recipe,
            CoreNode::Until(0, 1),
            a,
            b,
            p,
        ),
        (BinaryOp::Until, false) | (BinaryOp::Release, true) => both(
            recipe,
            CoreNode::Release(0, 1),
            a,
            b,
            p,
        ),
        (BinaryOp::WeakUntil, true) | (BinaryOp::StrongRelease, false) => guard(
            recipe,
            CoreNode::Release(0, 3),
            CoreNode::Or(1, 2),
            a,
            b,
            p,
        ),
        (BinaryOp::WeakUntil, false) | (BinaryOp::StrongRelease, true) => guard(
            recipe,
            CoreNode::Until(0, 3),
            CoreNode::And(1, 2),
            a,
            b,
            p,
        ),
    }
}

// The steps that write the core form of a node (true), or of its denial (false).
pub(crate) fn recipe_of(recipe: &mut Recipe, node: Node, p: bool)
    requires { recipe.old.count ≡ 0 }
    ensures steps { take recipe.new.count recipe.new.steps ≡ recipe_of node p }
    ensures some { 0 < recipe.new.count }
{
    match (node, p) {
        (Node::True, true) | (Node::False, false) => recipe.push(Step::Put(CoreNode::True)),
        (Node::True, false) | (Node::False, true) => recipe.push(Step::Put(CoreNode::False)),
        (Node::Signal(s), true) => recipe.push(Step::Put(CoreNode::On(s))),
        (Node::Signal(s), false) => recipe.push(Step::Put(CoreNode::Off(s))),
        (Node::Unary(op, a), _) => unary_recipe(recipe, op, p, a),
        (Node::Binary(op, a, b), _) => binary_recipe(recipe, op, p, a, b),
    }
}
