// What one step adds, found out before anything is written.
ghost use Rattle.std.specs.Prelude.{◌≡◌, ◌<◌, ◌≤◌, length};
ghost use Rattle.std.specs.List.{position};
ghost use Rattle.automata.specs.Sets.{lowest as lowest_of};
ghost use Rattle.automata.specs.Steps.{drops as is_dropped, item as item_of, split, taken, is_state};
ghost use Rattle.tableau.specs.declared.limits.TheConstants.{MOST_STATES};
ghost use Rattle.tableau.specs.Plans.{Puts, DoesStep, join_plan, settle_plan};

use crate::sets::{contains, insert, join, lowest, remove};
use crate::sheets::{Checked, Sheet};
use automata::items::{Arc, Item, State};
use automata::nodes::{CoreNode, CoreSet};

// What joins the lists in the place of the item that was put in last.
// Kept: the new form is no plainer: a plan is counted before it is written, and a closure would be made twice.
#[derive(Clone, Copy)]
pub(crate) enum Plan {
    Nothing,
    One(Item),
    // the first is to be taken next
    Two(Item, Item),
    Join(Arc),
    Make(State, Arc, Item),
}

// Whether an item is dropped at this node: it is false, or a literal whose opposite is in Old.
fn drops(sheet: &Sheet<'_>, old: CoreSet, read: Checked) -> bool
    ensures { result ≡ is_dropped sheet.now.nodes.now old read.node }
{
    match read.node {
        CoreNode::False => true,
        CoreNode::On(s) => contains(
            CoreSet {
                bits: sheet.off_signals(old),
            },
            s,
        ),
        CoreNode::Off(s) => contains(
            CoreSet {
                bits: sheet.on_signals(old),
            },
            s,
        ),
        _ => false,
    }
}

// The item with another New and Next.
fn with(item: Item, new: CoreSet, next: CoreSet) -> Item
    ensures { result ≡ item_of item.source new item.old next }
{
    Item { new, next, ..item }
}

// The items that take the place of an item from which node k was taken.
// Kept: no plainer: numbers inside a core node are plain `u8`, so a type for k < 64 would be made anew at each use.
fn split(read: Checked, k: u8, item: Item) -> Plan
    requires { k < 64 }
    ensures { Puts (split read.node k item.source item.new item.old item.next) result }
{
    let Item { new, old, next, .. } = item;
    match read.node {
        CoreNode::False => Plan::Nothing,
        CoreNode::True | CoreNode::On(_) | CoreNode::Off(_) => Plan::One(item),
        CoreNode::Next(a) => Plan::One(with(item, new, insert(next, a))),
        CoreNode::And(a, b) => Plan::One(with(item, join(b, old, join(a, old, new)), next)),
        CoreNode::Or(a, b) => {
            let first = with(item, join(a, old, new), next);
            Plan::Two(first, with(item, join(b, old, new), next))
        }
        CoreNode::Until(a, b) => {
            let first = with(item, join(a, old, new), insert(next, k));
            Plan::Two(first, with(item, join(b, old, new), next))
        }
        CoreNode::Release(a, b) => {
            let first = with(item, join(b, old, new), insert(next, k));
            Plan::Two(first, with(item, join(b, old, join(a, old, new)), next))
        }
    }
}

// The lowest number leaves New.
fn plan_taken(sheet: &Sheet<'_>, item: Item) -> Plan
    requires { 0 < item.new.bits }
    ensures { Puts (taken sheet.now.nodes.now (lowest_of item.new) item) result }
{
    let k = lowest(item.new);
    let read = sheet.node_at(k);
    if drops(sheet, item.old, read) {
        Plan::Nothing
    } else {
        let rest = Item {
            new: remove(item.new, k),
            old: insert(item.old, k),
            ..item
        };
        split(read, k, rest)
    }
}

// An arc is added unless it is there; one that names a state that is not made is never there.
fn plan_join(count: usize, arc: Arc, arcs: &[Arc]) -> Plan
    ensures { result ≡ join_plan count arc arcs.now }
{
    if arc.from as usize <= count && arcs.contains(&arc) {
        Plan::Nothing
    } else {
        Plan::Join(arc)
    }
}

// The place of the first state with this Old and Next.
fn state_with(states: &[State], old: CoreSet, next: CoreSet) -> Option<usize>
    ensures { result ≡ position (λ s. is_state s old next) states.now }
{
    states
        .iter()
        .position(|state| state.old == old && state.next == next)
}

// New is empty: a state has this Old and Next, or a new one is made.
fn plan_settled(sheet: &Sheet<'_>, states: &[State], arcs: &[Arc], item: Item) -> Plan
    requires { length states.now ≤ MOST_STATES }
    ensures { result ≡ settle_plan sheet.now.nodes.now states.now arcs.now item }
{
    let from = item.source;
    match state_with(states, item.old, item.next) {
        Some(before) => {
            let to = before as u32 + 1;
            plan_join(states.len(), Arc { from, to }, arcs)
        }
        None => {
            let to = states.len() as u32 + 1;
            let onward = Item {
                source: to,
                new: item.next,
                ..Item::default()
            };
            Plan::Make(
                sheet.state_of(item.old, item.next),
                Arc { from, to },
                onward,
            )
        }
    }
}

// The plan for the item that was put in last, by the states and arcs there are.
pub(crate) fn plan_for(sheet: &Sheet<'_>, states: &[State], arcs: &[Arc], item: Item) -> Plan
    requires { length states.now ≤ MOST_STATES }
    ensures { DoesStep sheet.now.nodes.now states.now arcs.now item result }
{
    if item.new.bits == 0 {
        plan_settled(sheet, states, arcs, item)
    } else {
        plan_taken(sheet, item)
    }
}
