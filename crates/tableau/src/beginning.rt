// The beginning of a translation.
ghost use Rattle.std.specs.Prelude.{◌≡◌, ◌<◌};
ghost use Rattle.tableau.specs.Beginning.{first_item, begins, Begins};
ghost use Rattle.tableau.specs.Limits.{Limits};

use crate::fault::{BeginFault, LentList, check_length};
use crate::limits::MOST_UNTILS;
use crate::sheets::Sheet;
use crate::translation::{Running, Totals};
use automata::items::Item;
use automata::nodes::{CoreNode, CoreSet};
use coreform::form::forming::core_form;
use rules::book::Book;
use rules::node::Place;

// The item of the start: the rule is still to be worked on.
fn first_item(root: u8) -> Item
    requires { root < 64 }
    ensures { result ≡ first_item root }
{
    let new = CoreSet { bits: 1 << root };
    Item {
        source: 0,
        new,
        ..Item::default()
    }
}

/// Begins the translation of the rule at a place: its core form goes on the sheet, and one item into
/// the pending list. Refused are, in this order, a place that is not in the book (9), a core form of
/// over 64 nodes (7) or over 16 untils (8), a sheet that is shorter than the core form and an empty
/// pending list (11). A refused call changes nothing. See docs/TRANSLATION.md.
pub fn begin(
    book: &Book,
    place: Place,
    sheet: &mut [CoreNode],
    pending: &mut [Item],
) -> Result<Running, BeginFault>
    ensures begins { Begins book.now place sheet.old pending.old (begins result) sheet.new pending.new }
    ensures limits { Limits }
{
    let form = core_form(book, place)?;
    let nodes = form.nodes();
    let untils = Sheet { nodes }.count_untils();
    if untils > MOST_UNTILS {
        return Err(BeginFault::TooManyUntils(untils));
    }
    check_length(LentList::Sheet, sheet.len(), nodes.len())?;
    check_length(LentList::Pending, pending.len(), 1)?;
    sheet[..nodes.len()].copy_from_slice(nodes);
    pending[0] = first_item(form.root());
    let totals = Totals {
        cores: nodes.len() as u8,
        sets: untils,
        steps: 0,
        states: 0,
        arcs: 0,
    };
    Ok(Running { totals, pending: 1 })
}
