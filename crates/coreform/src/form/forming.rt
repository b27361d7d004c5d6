// Making a core form, and asking for its parts.
ghost use Rattle.std.specs.Prelude.{◌≡◌};
ghost use Rattle.coreform.specs.Forms.{nodes_of, shown, formed, form_number};

use crate::form::{CoreForm, FormFault};
use crate::writing::Writer;
use automata::nodes::CoreNode;
use rules::book::Book;
use rules::node::Place;

impl FormFault {
    /// The number of the refusal: 9 or 7. docs/REFUSALS.md has them all.
    // Kept: a public promise, and docs/REFUSALS.md lists the numbers.
    pub fn number(&self) -> u8
        ensures { result ≡ form_number self.now }
    {
        match *self {
            FormFault::NotInBook(_) => 9,
            FormFault::TooManyNodes => 7,
        }
    }
}

impl CoreForm {
    /// The nodes in the order of their numbers, which count from 0: at most 64.
    pub fn nodes(&self) -> &[CoreNode]
        ensures { result.now ≡ nodes_of self.now }
    {
        self.nodes.as_slice()
    }

    /// The number of the whole: one of the nodes.
    pub fn root(&self) -> u8
        ensures { result ≡ self.now.root }
    {
        self.root
    }
}

/// The core form of the rule at a place of a book, as docs/TRANSLATION.md has it. Refused are a place
/// that is not in the book (9), and a core form of over 64 nodes (7).
pub fn core_form(book: &Book, place: Place) -> Result<CoreForm, FormFault>
    ensures { shown result ≡ formed book.now place }
{
    if place.index as usize >= book.len() {
        return Err(FormFault::NotInBook(place));
    }
    let mut writer = Writer::new(book);
    let root = writer.write(place, true).ok_or(FormFault::TooManyNodes)?;
    Ok(CoreForm {
        nodes: writer.draft,
        root,
    })
}
