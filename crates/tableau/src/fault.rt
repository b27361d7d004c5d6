// Why begin or step is refused.
ghost use Rattle.std.specs.Prelude.{◌≡◌};
ghost use Rattle.std.specs.Result.{result_err};
ghost use Rattle.tableau.specs.Refusals.{short_of, step_number, begin_number};
ghost use Rattle.tableau.specs.declared.fault.BeginFault.TheVariants.{Form as NoForm, Short as TooShort};

use coreform::form::FormFault;

/// A list that the caller lends.
// Kept: a rule of the project: each crate names the lists that its own calls are lent, here four.
#[derive(Clone, Copy, PartialEq, Eq, Debug)]
pub enum LentList {
    Sheet,
    States,
    Arcs,
    Pending,
}

/// Refusal 11: this list is shorter than the length that it needs, which is what the translation uses
/// of it. See docs/REFUSALS.md.
#[derive(Clone, Copy, PartialEq, Eq, Debug)]
pub struct ShortFault {
    pub list: LentList,
    pub needed: usize,
}

impl ShortFault {
    /// The number of the refusal: 11.
    // Kept: a public promise, and docs/REFUSALS.md lists the numbers.
    pub fn number(&self) -> u8
        ensures { result ≡ step_number self.now }
    {
        11
    }
}

// Refuses a list that is shorter than needed.
pub(crate) fn check_length(list: LentList, length: usize, needed: usize) -> Result<(), ShortFault>
    ensures { result_err result ≡ short_of list length needed }
{
    if length < needed {
        Err(ShortFault { list, needed })
    } else {
        Ok(())
    }
}

/// Why there is no translation of the rule at a place. See docs/REFUSALS.md.
#[derive(Clone, Copy, PartialEq, Eq, Debug)]
pub enum BeginFault {
    /// 9, nothing is entered at the place, or 7, the core form has over 64 nodes
    Form(FormFault),
    /// 8: the core form has this many untils, over 16
    TooManyUntils(u8),
    /// 11: a list is shorter than needed
    Short(ShortFault),
}

// Kept: no plainer: a derive's From has no contract, and clauses name the error.
impl From<FormFault> for BeginFault {
    ghost from_gives = { λ x y. y ≡ NoForm x };

    fn from(fault: FormFault) -> BeginFault {
        BeginFault::Form(fault)
    }
}

// Kept: no plainer: a derive's From has no contract, and clauses name the error.
impl From<ShortFault> for BeginFault {
    ghost from_gives = { λ x y. y ≡ TooShort x };

    fn from(fault: ShortFault) -> BeginFault {
        BeginFault::Short(fault)
    }
}

impl BeginFault {
    /// The number of the refusal: 7, 8, 9 or 11.
    // Kept: a public promise, and docs/REFUSALS.md lists the numbers.
    pub fn number(&self) -> u8
        ensures { result ≡ begin_number self.now }
    {
        match *self {
            BeginFault::Form(fault) => fault.number(),
            BeginFault::TooManyUntils(_) => 8,
            BeginFault::Short(fault) => fault.number(),
        }
    }
}
