// Why there is no automaton of a rule file.
ghost use Rattle.std.specs.Prelude.{◌≡◌};
ghost use Rattle.listing.specs.Refusals.{list_number, list_start};
ghost use Rattle.listing.specs.Texts.{stage_text};
ghost use Rattle.rules.specs.Refusals.{file_fault};
ghost use Rattle.listing.specs.declared.fault.ListFault.TheVariants.{Read as AtRead, Begin as AtBegin};

pub use rules::reading::FileFault;
use rules::reading::ReadFault;
use tableau::fault::BeginFault;

/// The stage that refuses, and why (docs/REFUSALS.md).
#[derive(Clone, Copy, Debug, PartialEq, Eq)]
pub enum ListFault {
    Read(FileFault),
    Begin(BeginFault),
}

impl From<ReadFault<'_>> for ListFault {
    ghost from_gives = { λ x y. y ≡ AtRead (file_fault x) };

    fn from(fault: ReadFault<'_>) -> ListFault {
        ListFault::Read(FileFault::from(fault))
    }
}

// Kept: the new form is no plainer: a derive's `From` has no contract, and clauses name the error.
impl From<BeginFault> for ListFault {
    ghost from_gives = { λ x y. y ≡ AtBegin x };

    fn from(fault: BeginFault) -> ListFault {
        ListFault::Begin(fault)
    }
}

impl ListFault {
    /// The number of the refusal: 1 to 6 of reading, 7, 8, 9 or 11 of beginning.
    pub fn number(&self) -> u8
        ensures { result ≡ list_number self.now }
    {
        // Kept: a public promise, and docs/REFUSALS.md lists the numbers.
        match *self {
            ListFault::Read(fault) => fault.number(),
            ListFault::Begin(fault) => fault.number(),
        }
    }

    /// The stage that refuses, `read` or `begin`.
    pub fn stage(&self) -> &'static str
        ensures { result.now ≡ stage_text self.now }
    {
        match *self {
            ListFault::Read(_) => "read",
            ListFault::Begin(_) => "begin",
        }
    }

    /// The byte of the file, counted from 0, where the refused command starts, and 0 where no command is refused.
    pub fn start(&self) -> usize
        ensures { result ≡ list_start self.now }
    {
        // Kept: a public promise, which says 0 where there is no such byte.
        match *self {
            ListFault::Read(fault) => fault.start(),
            ListFault::Begin(_) => 0,
        }
    }
}
