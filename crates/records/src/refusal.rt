// A refusal: which rule is broken, and where.
ghost use Rattle.std.specs.Prelude.{◌≡◌};
ghost use Rattle.records.specs.Outcome.{number_of};

// The rules that a call can be refused by, each by its number in the paper.
#[derive(Clone, Copy, PartialEq, Eq, Debug)]
pub enum Fault {
    // A table's bytes are no multiple of 32; pack's cells are not m × n, or its grades not m.
    RaggedFile = 1,
    // Over 128.
    TooManyFragments = 2,
    // Over 128 columns.
    TooManySnps = 3,
    // A span over 96, or past the last column, or a start without calls.
    OutOfFrame = 4,
    // A grade over 15, or a call after the span.
    StrayBits = 5,
    // A code over 2.
    UnknownCall = 6,
    // A span whose first or last cell is a hole.
    OpenEnd = 7,
    // A hole between two calls: S and F alone.
    Gapped = 8,
    // The tag of an earlier fragment.
    TagTwice = 9,
    // Work under 32,768 numbers.
    ShortWork = 10,
    // An output's length is not exact.
    WrongBuffer = 11,
    // A column under over 8 fragments: C alone.
    TooDeep = 12,
    // A record that comes before the one that it follows.
    OutOfOrder = 13,
    // A fragment without a call: pack alone.
    NoCall = 17,
}

impl Fault {
    // The rule's number.
    pub fn number(self) -> u8
        ensures { result ≡ number_of self }
    {
        self as u8
    }

    // The refusal by this rule at a place.
    pub fn at(self, place: usize) -> Refusal
        ensures { result ≡ record { fault = self; place = place } }
    {
        Refusal { fault: self, place }
    }
}

// A broken rule and its place: the fragment or the column, and 0 where it is the call's sizes.
#[derive(Clone, Copy, PartialEq, Eq, Debug)]
pub struct Refusal {
    pub fault: Fault,
    pub place: usize,
}
