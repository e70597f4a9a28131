// The tally of a column (paper 001, section 3).
#![tactic(auto)]

ghost use Rattle.std.specs.Prelude.{◌≡◌};
ghost use Rattle.conflicts.specs.Tally.{no_calls, tallied, mixed_tally};

use fields::{A, B};

// How many A and how many B a column has.
#[derive(Clone, Copy)]
pub struct Tally {
    pub a: u32,
    pub b: u32,
}

impl Tally {
    // None of either letter.
    pub fn empty() -> Tally
        ensures { result ≡ no_calls }
    {
        Tally { a: 0, b: 0 }
    }

    // The tally with one call more; a code that is no call leaves it, and a count at its last number stays there. A code is a byte of the records' format, and any is taken.
    pub fn with_call(self, code: u8) -> Tally
        ensures { result ≡ tallied self code }
    {
        match code {
            A => Tally {
                a: self.a.saturating_add(1),
                b: self.b,
            },
            B => Tally {
                a: self.a,
                b: self.b.saturating_add(1),
            },
            _ => self,
        }
    }

    // Both letters occur.
    pub fn is_mixed(self) -> bool
        ensures { result ≡ mixed_tally self }
    {
        0 < self.a && 0 < self.b
    }
}
