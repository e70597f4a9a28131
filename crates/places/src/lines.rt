// Two lines of a matrix, fragments or columns, compared by the places at which they have A and at which they have B.
ghost use Rattle.std.specs.Prelude.{◌≡◌, ◌≤◌};
ghost use Rattle.places.specs.Algorithm.Places.{conflict_places, agree_places, either_line, conflict_kept_in, conflict_size, both_kinds};

use crate::places::Places;

#[derive(Clone, Copy, Default)]
pub struct Line {
    pub a: Places,
    pub b: Places,
}

impl Line {
    // The places at which one line has A and the other B.
    pub fn conflicts(self, other: Line) -> Places
        ensures { result ≡ conflict_places self other }
    {
        self.a.both(other.b).either(self.b.both(other.a))
    }

    // The places at which both have one letter.
    pub fn agreements(self, other: Line) -> Places
        ensures { result ≡ agree_places self other }
    {
        self.a.both(other.a).either(self.b.both(other.b))
    }

    // Where either line has A, and where either has B.
    pub fn either(self, other: Line) -> Line
        ensures { result ≡ either_line self other }
    {
        Line {
            a: self.a.either(other.a),
            b: self.b.either(other.b),
        }
    }
}

// Whether two lines conflict at a kept place.
pub fn conflict_kept(first: Line, second: Line, keep: Places) -> bool
    ensures { result ≡ conflict_kept_in keep first second }
{
    keep.both(first.conflicts(second)).any()
}

// At how many of the kept places two lines conflict.
pub fn conflict_count(first: Line, second: Line, keep: Places) -> u32
    ensures number { result ≡ conflict_size keep first second }
    ensures most { result ≤ 128 }
{
    keep.both(first.conflicts(second)).count()
}

// Whether two columns are in conflict: some fragment has one letter at both, and some has two (paper 001, section 3.1).
pub fn columns_conflict(first: Line, second: Line) -> bool
    ensures { result ≡ both_kinds first second }
{
    first.agreements(second).any() && first.conflicts(second).any()
}
