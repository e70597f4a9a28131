// The elimination: from the last column to the first, one least weight for each side pattern of the 8 slots.
ghost use Rattle.std.specs.Prelude.{◌≡◌, ◌+◌, ◌<◌, if◌then◌else◌};
ghost use Rattle.below.specs.Below.{nth, ◌=?◌};
ghost use Rattle.ranks.specs.Algorithm.Lent.{weights_in};
ghost use Rattle.slots.specs.Algorithm.Spans.{span_at};
ghost use Rattle.corrections.specs.Algorithm.Sweep.{Gathered, EnterRoom, EntersIf};
ghost use Rattle.corrections.specs.Algorithm.Elimination.{grid_in, HoldsFrom};

use crate::columns::Columns;
use patterns::{charge, enter};
use ranks::table::Ranks;

// What a correction costs where a call is the letter, and 0 where it is not. A letter is its code, as the cells have it. A function, since it is asked for twice.
fn price(code: u8, letter: u8, weight: u8) -> u8
    ensures { result ≡ if code =? letter then weight else 0 }
{
    if code == letter { weight } else { 0 }
}

impl<'a> Columns<'a> {
    // The prices of A and of B at column c, slot by slot.
    fn gather(&self, c: usize) -> ([u8; 8], [u8; 8])
        requires { c < self.now.n }
        ensures a { Gathered (grid_in self.now) self.now.slots.now c 1 self.now.m result.0 }
        ensures b { Gathered (grid_in self.now) self.now.slots.now c 2 self.now.m result.1 }
    {
        let mut a = [0; 8];
        let mut b = [0; 8];
        for i in 0..self.m {
            if self.spans[i].covers(c) {
                let slot = self.slots[i];
                let code = self.cells[i * 128 + c];
                a[slot] = price(code, 1, self.weights[i]);
                b[slot] = price(code, 2, self.weights[i]);
            }
        }
        (a, b)
    }

    // Fragment f enters, if it starts at column c.
    fn enter_if(&self, t: &mut Ranks<256>, c: usize, f: usize)
        requires { (f < self.now.m) × EnterRoom (span_at self.now.spans.now f).start c f (nth (weights_in t.old)) }
        ensures { EntersIf (span_at self.now.spans.now f).start (nth self.now.slots.now f) c f (nth (weights_in t.old)) (nth (weights_in t.new)) }
    {
        if self.spans[f].start == c {
            enter(t, f, self.slots[f]);
        }
    }

    // The events of column c, from the last to the first.
    fn column(&self, t: &mut Ranks<256>, c: usize)
        requires { (c < self.now.n) × HoldsFrom self.now (c + 1) (nth (weights_in t.old)) }
        ensures { HoldsFrom self.now c (nth (weights_in t.new)) }
    {
        let (a, b) = self.gather(c);
        charge(&a, &b, t);
        for f in (0..self.m).rev() {
            self.enter_if(t, c, f);
        }
    }

    // All the events, from a table of zeros.
    pub(crate) fn eliminate(&self, t: &mut Ranks<256>)
        requires { HoldsFrom self.now self.now.n (nth (weights_in t.old)) }
        ensures { HoldsFrom self.now 0 (nth (weights_in t.new)) }
    {
        for c in (0..self.n).rev() {
            self.column(t, c);
        }
    }
}
