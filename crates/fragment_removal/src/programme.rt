// The programme over the last fragments, one more at a time and in place, over pairs of states (paper 001, section 5.2).
// A state that reaches no further than every fragment to come starts is dead: it hinders none of them. The first states are dead up to some d, and d stands for all of them.
ghost use Rattle.std.specs.Prelude.{◌≡◌, ◌+◌, ◌-◌, ◌<◌, ◌≤◌, length, replicate};
ghost use Rattle.below.specs.Below.{nth};
ghost use Rattle.ranks.specs.Algorithm.Lent.{weights_in};
ghost use Rattle.conflicts.specs.Choice.{zeros};
ghost use Rattle.fields.specs.Writing.{calls_start_of};
ghost use Rattle.masks.specs.Algorithm.Masks.{line_at, code_in};
ghost use Rattle.conflicts.specs.Removal.{fragment_keep_marks_of};
ghost use Rattle.fragment_pairs.specs.Algorithm.Pairs.{pairs};
ghost use Rattle.fragment_removal.specs.Algorithm.Holding.{HoldsFragments, Dead, Behind};
ghost use Rattle.fragment_removal.specs.Algorithm.Matrix.{grid_in};

use crate::fragments::Fragments;
use fragment_pairs::{Fragment, PLACES, STATES, births, layer};
use fragment_states::{calls_below, fill_agreements};
use places::Line;
use ranks::rank::Rank;
use ranks::table::Ranks;

// The first of n columns that a line calls, and 0 where it calls none: a number, as `calls_start_of` defines it.
fn line_start(n: usize, line: Line) -> u8
    requires { n ≤ 128 }
    ensures { result ≡ calls_start_of n (code_in line) }
{
    let first = calls_below(n, line).lowest();
    if first < 128 { first as u8 } else { 0 }
}

// The last state, at most `most`, such that neither it nor one before it reaches past a start.
// A loop: over `position` on the slice of the reaches, the proof of what it gives did not close.
fn last_behind(reaches: &[u8; STATES], start: u8, most: usize) -> usize
    requires { (nth reaches.now 0 ≡ 0) × (most ≤ 128) }
    ensures { (result ≤ most) × Behind reaches.now start result }
{
    for s in 0..most {
        if start < reaches[s + 1] {
            return s;
        }
    }
    most
}

impl<'a> Fragments<'a> {
    // The last state, at most d, such that neither it nor one before it reaches past the start of the fragment at position i.
    fn last_dead(&self, i: usize, d: usize) -> usize
        requires { i < 128 }
        ensures { (result ≤ d) × (result ≤ i) × Behind self.now.reaches.now (calls_start_of self.now.n (code_in (line_at self.now.masks.now i))) result }
    {
        let start = line_start(self.n, self.masks[i]);
        last_behind(self.reaches, start, d.min(i))
    }

    // One fragment more, before the last k. The states up to d are dead, and d stands for them; it returns the last of those that are dead before the fragment too.
    fn extend(&self, t: &mut Ranks<PLACES>, k: usize, d: usize) -> usize
        requires { (k < self.now.m) × (d ≤ self.now.m - k) × Dead (grid_in self.now) k d × HoldsFragments (grid_in self.now) k d (pairs (weights_in t.old)) }
        ensures { (result ≤ self.now.m - (k + 1)) × Dead (grid_in self.now) (k + 1) result
            × HoldsFragments (grid_in self.now) (k + 1) result (pairs (weights_in t.new)) }
    {
        let i = self.m - 1 - k;
        let dead = self.last_dead(i, d);
        births(t, dead, d, i + 1);
        let mut agrees = [0u8; STATES];
        fill_agreements(self.masks, dead, i, &mut agrees);
        let fragment = Fragment {
            agrees: &agrees,
            reaches: self.reaches,
            own: Rank::single(1, i),
            i,
        };
        layer(t, &fragment, dead);
        dead
    }

    // All fragments, from a table of zeros.
    fn suffixes(&self, t: &mut Ranks<PLACES>)
        requires { HoldsFragments (grid_in self.now) 0 self.now.m (pairs (weights_in t.old)) }
        ensures { HoldsFragments (grid_in self.now) self.now.m 0 (pairs (weights_in t.new)) }
    {
        let mut d = self.m;
        for k in 0..self.m {
            d = self.extend(t, k, d);
        }
    }

    // The keep marks of the least removal, and how many fragments it removes.
    pub(crate) fn least(&self, work: &mut [u16], keep: &mut [u8]) -> usize
        requires { (16641 ≤ length work.old) × (length keep.old ≡ self.now.m) }
        ensures { (keep.new ≡ fragment_keep_marks_of (grid_in self.now)) × (result ≡ zeros (fragment_keep_marks_of (grid_in self.now)))
            × (work.new ≡ replicate (length work.old) 0) }
    {
        let mut highs = [0u64; PLACES];
        let mut lows = [0u64; PLACES];
        work.fill(0);
        let mut table = Ranks::first_of(work, &mut highs, &mut lows);
        self.suffixes(&mut table);
        let most = table.get(0);
        for (p, mark) in keep.iter_mut().enumerate() {
            *mark = most.digit(p);
        }
        work.fill(0); // it is handed back all zero
        self.m - most.count as usize // a cast, since usize has no From<u32>
    }
}
