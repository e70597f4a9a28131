// The greatest weight at a pair of states, with one fragment more.
ghost use Rattle.std.specs.Prelude.{◌≡◌, true, false, ◌+◌, ◌<◌, ◌≤◌, max, if◌then◌else◌};
ghost use Rattle.below.specs.Below.{◌<?◌, nth};
ghost use Rattle.conflicts.specs.Choice.{marked};
ghost use Rattle.ranks.specs.Algorithm.Reading.{value, SumFits};
ghost use Rattle.ranks.specs.Algorithm.Tables.{Put};
ghost use Rattle.ranks.specs.Algorithm.Lent.{weights_in, SameArrays};
ghost use Rattle.fragment_pairs.specs.Algorithm.Layer.{furthest, keep_fragment};
ghost use Rattle.fragment_pairs.specs.Algorithm.Pairs.{Fits};

use crate::fragment::{Fragment, STATES};
use crate::rows::PLACES;
use ranks::rank::Rank;
use ranks::table::Ranks;

impl<'a> Fragment<'a> {
    // The state of a side once the fragment has joined it.
    pub(crate) fn furthest_of(&self, s: usize) -> usize
        requires { s ≤ self.now.i }
        ensures { result ≡ furthest (nth self.now.reaches.now) s self.now.i }
    {
        let next = self.i + 1;
        if self.reaches[s] < self.reaches[next] {
            next
        } else {
            s
        }
    }

    // The fragment may join a side at state s.
    pub(crate) fn joins(&self, s: usize) -> bool
        requires { s < STATES }
        ensures { result ≡ marked self.now.agrees.now s }
    {
        0 < self.agrees[s]
    }

    // The greater of the weight `here`, without the fragment, and that with it on a side at state l, which it may join: the side moves on, to `far`, or stays.
    fn greater_joined(&self, here: Rank, l: usize, far: Rank) -> Rank
        requires { (l ≤ self.now.i) × SumFits self.now.own here }
        ensures { value result ≡ max (value here) (if nth self.now.reaches.now l <? nth self.now.reaches.now (self.now.i + 1) then value far else value self.now.own + value here) }
    {
        if self.reaches[l] < self.reaches[self.i + 1] {
            here.greater(far)
        } else {
            self.own.plus(here)
        }
    }

    // The greatest weight at the pair of states at place j, side 2 at state l, with the fragment before those of the table, which may join side 1. Kept, it adds its own weight: on side 2, where it
    // weighs `far` if that moves on, or on side 1, which takes the pair to place k.
    pub(crate) fn weight_at(
        &self,
        t: &Ranks<PLACES>,
        far: Rank,
        l: usize,
        j: usize,
        k: usize,
    ) -> Rank
        requires { (j < PLACES) × (k < PLACES) × (l ≤ self.now.i) × Fits self.now.own (value far) (nth (weights_in t.now) k) (nth (weights_in t.now) j) }
        ensures { (value result ≡ keep_fragment true (marked self.now.agrees.now l) (value self.now.own + nth (weights_in t.now) k)
            (if nth self.now.reaches.now l <? nth self.now.reaches.now (self.now.i + 1) then value far else value self.now.own + nth (weights_in t.now) j) (nth (weights_in t.now) j))
            × (result.count < 65536) }
    {
        let here = t.get(j);
        let best = if self.joins(l) {
            self.greater_joined(here, l, far)
        } else {
            here
        };
        best.greater(self.own.plus(t.get(k)))
    }

    // Puts that weight where the fragment does not join side 1: it stays as it is, unless the fragment joins side 2.
    pub(crate) fn put_apart(&self, t: &mut Ranks<PLACES>, far: Rank, l: usize, j: usize)
        requires { (j < PLACES) × (l ≤ self.now.i) × Fits self.now.own (value far) (nth (weights_in t.old) j) (nth (weights_in t.old) j) }
        ensures weights { Put (nth (weights_in t.old)) (nth (weights_in t.new)) j
            (keep_fragment false (marked self.now.agrees.now l) 0
            (if nth self.now.reaches.now l <? nth self.now.reaches.now (self.now.i + 1) then value far else value self.now.own + nth (weights_in t.old) j) (nth (weights_in t.old) j)) }
        ensures arrays { SameArrays t.old t.new }
    {
        if self.joins(l) {
            let r = self.greater_joined(t.get(j), l, far);
            t.put(j, r);
        }
    }
}
