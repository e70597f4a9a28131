// One fragment more at every pair of states, in place, row by row: a row reads itself and later ones.
ghost use Rattle.std.specs.Prelude.{◌≡◌, true, false, ◌+◌, ◌<◌, ◌≤◌};
ghost use Rattle.below.specs.Below.{nth};
ghost use Rattle.conflicts.specs.Choice.{marked};
ghost use Rattle.ranks.specs.Algorithm.Reading.{value};
ghost use Rattle.ranks.specs.Algorithm.Tables.{Sweep};
ghost use Rattle.ranks.specs.Algorithm.Lent.{weights_in, SameArrays};
ghost use Rattle.fragment_pairs.specs.Algorithm.Layer.{with_fragment};
ghost use Rattle.fragment_pairs.specs.Algorithm.Pairs.{row_start_of, pairs, along, FragmentRoom, Made};

use crate::fragment::{Fragment, STATES};
use ranks::rank::Rank;
use ranks::table::Ranks;

// The pairs of states, each pair once.
pub const PLACES: usize = STATES * (STATES + 1) / 2;

// Where the row of state h begins.
pub(crate) fn row_start(h: usize) -> usize
    requires { h ≤ 128 }
    ensures { result ≡ row_start_of h }
{
    h * (h + 1) / 2
}

// A fragment that joins side 1, at state h of it and every state of side 2 from d up to it.
fn row_joined(t: &mut Ranks<PLACES>, f: &Fragment<'_>, far: Rank, d: usize, h: usize)
    requires { (d ≤ h) × (h ≤ f.now.i) × FragmentRoom f.now.own d h (f.now.i + 1) (pairs (weights_in t.old))
        × (value far ≡ value f.now.own + pairs (weights_in t.old) h (f.now.i + 1)) × (marked f.now.agrees.now h ≡ true) }
    ensures weights { Sweep (along (with_fragment f.now (pairs (weights_in t.old))) h) (nth (weights_in t.old)) (nth (weights_in t.new)) (row_start_of h + d) (row_start_of h + (h + 1)) }
    ensures arrays { SameArrays t.old t.new }
{
    let start = row_start(h);
    let next = row_start(f.furthest_of(h));
    for l in d..h + 1 {
        let j = start + l;
        let r = f.weight_at(t, far, l, j, next + l);
        t.put(j, r);
    }
}

// The same where it does not join side 1: a loop of its own, since it passes over the states of side 2 that the fragment does not join.
fn row_apart(t: &mut Ranks<PLACES>, f: &Fragment<'_>, far: Rank, d: usize, h: usize)
    requires { (d ≤ h) × (h ≤ f.now.i) × FragmentRoom f.now.own d h (f.now.i + 1) (pairs (weights_in t.old))
        × (value far ≡ value f.now.own + pairs (weights_in t.old) h (f.now.i + 1)) × (marked f.now.agrees.now h ≡ false) }
    ensures weights { Sweep (along (with_fragment f.now (pairs (weights_in t.old))) h) (nth (weights_in t.old)) (nth (weights_in t.new)) (row_start_of h + d) (row_start_of h + (h + 1)) }
    ensures arrays { SameArrays t.old t.new }
{
    let start = row_start(h);
    let states = h + 1;
    for l in d..states {
        f.put_apart(t, far, l, start + l);
    }
}

// A fragment at state h of side 1 and every state of side 2 from d up to it.
fn row(t: &mut Ranks<PLACES>, f: &Fragment<'_>, d: usize, h: usize)
    requires { (d ≤ h) × (h ≤ f.now.i) × FragmentRoom f.now.own d h (f.now.i + 1) (pairs (weights_in t.old)) }
    ensures weights { Sweep (along (with_fragment f.now (pairs (weights_in t.old))) h) (nth (weights_in t.old)) (nth (weights_in t.new)) (row_start_of h + d) (row_start_of h + (h + 1)) }
    ensures arrays { SameArrays t.old t.new }
{
    let last = row_start(f.i + 1);
    let far = f.own.plus(t.get(last + h));
    if f.joins(h) {
        row_joined(t, f, far, d, h);
    } else {
        row_apart(t, f, far, d, h);
    }
}

// A fragment at every pair of states from d on before it.
pub fn layer(t: &mut Ranks<PLACES>, f: &Fragment<'_>, d: usize)
    requires { (d ≤ f.now.i) × FragmentRoom f.now.own d d (f.now.i + 1) (pairs (weights_in t.old)) }
    ensures weights { Made (with_fragment f.now (pairs (weights_in t.old))) (pairs (weights_in t.new)) d (f.now.i + 1) }
    ensures arrays { SameArrays t.old t.new }
{
    for h in d..f.i + 1 {
        row(t, f, d, h);
    }
}
