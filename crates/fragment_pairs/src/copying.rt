// States that come to life: a dead state stood for them, and its weights are copied.
ghost use Rattle.std.specs.Prelude.{◌+◌, ◌<◌, ◌≤◌};
ghost use Rattle.ranks.specs.Algorithm.Lent.{weights_in, SameArrays};
ghost use Rattle.fragment_pairs.specs.Algorithm.Pairs.{pairs, Copied};

use crate::rows::{PLACES, row_start};
use ranks::table::Ranks;

// Gives state s the weights of the next state, with every state up to n.
fn birth(t: &mut Ranks<PLACES>, s: usize, n: usize)
    requires { (s < n) × (n ≤ 128) }
    ensures weights { Copied (pairs (weights_in t.old)) (pairs (weights_in t.new)) s (s + 1) n }
    ensures arrays { SameArrays t.old t.new }
{
    let next = s + 1;
    for h in next..n + 1 {
        let start = row_start(h);
        t.copy(start + next, start + s);
    }
    let other = row_start(next);
    let own = row_start(s);
    t.copy(other + next, own + s);
}

// Gives the states from `first` on and before d the weights of state d, with every state up to n.
pub fn births(t: &mut Ranks<PLACES>, first: usize, d: usize, n: usize)
    requires { (first ≤ d) × (d ≤ n) × (n ≤ 128) }
    ensures weights { Copied (pairs (weights_in t.old)) (pairs (weights_in t.new)) first d n }
    ensures arrays { SameArrays t.old t.new }
{
    for s in (first..d).rev() {
        birth(t, s, n);
    }
}
