// A layer, and births, over three arrays of weights, with what they hold afterwards: for callers that read the arrays. F keeps one table throughout, and calls `layer` and `births`.
ghost use Rattle.std.specs.Prelude.{◌+◌, ◌≤◌};
ghost use Rattle.ranks.specs.Algorithm.Tables.{weights_of};
ghost use Rattle.fragment_pairs.specs.Algorithm.Layer.{with_fragment};
ghost use Rattle.fragment_pairs.specs.Algorithm.Pairs.{pairs, FragmentRoom, Made, Copied};

use crate::copying::births;
use crate::fragment::Fragment;
use crate::rows::{PLACES, layer};
use ranks::table::Ranks;

// `layer` of the table in these arrays.
pub fn layer_in(
    counts: &mut [u16; PLACES],
    highs: &mut [u64; PLACES],
    lows: &mut [u64; PLACES],
    f: &Fragment<'_>,
    d: usize,
)
    requires { (d ≤ f.now.i) × FragmentRoom f.now.own d d (f.now.i + 1) (pairs (weights_of counts.old highs.old lows.old)) }
    ensures { Made (with_fragment f.now (pairs (weights_of counts.old highs.old lows.old))) (pairs (weights_of counts.new highs.new lows.new)) d (f.now.i + 1) }
{
    let mut t = Ranks::new(counts, highs, lows);
    layer(&mut t, f, d);
}

// `births` of the table in these arrays.
pub fn births_in(
    counts: &mut [u16; PLACES],
    highs: &mut [u64; PLACES],
    lows: &mut [u64; PLACES],
    first: usize,
    d: usize,
    n: usize,
)
    requires { (first ≤ d) × (d ≤ n) × (n ≤ 128) }
    ensures { Copied (pairs (weights_of counts.old highs.old lows.old)) (pairs (weights_of counts.new highs.new lows.new)) first d n }
{
    let mut t = Ranks::new(counts, highs, lows);
    births(&mut t, first, d, n);
}
