// The programme over suffixes of the columns, in place: one least weight for each state (paper 001, section 5.1).
ghost use Rattle.std.specs.Prelude.{◌≡◌, ◌+◌, ◌-◌, ◌<◌, ◌≤◌};
ghost use Rattle.below.specs.Below.{nth};
ghost use Rattle.conflicts.specs.Grid.{Grid};
ghost use Rattle.masks.specs.Algorithm.Masks.{transposed, Masks};
ghost use Rattle.ranks.specs.Algorithm.Weight.{place, AtMost, removal};
ghost use Rattle.ranks.specs.Algorithm.Reading.{value};
ghost use Rattle.ranks.specs.Algorithm.Tables.{Sweep};
ghost use Rattle.ranks.specs.Algorithm.Lent.{weights_in};
ghost use Rattle.snp_removal.specs.Algorithm.Columns.{words_follow};
ghost use Rattle.snp_removal.specs.Algorithm.Programme.{if_follows, ColumnRoom, HoldsColumns};

use crate::columns;
use places::Line;
use ranks::rank::Rank;
use ranks::table::Ranks;

// A state is the last kept mixed column plus one, or 0 for none.
pub(crate) const STATES: usize = 129;

// The least weight at state j with the mixed column i before the columns of the table, which costs `out` if it is removed.
fn weight_at(columns: &[Line; 128], t: &Ranks<STATES>, out: Rank, i: usize, j: usize) -> Rank
    requires { (i < 128) × (j ≤ i) × (value out ≡ removal i)
        × AtMost 127 (place i - 1) (nth (weights_in t.now) j) × AtMost 127 (place i - 1) (nth (weights_in t.now) (i + 1)) }
    ensures { (value result ≡ if_follows (words_follow columns.now j i) i (nth (weights_in t.now)) j) × (result.count < 65536) }
{
    let gone = out.plus(t.get(j));
    gone.lesser_if(columns::may_follow(columns, j, i), t.get(i + 1))
}

// The mixed column i, at every state before it.
fn column(columns: &[Line; 128], t: &mut Ranks<STATES>, i: usize)
    requires { (i < 128) × ColumnRoom i (nth (weights_in t.old)) }
    ensures { Sweep (λ j. if_follows (words_follow columns.now j i) i (nth (weights_in t.old)) j) (nth (weights_in t.old)) (nth (weights_in t.new)) 0 (i + 1) }
{
    let out = Rank::single(1, i);
    for j in 0..i + 1 {
        let r = weight_at(columns, t, out, i, j);
        t.put(j, r);
    }
}

// One of n columns more, before the last k.
fn extend(n: usize, columns: &[Line; 128], t: &mut Ranks<STATES>, k: usize)
    requires { (n ≤ 128) × (k < n) × (g : Grid) × Masks (transposed g) columns.now × (n ≡ g.n) × HoldsColumns g k (nth (weights_in t.old)) }
    ensures { (g : Grid) → Masks (transposed g) columns.now → n ≡ g.n → HoldsColumns g k (nth (weights_in t.old)) → HoldsColumns g (k + 1) (nth (weights_in t.new)) }
{
    let i = n - 1 - k;
    if columns::column_mixed(columns, i) {
        column(columns, t, i);
    }
}

// All n columns, from a table of zeros.
pub(crate) fn suffixes(n: usize, columns: &[Line; 128], t: &mut Ranks<STATES>)
    requires { (n ≤ 128) × (g : Grid) × Masks (transposed g) columns.now × (n ≡ g.n) × HoldsColumns g 0 (nth (weights_in t.old)) }
    ensures { (g : Grid) → Masks (transposed g) columns.now → n ≡ g.n → HoldsColumns g 0 (nth (weights_in t.old)) → HoldsColumns g n (nth (weights_in t.new)) }
{
    for k in 0..n {
        extend(n, columns, t, k);
    }
}
