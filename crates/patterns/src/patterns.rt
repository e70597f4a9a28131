// What the events of C's elimination do to the weights of the 256 side patterns of 8 slots: a column is charged, a fragment enters.
ghost use Rattle.std.specs.Prelude.{◌≡◌, ℕ, ◌+◌, ◌*◌, ◌<◌, ◌≤◌};
ghost use Rattle.below.specs.Below.{nth};
ghost use Rattle.ranks.specs.Algorithm.Weight.{top, place};
ghost use Rattle.ranks.specs.Algorithm.Reading.{value};
ghost use Rattle.ranks.specs.Algorithm.Tables.{Sweep};
ghost use Rattle.ranks.specs.Algorithm.Lent.{weights_in};
ghost use Rattle.events.specs.Algorithm.Weights.{side_weight};
ghost use Rattle.events.specs.Algorithm.Slots.{entered};
ghost use Rattle.patterns.specs.Algorithm.Patterns.{Alone, PatternRoom, PatternsRoom, entered_at, Prices, slot_total_of, slot_cost};

use ranks::rank::Rank;
use ranks::table::Ranks;

// What the slots with digit d of a mask come to.
fn slot_total(prices: &[u8; 8], mask: usize, d: usize) -> u32
    requires { Prices prices.now × (mask < 256) }
    ensures { (result ≡ slot_total_of prices.now mask d) × (result ≤ 480) }
{
    let mut total = 0;
    for b in 0..8 {
        if (mask >> b) % 2 == d {
            total += u32::from(prices[b]);
        }
    }
    total
}

// What a mask costs at the prices of a column.
fn mask_cost(a: &[u8; 8], b: &[u8; 8], mask: usize) -> u32
    requires { Prices a.now × Prices b.now × (mask < 256) }
    ensures { (result ≡ slot_cost a.now b.now mask) × (result ≤ 960) }
{
    let a1 = slot_total(a, mask, 0);
    let b1 = slot_total(b, mask, 0);
    let a2 = slot_total(a, mask, 1);
    let b2 = slot_total(b, mask, 1);
    a1.min(b1) + a2.min(b2)
}

// A mask's weight where a column is charged.
fn charged_at(a: &[u8; 8], b: &[u8; 8], t: &Ranks<256>, mask: usize) -> Rank
    requires { Prices a.now × Prices b.now × (mask < 256) × PatternRoom 0 (nth (weights_in t.now) mask) }
    ensures { (value result ≡ slot_cost a.now b.now mask * top + nth (weights_in t.now) mask) × (result.count < 65536) }
{
    let cost = Rank::counted(mask_cost(a, b, mask));
    cost.plus(t.get(mask))
}

// A column is charged at every mask, by the prices of A and of B in the slots.
pub fn charge(a: &[u8; 8], b: &[u8; 8], t: &mut Ranks<256>)
    requires { Prices a.now × Prices b.now × PatternsRoom 0 0 (nth (weights_in t.old)) }
    ensures { Sweep (λ (mask : ℕ). slot_cost a.now b.now mask * top + nth (weights_in t.old) mask) (nth (weights_in t.old)) (nth (weights_in t.new)) 0 256 }
{
    for mask in 0..256 {
        let charged = charged_at(a, b, t, mask);
        t.put(mask, charged);
    }
}

// A mask's weight where fragment f, which weighs `out` on side 2, enters at slot b.
fn entered_at(t: &Ranks<256>, out: Rank, f: usize, b: usize, mask: usize) -> Rank
    requires { Alone f out × (b < 8) × (mask < 256) × PatternsRoom 0 0 (nth (weights_in t.now)) × PatternsRoom (place f) mask (nth (weights_in t.now)) }
    ensures { (value result ≡ entered_at b (place f) (nth (weights_in t.now)) mask) × PatternRoom 0 (value result) }
{
    let bit = 1usize << b;
    if (mask >> b) % 2 == 0 {
        let other = t.get(mask + bit);
        t.get(mask).lesser(out.plus(other))
    } else {
        t.get(mask - bit)
    }
}

// Fragment f enters at slot b, at every mask.
pub fn enter(t: &mut Ranks<256>, f: usize, b: usize)
    requires { (f < 128) × (b < 8) × PatternsRoom (place f) 0 (nth (weights_in t.old)) }
    ensures { Sweep (entered 2 b (side_weight f) (nth (weights_in t.old))) (nth (weights_in t.old)) (nth (weights_in t.new)) 0 256 }
{
    let out = Rank::single(0, f);
    for mask in 0..256 {
        let entered = entered_at(t, out, f, b, mask);
        t.put(mask, entered);
    }
}
