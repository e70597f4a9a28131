// The least corrections of a table of which at most 8 fragments cover a column, over its cell matrix.
#![tactic(auto)]

ghost use Rattle.std.specs.Prelude.{◌≡◌, length};
ghost use Rattle.matrix.specs.Algorithm.Matrix.{matrix_grid, weighted_grid, Matrix, Weights};
ghost use Rattle.conflicts.specs.Corrections.{cost, least_cost_sides_of};
ghost use Rattle.conflicts.specs.Served.{NoneDeep};
ghost use Rattle.slots.specs.Algorithm.Spans.{Spanned};

use columns::Columns;
use ranks::table::Ranks;
use slots::{Span, fill_slots};

mod columns;
mod sweep;

// Writes the first side list of least cost by the weights, and returns that cost. The spans are those of the fragments.
pub fn least_cost_sides(
    m: usize,
    n: usize,
    cells: &[u8],
    weights: &[u8; 128],
    spans: &[Span; 128],
    sides: &mut [u8],
) -> usize
    requires { Matrix m n cells.now × Weights weights.now × Spanned (matrix_grid m n cells.now) spans.now × NoneDeep (matrix_grid m n cells.now) × (length sides.old ≡ m) }
    ensures { (sides.new ≡ least_cost_sides_of 2 (weighted_grid m n cells.now weights.now))
        × (result ≡ cost 2 (weighted_grid m n cells.now weights.now) (least_cost_sides_of 2 (weighted_grid m n cells.now weights.now))) }
{
    let mut slots = [0; 128];
    fill_slots(m, n, cells, spans, &mut slots);
    let columns = Columns {
        m,
        n,
        cells,
        weights,
        spans,
        slots: &slots,
    };
    let mut counts = [0u16; 256];
    let mut highs = [0u64; 256];
    let mut lows = [0u64; 256];
    let mut t = Ranks::new(&mut counts, &mut highs, &mut lows);
    columns.eliminate(&mut t);
    let r = t.get(0);
    for (p, side) in sides.iter_mut().enumerate() {
        *side = 1 + r.digit(p);
    }
    r.count as usize // a cast, since usize has no From<u32>
}
