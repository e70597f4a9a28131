// The weights of a table's fragments.
ghost use Rattle.std.specs.Prelude.{◌≡◌, length};
ghost use Rattle.matrix.specs.Algorithm.Cells.{table_weight, table_weights};

use fields::{grade, record_at, weight};

// The weight of fragment i, and 1 where there is none: the empty part has grade 0.
fn weight_at(table: &[u8], i: usize) -> u8
    ensures { result ≡ table_weight table.now i }
{
    weight(grade(record_at(table, i)))
}

// Writes the weights of a table.
pub fn fill_weights(table: &[u8], weights: &mut [u8])
    requires { length weights.old ≡ 128 }
    ensures { weights.new ≡ table_weights table.now }
{
    for (i, entry) in weights.iter_mut().enumerate() {
        *entry = weight_at(table, i);
    }
}
