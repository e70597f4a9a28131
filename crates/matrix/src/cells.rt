// The cell matrix, 128 cells to a fragment: filled from a table's bytes, and read.
ghost use Rattle.std.specs.Prelude.{◌≡◌, ◌+◌, ◌*◌, length, get_or};
ghost use Rattle.fields.specs.Record.{is_call_code};
ghost use Rattle.matrix.specs.Algorithm.Cells.{table_cells};

use fields::{fill_row, is_call, record_at};

// Writes the cells of a table into a matrix of 128 cells to a fragment. By index: after a walk over chunks a proof knows none of the cells written.
pub fn fill_matrix(n: usize, table: &[u8], cells: &mut [u8])
    requires { length cells.old ≡ 16384 }
    ensures { cells.new ≡ table_cells n table.now }
{
    for i in 0..128 {
        let from = 128 * i;
        fill_row(n, record_at(table, i), &mut cells[from..from + 128]);
    }
}

// The cell of fragment i at column c, and 0 past the end.
fn cell_at(cells: &[u8], i: usize, c: usize) -> u8
    ensures { result ≡ get_or cells.now (i * 128 + c) 0 }
{
    let rows = cells.len() / 128;
    if i <= rows && c < cells.len() - i * 128 {
        cells[i * 128 + c]
    } else {
        0
    }
}

// Fragment i calls column c.
pub fn call_at(cells: &[u8], i: usize, c: usize) -> bool
    ensures { result ≡ is_call_code (get_or cells.now (i * 128 + c) 0) }
{
    is_call(cell_at(cells, i, c))
}
