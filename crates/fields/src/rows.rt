// A record's codes, column by column.
ghost use Rattle.std.specs.Prelude.{◌≡◌, ℕ, ◌*◌, ◌/◌, ◌≤◌, ◌<◌, length, get_or, replicate, if◌then◌else◌};
ghost use Rattle.below.specs.Below.{◌<?◌, tab};
ghost use Rattle.fields.specs.Record.{cell_of, code_at};

use crate::fields::{CELLS, HEADER_BYTES, HOLE, byte, cell, span, start};

// Writes 0 to every byte: a name of its own for programs of the centre.
pub fn clear(row: &mut [u8])
    ensures { row.new ≡ replicate (length row.old) 0 }
{
    row.fill(0);
}

// Writes the cells of whole bytes, four to a byte, from cell 0 on: as many as have their place in the row. By index: a byte stands for four cells of another slice.
fn write_bytes(part: &[u8], row: &mut [u8])
    requires { length row.old ≤ 96 }
    ensures { (c : ℕ) → c < 4 * (length row.old / 4) → get_or row.new c 0 ≡ cell_of part.now c }
{
    for b in 0..row.len() / 4 {
        let codes = byte(part, HEADER_BYTES + b);
        let c = 4 * b;
        row[c] = codes % 4;
        row[c + 1] = codes / 4 % 4;
        row[c + 2] = codes / 16 % 4;
        row[c + 3] = codes / 64;
    }
}

// Writes the cells from cell 0 on, one to each place: by whole bytes, and the last three at most one by one.
fn write_cells(part: &[u8], row: &mut [u8])
    requires { length row.old ≤ 96 }
    ensures { row.new ≡ tab (length row.old) (cell_of part.now) }
{
    write_bytes(part, row);
    for c in 4 * (row.len() / 4)..row.len() {
        row[c] = cell(part, c);
    }
}

// Writes a record's codes at the columns below n to a row, and 0 after them.
pub fn fill_row(n: usize, part: &[u8], row: &mut [u8])
    ensures { row.new ≡ tab (length row.old) (λ c. if c <? n then code_at part.now c else 0) }
{
    row.fill(HOLE);
    let s = usize::from(start(part));
    let k = usize::from(span(part)).min(CELLS);
    let end = (s + k).min(n).min(row.len());
    let first = s.min(end);
    write_cells(part, &mut row[first..end]);
}
