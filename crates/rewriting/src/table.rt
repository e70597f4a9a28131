// A table's records with the codes of a cell matrix in the cells of each span, and no other bit changed.
ghost use Rattle.std.specs.Prelude.{◌≡◌, ◌*◌, ◌≤◌, ◌<◌, length, get_or};
ghost use Rattle.below.specs.Below.{tab};
ghost use Rattle.fields.specs.Table.{fragments};
ghost use Rattle.conflicts.specs.Answer.{rewritten_code, rewritten};
ghost use Rattle.rewriting.specs.Algorithm.Rewriting.{row_in, TwoBits, rewritten_table};

use fields::{byte, cell, record_at, span, start};

// The code of cell q of fragment i's record.
fn new_code(part: &[u8], cells: &[u8], i: usize, q: usize) -> u8
    requires { TwoBits cells.now × (i ≤ 128) × (q < 96) }
    ensures { (result ≡ rewritten_code part.now (row_in cells.now i) q) × (result < 4) }
{
    if q < usize::from(span(part)) {
        byte(cells, i * 128 + usize::from(start(part)) + q)
    } else {
        cell(part, q)
    }
}

// Byte b of fragment i's cells.
fn new_cells(part: &[u8], cells: &[u8], i: usize, b: usize) -> u8
    requires { TwoBits cells.now × (i ≤ 128) × (length part.now ≡ 32) × (8 ≤ b) × (b < 32) }
    ensures { result ≡ get_or (rewritten part.now (row_in cells.now i)) b 0 }
{
    let q = 4 * (b - 8);
    let code0 = new_code(part, cells, i, q);
    let code1 = new_code(part, cells, i, q + 1);
    let code2 = new_code(part, cells, i, q + 2);
    let code3 = new_code(part, cells, i, q + 3);
    code0 + 4 * code1 + 16 * code2 + 64 * code3
}

// Byte b of fragment i's record.
fn new_byte(part: &[u8], cells: &[u8], i: usize, b: usize) -> u8
    requires { TwoBits cells.now × (i ≤ 128) × (length part.now ≡ 32) × (b < 32) }
    ensures { result ≡ get_or (rewritten part.now (row_in cells.now i)) b 0 }
{
    if b < 8 {
        part[b]
    } else {
        new_cells(part, cells, i, b)
    }
}

// Writes fragment i's record.
fn fill_record(part: &[u8], cells: &[u8], i: usize, output: &mut [u8])
    requires { TwoBits cells.now × (i ≤ 128) × (length part.now ≡ 32) × (length output.old ≡ 32) }
    ensures { output.new ≡ tab 32 (λ b. get_or (rewritten part.now (row_in cells.now i)) b 0) }
{
    for b in 0..32 {
        output[b] = new_byte(part, cells, i, b);
    }
}

// Writes the records. Each is a range of the bytes, since chunks_exact_mut leaves open what a slice holds afterwards.
pub fn fill_records(table: &[u8], cells: &[u8], output: &mut [u8])
    requires { TwoBits cells.now × (fragments table.now ≤ 128) × (length output.old ≡ fragments table.now * 32) }
    ensures { output.new ≡ rewritten_table table.now cells.now }
{
    for i in 0..output.len() / 32 {
        let from = i * 32;
        fill_record(record_at(table, i), cells, i, &mut output[from..from + 32]);
    }
}
