// Records written from rows of cells.
ghost use Rattle.std.specs.Prelude.{◌≡◌, [], ◌∷◌, ◌++◌, ℕ, ◌+◌, ◌*◌, ◌^◌, ◌<◌, ◌≤◌, T, length};
ghost use Rattle.below.specs.Below.{sum_below};
ghost use Rattle.fields.specs.Writing.{bytes_of, calls_span_of, cell_bytes, codes_of, cut, laid_out, writable_row, RecordWritten};

use crate::rows::{any_unknown, calls_end, calls_start};
use fields::{CELLS, HEADER_BYTES, RECORD_BYTES, byte};

// The highest grade.
const MAX_GRADE: u8 = 15;

// Whether a row whose calls reach over a number of columns has a record.
fn is_writable(row: &[u8], span: usize) -> bool
    requires { span ≡ calls_span_of (length row.now) (codes_of row.now) }
    ensures { result ≡ writable_row (length row.now) (codes_of row.now) }
{
    row.len() <= 128 && !any_unknown(row) && span <= CELLS
}

// Byte b of the cells of a span.
fn cell_byte(calls: &[u8], b: usize) -> u8
    requires by_index { (c : ℕ) → codes_of calls.now c ≤ 2 }
    requires b_bound { b < 24 }
    ensures { result ≡ sum_below 4 (λ q. 4 ^ q * codes_of calls.now (4 * b + q)) }
{
    let first = byte(calls, 4 * b);
    let second = byte(calls, 4 * b + 1);
    let third = byte(calls, 4 * b + 2);
    let last = byte(calls, 4 * b + 3);
    first + 4 * second + 16 * third + 64 * last
}

// The 8 bytes before the cells. Casts, since the clauses say that start and span fit.
fn header(tag: u32, grade: u8, start: usize, span: usize) -> [u8; HEADER_BYTES]
    requires { (start ≤ 128) × (span ≤ 96) }
    ensures { result ≡ bytes_of 4 tag ++ bytes_of 2 start ++ span ∷ grade ∷ [] }
{
    let [t0, t1, t2, t3] = tag.to_le_bytes();
    let [s0, s1] = (start as u16).to_le_bytes();
    [t0, t1, t2, t3, s0, s1, span as u8, grade]
}

// Writes the 24 bytes of a span's cells.
fn fill_cells(calls: &[u8], cells: &mut [u8])
    requires by_index { (c : ℕ) → codes_of calls.now c ≤ 2 }
    requires cells_len { length cells.old ≡ 24 }
    ensures { cells.new ≡ cell_bytes (codes_of calls.now) }
{
    for (b, four) in cells.iter_mut().enumerate() {
        *four = cell_byte(calls, b);
    }
}

// Writes the record of a writable row whose calls start at a column and reach over a number of them.
fn fill_record(tag: u32, grade: u8, row: &[u8], start: usize, span: usize, record: &mut [u8])
    requires t { T (writable_row (length row.now) (codes_of row.now)) }
    requires span_in_bounds { (start + span ≤ length row.now) × (span ≤ 96) × (length «record».old ≡ 32) }
    ensures { «record».new ≡ laid_out tag start span grade (cut start span (codes_of row.now)) }
{
    let (head, cells) = record.split_at_mut(HEADER_BYTES);
    head.copy_from_slice(&header(tag, grade, start, span));
    fill_cells(&row[start..start + span], cells);
}

// Writes the record of a row into its own 32 bytes; no, and nothing written, where the grade is over 15, the row has no record or the bytes are not 32.
pub fn write_record(tag: u32, grade: u8, row: &[u8], record: &mut [u8]) -> bool
    ensures { RecordWritten tag grade row.now «record».old «record».new result }
{
    if record.len() != RECORD_BYTES || MAX_GRADE < grade {
        return false;
    }
    let start = calls_start(row);
    let span = calls_end(row) - start;
    if !is_writable(row, span) {
        return false;
    }
    fill_record(tag, grade, row, start, span, record);
    true
}
