// A table's records: one by its position, the first with a tag, and the columns that all of them need.
ghost use Rattle.std.specs.Prelude.{◌≡◌, ◌+◌};
ghost use Rattle.fields.specs.Record.{start_of, span_of};
ghost use Rattle.fields.specs.Table.{part_start, part_length, Part, position, column_count_of};

use crate::fields::{RECORD_BYTES, span, start, tag};

// Record i, as its own 32 bytes of the table; the empty part at the table's end where there is no whole record i.
pub fn record_at(table: &[u8], i: usize) -> &[u8]
    ensures { Part table.entry (part_start table.now i) (part_length table.now i) result }
{
    let m = table.len() / RECORD_BYTES;
    if i < m {
        let from = RECORD_BYTES * i;
        &table[from..from + RECORD_BYTES]
    } else {
        let end = table.len();
        &table[end..]
    }
}

// The position of the first whole record with the tag, or the number of whole records where none has it: a number, as `position` defines it, and no Option.
pub fn position_of(sought: u32, table: &[u8]) -> usize
    ensures { result ≡ position sought table.now }
{
    let m = table.len() / RECORD_BYTES;
    for i in 0..m {
        if tag(record_at(table, i)) == sought {
            return i;
        }
    }
    m
}

// One past the last column of a record's span.
fn end_column(part: &[u8]) -> usize
    ensures { result ≡ start_of part.now + span_of part.now }
{
    usize::from(start(part)) + usize::from(span(part))
}

// The smallest column count that holds every whole record; 0 if there is none.
pub fn column_count(table: &[u8]) -> usize
    ensures { result ≡ column_count_of table.now }
{
    let mut n = 0usize;
    for i in 0..table.len() / RECORD_BYTES {
        n = n.max(end_column(record_at(table, i)));
    }
    n
}
