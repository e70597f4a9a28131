// Unpack: a table's records to cells, tags and grades.
ghost use Rattle.std.specs.Prelude.{◌≡◌, ◌*◌, length};
ghost use Rattle.fields.specs.Table.{fragments, unpacked_cells, unpacked_tags, unpacked_grades};
ghost use Rattle.records.specs.Outcome.{outcome_of};
ghost use Rattle.conflicts.specs.Services.{unpack_leaves};

use fields::{fill_row, grade, record_at, tag};
use records::{Fault, Refusal, SizedTable};

// Writes the row of n cells, the tag and the grade of each record. The three buffers are the caller's, and stand alone as it lends them. By index, since three buffers and the table are walked at once.
fn fill(n: usize, table: &[u8], cells: &mut [u8], tags: &mut [u32], grades: &mut [u8])
    requires cells_len { length cells.old ≡ fragments table.now * n }
    requires tags_len { length tags.old ≡ fragments table.now }
    requires grades_len { length grades.old ≡ fragments table.now }
    ensures cells { cells.new ≡ unpacked_cells n table.now }
    ensures tags { tags.new ≡ unpacked_tags table.now }
    ensures grades { grades.new ≡ unpacked_grades table.now }
{
    // Where the row starts: a sum, so that no product can overflow.
    let mut first = 0;
    for i in 0..tags.len() {
        let part = record_at(table, i);
        fill_row(n, part, &mut cells[first..first + n]);
        first += n;
        tags[i] = tag(part);
        grades[i] = grade(part);
    }
}

// Unpack once the sizes are kept: the outputs' lengths, then the records.
fn unpack_sized(
    table: SizedTable<'_>,
    cells: &mut [u8],
    tags: &mut [u32],
    grades: &mut [u8],
) -> Result<usize, Refusal>
    ensures outcome { outcome_of result ≡ (unpack_leaves table.entry.n table.entry.bytes.now cells.old tags.old grades.old).outcome }
    ensures cells { cells.new ≡ (unpack_leaves table.entry.n table.entry.bytes.now cells.old tags.old grades.old).cells }
    ensures tags { tags.new ≡ (unpack_leaves table.entry.n table.entry.bytes.now cells.old tags.old grades.old).tags }
    ensures grades { grades.new ≡ (unpack_leaves table.entry.n table.entry.bytes.now cells.old tags.old grades.old).grades }
{
    let SizedTable { n, m, bytes } = table;
    if cells.len() != m * n || tags.len() != m || grades.len() != m {
        return Err(Fault::WrongBuffer.at(0));
    }
    table.sound()?;
    fill(n, bytes, cells, tags, grades);
    Ok(m)
}

// Writes the m × n cells, one byte each by fragment and then column, the m tags and the m grades; a refusal writes nothing.
pub fn unpack(
    n: usize,
    table: &[u8],
    cells: &mut [u8],
    tags: &mut [u32],
    grades: &mut [u8],
) -> Result<usize, Refusal>
    ensures outcome { outcome_of result ≡ (unpack_leaves n table.now cells.old tags.old grades.old).outcome }
    ensures cells { cells.new ≡ (unpack_leaves n table.now cells.old tags.old grades.old).cells }
    ensures tags { tags.new ≡ (unpack_leaves n table.now cells.old tags.old grades.old).tags }
    ensures grades { grades.new ≡ (unpack_leaves n table.now cells.old tags.old grades.old).grades }
{
    let table = SizedTable::read(n, table)?;
    unpack_sized(table, cells, tags, grades)
}
