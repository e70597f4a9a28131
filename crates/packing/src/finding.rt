// Find: the first record with a tag.
ghost use Rattle.fields.specs.Table.{Part};
ghost use Rattle.conflicts.specs.Services.{find_leaves};

use fields::{position_of, record_at};

// The first whole record with the tag, as those very bytes of the table; the empty part at its end where none has it.
pub fn find(tag: u32, table: &[u8]) -> &[u8]
    ensures { Part table.entry (find_leaves tag table.now).start (find_leaves tag table.now).count result }
{
    let i = position_of(tag, table);
    record_at(table, i)
}
