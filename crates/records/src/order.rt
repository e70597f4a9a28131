// The order of records: by start, and at one start by tag.
ghost use Rattle.std.specs.Prelude.{◌≡◌, ◌<◌};
ghost use Rattle.fields.specs.Table.{fragments, start_at, tag_at};
ghost use Rattle.records.specs.Rules.{precedes, is_out_of_order};

use fields::{record_at, start, tag};

// Whether a record with this start and tag comes before one with the others. Four numbers, since pack asks before there is a record.
pub fn comes_before(start: usize, tag: u32, start2: usize, tag2: u32) -> bool
    ensures { result ≡ precedes start tag start2 tag2 }
{
    (start, tag) < (start2, tag2)
}

// 13: record i comes before the one that it follows.
pub(crate) fn out_of_order(table: &[u8], i: usize) -> bool
    requires { i < fragments table.now }
    ensures { result ≡ is_out_of_order (start_at table.now) (tag_at table.now) i }
{
    if i == 0 {
        return false;
    }
    let part = record_at(table, i);
    let last = record_at(table, i - 1);
    comes_before(
        usize::from(start(part)),
        tag(part),
        usize::from(start(last)),
        tag(last),
    )
}
