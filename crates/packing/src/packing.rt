// Pack: cells, tags and grades to a table's records.
ghost use Rattle.std.specs.Prelude.{◌≡◌, ◌+◌, ◌*◌, ◌-◌, ◌<◌, ◌≤◌, length};
ghost use Rattle.below.specs.Below.{◌=?◌, ◌<?◌, ◌and◌};
ghost use Rattle.fields.specs.Writing.{packed};
ghost use Rattle.records.specs.Outcome.{accepted, outcome_of, tested_of};
ghost use Rattle.records.specs.Rules.{decide, tag_twice, precedes};
ghost use Rattle.conflicts.specs.Services.{pack_size_rules, packed_start, packed_tag, ungraded_rules, fragment_rules, pack_leaves};
ghost use Rattle.packing.specs.Algorithm.Sizes.{PackSized, FragmentsKept, Starts, fragments_rules};

use fields::byte;
use records::{Fault, Refusal, comes_before};
use writing::{any_unknown, calls_end, calls_start, write_record};

// Whether a length is m × n, with no product that could overflow.
fn is_product(len: usize, m: usize, n: usize) -> bool
    ensures { result ≡ (len =? m * n) }
{
    if n == 0 {
        return len == 0;
    }
    len % n == 0 && len / n == m
}

// The sizes by 3, 1, 2: the first fault, or the number of tags. The four stand alone, since only these rules make them `Fragments`.
fn pack_size_fault(n: usize, cells: &[u8], tags: &[u32], grades: &[u8]) -> Result<usize, Refusal>
    ensures { outcome_of result ≡ decide (pack_size_rules n cells.now tags.now grades.now) (accepted (length tags.now)) }
{
    if 128 < n {
        return Err(Fault::TooManySnps.at(0));
    }
    let m = tags.len();
    if !is_product(cells.len(), m, n) || grades.len() != m {
        return Err(Fault::RaggedFile.at(0));
    }
    if 128 < m {
        return Err(Fault::TooManyFragments.at(0));
    }
    Ok(m)
}

// Whether a fragment before i has the tag of fragment i.
fn tag_before(tags: &[u32], i: usize) -> bool
    requires { i < length tags.now }
    ensures { result ≡ tag_twice (packed_tag tags.now) i }
{
    tags[..i].contains(&tags[i])
}

// Whether fragment i, by its start and its tag, comes before the one that it follows, whose start was the last.
fn out_of_order(tags: &[u32], i: usize, start: usize, last: usize) -> bool
    requires { i < length tags.now }
    ensures { result ≡ (0 <? i and precedes start (packed_tag tags.now i) last (packed_tag tags.now (i - 1))) }
{
    0 < i && comes_before(start, tags[i], last, tags[i - 1])
}

// Fragments to be packed, whose sizes keep 3, 1 and 2.
#[derive(Clone, Copy)]
pub(crate) struct Fragments<'a> {
    pub(crate) n: usize,
    pub(crate) cells: &'a [u8],
    pub(crate) tags: &'a [u32],
    pub(crate) grades: &'a [u8],
    ghost sized: { PackSized n cells.now tags.now grades.now },
}

impl Fragments<'_> {
    // The start that the record of fragment i would have: 0 without calls, as `packed_start` has it.
    fn start_of(self, i: usize) -> usize
        requires { i < length self.tags.now }
        ensures { result ≡ packed_start self.entry.n self.entry.cells.now i }
    {
        let from = i * self.n;
        calls_start(&self.cells[from..from + self.n])
    }

    // Fragment i by 6, 17, 4, 9 and 13, by its start and the last one: no row is looked through for its start twice.
    fn ungraded_fault(self, i: usize, start: usize, last: usize) -> Result<(), Refusal>
        requires i_in_bounds { i < length self.tags.now }
        requires starts { Starts self.n self.cells.now i start last }
        ensures { tested_of result ≡ decide (ungraded_rules self.entry.n self.entry.cells.now self.entry.tags.now i) (accepted 0) }
    {
        let tags = self.tags;
        let from = i * self.n;
        let row = &self.cells[from..from + self.n];
        if any_unknown(row) {
            return Err(Fault::UnknownCall.at(i));
        }
        let end = calls_end(row);
        if end == 0 {
            return Err(Fault::NoCall.at(i));
        }
        if 96 < end - start {
            return Err(Fault::OutOfFrame.at(i));
        }
        if tag_before(tags, i) {
            return Err(Fault::TagTwice.at(i));
        }
        if out_of_order(tags, i, start, last) {
            return Err(Fault::OutOfOrder.at(i));
        }
        Ok(())
    }

    // Fragment i by 5, and then by its cells and its tag.
    fn fragment_fault(self, i: usize, start: usize, last: usize) -> Result<(), Refusal>
        requires i_in_bounds { i < length self.tags.now }
        requires starts { Starts self.n self.cells.now i start last }
        ensures { tested_of result ≡ decide (fragment_rules self.entry.n self.entry.cells.now self.entry.tags.now self.entry.grades.now i) (accepted 0) }
    {
        let grades = self.grades;
        if 15 < byte(grades, i) {
            return Err(Fault::StrayBits.at(i));
        }
        self.ungraded_fault(i, start, last)
    }

    // The fragments from 0, each by 5, 6, 17, 4, 9 and 13: the first fault, or the number of tags. By index, which is a refusal's place.
    fn fragments_fault(self) -> Result<usize, Refusal>
        ensures { outcome_of result ≡ decide (fragments_rules self.entry.n self.entry.cells.now self.entry.tags.now self.entry.grades.now) (accepted (length self.entry.tags.now)) }
    {
        let m = self.tags.len();
        let mut last = 0;
        for i in 0..m {
            let start = self.start_of(i);
            self.fragment_fault(i, start, last)?;
            last = start;
        }
        Ok(m)
    }

    // Writes the record of each fragment into its own 32 bytes. By index, since three lists and the table are walked at once.
    fn fill_table(self, table: &mut [u8])
        requires fragments_kept { FragmentsKept self.n self.cells.now self.tags.now self.grades.now }
        requires table_len { length table.old ≡ 32 * length self.tags.now }
        ensures { table.new ≡ packed self.entry.n self.entry.cells.now self.entry.tags.now self.entry.grades.now }
    {
        let Fragments {
            n,
            cells,
            tags,
            grades,
        } = self;
        // Where the row starts: a sum, so that no product can overflow.
        let mut first = 0;
        for i in 0..tags.len() {
            let to = 32 * i;
            write_record(
                tags[i],
                byte(grades, i),
                &cells[first..first + n],
                &mut table[to..to + 32],
            );
            first += n;
        }
    }
}

// Pack once the sizes are kept: the table's length, then the fragments.
fn pack_sized(fragments: Fragments<'_>, table: &mut [u8]) -> Result<usize, Refusal>
    ensures outcome { outcome_of result ≡ (pack_leaves fragments.entry.n fragments.entry.cells.now fragments.entry.tags.now fragments.entry.grades.now table.old).outcome }
    ensures table { table.new ≡ (pack_leaves fragments.entry.n fragments.entry.cells.now fragments.entry.tags.now fragments.entry.grades.now table.old).table }
{
    if table.len() != 32 * fragments.tags.len() {
        return Err(Fault::WrongBuffer.at(0));
    }
    let m = fragments.fragments_fault()?;
    fragments.fill_table(table);
    Ok(m)
}

// Writes the record of each fragment from its tag, its grade and its cells; a refusal writes nothing.
pub fn pack(
    n: usize,
    cells: &[u8],
    tags: &[u32],
    grades: &[u8],
    table: &mut [u8],
) -> Result<usize, Refusal>
    ensures outcome { outcome_of result ≡ (pack_leaves n cells.now tags.now grades.now table.old).outcome }
    ensures table { table.new ≡ (pack_leaves n cells.now tags.now grades.now table.old).table }
{
    pack_size_fault(n, cells, tags, grades)?;
    let fragments = Fragments {
        n,
        cells,
        tags,
        grades,
    };
    pack_sized(fragments, table)
}
