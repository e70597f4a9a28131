// C: the calls to correct, of the least total.
ghost use Rattle.std.specs.Prelude.{◌≡◌, ◌*◌, ◌≤◌, length};
ghost use Rattle.records.specs.Outcome.{outcome_of};
ghost use Rattle.below.specs.Below.{nth};
ghost use Rattle.fields.specs.Table.{fragments};
ghost use Rattle.conflicts.specs.Choice.{marked, keep_all};
ghost use Rattle.conflicts.specs.Grid.{grid_of};
ghost use Rattle.matrix.specs.Algorithm.Matrix.{matrix_grid};
ghost use Rattle.conflicts.specs.Corrections.{changed_total};
ghost use Rattle.conflicts.specs.Answer.{answer_size, answer, correction_answer, corrected_table};
ghost use Rattle.conflicts.specs.Minimality.{LawfulSides};
ghost use Rattle.masks.specs.Algorithm.Masks.{LetteredTable};
ghost use Rattle.correcting.specs.Algorithm.Settled.{Settled};
ghost use Rattle.conflicts.specs.Services.{corrections_leaves};
ghost use Rattle.matrix.specs.Algorithm.Cells.{table_cells, table_weights};
ghost use Rattle.conflicts.specs.Served.{NoneDeep};
ghost use Rattle.slots.specs.Algorithm.Spans.{Spanned};
ghost use Rattle.correcting.specs.Algorithm.Stages.{CorrectionKept};
ghost use Rattle.correcting.specs.Meanings.{CorrectionSays};

use corrections::least_cost_sides;
use masks::{fill_masks, mask_room};
use matrix::{all_kept, blank_cells, fill_matrix, fill_weights};
use phasing::fill_answer;
use records::{Fault, Refusal, SizedTable, SoundTable};
use rewriting::{correct_cells, fill_records};
use slots::{Span, fill_spans, first_deep};
use stages::correction_fault;

// Writes the answer of a table's sides, with every column kept, from the masks of its records.
fn answer_sides(n: usize, table: &[u8], sides: &[u8], bytes: &mut [u8])
    requires { (n ≤ 128) × (length sides.now ≤ 128) × (length bytes.old ≡ answer_size (length sides.now) n) }
    ensures { LetteredTable n table.now → length sides.now ≡ fragments table.now
        → LawfulSides 2 (grid_of n table.now) (marked (keep_all n)) (marked sides.now) (nth sides.now)
        → bytes.new ≡ answer (grid_of n table.now) (keep_all n) sides.now }
{
    let mut masks = mask_room();
    fill_masks(table, &mut masks);
    let cols = all_kept();
    fill_answer(sides.len(), n, &masks, &cols[0..n], sides, bytes);
}

// A sound table of which at most 8 fragments cover a column (12), its cell matrix, and the spans of its fragments.
#[derive(Clone, Copy)]
struct ShallowTable<'a> {
    table: SoundTable<'a>,
    cells: &'a [u8],
    spans: &'a [Span; 128],
    ghost cells_value: { cells.now ≡ table_cells table.sized.n table.sized.bytes.now },
    ghost spanned: { Spanned (matrix_grid table.sized.m table.sized.n cells.now) spans.now },
    ghost shallow: { NoneDeep (matrix_grid table.sized.m table.sized.n cells.now) },
}

impl ShallowTable<'_> {
    // Settles the sides and the cells after correction, by the weights of the table's grades, and returns the cost.
    fn settle(self, sides: &mut [u8], fixed: &mut [u8]) -> usize
        requires { (length sides.old ≡ self.table.sized.m) × (length fixed.old ≡ 16384) }
        ensures { Settled self.entry.table.sized.m self.entry.table.sized.n self.entry.cells.now (table_weights self.entry.table.sized.bytes.now) sides.new fixed.new result }
    {
        let SizedTable { n, m, bytes } = self.table.sized;
        let mut weights = [0; 128];
        fill_weights(bytes, &mut weights);
        let total = least_cost_sides(m, n, self.cells, &weights, self.spans, sides);
        correct_cells(m, n, self.cells, &weights, sides, fixed);
        total
    }

    // Settles the sides, and writes the answer and the records after correction: the total of the corrected calls.
    fn correct(self, answer: &mut [u8], corrected: &mut [u8]) -> usize
        requires { (length answer.old ≡ answer_size self.table.sized.m self.table.sized.n) × (length corrected.old ≡ 32 * self.table.sized.m) }
        ensures total { result ≡ changed_total (grid_of self.entry.table.sized.n self.entry.table.sized.bytes.now) (grid_of self.entry.table.sized.n (corrected_table self.entry.table.sized.n self.entry.table.sized.bytes.now)) }
        ensures answer { answer.new ≡ correction_answer (grid_of self.entry.table.sized.n self.entry.table.sized.bytes.now) }
        ensures corrected { corrected.new ≡ corrected_table self.entry.table.sized.n self.entry.table.sized.bytes.now }
    {
        let SizedTable { n, m, bytes } = self.table.sized;
        let mut sides = [0; 128];
        let sides = &mut sides[0..m];
        let mut fixed = blank_cells();
        let total = self.settle(sides, &mut fixed);
        fill_records(bytes, &fixed, corrected);
        answer_sides(n, corrected, sides, answer);
        total
    }
}

// C once every rule but 12 is kept: 12, or the work.
fn correct_kept(
    table: SoundTable<'_>,
    work: &mut [u16],
    answer: &mut [u8],
    corrected: &mut [u8],
) -> Result<usize, Refusal>
    requires { CorrectionKept table.sized.n table.sized.m table.sized.bytes.now answer.old corrected.old work.old }
    ensures outcome { outcome_of result ≡ (corrections_leaves table.entry.sized.n table.entry.sized.bytes.now answer.old corrected.old work.old).outcome }
    ensures work { work.new ≡ (corrections_leaves table.entry.sized.n table.entry.sized.bytes.now answer.old corrected.old work.old).work }
    ensures answer { answer.new ≡ (corrections_leaves table.entry.sized.n table.entry.sized.bytes.now answer.old corrected.old work.old).answer }
    ensures corrected { corrected.new ≡ (corrections_leaves table.entry.sized.n table.entry.sized.bytes.now answer.old corrected.old work.old).table }
{
    let SizedTable { n, m, bytes } = table.sized;
    let mut cells = blank_cells();
    fill_matrix(n, bytes, &mut cells);
    let mut spans = [Span { start: 0, end: 0 }; 128];
    fill_spans(m, n, &cells, &mut spans);
    if let Some(c) = first_deep(m, n, &spans) {
        return Err(Fault::TooDeep.at(c));
    }
    let shallow = ShallowTable {
        table,
        cells: &cells,
        spans: &spans,
    };
    let total = shallow.correct(answer, corrected);
    work.fill(0);
    Ok(total)
}

// Accepted with the total of the corrected calls, each by its fragment's weight, the answer's 3n + 2m bytes, the 32m bytes of the corrected records, and the work all zero. A refusal writes nothing. Takes 47 KB of stack.
pub fn least_corrections(
    n: usize,
    table: &[u8],
    work: &mut [u16],
    answer: &mut [u8],
    corrected: &mut [u8],
) -> Result<usize, Refusal>
    ensures outcome { outcome_of result ≡ (corrections_leaves n table.now answer.old corrected.old work.old).outcome }
    ensures work { work.new ≡ (corrections_leaves n table.now answer.old corrected.old work.old).work }
    ensures answer { answer.new ≡ (corrections_leaves n table.now answer.old corrected.old work.old).answer }
    ensures corrected { corrected.new ≡ (corrections_leaves n table.now answer.old corrected.old work.old).table }
    ensures meaning { CorrectionSays n table.now answer.new corrected.new (outcome_of result) }
{
    let m = correction_fault(n, table, work, answer, corrected)?;
    let sized = SizedTable { n, m, bytes: table };
    let table = SoundTable { sized };
    correct_kept(table, work, answer, corrected)
}
