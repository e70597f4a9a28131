// S: the fewest SNPs to remove.
ghost use Rattle.std.specs.Prelude.{◌≡◌, length};
ghost use Rattle.records.specs.Outcome.{outcome_of};
ghost use Rattle.conflicts.specs.Choice.{zeros};
ghost use Rattle.conflicts.specs.Grid.{grid_of};
ghost use Rattle.conflicts.specs.Removal.{snp_keep_marks_of};
ghost use Rattle.conflicts.specs.Answer.{answer_size, snp_answer};
ghost use Rattle.conflicts.specs.Services.{snp_removal_leaves};
ghost use Rattle.removals.specs.Meanings.{SnpSays};

use masks::{fill_masks, mask_room};
use matrix::all_kept;
use phasing::phase;
use records::{GaplessTable, Refusal, SizedTable};
use snp_removal::snp_keep_marks;
use stages::removal_fault;

// Settles the columns and phases the fragments on those kept: the number of removed columns, and the answer.
fn remove_snps(table: GaplessTable<'_>, answer: &mut [u8]) -> usize
    requires { length answer.old ≡ answer_size table.sized.m table.sized.n }
    ensures count { result ≡ zeros (snp_keep_marks_of (grid_of table.entry.sized.n table.entry.sized.bytes.now)) }
    ensures answer { answer.new ≡ snp_answer (grid_of table.entry.sized.n table.entry.sized.bytes.now) }
{
    let SizedTable { n, m, bytes } = table.sized;
    let mut masks = mask_room();
    fill_masks(bytes, &mut masks);
    let mut cols = all_kept();
    let keep = &mut cols[0..n];
    let count = snp_keep_marks(m, n, &masks, keep);
    let frags = all_kept();
    phase(m, n, &masks, keep, &frags[0..m], answer);
    count
}

// Accepted with the number of removed columns, the answer's 3n + 2m bytes, and the work all zero. A refusal writes nothing. Takes 14 KB of stack.
pub fn least_snp_removal(
    n: usize,
    table: &[u8],
    work: &mut [u16],
    answer: &mut [u8],
) -> Result<usize, Refusal>
    ensures outcome { outcome_of result ≡ (snp_removal_leaves n table.now answer.old work.old).outcome }
    ensures work { work.new ≡ (snp_removal_leaves n table.now answer.old work.old).work }
    ensures answer { answer.new ≡ (snp_removal_leaves n table.now answer.old work.old).answer }
    ensures meaning { SnpSays n table.now answer.new (outcome_of result) }
{
    let m = removal_fault(n, table, work, answer)?;
    let sized = SizedTable { n, m, bytes: table };
    let table = GaplessTable { sized };
    let count = remove_snps(table, answer);
    work.fill(0);
    Ok(count)
}
