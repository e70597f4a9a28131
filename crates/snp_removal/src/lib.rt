// The least SNP removal of a gapless table, over its masks.
#![tactic(auto)]

ghost use Rattle.std.specs.Prelude.{◌≡◌, length, ◌≤◌};
ghost use Rattle.conflicts.specs.Choice.{zeros};
ghost use Rattle.matrix.specs.Algorithm.Matrix.{Gapless};
ghost use Rattle.masks.specs.Algorithm.Masks.{Masks, words_grid};
ghost use Rattle.conflicts.specs.Removal.{snp_keep_marks_of};

use masks::{fill_columns, mask_room};
use places::Line;
use programme::STATES;
use ranks::table::Ranks;

mod columns;
mod programme;

// Writes the keep marks of the columns, and returns how many columns are removed. The number of fragments stands for the contract, which names their matrix.
pub fn snp_keep_marks(m: usize, n: usize, masks: &[Line; 128], keep: &mut [u8]) -> usize
    requires { (m ≤ 128) × (n ≤ 128) × Masks (words_grid m n masks.now) masks.now × Gapless (words_grid m n masks.now) × (length keep.old ≡ n) }
    ensures { (keep.new ≡ snp_keep_marks_of (words_grid m n masks.now)) × (result ≡ zeros (snp_keep_marks_of (words_grid m n masks.now))) }
{
    let mut counts = [0u16; STATES];
    let mut highs = [0u64; STATES];
    let mut lows = [0u64; STATES];
    let mut table = Ranks::new(&mut counts, &mut highs, &mut lows);
    let mut columns = mask_room();
    fill_columns(masks, &mut columns);
    programme::suffixes(n, &columns, &mut table);
    let least = table.get(0);
    for (p, mark) in keep.iter_mut().enumerate() {
        *mark = 1 - least.digit(p);
    }
    least.count as usize // a cast, since usize has no From<u32>
}
