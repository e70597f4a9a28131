// Columns by their masks: which are mixed, and which are in conflict (paper 001, section 3.1).
ghost use Rattle.std.specs.Prelude.{◌≡◌, ◌<◌, ◌≤◌, if◌then◌else◌};
ghost use Rattle.snp_removal.specs.Algorithm.Columns.{words_mixed, words_follow};

use conflicts::Tally;
use places::{Line, columns_conflict};

// A call of the letter where some fragment has it, and a hole where none does. A function, since it is asked for twice.
fn letter_call(some: bool, letter: u8) -> u8
    ensures { result ≡ if some then letter else 0 }
{
    if some { letter } else { 0 }
}

// Column c is mixed. Its tally takes one call of each letter that occurs: more calls of a letter change nothing.
pub(crate) fn column_mixed(columns: &[Line; 128], c: usize) -> bool
    requires { c < 128 }
    ensures { result ≡ words_mixed columns.now c }
{
    let line = columns[c];
    let a = letter_call(line.a.any(), 1);
    let b = letter_call(line.b.any(), 2);
    Tally::empty().with_call(a).with_call(b).is_mixed()
}

// Column c may be kept after state j: the last kept mixed column plus one, or 0 for none.
pub(crate) fn may_follow(columns: &[Line; 128], j: usize, c: usize) -> bool
    requires { (j ≤ c) × (c < 128) }
    ensures { result ≡ words_follow columns.now j c }
{
    j == 0 || !columns_conflict(columns[j - 1], columns[c])
}
