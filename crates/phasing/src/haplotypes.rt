// Haplotypes, from the masks of the fragments.
ghost use Rattle.std.specs.Prelude.{◌≡◌, ◌<◌, ◌≤◌, length, if◌then◌else◌};
ghost use Rattle.below.specs.Below.{◌<?◌};
ghost use Rattle.masks.specs.Algorithm.Masks.{code_in};
ghost use Rattle.phasing.specs.Algorithm.Haplotypes.{merged_line, side_codes};

use masks::NO_LETTERS;
use places::Line;

// The lines of the fragments on side s, merged. Sides are the bytes 1 and 2, as they stand in an answer.
fn merged(masks: &[Line; 128], sides: &[u8], s: u8) -> Line
    requires { length sides.now ≤ 128 }
    ensures { result ≡ merged_line masks.now sides.now s (length sides.now) }
{
    let mut line = NO_LETTERS;
    for (i, side) in sides.iter().enumerate() {
        if *side == s {
            line = line.either(masks[i]);
        }
    }
    line
}

// The code of a merged line at column c, which has a keep mark or not.
fn code(line: Line, keep: u8, c: usize) -> u8
    requires { c < 128 }
    ensures { result ≡ if 0 <? keep then code_in line c else 3 }
{
    if keep == 0 {
        3
    } else if line.a.has(c) {
        1
    } else if line.b.has(c) {
        2
    } else {
        0
    }
}

// Writes the haplotype of side s: a code for each column.
pub(crate) fn fill_haplotype(masks: &[Line; 128], cols: &[u8], sides: &[u8], s: u8, row: &mut [u8])
    requires { (length cols.now ≤ 128) × (length sides.now ≤ 128) × (length row.old ≡ length cols.now) }
    ensures { row.new ≡ side_codes (length sides.now) (length cols.now) masks.now cols.now sides.now s }
{
    let line = merged(masks, sides, s);
    for (c, keep) in cols.iter().enumerate() {
        row[c] = code(line, *keep, c);
    }
}
