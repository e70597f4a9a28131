// Pairs of fragments: on how many kept columns two conflict.
ghost use Rattle.std.specs.Prelude.{◌≡◌, ℕ, ◌+◌, ◌*◌, ◌<◌, length};
ghost use Rattle.masks.specs.Algorithm.Pairs.{pair_number_of, Numbered, pair_matrix};

use fields::byte;
use places::{Line, Places, conflict_count};

// On how many kept columns fragments i and j conflict, and 0 where one of them is removed.
fn pair_number(masks: &[Line; 128], keep: Places, frags: &[u8], i: usize, j: usize) -> u8
    requires { (i < 128) × (j < 128) }
    ensures { result ≡ pair_number_of masks.now keep frags.now i j }
{
    if byte(frags, i) == 0 || byte(frags, j) == 0 {
        return 0;
    }
    // At most 128: `try_from` would leave an error to handle.
    conflict_count(masks[i], masks[j], keep) as u8
}

// Row i before the diagonal: the same pairs stand in the rows before it.
fn mirror_row(i: usize, matrix: &mut [u8])
    requires { (i < 128) × (length matrix.old ≡ 16384) }
    ensures { (number : ℕ → ℕ → ℕ) → ((a b : ℕ) → number a b ≡ number b a) → Numbered number (i * 128) matrix.old → Numbered number (i * 128 + i) matrix.new }
{
    for j in 0..i {
        matrix[i * 128 + j] = matrix[j * 128 + i];
    }
}

// Row i from the diagonal on.
fn number_row(masks: &[Line; 128], keep: Places, frags: &[u8], i: usize, matrix: &mut [u8])
    requires { (i < 128) × Numbered (pair_number_of masks.now keep frags.now) (i * 128 + i) matrix.old }
    ensures { Numbered (pair_number_of masks.now keep frags.now) (i * 128 + 128) matrix.new }
{
    for j in i..128 {
        matrix[i * 128 + j] = pair_number(masks, keep, frags, i, j);
    }
}

// The numbers of all pairs, 128 to a fragment, and 0 where a fragment is removed. The three that are read are named one by one: only conflict_counts calls it, once.
pub fn fill_pairs(masks: &[Line; 128], keep: Places, frags: &[u8], matrix: &mut [u8])
    requires { length matrix.old ≡ 16384 }
    ensures { matrix.new ≡ pair_matrix masks.now keep frags.now }
{
    for i in 0..128 {
        mirror_row(i, matrix);
        number_row(masks, keep, frags, i, matrix);
    }
}
