// The letters that the sides turn to, and the cells after correction. A letter and a side are bytes here, as records and side lists have them.
ghost use Rattle.std.specs.Prelude.{◌≡◌, ◌+◌, ◌*◌, ◌≤◌, ◌<◌, length, if◌then◌else◌};
ghost use Rattle.below.specs.Below.{nth, tab, ◌<?◌};
ghost use Rattle.fields.specs.Record.{is_call_code};
ghost use Rattle.matrix.specs.Algorithm.Matrix.{weighted_grid, Matrix};
ghost use Rattle.conflicts.specs.Corrections.{side_letter, majority_letter};
ghost use Rattle.rewriting.specs.Algorithm.Letters.{OnSides, Room, Totals, with_row, corrected_cells, lettered_at, lettered_in};

use fields::is_call;

// Adds a weight at each column where the row from a place on has the letter. Letters and sides are the bytes of cells and of side lists, which they are compared with. A row is one run of bytes, so that the loop can take many columns at a time.
fn add_row(cells: &[u8], at: usize, weight: u8, letter: u8, totals: &mut [u16; 128])
    requires { (length cells.now ≡ 16384) × (at + 128 ≤ 16384) × Room totals.old }
    ensures { (totals.new ≡ tab 128 (with_row cells.now at weight letter totals.old)) × (weight ≤ 255) }
{
    for c in 0..128 {
        totals[c] += if cells[at + c] == letter {
            u16::from(weight)
        } else {
            0
        };
    }
}

// The weights of a letter on side s, for each column.
fn letter_totals(
    m: usize,
    cells: &[u8],
    weights: &[u8; 128],
    sides: &[u8],
    s: u8,
    letter: u8,
) -> [u16; 128]
    requires { (m ≤ 128) × (length cells.now ≡ 16384) × (length sides.now ≡ m) }
    ensures { Totals cells.now weights.now sides.now s letter m result }
{
    let mut totals = [0; 128];
    for i in 0..m {
        if sides[i] == s {
            add_row(cells, i * 128, weights[i], letter, &mut totals);
        }
    }
    totals
}

// The letter that stays, by the weights of A and B; on equal weights A.
fn majority(a: u16, b: u16) -> u8
    ensures { result ≡ majority_letter a b }
{
    if a < b { 2 } else { 1 }
}

// The letter that stays at each column, by the totals of A and B.
fn majorities(a: &[u16; 128], b: &[u16; 128]) -> [u8; 128]
    ensures { result ≡ tab 128 (λ c. majority_letter (nth a.now c) (nth b.now c)) }
{
    let mut letters = [0; 128];
    for c in 0..128 {
        letters[c] = majority(a[c], b[c]);
    }
    letters
}

// The letter of side s at each column.
fn side_letters(m: usize, cells: &[u8], weights: &[u8; 128], sides: &[u8], s: u8) -> [u8; 128]
    requires { (m ≤ 128) × (length cells.now ≡ 16384) × (length sides.now ≡ m) }
    ensures { result ≡ tab 128 (side_letter (weighted_grid m 128 cells.now weights.now) sides.now s) }
{
    let a = letter_totals(m, cells, weights, sides, s, 1);
    let b = letter_totals(m, cells, weights, sides, s, 2);
    majorities(&a, &b)
}

// At column c of n, a call becomes its side's letter and a hole stays; 0 past the columns in use.
fn code_within(n: usize, c: usize, x: u8, letter: u8) -> u8
    ensures { result ≡ if c <? n then (if is_call_code x then letter else x) else 0 }
{
    if n <= c {
        0
    } else if is_call(x) {
        letter
    } else {
        x
    }
}

// Writes a fragment's row after correction, by the letters of its side; its cells start at a place of the matrix.
fn correct_row(n: usize, cells: &[u8], at: usize, letters: &[u8; 128], row: &mut [u8])
    requires { (length cells.now ≡ 16384) × (at + 128 ≤ 16384) × (length row.old ≡ 128) }
    ensures { row.new ≡ tab 128 (lettered_in n cells.now at letters.now) }
{
    for c in 0..128 {
        row[c] = code_within(n, c, cells[at + c], letters[c]);
    }
}

// Writes row i of the matrix after correction: a fragment's, or an empty one past the fragments. The letters of the two sides stand alone: this and its caller alone take both.
fn fill_row(
    m: usize,
    n: usize,
    cells: &[u8],
    sides: &[u8],
    first: &[u8; 128],
    second: &[u8; 128],
    i: usize,
    row: &mut [u8],
)
    requires { (length cells.now ≡ 16384) × (length sides.now ≡ m) × (i < 128) × (length row.old ≡ 128) }
    ensures { row.new ≡ tab 128 (λ c. lettered_at m n cells.now sides.now first.now second.now (i * 128 + c)) }
{
    if i < m {
        let letters = if sides[i] == 1 { first } else { second };
        correct_row(n, cells, i * 128, letters, row);
    } else {
        row.fill(0);
    }
}

// Writes the matrix after correction, from the letters of both sides. Each row is a range of the cells, since chunks_exact_mut leaves open what a slice holds afterwards.
fn fill_corrected(
    m: usize,
    n: usize,
    cells: &[u8],
    sides: &[u8],
    first: &[u8; 128],
    second: &[u8; 128],
    corrected: &mut [u8],
)
    requires { Matrix m n cells.now × (length sides.now ≡ m) × (length corrected.old ≡ 16384) }
    ensures { corrected.new ≡ tab 16384 (lettered_at m n cells.now sides.now first.now second.now) }
{
    for i in 0..128 {
        let from = i * 128;
        let row = &mut corrected[from..from + 128];
        fill_row(m, n, cells, sides, first, second, i, row);
    }
}

// Writes the matrix after correction, by the weights of the fragments.
pub fn correct_cells(
    m: usize,
    n: usize,
    cells: &[u8],
    weights: &[u8; 128],
    sides: &[u8],
    corrected: &mut [u8],
)
    requires { Matrix m n cells.now × OnSides m sides.now × (length corrected.old ≡ 16384) }
    ensures { corrected.new ≡ corrected_cells m n cells.now weights.now sides.now }
{
    let first = side_letters(m, cells, weights, sides, 1);
    let second = side_letters(m, cells, weights, sides, 2);
    fill_corrected(m, n, cells, sides, &first, &second, corrected);
}
