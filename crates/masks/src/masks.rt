// The masks of a table, from the bytes of its records: a line for each of its fragments, or columns.
ghost use Rattle.std.specs.Prelude.{◌≡◌, ℕ, ◌+◌, ◌<◌, ◌≤◌, length};
ghost use Rattle.fields.specs.Table.{fragments};
ghost use Rattle.conflicts.specs.Grid.{Grid, grid_of};
ghost use Rattle.places.specs.Algorithm.Words.{word_of};
ghost use Rattle.places.specs.Algorithm.Places.{has_place};
ghost use Rattle.masks.specs.Algorithm.Masks.{line_of, mask_words, line_at, transposed, Masks, LetteredTable};

use fields::{letters_of, record_at, start};
use places::{Line, Places, with_bit};

// A line without letters.
pub const NO_LETTERS: Line = Line {
    a: Places { low: 0, high: 0 },
    b: Places { low: 0, high: 0 },
};

// Room for the masks of 128 lines.
pub fn mask_room() -> [Line; 128]
    ensures { length result ≡ 128 }
{
    [NO_LETTERS; 128]
}

// The letters of fragment i at its columns: those of its record's cells, further up by its start.
fn fragment_line(table: &[u8], i: usize) -> Line
    requires { i < fragments table.now }
    ensures { (n : ℕ) → LetteredTable n table.now → result ≡ line_of (grid_of n table.now) i }
{
    let part = record_at(table, i);
    let letters = letters_of(part);
    let s = usize::from(start(part));
    Line {
        a: letters.a.raised(s),
        b: letters.b.raised(s),
    }
}

// The same, and no letters where there is no fragment i.
fn line_of(table: &[u8], i: usize) -> Line
    ensures { (n : ℕ) → LetteredTable n table.now → result ≡ line_of (grid_of n table.now) i }
{
    if i < table.len() / 32 {
        fragment_line(table, i)
    } else {
        NO_LETTERS
    }
}

// The columns at which each fragment of a table has A, and those at which it has B.
pub fn fill_masks(table: &[u8], masks: &mut [Line; 128])
    ensures { (n : ℕ) → LetteredTable n table.now → masks.new ≡ mask_words (grid_of n table.now) }
{
    for (i, line) in masks.iter_mut().enumerate() {
        *line = line_of(table, i);
    }
}

// At column c, which of the 64 fragments from one on have A, and which have B.
fn column_letters(masks: &[Line; 128], c: usize, start: usize) -> (u64, u64)
    requires { (c < 128) × (start ≤ 64) }
    ensures a { result.0 ≡ word_of 64 (λ b. has_place (line_at masks.now (start + b)).a c) }
    ensures b { result.1 ≡ word_of 64 (λ b. has_place (line_at masks.now (start + b)).b c) }
{
    let mut a = 0;
    let mut b = 0;
    // Both letters in one pass: a closure for each word takes half as long again.
    for k in 0..64 {
        let line = masks[start + k];
        a = with_bit(a, k, line.a.has(c));
        b = with_bit(b, k, line.b.has(c));
    }
    (a, b)
}

// The letters of all fragments at column c.
fn column_line(masks: &[Line; 128], c: usize) -> Line
    requires { c < 128 }
    ensures { (g : Grid) → Masks g masks.now → result ≡ line_of (transposed g) c }
{
    let (low_a, low_b) = column_letters(masks, c, 0);
    let (high_a, high_b) = column_letters(masks, c, 64);
    Line {
        a: Places {
            low: low_a,
            high: high_a,
        },
        b: Places {
            low: low_b,
            high: high_b,
        },
    }
}

// The fragments that have A at each column, and those that have B.
pub fn fill_columns(masks: &[Line; 128], columns: &mut [Line; 128])
    ensures { (g : Grid) → Masks g masks.now → columns.new ≡ mask_words (transposed g) }
{
    for (c, line) in columns.iter_mut().enumerate() {
        *line = column_line(masks, c);
    }
}
