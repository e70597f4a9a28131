// A slot below 8 for each fragment, which no other fragment has that covers one of its columns.
ghost use Rattle.std.specs.Prelude.{◌≡◌, ◌+◌, ◌*◌, ◌<◌, ◌≤◌, get_or, replicate, false};
ghost use Rattle.below.specs.Below.{first_below, isnt};
ghost use Rattle.matrix.specs.Algorithm.Matrix.{matrix_grid, Matrix};
ghost use Rattle.conflicts.specs.Served.{NoneDeep};
ghost use Rattle.slots.specs.Algorithm.Spans.{entered_by, free_by, Spans, Marks, Spanned, Granted, Slotted};

use crate::spans::Span;

// A fragment of this span at position x covers column c and entered before the turn.
fn entered(span: Span, x: usize, c: usize, turn: usize) -> bool
    requires { (x < 128) × (span.start ≤ 128) }
    ensures { result ≡ entered_by span x c turn }
{
    span.covers(c) && span.start * 256 + x < turn
}

// Marks the slots in use at column c, in marks without one.
fn mark_slots(
    m: usize,
    spans: &[Span; 128],
    slots: &[usize; 128],
    c: usize,
    turn: usize,
    marks: &mut [bool; 8],
)
    requires { Spans m spans.now slots.now × (marks.old ≡ replicate 8 false) }
    ensures { Marks m spans.now slots.now c turn marks.new }
{
    for x in 0..m {
        if entered(spans[x], x, c, turn) {
            marks[slots[x]] = true;
        }
    }
}

// The lowest of 8 slots without a mark, and 8 where all have one: a number, since one is free wherever a slot is given.
fn first_unmarked(marks: &[bool; 8]) -> usize
    ensures { result ≡ first_below 8 (λ b. isnt (get_or marks.now b false)) }
{
    for b in 0..8 {
        if !marks[b] {
            return b;
        }
    }
    8
}

// The lowest free slot at column c, and 8 where none is, as `free_by` has it.
fn free_slot(m: usize, spans: &[Span; 128], slots: &[usize; 128], c: usize, turn: usize) -> usize
    requires { Spans m spans.now slots.now }
    ensures { result ≡ free_by m spans.now slots.now c turn }
{
    let mut marks = [false; 8];
    mark_slots(m, spans, slots, c, turn, &mut marks);
    first_unmarked(&marks)
}

// Fragment f gets its slot, if it starts at column c.
fn slot_one(
    m: usize,
    n: usize,
    cells: &[u8],
    spans: &[Span; 128],
    slots: &mut [usize; 128],
    c: usize,
    f: usize,
)
    requires { Matrix m n cells.now × Spanned (matrix_grid m n cells.now) spans.now × NoneDeep (matrix_grid m n cells.now) × (c < n) × (f < m)
        × Granted (matrix_grid m n cells.now) (c * 256 + f) slots.old }
    ensures { Granted (matrix_grid m n cells.now) (c * 256 + (f + 1)) slots.new }
{
    if spans[f].start == c {
        slots[f] = free_slot(m, spans, slots, c, c * 256 + f);
    }
}

// The fragments that start at column c get their slots.
fn slot_column(
    m: usize,
    n: usize,
    cells: &[u8],
    spans: &[Span; 128],
    slots: &mut [usize; 128],
    c: usize,
)
    requires { Matrix m n cells.now × Spanned (matrix_grid m n cells.now) spans.now × NoneDeep (matrix_grid m n cells.now) × (c < n)
        × Granted (matrix_grid m n cells.now) (c * 256 + 0) slots.old }
    ensures { Granted (matrix_grid m n cells.now) ((c + 1) * 256 + 0) slots.new }
{
    for f in 0..m {
        slot_one(m, n, cells, spans, slots, c, f);
    }
}

// All fragments get their slots, from slots that are all 0. Only the contracts read the cells, here and in the two above.
pub fn fill_slots(m: usize, n: usize, cells: &[u8], spans: &[Span; 128], slots: &mut [usize; 128])
    requires { Matrix m n cells.now × Spanned (matrix_grid m n cells.now) spans.now × NoneDeep (matrix_grid m n cells.now)
        × Granted (matrix_grid m n cells.now) (0 * 256 + 0) slots.old }
    ensures { Slotted (matrix_grid m n cells.now) slots.new }
{
    for c in 0..n {
        slot_column(m, n, cells, spans, slots, c);
    }
}
