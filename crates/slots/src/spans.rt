// Where the fragments of a cell matrix, 128 cells to a fragment, start and end.
ghost use Rattle.std.specs.Prelude.{◌≡◌, ℕ, ◌+◌, ◌*◌, length, get_or};
ghost use Rattle.fields.specs.Record.{is_call_code};
ghost use Rattle.matrix.specs.Algorithm.Matrix.{matrix_grid, Matrix};
ghost use Rattle.slots.specs.Algorithm.Columns.{first_column, end_column_of};
ghost use Rattle.slots.specs.Algorithm.Spans.{Spanned, has_column};

use matrix::call_at;

// The columns of a fragment: the first, and one past the last.
#[derive(Clone, Copy)]
pub struct Span {
    pub start: usize,
    pub end: usize,
}

impl Span {
    // Whether the span has a column.
    pub fn covers(self, c: usize) -> bool
        ensures { result ≡ has_column self c }
    {
        self.start <= c && c < self.end
    }
}

// The first column that fragment i calls, and n where it calls none: a number, so that the span of such a fragment is empty.
fn start_of(n: usize, cells: &[u8], i: usize) -> usize
    ensures { (m : ℕ) → result ≡ first_column (matrix_grid m n cells.now) i }
{
    for c in 0..n {
        if call_at(cells, i, c) {
            return c;
        }
    }
    n
}

// One past the last column that fragment i calls, and 0 where it calls none: a number, for the same reason.
fn end_of(n: usize, cells: &[u8], i: usize) -> usize
    ensures { (m : ℕ) → result ≡ end_column_of (matrix_grid m n cells.now) i }
{
    for c in (0..n).rev() {
        if call_at(cells, i, c) {
            return c + 1;
        }
    }
    0
}

// The spans of all fragments.
pub fn fill_spans(m: usize, n: usize, cells: &[u8], spans: &mut [Span; 128])
    requires { Matrix m n cells.now }
    ensures { Spanned (matrix_grid m n cells.now) spans.new }
{
    for i in 0..m {
        spans[i] = Span {
            start: start_of(n, cells, i),
            end: end_of(n, cells, i),
        };
    }
}
