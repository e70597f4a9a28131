// The columns of a matrix, as the elimination goes through them.
ghost use Rattle.corrections.specs.Algorithm.Sweep.{Ready};

use slots::Span;

// A matrix of which at most 8 fragments cover a column, with its weights, spans and slots.
#[derive(Clone, Copy)]
pub(crate) struct Columns<'a> {
    pub(crate) m: usize,
    pub(crate) n: usize,
    pub(crate) cells: &'a [u8],
    pub(crate) weights: &'a [u8; 128],
    pub(crate) spans: &'a [Span; 128],
    pub(crate) slots: &'a [usize; 128],
    ghost ready: { Ready m n cells.now weights.now spans.now slots.now },
}
