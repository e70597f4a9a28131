// The fragments of a matrix, as the programme goes through them.
ghost use Rattle.fragment_removal.specs.Algorithm.Holding.{Prepared};

use fragment_pairs::STATES;
use places::Line;

// The m fragments of a gapless matrix with n columns, by their masks, and how far each state reaches.
#[derive(Clone, Copy)]
pub(crate) struct Fragments<'a> {
    pub(crate) m: usize,
    pub(crate) n: usize,
    pub(crate) masks: &'a [Line; 128],
    pub(crate) reaches: &'a [u8; STATES],
    ghost prepared: { Prepared m n masks.now reaches.now },
}
