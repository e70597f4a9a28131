// A fragment that is put before those of a table of weights.
ghost use Rattle.std.specs.Prelude.{◌<◌};

use ranks::rank::Rank;

// A side is at state 0, or at one more than the position of its furthest-reaching fragment.
pub const STATES: usize = 129;

// Which states it agrees with, how far each state reaches, what it weighs itself, and its position.
#[derive(Clone, Copy)]
pub struct Fragment<'a> {
    pub agrees: &'a [u8; STATES],
    pub reaches: &'a [u8; STATES],
    pub own: Rank,
    pub i: usize,
    pub ghost placed: { i < 128 },
}
