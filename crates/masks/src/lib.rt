// Bit masks of a cell matrix: the places at which each of its lines, fragments or columns, has A and B.
#![tactic(auto)]

mod keep;
mod masks;
mod pairs;

pub use keep::kept;
pub use masks::{NO_LETTERS, fill_columns, fill_masks, mask_room};
pub use pairs::fill_pairs;
