// Sets of places below 128 as two words, and two lines of letters compared by a few operations on words.
#![tactic(auto)]

mod digits;
mod lines;
mod places;

pub use digits::{evens, with_digits};
pub use lines::{Line, columns_conflict, conflict_count, conflict_kept};
pub use places::{Places, with_bit};
