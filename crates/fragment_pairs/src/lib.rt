// The table of F's programme, in place: one weight for each pair of states (paper 001, section 5.2).
// It is the greatest of what is kept, which is least in what is removed: where a fragment joins neither side nothing changes.
// The sides are alike, so a pair of states has one place, in the row of the later one.
#![tactic(auto)]

mod arrays;
mod copying;
mod fragment;
mod rows;
mod weights;

pub use arrays::{births_in, layer_in};
pub use copying::births;
pub use fragment::{Fragment, STATES};
pub use rows::{PLACES, layer};
