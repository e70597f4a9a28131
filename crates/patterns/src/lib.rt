// The side patterns of C's elimination, 256 of 8 slots, and the events that change their weights.
#![tactic(auto)]

mod patterns;

pub use patterns::{charge, enter};
