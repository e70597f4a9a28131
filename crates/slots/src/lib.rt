// The spans of the fragments of a cell matrix; rule 12's column, which more than 8 of them cover; and where there is none, a slot below 8 for each.
#![tactic(auto)]

mod depth;
mod grants;
mod spans;

pub use depth::first_deep;
pub use grants::fill_slots;
pub use spans::{Span, fill_spans};
