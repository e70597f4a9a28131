// Rows of cells, and the records written from them.
#![tactic(auto)]

mod layout;
mod rows;

pub use layout::write_record;
pub use rows::{any_unknown, calls_end, calls_span, calls_start};
