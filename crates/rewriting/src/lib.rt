// What C does behind its elimination: the cells and the records after correction.
#![tactic(auto)]

mod letters;
mod table;

pub use letters::correct_cells;
pub use table::fill_records;
