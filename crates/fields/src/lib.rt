// Records of 32 bytes: their fields, cells and letters, and their places in a table.
#![tactic(auto)]

mod fields;
mod grades;
mod letters;
mod rows;
mod table;

pub use fields::{
    A, B, CELLS, HEADER_BYTES, HOLE, RECORD_BYTES, byte, cell, grade, is_call, span, start, tag,
};
pub use grades::weight;
pub use letters::letters_of;
pub use rows::{clear, fill_row};
pub use table::{column_count, position_of, record_at};
