// The rules of a table of records, and what a call that breaks one returns.
#![tactic(auto)]

mod order;
mod reading;
mod refusal;
mod rules;
mod spans;
mod table;

pub use order::comes_before;
pub use refusal::{Fault, Refusal};
pub use rules::{gapless_fault, records_fault, size_fault, table_fault};
pub use table::{GaplessTable, SizedTable, SoundTable};
