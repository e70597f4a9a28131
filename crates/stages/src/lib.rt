// The rules that S, F and C share, stage by stage: sizes, the work's and the answer's lengths, records.
#![tactic(auto)]

mod faults;

pub use faults::{correction_fault, removal_fault};
