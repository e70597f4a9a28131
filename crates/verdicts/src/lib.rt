// Verdicts on a table: check. It tests its rules, in the paper's order, and writes only once all of them are kept.
#![tactic(auto)]

mod checking;

pub use checking::check;
