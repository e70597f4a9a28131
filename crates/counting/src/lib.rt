// How often the fragments of a table disagree: conflict_counts. It tests its rules, in the paper's order, and writes only once all of them are kept.
#![tactic(auto)]

mod counts;

pub use counts::conflict_counts;
