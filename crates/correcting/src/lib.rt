// The calls to correct at the least total (C). It tests its rules, in the paper's order, and writes only once all of them are kept.
#![tactic(auto)]

mod calls;

pub use calls::least_corrections;
