// The fewest SNPs (S) and the fewest fragments (F) to remove. Each tests its rules, in the paper's order, and writes only once all of them are kept.
#![tactic(auto)]

mod fragments;
mod snps;

pub use fragments::least_fragment_removal;
pub use snps::least_snp_removal;
