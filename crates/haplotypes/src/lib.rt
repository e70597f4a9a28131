// The services, for programs in Rattle and, as exports, for those in C and Rust.
#![tactic(auto)]

mod host;

pub use correcting::least_corrections;
pub use counting::conflict_counts;
pub use host::{
    haplotypes_check, haplotypes_conflict_counts, haplotypes_find, haplotypes_least_corrections,
    haplotypes_least_fragment_removal, haplotypes_least_snp_removal, haplotypes_pack,
    haplotypes_unpack,
};
pub use packing::{find, pack, unpack};
pub use removals::{least_fragment_removal, least_snp_removal};
pub use verdicts::check;
