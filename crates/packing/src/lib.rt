// Records in and out: unpack, pack and find. Each tests its rules, in the paper's order, and writes only once all of them are kept.
#![tactic(auto)]

mod finding;
mod packing;
mod unpacking;

pub use finding::find;
pub use packing::pack;
pub use unpacking::unpack;
