// Components of related fragments, each with two sides, from the masks of the fragments.
#![tactic(auto)]

mod quick_find;

pub use quick_find::Fragments;
