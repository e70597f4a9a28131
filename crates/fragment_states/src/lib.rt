// The states of a side of a cell matrix: how far each reaches, and which fragments may join it.
#![tactic(auto)]

mod fragments;

pub use fragments::{calls_below, fill_agreements, fill_reaches};
