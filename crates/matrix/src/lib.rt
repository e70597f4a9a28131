// The cell matrix that the services work on.
#![tactic(auto)]

mod cells;
mod room;
mod weights;

pub use cells::{call_at, fill_matrix};
pub use room::{all_kept, blank_cells};
pub use weights::fill_weights;
