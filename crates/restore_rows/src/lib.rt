//! The rows of a table that a restore reads out of the layers of a chain, and puts under new ids.
#![tactic(auto)]

mod checking;
mod laws;
mod merging;
mod putting;
mod reading;

pub use checking::check_chunks_of;
pub use laws::checks_find_faults;
pub use merging::merged_rows;
pub use putting::{RestoreFault, put_rows};
pub use reading::read_rows;
