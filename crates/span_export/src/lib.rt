//! The entries of a table that a layer holds, given in pieces.
#![tactic(auto)]

mod cursor;
mod exporting;
mod laws;
mod merging;
mod parts;
mod plan;

pub use cursor::{Cursor, Place};
pub use exporting::export;
pub use laws::{entries_are_exact, others_are_unseen, pieces_are_whole};
pub use plan::Plan;
