//! The layers that a cluster's jobs finished, and the subdirectories of collections that own and
//! foreign layers lie in.
#![tactic(auto)]

mod book;
mod laws;
mod listing;
mod order;

pub use book::LayerBook;
pub use laws::{last_full_is_greatest, layers_are_exact, maps_carry, subdirectories_are_exact};
