//! Chains of layers: the layers of a subdirectory by which a time can be read, or why there are
//! none.
#![tactic(auto)]

mod chains;
mod faults;
mod laws;
mod layer;
mod reaching;
mod reasons;
mod search;
mod task;

pub use chains::{join, resolve, span};
pub use faults::{CoverFault, JoinFault, SpanFault};
pub use laws::{best_way_is_unique, covers_are_found, reason_is_unique};
pub use layer::{Layer, layers_are_ordered, serves};
