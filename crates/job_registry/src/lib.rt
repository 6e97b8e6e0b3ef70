//! The jobs of a cluster by their numbers, with their states.
#![tactic(auto)]

mod registry;
mod state;

pub use registry::{Held, Registry};
pub use state::{JobRefusal, JobState};
