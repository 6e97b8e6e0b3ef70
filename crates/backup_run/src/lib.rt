//! The run of a script: bytes in, replies out.
#![tactic(auto)]

mod answering;
mod feeding;
mod session;
mod stops;
mod top;
mod writing;

pub use top::{Status, run};
