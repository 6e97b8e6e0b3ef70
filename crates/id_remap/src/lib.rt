//! The tables of a restore under new ids: which ids they get, what their descriptors become, and why
//! they may not come.
#![tactic(auto)]

mod faults;
mod remapping;
mod tables;
mod targets;

pub use faults::RemapFault;
pub use remapping::remap;
pub use targets::Target;
