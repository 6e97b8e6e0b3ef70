//! The machine over a catalog and a store of versions: one command is one step.
#![tactic(auto)]

mod backups;
mod chains;
mod cluster;
mod fault;
mod finding;
mod halts;
mod jobs;
mod restores;
mod restoring;
mod rows;
mod schemas;

pub use cluster::{Cluster, Limits};
pub use fault::RunFault;
