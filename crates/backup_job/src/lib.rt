//! A backup as a job: one chunk a unit, and the layer finished by the last.
#![tactic(auto)]

mod chunks;
mod job;
mod laws;
mod pieces;
mod starting;
mod writing;

pub use job::{BackupJob, Progress};
pub use laws::{jobs_go_on, jobs_write_layers, started_jobs_run};
