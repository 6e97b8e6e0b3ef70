//! The jobs of a cluster.
ghost use Rattle.std.specs.Prelude.{◌≡◌, ◌++◌, ◌∷◌, [], OnErr, OnOk};

use backup_job::BackupJob;
use mvcc_keys::Memory;

/// A job, which is done. Its number is its place among the jobs, from 1 on.
#[derive(Drop)]
pub enum Job {
    Backup(BackupJob),
    Restore,
}

pub(crate) fn push_job(jobs: &mut Vec<Job>, job: Job) -> Result<(), Memory>
    ensures more { OnOk result (jobs.new.items ≡ jobs.old.items ++ job ∷ []) }
    ensures same { OnErr result (jobs.new.items ≡ jobs.old.items) }
{
    jobs.push(job).map_err(|_| Memory)
}
