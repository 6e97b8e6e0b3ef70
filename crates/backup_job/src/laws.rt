//! What holds of every job.
ghost use Rattle.backup_job.specs.Jobs.{StartedJobsRun};
ghost use Rattle.backup_job.specs.Records.{JobsGoOn, JobsWriteLayers};

/// A law: a job that was started, and of which the manifest will be proper, may run, and is about
/// the layer that has this manifest and all pieces of its tables.
pub fn started_jobs_run()
    ensures { StartedJobsRun }
{}

/// A law: a job writes the layer of each record that may be written, as long as what it exports is
/// still kept.
pub fn jobs_write_layers()
    ensures { JobsWriteLayers }
{}

/// A law: while other facts are added, or some are collected, a job that is under way goes on and
/// writes the same, as long as its tables give the same entries and what it exports is still kept.
pub fn jobs_go_on()
    ensures { JobsGoOn }
{}
