//! States of jobs, and refusals of calls on them.
ghost use Rattle.std.specs.Prelude.{◌≡◌};
ghost use Rattle.job_registry.specs.Jobs.{is_ended};

#[derive(Clone, Copy, Debug, PartialEq, Eq)]
pub enum JobState {
    Running,
    Paused,
    Done,
    Cancelled,
    Failed,
}

impl JobState {
    /// Whether a job in this state is over.
    pub fn is_ended(self) -> bool
        ensures { result ≡ is_ended self }
    {
        match self {
            JobState::Running | JobState::Paused => false,
            JobState::Done | JobState::Cancelled | JobState::Failed => true,
        }
    }
}

/// Why a call on a job was refused.
#[derive(Clone, Copy, Debug, PartialEq, Eq)]
pub enum JobRefusal {
    NoSuchJob { job: u64 },
    NotRunning { job: u32, state: JobState },
}
