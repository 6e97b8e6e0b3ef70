//! The jobs, numbered from 1.
ghost use Rattle.std.specs.Prelude.{◌≡◌, ◌+◌, ◌<◌, ◌^◌, ◌++◌, [], ◌∷◌, true, OnOk, OnSome, OnErr, IfOk, length, MatchResult, None, Some, option_map, option_copied};
ghost use Rattle.job_registry.specs.Jobs.{job_at, is_ended, with_state};
ghost use Rattle.job_registry.specs.Refused.{refusal};

use crate::state::{JobRefusal, JobState};
use indexmap::IndexMap;
use mvcc_keys::Memory;
use std::alloc::Global;
use std::marker::Model;

/// A job and its state.
#[derive(Drop)]
pub struct Held<J> {
    pub state: JobState,
    pub job: J,
}

/// The jobs, numbered from 1 in the order in which they were added.
#[derive(Drop)]
pub struct Registry<J> {
    jobs: IndexMap<u32, Held<J>>,
}

impl<J> Model for Registry<J> {
    ghost use Rattle.std.specs.Prelude.{List, length, ◌<◌, ◌^◌};
    ghost use Rattle.indexmap.specs.IndexMap.{keys, values};
    ghost use Rattle.job_registry.specs.declared.registry.Held.{Held};
    ghost use Rattle.job_registry.specs.Numbers.{AreNumbered};

    ghost Value = { List (Held J) };

    ghost view = { λ r. values r.jobs };

    ghost invariant = { λ r. AreNumbered 1 (keys r.jobs) × (length (values r.jobs) < 2 ^ 32) };
}

impl<J> Registry<J> {
    pub fn new(alloc: Global) -> Registry<J>
        ensures { result ≡ [] }
    {
        Registry {
            jobs: IndexMap::new(alloc),
        }
    }

    fn held(&self, n: u64) -> Option<&Held<J>>
        ensures held { option_copied result ≡ job_at self.now n }
        ensures fits { OnSome result (n < 2 ^ 32) }
    {
        let jobs = &self.jobs;
        if n > u64::from(u32::MAX) {
            return None;
        }
        jobs.get(&(n as u32))
    }

    /// The state of a job.
    pub fn state(&self, n: u64) -> Option<JobState>
        ensures fits { OnSome result (n < 2 ^ 32) }
        ensures state { result ≡ option_map (λ h. h.state) (job_at self.now n) }
    {
        Some(self.held(n)?.state)
    }

    pub fn get(&self, n: u64) -> Option<&J>
        ensures { option_copied result ≡ option_map (λ h. h.job) (job_at self.now n) }
    {
        Some(&self.held(n)?.job)
    }

    /// The number of jobs.
    pub fn len(&self) -> usize
        ensures { result ≡ length self.now }
    {
        self.jobs.len()
    }
}

impl<J: Drop> Registry<J> {
    /// Adds a running job, and answers its number.
    pub fn add(&mut self, job: J) -> Result<u32, Memory>
        requires { length self.old + 1 < 2 ^ 32 }
        ensures number { IfOk result (λ n. n ≡ length self.old + 1) }
        ensures ok { OnOk result (self.new ≡ self.old ++ record { state = JobState.Running; job = job } ∷ []) }
        ensures err { OnErr result (self.new ≡ self.old) }
    {
        let number = self.jobs.len() as u32 + 1;
        let held = Held {
            state: JobState::Running,
            job,
        };
        let refused = self.jobs.insert(number, held).is_err();
        if refused {
            return Err(Memory);
        }
        Ok(number)
    }
}

impl<J> Registry<J> {
    ghost use Rattle.std.specs.Borrow.{sem};
    ghost use Rattle.std.specs.Prelude.{Ok, Err};
    ghost use Rattle.job_registry.specs.Lending.{LendsJob};
    ghost use Rattle.job_registry.specs.Refused.{running_answer};

    /// A running job, which can be changed.
    pub fn running(&mut self, n: u64) -> Result<&mut J, JobRefusal>
        ensures* writes_back { sem 𝓛 (LendsJob J.row self.entry n result) }
        ensures answer { MatchResult result (λ j. running_answer self.old n ≡ Ok j.now) (λ e. running_answer self.old n ≡ Err e) }
    {
        match self.state(n) {
            None => Err(JobRefusal::NoSuchJob { job: n }),
            Some(JobState::Running) => match self.jobs.get_index_mut(n as usize - 1) {
                Some(held) => Ok(&mut held.job),
                None => Err(JobRefusal::NoSuchJob { job: n }),
            },
            Some(state) => Err(JobRefusal::NotRunning {
                job: n as u32,
                state,
            }),
        }
    }

    /// The refusal of a job that is over or was never there.
    fn check_open(&self, n: u64) -> Result<(), JobRefusal>
        ensures answer { MatchResult result (λ _. refusal self.now n ≡ None) (λ e. refusal self.now n ≡ Some e) }
        ensures fits { OnOk result (n < 2 ^ 32) }
    {
        match self.state(n) {
            None => Err(JobRefusal::NoSuchJob { job: n }),
            Some(state) => {
                if state.is_ended() {
                    Err(JobRefusal::NotRunning {
                        job: n as u32,
                        state,
                    })
                } else {
                    Ok(())
                }
            }
        }
    }

    /// Puts a job into a state.
    fn set_state(&mut self, n: u64, state: JobState)
        requires { n < 2 ^ 32 }
        ensures { self.new ≡ with_state self.old n state }
    {
        if n == 0 {
            return;
        }
        let Some(held) = self.jobs.get_index_mut(n as usize - 1) else {
            return;
        };
        held.state = state;
    }

    /// Lets a job rest. One that rests goes on resting.
    pub fn pause(&mut self, n: u64) -> Result<(), JobRefusal>
        ensures answer { MatchResult result (λ _. refusal self.old n ≡ None) (λ e. refusal self.old n ≡ Some e) }
        ensures ok { OnOk result (self.new ≡ with_state self.old n JobState.Paused) }
        ensures err { OnErr result (self.new ≡ self.old) }
    {
        self.check_open(n)?;
        self.set_state(n, JobState::Paused);
        Ok(())
    }

    /// Lets a job run again. One that runs goes on running.
    pub fn resume(&mut self, n: u64) -> Result<(), JobRefusal>
        ensures answer { MatchResult result (λ _. refusal self.old n ≡ None) (λ e. refusal self.old n ≡ Some e) }
        ensures ok { OnOk result (self.new ≡ with_state self.old n JobState.Running) }
        ensures err { OnErr result (self.new ≡ self.old) }
    {
        self.check_open(n)?;
        self.set_state(n, JobState::Running);
        Ok(())
    }

    /// Ends a job in a state in which jobs are over.
    pub fn end(&mut self, n: u64, state: JobState) -> Result<(), JobRefusal>
        requires { is_ended state ≡ true }
        ensures answer { MatchResult result (λ _. refusal self.old n ≡ None) (λ e. refusal self.old n ≡ Some e) }
        ensures ok { OnOk result (self.new ≡ with_state self.old n state) }
        ensures err { OnErr result (self.new ≡ self.old) }
    {
        self.check_open(n)?;
        self.set_state(n, state);
        Ok(())
    }
}
