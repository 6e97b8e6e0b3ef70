//! Calls on a registry of numbers.
use crate::texts::{number, word};
use job_registry::{JobRefusal, JobState, Registry};
use mvcc_keys::Memory;
use std::alloc::Global;

/// The most jobs of a case.
const JOBS_MAX: usize = 1000;

const STATES: &[(JobState, &str)] = &[
    (JobState::Running, "running"),
    (JobState::Paused, "paused"),
    (JobState::Done, "done"),
    (JobState::Cancelled, "cancelled"),
    (JobState::Failed, "failed"),
];

fn state_of(text: &str) -> Option<JobState> {
    for (state, name) in STATES {
        if *name == text {
            return Some(*state);
        }
    }
    None
}

fn name_of(state: JobState) -> &'static str {
    match state {
        JobState::Running => "running",
        JobState::Paused => "paused",
        JobState::Done => "done",
        JobState::Cancelled => "cancelled",
        JobState::Failed => "failed",
    }
}

fn put_refusal(refusal: JobRefusal, out: &mut String) -> Result<(), Memory> {
    match refusal {
        JobRefusal::NoSuchJob { job } => Ok(write!(out, "no such job {job}")?),
        JobRefusal::NotRunning { job, state } => {
            let name = name_of(state);
            Ok(write!(out, "job {job} is {name}")?)
        }
    }
}

fn put_done(done: Result<(), JobRefusal>, out: &mut String) -> Result<(), Memory> {
    match done {
        Ok(()) => Ok(out.push_str("ok")?),
        Err(refusal) => put_refusal(refusal, out),
    }
}

fn add(jobs: &mut Registry<u64>, line: &str, out: &mut String) -> Result<(), Memory> {
    if jobs.len() >= JOBS_MAX {
        return Err(Memory);
    }
    let job = jobs.add(number(word(line, 1)))?;
    Ok(write!(out, "job {job}")?)
}

fn put_job(job: Option<&u64>, out: &mut String) -> Result<(), Memory> {
    match job {
        Some(value) => Ok(write!(out, "{value}")?),
        None => Ok(out.push_str("none")?),
    }
}

fn put_state(state: Option<JobState>, out: &mut String) -> Result<(), Memory> {
    Ok(out.push_str(state.map_or("none", name_of))?)
}

/// Shows a running job and changes it, where a new value is given.
fn run(jobs: &mut Registry<u64>, n: u64, value: &str, out: &mut String) -> Result<(), Memory> {
    match jobs.running(n) {
        Ok(job) => {
            write!(out, "{}", *job)?;
            if !value.is_empty() {
                *job = number(value);
            }
            Ok(())
        }
        Err(refusal) => put_refusal(refusal, out),
    }
}

fn end(jobs: &mut Registry<u64>, n: u64, state: &str, out: &mut String) -> Result<(), Memory> {
    match state_of(state) {
        Some(state) if state.is_ended() => put_done(jobs.end(n, state), out),
        _ => Ok(out.push_str("no end")?),
    }
}

/// Makes the call of a line: `add value`, `get job`, `state job`, `run job value`, `pause job`,
/// `resume job`, `end job state`, or `count`.
fn call(jobs: &mut Registry<u64>, line: &str, out: &mut String) -> Result<(), Memory> {
    let n = number(word(line, 1));
    match word(line, 0) {
        "add" => add(jobs, line, out),
        "get" => put_job(jobs.get(n), out),
        "state" => put_state(jobs.state(n), out),
        "run" => run(jobs, n, word(line, 2), out),
        "pause" => put_done(jobs.pause(n), out),
        "resume" => put_done(jobs.resume(n), out),
        "end" => end(jobs, n, word(line, 2), out),
        "count" => Ok(write!(out, "{}", jobs.len())?),
        _ => Err(Memory),
    }
}

/// Makes the calls of the lines on a registry without jobs.
pub fn answer(alloc: Global, lines: &str, out: &mut String) -> Result<(), Memory> {
    let mut jobs = Registry::new(alloc);
    for line in lines.split('\n').filter(|line| !line.is_empty()) {
        call(&mut jobs, line, out)?;
        out.push('\n')?;
    }
    Ok(())
}
