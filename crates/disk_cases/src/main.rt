//! Makes calls on disks, on layers of a collection and on streams, and tells what they answer.
#![tactic(auto)]

mod disk_calls;
mod folder;
mod layer_calls;
mod plan;
mod runs;
mod spelling;
mod stops;
mod streams;

use case_suites::{Answers, run_suites};
use mvcc_keys::Memory;
use plan::{Plan, Subject};
use std::alloc::Global;
use std::io;
use std::process::ExitCode;

/// The plan of the case that comes, and the runtime whose folder the folder's disk stands over.
#[derive(Drop)]
struct Disks<'a> {
    rt: &'a HostRuntime,
    plan: Plan,
}

impl<'a> Answers for Disks<'a> {
    fn set(&mut self, alloc: Global, setting: &str) -> Result<(), Memory> {
        self.plan.set(alloc, setting)
    }

    fn answer(&mut self, alloc: Global, given: &[u8], out: &mut String) -> Result<(), Memory> {
        let lines = str::from_utf8(given).unwrap_or("");
        match self.plan.subject {
            Subject::Memory => runs::put_memory_run(alloc, &self.plan, lines, out)?,
            Subject::All => runs::put_all_runs(self.rt, &self.plan, lines, out)?,
            Subject::Folder => folder::put_run(self.rt, &self.plan, lines, out)?,
            Subject::Streams => streams::answer(self.rt, lines, out)?,
        }
        self.plan.begin();
        Ok(())
    }
}

fn main(rt: HostRuntime) -> io::Result<ExitCode> {
    let plan = Plan::new(rt.alloc());
    run_suites(&rt, &mut Disks { rt: &rt, plan })
}
