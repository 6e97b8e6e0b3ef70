//! Runs scripts over sources, sinks and disks in memory, and tells what they answer and leave.
#![tactic(auto)]

mod limited;
mod objects;
mod plan;
mod runs;
mod source;
mod stops;

use case_suites::{Answers, run_suites};
use mvcc_keys::Memory;
use plan::Plan;
use std::alloc::Global;
use std::io;
use std::process::ExitCode;

/// The plan of the case that comes, and the objects that the last case left.
#[derive(Drop)]
struct Scripts {
    plan: Plan,
}

impl Answers for Scripts {
    fn set(&mut self, alloc: Global, setting: &str) -> Result<(), Memory> {
        self.plan.set(alloc, setting)
    }

    fn answer(&mut self, alloc: Global, given: &[u8], out: &mut String) -> Result<(), Memory> {
        let ran = runs::run_whole(alloc, &self.plan, given, self.plan.stop)?;
        runs::put_run(&self.plan, &ran, out)?;
        if self.plan.tries_stops {
            stops::put_stops(alloc, &self.plan, given, &ran, out)?;
        }
        self.plan.begin(alloc, ran.disk.held())
    }
}

fn main(rt: HostRuntime) -> io::Result<ExitCode> {
    let plan = Plan::new(rt.alloc());
    run_suites(&rt, &mut Scripts { plan })
}
