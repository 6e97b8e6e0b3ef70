//! Makes calls on stores, range deletions, layers and jobs, and tells what they answer.
#![tactic(auto)]

mod exports;
mod fragments;
mod jobs;
mod layers;
mod stores;
mod texts;
mod version_calls;

use case_suites::{Answers, run_suites};
use mvcc_keys::Memory;
use std::alloc::Global;
use std::io;
use std::process::ExitCode;

/// What the lines of a case are calls on.
#[derive(Clone, Copy)]
enum Subject {
    Stores,
    Fragments,
    Layers,
    Jobs,
}

/// The subject, which the setting `on` gives, of the cases up to the next such setting.
#[derive(Drop)]
struct Calls {
    subject: Subject,
}

impl Answers for Calls {
    fn set(&mut self, _alloc: Global, setting: &str) -> Result<(), Memory> {
        self.subject = match setting {
            "on stores" => Subject::Stores,
            "on fragments" => Subject::Fragments,
            "on layers" => Subject::Layers,
            "on jobs" => Subject::Jobs,
            _ => return Err(Memory),
        };
        Ok(())
    }

    fn answer(&mut self, alloc: Global, given: &[u8], out: &mut String) -> Result<(), Memory> {
        let lines = str::from_utf8(given).unwrap_or("");
        match self.subject {
            Subject::Stores => stores::answer(alloc, lines, out),
            Subject::Fragments => fragments::answer(alloc, lines, out),
            Subject::Layers => layers::answer(alloc, lines, out),
            Subject::Jobs => jobs::answer(alloc, lines, out),
        }
    }
}

fn main(rt: HostRuntime) -> io::Result<ExitCode> {
    run_suites(
        &rt,
        &mut Calls {
            subject: Subject::Stores,
        },
    )
}
