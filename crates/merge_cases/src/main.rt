//! Merges chunks that are given as lists of entries, and tells what comes out and what was loaded.
#![tactic(auto)]

mod chain;
mod runs;
mod source;
mod words;

use case_suites::{Answers, run_suites};
use mvcc_keys::Memory;
use std::alloc::Global;
use std::io;
use std::process::ExitCode;

/// Answers cases whose first lines give the parts of a chain, and the others merges of them.
#[derive(Drop)]
struct Merges {}

impl Answers for Merges {
    fn set(&mut self, _alloc: Global, _setting: &str) -> Result<(), Memory> {
        Err(Memory)
    }

    fn answer(&mut self, alloc: Global, given: &[u8], out: &mut String) -> Result<(), Memory> {
        runs::answer(alloc, str::from_utf8(given).unwrap_or(""), out)
    }
}

fn main(rt: HostRuntime) -> io::Result<ExitCode> {
    run_suites(&rt, &mut Merges {})
}
