//! Answers calls on catalogs, rows of tables, books of layers, stored layers and jobs of backups.
#![tactic(auto)]

mod books;
mod catalogs;
mod changes;
mod descriptors;
mod jobs;
mod laws;
mod layers;
mod manifests;
mod plans;
mod remaps;
mod rows;
mod words;

use case_suites::{Answers, run_suites};
use mvcc_keys::Memory;
use std::alloc::Global;
use std::io;
use std::process::ExitCode;
use words::cut;

/// Answers cases whose first line says what the calls of the lines below it are made on.
#[derive(Drop)]
struct Calls {}

impl Answers for Calls {
    fn set(&mut self, _alloc: Global, _setting: &str) -> Result<(), Memory> {
        Err(Memory)
    }

    fn answer(&mut self, alloc: Global, given: &[u8], out: &mut String) -> Result<(), Memory> {
        let text = str::from_utf8(given).unwrap_or("");
        let (first, lines) = text.split_once('\n').unwrap_or((text, ""));
        let (subject, words) = cut(first);
        match subject {
            "catalog" => catalogs::answer(alloc, words, lines, out),
            "rows" => rows::answer(alloc, words, lines, out),
            "book" => books::answer(alloc, words, lines, out),
            "layer" => layers::answer(alloc, lines, out),
            "job" => jobs::answer(alloc, words, lines, out),
            _ => Err(Memory),
        }
    }
}

fn main(rt: HostRuntime) -> io::Result<ExitCode> {
    laws::state_all();
    run_suites(&rt, &mut Calls {})
}
