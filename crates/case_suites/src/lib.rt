//! Suites of cases: text files in which each input stands above the answer that is expected.
#![tactic(auto)]

mod differences;
mod escapes;
mod suites;

pub use suites::{Answers, run_suites};
