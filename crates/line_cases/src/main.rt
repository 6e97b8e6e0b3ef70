//! Answers each line of a script by the command that it is read as, or by the column at which it
//! is malformed.
#![tactic(auto)]

mod texts;

use case_suites::{Answers, run_suites};
use command_lang::{Command, LineFault, parse_line};
use mvcc_keys::Memory;
use std::alloc::Global;
use std::io;
use std::process::ExitCode;

/// Reads a line, as the first command of a script where the setting `first` came.
#[derive(Drop)]
struct Lines {
    first: bool,
}

impl Answers for Lines {
    fn set(&mut self, _alloc: Global, setting: &str) -> Result<(), Memory> {
        self.first = setting == "first";
        Ok(())
    }

    fn answer(&mut self, alloc: Global, input: &[u8], out: &mut String) -> Result<(), Memory> {
        let line = input.strip_suffix(b"\n").unwrap_or(input);
        let reading = parse_line(alloc, line, self.first);
        self.first = false;
        put_reading(&reading, out)
    }
}

fn put_reading(
    reading: &Result<Option<Command>, LineFault>,
    out: &mut String,
) -> Result<(), Memory> {
    match reading {
        Ok(Some(command)) => texts::put_command(command, out)?,
        Ok(None) => out.push_str("skipped")?,
        Err(LineFault::Wrong { column }) => write!(out, "column {column}")?,
        Err(LineFault::Memory) => return Err(Memory),
    }
    Ok(out.push('\n')?)
}

fn main(rt: HostRuntime) -> io::Result<ExitCode> {
    run_suites(&rt, &mut Lines { first: false })
}
