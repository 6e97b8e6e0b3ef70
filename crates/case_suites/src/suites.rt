//! Reads suites, and reports the cases whose answer isn't the expected one.
use crate::differences::put_difference;
use crate::escapes::put_input;
use mvcc_keys::Memory;
use std::alloc::Global;
use std::process::ExitCode;
use std::rt::{Env, Files};
use std::{env, fs, io};

/// What answers cases.
pub trait Answers {
    /// Takes a setting of the case that follows.
    fn set(&mut self, alloc: Global, setting: &str) -> Result<(), Memory>;

    /// Appends the answer to an input, in whole lines, and forgets the settings.
    fn answer(&mut self, alloc: Global, input: &[u8], out: &mut String) -> Result<(), Memory>;
}

/// A suite up to some line of it.
#[derive(Drop)]
struct Suite {
    input: Vec<u8>,
    expected: String,
    actual: String,
    /// Whether lines of a case came that isn't answered yet.
    is_open: bool,
    cases: u64,
    failures: u64,
}

impl Suite {
    fn new(alloc: Global) -> Suite {
        Suite {
            input: Vec::new(alloc),
            expected: String::new(alloc),
            actual: String::new(alloc),
            is_open: false,
            cases: 0,
            failures: 0,
        }
    }

    fn count_failure(&mut self) {
        self.failures = self.failures.saturating_add(1);
    }

    fn set<A: Answers>(&mut self, alloc: Global, answers: &mut A, setting: &str) {
        if answers.set(alloc, setting).is_err() {
            self.count_failure();
        }
    }

    /// Answers the case whose lines came. Where memory ran out the answer is empty.
    fn answer<A: Answers>(&mut self, alloc: Global, answers: &mut A) {
        self.actual.clear();
        if answers
            .answer(alloc, &self.input, &mut self.actual)
            .is_err()
        {
            self.actual.clear();
        }
        self.cases = self.cases.saturating_add(1);
    }

    fn is_as_expected(&self) -> bool {
        self.actual.as_bytes() == self.expected.as_bytes()
    }

    fn begin_case(&mut self) {
        self.input.clear();
        self.expected.clear();
        self.is_open = false;
    }
}

fn put_report(suite: &Suite, out: &mut String) -> Result<(), Memory> {
    put_difference(suite.expected.as_str(), suite.actual.as_str(), out)
}

/// Reports a case whose answer isn't the expected one.
fn report(
    rt: &(impl Eprint + AllocGlobal),
    suite: &Suite,
    name: &str,
    number: usize,
) -> io::Result<()> {
    let mut text = String::new(rt.alloc());
    put_report(suite, &mut text).or(Err(io::ErrorKind::OutOfMemory))?;
    eprintln!(rt; "{name}: the case before line {number} is answered otherwise: {text}")
}

/// Answers the case whose lines came, if any.
fn close<A: Answers>(
    rt: &(impl Eprint + AllocGlobal),
    suite: &mut Suite,
    answers: &mut A,
    name: &str,
    number: usize,
) -> io::Result<()> {
    if !suite.is_open {
        return Ok(());
    }
    suite.answer(rt.alloc(), answers);
    if !suite.is_as_expected() {
        suite.count_failure();
        report(rt, suite, name, number)?;
    }
    suite.begin_case();
    Ok(())
}

/// Takes a line: a comment or a blank line, an input, a setting, or an expected answer.
fn take<A: Answers>(
    rt: &(impl Eprint + AllocGlobal),
    suite: &mut Suite,
    answers: &mut A,
    name: &str,
    number: usize,
    line: &str,
) -> io::Result<()> {
    let begins_case = line.starts_with("> ") || line.starts_with(": ");
    if line.is_empty() || line.starts_with('#') || begins_case && !suite.expected.is_empty() {
        close(rt, suite, answers, name, number)?;
    }
    if let Some(input) = line.strip_prefix("> ") {
        suite.is_open = true;
        return Ok(put_input(input, &mut suite.input).or(Err(io::ErrorKind::OutOfMemory))?);
    }
    if let Some(setting) = line.strip_prefix(": ") {
        suite.set(rt.alloc(), answers, setting);
        return Ok(());
    }
    if suite.is_open {
        suite.expected.push_str(line)?;
        suite.expected.push('\n')?;
    }
    Ok(())
}

/// Runs the cases of a file, and answers whether each is answered as expected. In a suite whose
/// name begins with `wrong` none is to be, which shows that a wrong answer is seen.
fn run_suite<A: Answers>(
    rt: &(impl Files + Print + Eprint + AllocGlobal),
    answers: &mut A,
    name: &str,
) -> io::Result<bool> {
    let text = fs::read_to_string(rt, name)?;
    let mut suite = Suite::new(rt.alloc());
    for (index, line) in text.as_str().split('\n').enumerate() {
        take(rt, &mut suite, answers, name, index.saturating_add(1), line)?;
    }
    let cases = suite.cases;
    let failures = suite.failures;
    println!(rt; "{name}: {cases} cases, {failures} are answered otherwise")?;
    Ok(failures == if name.starts_with("wrong") { cases } else { 0 })
}

/// Runs the suites that the program's arguments name.
pub fn run_suites<A: Answers>(
    rt: &(impl Env + Files + Print + Eprint + AllocGlobal),
    answers: &mut A,
) -> io::Result<ExitCode> {
    let mut well = true;
    for name in env::args(rt)?.skip(1) {
        well = run_suite(rt, answers, name.as_str())? && well;
    }
    Ok(if well {
        ExitCode::SUCCESS
    } else {
        ExitCode::FAILURE
    })
}
