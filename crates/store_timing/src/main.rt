//! Work for `bench/run` to time on a map of versions; `usage` below has the words.
#![tactic(auto)]

mod exports;
mod stores;

use mvcc_keys::Memory;
use std::alloc::Global;
use std::process::ExitCode;
use std::{env, io};

fn main(rt: HostRuntime) -> ExitCode {
    let Ok(Some((work, n))) = work_of(&rt) else {
        let _ = eprintln!(rt;
            "usage: store_timing puts | ranges | full | history | changes | versions | deletions N"
        );
        return ExitCode::from(2);
    };
    match done(rt.alloc(), work, n) {
        Ok((first, second)) => match println!(rt; "{first} {second}") {
            Ok(()) => ExitCode::from(0),
            Err(_) => ExitCode::from(5),
        },
        Err(Memory) => ExitCode::from(7),
    }
}

#[derive(Clone, Copy)]
enum Work {
    Puts,
    Ranges,
    Full,
    History,
    Changes,
    Versions,
    Deletions,
}

fn work_named(word: &str) -> Option<Work> {
    match word {
        "puts" => Some(Work::Puts),
        "ranges" => Some(Work::Ranges),
        "full" => Some(Work::Full),
        "history" => Some(Work::History),
        "changes" => Some(Work::Changes),
        "versions" => Some(Work::Versions),
        "deletions" => Some(Work::Deletions),
        _ => None,
    }
}

/// What the words ask for, if they do.
fn work_of(rt: &HostRuntime) -> io::Result<Option<(Work, u32)>> {
    let mut words = env::args(rt)?.skip(1);
    let work = match words.next() {
        Some(word) => work_named(word.as_str()),
        None => None,
    };
    match (work, words.next()) {
        (Some(work), Some(n)) => Ok(n.as_str().parse::<u32>().ok().map(|n| (work, n))),
        _ => Ok(None),
    }
}

fn done(alloc: Global, work: Work, n: u32) -> Result<(usize, usize), Memory> {
    match work {
        Work::Puts => stores::put_and_scan(alloc, n),
        Work::Ranges => stores::add_and_ask(alloc, n),
        Work::Full => exports::full(alloc, n),
        Work::History => exports::history(alloc, n),
        Work::Changes => exports::changes(alloc, n),
        Work::Versions => exports::versions(alloc, n),
        Work::Deletions => exports::deletions(alloc, n),
    }
}
