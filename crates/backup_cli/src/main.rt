//! Executes a script of commands from standard input: `backup_cli run < script`.
#![tactic(auto)]

use backup_run::Status;
pub use backup_run::run;
use mvcc_keys::Text;
use outside_world::{FolderDisk, StdSink, StdSource};
use std::env;
use std::io::{self, ErrorKind};
use std::process::ExitCode;

fn main(rt: HostRuntime) -> ExitCode {
    let Ok(words) = words_of(&rt) else {
        return ExitCode::from(7);
    };
    let status = status_of(&rt, &words);
    if status.code == 2 {
        let _ = eprintln!(rt; "usage: backup_cli run | show | check | gen N");
    }
    ExitCode::from(status.code)
}

/// The words after the program's name. Where one isn't UTF-8, the empty word stands for all, since
/// it begins no run either.
fn words_of(rt: &HostRuntime) -> io::Result<Vec<Text>> {
    let alloc = rt.alloc();
    let mut words = Vec::new(alloc);
    match env::args(rt) {
        Ok(args) => {
            for word in args.skip(1) {
                words.push(Text::from_string(word))?;
            }
        }
        Err(fault) if fault.kind() == ErrorKind::InvalidData => {
            words.push(Text::from_string(String::new(alloc)))?;
        }
        Err(fault) => return Err(fault),
    }
    Ok(words)
}

/// Runs over the standard streams and the folder `backup-store`.
fn status_of(rt: &HostRuntime, words: &[Text]) -> Status {
    let alloc = rt.alloc();
    let mut source = StdSource::new(rt.stdin());
    let mut sink = StdSink::new(rt.stdout());
    let mut disk = FolderDisk::new(alloc, rt);
    run(alloc, words, &mut source, &mut sink, &mut disk)
}
