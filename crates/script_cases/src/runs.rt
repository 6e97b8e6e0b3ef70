//! Runs of a plan.
use crate::limited::run_lines;
use crate::objects::{copy_objects, put_name, put_objects};
use crate::plan::Plan;
use crate::source::PieceSource;
use backup_run::run;
use mvcc_keys::{Blob, Memory, Text};
use outside_world::{DiskCall, MemoryDisk, MemorySink, MemorySource};
use std::alloc::Global;

/// What a run answers, and the disk as it is then.
#[derive(Drop)]
pub struct Ran {
    pub code: u8,
    pub text: Vec<u8>,
    pub disk: MemoryDisk,
}

fn source_of(alloc: Global, plan: &Plan, script: &[u8]) -> Result<PieceSource, Memory> {
    let bytes = Vec::from_slice(alloc, script)?;
    let source = MemorySource::new(bytes, Vec::from_slice(alloc, &plan.reads)?);
    Ok(PieceSource {
        source,
        piece: plan.piece,
    })
}

fn sink_of(alloc: Global, plan: &Plan) -> Result<MemorySink, Memory> {
    MemorySink::new(alloc, plan.room, Vec::from_slice(alloc, &plan.writes)?)
}

/// The words of the plan, or the one word `run`.
fn words_of(alloc: Global, plan: &Plan) -> Result<Vec<Text>, Memory> {
    let mut words = Vec::new(alloc);
    for word in &plan.words {
        words.push(word.copy(alloc)?)?;
    }
    if words.is_empty() {
        words.push(Text::copy_of(alloc, "run")?)?;
    }
    Ok(words)
}

/// Runs the script over a disk, and answers the status and what was written.
fn run_program(
    alloc: Global,
    plan: &Plan,
    script: &[u8],
    disk: &mut MemoryDisk,
) -> Result<(u8, Vec<u8>), Memory> {
    let words = words_of(alloc, plan)?;
    let mut source = source_of(alloc, plan, script)?;
    let mut sink = sink_of(alloc, plan)?;
    let code = run(alloc, &words, &mut source, &mut sink, disk).code;
    Ok((code, Vec::from_slice(alloc, sink.held())?))
}

/// The same, or by a cluster of the plan's limits and clock.
fn run_on(
    alloc: Global,
    plan: &Plan,
    script: &[u8],
    disk: &mut MemoryDisk,
) -> Result<(u8, Vec<u8>), Memory> {
    if plan.limits.is_empty() && plan.clock.is_empty() {
        run_program(alloc, plan, script, disk)
    } else {
        run_lines(alloc, plan, script, disk)
    }
}

/// Runs the script over these objects on a disk that stops after a call.
pub fn run_over(
    alloc: Global,
    plan: &Plan,
    script: &[u8],
    objects: Vec<(Text, Blob)>,
    stop: Option<u64>,
) -> Result<Ran, Memory> {
    let fails = Vec::from_slice(alloc, &plan.calls)?;
    let mut disk = MemoryDisk::new(alloc, objects, fails, stop)?;
    let (code, text) = run_on(alloc, plan, script, &mut disk)?;
    Ok(Ran { code, text, disk })
}

/// Runs the script over the plan's objects.
pub fn run_whole(
    alloc: Global,
    plan: &Plan,
    script: &[u8],
    stop: Option<u64>,
) -> Result<Ran, Memory> {
    let mut objects = Vec::new(alloc);
    copy_objects(alloc, &plan.objects, &mut objects)?;
    run_over(alloc, plan, script, objects, stop)
}

fn put_call(call: &DiskCall, front: &str, out: &mut String) -> Result<(), Memory> {
    match call {
        DiskCall::Put(name) => {
            out.push_str(" +")?;
            put_name(name.as_str(), front, out)
        }
        DiskCall::Removal(name) => {
            out.push_str(" -")?;
            put_name(name.as_str(), front, out)
        }
        DiskCall::Sync => Ok(out.push_str(" /")?),
    }
}

/// Appends the calls of a disk: a put is `+`, a removal `-` and a sync `/`; one that failed ends in `!`.
pub fn put_calls(disk: &MemoryDisk, front: &str, out: &mut String) -> Result<(), Memory> {
    for (call, ok) in disk.calls() {
        put_call(call, front, out)?;
        if !*ok {
            out.push('!')?;
        }
    }
    Ok(out.push('\n')?)
}

/// Appends what a run answers, and what the plan shows of its disk.
pub fn put_run(plan: &Plan, ran: &Ran, out: &mut String) -> Result<(), Memory> {
    let code = ran.code;
    write!(out, "status {code}\n")?;
    out.push_str(str::from_utf8(&ran.text).unwrap_or("not UTF-8\n"))?;
    if !out.ends_with('\n') {
        out.push_str("\\\n")?;
    }
    let front = plan.front.as_str();
    if plan.shows_calls {
        out.push_str("calls")?;
        put_calls(&ran.disk, front, out)?;
    }
    if plan.shows_objects {
        put_objects(ran.disk.held(), front, out)?;
    }
    Ok(())
}
