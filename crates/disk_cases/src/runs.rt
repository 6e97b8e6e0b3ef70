//! The calls of a case on disks in memory.
use crate::disk_calls::put_call;
use crate::folder;
use crate::plan::Plan;
use crate::spelling::{put_bytes, put_name, put_names, put_shortened};
use crate::stops::put_stops;
use mvcc_keys::{Blob, Memory, Text};
use outside_world::{Disk, DiskCall, MemoryDisk, SureDisk, calls_text};
use std::alloc::Global;

/// Makes the calls of the lines.
pub fn put_calls<D: Disk>(
    alloc: Global,
    disk: &mut D,
    plan: &Plan,
    lines: &str,
    out: &mut String,
) -> Result<(), Memory> {
    for line in lines.split('\n').filter(|line| !line.is_empty()) {
        put_call(alloc, disk, plan, line, out)?;
    }
    Ok(())
}

pub fn copy_objects(alloc: Global, objects: &[(Text, Blob)]) -> Result<Vec<(Text, Blob)>, Memory> {
    let mut copied = Vec::new(alloc);
    for (name, bytes) in objects {
        copied.push((name.copy(alloc)?, bytes.copy(alloc)?))?;
    }
    Ok(copied)
}

fn put_objects(objects: &[(Text, Blob)], front: &str, out: &mut String) -> Result<(), Memory> {
    out.push_str("objects")?;
    for (name, bytes) in objects {
        out.push(' ')?;
        put_name(name.as_str(), front, out)?;
        out.push('=')?;
        put_bytes(bytes.as_slice(), out)?;
    }
    Ok(out.push('\n')?)
}

/// Appends a line with calls: a put is `+`, a removal `-` and a sync `/`; one that failed ends in
/// `!`.
pub fn put_noted(
    alloc: Global,
    calls: &[(DiskCall, bool)],
    front: &str,
    out: &mut String,
) -> Result<(), Memory> {
    put_shortened(calls_text(alloc, calls)?.as_str(), front, out)?;
    Ok(out.push('\n')?)
}

fn put_named(what: &str, names: &[Text], front: &str, out: &mut String) -> Result<(), Memory> {
    out.push_str(what)?;
    put_names(names, front, out)?;
    Ok(out.push('\n')?)
}

/// Appends what the plan shows of a disk.
fn put_shown(
    alloc: Global,
    plan: &Plan,
    held: &[(Text, Blob)],
    touched: &[Text],
    calls: &[(DiskCall, bool)],
    gets: &[Text],
    out: &mut String,
) -> Result<(), Memory> {
    let front = plan.front.as_str();
    if plan.shows_objects {
        put_objects(held, front, out)?;
    }
    if plan.shows_touched {
        put_named("touched", touched, front, out)?;
    }
    if plan.shows_calls {
        out.push_str("calls")?;
        put_noted(alloc, calls, front, out)?;
    }
    if plan.shows_gets {
        put_named("gets", gets, front, out)?;
    }
    Ok(())
}

/// A disk with these objects, whose calls fail as the plan says, and which stops.
pub fn memory_disk(
    alloc: Global,
    plan: &Plan,
    objects: &[(Text, Blob)],
    stop: Option<u64>,
) -> Result<MemoryDisk, Memory> {
    let fails = Vec::from_slice(alloc, &plan.fails)?;
    MemoryDisk::new(alloc, copy_objects(alloc, objects)?, fails, stop)
}

/// Makes the calls on a disk in memory that may fail.
pub fn put_memory_run(
    alloc: Global,
    plan: &Plan,
    lines: &str,
    out: &mut String,
) -> Result<(), Memory> {
    let mut disk = memory_disk(alloc, plan, &plan.objects, plan.stop)?;
    put_calls(alloc, &mut disk, plan, lines, out)?;
    put_shown(
        alloc,
        plan,
        disk.held(),
        disk.touched(),
        disk.calls(),
        disk.gets(),
        out,
    )?;
    if plan.tries_stops {
        put_stops(alloc, plan, lines, &disk, out)?;
    }
    Ok(())
}

fn put_sure_run(alloc: Global, plan: &Plan, lines: &str, out: &mut String) -> Result<(), Memory> {
    let mut disk = SureDisk::new(alloc, copy_objects(alloc, &plan.objects)?)?;
    put_calls(alloc, &mut disk, plan, lines, out)?;
    put_shown(
        alloc,
        plan,
        disk.held(),
        disk.touched(),
        disk.calls(),
        disk.gets(),
        out,
    )
}

/// Appends what the sure disk answers, where it isn't that.
fn put_sure(
    alloc: Global,
    plan: &Plan,
    lines: &str,
    wanted: &str,
    out: &mut String,
) -> Result<(), Memory> {
    let mut text = String::new(alloc);
    put_sure_run(alloc, plan, lines, &mut text)?;
    if text.as_str() != wanted {
        write!(out, "and the sure disk\n{text}")?;
    }
    Ok(())
}

/// Appends what the folder answers, where that isn't what this begins with.
fn put_folder(
    rt: &HostRuntime,
    plan: &Plan,
    lines: &str,
    wanted: &str,
    out: &mut String,
) -> Result<(), Memory> {
    let mut text = String::new(rt.alloc());
    folder::put_run(rt, plan, lines, &mut text)?;
    if !wanted.starts_with(text.as_str()) {
        write!(out, "and the folder\n{text}")?;
    }
    Ok(())
}

/// Makes the calls on both disks in memory and on the folder, and appends what they answer, once
/// where they agree.
pub fn put_all_runs(
    rt: &HostRuntime,
    plan: &Plan,
    lines: &str,
    out: &mut String,
) -> Result<(), Memory> {
    let mut text = String::new(rt.alloc());
    put_memory_run(rt.alloc(), plan, lines, &mut text)?;
    out.push_str(text.as_str())?;
    put_sure(rt.alloc(), plan, lines, text.as_str(), out)?;
    put_folder(rt, plan, lines, text.as_str(), out)
}
