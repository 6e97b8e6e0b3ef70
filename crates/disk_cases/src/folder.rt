//! The calls of a case on the folder.
use crate::disk_calls::put_call;
use crate::plan::Plan;
use crate::spelling::word;
use mvcc_keys::Memory;
use outside_world::{Disk, FolderDisk};
use std::fs;

const FOLDER: &str = "backup-store";

/// Removes the folder, or what stands in its place.
fn clear(rt: &HostRuntime) {
    let _ = fs::remove_dir_all(rt, FOLDER);
    let _ = fs::remove_file(rt, FOLDER);
}

/// Puts the plan's objects into the folder, which has nothing at first.
fn prepare(rt: &HostRuntime, plan: &Plan) -> Result<(), Memory> {
    clear(rt);
    let mut disk = FolderDisk::new(rt.alloc(), rt);
    for (name, bytes) in &plan.objects {
        disk.put(name, bytes.as_slice()).or(Err(Memory))?;
    }
    Ok(())
}

fn put_whether(whether: bool, out: &mut String) -> Result<(), Memory> {
    Ok(out.push_str(if whether { "yes\n" } else { "no\n" })?)
}

/// Does what a line asks of the folder beside the disk, `file path text`, `folder path` or
/// `exists path`, or makes its call.
fn put_line(
    rt: &HostRuntime,
    disk: &mut FolderDisk<'_, HostRuntime>,
    plan: &Plan,
    line: &str,
    out: &mut String,
) -> Result<(), Memory> {
    let path = word(line, 1);
    match word(line, 0) {
        "file" => put_whether(fs::write(rt, path, word(line, 2)).is_ok(), out),
        "folder" => put_whether(fs::create_dir(rt, path).is_ok(), out),
        "exists" => put_whether(fs::exists(rt, path).unwrap_or(false), out),
        _ => put_call(rt.alloc(), disk, plan, line, out),
    }
}

/// Makes the calls on a folder with the plan's objects. The line `new` makes a new disk over it.
pub fn put_run(rt: &HostRuntime, plan: &Plan, lines: &str, out: &mut String) -> Result<(), Memory> {
    prepare(rt, plan)?;
    let mut disk = FolderDisk::new(rt.alloc(), rt);
    for line in lines.split('\n').filter(|line| !line.is_empty()) {
        if line == "new" {
            disk = FolderDisk::new(rt.alloc(), rt);
        } else {
            put_line(rt, &mut disk, plan, line, out)?;
        }
    }
    clear(rt);
    Ok(())
}
