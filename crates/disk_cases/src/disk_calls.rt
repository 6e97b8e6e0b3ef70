//! Calls on a disk.
use crate::layer_calls::put_layer_call;
use crate::plan::Plan;
use crate::spelling::{name_of, put_bytes, put_names, word};
use mvcc_keys::{Memory, Text};
use outside_world::{Disk, DiskFault, replace};
use std::alloc::Global;

/// Appends that the disk failed. Want of memory ends the case.
pub fn put_fault(fault: DiskFault, out: &mut String) -> Result<(), Memory> {
    match fault {
        DiskFault::Failed => Ok(out.push_str("failed")?),
        DiskFault::Memory => Err(Memory),
    }
}

fn put_done(done: Result<(), DiskFault>, out: &mut String) -> Result<(), Memory> {
    match done {
        Ok(()) => Ok(out.push_str("ok")?),
        Err(fault) => put_fault(fault, out),
    }
}

fn put_listed(
    names: &Result<Vec<Text>, DiskFault>,
    front: &str,
    out: &mut String,
) -> Result<(), Memory> {
    match names {
        Ok(names) => {
            out.push_str("names")?;
            put_names(names, front, out)
        }
        Err(fault) => put_fault(*fault, out),
    }
}

fn put_found(found: &Result<Option<Vec<u8>>, DiskFault>, out: &mut String) -> Result<(), Memory> {
    match found {
        Ok(Some(bytes)) => put_bytes(bytes, out),
        Ok(None) => Ok(out.push_str("none")?),
        Err(fault) => put_fault(*fault, out),
    }
}

/// Opens a gate over bytes.
fn put_replaced<D: Disk>(
    alloc: Global,
    disk: &mut D,
    name: &Text,
    line: &str,
    front: &str,
    out: &mut String,
) -> Result<(), Memory> {
    let gate = name_of(alloc, front, word(line, 3))?;
    put_done(replace(disk, name, word(line, 2).as_bytes(), &gate), out)
}

/// Makes the call of a line: `names`, `get name`, `put name text`, `remove name`, `sync`,
/// `replace name text gate`, or a call on the layer, and appends a line with its answer.
pub fn put_call<D: Disk>(
    alloc: Global,
    disk: &mut D,
    plan: &Plan,
    line: &str,
    out: &mut String,
) -> Result<(), Memory> {
    let front = plan.front.as_str();
    let name = name_of(alloc, front, word(line, 1))?;
    match word(line, 0) {
        "names" => put_listed(&disk.names(alloc), front, out)?,
        "get" => put_found(&disk.get(alloc, &name), out)?,
        "put" => put_done(disk.put(&name, word(line, 2).as_bytes()), out)?,
        "remove" => put_done(disk.remove(&name), out)?,
        "sync" => put_done(disk.sync(), out)?,
        "replace" => put_replaced(alloc, disk, &name, line, front, out)?,
        _ => put_layer_call(alloc, disk, plan, line, out)?,
    }
    Ok(out.push('\n')?)
}
