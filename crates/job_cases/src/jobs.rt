//! Jobs of a backup without tables, over both stores of versions and a disk in memory.
ghost use Rattle.std.specs.Prelude.{◌≡◌, true, IfOk};
ghost use Rattle.mvcc_keys.specs.Times.{time, zero_time};
ghost use Rattle.table_descriptors.specs.Names.{is_name};
ghost use Rattle.version_store.specs.Tables.{no_facts};
ghost use Rattle.backup_job.specs.Jobs.{MayRun};

use crate::layers::put_fault;
use crate::rows::put_both;
use crate::words::{after, bytes};
use backup_job::{BackupJob, Progress};
use collection_dir::DirFault;
use introduced_spans::LayerPlan;
use layer_model::LayerName;
use mvcc_keys::{Blob, Hlc, Items, Memory, Text};
use outside_world::{DiskCall, MemoryDisk};
use schema_catalog::Catalog;
use std::alloc::Global;
use table_descriptors::{Name, Scope};
use version_store::{FactList, MvccMap, Versions};

/// The names of the layer's objects begin so.
const FRONT: &str =
    "c.a.000000000000000300000000.000000000000000000000000.000000000000000300000000.00000001.";

fn name(alloc: Global, text: &[u8]) -> Result<Name, Memory>
    ensures { IfOk result (λ n. is_name n ≡ true) }
{
    match Name::parse(alloc, text)? {
        Some(name) => name.copy(alloc),
        None => Err(Memory),
    }
}

/// The full layer of job 1 of the cluster `a` to wall time 3.
fn layer(alloc: Global) -> Result<LayerName, Memory>
    ensures cluster { IfOk result (λ n. is_name n.cluster ≡ true) }
    ensures form { IfOk result (λ n. n ≡ record { collection = n.collection; cluster = n.cluster; full = time 3 0; start = zero_time; end = time 3 0; job = 1 }) }
{
    let collection = name(alloc, b"c")?;
    let cluster = name(alloc, b"a")?;
    Ok(LayerName {
        collection,
        cluster,
        full: Hlc::at_wall(3),
        start: Hlc::zero(),
        end: Hlc::at_wall(3),
        job: 1,
    })
}

/// A job for a layer without tables.
fn bare_job(alloc: Global) -> Result<BackupJob, Memory>
    ensures { IfOk result (MayRun no_facts) }
{
    let layer = layer(alloc)?;
    let database = name(alloc, b"d")?;
    let plan = LayerPlan {
        floor: Hlc::zero(),
        tables: Items::from_vec(Vec::new(alloc)),
    };
    let catalog = Catalog::new(alloc, 1);
    BackupJob::start(
        alloc,
        layer,
        false,
        Scope::Database(database),
        plan,
        &catalog,
    )
}

/// Appends what a unit answers.
fn put_progress(done: &Result<Progress, DirFault>, out: &mut String) -> Result<(), Memory> {
    match done {
        Ok(Progress::Running) => Ok(out.push_str("running\n")?),
        Ok(Progress::Done) => Ok(out.push_str("done\n")?),
        Err(fault) => put_fault(fault, FRONT, out),
    }
}

fn put_manifest(job: &BackupJob, out: &mut String) -> Result<(), Memory> {
    let number = job.layer().job;
    let cluster = &job.manifest().cluster;
    let version = job.manifest().version;
    let tables = job.manifest().tables.as_slice().len();
    Ok(write!(
        out,
        "job {number} of {cluster} version {version} tables {tables}\n"
    )?)
}

/// The first unit of a job.
fn unit<V: Versions>(
    alloc: Global,
    store: &V,
    disk: &mut MemoryDisk,
    out: &mut String,
) -> Result<(), Memory>
    requires { V.stands store.now no_facts }
{
    let mut job = bare_job(alloc)?;
    let done = job.unit(store, disk);
    put_progress(&done, out)?;
    put_manifest(&job, out)
}

/// The first unit of a job, and again, where there was a fault.
fn unit_twice<V: Versions>(
    alloc: Global,
    store: &V,
    disk: &mut MemoryDisk,
    out: &mut String,
) -> Result<(), Memory>
    requires { V.stands store.now no_facts }
{
    let mut job = bare_job(alloc)?;
    if let Err(fault) = job.unit(store, disk) {
        put_fault(&fault, FRONT, out)?;
        return put_progress(&job.unit(store, disk), out);
    }
    Ok(out.push_str("no fault\n")?)
}

/// All units of a job.
fn run<V: Versions>(
    alloc: Global,
    store: &V,
    disk: &mut MemoryDisk,
    out: &mut String,
) -> Result<(), Memory>
    requires { V.stands store.now no_facts }
{
    let mut job = bare_job(alloc)?;
    match job.run_to_end(store, disk) {
        Ok(()) => Ok(out.push_str("done\n")?),
        Err(fault) => put_fault(&fault, FRONT, out),
    }
}

fn put_call(call: &DiskCall, out: &mut String) -> Result<(), Memory> {
    match call {
        DiskCall::Put(name) => Ok(write!(
            out,
            " +{}",
            name.as_str().strip_prefix(FRONT).unwrap_or("?")
        )?),
        DiskCall::Removal(name) => Ok(write!(
            out,
            " -{}",
            name.as_str().strip_prefix(FRONT).unwrap_or("?")
        )?),
        DiskCall::Sync => Ok(out.push_str(" /")?),
    }
}

/// Appends the calls of a disk: a put is `+`, a removal `-` and a sync `/`; one that failed ends in `!`.
fn put_calls(disk: &MemoryDisk, out: &mut String) -> Result<(), Memory> {
    out.push_str("calls")?;
    for (call, ok) in disk.calls() {
        put_call(call, out)?;
        if !*ok {
            out.push('!')?;
        }
    }
    Ok(out.push('\n')?)
}

fn call<V: Versions>(
    alloc: Global,
    store: &V,
    disk: &mut MemoryDisk,
    line: &str,
    out: &mut String,
) -> Result<(), Memory>
    requires { V.stands store.now no_facts }
{
    match line {
        "unit" => unit(alloc, store, disk, out),
        "unit twice" => unit_twice(alloc, store, disk, out),
        "run" => run(alloc, store, disk, out),
        "calls" => put_calls(disk, out),
        _ => Err(Memory),
    }
}

fn call_both(
    alloc: Global,
    list: &mut MemoryDisk,
    map: &mut MemoryDisk,
    line: &str,
    out: &mut String,
) -> Result<(), Memory> {
    let mut first = String::new(alloc);
    let mut second = String::new(alloc);
    call(alloc, &FactList::new(alloc), list, line, &mut first)?;
    call(alloc, &MvccMap::new(alloc), map, line, &mut second)?;
    put_both(first.as_str(), second.as_str(), out)
}

/// Adds the object of a part of the layer, if the words give its bytes.
fn add_object(
    alloc: Global,
    words: &str,
    part: &str,
    objects: &mut Vec<(Text, Blob)>,
) -> Result<(), Memory> {
    let digits = after(words, part);
    if digits.is_empty() {
        return Ok(());
    }
    let name = Text::from_string(format!(in alloc; "{FRONT}{part}")?);
    let bytes = Blob::from_vec(bytes(alloc, digits)?);
    Ok(objects.push((name, bytes))?)
}

/// A disk of which the calls in `fails 1,3` fail, with the objects in `gate 00 manifest 4d41..`.
fn disk(alloc: Global, words: &str) -> Result<MemoryDisk, Memory> {
    let mut objects = Vec::new(alloc);
    add_object(alloc, words, "gate", &mut objects)?;
    add_object(alloc, words, "manifest", &mut objects)?;
    let mut fails = Vec::new(alloc);
    for word in after(words, "fails").split(',') {
        fails.push(word.parse::<u64>().unwrap_or(0))?;
    }
    MemoryDisk::new(alloc, objects, fails, None)
}

/// Answers the calls of new jobs for a layer without tables, each store with a disk of its own.
pub fn answer(alloc: Global, words: &str, lines: &str, out: &mut String) -> Result<(), Memory> {
    let mut list = disk(alloc, words)?;
    let mut map = disk(alloc, words)?;
    for line in lines.split('\n') {
        if !line.is_empty() {
            call_both(alloc, &mut list, &mut map, line, out)?;
        }
    }
    Ok(())
}
