//! Manifests of layers over a catalog, before their chunks are known.
use crate::descriptors::put_descriptor;
use crate::plans::{put_fault, scope, thresholds};
use crate::words::{after, cut, has, name, put_time, time};
use backup_job::BackupJob;
use introduced_spans::{LayerPlan, plan_layer};
use layer_manifest::{Manifest, TablePart};
use layer_model::LayerName;
use mvcc_keys::{Hlc, Memory};
use schema_catalog::Catalog;
use std::alloc::Global;

/// The layer of job 1 of the cluster `a` in the collection `c`.
fn layer(alloc: Global, start: Hlc, end: Hlc) -> Result<LayerName, Memory> {
    let collection = name(alloc, "c")?;
    Ok(LayerName {
        collection,
        cluster: name(alloc, "a")?,
        full: end,
        start,
        end,
        job: 1,
    })
}

fn put_part(part: &TablePart, out: &mut String) -> Result<(), Memory> {
    let id = part.id;
    let kind = if part.introduced {
        "introduced"
    } else {
        "held"
    };
    let chunks = part.chunks.len();
    write!(out, "{id} {kind} chunks {chunks}\n")?;
    for d in part.descriptors.as_slice() {
        put_descriptor(d, out)?;
    }
    Ok(())
}

fn put_manifest(m: &Manifest, out: &mut String) -> Result<(), Memory> {
    let (cluster, job, version) = (&m.cluster, m.job, m.version);
    write!(out, "{cluster} job {job} version {version} full ")?;
    put_time(m.full, out)?;
    out.push_str(" from ")?;
    put_time(m.start, out)?;
    out.push_str(" to ")?;
    put_time(m.end, out)?;
    out.push_str(" floor ")?;
    put_time(m.floor, out)?;
    out.push_str(if m.history { " every\n" } else { " newest\n" })?;
    for part in m.tables.as_slice() {
        put_part(part, out)?;
    }
    Ok(())
}

/// Starts a job for a planned layer, and appends its manifest.
fn start(
    alloc: Global,
    catalog: &Catalog,
    plan: LayerPlan,
    line: &str,
    out: &mut String,
) -> Result<(), Memory> {
    let layer = layer(alloc, time(after(line, "from")), time(after(line, "to")))?;
    let scope = scope(alloc, cut(line).0)?;
    let job = BackupJob::start(alloc, layer, has(line, "history"), scope, plan, catalog)?;
    put_manifest(job.manifest(), out)
}

/// `manifest d from 0 to 7 history thresholds 101:5`
pub fn answer(
    alloc: Global,
    catalog: &Catalog,
    line: &str,
    out: &mut String,
) -> Result<(), Memory> {
    let scope = scope(alloc, cut(line).0)?;
    let thresholds = thresholds(alloc, after(line, "thresholds"))?;
    let (from, to) = (time(after(line, "from")), time(after(line, "to")));
    match plan_layer(
        alloc,
        catalog,
        &scope,
        from,
        to,
        has(line, "history"),
        &thresholds,
    ) {
        Ok(plan) => start(alloc, catalog, plan, line, out),
        Err(fault) => put_fault(fault, out),
    }
}
