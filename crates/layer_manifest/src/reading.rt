//! Manifests, read.
ghost use Rattle.std.specs.Prelude.{IfOk};
ghost use Rattle.table_descriptors.specs.Fields.{Reads};
ghost use Rattle.layer_manifest.specs.Manifests.{IsProperManifest};
ghost use Rattle.layer_manifest.specs.ManifestFiles.{read_manifest_front, read_manifest, Answers, ManifestsAreExact};

use crate::faults::ManifestFault;
use crate::items::{take_end, take_floor, take_history, take_scope, take_version};
use crate::manifest::Manifest;
use crate::tables::take_tables;
use mvcc_keys::Items;
use std::alloc::Global;
use table_descriptors::{FieldFault, take_count, take_name, take_time};

/// A manifest in front, and what follows it.
#[tactic(auto, unfolding(crate::specs::ManifestFiles::read_manifest_front))]
fn take_manifest(alloc: Global, b: &[u8]) -> Result<(Manifest, &[u8]), FieldFault>
    ensures { Reads (λ p. (p.0, p.1.now)) result (read_manifest_front b.now) }
{
    let (version, rest) = take_version(b)?;
    let (cluster, rest) = take_name(alloc, rest)?;
    let (job, rest) = take_count(rest)?;
    let (full, rest) = match take_time(rest) {
        Ok(read) => read,
        Err(fault) => return Err(fault),
    };
    let (start, rest) = match take_time(rest) {
        Ok(read) => read,
        Err(fault) => return Err(fault),
    };
    let (end, rest) = match take_end(full, start, rest) {
        Ok(read) => read,
        Err(fault) => return Err(fault),
    };
    let (floor, rest) = match take_floor(start, end, rest) {
        Ok(read) => read,
        Err(fault) => return Err(fault),
    };
    let (history, rest) = take_history(start, floor, rest)?;
    let (scope, rest) = take_scope(alloc, rest)?;
    let (tables, rest) = take_tables(alloc, version, rest)?;
    let m = Manifest {
        cluster,
        job,
        full,
        start,
        end,
        floor,
        history,
        scope,
        tables: Items::from_vec(tables),
        version,
    };
    Ok((m, rest))
}

/// Reads bytes that are one manifest, of either version.
#[tactic(auto, unfolding(crate::specs::ManifestFiles::read_manifest))]
pub fn read_manifest_bytes(alloc: Global, b: &[u8]) -> Result<Manifest, ManifestFault>
    ensures read { Answers result (read_manifest b.now) }
    ensures proper { IfOk result IsProperManifest }
{
    match take_manifest(alloc, b) {
        Ok((m, rest)) if rest.is_empty() => Ok(m),
        Ok((_, rest)) => Err(ManifestFault::Malformed {
            offset: b.len().saturating_sub(rest.len()),
        }),
        Err(FieldFault::Broken { left }) => Err(ManifestFault::Malformed {
            offset: b.len().saturating_sub(left),
        }),
        Err(FieldFault::Memory) => Err(ManifestFault::Memory),
    }
}

/// A law: what is read as a manifest are just the manifests that are written, each of which is a
/// proper one, and different ones have different bytes.
pub fn manifests_are_exact()
    ensures { ManifestsAreExact }
{}
