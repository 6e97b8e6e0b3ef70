//! Chunks and manifests, read.
ghost use Rattle.std.specs.Prelude.{◌≡◌, ◌<◌, Some, true, IfOk, IfErr};
ghost use Rattle.sha2.specs.Sha256.{sha256};
ghost use Rattle.outside_world.specs.Disk.{Tells, OnlyReads};
ghost use Rattle.outside_world.specs.Objects.{at};
ghost use Rattle.layer_manifest.specs.ManifestFiles as files;
ghost use Rattle.layer_manifest.specs.Manifests.{IsProperManifest};
ghost use Rattle.layer_model.specs.declared.names.Part.TheVariants as part;
ghost use Rattle.layer_model.specs.Names.{object_name};
ghost use Rattle.collection_dir.specs.declared.fault.DirFault.TheVariants.{Damaged, Malformed};
ghost use Rattle.collection_dir.specs.Faults.{DirHasCause};
ghost use Rattle.collection_dir.specs.Reading.{DamagedAsHeld, IsChunkFault, IsManifestFault, ManifestAnswers, is_manifest_of, named_manifest, stored_manifest};

use crate::DirFault;
use crate::objects::get_part;
use layer_manifest::{ChunkInfo, Manifest, ManifestFault, read_manifest_bytes};
use layer_model::{LayerName, Part, part_name};
use mvcc_keys::Memory;
use outside_world::Disk;
use sha2::{Digest, Sha256};
use std::alloc::Global;

/// The fault of a chunk whose digest isn't the one that is wanted.
fn damaged(
    alloc: Global,
    layer: &LayerName,
    number: u32,
    info: &ChunkInfo,
    found: Option<[u8; 32]>,
) -> Result<DirFault, Memory>
    requires { number < 1000000 }
    ensures { IfOk result (λ e. e ≡ Damaged (object_name layer.now (part.Chunk number)) info.now.digest found) }
{
    Ok(DirFault::Damaged {
        object: part_name(alloc, layer, Part::Chunk(number))?,
        wanted: info.digest,
        found,
    })
}

/// The bytes of a chunk, if their digest is the one that its manifest tells.
pub fn read_chunk<D: Disk>(
    alloc: Global,
    disk: &mut D,
    layer: &LayerName,
    number: u32,
    info: &ChunkInfo,
) -> Result<Vec<u8>, DirFault>
    requires { number < 1000000 }
    ensures bytes { Tells (D.view disk.old) → IfOk result (λ bytes. at (D.view disk.old).objects (object_name layer.now (part.Chunk number)) ≡ Some bytes.items) }
    ensures digest { IfOk result (λ bytes. sha256 bytes.items ≡ info.now.digest) }
    ensures damaged { Tells (D.view disk.old) → IfErr result (DamagedAsHeld layer.now number (D.view disk.old).objects) }
    ensures reads { OnlyReads (D.view disk.old) (D.view disk.new) }
    ensures fault { IfErr result (IsChunkFault layer.now number info.now.digest) }
    ensures cause { DirHasCause (D.view disk.old).faults (D.view disk.new).faults result }
{
    let Some(bytes) = get_part(alloc, disk, layer, Part::Chunk(number))? else {
        return Err(damaged(alloc, layer, number, info, None)?);
    };
    let digest = Sha256::digest(&bytes);
    if digest != info.digest {
        return Err(damaged(alloc, layer, number, info, Some(digest))?);
    }
    Ok(bytes)
}

/// Whether its cluster, job and times are those of the layer's name.
fn is_manifest_of(layer: &LayerName, m: &Manifest) -> bool
    ensures { result ≡ is_manifest_of layer.now m.now }
{
    m.cluster.is_same(&layer.cluster)
        && m.job == layer.job
        && m.full == layer.full
        && m.start == layer.start
        && m.end == layer.end
}

/// The manifest of a layer in these bytes.
fn read_named(alloc: Global, layer: &LayerName, bytes: &[u8]) -> Result<Manifest, ManifestFault>
    ensures read { files.Answers result (named_manifest layer.now (files.read_manifest bytes.now)) }
    ensures proper { IfOk result IsProperManifest }
    ensures named { IfOk result (λ m. is_manifest_of layer.now m ≡ true) }
{
    let m = read_manifest_bytes(alloc, bytes)?;
    if !is_manifest_of(layer, &m) {
        return Err(ManifestFault::Malformed { offset: 4 });
    }
    Ok(m)
}

/// The fault of a manifest that is malformed.
fn malformed(alloc: Global, layer: &LayerName, offset: usize) -> Result<DirFault, Memory>
    ensures { IfOk result (λ e. e ≡ Malformed (object_name layer.now part.Manifest) offset) }
{
    Ok(DirFault::Malformed {
        object: part_name(alloc, layer, Part::Manifest)?,
        offset,
    })
}

/// The manifest of a layer, as it is stored.
pub fn read_manifest<D: Disk>(
    alloc: Global,
    disk: &mut D,
    layer: &LayerName,
) -> Result<Manifest, DirFault>
    ensures read { Tells (D.view disk.old) → ManifestAnswers result (stored_manifest layer.now (at (D.view disk.old).objects (object_name layer.now part.Manifest))) }
    ensures proper { IfOk result IsProperManifest }
    ensures named { IfOk result (λ m. is_manifest_of layer.now m ≡ true) }
    ensures reads { OnlyReads (D.view disk.old) (D.view disk.new) }
    ensures fault { IfErr result (IsManifestFault layer.now) }
    ensures cause { DirHasCause (D.view disk.old).faults (D.view disk.new).faults result }
{
    let Some(bytes) = get_part(alloc, disk, layer, Part::Manifest)? else {
        return Err(malformed(alloc, layer, 0)?);
    };
    match read_named(alloc, layer, &bytes) {
        Ok(m) => Ok(m),
        Err(ManifestFault::Malformed { offset }) => Err(malformed(alloc, layer, offset)?),
        Err(ManifestFault::Memory) => Err(DirFault::Memory),
    }
}
