//! A layer's manifest and its gate, written last.
ghost use Rattle.std.specs.Prelude.{◌≡◌, ◌↔◌, ◌++◌, [], ◌∷◌, ℕ, List, Some, IfOk, OnOk, IfErr, IsTrue, option_map};
ghost use Rattle.sha2.specs.Sha256.{sha256};
ghost use Rattle.outside_world.specs.Disk.{Tells, IsSameContent, OnlyReads, DiskHasCause};
ghost use Rattle.outside_world.specs.Moments.{ChangesOnly, InEachImage, IsSettled, LeavesOnly, NoName};
ghost use Rattle.outside_world.specs.Objects.{at};
ghost use Rattle.layer_manifest.specs.ManifestFiles.{manifest_code};
ghost use Rattle.layer_manifest.specs.Manifests.{IsProperManifest};
ghost use Rattle.layer_model.specs.declared.names.Part.TheVariants as part;
ghost use Rattle.layer_model.specs.Layers.{LayerObjects, IsWhole};
ghost use Rattle.layer_model.specs.Names.{object_name};
ghost use Rattle.collection_dir.specs.declared.fault.DirFault.TheVariants.{LayerDiffers};
ghost use Rattle.collection_dir.specs.Faults.{DirHasCause};
ghost use Rattle.collection_dir.specs.Finishing.{DiffersOnlyOver, IsDifference, IsFinishFault, IsGateOpen, IsManifestOf, OpensOver};
ghost use Rattle.collection_dir.specs.Footprints.{AtFinish, finish_calls};
ghost use Rattle.collection_dir.specs.Safety.{IsKept, IsWholeInEither, MayFinish};

use crate::DirFault;
use crate::objects::{get_part, is_found, put_part};
use crate::versions::{first_bytes, manifest_bytes};
use layer_manifest::Manifest;
use layer_model::{LayerName, Part, part_name};
use mvcc_keys::Memory;
use outside_world::{Disk, DiskFault};
use sha2::{Digest, Sha256};
use std::alloc::Global;

const OPEN: [u8; 1] = [1];

/// The SHA-256 of what was found, if anything was.
pub(crate) fn digest_of(found: &Option<Vec<u8>>) -> Option<[u8; 32]>
    ensures { result ≡ option_map sha256 (option_map (λ v. v.items) found.now) }
{
    match found {
        Some(bytes) => Some(Sha256::digest(bytes)),
        None => None,
    }
}

/// The fault of a gate that is open over another manifest.
fn differs(
    alloc: Global,
    layer: &LayerName,
    bytes: &[u8],
    found: &Option<Vec<u8>>,
) -> Result<DirFault, Memory>
    ensures { IfOk result (λ e. e ≡ LayerDiffers (object_name layer.now part.Manifest) (sha256 bytes.now) (option_map sha256 (option_map (λ v. v.items) found.now))) }
{
    Ok(DirFault::LayerDiffers {
        object: part_name(alloc, layer, Part::Manifest)?,
        wanted: Sha256::digest(bytes),
        found: digest_of(found),
    })
}

/// Whether what was found are the bytes of this manifest, in either version.
fn is_manifest(
    alloc: Global,
    m: &Manifest,
    bytes: &[u8],
    found: &Option<Vec<u8>>,
) -> Result<bool, Memory>
    requires proper { IsProperManifest m.now }
    requires spelled { bytes.now ≡ manifest_code m.now }
    ensures { IfOk result (λ is. IsTrue is ↔ IsManifestOf m.now (option_map (λ v. v.items) found.now)) }
{
    if is_found(found, bytes) {
        return Ok(true);
    }
    let first = first_bytes(alloc, m, bytes)?;
    Ok(is_found(found, &first))
}

/// Refuses what was found, unless it are the bytes of this manifest in either version.
fn check_manifest(
    alloc: Global,
    layer: &LayerName,
    m: &Manifest,
    bytes: &[u8],
    found: &Option<Vec<u8>>,
) -> Result<(), DirFault>
    requires proper { IsProperManifest m.now }
    requires spelled { bytes.now ≡ manifest_code m.now }
    ensures same { OnOk result (IsManifestOf m.now (option_map (λ v. v.items) found.now)) }
    ensures fault { IfErr result (IsDifference layer.now m.now (option_map (λ v. v.items) found.now)) }
{
    if is_manifest(alloc, m, bytes, found)? {
        return Ok(());
    }
    Err(differs(alloc, layer, bytes, found)?)
}

/// Whether the gate is open.
fn is_gate_open<D: Disk>(alloc: Global, disk: &mut D, layer: &LayerName) -> Result<bool, DiskFault>
    ensures open { Tells (D.view disk.old) → IfOk result (λ is_open. IsTrue is_open ↔ IsGateOpen layer.now (D.view disk.old).objects) }
    ensures reads { OnlyReads (D.view disk.old) (D.view disk.new) }
    ensures cause { DiskHasCause (D.view disk.old).faults (D.view disk.new).faults result }
{
    let found = get_part(alloc, disk, layer, Part::Gate)?;
    Ok(is_found(&found, &OPEN))
}

/// Whether the gate is open over this manifest.
fn is_finished<D: Disk>(
    alloc: Global,
    disk: &mut D,
    layer: &LayerName,
    m: &Manifest,
    bytes: &[u8],
) -> Result<bool, DirFault>
    requires proper { IsProperManifest m.now }
    requires spelled { bytes.now ≡ manifest_code m.now }
    ensures open { Tells (D.view disk.old) → IfOk result (λ finished. IsTrue finished ↔ IsGateOpen layer.now (D.view disk.old).objects) }
    ensures same { Tells (D.view disk.old) → IfOk result (λ finished. IsTrue finished → IsManifestOf m.now (at (D.view disk.old).objects (object_name layer.now part.Manifest))) }
    ensures differs { Tells (D.view disk.old) → IfErr result (DiffersOnlyOver layer.now m.now (D.view disk.old).objects) }
    ensures reads { OnlyReads (D.view disk.old) (D.view disk.new) }
    ensures fault { IfErr result (IsFinishFault layer.now m.now) }
    ensures cause { DirHasCause (D.view disk.old).faults (D.view disk.new).faults result }
{
    if !is_gate_open(alloc, disk, layer)? {
        return Ok(false);
    }
    let found = get_part(alloc, disk, layer, Part::Manifest)?;
    check_manifest(alloc, layer, m, bytes, &found)?;
    Ok(true)
}

/// Puts the manifest, and once it is on the disk opens the gate.
fn open_gate<D: Disk>(
    alloc: Global,
    disk: &mut D,
    layer: &LayerName,
    bytes: &[u8],
) -> Result<(), DiskFault>
    ensures calls { Tells (D.view disk.old) → OnOk result ((D.view disk.new).calls ≡ (D.view disk.old).calls ++ finish_calls layer.now) }
    ensures put { Tells (D.view disk.old) → OnOk result (at (D.view disk.new).objects (object_name layer.now part.Manifest) ≡ Some bytes.now) }
    ensures open { Tells (D.view disk.old) → OnOk result (IsGateOpen layer.now (D.view disk.new).objects) }
    ensures settled { Tells (D.view disk.old) → OnOk result (IsSettled (D.view disk.new)) }
    ensures opens { Tells (D.view disk.old) → OpensOver layer.now bytes.now (D.view disk.old).objects (D.view disk.new).objects }
    ensures layer { (w : LayerObjects) (older : List ℕ) → MayFinish w older layer.now bytes.now (D.view disk.old) → ¬ IsGateOpen layer.now (D.view disk.old).objects
        → LeavesOnly (D.view disk.old) (D.view disk.new) (IsKept (AtFinish layer.now) w older (D.view disk.old)) }
    ensures whole { (w : LayerObjects) (older : List ℕ) → MayFinish w older layer.now bytes.now (D.view disk.old) → ¬ IsGateOpen layer.now (D.view disk.old).objects
        → OnOk result (InEachImage (D.view disk.new) (IsWhole w)) }
    ensures changes { ChangesOnly (AtFinish layer.now) NoName (D.view disk.old) (D.view disk.new) }
    ensures cause { DiskHasCause (D.view disk.old).faults (D.view disk.new).faults result }
{
    put_part(alloc, disk, layer, Part::Manifest, bytes)?;
    disk.sync()?;
    put_part(alloc, disk, layer, Part::Gate, &OPEN)?;
    disk.sync()
}

/// Finishes a layer whose chunks are there. One that is open over this manifest, in either
/// version, stays as it is.
pub fn finish_layer<D: Disk>(
    alloc: Global,
    disk: &mut D,
    layer: &LayerName,
    m: &Manifest,
) -> Result<(), DirFault>
    requires proper { IsProperManifest m.now }
    requires version { m.now.version ≡ 2 }
    ensures finished { Tells (D.view disk.old) → OnOk result (IsGateOpen layer.now (D.view disk.old).objects → IsManifestOf m.now (at (D.view disk.old).objects (object_name layer.now part.Manifest))) }
    ensures differs { Tells (D.view disk.old) → IfErr result (DiffersOnlyOver layer.now m.now (D.view disk.old).objects) }
    ensures same { Tells (D.view disk.old) → IsGateOpen layer.now (D.view disk.old).objects → IsSameContent (D.view disk.old) (D.view disk.new) }
    ensures calls { Tells (D.view disk.old) → ¬ IsGateOpen layer.now (D.view disk.old).objects → OnOk result ((D.view disk.new).calls ≡ (D.view disk.old).calls ++ finish_calls layer.now) }
    ensures put { Tells (D.view disk.old) → ¬ IsGateOpen layer.now (D.view disk.old).objects
        → OnOk result (at (D.view disk.new).objects (object_name layer.now part.Manifest) ≡ Some (manifest_code m.now)) }
    ensures open { Tells (D.view disk.old) → OnOk result (IsGateOpen layer.now (D.view disk.new).objects) }
    ensures settled { Tells (D.view disk.old) → ¬ IsGateOpen layer.now (D.view disk.old).objects → OnOk result (IsSettled (D.view disk.new)) }
    ensures layer { (w : LayerObjects) (older : List ℕ) → MayFinish w older layer.now (manifest_code m.now) (D.view disk.old)
        → LeavesOnly (D.view disk.old) (D.view disk.new) (IsKept (AtFinish layer.now) w older (D.view disk.old)) }
    ensures whole { (w : LayerObjects) (older : List ℕ) → MayFinish w older layer.now (manifest_code m.now) (D.view disk.old)
        → OnOk result (InEachImage (D.view disk.new) (IsWholeInEither w older)) }
    ensures fresh { (w : LayerObjects) (older : List ℕ) → MayFinish w older layer.now (manifest_code m.now) (D.view disk.old) → ¬ IsGateOpen layer.now (D.view disk.old).objects
        → OnOk result (InEachImage (D.view disk.new) (IsWhole w)) }
    ensures opens { Tells (D.view disk.old) → OpensOver layer.now (manifest_code m.now) (D.view disk.old).objects (D.view disk.new).objects }
    ensures changes { ChangesOnly (AtFinish layer.now) NoName (D.view disk.old) (D.view disk.new) }
    ensures fault { IfErr result (IsFinishFault layer.now m.now) }
    ensures cause { DirHasCause (D.view disk.old).faults (D.view disk.new).faults result }
{
    let bytes = manifest_bytes(alloc, m)?;
    if is_finished(alloc, disk, layer, m, &bytes)? {
        return Ok(());
    }
    open_gate(alloc, disk, layer, &bytes)?;
    Ok(())
}
