//! Chunks and their marks, written.
ghost use Rattle.std.specs.Prelude.{◌≡◌, ◌≢◌, ◌<◌, ◌↔◌, ◌++◌, ℕ, List, Some, true, false, IfOk, OnOk, IfErr, IsTrue};
ghost use Rattle.sha2.specs.Sha256.{sha256};
ghost use Rattle.outside_world.specs.Disk.{Tells, IsSameContent, DiskHasCause};
ghost use Rattle.outside_world.specs.Moments.{ChangesOnly, InEachImage, LeavesOnly, NoName};
ghost use Rattle.outside_world.specs.Objects.{at};
ghost use Rattle.layer_model.specs.declared.names.Part.TheVariants.{Chunk, Mark};
ghost use Rattle.layer_model.specs.Layers.{LayerObjects, Holds};
ghost use Rattle.layer_model.specs.Names.{object_name};
ghost use Rattle.collection_dir.specs.Faults.{DirHasCause, IsDiskFault};
ghost use Rattle.collection_dir.specs.Footprints.{AtChunk, chunk_calls};
ghost use Rattle.collection_dir.specs.Safety.{IsKept, MayWriteChunk};

use crate::DirFault;
use crate::objects::{get_part, is_found, put_part};
use layer_model::{LayerName, Part};
use outside_world::{Disk, DiskFault};
use sha2::{Digest, Sha256};
use std::alloc::Global;

/// Puts the chunk, and once it is on the disk its mark.
fn store_chunk<D: Disk>(
    alloc: Global,
    disk: &mut D,
    layer: &LayerName,
    number: u32,
    bytes: &[u8],
    digest: &[u8],
) -> Result<(), DiskFault>
    requires { number < 1000000 }
    ensures calls { Tells (D.view disk.old) → OnOk result ((D.view disk.new).calls ≡ (D.view disk.old).calls ++ chunk_calls layer.now number true) }
    ensures put { Tells (D.view disk.old)
        → OnOk result (at (D.view disk.new).objects (object_name layer.now (Chunk number)) ≡ Some bytes.now) }
    ensures marked { Tells (D.view disk.old) → OnOk result (at (D.view disk.new).objects (object_name layer.now (Mark number)) ≡ Some digest.now) }
    ensures settled { Tells (D.view disk.old) → OnOk result ((n : List ℕ) → n ≢ object_name layer.now (Mark number) → (D.view disk.new).touched n ≡ false) }
    ensures layer { (w : LayerObjects) (older : List ℕ) → MayWriteChunk w older layer.now number bytes.now (D.view disk.old)
        → at (D.view disk.old).objects (object_name layer.now (Mark number)) ≢ Some (sha256 bytes.now)
        → LeavesOnly (D.view disk.old) (D.view disk.new) (IsKept (AtChunk layer.now number) w older (D.view disk.old)) }
    ensures stored { (w : LayerObjects) (older : List ℕ) → MayWriteChunk w older layer.now number bytes.now (D.view disk.old)
        → at (D.view disk.old).objects (object_name layer.now (Mark number)) ≢ Some (sha256 bytes.now)
        → OnOk result (InEachImage (D.view disk.new) (Holds w (Chunk number))) }
    ensures changes { ChangesOnly (AtChunk layer.now number) NoName (D.view disk.old) (D.view disk.new) }
    ensures cause { DiskHasCause (D.view disk.old).faults (D.view disk.new).faults result }
{
    put_part(alloc, disk, layer, Part::Chunk(number), bytes)?;
    disk.sync()?;
    put_part(alloc, disk, layer, Part::Mark(number), digest)
}

/// Writes a chunk, unless its mark vouches for these bytes.
pub fn write_chunk<D: Disk>(
    alloc: Global,
    disk: &mut D,
    layer: &LayerName,
    number: u32,
    bytes: &[u8],
) -> Result<bool, DirFault>
    requires { number < 1000000 }
    ensures wrote { Tells (D.view disk.old)
        → IfOk result (λ wrote. IsTrue wrote ↔ (at (D.view disk.old).objects (object_name layer.now (Mark number)) ≢ Some (sha256 bytes.now))) }
    ensures calls { Tells (D.view disk.old) → IfOk result (λ wrote. (D.view disk.new).calls ≡ (D.view disk.old).calls ++ chunk_calls layer.now number wrote) }
    ensures same { Tells (D.view disk.old) → at (D.view disk.old).objects (object_name layer.now (Mark number)) ≡ Some (sha256 bytes.now)
        → IsSameContent (D.view disk.old) (D.view disk.new) }
    ensures put { Tells (D.view disk.old)
        → IfOk result (λ wrote. wrote ≡ true → at (D.view disk.new).objects (object_name layer.now (Chunk number)) ≡ Some bytes.now) }
    ensures marked { Tells (D.view disk.old) → OnOk result (at (D.view disk.new).objects (object_name layer.now (Mark number)) ≡ Some (sha256 bytes.now)) }
    ensures settled { Tells (D.view disk.old)
        → OnOk result ((n : List ℕ) → n ≢ object_name layer.now (Mark number) → (D.view disk.old).touched n ≡ false → (D.view disk.new).touched n ≡ false) }
    ensures layer { (w : LayerObjects) (older : List ℕ) → MayWriteChunk w older layer.now number bytes.now (D.view disk.old)
        → LeavesOnly (D.view disk.old) (D.view disk.new) (IsKept (AtChunk layer.now number) w older (D.view disk.old)) }
    ensures stored { (w : LayerObjects) (older : List ℕ) → MayWriteChunk w older layer.now number bytes.now (D.view disk.old)
        → OnOk result (InEachImage (D.view disk.new) (Holds w (Chunk number))) }
    ensures changes { ChangesOnly (AtChunk layer.now number) NoName (D.view disk.old) (D.view disk.new) }
    ensures fault { IfErr result IsDiskFault }
    ensures cause { DirHasCause (D.view disk.old).faults (D.view disk.new).faults result }
{
    let digest = Sha256::digest(bytes);
    let found = get_part(alloc, disk, layer, Part::Mark(number))?;
    if is_found(&found, &digest) {
        return Ok(false);
    }
    store_chunk(alloc, disk, layer, number, bytes, &digest)?;
    Ok(true)
}
