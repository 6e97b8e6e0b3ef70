//! A layer's objects, removed: its gate for good, then its marks for good, then the rest.
ghost use Rattle.std.specs.Prelude.{◌≡◌, ◌≤◌, ◌<◌, ◌++◌, ℕ, List, None, OnOk, IfErr};
ghost use Rattle.outside_world.specs.Disk.{Tells, DiskHasCause};
ghost use Rattle.outside_world.specs.Moments.{ChangesOnly, InEachImage, IsSettled, LeavesOnly, NoName};
ghost use Rattle.outside_world.specs.Objects.{at};
ghost use Rattle.layer_model.specs.declared.names.Part.TheVariants.{Gate, Manifest, Chunk, Mark};
ghost use Rattle.layer_model.specs.Layers.{LayerObjects};
ghost use Rattle.layer_model.specs.Names.{object_name};
ghost use Rattle.collection_dir.specs.Faults.{DirHasCause, IsDiskFault};
ghost use Rattle.collection_dir.specs.Finishing.{StaysOver};
ghost use Rattle.collection_dir.specs.Footprints.{AtChunks, AtForget, AtGate, AtMarks, forget_calls, gate_calls, mark_calls, rest_calls};
ghost use Rattle.collection_dir.specs.Safety.{AreAbsent, IsForgotten, IsKept, MayForget, MayUnchunk, MayUnmark};

use crate::DirFault;
use crate::objects::remove_part;
use layer_model::{LayerName, Part};
use outside_world::{Disk, DiskFault};
use std::alloc::Global;

/// Removes the gate, for good.
fn shut_gate<D: Disk>(alloc: Global, disk: &mut D, layer: &LayerName) -> Result<(), DiskFault>
    ensures calls { Tells (D.view disk.old) → OnOk result ((D.view disk.new).calls ≡ (D.view disk.old).calls ++ gate_calls layer.now) }
    ensures absent { Tells (D.view disk.old) → OnOk result (at (D.view disk.new).objects (object_name layer.now Gate) ≡ None) }
    ensures layer { (w : LayerObjects) (older : List ℕ) (chunks : ℕ) → MayForget w older layer.now chunks (D.view disk.old)
        → LeavesOnly (D.view disk.old) (D.view disk.new) (IsKept (AtGate layer.now) w older (D.view disk.old)) }
    ensures next { (w : LayerObjects) (older : List ℕ) (chunks : ℕ) → MayForget w older layer.now chunks (D.view disk.old) → OnOk result (MayUnmark w older layer.now chunks (D.view disk.new)) }
    ensures changes { ChangesOnly NoName (AtGate layer.now) (D.view disk.old) (D.view disk.new) }
    ensures cause { DiskHasCause (D.view disk.old).faults (D.view disk.new).faults result }
{
    remove_part(alloc, disk, layer, Part::Gate)?;
    disk.sync()
}

/// Removes the marks, for good.
fn remove_marks<D: Disk>(
    alloc: Global,
    disk: &mut D,
    layer: &LayerName,
    chunks: u32,
) -> Result<(), DiskFault>
    requires { chunks ≤ 1000000 }
    ensures calls { Tells (D.view disk.old) → OnOk result ((D.view disk.new).calls ≡ (D.view disk.old).calls ++ mark_calls layer.now chunks) }
    ensures absent { Tells (D.view disk.old) → OnOk result (AreAbsent layer.now Mark chunks (D.view disk.new).objects) }
    ensures layer { (w : LayerObjects) (older : List ℕ) → MayUnmark w older layer.now chunks (D.view disk.old)
        → LeavesOnly (D.view disk.old) (D.view disk.new) (IsKept (AtMarks layer.now chunks) w older (D.view disk.old)) }
    ensures next { (w : LayerObjects) (older : List ℕ) → MayUnmark w older layer.now chunks (D.view disk.old) → OnOk result (MayUnchunk w older layer.now chunks (D.view disk.new)) }
    ensures changes { ChangesOnly NoName (AtMarks layer.now chunks) (D.view disk.old) (D.view disk.new) }
    ensures cause { DiskHasCause (D.view disk.old).faults (D.view disk.new).faults result }
{
    for i in 0..chunks {
        remove_part(alloc, disk, layer, Part::Mark(i))?;
    }
    disk.sync()
}

/// Removes the chunks and the manifest.
fn remove_chunks<D: Disk>(
    alloc: Global,
    disk: &mut D,
    layer: &LayerName,
    chunks: u32,
) -> Result<(), DiskFault>
    requires { chunks ≤ 1000000 }
    ensures calls { Tells (D.view disk.old) → OnOk result ((D.view disk.new).calls ≡ (D.view disk.old).calls ++ rest_calls layer.now chunks) }
    ensures absent { Tells (D.view disk.old) → OnOk result (AreAbsent layer.now Chunk chunks (D.view disk.new).objects) }
    ensures manifest { Tells (D.view disk.old) → OnOk result (at (D.view disk.new).objects (object_name layer.now Manifest) ≡ None) }
    ensures settled { Tells (D.view disk.old) → OnOk result (IsSettled (D.view disk.new)) }
    ensures layer { (w : LayerObjects) (older : List ℕ) → MayUnchunk w older layer.now chunks (D.view disk.old)
        → LeavesOnly (D.view disk.old) (D.view disk.new) (IsKept (AtChunks layer.now chunks) w older (D.view disk.old)) }
    ensures changes { ChangesOnly NoName (AtChunks layer.now chunks) (D.view disk.old) (D.view disk.new) }
    ensures cause { DiskHasCause (D.view disk.old).faults (D.view disk.new).faults result }
{
    for i in 0..chunks {
        remove_part(alloc, disk, layer, Part::Chunk(i))?;
    }
    remove_part(alloc, disk, layer, Part::Manifest)?;
    disk.sync()
}

/// Forgets a layer: its gate first, so that it is open no more, and its marks before its chunks.
pub fn forget_layer<D: Disk>(
    alloc: Global,
    disk: &mut D,
    layer: &LayerName,
    chunks: u32,
) -> Result<(), DirFault>
    requires { chunks ≤ 1000000 }
    ensures calls { Tells (D.view disk.old) → OnOk result ((D.view disk.new).calls ≡ (D.view disk.old).calls ++ forget_calls layer.now chunks) }
    ensures absent { Tells (D.view disk.old) → OnOk result (IsForgotten layer.now chunks (D.view disk.new).objects) }
    ensures absent_in_images { Tells (D.view disk.old) → OnOk result (InEachImage (D.view disk.new) (IsForgotten layer.now chunks)) }
    ensures settled { Tells (D.view disk.old) → OnOk result (IsSettled (D.view disk.new)) }
    ensures stays { Tells (D.view disk.old) → StaysOver layer.now (D.view disk.old).objects (D.view disk.new).objects }
    ensures layer { (w : LayerObjects) (older : List ℕ) → MayForget w older layer.now chunks (D.view disk.old)
        → LeavesOnly (D.view disk.old) (D.view disk.new) (IsKept (AtForget layer.now chunks) w older (D.view disk.old)) }
    ensures changes { ChangesOnly NoName (AtForget layer.now chunks) (D.view disk.old) (D.view disk.new) }
    ensures fault { IfErr result IsDiskFault }
    ensures cause { DirHasCause (D.view disk.old).faults (D.view disk.new).faults result }
{
    shut_gate(alloc, disk, layer)?;
    remove_marks(alloc, disk, layer, chunks)?;
    remove_chunks(alloc, disk, layer, chunks)?;
    Ok(())
}
