//! The objects of a layer, by part: each call is one of the disk's.
ghost use Rattle.std.specs.Prelude.{◌≡◌, ◌↔◌, Some, None, IfOk, IsTrue, option_map};
ghost use Rattle.outside_world.specs.declared.call.DiskCall.TheVariants.{Put, Removal};
ghost use Rattle.outside_world.specs.Disk.{Tells, OnlyReads, Changes, DiskHasCause};
ghost use Rattle.outside_world.specs.Objects.{at};
ghost use Rattle.layer_model.specs.Names.{IsNumbered, object_name};

use layer_model::{LayerName, Part, part_name};
use outside_world::{Disk, DiskFault};
use std::alloc::Global;

/// The bytes of a part, or none.
pub(crate) fn get_part<D: Disk>(
    alloc: Global,
    disk: &mut D,
    layer: &LayerName,
    part: Part,
) -> Result<Option<Vec<u8>>, DiskFault>
    requires { IsNumbered part }
    ensures bytes { Tells (D.view disk.old) →
        IfOk result (λ found. option_map (λ bytes. bytes.items) found ≡ at (D.view disk.old).objects (object_name layer.now part)) }
    ensures reads { OnlyReads (D.view disk.old) (D.view disk.new) }
    ensures cause { DiskHasCause (D.view disk.old).faults (D.view disk.new).faults result }
{
    let name = part_name(alloc, layer, part)?;
    disk.get(alloc, &name)
}

pub(crate) fn put_part<D: Disk>(
    alloc: Global,
    disk: &mut D,
    layer: &LayerName,
    part: Part,
    bytes: &[u8],
) -> Result<(), DiskFault>
    requires { IsNumbered part }
    ensures changes { Changes (object_name layer.now part) (Some bytes.now) (Put (object_name layer.now part)) result (D.view disk.old) (D.view disk.new) }
    ensures cause { DiskHasCause (D.view disk.old).faults (D.view disk.new).faults result }
{
    let name = part_name(alloc, layer, part)?;
    disk.put(&name, bytes)
}

pub(crate) fn remove_part<D: Disk>(
    alloc: Global,
    disk: &mut D,
    layer: &LayerName,
    part: Part,
) -> Result<(), DiskFault>
    requires { IsNumbered part }
    ensures changes { Changes (object_name layer.now part) None (Removal (object_name layer.now part)) result (D.view disk.old) (D.view disk.new) }
    ensures cause { DiskHasCause (D.view disk.old).faults (D.view disk.new).faults result }
{
    let name = part_name(alloc, layer, part)?;
    disk.remove(&name)
}

/// Whether these are the bytes that were found.
pub(crate) fn is_found(found: &Option<Vec<u8>>, bytes: &[u8]) -> bool
    ensures { IsTrue result ↔ (option_map (λ v. v.items) found.now ≡ Some bytes.now) }
{
    match found {
        Some(found) => found.as_slice() == bytes,
        None => false,
    }
}
