//! Bytes put with a gate over them.
ghost use Rattle.std.specs.Prelude.{◌≡◌, ◌≢◌, ◌⊎◌, [], ◌∷◌, ℕ, List, OnOk};
ghost use Rattle.outside_world.specs.Disk.{DiskHasCause};
ghost use Rattle.outside_world.specs.Moments.{ChangesOnly, InEachImage, LeavesOnly, NoName};
ghost use Rattle.outside_world.specs.Replacing.{IsOldOrNew, IsNew, MayReplace};

use crate::{Disk, DiskFault};
use mvcc_keys::Text;

/// Puts the bytes, and once they are on the disk opens a gate over them. A crash at any moment
/// leaves the gate as it was, or open over these very bytes.
pub fn replace<D: Disk>(
    disk: &mut D,
    name: &Text,
    bytes: &[u8],
    gate: &Text,
) -> Result<(), DiskFault>
    ensures moments { MayReplace name.now gate.now (D.view disk.old) →
        LeavesOnly (D.view disk.old) (D.view disk.new) (IsOldOrNew name.now bytes.now gate.now (D.view disk.old)) }
    ensures done { MayReplace name.now gate.now (D.view disk.old) → OnOk result (InEachImage (D.view disk.new) (IsNew name.now bytes.now gate.now)) }
    ensures changes { ChangesOnly (λ n. (n ≡ name.now) ⊎ (n ≡ gate.now)) NoName (D.view disk.old) (D.view disk.new) }
    ensures cause { DiskHasCause (D.view disk.old).faults (D.view disk.new).faults result }
{
    disk.put(name, bytes)?;
    disk.sync()?;
    disk.put(gate, &[1])?;
    disk.sync()
}
