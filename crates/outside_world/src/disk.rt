//! A store of named objects, by what it holds at each moment and what a crash then leaves of it.
ghost use Rattle.std.specs.Prelude.{◌≡◌, ◌≤◌, List, ℕ, IfOk, Some, None, option_map};
ghost use Rattle.std.specs.FinMap.{keys};
ghost use Rattle.outside_world.specs.declared.call.DiskCall.TheVariants.{Put, Removal};
ghost use Rattle.outside_world.specs.declared.disk.DiskFault.TheVariants.{Memory};
ghost use Rattle.outside_world.specs.Objects.{Objects, at};
ghost use Rattle.outside_world.specs.Disk.{View, Tells, IsKnown, IsImage, OnlyReads, Changes, Settles, DiskHasCause};

use mvcc_keys::{Memory, Text};
use std::alloc::{AllocError, AllocFailed, Global};

/// Why a call of a disk gave no answer.
#[derive(Clone, Copy, Debug, PartialEq, Eq)]
pub enum DiskFault {
    /// The disk failed, and counted it.
    Failed,
    /// Want of memory, which changes nothing.
    Memory,
}

impl From<Memory> for DiskFault {
    ghost from_gives = { λ _ e. e ≡ Memory };

    fn from(_refused: Memory) -> DiskFault {
        DiskFault::Memory
    }
}

impl From<AllocError> for DiskFault {
    ghost from_gives = { λ _ e. e ≡ Memory };

    fn from(_refused: AllocError) -> DiskFault {
        DiskFault::Memory
    }
}

impl<T: Drop> From<AllocFailed<T>> for DiskFault {
    ghost from_gives = { λ _ e. e ≡ Memory };

    fn from(_refused: AllocFailed<T>) -> DiskFault {
        DiskFault::Memory
    }
}

/// Named objects. A put or a removal touches its name until the next sync that is Ok. A crash
/// leaves every name that isn't touched as it was, and under a touched one anything or nothing.
pub trait Disk {
    /// What it tells. An adapter over a real store tells nothing but its count of faults.
    ghost view: { Self → View };

    /// The names of the objects, bytewise ascending.
    fn names(&mut self, alloc: Global) -> Result<Vec<Text>, DiskFault>
        ensures names { Tells (view self.old) → IfOk result (λ names. names.items ≡ keys (view self.old).objects) }
        ensures reads { OnlyReads (view self.old) (view self.new) }
        ensures cause { DiskHasCause (view self.old).faults (view self.new).faults result };

    /// The bytes under a name, or none.
    fn get(&mut self, alloc: Global, name: &Text) -> Result<Option<Vec<u8>>, DiskFault>
        ensures bytes { Tells (view self.old) →
            IfOk result (λ found. option_map (λ bytes. bytes.items) found ≡ at (view self.old).objects name.now) }
        ensures reads { OnlyReads (view self.old) (view self.new) }
        ensures cause { DiskHasCause (view self.old).faults (view self.new).faults result };

    /// Puts the bytes under the name.
    fn put(&mut self, name: &Text, bytes: &[u8]) -> Result<(), DiskFault>
        ensures changes { Changes name.now (Some bytes.now) (Put name.now) result (view self.old) (view self.new) }
        ensures cause { DiskHasCause (view self.old).faults (view self.new).faults result };

    /// Removes what stands under the name. Where nothing does, that is Ok too.
    fn remove(&mut self, name: &Text) -> Result<(), DiskFault>
        ensures changes { Changes name.now None (Removal name.now) result (view self.old) (view self.new) }
        ensures cause { DiskHasCause (view self.old).faults (view self.new).faults result };

    /// Once it is Ok, a crash leaves the objects as they are.
    fn sync(&mut self) -> Result<(), DiskFault>
        ensures settles { Settles result (view self.old) (view self.new) }
        ensures cause { DiskHasCause (view self.old).faults (view self.new).faults result };

    /// This moment is one of those since any earlier one.
    ghost counts_now: { (disk : Self) (t : ℕ) (image : Objects) → IsKnown (view disk) → t ≤ (view disk).moment → IsImage (view disk) image → (view disk).left_since t image };

    /// Since this moment there is no other.
    ghost only_now: { (disk : Self) → IsKnown (view disk) → (image : Objects) → (view disk).left_since (view disk).moment image → IsImage (view disk) image };
}
