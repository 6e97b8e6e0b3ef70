//! A disk in memory that never fails.
ghost use Rattle.std.specs.Prelude.{◌≡◌, [], None};

use crate::{Disk, DiskCall, DiskFault, MemoryDisk};
use mvcc_keys::{Blob, Memory, Text};
use std::alloc::Global;

/// A `MemoryDisk` without calls that fail and without a stop.
#[derive(Drop)]
pub struct SureDisk {
    disk: MemoryDisk,
    ghost fails: { disk.fails.items ≡ [] },
    ghost stop: { disk.stop ≡ None },
    ghost faults: { disk.faults ≡ 0 },
}

impl SureDisk {
    ghost use Rattle.std.specs.Prelude.{◌≡◌, ℕ, List, None, IfOk, T};
    ghost use Rattle.std.specs.FinMap.{entries};
    ghost use Rattle.outside_world.specs.Entries.{last_value, is_touched, are_in_order};
    ghost use Rattle.outside_world.specs.Objects.{at};
    ghost use Rattle.outside_world.specs.Past.{IsFresh, view_of};

    /// A disk with these objects. Of two with one name the later counts.
    pub fn new(alloc: Global, objects: Vec<(Text, Blob)>) -> Result<SureDisk, Memory>
        ensures objects { IfOk result (λ s. (n : List ℕ) → at (view_of s.disk).objects n ≡ last_value n objects.items None) }
        ensures fresh { IfOk result (λ s. IsFresh [] None s.disk) }
    {
        Ok(SureDisk {
            disk: MemoryDisk::new(alloc, objects, Vec::new(alloc), None)?,
        })
    }

    /// The objects, by name.
    pub fn held(&self) -> &[(Text, Blob)]
        ensures { result.now ≡ entries (view_of self.now.disk).objects }
    {
        self.disk.held()
    }

    /// The names touched since the last sync that was Ok, by name.
    pub fn touched(&self) -> &[Text]
        ensures names { (n : List ℕ) → is_touched result.now n ≡ (view_of self.now.disk).touched n }
        ensures ordered { T (are_in_order result.now) }
    {
        self.disk.touched()
    }

    /// The calls of put, remove and sync so far, with whether each was Ok.
    pub fn calls(&self) -> &[(DiskCall, bool)]
        ensures { result.now ≡ (view_of self.now.disk).calls }
    {
        self.disk.calls()
    }

    /// The names that `get` was called with, in the order of the calls.
    pub fn gets(&self) -> &[Text]
        ensures { result.now ≡ self.now.disk.gets.items }
    {
        self.disk.gets()
    }
}

impl Disk for SureDisk {
    ghost use Rattle.std.proofs.Common.{inl};
    ghost use Rattle.outside_world.specs.Past.{view_of, only_state};

    ghost view = { λ s. view_of s.disk };

    ghost counts_now = { λ s t image known le now. inl now };

    ghost only_now = { λ s known image left. only_state s.disk.past.items (s.disk.entries.items, s.disk.touched.items) image left };

    fn names(&mut self, alloc: Global) -> Result<Vec<Text>, DiskFault> {
        self.disk.names(alloc)
    }

    fn get(&mut self, alloc: Global, name: &Text) -> Result<Option<Vec<u8>>, DiskFault> {
        self.disk.get(alloc, name)
    }

    fn put(&mut self, name: &Text, bytes: &[u8]) -> Result<(), DiskFault> {
        self.disk.put(name, bytes)
    }

    fn remove(&mut self, name: &Text) -> Result<(), DiskFault> {
        self.disk.remove(name)
    }

    fn sync(&mut self) -> Result<(), DiskFault> {
        self.disk.sync()
    }
}

/// Its count is always 0.
pub fn sure_disks_never_fail()
    ensures { (s : SureDisk) → (⟦<SureDisk as Disk>⟧.view s).faults ≡ 0 }
{}
