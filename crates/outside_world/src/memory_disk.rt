//! A disk in memory, some of whose calls fail.
ghost use Rattle.std.specs.Prelude.{◌≡◌, ◌≤◌, ◌<◌, ◌++◌, [], ◌∷◌, T, IfOk, OnOk, OnErr, IsOk};
ghost use Rattle.outside_world.specs.Entries.{IsTouched, in_order, are_in_order};
ghost use Rattle.outside_world.specs.Numbered.{next_call, is_failing};

use crate::entries::{
    add_name, bytes_of, copy_entries, copy_names, names_of, put_entry, remove_entry, sort_entries,
};
use crate::traits::count_failure;
use crate::{Disk, DiskCall, DiskFault};
use mvcc_keys::{Blob, Memory, Text};
use std::alloc::Global;
use std::marker::Model;

/// What a disk held before a sync.
#[derive(Drop)]
pub(crate) struct Kept {
    entries: Vec<(Text, Blob)>,
    touched: Vec<Text>,
}

impl Model for Kept {
    ghost use Rattle.std.specs.Prelude.{List, ℕ};

    ghost Value = { List (List ℕ × List ℕ) × List (List ℕ) };

    ghost view = { λ k. (k.entries.items, k.touched.items) };
}

/// Keeps its objects, and each state that it has had. It fails at the calls of these numbers,
/// from 1, and at every call after its stop. A put or a removal that fails leaves the object.
#[derive(Drop)]
pub struct MemoryDisk {
    alloc: Global,
    entries: Vec<(Text, Blob)>,
    touched: Vec<Text>,
    past: Vec<Kept>,
    calls: Vec<(DiskCall, bool)>,
    gets: Vec<Text>,
    fails: Vec<u64>,
    stop: Option<u64>,
    number: u64,
    faults: u64,
    ghost sorted: { T (in_order entries.items) },
    ghost by_name: { T (are_in_order touched.items) },
}

/// Counts a call, and answers whether it fails.
fn fails_now(number: &mut u64, stop: &Option<u64>, fails: &[u64]) -> bool
    ensures number { number.new ≡ next_call number.old }
    ensures fails { result ≡ is_failing stop.now fails.now number.new }
{
    *number = number.saturating_add(1);
    let this = *number;
    let stopped = match stop {
        Some(last) => *last < this,
        None => false,
    };
    stopped || fails.contains(&this)
}

/// Touches a name and notes the call.
fn note(
    alloc: Global,
    touched: &mut Vec<Text>,
    calls: &mut Vec<(DiskCall, bool)>,
    name: &Text,
    call: DiskCall,
    ok: bool,
) -> Result<(), Memory>
    requires { T (are_in_order touched.old.items) }
    ensures touched { OnOk result (IsTouched name.now touched.old.items touched.new.items) }
    ensures calls { OnOk result (calls.new.items ≡ calls.old.items ++ (call, ok) ∷ []) }
    ensures err { OnErr result ((touched.new.items ≡ touched.old.items) × (calls.new.items ≡ calls.old.items)) }
{
    let name = name.copy(alloc)?;
    touched.reserve(1)?;
    calls.reserve(1)?;
    add_name(touched, name);
    calls.push((call, ok)).unwrap();
    Ok(())
}

impl MemoryDisk {
    ghost use Rattle.std.specs.Prelude.{◌≡◌, ℕ, List, Some, None, IfOk};
    ghost use Rattle.std.specs.FinMap.{entries};
    ghost use Rattle.outside_world.specs.declared.call.DiskCall.TheVariants.{Put, Removal, Sync};
    ghost use Rattle.outside_world.specs.Entries.{last_value, is_touched};
    ghost use Rattle.outside_world.specs.Objects.{at};
    ghost use Rattle.outside_world.specs.Past.{IsFresh, IsStep, IsSettling, view_of};

    /// A disk with these objects. Of two with one name the later counts.
    pub fn new(
        alloc: Global,
        objects: Vec<(Text, Blob)>,
        fails: Vec<u64>,
        stop: Option<u64>,
    ) -> Result<MemoryDisk, Memory>
        ensures objects { IfOk result (λ d. (n : List ℕ) → at (view_of d).objects n ≡ last_value n objects.items None) }
        ensures fresh { IfOk result (IsFresh fails.items stop) }
    {
        Ok(MemoryDisk {
            alloc,
            entries: sort_entries(alloc, objects)?,
            touched: Vec::new(alloc),
            past: Vec::new(alloc),
            calls: Vec::new(alloc),
            gets: Vec::new(alloc),
            fails,
            stop,
            number: 0,
            faults: 0,
        })
    }

    /// The objects, by name.
    pub fn held(&self) -> &[(Text, Blob)]
        ensures { result.now ≡ entries (view_of self.now).objects }
    {
        self.entries.as_slice()
    }

    /// The names touched since the last sync that was Ok, by name.
    pub fn touched(&self) -> &[Text]
        ensures names { (n : List ℕ) → is_touched result.now n ≡ (view_of self.now).touched n }
        ensures ordered { T (are_in_order result.now) }
    {
        self.touched.as_slice()
    }

    /// The calls of put, remove and sync so far, with whether each was Ok.
    pub fn calls(&self) -> &[(DiskCall, bool)]
        ensures { result.now ≡ (view_of self.now).calls }
    {
        self.calls.as_slice()
    }

    /// The names that `get` was called with, in the order of the calls.
    pub fn gets(&self) -> &[Text]
        ensures { result.now ≡ self.now.gets.items }
    {
        self.gets.as_slice()
    }

    fn put_object(&mut self, name: &Text, bytes: &[u8]) -> Result<bool, Memory>
        ensures { IsStep name.now (Some bytes.now) (Put name.now) result self.old self.new }
    {
        let fails = fails_now(&mut self.number, &self.stop, &self.fails);
        let key = name.copy(self.alloc)?;
        let bytes = Blob::copy_of(self.alloc, bytes)?;
        let call = DiskCall::Put(name.copy(self.alloc)?);
        self.entries.reserve(1)?;
        let (touched, calls) = (&mut self.touched, &mut self.calls);
        note(self.alloc, touched, calls, name, call, !fails)?;
        if fails {
            return Ok(false);
        }
        put_entry(&mut self.entries, key, bytes);
        Ok(true)
    }

    fn remove_object(&mut self, name: &Text) -> Result<bool, Memory>
        ensures { IsStep name.now None (Removal name.now) result self.old self.new }
    {
        let fails = fails_now(&mut self.number, &self.stop, &self.fails);
        let call = DiskCall::Removal(name.copy(self.alloc)?);
        let (touched, calls) = (&mut self.touched, &mut self.calls);
        note(self.alloc, touched, calls, name, call, !fails)?;
        if fails {
            return Ok(false);
        }
        remove_entry(&mut self.entries, name);
        Ok(true)
    }

    fn settle(&mut self) -> Result<bool, Memory>
        ensures { IsSettling result self.old self.new }
    {
        if fails_now(&mut self.number, &self.stop, &self.fails) {
            self.calls.push((DiskCall::Sync, false))?;
            return Ok(false);
        }
        let kept = Kept {
            entries: copy_entries(self.alloc, &self.entries)?,
            touched: copy_names(self.alloc, &self.touched)?,
        };
        self.past.reserve(1)?;
        self.calls.push((DiskCall::Sync, true))?;
        self.past.push(kept).unwrap();
        self.touched.clear();
        Ok(true)
    }
}

impl Disk for MemoryDisk {
    ghost use Rattle.std.specs.Prelude.{◌≡◌, IfOk, Some, None, option_map};
    ghost use Rattle.std.specs.FinMap.{keys};
    ghost use Rattle.std.proofs.Common.{inl};
    ghost use Rattle.outside_world.specs.declared.call.DiskCall.TheVariants.{Put, Removal};
    ghost use Rattle.outside_world.specs.Disk.{OnlyReads, Changes, Settles, DiskHasCause};
    ghost use Rattle.outside_world.specs.Objects.{at};
    ghost use Rattle.outside_world.specs.Past.{view_of, logged_get, only_state, IsCounted};

    ghost view = { view_of };

    ghost counts_now = { λ d t image known le now. inl now };

    ghost only_now = { λ d known image left. only_state d.past.items (d.entries.items, d.touched.items) image left };

    fn names(&mut self, alloc: Global) -> Result<Vec<Text>, DiskFault>
        ensures names { IfOk result (λ names. names.items ≡ keys (view_of self.old).objects) }
        ensures reads { OnlyReads (view_of self.old) (view_of self.new) }
        ensures cause { DiskHasCause self.old.faults self.new.faults result }
        ensures counted { IsCounted result self.old self.new }
        ensures gets { self.new.gets.items ≡ self.old.gets.items }
    {
        if fails_now(&mut self.number, &self.stop, &self.fails) {
            count_failure(&mut self.faults);
            return Err(DiskFault::Failed);
        }
        Ok(names_of(alloc, &self.entries)?)
    }

    fn get(&mut self, alloc: Global, name: &Text) -> Result<Option<Vec<u8>>, DiskFault>
        ensures bytes { IfOk result (λ found. option_map (λ bytes. bytes.items) found ≡ at (view_of self.old).objects name.now) }
        ensures reads { OnlyReads (view_of self.old) (view_of self.new) }
        ensures cause { DiskHasCause self.old.faults self.new.faults result }
        ensures counted { IsCounted result self.old self.new }
        ensures gets { self.new.gets.items ≡ logged_get result name.now self.old.gets.items }
    {
        let fails = fails_now(&mut self.number, &self.stop, &self.fails);
        let asked = name.copy(self.alloc)?;
        let found = bytes_of(alloc, &self.entries, name)?;
        self.gets.push(asked)?;
        if fails {
            count_failure(&mut self.faults);
            return Err(DiskFault::Failed);
        }
        Ok(found)
    }

    fn put(&mut self, name: &Text, bytes: &[u8]) -> Result<(), DiskFault>
        ensures changes { Changes name.now (Some bytes.now) (Put name.now) result (view_of self.old) (view_of self.new) }
        ensures cause { DiskHasCause self.old.faults self.new.faults result }
        ensures counted { IsCounted result self.old self.new }
        ensures gets { self.new.gets.items ≡ self.old.gets.items }
    {
        if self.put_object(name, bytes)? {
            return Ok(());
        }
        count_failure(&mut self.faults);
        Err(DiskFault::Failed)
    }

    fn remove(&mut self, name: &Text) -> Result<(), DiskFault>
        ensures changes { Changes name.now None (Removal name.now) result (view_of self.old) (view_of self.new) }
        ensures cause { DiskHasCause self.old.faults self.new.faults result }
        ensures counted { IsCounted result self.old self.new }
        ensures gets { self.new.gets.items ≡ self.old.gets.items }
    {
        if self.remove_object(name)? {
            return Ok(());
        }
        count_failure(&mut self.faults);
        Err(DiskFault::Failed)
    }

    fn sync(&mut self) -> Result<(), DiskFault>
        ensures settles { Settles result (view_of self.old) (view_of self.new) }
        ensures cause { DiskHasCause self.old.faults self.new.faults result }
        ensures counted { IsCounted result self.old self.new }
        ensures gets { self.new.gets.items ≡ self.old.gets.items }
    {
        if self.settle()? {
            return Ok(());
        }
        count_failure(&mut self.faults);
        Err(DiskFault::Failed)
    }
}
