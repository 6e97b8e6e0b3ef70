//! Versions in ordered maps: the store that answers by searches.
ghost use Rattle.std.specs.Prelude.{◌≡◌, ℕ, true, Some, IfOk, OnOk, OnErr};
ghost use Rattle.mvcc_keys.specs.Times.{time_le};
ghost use Rattle.version_store.specs.Tables.{Tables, MayAdd, no_facts, with_fact};
ghost use Rattle.version_store.specs.Rows.{chosen_at, from_of, version_fact};
ghost use Rattle.version_store.specs.MapHolding.{IsMade, KeepsAll};

use crate::choice::Choice;
use crate::entries::table_of;
use crate::row::Version;
use crate::rows::{add_version, events_from, scan_from, scan_rows, value_in};
use crate::table_versions::{TableVersions, add_range, collect_table};
use crate::versions::Versions;
use mvcc_keys::{Blob, Entry, Hlc, Memory};
use range_tombstones::Upto;
use std::alloc::Global;
use std::collections::BTreeMap;

/// By table, an ordered map from keys to their versions, newest first, and the range deletions.
#[derive(Drop)]
pub struct MvccMap {
    alloc: Global,
    tables: BTreeMap<u64, TableVersions>,
}

/// Makes a table, if it isn't there.
fn make_table(
    tables: &mut BTreeMap<u64, TableVersions>,
    alloc: Global,
    id: u64,
) -> Result<(), Memory>
    ensures made { OnOk result (IsMade id tables.old.entries tables.new.entries) }
    ensures kept { OnErr result (tables.new.entries ≡ tables.old.entries) }
{
    if tables.contains_key(&id) {
        return Ok(());
    }
    let refused = tables.insert(id, TableVersions::new(alloc)).is_err();
    if refused {
        return Err(Memory);
    }
    Ok(())
}

impl MvccMap {
    pub fn new(alloc: Global) -> MvccMap
        ensures { ⟦<MvccMap as Versions>⟧.stands result no_facts }
    {
        MvccMap {
            alloc,
            tables: BTreeMap::new(alloc),
        }
    }

    /// Puts a version into its table. A key in front of which no id is spelled has none, and is
    /// left out.
    fn add(&mut self, key: &[u8], version: Version) -> Result<(), Memory>
        ensures added { OnOk result ((h : Tables) (id : ℕ) → KeepsAll self.old.tables.entries h → MayAdd h id (version_fact key.now version) → KeepsAll self.new.tables.entries (with_fact id (version_fact key.now version) h)) }
        ensures kept { OnErr result ((h : Tables) → KeepsAll self.old.tables.entries h → KeepsAll self.new.tables.entries h) }
    {
        let Some(id) = table_of(key) else {
            return Ok(());
        };
        make_table(&mut self.tables, self.alloc, id)?;
        match self.tables.get_mut(&id) {
            Some(table) => add_version(&mut table.rows, self.alloc, key, version),
            None => Ok(()),
        }
    }

    /// The first `n` of a table's puts and deletions that a choice has after a place.
    fn events_of(
        &self,
        table: u32,
        choice: &Choice,
        after: &Option<(Blob, Hlc)>,
        n: usize,
    ) -> Result<Vec<Entry>, Memory>
        ensures { IfOk result (λ seen. (h : Tables) → KeepsAll self.now.tables.entries h → time_le (h.threshold table) (from_of choice.now) ≡ true → seen.items ≡ chosen_at h table choice.now after.now n) }
    {
        match self.tables.get(&u64::from(table)) {
            Some(table) => {
                let mut seen = events_from(self.alloc, &table.rows, choice, after, n)?;
                seen.truncate(n);
                Ok(seen)
            }
            None => Ok(Vec::new(self.alloc)),
        }
    }
}

impl Versions for MvccMap {
    ghost stands = { λ s h. KeepsAll s.tables.entries h };

    fn put(&mut self, key: &[u8], at: Hlc, value: &[u8]) -> Result<(), Memory> {
        let value = Some(Blob::copy_of(self.alloc, value)?);
        self.add(key, Version { at, value })
    }

    fn delete(&mut self, key: &[u8], at: Hlc) -> Result<(), Memory> {
        self.add(key, Version { at, value: None })
    }

    fn delete_range(&mut self, lo: &[u8], hi: &[u8], at: Hlc) -> Result<(), Memory> {
        let Some(id) = table_of(lo) else {
            return Ok(());
        };
        make_table(&mut self.tables, self.alloc, id)?;
        match self.tables.get_mut(&id) {
            Some(table) => add_range(&mut table.ranges, lo, hi, at),
            None => Ok(()),
        }
    }

    fn get_as_of(&self, key: &[u8], t: Hlc) -> Option<&[u8]> {
        match table_of(key) {
            Some(id) => match self.tables.get(&id) {
                Some(table) => value_in(&table.rows, &table.ranges, key, t),
                None => None,
            },
            None => None,
        }
    }

    fn scan_as_of(&self, table: u32, t: Hlc) -> Result<Vec<Entry>, Memory> {
        match self.tables.get(&u64::from(table)) {
            Some(table) => scan_rows(self.alloc, &table.rows, &table.ranges, t),
            None => Ok(Vec::new(self.alloc)),
        }
    }

    fn scan_after(
        &self,
        table: u32,
        t: Hlc,
        after: &Option<(Blob, Hlc)>,
        n: usize,
    ) -> Result<Vec<Entry>, Memory> {
        // no version is as old as the clock's first time
        if t == Hlc::zero() {
            return Ok(Vec::new(self.alloc));
        }
        match self.tables.get(&u64::from(table)) {
            Some(table) => {
                let mut seen = scan_from(self.alloc, &table.rows, &table.ranges, t, after, n)?;
                seen.truncate(n);
                Ok(seen)
            }
            None => Ok(Vec::new(self.alloc)),
        }
    }

    fn events(
        &self,
        table: u32,
        from: Hlc,
        upto: Upto,
        after: &Option<(Blob, Hlc)>,
        n: usize,
    ) -> Result<Vec<Entry>, Memory> {
        self.events_of(table, &Choice::All { from, upto }, after, n)
    }

    fn newest_events(
        &self,
        table: u32,
        from: Hlc,
        upto: Upto,
        after: &Option<(Blob, Hlc)>,
        n: usize,
    ) -> Result<Vec<Entry>, Memory> {
        self.events_of(table, &Choice::Newest { from, upto }, after, n)
    }

    fn ranges(&self, table: u32, from: Hlc, upto: Upto) -> Result<Vec<Entry>, Memory> {
        match self.tables.get(&u64::from(table)) {
            Some(table) => table.ranges.originals(from, upto),
            None => Ok(Vec::new(self.alloc)),
        }
    }

    fn collect(&mut self, table: u32, g: Hlc) -> Result<(), Memory> {
        let id = u64::from(table);
        make_table(&mut self.tables, self.alloc, id)?;
        match self.tables.get_mut(&id) {
            Some(table) => {
                collect_table(table, g);
                Ok(())
            }
            None => Ok(()),
        }
    }

    fn threshold(&self, table: u32) -> Hlc {
        match self.tables.get(&u64::from(table)) {
            Some(table) => table.threshold,
            None => Hlc::zero(),
        }
    }

    ghost apart = { λ s h id held. (held.table id).apart };
}
