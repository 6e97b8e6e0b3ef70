//! A flat list of facts: the slow store, which answers by walks over the whole list.
ghost use Rattle.std.specs.Prelude.{◌≡◌, ℕ, ◌++◌, ◌∷◌, [], OnOk, OnErr};
ghost use Rattle.version_store.specs.Tables.{Tables, MayAdd, no_facts, with_fact};
ghost use Rattle.version_store.specs.Lists.{fact_of};
ghost use Rattle.version_store.specs.Holding.{Holds, threshold_in};

use crate::entries::{deletion_of, put_of, range_of, table_of};
use crate::listings::{Listing, listed};
use crate::versions::Versions;
use crate::walk::{collected, events_of, newest_events_of, scan_after_of, scan_of, value_of};
use mvcc_keys::{Blob, Entry, Hlc, Memory};
use range_tombstones::Upto;
use std::alloc::Global;

/// The time up to which the facts of a table are collected.
#[derive(Clone, Copy)]
pub struct Threshold {
    pub table: u32,
    pub at: Hlc,
}

/// Facts in the order in which they came, and for each collection its threshold, the last first.
#[derive(Drop)]
pub struct FactList {
    alloc: Global,
    facts: Vec<Entry>,
    thresholds: Vec<Threshold>,
}

#[tactic(auto, unfolding(crate::specs::Holding::threshold_in))]
fn threshold_of(thresholds: &[Threshold], table: u32) -> Hlc
    ensures { result ≡ threshold_in thresholds.now table }
{
    for own in thresholds.iter() {
        if own.table == table {
            return own.at;
        }
    }
    Hlc::zero()
}

impl FactList {
    pub fn new(alloc: Global) -> FactList
        ensures { ⟦<FactList as Versions>⟧.stands result no_facts }
    {
        FactList {
            alloc,
            facts: Vec::new(alloc),
            thresholds: Vec::new(alloc),
        }
    }

    fn add(&mut self, fact: Entry) -> Result<(), Memory>
        ensures added { OnOk result ((h : Tables) (id : ℕ) → Holds self.old.facts.items self.old.thresholds.items h → MayAdd h id (fact_of fact) → Holds self.new.facts.items self.new.thresholds.items (with_fact id (fact_of fact) h)) }
        ensures facts { OnErr result (self.new.facts.items ≡ self.old.facts.items) }
        ensures thresholds { self.new.thresholds.items ≡ self.old.thresholds.items }
    {
        self.facts.push(fact).map_err(|_| Memory)
    }

    fn replace(&mut self, table: u32, at: Hlc, facts: Vec<Entry>) -> Result<(), Memory>
        ensures changed { OnOk result ((self.new.facts.items ≡ facts.items) × (self.new.thresholds.items ≡ record { table = table; at = at } ∷ self.old.thresholds.items)) }
        ensures kept { OnErr result ((self.new.facts.items ≡ self.old.facts.items) × (self.new.thresholds.items ≡ self.old.thresholds.items)) }
    {
        let refused = self.thresholds.insert(0, Threshold { table, at }).is_err();
        if refused {
            return Err(Memory);
        }
        self.facts = facts;
        Ok(())
    }
}

impl Versions for FactList {
    ghost stands = { λ s h. Holds s.facts.items s.thresholds.items h };

    fn put(&mut self, key: &[u8], at: Hlc, value: &[u8]) -> Result<(), Memory> {
        let fact = put_of(self.alloc, key, at, value)?;
        self.add(fact)
    }

    fn delete(&mut self, key: &[u8], at: Hlc) -> Result<(), Memory> {
        let fact = deletion_of(self.alloc, key, at)?;
        self.add(fact)
    }

    fn delete_range(&mut self, lo: &[u8], hi: &[u8], at: Hlc) -> Result<(), Memory> {
        let fact = range_of(self.alloc, lo, hi, at)?;
        self.add(fact)
    }

    fn get_as_of(&self, key: &[u8], t: Hlc) -> Option<&[u8]> {
        match table_of(key) {
            Some(table) => value_of(self.facts.as_slice(), table, key, t),
            None => None,
        }
    }

    fn scan_as_of(&self, table: u32, t: Hlc) -> Result<Vec<Entry>, Memory> {
        scan_of(self.alloc, self.facts.as_slice(), u64::from(table), t)
    }

    fn scan_after(
        &self,
        table: u32,
        t: Hlc,
        after: &Option<(Blob, Hlc)>,
        n: usize,
    ) -> Result<Vec<Entry>, Memory> {
        let facts = self.facts.as_slice();
        scan_after_of(self.alloc, facts, u64::from(table), t, after, n)
    }

    fn events(
        &self,
        table: u32,
        from: Hlc,
        upto: Upto,
        after: &Option<(Blob, Hlc)>,
        n: usize,
    ) -> Result<Vec<Entry>, Memory> {
        let facts = self.facts.as_slice();
        events_of(self.alloc, facts, u64::from(table), from, upto, after, n)
    }

    fn newest_events(
        &self,
        table: u32,
        from: Hlc,
        upto: Upto,
        after: &Option<(Blob, Hlc)>,
        n: usize,
    ) -> Result<Vec<Entry>, Memory> {
        let facts = self.facts.as_slice();
        newest_events_of(self.alloc, facts, u64::from(table), from, upto, after, n)
    }

    fn ranges(&self, table: u32, from: Hlc, upto: Upto) -> Result<Vec<Entry>, Memory> {
        let facts = self.facts.as_slice();
        listed(
            self.alloc,
            facts,
            u64::from(table),
            &Listing::Ranges { from, upto },
        )
    }

    fn collect(&mut self, table: u32, g: Hlc) -> Result<(), Memory> {
        if g <= threshold_of(self.thresholds.as_slice(), table) {
            return Ok(());
        }
        let facts = collected(self.alloc, self.facts.as_slice(), u64::from(table), g)?;
        self.replace(table, g, facts)
    }

    fn threshold(&self, table: u32) -> Hlc {
        threshold_of(self.thresholds.as_slice(), table)
    }

    ghost apart = { λ s h id held. (held.tables id).apart };
}
