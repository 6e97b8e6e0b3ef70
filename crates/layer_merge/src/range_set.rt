//! The range deletions that a merge keeps, asked for the newest that covers a key.
ghost use Rattle.std.specs.Prelude.{◌≡◌, true, [], ◌∷◌, IfOk, OnOk};
ghost use Rattle.std.specs.Ordering.{is_lt};
ghost use Rattle.mvcc_keys.specs.declared.entries.Entry.{Entry};
ghost use Rattle.range_tombstones.specs.Intervals.{is_between};
ghost use Rattle.range_tombstones.specs.declared.upto.Upto.TheVariants.{At};
ghost use Rattle.fact_model.specs.Listed.{ranges};
ghost use Rattle.version_store.specs.Tables.{bytes_cmp, entries_of};
ghost use Rattle.version_store.specs.Lists.{facts_of};
ghost use Rattle.layer_merge.specs.Nexts.{IsCover};
ghost use Rattle.layer_merge.specs.Ranges.{AddsAll};

use crate::Memory;
use mvcc_keys::{Entry, Hlc};
use range_tombstones::{Fragments, Upto};
use std::alloc::Global;
use std::marker::Model;

/// Range deletions of different dates. Contracts see their list.
#[derive(Drop)]
pub(crate) struct RangeSet {
    fragments: Fragments,
}

impl Model for RangeSet {
    ghost use Rattle.std.specs.Prelude.{List, map};
    ghost use Rattle.mvcc_keys.specs.declared.entries.Entry.{Entry};
    ghost use Rattle.range_tombstones.specs.Ranges.{entry_of};

    ghost Value = { List Entry };

    ghost view = { λ s. map entry_of s.fragments };
}

impl RangeSet {
    pub(crate) fn new(alloc: Global) -> RangeSet
        ensures { result ≡ [] }
    {
        RangeSet {
            fragments: Fragments::new(alloc),
        }
    }

    /// Keeps a range deletion, unless one of its date is there.
    pub(crate) fn add(&mut self, lo: &[u8], hi: &[u8], at: Hlc) -> Result<(), Memory>
        requires { is_lt (bytes_cmp lo.now hi.now) ≡ true }
        ensures { OnOk result (AddsAll (Entry.Range lo.now hi.now at ∷ []) self.old self.new) }
    {
        if self.fragments.has_date(at) {
            return Ok(());
        }
        self.fragments.add(lo, hi, at)
    }

    /// The greatest date up to a time of one that covers the key.
    pub(crate) fn newest(&self, key: &[u8], upto: Hlc) -> Option<Hlc>
        ensures { IsCover bytes_cmp key.now upto (facts_of self.now) result }
    {
        self.fragments.newest(key, upto)
    }

    /// Those dated after one time and up to another, by date.
    pub(crate) fn between(&self, from: Hlc, upto: Hlc) -> Result<Vec<Entry>, Memory>
        ensures { IfOk result (λ es. es.items ≡ entries_of (ranges (is_between from (At upto)) (facts_of self.now))) }
    {
        self.fragments.originals(from, Upto::At(upto))
    }
}
