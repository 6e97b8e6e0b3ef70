//! The versions of one table.
ghost use Rattle.std.specs.Prelude.{◌≡◌, [], true, false, OnOk, OnErr};
ghost use Rattle.mvcc_keys.specs.Times.{time_le, zero_time};
ghost use Rattle.range_tombstones.specs.Ranges.{bytes_lt, is_dated, range, with_range};
ghost use Rattle.version_store.specs.MapHolding.{IsCollected};

use crate::row::Row;
use crate::rows::collect_rows;
use mvcc_keys::{Hlc, Memory};
use range_tombstones::Fragments;
use std::alloc::Global;
use std::collections::BTreeMap;

/// Rows by key, range deletions, and the time up to which both are collected.
#[derive(Drop)]
pub struct TableVersions {
    pub rows: BTreeMap<Vec<u8>, Row>,
    pub ranges: Fragments,
    pub threshold: Hlc,
}

impl TableVersions {
    pub fn new(alloc: Global) -> TableVersions
        ensures rows { result.rows.entries ≡ [] }
        ensures ranges { result.ranges ≡ [] }
        ensures threshold { result.threshold ≡ zero_time }
    {
        TableVersions {
            rows: BTreeMap::new(alloc),
            ranges: Fragments::new(alloc),
            threshold: Hlc::zero(),
        }
    }
}

/// Adds a range deletion. It asks that `lo` is before `hi`, and for a date that none has.
pub fn add_range(ranges: &mut Fragments, lo: &[u8], hi: &[u8], at: Hlc) -> Result<(), Memory>
    ensures ok { OnOk result (bytes_lt lo.now hi.now ≡ true → is_dated at ranges.old ≡ false → ranges.new ≡ with_range (range lo.now hi.now at) ranges.old) }
    ensures err { OnErr result (ranges.new ≡ ranges.old) }
{
    if !lo.cmp(hi).is_lt() || ranges.has_date(at) {
        return Ok(());
    }
    ranges.add(lo, hi, at)
}

/// Forgets what is hidden up to `g`, unless that is done already.
pub fn collect_table(table: &mut TableVersions, g: Hlc)
    ensures low { time_le g table.old.threshold ≡ true → table.new ≡ table.old }
    ensures high { time_le g table.old.threshold ≡ false → IsCollected g table.old table.new }
{
    if g <= table.threshold {
        return;
    }
    collect_rows(&mut table.rows, &table.ranges, g);
    table.ranges.collect(g);
    table.threshold = g;
}
