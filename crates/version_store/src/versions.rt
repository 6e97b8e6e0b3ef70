//! What a store of versions does.
ghost use Rattle.std.specs.Prelude.{◌≡◌, ℕ, true, Some, IfOk, OnOk, OnErr, option_map};
ghost use Rattle.mvcc_keys.specs.Times.{time_le};
ghost use Rattle.fact_model.specs.Facts.{Fact, IsApart};
ghost use Rattle.version_store.specs.Tables.{Tables, bytes_cmp, table_of, with_fact, raised, MayAdd, value_at, scan_at, scan_after_at, events_at, newest_events_at, ranges_at};

use mvcc_keys::{Blob, Entry, Hlc, Memory};
use range_tombstones::Upto;

/// A store of dated facts by tables, with keys and values in bytes. A key's table is the id that
/// is spelled in front of it. The history that a store stands for has all facts that were ever
/// accepted; what is forgotten up to a table's threshold shows in no answer that is asked for.
pub trait Versions {
    ghost stands: { Self → Tables → Type 0 };

    fn put(&mut self, key: &[u8], at: Hlc, value: &[u8]) -> Result<(), Memory>
        ensures added { OnOk result ((h : Tables) (id : ℕ) → stands self.old h → MayAdd h id (Fact.Put key.now value.now at) → stands self.new (with_fact id (Fact.Put key.now value.now at) h)) }
        ensures kept { OnErr result ((h : Tables) → stands self.old h → stands self.new h) };

    fn delete(&mut self, key: &[u8], at: Hlc) -> Result<(), Memory>
        ensures added { OnOk result ((h : Tables) (id : ℕ) → stands self.old h → MayAdd h id (Fact.Del key.now at) → stands self.new (with_fact id (Fact.Del key.now at) h)) }
        ensures kept { OnErr result ((h : Tables) → stands self.old h → stands self.new h) };

    /// Deletes the keys from `lo` up to, not including, `hi`.
    fn delete_range(&mut self, lo: &[u8], hi: &[u8], at: Hlc) -> Result<(), Memory>
        ensures added { OnOk result ((h : Tables) (id : ℕ) → stands self.old h → MayAdd h id (Fact.DelRange lo.now hi.now at) → stands self.new (with_fact id (Fact.DelRange lo.now hi.now at) h)) }
        ensures kept { OnErr result ((h : Tables) → stands self.old h → stands self.new h) };

    /// The value of a key as of a time from its table's threshold on.
    fn get_as_of(&self, key: &[u8], t: Hlc) -> Option<&[u8]>
        ensures { (h : Tables) (id : ℕ) → stands self.now h → table_of key.now ≡ Some id → time_le (h.threshold id) t ≡ true → option_map (λ v. v.now) result ≡ value_at h id key.now t };

    /// The visible puts as of a time from the table's threshold on, by key.
    fn scan_as_of(&self, table: u32, t: Hlc) -> Result<Vec<Entry>, Memory>
        ensures { IfOk result (λ seen. (h : Tables) → stands self.now h → time_le (h.threshold table) t ≡ true → seen.items ≡ scan_at h table t) };

    /// The first `n` of the puts visible as of a time from the table's threshold on that come
    /// after a place in the order of events, by key.
    fn scan_after(
        &self,
        table: u32,
        t: Hlc,
        after: &Option<(Blob, Hlc)>,
        n: usize,
    ) -> Result<Vec<Entry>, Memory>
        ensures { IfOk result (λ seen. (h : Tables) → stands self.now h → time_le (h.threshold table) t ≡ true → seen.items ≡ scan_after_at h table t after.now n) };

    /// The first `n` puts and deletions after a place, by key and newest first, of those dated
    /// after `from` and within `upto`, where `from` isn't before the threshold.
    fn events(
        &self,
        table: u32,
        from: Hlc,
        upto: Upto,
        after: &Option<(Blob, Hlc)>,
        n: usize,
    ) -> Result<Vec<Entry>, Memory>
        ensures { IfOk result (λ seen. (h : Tables) → stands self.now h → time_le (h.threshold table) from ≡ true → seen.items ≡ events_at h table from upto after.now n) };

    /// The first `n`, after a place, of those puts and deletions dated after `from` and within
    /// `upto` that are the newest of their keys, by key, where `from` isn't before the threshold.
    fn newest_events(
        &self,
        table: u32,
        from: Hlc,
        upto: Upto,
        after: &Option<(Blob, Hlc)>,
        n: usize,
    ) -> Result<Vec<Entry>, Memory>
        ensures { IfOk result (λ seen. (h : Tables) → stands self.now h → time_le (h.threshold table) from ≡ true → seen.items ≡ newest_events_at h table from upto after.now n) };

    /// The range deletions dated after `from` and within `upto`, by date, where `from` isn't
    /// before the threshold.
    fn ranges(&self, table: u32, from: Hlc, upto: Upto) -> Result<Vec<Entry>, Memory>
        ensures { IfOk result (λ seen. (h : Tables) → stands self.now h → time_le (h.threshold table) from ≡ true → seen.items ≡ ranges_at h table from upto) };

    /// Raises the table's threshold to `g`, where that is greater.
    fn collect(&mut self, table: u32, g: Hlc) -> Result<(), Memory>
        ensures raised { OnOk result ((h : Tables) → stands self.old h → stands self.new (raised table g h)) }
        ensures kept { OnErr result ((h : Tables) → stands self.old h → stands self.new h) };

    fn threshold(&self, table: u32) -> Hlc
        ensures { (h : Tables) → stands self.now h → result ≡ h.threshold table };

    /// A law: facts of a table that have one date and touch one key are the same fact.
    ghost apart: { (store : Self) (h : Tables) (id : ℕ) → stands store h → IsApart bytes_cmp (h.facts id) };
}
