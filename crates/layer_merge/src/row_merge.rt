//! The rows of a table as of a time, out of the layers of a chain.
ghost use Rattle.std.specs.Prelude.{◌≡◌, ◌+◌, ℕ, true, false, [], ◌++◌, None, IfOk, IfErr, IfSome, OnErr, OnOk, List};
ghost use Rattle.mvcc_keys.specs.Entries.{key_of};
ghost use Rattle.mvcc_keys.specs.declared.entries.Entry.{Entry};
ghost use Rattle.layer_merge.specs.declared.ranges.Waiting.{Waiting};
ghost use Rattle.layer_merge.specs.Loads.{Gives, IsOthers, Load, World};
ghost use Rattle.layer_merge.specs.Within.{AreAsked, AreBounded, IsWantedChunk, keys_within, rows_within, wanted_entries, wanted_loads};
ghost use Rattle.layer_merge.specs.Orders.{Freely, HasLoaded, IsOrder, IsUpTo, TableChunk, WalksBy};
ghost use Rattle.layer_merge.specs.Steps.{IsMergeFault, IsOfHeld, IsStep, times, to_load};
ghost use Rattle.layer_merge.specs.Rows.{Gave};
ghost use Rattle.layer_merge.specs.FromLast.{from_last};
ghost use Rattle.layer_merge.specs.Walks.{IsToLoad, MergesOver, may_load, rows_of};
ghost use Rattle.layer_merge.specs.Parts.{AreProper, AreWaiting, IsCountedChunk, counted_entries, is_introduced, merge_rows};

use crate::parts::Part;
use crate::walk::Walk;
use crate::wanted::{wanted_from, wanted_within};
use crate::{Chunks, Kind, Memory, MergeFault};
use mvcc_keys::{Entry, Hlc};
use std::alloc::Global;
use std::marker::Model;

/// The visible rows of a table as of a time, over the parts of a chain that count.
#[derive(Drop)]
pub struct RowMerge {
    walk: Walk,
    failed: bool,
}

impl Model for RowMerge {
    ghost use Rattle.std.specs.Prelude.{◌≡◌, None};
    ghost use Rattle.layer_merge.specs.Walks.{RowState, row_state};

    ghost Value = { RowState };

    ghost view = { λ m. row_state m.walk m.failed };

    ghost invariant = { λ m. m.walk.wanted.after ≡ None };
}

impl RowMerge {
    /// A merge of a table's parts in the order of their chain, of the rows as of a time.
    pub fn new(
        alloc: Global,
        table: u32,
        kinds: &[Kind],
        parts: &[Part],
        t: Hlc,
    ) -> Result<RowMerge, Memory>
        ensures table { IfOk result (λ m. m.walk.table ≡ table) }
        ensures kinds { IfOk result (λ m. m.walk.kinds ≡ kinds.now) }
        ensures failed { IfOk result (λ m. m.failed ≡ false) }
        ensures held { IfOk result (λ m. m.walk.stands ≡ []) }
        ensures waits { IfOk result (λ m. AreWaiting (from_last is_introduced parts.now) m.walk.waiting) }
        ensures made { IfOk result (λ m. HasLoaded m.walk.waiting m.walk []) }
        ensures asks { IfOk result (λ m. (layer number : ℕ) → IsToLoad m.walk layer number → IsCountedChunk parts.now layer number) }
        ensures rows { (w : World) → AreProper w parts.now → IfOk result (λ m. MergesOver w (counted_entries w parts.now) m.walk × (rows_of (counted_entries w parts.now) m.walk ≡ merge_rows w parts.now t)) }
    {
        match Walk::over(alloc, table, kinds, parts, wanted_from(alloc, None, t)) {
            Ok(walk) => Ok(RowMerge {
                walk,
                failed: false,
            }),
            Err(refused) => Err(refused),
        }
    }

    /// The same of the keys from `lo` up to, not including, `hi`. It loads no chunk whose bounds
    /// say that it holds none of them.
    pub fn within(
        alloc: Global,
        table: u32,
        kinds: &[Kind],
        parts: &[Part],
        t: Hlc,
        lo: &[u8],
        hi: &[u8],
    ) -> Result<RowMerge, Memory>
        ensures table { IfOk result (λ m. m.walk.table ≡ table) }
        ensures kinds { IfOk result (λ m. m.walk.kinds ≡ kinds.now) }
        ensures failed { IfOk result (λ m. m.failed ≡ false) }
        ensures held { IfOk result (λ m. m.walk.stands ≡ []) }
        ensures waits { IfOk result (λ m. AreAsked (keys_within lo.now hi.now t) (from_last is_introduced parts.now) m.walk.waiting) }
        ensures made { IfOk result (λ m. HasLoaded m.walk.waiting m.walk []) }
        ensures loads { IfOk result (λ m. (x : Load) → may_load x m.walk ≡ times x (wanted_loads table (keys_within lo.now hi.now t) parts.now) + times x (wanted_loads table (keys_within lo.now hi.now t) parts.now)) }
        ensures asks { IfOk result (λ m. (layer number : ℕ) → IsToLoad m.walk layer number → IsWantedChunk (keys_within lo.now hi.now t) parts.now layer number) }
        ensures rows { (w : World) → AreProper w parts.now → AreBounded w parts.now → IfOk result (λ m. MergesOver w (wanted_entries w (keys_within lo.now hi.now t) parts.now) m.walk × (rows_of (wanted_entries w (keys_within lo.now hi.now t) parts.now) m.walk ≡ rows_within w parts.now t lo.now hi.now)) }
    {
        let wanted = match wanted_within(alloc, lo, hi, t) {
            Ok(wanted) => wanted,
            Err(refused) => return Err(refused),
        };
        match Walk::over(alloc, table, kinds, parts, wanted) {
            Ok(walk) => Ok(RowMerge {
                walk,
                failed: false,
            }),
            Err(refused) => Err(refused),
        }
    }

    /// The next visible put, by key; None exactly at the end.
    pub fn next<C: Chunks>(&mut self, chunks: &mut C) -> Result<Option<Entry>, MergeFault<C::Fault>>
        requires { self.old.failed ≡ false }
        ensures step { IsStep C.kept C.came C.loads self.old.walk.table self.old.walk.kinds chunks.old chunks.new self.old.walk.stands self.new.walk.stands (λ x. may_load x self.old.walk) (λ x. to_load self.old.walk.table x self.new.walk.stands) }
        ensures order { OnOk result (IsOrder C.came C.loads self.old.walk.table self.old.walk.kinds chunks.old chunks.new (λ read. WalksBy Freely self.old.walk read self.new.walk.stands)) }
        ensures made { (waiting : List Waiting) (before : List TableChunk) → HasLoaded waiting self.old.walk before → OnOk result (IsOrder C.came C.loads self.old.walk.table self.old.walk.kinds chunks.old chunks.new (λ more. HasLoaded waiting self.new.walk (before ++ more))) }
        ensures put { IfOk result (λ r. IfSome r (IsOfHeld (C.came chunks.old chunks.new) self.old.walk.table self.old.walk.kinds (IsToLoad self.old.walk) self.old.walk.stands)) }
        ensures fault { IfErr result (IsMergeFault (C.came chunks.old chunks.new) self.old.walk.table self.old.walk.kinds (IsToLoad self.old.walk) self.old.walk.stands) }
        ensures behind { (w : World) (all : List Entry) → Gives C.came self.old.walk.table self.old.walk.kinds w chunks.old → MergesOver w all self.old.walk → IfOk result (λ r. IfSome r (λ e. IsOrder C.came C.loads self.old.walk.table self.old.walk.kinds chunks.old chunks.new (λ read. WalksBy (IsUpTo (key_of e)) self.old.walk read self.new.walk.stands))) }
        ensures sound { (w : World) (all : List Entry) → Gives C.came self.old.walk.table self.old.walk.kinds w chunks.old → MergesOver w all self.old.walk → IfErr result IsOthers }
        ensures begun { OnOk result (self.new.walk.begun ≡ true) }
        ensures table { self.new.walk.table ≡ self.old.walk.table }
        ensures kinds { self.new.walk.kinds ≡ self.old.walk.kinds }
        ensures failed { OnOk result (self.new.failed ≡ false) }
        ensures ended { OnErr result (self.new.failed ≡ true) }
        ensures rows { (w : World) (all : List Entry) → Gives C.came self.old.walk.table self.old.walk.kinds w chunks.old → MergesOver w all self.old.walk → IfOk result (λ r. Gave r (rows_of all self.old.walk) (rows_of all self.new.walk) × MergesOver w all self.new.walk) }
    {
        match self.walk.next_row(chunks) {
            Ok(row) => Ok(row),
            Err(fault) => {
                self.failed = true;
                Err(fault)
            }
        }
    }
}
