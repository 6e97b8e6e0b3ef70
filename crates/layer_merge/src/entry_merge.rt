//! The entries of the layer without history that joins the layers of an interval.
ghost use Rattle.std.specs.Prelude.{◌≡◌, ℕ, true, false, [], ◌++◌, Some, IfOk, IfErr, IfSome, OnErr, OnOk, List};
ghost use Rattle.std.specs.List.{list_any};
ghost use Rattle.mvcc_keys.specs.Entries.{key_of};
ghost use Rattle.mvcc_keys.specs.declared.entries.Entry.{Entry};
ghost use Rattle.chunk_file.specs.Entries.{is_range};
ghost use Rattle.layer_merge.specs.Changes.{entries_left, first_date, merge_entries, ranges_held};
ghost use Rattle.layer_merge.specs.declared.ranges.Waiting.{Waiting};
ghost use Rattle.layer_merge.specs.Loads.{Gives, IsOthers, World};
ghost use Rattle.layer_merge.specs.Parts.{AreProper, AreWaiting, IsCountedChunk, counted_entries, is_introduced};
ghost use Rattle.layer_merge.specs.Rows.{Gave};
ghost use Rattle.layer_merge.specs.Orders.{Freely, HasLoaded, IsOrder, IsUpTo, TableChunk, WalksBy};
ghost use Rattle.layer_merge.specs.Steps.{IsMergeFault, IsOfHeld, IsStep, to_load};
ghost use Rattle.layer_merge.specs.FromLast.{from_last};
ghost use Rattle.layer_merge.specs.Walks.{IsToLoad, MergesOver, may_load};

use crate::parts::{Part, any_introduced};
use crate::walk::Walk;
use crate::wanted::wanted_from;
use crate::{Chunks, Kind, Memory, MergeFault};
use mvcc_keys::{Entry, Hlc};
use std::alloc::Global;
use std::collections::VecDeque;
use std::marker::Model;

/// The entries of a table in the layer without history from one time to another, over the parts
/// of the layers between that count: where one of them introduces the table its visible rows at
/// the end, and else of each key the newest put or deletion, and then the range deletions.
#[derive(Drop)]
pub struct EntryMerge {
    walk: Walk,
    ranges: VecDeque<Entry>,
    listed: bool,
    failed: bool,
}

impl Model for EntryMerge {
    ghost use Rattle.std.specs.Prelude.{◌≡◌, true};
    ghost use Rattle.std.specs.List.{AllByRecursion};
    ghost use Rattle.chunk_file.specs.Entries.{is_range};
    ghost use Rattle.layer_merge.specs.Changes.{EntryState, entry_state};

    ghost Value = { EntryState };

    ghost view = { λ m. entry_state m.walk m.ranges.items m.listed m.failed };

    ghost invariant = { λ m. AllByRecursion (λ e. is_range e ≡ true) m.ranges.items };
}

/// The date after which entries are asked for, where no part introduces the table.
fn first_date(parts: &[Part], from: Hlc) -> Option<Hlc>
    ensures { result ≡ first_date (list_any is_introduced parts.now) from }
{
    if any_introduced(parts) {
        None
    } else {
        Some(from)
    }
}

impl EntryMerge {
    /// A merge of a table's parts in the order of their layers, which adjoin from one time to the
    /// other.
    pub fn new(
        alloc: Global,
        table: u32,
        kinds: &[Kind],
        parts: &[Part],
        from: Hlc,
        to: Hlc,
    ) -> Result<EntryMerge, Memory>
        ensures table { IfOk result (λ m. m.walk.table ≡ table) }
        ensures kinds { IfOk result (λ m. m.walk.kinds ≡ kinds.now) }
        ensures failed { IfOk result (λ m. m.failed ≡ false) }
        ensures held { IfOk result (λ m. m.walk.stands ≡ []) }
        ensures waits { IfOk result (λ m. AreWaiting (from_last is_introduced parts.now) m.walk.waiting) }
        ensures made { IfOk result (λ m. HasLoaded m.walk.waiting m.walk []) }
        ensures asks { IfOk result (λ m. (layer number : ℕ) → IsToLoad m.walk layer number → IsCountedChunk parts.now layer number) }
        ensures entries { (w : World) → AreProper w parts.now → IfOk result (λ m. MergesOver w (counted_entries w parts.now) m.walk × (entries_left (counted_entries w parts.now) m ≡ merge_entries w parts.now from to)) }
    {
        let wanted = wanted_from(alloc, first_date(parts, from), to);
        match Walk::over(alloc, table, kinds, parts, wanted) {
            Ok(walk) => Ok(EntryMerge {
                walk,
                ranges: VecDeque::new(alloc),
                listed: false,
                failed: false,
            }),
            Err(refused) => Err(refused),
        }
    }

    /// Lists the range deletions, and gives the first of them.
    fn first_range(&mut self, from: Hlc) -> Result<Option<Entry>, Memory>
        ensures walk { self.new.walk ≡ self.old.walk }
        ensures failed { self.new.failed ≡ self.old.failed }
        ensures listed { OnOk result (self.new.listed ≡ true) }
        ensures ranges { IfOk result (λ r. Gave r (ranges_held from self.old.walk) self.new.ranges) }
        ensures kind { IfOk result (λ r. IfSome r (λ e. is_range e ≡ true)) }
    {
        match self.walk.range_deletions(from) {
            Ok(ranges) => {
                self.ranges = ranges;
                self.listed = true;
                Ok(self.ranges.pop_front())
            }
            Err(refused) => Err(refused),
        }
    }

    /// The next of the changes after a time: puts and deletions, and then range deletions.
    fn change<C: Chunks>(
        &mut self,
        chunks: &mut C,
        from: Hlc,
    ) -> Result<Option<Entry>, MergeFault<C::Fault>>
        requires { self.old.walk.wanted.after ≡ Some from }
        ensures step { IsStep C.kept C.came C.loads self.old.walk.table self.old.walk.kinds chunks.old chunks.new self.old.walk.stands self.new.walk.stands (λ x. may_load x self.old.walk) (λ x. to_load self.old.walk.table x self.new.walk.stands) }
        ensures order { self.old.listed ≡ false → OnOk result (IsOrder C.came C.loads self.old.walk.table self.old.walk.kinds chunks.old chunks.new (λ read. WalksBy Freely self.old.walk read self.new.walk.stands)) }
        ensures made { (waiting : List Waiting) (before : List TableChunk) → HasLoaded waiting self.old.walk before → OnOk result (IsOrder C.came C.loads self.old.walk.table self.old.walk.kinds chunks.old chunks.new (λ more. HasLoaded waiting self.new.walk (before ++ more))) }
        ensures put { IfOk result (λ r. IfSome r (λ e. is_range e ≡ false → IsOfHeld (C.came chunks.old chunks.new) self.old.walk.table self.old.walk.kinds (IsToLoad self.old.walk) self.old.walk.stands e)) }
        ensures fault { IfErr result (IsMergeFault (C.came chunks.old chunks.new) self.old.walk.table self.old.walk.kinds (IsToLoad self.old.walk) self.old.walk.stands) }
        ensures behind { (w : World) (all : List Entry) → Gives C.came self.old.walk.table self.old.walk.kinds w chunks.old → MergesOver w all self.old.walk → IfOk result (λ r. IfSome r (λ e. is_range e ≡ false → IsOrder C.came C.loads self.old.walk.table self.old.walk.kinds chunks.old chunks.new (λ read. WalksBy (IsUpTo (key_of e)) self.old.walk read self.new.walk.stands))) }
        ensures sound { (w : World) (all : List Entry) → Gives C.came self.old.walk.table self.old.walk.kinds w chunks.old → MergesOver w all self.old.walk → IfErr result IsOthers }
        ensures table { self.new.walk.table ≡ self.old.walk.table }
        ensures kinds { self.new.walk.kinds ≡ self.old.walk.kinds }
        ensures failed { self.new.failed ≡ self.old.failed }
        ensures entries { (w : World) (all : List Entry) → Gives C.came self.old.walk.table self.old.walk.kinds w chunks.old → MergesOver w all self.old.walk → IfOk result (λ r. Gave r (entries_left all self.old) (entries_left all self.new) × MergesOver w all self.new.walk) }
    {
        if self.listed {
            return Ok(self.ranges.pop_front());
        }
        match self.walk.next_change(chunks) {
            Ok(Some(entry)) => return Ok(Some(entry)),
            Ok(None) => {}
            Err(fault) => return Err(fault),
        }
        match self.first_range(from) {
            Ok(entry) => Ok(entry),
            Err(_) => Err(MergeFault::Memory),
        }
    }

    /// The next entry, in either form.
    fn next_entry<C: Chunks>(
        &mut self,
        chunks: &mut C,
    ) -> Result<Option<Entry>, MergeFault<C::Fault>>
        ensures step { IsStep C.kept C.came C.loads self.old.walk.table self.old.walk.kinds chunks.old chunks.new self.old.walk.stands self.new.walk.stands (λ x. may_load x self.old.walk) (λ x. to_load self.old.walk.table x self.new.walk.stands) }
        ensures order { self.old.listed ≡ false → OnOk result (IsOrder C.came C.loads self.old.walk.table self.old.walk.kinds chunks.old chunks.new (λ read. WalksBy Freely self.old.walk read self.new.walk.stands)) }
        ensures made { (waiting : List Waiting) (before : List TableChunk) → HasLoaded waiting self.old.walk before → OnOk result (IsOrder C.came C.loads self.old.walk.table self.old.walk.kinds chunks.old chunks.new (λ more. HasLoaded waiting self.new.walk (before ++ more))) }
        ensures put { IfOk result (λ r. IfSome r (λ e. is_range e ≡ false → IsOfHeld (C.came chunks.old chunks.new) self.old.walk.table self.old.walk.kinds (IsToLoad self.old.walk) self.old.walk.stands e)) }
        ensures fault { IfErr result (IsMergeFault (C.came chunks.old chunks.new) self.old.walk.table self.old.walk.kinds (IsToLoad self.old.walk) self.old.walk.stands) }
        ensures behind { (w : World) (all : List Entry) → Gives C.came self.old.walk.table self.old.walk.kinds w chunks.old → MergesOver w all self.old.walk → IfOk result (λ r. IfSome r (λ e. is_range e ≡ false → IsOrder C.came C.loads self.old.walk.table self.old.walk.kinds chunks.old chunks.new (λ read. WalksBy (IsUpTo (key_of e)) self.old.walk read self.new.walk.stands))) }
        ensures sound { (w : World) (all : List Entry) → Gives C.came self.old.walk.table self.old.walk.kinds w chunks.old → MergesOver w all self.old.walk → IfErr result IsOthers }
        ensures table { self.new.walk.table ≡ self.old.walk.table }
        ensures kinds { self.new.walk.kinds ≡ self.old.walk.kinds }
        ensures failed { self.new.failed ≡ self.old.failed }
        ensures entries { (w : World) (all : List Entry) → Gives C.came self.old.walk.table self.old.walk.kinds w chunks.old → MergesOver w all self.old.walk → IfOk result (λ r. Gave r (entries_left all self.old) (entries_left all self.new) × MergesOver w all self.new.walk) }
    {
        match self.walk.after() {
            Some(from) => self.change(chunks, from),
            None => self.walk.next_row(chunks),
        }
    }

    /// The next entry: puts and deletions by key, and then range deletions by date; None exactly
    /// at the end.
    pub fn next<C: Chunks>(&mut self, chunks: &mut C) -> Result<Option<Entry>, MergeFault<C::Fault>>
        requires { self.old.failed ≡ false }
        ensures step { IsStep C.kept C.came C.loads self.old.walk.table self.old.walk.kinds chunks.old chunks.new self.old.walk.stands self.new.walk.stands (λ x. may_load x self.old.walk) (λ x. to_load self.old.walk.table x self.new.walk.stands) }
        ensures order { self.old.listed ≡ false → OnOk result (IsOrder C.came C.loads self.old.walk.table self.old.walk.kinds chunks.old chunks.new (λ read. WalksBy Freely self.old.walk read self.new.walk.stands)) }
        ensures made { (waiting : List Waiting) (before : List TableChunk) → HasLoaded waiting self.old.walk before → OnOk result (IsOrder C.came C.loads self.old.walk.table self.old.walk.kinds chunks.old chunks.new (λ more. HasLoaded waiting self.new.walk (before ++ more))) }
        ensures put { IfOk result (λ r. IfSome r (λ e. is_range e ≡ false → IsOfHeld (C.came chunks.old chunks.new) self.old.walk.table self.old.walk.kinds (IsToLoad self.old.walk) self.old.walk.stands e)) }
        ensures fault { IfErr result (IsMergeFault (C.came chunks.old chunks.new) self.old.walk.table self.old.walk.kinds (IsToLoad self.old.walk) self.old.walk.stands) }
        ensures behind { (w : World) (all : List Entry) → Gives C.came self.old.walk.table self.old.walk.kinds w chunks.old → MergesOver w all self.old.walk → IfOk result (λ r. IfSome r (λ e. is_range e ≡ false → IsOrder C.came C.loads self.old.walk.table self.old.walk.kinds chunks.old chunks.new (λ read. WalksBy (IsUpTo (key_of e)) self.old.walk read self.new.walk.stands))) }
        ensures sound { (w : World) (all : List Entry) → Gives C.came self.old.walk.table self.old.walk.kinds w chunks.old → MergesOver w all self.old.walk → IfErr result IsOthers }
        ensures table { self.new.walk.table ≡ self.old.walk.table }
        ensures kinds { self.new.walk.kinds ≡ self.old.walk.kinds }
        ensures failed { OnOk result (self.new.failed ≡ false) }
        ensures ended { OnErr result (self.new.failed ≡ true) }
        ensures entries { (w : World) (all : List Entry) → Gives C.came self.old.walk.table self.old.walk.kinds w chunks.old → MergesOver w all self.old.walk → IfOk result (λ r. Gave r (entries_left all self.old) (entries_left all self.new) × MergesOver w all self.new.walk) }
    {
        match self.next_entry(chunks) {
            Ok(entry) => Ok(entry),
            Err(fault) => {
                self.failed = true;
                Err(fault)
            }
        }
    }
}
