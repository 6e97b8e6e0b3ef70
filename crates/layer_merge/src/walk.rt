//! The walk of a merge over the parts that count.
ghost use Rattle.std.specs.Prelude.{◌≡◌, true, false, [], ◌++◌, None, IfOk, IfErr, IfSome, OnOk, List};
ghost use Rattle.mvcc_keys.specs.Entries.{key_of};
ghost use Rattle.mvcc_keys.specs.declared.entries.Entry.{Entry};
ghost use Rattle.layer_merge.specs.declared.ranges.Waiting.{Waiting};
ghost use Rattle.layer_merge.specs.Loads.{Gives, IsOthers, World};
ghost use Rattle.layer_merge.specs.Orders.{Freely, HasLoaded, IsUnheld, IsUpTo, IsOrder, PointsBy, TableChunk, WalksBy};
ghost use Rattle.layer_merge.specs.Steps.{IsMergeFault, IsOfHeld, IsStep, MayLoad, to_load};
ghost use Rattle.layer_merge.specs.Changes.{changes_of, ranges_held};
ghost use Rattle.layer_merge.specs.FromLast.{from_last};
ghost use Rattle.layer_merge.specs.Parts.{is_introduced};
ghost use Rattle.layer_merge.specs.Rows.{Gave};
ghost use Rattle.layer_merge.specs.Within.{AreAsked};
ghost use Rattle.layer_merge.specs.Walks.{IsToLoad, MergesOver, may_load, rows_of};

use crate::changes::next_change;
use crate::cursor::Cursor;
use crate::parts::{Part, counted, waiting_of};
use crate::range_set::RangeSet;
use crate::ranges::Waiting;
use crate::rows::next_row;
use crate::start::start;
use crate::wanted::Wanted;
use crate::{Chunks, Kind, Memory, MergeFault};
use mvcc_keys::{Blob, Entry, Hlc};
use std::alloc::Global;
use std::collections::{BinaryHeap, VecDeque};
use std::marker::Model;

/// What a merge is asked for, what it holds, and where it stands.
#[derive(Drop)]
pub(crate) struct Walk {
    alloc: Global,
    table: u32,
    kinds: Vec<Kind>,
    wanted: Wanted,
    waiting: VecDeque<Waiting>,
    cursors: BinaryHeap<Cursor>,
    ranges: RangeSet,
    done: Option<Blob>,
    begun: bool,
}

impl Model for Walk {
    ghost use Rattle.std.specs.BinaryHeap.{IsHeap, heap_items};
    ghost use Rattle.layer_merge.specs.Stands.{stand_cmp};
    ghost use Rattle.layer_merge.specs.Walks.{WalkState, walk_state};

    ghost Value = { WalkState };

    ghost view = { λ m. walk_state m.table m.kinds.items m.wanted m.waiting.items (heap_items m.cursors) m.ranges m.done m.begun };

    ghost invariant = { λ m. IsHeap stand_cmp (heap_items m.cursors) };
}

impl Walk {
    /// A walk over parts that wait.
    fn new(
        alloc: Global,
        table: u32,
        kinds: &[Kind],
        wanted: Wanted,
        waiting: VecDeque<Waiting>,
    ) -> Result<Walk, Memory>
        ensures table { IfOk result (λ m. m.table ≡ table) }
        ensures kinds { IfOk result (λ m. m.kinds ≡ kinds.now) }
        ensures wanted { IfOk result (λ m. m.wanted ≡ wanted) }
        ensures waiting { IfOk result (λ m. m.waiting ≡ waiting.items) }
        ensures stands { IfOk result (λ m. m.stands ≡ []) }
        ensures ranges { IfOk result (λ m. m.ranges ≡ []) }
        ensures last { IfOk result (λ m. m.done ≡ None) }
        ensures begun { IfOk result (λ m. m.begun ≡ false) }
    {
        let mut copy = Vec::new(alloc);
        if copy.extend_from_slice(kinds).is_err() {
            return Err(Memory);
        }
        Ok(Walk {
            alloc,
            table,
            kinds: copy,
            wanted,
            waiting,
            cursors: BinaryHeap::new(alloc),
            ranges: RangeSet::new(alloc),
            done: None,
            begun: false,
        })
    }

    /// A walk over the parts that count, with the chunks that may hold what is asked for.
    pub(crate) fn over(
        alloc: Global,
        table: u32,
        kinds: &[Kind],
        parts: &[Part],
        wanted: Wanted,
    ) -> Result<Walk, Memory>
        ensures table { IfOk result (λ m. m.table ≡ table) }
        ensures kinds { IfOk result (λ m. m.kinds ≡ kinds.now) }
        ensures wanted { IfOk result (λ m. m.wanted ≡ wanted) }
        ensures asked { IfOk result (λ m. AreAsked wanted (from_last is_introduced parts.now) m.waiting) }
        ensures stands { IfOk result (λ m. m.stands ≡ []) }
        ensures ranges { IfOk result (λ m. m.ranges ≡ []) }
        ensures last { IfOk result (λ m. m.done ≡ None) }
        ensures begun { IfOk result (λ m. m.begun ≡ false) }
    {
        let waiting = match waiting_of(alloc, counted(parts), &wanted) {
            Ok(waiting) => waiting,
            Err(refused) => return Err(refused),
        };
        Walk::new(alloc, table, kinds, wanted, waiting)
    }

    /// Loads what is needed before the first row, once.
    fn begin<C: Chunks>(&mut self, chunks: &mut C) -> Result<(), MergeFault<C::Fault>>
        ensures step { IsStep C.kept C.came C.loads self.old.table self.old.kinds chunks.old chunks.new self.old.stands self.new.stands (λ x. may_load x self.old) (λ x. to_load self.old.table x self.new.stands) }
        ensures order { OnOk result (IsOrder C.came C.loads self.old.table self.old.kinds chunks.old chunks.new (λ read. WalksBy IsUnheld self.old read self.new.stands)) }
        ensures fault { IfErr result (IsMergeFault (C.came chunks.old chunks.new) self.old.table self.old.kinds (IsToLoad self.old) self.old.stands) }
        ensures sound { (w : World) (all : List Entry) → Gives C.came self.old.table self.old.kinds w chunks.old → MergesOver w all self.old → IfErr result IsOthers }
        ensures table { self.new.table ≡ self.old.table }
        ensures kinds { self.new.kinds ≡ self.old.kinds }
        ensures wanted { self.new.wanted ≡ self.old.wanted }
        ensures last { self.new.done ≡ self.old.done }
        ensures begun { OnOk result (self.new.begun ≡ true) }
        ensures world { (w : World) (all : List Entry) → Gives C.came self.old.table self.old.kinds w chunks.old → MergesOver w all self.old → OnOk result (MergesOver w all self.new) }
    {
        if self.begun {
            return Ok(());
        }
        match start(
            self.alloc,
            &mut self.waiting,
            &mut self.cursors,
            &mut self.ranges,
            chunks,
            self.table,
            self.kinds.as_slice(),
        ) {
            Ok(()) => {
                self.begun = true;
                Ok(())
            }
            Err(fault) => Err(fault),
        }
    }

    /// The next row, once the walk has begun.
    fn row<C: Chunks>(&mut self, chunks: &mut C) -> Result<Option<Entry>, MergeFault<C::Fault>>
        requires begun { self.old.begun ≡ true }
        requires from_start { self.old.wanted.after ≡ None }
        ensures step { IsStep C.kept C.came C.loads self.old.table self.old.kinds chunks.old chunks.new self.old.stands self.new.stands (λ x. to_load self.old.table x self.old.stands) (λ x. to_load self.old.table x self.new.stands) }
        ensures order { OnOk result (IsOrder C.came C.loads self.old.table self.old.kinds chunks.old chunks.new (PointsBy Freely self.old.stands self.new.stands)) }
        ensures fault { IfErr result (IsMergeFault (C.came chunks.old chunks.new) self.old.table self.old.kinds (MayLoad (λ x. to_load self.old.table x self.old.stands) self.old.table) self.old.stands) }
        ensures put { IfOk result (λ r. IfSome r (IsOfHeld (C.came chunks.old chunks.new) self.old.table self.old.kinds (MayLoad (λ x. to_load self.old.table x self.old.stands) self.old.table) self.old.stands)) }
        ensures behind { (w : World) (all : List Entry) → Gives C.came self.old.table self.old.kinds w chunks.old → MergesOver w all self.old → IfOk result (λ r. IfSome r (λ e. IsOrder C.came C.loads self.old.table self.old.kinds chunks.old chunks.new (PointsBy (IsUpTo (key_of e)) self.old.stands self.new.stands))) }
        ensures sound { (w : World) (all : List Entry) → Gives C.came self.old.table self.old.kinds w chunks.old → MergesOver w all self.old → IfErr result IsOthers }
        ensures begun { self.new.begun ≡ true }
        ensures table { self.new.table ≡ self.old.table }
        ensures kinds { self.new.kinds ≡ self.old.kinds }
        ensures wanted { self.new.wanted ≡ self.old.wanted }
        ensures world { (w : World) (all : List Entry) → Gives C.came self.old.table self.old.kinds w chunks.old → MergesOver w all self.old → IfOk result (λ r. Gave r (rows_of all self.old) (rows_of all self.new) × MergesOver w all self.new) }
    {
        next_row(
            self.alloc,
            &mut self.cursors,
            chunks,
            self.table,
            self.kinds.as_slice(),
            &self.wanted,
            &self.ranges,
            &mut self.done,
        )
    }

    /// The next row; None exactly at the end.
    pub(crate) fn next_row<C: Chunks>(
        &mut self,
        chunks: &mut C,
    ) -> Result<Option<Entry>, MergeFault<C::Fault>>
        requires { self.old.wanted.after ≡ None }
        ensures step { IsStep C.kept C.came C.loads self.old.table self.old.kinds chunks.old chunks.new self.old.stands self.new.stands (λ x. may_load x self.old) (λ x. to_load self.old.table x self.new.stands) }
        ensures order { OnOk result (IsOrder C.came C.loads self.old.table self.old.kinds chunks.old chunks.new (λ read. WalksBy Freely self.old read self.new.stands)) }
        ensures made { (waiting : List Waiting) (before : List TableChunk) → HasLoaded waiting self.old before → OnOk result (IsOrder C.came C.loads self.old.table self.old.kinds chunks.old chunks.new (λ more. HasLoaded waiting self.new (before ++ more))) }
        ensures fault { IfErr result (IsMergeFault (C.came chunks.old chunks.new) self.old.table self.old.kinds (IsToLoad self.old) self.old.stands) }
        ensures put { IfOk result (λ r. IfSome r (IsOfHeld (C.came chunks.old chunks.new) self.old.table self.old.kinds (IsToLoad self.old) self.old.stands)) }
        ensures behind { (w : World) (all : List Entry) → Gives C.came self.old.table self.old.kinds w chunks.old → MergesOver w all self.old → IfOk result (λ r. IfSome r (λ e. IsOrder C.came C.loads self.old.table self.old.kinds chunks.old chunks.new (λ read. WalksBy (IsUpTo (key_of e)) self.old read self.new.stands))) }
        ensures sound { (w : World) (all : List Entry) → Gives C.came self.old.table self.old.kinds w chunks.old → MergesOver w all self.old → IfErr result IsOthers }
        ensures begun { OnOk result (self.new.begun ≡ true) }
        ensures table { self.new.table ≡ self.old.table }
        ensures kinds { self.new.kinds ≡ self.old.kinds }
        ensures wanted { self.new.wanted ≡ self.old.wanted }
        ensures rows { (w : World) (all : List Entry) → Gives C.came self.old.table self.old.kinds w chunks.old → MergesOver w all self.old → IfOk result (λ r. Gave r (rows_of all self.old) (rows_of all self.new) × MergesOver w all self.new) }
    {
        match self.begin(chunks) {
            Ok(()) => {}
            Err(fault) => return Err(fault),
        }
        self.row(chunks)
    }

    /// The next change, once the walk has begun.
    fn change<C: Chunks>(&mut self, chunks: &mut C) -> Result<Option<Entry>, MergeFault<C::Fault>>
        requires { self.old.begun ≡ true }
        ensures step { IsStep C.kept C.came C.loads self.old.table self.old.kinds chunks.old chunks.new self.old.stands self.new.stands (λ x. to_load self.old.table x self.old.stands) (λ x. to_load self.old.table x self.new.stands) }
        ensures order { OnOk result (IsOrder C.came C.loads self.old.table self.old.kinds chunks.old chunks.new (PointsBy Freely self.old.stands self.new.stands)) }
        ensures fault { IfErr result (IsMergeFault (C.came chunks.old chunks.new) self.old.table self.old.kinds (MayLoad (λ x. to_load self.old.table x self.old.stands) self.old.table) self.old.stands) }
        ensures put { IfOk result (λ r. IfSome r (IsOfHeld (C.came chunks.old chunks.new) self.old.table self.old.kinds (MayLoad (λ x. to_load self.old.table x self.old.stands) self.old.table) self.old.stands)) }
        ensures behind { (w : World) (all : List Entry) → Gives C.came self.old.table self.old.kinds w chunks.old → MergesOver w all self.old → IfOk result (λ r. IfSome r (λ e. IsOrder C.came C.loads self.old.table self.old.kinds chunks.old chunks.new (PointsBy (IsUpTo (key_of e)) self.old.stands self.new.stands))) }
        ensures sound { (w : World) (all : List Entry) → Gives C.came self.old.table self.old.kinds w chunks.old → MergesOver w all self.old → IfErr result IsOthers }
        ensures begun { self.new.begun ≡ true }
        ensures table { self.new.table ≡ self.old.table }
        ensures kinds { self.new.kinds ≡ self.old.kinds }
        ensures wanted { self.new.wanted ≡ self.old.wanted }
        ensures world { (w : World) (all : List Entry) → Gives C.came self.old.table self.old.kinds w chunks.old → MergesOver w all self.old → IfOk result (λ r. Gave r (changes_of all self.old) (changes_of all self.new) × MergesOver w all self.new) }
    {
        next_change(
            self.alloc,
            &mut self.cursors,
            chunks,
            self.table,
            self.kinds.as_slice(),
            &self.wanted,
            &mut self.done,
        )
    }

    /// The next change; None exactly where none is left.
    pub(crate) fn next_change<C: Chunks>(
        &mut self,
        chunks: &mut C,
    ) -> Result<Option<Entry>, MergeFault<C::Fault>>
        ensures step { IsStep C.kept C.came C.loads self.old.table self.old.kinds chunks.old chunks.new self.old.stands self.new.stands (λ x. may_load x self.old) (λ x. to_load self.old.table x self.new.stands) }
        ensures order { OnOk result (IsOrder C.came C.loads self.old.table self.old.kinds chunks.old chunks.new (λ read. WalksBy Freely self.old read self.new.stands)) }
        ensures made { (waiting : List Waiting) (before : List TableChunk) → HasLoaded waiting self.old before → OnOk result (IsOrder C.came C.loads self.old.table self.old.kinds chunks.old chunks.new (λ more. HasLoaded waiting self.new (before ++ more))) }
        ensures fault { IfErr result (IsMergeFault (C.came chunks.old chunks.new) self.old.table self.old.kinds (IsToLoad self.old) self.old.stands) }
        ensures put { IfOk result (λ r. IfSome r (IsOfHeld (C.came chunks.old chunks.new) self.old.table self.old.kinds (IsToLoad self.old) self.old.stands)) }
        ensures behind { (w : World) (all : List Entry) → Gives C.came self.old.table self.old.kinds w chunks.old → MergesOver w all self.old → IfOk result (λ r. IfSome r (λ e. IsOrder C.came C.loads self.old.table self.old.kinds chunks.old chunks.new (λ read. WalksBy (IsUpTo (key_of e)) self.old read self.new.stands))) }
        ensures sound { (w : World) (all : List Entry) → Gives C.came self.old.table self.old.kinds w chunks.old → MergesOver w all self.old → IfErr result IsOthers }
        ensures begun { OnOk result (self.new.begun ≡ true) }
        ensures table { self.new.table ≡ self.old.table }
        ensures kinds { self.new.kinds ≡ self.old.kinds }
        ensures wanted { self.new.wanted ≡ self.old.wanted }
        ensures changes { (w : World) (all : List Entry) → Gives C.came self.old.table self.old.kinds w chunks.old → MergesOver w all self.old → IfOk result (λ r. Gave r (changes_of all self.old) (changes_of all self.new) × MergesOver w all self.new) }
    {
        match self.begin(chunks) {
            Ok(()) => {}
            Err(fault) => return Err(fault),
        }
        self.change(chunks)
    }

    /// The date after which entries are asked for, where one is.
    pub(crate) fn after(&self) -> Option<Hlc>
        ensures { result ≡ self.now.wanted.after }
    {
        self.wanted.after
    }

    /// The range deletions that are kept, after one time and up to the last that is asked for.
    pub(crate) fn range_deletions(&self, from: Hlc) -> Result<VecDeque<Entry>, Memory>
        ensures { IfOk result (λ es. es.items ≡ ranges_held from self.now) }
    {
        match self.ranges.between(from, self.wanted.upto) {
            Ok(entries) => Ok(VecDeque::from_vec(entries)),
            Err(refused) => Err(refused),
        }
    }
}
