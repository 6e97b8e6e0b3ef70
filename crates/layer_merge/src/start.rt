//! The start of a merge.
ghost use Rattle.std.specs.Prelude.{◌≡◌, ◌≤◌, ◌+◌, true, None, [], ◌∷◌, ◌++◌, map, ℕ, IfOk, IfErr, OnOk, List, Option};
ghost use Rattle.std.specs.BinaryHeap.{IsHeap, heap_items};
ghost use Rattle.mvcc_keys.specs.declared.entries.Entry.{Entry};
ghost use Rattle.layer_merge.specs.Loads.{Gives, IsOthers, Load, World};
ghost use Rattle.layer_merge.specs.Orders.{IsOrder, IsUnheld, MovesBy, RangesBy, StartsBy, before_first, places_of};
ghost use Rattle.layer_merge.specs.Steps.{IsMergeFault, IsStep, MayLoad, loads_of, stands_of, times, to_begin, to_load};
ghost use Rattle.layer_merge.specs.Stands.{AreAt, stand_cmp};
ghost use Rattle.layer_merge.specs.Ranges.{AreDated, HasRanges};
ghost use Rattle.layer_merge.specs.Starts.{AreInOrder, Begins, BegunSoFar, RangesSoFar, parts_entries};
ghost use Rattle.layer_merge.specs.declared.wanted.Wanted.{Wanted};

use crate::cursor::Cursor;
use crate::loading::load_chunk;
use crate::points::put_back;
use crate::range_set::RangeSet;
use crate::ranges::{Waiting, take_ranges};
use crate::{Chunks, Kind, MergeFault};
use std::alloc::Global;
use std::collections::{BinaryHeap, VecDeque};

/// Keeps the range deletions of all parts, one part after the other.
pub(crate) fn all_ranges<C: Chunks>(
    waiting: &mut VecDeque<Waiting>,
    ready: &mut VecDeque<Waiting>,
    ranges: &mut RangeSet,
    chunks: &mut C,
    table: u32,
    kinds: &[Kind],
) -> Result<(), MergeFault<C::Fault>>
    requires { ready.old.items ≡ [] }
    ensures step { IsStep C.kept C.came C.loads table kinds.now chunks.old chunks.new [] [] (λ x. to_begin table x waiting.old.items) (λ x. 0) }
    ensures fewer { OnOk result ((x : Load) → to_begin table x ready.new.items ≤ to_begin table x waiting.old.items) }
    ensures order { OnOk result (IsOrder C.came C.loads table kinds.now chunks.old chunks.new (λ read. RangesBy waiting.old.items read ready.new.items)) }
    ensures fault { IfErr result (IsMergeFault (C.came chunks.old chunks.new) table kinds.now (MayLoad (λ x. to_begin table x waiting.old.items) table) []) }
    ensures sound { (w : World) → Gives C.came table kinds.now w chunks.old → AreInOrder w waiting.old.items → IfErr result IsOthers }
    ensures world { (w : World) → Gives C.came table kinds.now w chunks.old → AreInOrder w waiting.old.items
        → OnOk result (RangesSoFar w (parts_entries w waiting.old.items) [] ready.new.items ranges.old ranges.new) }
{
    while let Some(part) = waiting.pop_front() {
        let mut part = part;
        match take_ranges(&mut part, ranges, chunks, table, kinds) {
            Ok(()) => {}
            Err(fault) => return Err(fault),
        }
        if ready.push_back(part).is_err() {
            return Err(MergeFault::Memory);
        }
    }
    Ok(())
}

/// A part at its first entry.
fn begun<C: Chunks>(
    part: Waiting,
    chunks: &mut C,
    table: u32,
    kinds: &[Kind],
) -> Result<Option<Cursor>, MergeFault<C::Fault>>
    ensures step { IsStep C.kept C.came C.loads table kinds.now chunks.old chunks.new [] (stands_of result) (λ x. times x (loads_of table part.layer part.numbers.items)) (λ x. to_load table x (stands_of result)) }
    ensures order { OnOk result (IsOrder C.came C.loads table kinds.now chunks.old chunks.new (λ read. MovesBy IsUnheld read (before_first part ∷ []) (places_of (stands_of result)))) }
    ensures fault { IfErr result (IsMergeFault (C.came chunks.old chunks.new) table kinds.now (MayLoad (λ x. times x (loads_of table part.layer part.numbers.items)) table) []) }
    ensures sound { (w : World) → Gives C.came table kinds.now w chunks.old → IfErr result IsOthers }
    ensures world { (w : World) → Gives C.came table kinds.now w chunks.old → IfOk result (Begins w part) }
{
    let Waiting { layer, mut numbers } = part;
    let Some(number) = numbers.pop_front() else {
        return Ok(None);
    };
    match load_chunk(chunks, layer, table, kinds, number) {
        Ok(chunk) => Ok(Some(Cursor::new(layer, number, chunk, numbers))),
        Err(fault) => Err(fault),
    }
}

/// Loads the first chunk of each part.
pub(crate) fn begin_all<C: Chunks>(
    ready: &mut VecDeque<Waiting>,
    cursors: &mut BinaryHeap<Cursor>,
    chunks: &mut C,
    table: u32,
    kinds: &[Kind],
) -> Result<(), MergeFault<C::Fault>>
    requires { IsHeap stand_cmp (heap_items cursors.old) }
    ensures step { IsStep C.kept C.came C.loads table kinds.now chunks.old chunks.new (heap_items cursors.old) (heap_items cursors.new) (λ x. to_load table x (heap_items cursors.old) + to_begin table x ready.old.items) (λ x. to_load table x (heap_items cursors.new)) }
    ensures order { OnOk result (IsOrder C.came C.loads table kinds.now chunks.old chunks.new (λ read. MovesBy IsUnheld read (map before_first ready.old.items ++ places_of (heap_items cursors.old)) (places_of (heap_items cursors.new)))) }
    ensures fault { IfErr result (IsMergeFault (C.came chunks.old chunks.new) table kinds.now (MayLoad (λ x. to_load table x (heap_items cursors.old) + to_begin table x ready.old.items) table) (heap_items cursors.old)) }
    ensures sound { (w : World) → Gives C.came table kinds.now w chunks.old → IfErr result IsOthers }
    ensures heap { IsHeap stand_cmp (heap_items cursors.new) }
    ensures world { (w : World) (v : Wanted) (done : Option (List ℕ)) (all : List Entry) → Gives C.came table kinds.now w chunks.old → BegunSoFar w v done all ready.old.items (heap_items cursors.old)
        → OnOk result (BegunSoFar w v done all [] (heap_items cursors.new)) }
{
    while let Some(part) = ready.pop_front() {
        let first = match begun(part, chunks, table, kinds) {
            Ok(first) => first,
            Err(fault) => return Err(fault),
        };
        if put_back(cursors, first).is_err() {
            return Err(MergeFault::Memory);
        }
    }
    Ok(())
}

/// Keeps the range deletions of all parts, and then loads the first chunk of each.
pub(crate) fn start<C: Chunks>(
    alloc: Global,
    waiting: &mut VecDeque<Waiting>,
    cursors: &mut BinaryHeap<Cursor>,
    ranges: &mut RangeSet,
    chunks: &mut C,
    table: u32,
    kinds: &[Kind],
) -> Result<(), MergeFault<C::Fault>>
    requires { IsHeap stand_cmp (heap_items cursors.old) }
    ensures step { IsStep C.kept C.came C.loads table kinds.now chunks.old chunks.new (heap_items cursors.old) (heap_items cursors.new) (λ x. to_load table x (heap_items cursors.old) + (to_begin table x waiting.old.items + to_begin table x waiting.old.items)) (λ x. to_load table x (heap_items cursors.new)) }
    ensures order { OnOk result (IsOrder C.came C.loads table kinds.now chunks.old chunks.new (λ read. StartsBy IsUnheld waiting.old.items read (places_of (heap_items cursors.old)) (places_of (heap_items cursors.new)))) }
    ensures fault { IfErr result (IsMergeFault (C.came chunks.old chunks.new) table kinds.now (MayLoad (λ x. to_load table x (heap_items cursors.old) + (to_begin table x waiting.old.items + to_begin table x waiting.old.items)) table) (heap_items cursors.old)) }
    ensures sound { (w : World) → Gives C.came table kinds.now w chunks.old → AreInOrder w waiting.old.items → IfErr result IsOthers }
    ensures heap { IsHeap stand_cmp (heap_items cursors.new) }
    ensures world { (w : World) (v : Wanted) (done : Option (List ℕ)) → Gives C.came table kinds.now w chunks.old → AreInOrder w waiting.old.items → AreDated (parts_entries w waiting.old.items)
        → heap_items cursors.old ≡ [] → ranges.old ≡ []
        → OnOk result (HasRanges ranges.new (parts_entries w waiting.old.items) × AreAt w v done (parts_entries w waiting.old.items) (heap_items cursors.new)) }
{
    let mut ready = VecDeque::new(alloc);
    match all_ranges(waiting, &mut ready, ranges, chunks, table, kinds) {
        Ok(()) => {}
        Err(fault) => return Err(fault),
    }
    begin_all(&mut ready, cursors, chunks, table, kinds)
}
