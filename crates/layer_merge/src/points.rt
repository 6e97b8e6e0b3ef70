//! The walk of the puts and deletions of all parts in order.
ghost use Rattle.std.specs.Prelude.{◌≡◌, ◌≤◌, ◌+◌, List, [], ◌∷◌, ◌++◌, IfOk, IfErr, IfSome, OnErr, OnOk, IsPermutation, option_to_list, option_map, sum_by};
ghost use Rattle.std.specs.BinaryHeap.{IsHeap, KeepsHeap, heap_items};
ghost use Rattle.mvcc_keys.specs.declared.entries.Entry.{Entry};
ghost use Rattle.layer_merge.specs.Loads.{Gives, IsOthers, World};
ghost use Rattle.layer_merge.specs.Stands.{AreAt, Finds, counts_first, first_of, room, stand_cmp};
ghost use Rattle.layer_merge.specs.Orders.{Freely, IsBehind, IsOrder, PointsBy};
ghost use Rattle.layer_merge.specs.Steps.{IsMergeFault, IsStep, MayLoad, stands_of, to_load};

use crate::cursor::Cursor;
use crate::wanted::{Wanted, counts};
use crate::{Chunks, Kind, Memory, MergeFault};
use mvcc_keys::Blob;
use std::collections::BinaryHeap;

/// Whether the entry at which a cursor is counts.
fn is_counted(cursor: &Cursor, wanted: &Wanted, done: &Option<Blob>) -> bool
    ensures { result ≡ counts_first wanted.now done.now (first_of cursor.now.left) }
{
    match cursor.entry() {
        Some(entry) => counts(&entry, wanted, done),
        None => true,
    }
}

/// Puts a cursor back that moved, unless it came to its end.
pub(crate) fn put_back(
    cursors: &mut BinaryHeap<Cursor>,
    moved: Option<Cursor>,
) -> Result<(), Memory>
    requires { IsHeap stand_cmp (heap_items cursors.old) }
    ensures items { OnOk result (IsPermutation (option_to_list moved ++ heap_items cursors.old) (heap_items cursors.new)) }
    ensures heap { IsHeap stand_cmp (heap_items cursors.new) }
    ensures refused { OnErr result (heap_items cursors.new ≡ heap_items cursors.old) }
{
    match moved {
        Some(cursor) => cursors.push(cursor).map_err(|_| Memory),
        None => Ok(()),
    }
}

/// The cursor at the first of the entries to come that count, taken out; None where none counts.
pub(crate) fn find<C: Chunks>(
    cursors: &mut BinaryHeap<Cursor>,
    chunks: &mut C,
    table: u32,
    kinds: &[Kind],
    wanted: &Wanted,
    done: &Option<Blob>,
) -> Result<Option<Cursor>, MergeFault<C::Fault>>
    requires { IsHeap stand_cmp (heap_items cursors.old) }
    ensures step { IsStep C.kept C.came C.loads table kinds.now chunks.old chunks.new (heap_items cursors.old) (stands_of result ++ heap_items cursors.new) (λ x. to_load table x (heap_items cursors.old)) (λ x. to_load table x (stands_of result ++ heap_items cursors.new)) }
    ensures fault { IfErr result (IsMergeFault (C.came chunks.old chunks.new) table kinds.now (MayLoad (λ x. to_load table x (heap_items cursors.old)) table) (heap_items cursors.old)) }
    ensures heap { IsHeap stand_cmp (heap_items cursors.new) }
    ensures order { OnOk result (IsOrder C.came C.loads table kinds.now chunks.old chunks.new (PointsBy Freely (heap_items cursors.old) (stands_of result ++ heap_items cursors.new))) }
    ensures room { IfOk result (λ r. sum_by room (option_to_list r ++ heap_items cursors.new) ≤ sum_by room (heap_items cursors.old)) }
    ensures world { (w : World) (all : List Entry) → Gives C.came table kinds.now w chunks.old → AreAt w wanted.now done.now all (heap_items cursors.old) → IfOk result (λ r. Finds w wanted.now done.now all r (heap_items cursors.new)) }
    ensures behind { (w : World) (all : List Entry) → Gives C.came table kinds.now w chunks.old → AreAt w wanted.now done.now all (heap_items cursors.old) → OnOk result (IsOrder C.came C.loads table kinds.now chunks.old chunks.new (PointsBy (IsBehind wanted.now done.now all) (heap_items cursors.old) (stands_of result ++ heap_items cursors.new))) }
    ensures sound { (w : World) (all : List Entry) → Gives C.came table kinds.now w chunks.old → AreAt w wanted.now done.now all (heap_items cursors.old) → IfErr result IsOthers }
{
    while let Some(top) = cursors.pop() {
        if is_counted(&top, wanted, done) {
            return Ok(Some(top));
        }
        let moved = match top.moved(chunks, table, kinds) {
            Ok(moved) => moved,
            Err(fault) => return Err(fault),
        };
        if put_back(cursors, moved).is_err() {
            return Err(MergeFault::Memory);
        }
    }
    Ok(None)
}
