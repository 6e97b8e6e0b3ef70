//! The newest put or deletion of each key, one after the other.
ghost use Rattle.std.specs.Prelude.{◌≡◌, Some, List, IfOk, IfErr, IfSome, OnOk};
ghost use Rattle.std.specs.BinaryHeap.{IsHeap, heap_items};
ghost use Rattle.mvcc_keys.specs.declared.entries.Entry.{Entry};
ghost use Rattle.mvcc_keys.specs.Entries.{key_of};
ghost use Rattle.fact_model.specs.Facts.{IsApart};
ghost use Rattle.list_laws.specs.Members.{Has};
ghost use Rattle.chunk_file.specs.Entries.{seen};
ghost use Rattle.layer_merge.specs.Changes.{changes_left};
ghost use Rattle.layer_merge.specs.Loads.{Gives, IsOthers, World};
ghost use Rattle.layer_merge.specs.Rows.{Gave};
ghost use Rattle.layer_merge.specs.Stands.{AreAt, first_of, stand_cmp};
ghost use Rattle.layer_merge.specs.Orders.{Freely, IsOrder, IsUpTo, PointsBy};
ghost use Rattle.layer_merge.specs.Steps.{IsMergeFault, IsOfHeld, IsStep, MayLoad, to_load};
ghost use Rattle.version_store.specs.Tables.{bytes_cmp};
ghost use Rattle.version_store.specs.Lists.{facts_of};

use crate::cursor::Cursor;
use crate::points::{find, put_back};
use crate::rows::key_of;
use crate::wanted::Wanted;
use crate::{Chunks, Kind, Memory, MergeFault};
use mvcc_keys::{Blob, Entry, EntryView};
use std::alloc::Global;
use std::collections::BinaryHeap;

/// A copy of an entry.
fn copy_of(alloc: Global, entry: &EntryView<'_>) -> Result<Entry, Memory>
    ensures { IfOk result (λ e. e ≡ seen entry.now) }
{
    match entry {
        EntryView::Put { key, at, value } => {
            let key = Blob::copy_of(alloc, key)?;
            let value = Blob::copy_of(alloc, value)?;
            Ok(Entry::Put {
                key,
                at: *at,
                value,
            })
        }
        EntryView::Del { key, at } => {
            let key = Blob::copy_of(alloc, key)?;
            Ok(Entry::Del { key, at: *at })
        }
        EntryView::Range { lo, hi, at } => {
            let lo = Blob::copy_of(alloc, lo)?;
            let hi = Blob::copy_of(alloc, hi)?;
            Ok(Entry::Range { lo, hi, at: *at })
        }
    }
}

/// Notes the key of the entry at which a cursor is as the last one given, and copies the entry.
fn take_first(alloc: Global, top: &Cursor, done: &mut Option<Blob>) -> Result<Option<Entry>, Memory>
    ensures copied { IfOk result (λ r. (e : Entry) → first_of top.now.left ≡ Some e → (done.new ≡ Some (key_of e)) × (r ≡ Some e)) }
    ensures among { IfOk result (λ r. IfSome r (λ e. Has e top.now.entries)) }
{
    let Some(entry) = top.entry() else {
        return Ok(None);
    };
    let key = Blob::copy_of(alloc, key_of(&entry))?;
    let copy = copy_of(alloc, &entry)?;
    *done = Some(key);
    Ok(Some(copy))
}

/// The newest put or deletion, of the dates that are asked for, of the next key after the last one
/// given; None where none is left.
pub(crate) fn next_change<C: Chunks>(
    alloc: Global,
    cursors: &mut BinaryHeap<Cursor>,
    chunks: &mut C,
    table: u32,
    kinds: &[Kind],
    wanted: &Wanted,
    done: &mut Option<Blob>,
) -> Result<Option<Entry>, MergeFault<C::Fault>>
    requires heap { IsHeap stand_cmp (heap_items cursors.old) }
    ensures step { IsStep C.kept C.came C.loads table kinds.now chunks.old chunks.new (heap_items cursors.old) (heap_items cursors.new) (λ x. to_load table x (heap_items cursors.old)) (λ x. to_load table x (heap_items cursors.new)) }
    ensures fault { IfErr result (IsMergeFault (C.came chunks.old chunks.new) table kinds.now (MayLoad (λ x. to_load table x (heap_items cursors.old)) table) (heap_items cursors.old)) }
    ensures order { OnOk result (IsOrder C.came C.loads table kinds.now chunks.old chunks.new (PointsBy Freely (heap_items cursors.old) (heap_items cursors.new))) }
    ensures put { IfOk result (λ r. IfSome r (IsOfHeld (C.came chunks.old chunks.new) table kinds.now (MayLoad (λ x. to_load table x (heap_items cursors.old)) table) (heap_items cursors.old))) }
    ensures heap { IsHeap stand_cmp (heap_items cursors.new) }
    ensures world { (w : World) (all : List Entry) → Gives C.came table kinds.now w chunks.old → IsApart bytes_cmp (facts_of all) → AreAt w wanted.now done.old all (heap_items cursors.old) → IfOk result (λ r. Gave r (changes_left wanted.now done.old all) (changes_left wanted.now done.new all) × AreAt w wanted.now done.new all (heap_items cursors.new)) }
    ensures behind { (w : World) (all : List Entry) → Gives C.came table kinds.now w chunks.old → AreAt w wanted.now done.old all (heap_items cursors.old) → IfOk result (λ r. IfSome r (λ e. IsOrder C.came C.loads table kinds.now chunks.old chunks.new (PointsBy (IsUpTo (key_of e)) (heap_items cursors.old) (heap_items cursors.new)))) }
    ensures sound { (w : World) (all : List Entry) → Gives C.came table kinds.now w chunks.old → AreAt w wanted.now done.old all (heap_items cursors.old) → IfErr result IsOthers }
{
    let top = match find(cursors, chunks, table, kinds, wanted, done) {
        Ok(Some(top)) => top,
        Ok(None) => return Ok(None),
        Err(fault) => return Err(fault),
    };
    let entry = match take_first(alloc, &top, done) {
        Ok(entry) => entry,
        Err(_) => return Err(MergeFault::Memory),
    };
    if put_back(cursors, Some(top)).is_err() {
        return Err(MergeFault::Memory);
    }
    Ok(entry)
}
