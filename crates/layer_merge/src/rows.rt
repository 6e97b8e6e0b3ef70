//! The rows of a merge, one after the other.
ghost use Rattle.std.specs.Prelude.{◌≡◌, ◌≤◌, Some, None, List, [], ◌∷◌, ◌++◌, IfOk, IfErr, IfSome, OnOk, option_map, option_to_list, sum_by};
ghost use Rattle.std.specs.BinaryHeap.{IsHeap, heap_items};
ghost use Rattle.mvcc_keys.specs.declared.entries.Entry.{Entry};
ghost use Rattle.fact_model.specs.Facts.{IsApart};
ghost use Rattle.list_laws.specs.Members.{Has};
ghost use Rattle.mvcc_keys.specs.Entries.{key_of};
ghost use Rattle.chunk_file.specs.Entries.{seen};
ghost use Rattle.layer_merge.specs.Loads.{Gives, IsOthers, World};
ghost use Rattle.layer_merge.specs.Stands.{AreAt, Finds, counts_first, first_of, room, stand_cmp};
ghost use Rattle.layer_merge.specs.Orders.{Freely, IsOrder, IsUpTo, PointsBy};
ghost use Rattle.layer_merge.specs.Steps.{IsMergeFault, IsOfHeld, IsStep, MayLoad, to_load};
ghost use Rattle.version_store.specs.Tables.{bytes_cmp};
ghost use Rattle.version_store.specs.Lists.{facts_of};
ghost use Rattle.layer_merge.specs.Rows.{Gave, rows_left, shown_of};
ghost use Rattle.layer_merge.specs.Ranges.{HasRanges};
ghost use Rattle.layer_merge.specs.Nexts.{is_hidden};
ghost use Rattle.layer_merge.specs.Decided.{IsDecided};

use crate::cursor::Cursor;
use crate::points::{find, put_back};
use crate::range_set::RangeSet;
use crate::wanted::Wanted;
use crate::{Chunks, Kind, Memory, MergeFault};
use mvcc_keys::{Blob, Entry, EntryView, Hlc};
use std::alloc::Global;
use std::collections::BinaryHeap;

fn is_hidden(cover: Option<Hlc>, at: Hlc) -> bool
    ensures { result ≡ is_hidden cover at }
{
    match cover {
        None => false,
        Some(date) => at < date,
    }
}

/// A copy of an entry, if it is a put that isn't hidden.
fn shown(
    alloc: Global,
    entry: &EntryView<'_>,
    ranges: &RangeSet,
    upto: Hlc,
) -> Result<Option<Entry>, Memory>
    ensures decided { IfOk result (IsDecided ranges.now upto (seen entry.now)) }
    ensures same { IfOk result (λ r. IfSome r (λ e. e ≡ seen entry.now)) }
{
    match entry {
        EntryView::Put { key, at, value } => {
            if is_hidden(ranges.newest(key, upto), *at) {
                return Ok(None);
            }
            let key = Blob::copy_of(alloc, key)?;
            let value = Blob::copy_of(alloc, value)?;
            Ok(Some(Entry::Put {
                key,
                at: *at,
                value,
            }))
        }
        _ => Ok(None),
    }
}

/// The key of an entry, the first key of a range deletion.
pub(crate) fn key_of<'a>(entry: &EntryView<'a>) -> &'a [u8]
    ensures { result.now ≡ key_of (seen entry.now) }
{
    match entry {
        EntryView::Put { key, .. } => key,
        EntryView::Del { key, .. } => key,
        EntryView::Range { lo, .. } => lo,
    }
}

/// Notes the key of the entry at which a cursor is as the last one given, and copies the entry if
/// it is shown.
fn decide(
    alloc: Global,
    top: &Cursor,
    upto: Hlc,
    ranges: &RangeSet,
    done: &mut Option<Blob>,
) -> Result<Option<Entry>, Memory>
    ensures decided { IfOk result (λ r. (e : Entry) → first_of top.now.left ≡ Some e → (done.new ≡ Some (key_of e)) × IsDecided ranges.now upto e r) }
    ensures same { IfOk result (λ r. IfSome r (λ e. first_of top.now.left ≡ Some e)) }
    ensures among { IfOk result (λ r. IfSome r (λ e. Has e top.now.entries)) }
{
    let Some(entry) = top.entry() else {
        return Ok(None);
    };
    let key = Blob::copy_of(alloc, key_of(&entry))?;
    let shown = shown(alloc, &entry, ranges, upto)?;
    *done = Some(key);
    Ok(shown)
}

/// The next row after the last key given; None where none is left.
pub(crate) fn next_row<C: Chunks>(
    alloc: Global,
    cursors: &mut BinaryHeap<Cursor>,
    chunks: &mut C,
    table: u32,
    kinds: &[Kind],
    wanted: &Wanted,
    ranges: &RangeSet,
    done: &mut Option<Blob>,
) -> Result<Option<Entry>, MergeFault<C::Fault>>
    requires heap { IsHeap stand_cmp (heap_items cursors.old) }
    requires from_start { wanted.now.after ≡ None }
    ensures step { IsStep C.kept C.came C.loads table kinds.now chunks.old chunks.new (heap_items cursors.old) (heap_items cursors.new) (λ x. to_load table x (heap_items cursors.old)) (λ x. to_load table x (heap_items cursors.new)) }
    ensures fault { IfErr result (IsMergeFault (C.came chunks.old chunks.new) table kinds.now (MayLoad (λ x. to_load table x (heap_items cursors.old)) table) (heap_items cursors.old)) }
    ensures order { OnOk result (IsOrder C.came C.loads table kinds.now chunks.old chunks.new (PointsBy Freely (heap_items cursors.old) (heap_items cursors.new))) }
    ensures put { IfOk result (λ r. IfSome r (IsOfHeld (C.came chunks.old chunks.new) table kinds.now (MayLoad (λ x. to_load table x (heap_items cursors.old)) table) (heap_items cursors.old))) }
    ensures heap { IsHeap stand_cmp (heap_items cursors.new) }
    ensures world { (w : World) (all : List Entry) → Gives C.came table kinds.now w chunks.old → IsApart bytes_cmp (facts_of all) → HasRanges ranges.now all → AreAt w wanted.now done.old all (heap_items cursors.old) → IfOk result (λ r. Gave r (rows_left wanted.now done.old all) (rows_left wanted.now done.new all) × AreAt w wanted.now done.new all (heap_items cursors.new)) }
    ensures behind { (w : World) (all : List Entry) → Gives C.came table kinds.now w chunks.old → IsApart bytes_cmp (facts_of all) → HasRanges ranges.now all → AreAt w wanted.now done.old all (heap_items cursors.old) → IfOk result (λ r. IfSome r (λ e. IsOrder C.came C.loads table kinds.now chunks.old chunks.new (PointsBy (IsUpTo (key_of e)) (heap_items cursors.old) (heap_items cursors.new)))) }
    ensures sound { (w : World) (all : List Entry) → Gives C.came table kinds.now w chunks.old → IsApart bytes_cmp (facts_of all) → HasRanges ranges.now all → AreAt w wanted.now done.old all (heap_items cursors.old) → IfErr result IsOthers }
{
    loop {
        let top = match find(cursors, chunks, table, kinds, wanted, done) {
            Ok(Some(top)) => top,
            Ok(None) => return Ok(None),
            Err(fault) => return Err(fault),
        };
        let shown = match decide(alloc, &top, wanted.upto, ranges, done) {
            Ok(shown) => shown,
            Err(_) => return Err(MergeFault::Memory),
        };
        if let Some(entry) = shown {
            if put_back(cursors, Some(top)).is_err() {
                return Err(MergeFault::Memory);
            }
            return Ok(Some(entry));
        }
        let moved = match top.moved(chunks, table, kinds) {
            Ok(moved) => moved,
            Err(fault) => return Err(fault),
        };
        if put_back(cursors, moved).is_err() {
            return Err(MergeFault::Memory);
        }
    }
}
