//! All rows of a merge.
ghost use Rattle.std.specs.Prelude.{◌≡◌, false, [], IfOk, IfErr, OnOk, List};
ghost use Rattle.std.specs.List.{AllByRecursion};
ghost use Rattle.mvcc_keys.specs.declared.entries.Entry.{Entry};
ghost use Rattle.layer_merge.specs.Loads.{Gives, IsOthers, World};
ghost use Rattle.layer_merge.specs.Parts.{AreProper, IsCountedChunk, merge_rows};
ghost use Rattle.layer_merge.specs.Steps.{IsMergeFault, IsOfHeld};
ghost use Rattle.layer_merge.specs.Walks.{IsToLoad, MergesOver, rows_of};

use layer_merge::{Chunks, MergeFault, Part, RowMerge};
use mvcc_keys::{Entry, Hlc};
use row_codec::Kind;
use std::alloc::Global;

/// Adds all rows of a merge that has just begun.
fn add_rows<C: Chunks>(
    merge: &mut RowMerge,
    chunks: &mut C,
    rows: &mut Vec<Entry>,
) -> Result<(), MergeFault<C::Fault>>
    requires good { merge.old.failed ≡ false }
    requires none { merge.old.walk.stands ≡ [] }
    requires empty { rows.old.items ≡ [] }
    ensures kept { C.kept chunks.old chunks.new }
    ensures fault { IfErr result (IsMergeFault (C.came chunks.old chunks.new) merge.old.walk.table merge.old.walk.kinds (IsToLoad merge.old.walk) []) }
    ensures given { OnOk result (AllByRecursion (IsOfHeld (C.came chunks.old chunks.new) merge.old.walk.table merge.old.walk.kinds (IsToLoad merge.old.walk) []) rows.new.items) }
    ensures sound { (w : World) (all : List Entry) → Gives C.came merge.old.walk.table merge.old.walk.kinds w chunks.old → MergesOver w all merge.old.walk → IfErr result IsOthers }
    ensures rows { (w : World) (all : List Entry) → Gives C.came merge.old.walk.table merge.old.walk.kinds w chunks.old → MergesOver w all merge.old.walk → OnOk result (rows.new.items ≡ rows_of all merge.old.walk) }
{
    for turn in 0..u64::MAX {
        let row = match merge.next(chunks) {
            Ok(Some(row)) => row,
            Ok(None) => return Ok(()),
            Err(fault) => return Err(fault),
        };
        if rows.push(row).is_err() {
            return Err(MergeFault::Memory);
        }
    }
    // a list has fewer rows than there are turns
    unreachable!()
}

/// The rows of a table as of a time, out of its parts in the layers of a chain.
pub fn merged_rows<C: Chunks>(
    alloc: Global,
    chunks: &mut C,
    table: u32,
    kinds: &[Kind],
    parts: &[Part],
    t: Hlc,
) -> Result<Vec<Entry>, MergeFault<C::Fault>>
    ensures kept { C.kept chunks.old chunks.new }
    ensures fault { IfErr result (IsMergeFault (C.came chunks.old chunks.new) table kinds.now (IsCountedChunk parts.now) []) }
    ensures given { IfOk result (λ v. AllByRecursion (IsOfHeld (C.came chunks.old chunks.new) table kinds.now (IsCountedChunk parts.now) []) v.items) }
    ensures sound { (w : World) → Gives C.came table kinds.now w chunks.old → AreProper w parts.now → IfErr result IsOthers }
    ensures rows { (w : World) → Gives C.came table kinds.now w chunks.old → AreProper w parts.now → IfOk result (λ v. v.items ≡ merge_rows w parts.now t) }
{
    let mut merge = match RowMerge::new(alloc, table, kinds, parts, t) {
        Ok(merge) => merge,
        Err(_) => return Err(MergeFault::Memory),
    };
    let mut rows = Vec::new(alloc);
    match add_rows(&mut merge, chunks, &mut rows) {
        Ok(()) => Ok(rows),
        Err(fault) => Err(fault),
    }
}
