//! The walk of the range deletions of a part, from its last chunk backwards.
ghost use Rattle.std.specs.Prelude.{◌≡◌, ◌≤◌, length, true, false, None, [], ◌∷◌, ◌++◌, List, IfOk, IfErr, IfSome, OnOk, Some};
ghost use Rattle.chunk_file.specs.Chunks.{head_code};
ghost use Rattle.std.specs.List.{AllByRecursion};
ghost use Rattle.mvcc_keys.specs.declared.entries.Entry.{Entry};
ghost use Rattle.chunk_file.specs.Entries.{are_ordered, is_range, seen};
ghost use Rattle.chunk_file.specs.Held.{IsEntryStart, left_at};
ghost use Rattle.layer_merge.specs.Loads.{Gives, IsOthers, Load, World};
ghost use Rattle.layer_merge.specs.Orders.{Backwards, IsOrder};
ghost use Rattle.layer_merge.specs.Steps.{IsMergeFault, IsStep, MayLoad, loads_of, times};
ghost use Rattle.layer_merge.specs.Stands.{entries_in, first_of};
ghost use Rattle.layer_merge.specs.Ranges.{AddsAll, IsUpward, TakesRanges, begins_with_range, is_before};

use crate::cursor::{breaks, first_entry};
use crate::loading::load_chunk;
use crate::range_set::RangeSet;
use crate::{Chunks, Kind, Memory, MergeFault};
use chunk_file::HeldChunk;
use mvcc_keys::EntryView;
use std::collections::VecDeque;

/// A part whose points aren't walked yet: its layer, and the numbers of the chunks to load.
#[derive(Drop)]
pub(crate) struct Waiting {
    pub(crate) layer: usize,
    pub(crate) numbers: VecDeque<u32>,
}

/// Keeps an entry that is a range deletion.
fn add_range(ranges: &mut RangeSet, entry: &EntryView<'_>) -> Result<(), Memory>
    requires { IsUpward (seen entry.now) }
    ensures { OnOk result (AddsAll (seen entry.now ∷ []) ranges.old ranges.new) }
{
    match entry {
        EntryView::Range { lo, hi, at } => ranges.add(lo, hi, *at),
        _ => Ok(()),
    }
}

/// Keeps the range deletions of a chunk, and gives the offset of its last entry.
fn add_ranges(ranges: &mut RangeSet, chunk: &HeldChunk) -> Result<usize, Memory>
    requires { AllByRecursion IsUpward chunk.now }
    ensures start { IfOk result (IsEntryStart chunk.now) }
    ensures last { IfOk result (λ o. length (left_at chunk.now o) ≤ 1) }
    ensures some { IfOk result (λ o. 1 ≤ length chunk.now → 1 ≤ length (left_at chunk.now o)) }
    ensures kept { OnOk result (AddsAll chunk.now ranges.old ranges.new) }
{
    let mut last = chunk.first();
    let mut offset = last;
    while let Some((entry, next)) = chunk.entry_at(offset) {
        if add_range(ranges, &entry).is_err() {
            return Err(Memory);
        }
        last = offset;
        offset = next;
    }
    Ok(last)
}

fn begins_with_range(chunk: &HeldChunk) -> bool
    ensures { result ≡ begins_with_range (first_of chunk.now) }
{
    match first_entry(chunk) {
        Some(EntryView::Range { .. }) => true,
        _ => false,
    }
}

/// A chunk that was loaded, with its number.
#[derive(Drop)]
struct Numbered {
    number: u32,
    chunk: HeldChunk,
}

/// Whether a chunk may stand before the one that was loaded before it.
fn is_before(chunk: &HeldChunk, last: usize, number: u32, after: &Option<Numbered>) -> bool
    requires { IsEntryStart chunk.now last }
    ensures { result ≡ is_before number (first_of (left_at chunk.now last)) after.now }
{
    match after {
        Some(after) => !breaks(number, chunk, last, after.number, &after.chunk),
        None => true,
    }
}

fn after_number(after: &Option<Numbered>) -> u32
    ensures { IfSome after.now (λ a. result ≡ a.number) }
{
    match after {
        Some(after) => after.number,
        None => 0,
    }
}

fn after_first(after: &Option<Numbered>) -> usize
    ensures { IfSome after.now (λ a. result ≡ length (head_code a.chunk)) }
{
    match after {
        Some(after) => after.chunk.first(),
        None => 0,
    }
}

/// Keeps the range deletions of a part, and leaves out the numbers of the chunks at its end that
/// begin with one. Each chunk is tested against the one after it.
pub(crate) fn take_ranges<C: Chunks>(
    part: &mut Waiting,
    ranges: &mut RangeSet,
    chunks: &mut C,
    table: u32,
    kinds: &[Kind],
) -> Result<(), MergeFault<C::Fault>>
    ensures step { IsStep C.kept C.came C.loads table kinds.now chunks.old chunks.new [] [] (λ x. times x (loads_of table part.old.layer part.old.numbers.items)) (λ x. 0) }
    ensures fewer { OnOk result ((x : Load) → times x (loads_of table part.new.layer part.new.numbers.items) ≤ times x (loads_of table part.old.layer part.old.numbers.items)) }
    ensures fault { IfErr result (IsMergeFault (C.came chunks.old chunks.new) table kinds.now (MayLoad (λ x. times x (loads_of table part.old.layer part.old.numbers.items)) table) []) }
    ensures order { OnOk result (IsOrder C.came C.loads table kinds.now chunks.old chunks.new (λ read. Backwards part.old.layer part.old.numbers.items None read part.new.numbers.items)) }
    ensures layer { part.new.layer ≡ part.old.layer }
    ensures world { (w : World) → Gives C.came table kinds.now w chunks.old → are_ordered None (entries_in w part.old.layer part.old.numbers.items) ≡ true
        → OnOk result (TakesRanges (entries_in w part.old.layer part.old.numbers.items) (entries_in w part.old.layer part.new.numbers.items) ranges.old ranges.new) }
    ensures sound { (w : World) → Gives C.came table kinds.now w chunks.old → are_ordered None (entries_in w part.old.layer part.old.numbers.items) ≡ true → IfErr result IsOthers }
{
    let mut after: Option<Numbered> = None;
    while let Some(number) = part.numbers.pop_back() {
        let chunk = match load_chunk(chunks, part.layer, table, kinds, number) {
            Ok(chunk) => chunk,
            Err(fault) => return Err(fault),
        };
        let last = match add_ranges(ranges, &chunk) {
            Ok(last) => last,
            Err(_) => return Err(MergeFault::Memory),
        };
        if !is_before(&chunk, last, number, &after) {
            return Err(MergeFault::Malformed {
                layer: part.layer,
                chunk: after_number(&after),
                offset: after_first(&after),
            });
        }
        if !begins_with_range(&chunk) {
            if part.numbers.push_back(number).is_err() {
                return Err(MergeFault::Memory);
            }
            return Ok(());
        }
        after = Some(Numbered { number, chunk });
    }
    Ok(())
}
