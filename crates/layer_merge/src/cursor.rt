//! A part of a merge, at one of its entries.
ghost use Rattle.std.specs.Prelude.{◌≡◌, ◌+◌, ◌*◌, ◌<◌, ◌≤◌, length, drop, take, option_map, IfOk, IfErr, IfSome, OnOk, MatchOption, None, true, false, [], ◌∷◌, ◌==◌, ◌&&◌, not, zero};
ghost use Rattle.std.proofs.Common.{refl};
ghost use Rattle.std.specs.Cmp.{partial_equiv_from_equiv, po};
ghost use Rattle.layer_merge.specs.StandOrder.{stands_total, stands_equiv};
ghost use Rattle.std.specs.Ordering.{as_partial_cmp, is_eq};
ghost use Rattle.list_laws.specs.Members.{Has};
ghost use Rattle.chunk_file.specs.Entries.{seen, are_ordered};
ghost use Rattle.chunk_file.specs.Held.{IsEntryStart, left_at};
ghost use Rattle.layer_merge.specs.Loads.{Gives, IsOthers, World};
ghost use Rattle.layer_merge.specs.Stands.{IsLast, Loaded, Moves, coming, date_in, entry_cmp, first_of, goes_on, key_in, rank_of, room, stand, stand_cmp};
ghost use Rattle.layer_merge.specs.Orders.{EndsAt, IsOrder, PointsBy};
ghost use Rattle.layer_merge.specs.Steps.{IsMergeFault, IsStep, MayLoad, stands_of, to_load};

use crate::loading::load_chunk;
use crate::{Chunks, Kind, MergeFault};
use chunk_file::{HeldChunk, comes_before};
use mvcc_keys::{EntryView, Hlc, cmp_mvcc};
use std::cmp::Ordering;
use std::collections::VecDeque;
use std::marker::Model;

/// A part's chunk that is held, at an entry, and the numbers of the chunks after it. In a heap the
/// one whose entry comes first is the greatest.
#[derive(Drop)]
pub(crate) struct Cursor {
    layer: usize,
    number: u32,
    chunk: HeldChunk,
    offset: usize,
    numbers: VecDeque<u32>,
}

impl Model for Cursor {
    ghost use Rattle.chunk_file.specs.Held.{left_at};
    ghost use Rattle.layer_merge.specs.Stands.{IsAt, Stand, stand};

    ghost Value = { Stand };

    ghost view = { λ c. stand c.layer c.number c.chunk (left_at c.chunk c.offset) c.numbers.items };

    ghost invariant = { λ c. IsAt c.chunk c.offset };
}

fn rank_of(entry: &Option<EntryView<'_>>) -> u8
    ensures { result ≡ rank_of (option_map seen entry.now) }
{
    match entry {
        None => 2,
        Some(EntryView::Range { .. }) => 1,
        Some(_) => 0,
    }
}

fn key_in<'a>(entry: &Option<EntryView<'a>>) -> &'a [u8]
    ensures { result.now ≡ key_in (option_map seen entry.now) }
{
    match entry {
        None => &[],
        Some(EntryView::Put { key, .. }) => key,
        Some(EntryView::Del { key, .. }) => key,
        Some(EntryView::Range { lo, .. }) => lo,
    }
}

fn date_in(entry: &Option<EntryView<'_>>) -> Hlc
    ensures { result ≡ date_in (option_map seen entry.now) }
{
    match entry {
        None => Hlc::zero(),
        Some(EntryView::Put { at, .. }) => *at,
        Some(EntryView::Del { at, .. }) => *at,
        Some(EntryView::Range { at, .. }) => *at,
    }
}

fn entry_cmp(a: &Option<EntryView<'_>>, b: &Option<EntryView<'_>>) -> Ordering
    ensures { result ≡ entry_cmp (option_map seen a.now) (option_map seen b.now) }
{
    rank_of(a)
        .cmp(&rank_of(b))
        .then(cmp_mvcc(key_in(a), date_in(a), key_in(b), date_in(b)))
}

/// The first entry of a chunk.
pub(crate) fn first_entry(chunk: &HeldChunk) -> Option<EntryView<'_>>
    ensures { option_map seen result ≡ first_of chunk.now }
{
    match chunk.entry_at(chunk.first()) {
        Some((entry, _)) => Some(entry),
        None => None,
    }
}

/// Whether two numbers follow one another.
pub(crate) fn is_next(number: u32, next: u32) -> bool
    ensures { result ≡ (next == number + 1) }
{
    number < next && next - number == 1
}

/// Whether the first entry of a chunk comes after one of another chunk.
pub(crate) fn goes_on(before: &HeldChunk, last: usize, after: &HeldChunk) -> bool
    requires { IsEntryStart before.now last }
    ensures { result ≡ goes_on (first_of (left_at before.now last)) (first_of after.now) }
{
    match before.entry_at(last) {
        None => true,
        Some((d, _)) => match first_entry(after) {
            None => true,
            Some(e) => comes_before(&d, &e),
        },
    }
}

/// Whether a chunk is the next one, and doesn't go on where the one before it ends.
pub(crate) fn breaks(
    number: u32,
    before: &HeldChunk,
    last: usize,
    next: u32,
    after: &HeldChunk,
) -> bool
    requires { IsEntryStart before.now last }
    ensures { result ≡ ((next == number + 1) && not (goes_on (first_of (left_at before.now last)) (first_of after.now))) }
{
    is_next(number, next) && !goes_on(before, last, after)
}

impl Cursor {
    /// The cursor at the first entry of a chunk.
    pub(crate) fn new(layer: usize, number: u32, chunk: HeldChunk, numbers: VecDeque<u32>) -> Cursor
        requires some { 1 ≤ length chunk }
        requires most { length chunk ≤ 256 }
        requires ordered { are_ordered None chunk ≡ true }
        ensures whole { result ≡ stand layer number chunk chunk numbers.items }
        ensures layer { result.layer ≡ layer }
        ensures number { result.number ≡ number }
        ensures entries { result.entries ≡ chunk }
        ensures left { result.left ≡ chunk }
        ensures numbers { result.numbers ≡ numbers.items }
    {
        let offset = chunk.first();
        Cursor {
            layer,
            number,
            chunk,
            offset,
            numbers,
        }
    }

    /// The entry that it is at.
    pub(crate) fn entry(&self) -> Option<EntryView<'_>>
        ensures first { option_map seen result ≡ first_of self.now.left }
        ensures among { IfSome result (λ e. Has (seen e) self.now.entries) }
    {
        match self.chunk.entry_at(self.offset) {
            Some((entry, _)) => Some(entry),
            None => None,
        }
    }

    /// The offset of the entry after it in its chunk.
    fn after(&self) -> Option<usize>
        ensures { MatchOption result (self.now.left ≡ take 1 self.now.left) (λ next. (1 ≤ length (drop 1 self.now.left)) × IsEntryStart self.now.entries next × (left_at self.now.entries next ≡ drop 1 self.now.left)) }
    {
        let Some((_, next)) = self.chunk.entry_at(self.offset) else {
            return None;
        };
        match self.chunk.entry_at(next) {
            Some(_) => Some(next),
            None => None,
        }
    }
}

impl Cursor {
    /// The cursor at an entry of its chunk.
    fn at(self, offset: usize) -> Cursor
        requires start { IsEntryStart self.entries offset }
        requires live { 1 ≤ length (left_at self.entries offset) }
        ensures { result ≡ stand self.layer self.number self.entries (left_at self.entries offset) self.numbers }
    {
        let mut moved = self;
        moved.offset = offset;
        moved
    }

    /// The cursor at the first entry of the chunk after its chunk, which is loaded.
    fn loaded<C: Chunks>(
        self,
        chunks: &mut C,
        table: u32,
        kinds: &[Kind],
    ) -> Result<Option<Cursor>, MergeFault<C::Fault>>
        requires { self.left ≡ take 1 self.left }
        ensures step { IsStep C.kept C.came C.loads table kinds.now chunks.old chunks.new (self ∷ []) (stands_of result) (λ x. to_load table x (self ∷ [])) (λ x. to_load table x (stands_of result)) }
        ensures fault { IfErr result (IsMergeFault (C.came chunks.old chunks.new) table kinds.now (MayLoad (λ x. to_load table x (self ∷ [])) table) (self ∷ [])) }
        ensures world { (w : World) → Gives C.came table kinds.now w chunks.old → IfOk result (Loaded w self) }
        ensures sound { (w : World) → Gives C.came table kinds.now w chunks.old → IsLast w self → IfErr result IsOthers }
        ensures order { OnOk result (IsOrder C.came C.loads table kinds.now chunks.old chunks.new (PointsBy (EndsAt self) (self ∷ []) (stands_of result))) }
        ensures shorter { IfOk result (λ r. IfSome r (λ m. room m ≤ 258 * length self.numbers)) }
    {
        let Cursor {
            layer,
            number,
            chunk,
            offset,
            mut numbers,
        } = self;
        let Some(next) = numbers.pop_front() else {
            return Ok(None);
        };
        let after = match load_chunk(chunks, layer, table, kinds, next) {
            Ok(after) => after,
            Err(fault) => return Err(fault),
        };
        if breaks(number, &chunk, offset, next, &after) {
            return Err(MergeFault::Malformed {
                layer,
                chunk: next,
                offset: after.first(),
            });
        }
        Ok(Some(Cursor::new(layer, next, after, numbers)))
    }

    /// The cursor at the next entry, in its chunk or in the one after it; None where there is none.
    pub(crate) fn moved<C: Chunks>(
        self,
        chunks: &mut C,
        table: u32,
        kinds: &[Kind],
    ) -> Result<Option<Cursor>, MergeFault<C::Fault>>
        ensures step { IsStep C.kept C.came C.loads table kinds.now chunks.old chunks.new (self ∷ []) (stands_of result) (λ x. to_load table x (self ∷ [])) (λ x. to_load table x (stands_of result)) }
        ensures fault { IfErr result (IsMergeFault (C.came chunks.old chunks.new) table kinds.now (MayLoad (λ x. to_load table x (self ∷ [])) table) (self ∷ [])) }
        ensures world { (w : World) → Gives C.came table kinds.now w chunks.old → IfOk result (Moves w self) }
        ensures sound { (w : World) → Gives C.came table kinds.now w chunks.old → are_ordered None (coming w self) ≡ true → IfErr result IsOthers }
        ensures order { OnOk result (IsOrder C.came C.loads table kinds.now chunks.old chunks.new (PointsBy (EndsAt self) (self ∷ []) (stands_of result))) }
        ensures shorter { IfOk result (λ r. IfSome r (λ m. room m < room self)) }
    {
        match self.after() {
            Some(next) => Ok(Some(self.at(next))),
            None => self.loaded(chunks, table, kinds),
        }
    }
}

impl PartialEq for Cursor {
    ghost eq = { λ a b. is_eq (stand_cmp a b) };

    ghost laws = { partial_equiv_from_equiv stands_equiv };

    fn eq(&self, other: &Cursor) -> bool {
        entry_cmp(&other.entry(), &self.entry()).is_eq()
    }
}

impl Eq for Cursor {
    ghost laws = { stands_equiv };
}

impl PartialOrd for Cursor {
    ghost partial_cmp = { as_partial_cmp stand_cmp };

    ghost laws = { po stands_total (λ x y. refl) };

    fn partial_cmp(&self, other: &Cursor) -> Option<Ordering> {
        Some(self.cmp(other))
    }
}

impl Ord for Cursor {
    ghost cmp = { stand_cmp };

    ghost total = { stands_total };

    ghost matches_partial_cmp = { λ x y. refl };

    ghost matches_eq = { λ x y. refl };

    fn cmp(&self, other: &Cursor) -> Ordering {
        entry_cmp(&other.entry(), &self.entry())
    }
}
