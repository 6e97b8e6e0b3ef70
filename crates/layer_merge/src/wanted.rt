//! Which entries a merge is asked for.
ghost use Rattle.std.specs.Prelude.{◌≡◌, [], None, IfOk};
ghost use Rattle.chunk_file.specs.Entries.{is_range, date_of, seen};
ghost use Rattle.mvcc_keys.specs.Entries.{key_of};
ghost use Rattle.layer_merge.specs.Within.{keys_within, reaches};
ghost use Rattle.layer_merge.specs.Stands.{counts, is_after, is_below, is_later, is_wanted};

use crate::Memory;
use mvcc_keys::{Blob, EntryView, Hlc};
use std::alloc::Global;

/// The keys from `lo` up to, not including, `hi`, and the dates after one up to another.
#[derive(Drop)]
pub(crate) struct Wanted {
    pub(crate) lo: Blob,
    pub(crate) hi: Option<Blob>,
    pub(crate) after: Option<Hlc>,
    pub(crate) upto: Hlc,
}

fn is_after(done: &Option<Blob>, key: &[u8]) -> bool
    ensures { result ≡ is_after done.now key.now }
{
    match done {
        None => true,
        Some(done) => done.as_slice().cmp(key).is_lt(),
    }
}

fn is_below(hi: &Option<Blob>, key: &[u8]) -> bool
    ensures { result ≡ is_below hi.now key.now }
{
    match hi {
        None => true,
        Some(hi) => key.cmp(hi.as_slice()).is_lt(),
    }
}

fn is_later(after: &Option<Hlc>, at: Hlc) -> bool
    ensures { result ≡ is_later after.now at }
{
    match after {
        None => true,
        Some(after) => *after < at,
    }
}

impl Wanted {
    fn has(&self, key: &[u8], at: Hlc) -> bool
        ensures { result ≡ is_wanted self.now key.now at }
    {
        self.lo.as_slice().cmp(key).is_le()
            && is_below(&self.hi, key)
            && (is_later(&self.after, at) && at <= self.upto)
    }

    /// Whether a key that is asked for may lie between a chunk's least and its greatest key.
    pub(crate) fn reaches(&self, least: &[u8], greatest: &[u8]) -> bool
        ensures { result ≡ reaches self.now least.now greatest.now }
    {
        self.lo.as_slice().cmp(greatest).is_le() && is_below(&self.hi, least)
    }
}

/// Whether an entry counts, where a key was the last one given.
#[tactic(auto, unfolding(crate::specs::Stands::counts))]
pub(crate) fn counts(entry: &EntryView<'_>, wanted: &Wanted, done: &Option<Blob>) -> bool
    ensures { result ≡ counts wanted.now done.now (seen entry.now) }
{
    match entry {
        EntryView::Put { key, at, .. } => is_after(done, key) && wanted.has(key, *at),
        EntryView::Del { key, at } => is_after(done, key) && wanted.has(key, *at),
        EntryView::Range { .. } => false,
    }
}

/// All keys, and the dates after one, where one is given, up to another.
pub(crate) fn wanted_from(alloc: Global, after: Option<Hlc>, upto: Hlc) -> Wanted
    ensures lo { result.lo ≡ [] }
    ensures hi { result.hi ≡ None }
    ensures after { result.after ≡ after }
    ensures upto { result.upto ≡ upto }
{
    Wanted {
        lo: Blob::from_vec(Vec::new(alloc)),
        hi: None,
        after,
        upto,
    }
}

/// The keys from `lo` up to, not including, `hi`, and all dates up to a time.
pub(crate) fn wanted_within(
    alloc: Global,
    lo: &[u8],
    hi: &[u8],
    upto: Hlc,
) -> Result<Wanted, Memory>
    ensures { IfOk result (λ v. v ≡ keys_within lo.now hi.now upto) }
{
    let lo = Blob::copy_of(alloc, lo)?;
    let hi = Blob::copy_of(alloc, hi)?;
    Ok(Wanted {
        lo,
        hi: Some(hi),
        after: None,
        upto,
    })
}
