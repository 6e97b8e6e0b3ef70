//! Places among the entries of a plan.
ghost use Rattle.std.specs.Prelude.{◌≡◌, None, IfOk};
ghost use Rattle.fact_model.specs.Facts.{date};
ghost use Rattle.fact_model.specs.Listed.{key_of};
ghost use Rattle.version_store.specs.Lists.{fact_of};
ghost use Rattle.span_export.specs.Pieces.{place_of, cursor_after, is_after, is_left, is_past_points, is_range, point_at, point_of};

use mvcc_keys::{Blob, Entry, Hlc, Memory, cmp_mvcc};
use std::alloc::Global;
use std::marker::Model;

/// The place of a put or of a deletion, or of a range deletion.
#[derive(Debug, Drop)]
pub enum Place {
    Point { key: Blob, at: Hlc },
    Range { at: Hlc },
}

/// How far a plan's entries were given: nothing yet, or up to a place.
#[derive(Debug, Drop)]
pub struct Cursor {
    last: Option<Place>,
}

impl Model for Cursor {
    ghost use Rattle.std.specs.Prelude.{Option};
    ghost use Rattle.span_export.specs.declared.cursor.Place.{Place};

    ghost Value = { Option Place };

    ghost view = { λ c. c.last };
}

/// The key of a put or of a deletion, the first key of a range.
pub fn key_of(entry: &Entry) -> &[u8]
    ensures { result.now ≡ key_of (fact_of entry.now) }
{
    match entry {
        Entry::Put { key, .. } => key.as_slice(),
        Entry::Del { key, .. } => key.as_slice(),
        Entry::Range { lo, .. } => lo.as_slice(),
    }
}

pub fn date_of(entry: &Entry) -> Hlc
    ensures { result ≡ date (fact_of entry.now) }
{
    match entry {
        Entry::Put { at, .. } => *at,
        Entry::Del { at, .. } => *at,
        Entry::Range { at, .. } => *at,
    }
}

fn point_of(alloc: Global, key: &[u8], at: Hlc) -> Result<Place, Memory>
    ensures { IfOk result (λ p. p ≡ Place.Point key.now at) }
{
    let key = Blob::copy_of(alloc, key)?;
    Ok(Place::Point { key, at })
}

fn place_of(alloc: Global, entry: &Entry) -> Result<Place, Memory>
    ensures { IfOk result (λ p. p ≡ place_of entry.now) }
{
    match entry {
        Entry::Put { key, at, .. } => point_of(alloc, key.as_slice(), *at),
        Entry::Del { key, at } => point_of(alloc, key.as_slice(), *at),
        Entry::Range { at, .. } => Ok(Place::Range { at: *at }),
    }
}

impl Place {
    fn copy(&self, alloc: Global) -> Result<Place, Memory>
        ensures { IfOk result (λ p. p ≡ self.now) }
    {
        match self {
            Place::Point { key, at } => point_of(alloc, key.as_slice(), *at),
            Place::Range { at } => Ok(Place::Range { at: *at }),
        }
    }

    fn is_range(&self) -> bool
        ensures { result ≡ is_range self.now }
    {
        matches!(self, Place::Range { .. })
    }

    /// The key and the date of a put or of a deletion.
    fn point(&self, alloc: Global) -> Result<Option<(Blob, Hlc)>, Memory>
        ensures { IfOk result (λ p. p ≡ point_at self.now) }
    {
        match self {
            Place::Point { key, at } => {
                let key = key.copy(alloc)?;
                Ok(Some((key, *at)))
            }
            Place::Range { .. } => Ok(None),
        }
    }

    fn is_before(&self, entry: &Entry) -> bool
        ensures { result ≡ is_after self.now entry.now }
    {
        match self {
            Place::Point { key, at } => match entry {
                Entry::Range { .. } => true,
                _ => cmp_mvcc(key.as_slice(), *at, key_of(entry), date_of(entry)).is_lt(),
            },
            Place::Range { at } => match entry {
                Entry::Range { at: date, .. } => *at < *date,
                _ => false,
            },
        }
    }
}

impl Cursor {
    /// Nothing is given yet.
    pub fn start() -> Cursor
        ensures { result ≡ None }
    {
        Cursor { last: None }
    }

    /// Whether the last entry given was a range deletion, so that all puts and deletions were given.
    pub fn is_past_points(&self) -> bool
        ensures { result ≡ is_past_points self.now }
    {
        match &self.last {
            None => false,
            Some(place) => place.is_range(),
        }
    }

    /// The key and the date of the last put or deletion given, if that was the last entry.
    pub fn point(&self, alloc: Global) -> Result<Option<(Blob, Hlc)>, Memory>
        ensures { IfOk result (λ p. p ≡ point_of self.now) }
    {
        match &self.last {
            None => Ok(None),
            Some(place) => place.point(alloc),
        }
    }

    /// Whether an entry comes after what was given.
    pub fn is_before(&self, entry: &Entry) -> bool
        ensures { result ≡ is_left self.now entry.now }
    {
        match &self.last {
            None => true,
            Some(place) => place.is_before(entry),
        }
    }

    /// The cursor at the last of some entries, or as it was where there is none.
    pub fn moved(&self, alloc: Global, entries: &[Entry]) -> Result<Cursor, Memory>
        ensures { IfOk result (λ c. c ≡ cursor_after self.now entries.now) }
    {
        match entries.last() {
            Some(entry) => {
                let place = place_of(alloc, entry)?;
                Ok(Cursor { last: Some(place) })
            }
            None => self.copy(alloc),
        }
    }

    pub fn copy(&self, alloc: Global) -> Result<Cursor, Memory>
        ensures { IfOk result (λ c. c ≡ self.now) }
    {
        match &self.last {
            None => Ok(Cursor { last: None }),
            Some(place) => {
                let place = place.copy(alloc)?;
                Ok(Cursor { last: Some(place) })
            }
        }
    }
}
