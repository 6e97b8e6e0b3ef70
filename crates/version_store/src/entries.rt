//! Entries read as dated facts of tables.
ghost use Rattle.std.specs.Prelude.{◌≡◌, IfOk};
ghost use Rattle.fact_model.specs.Facts.{Fact, date, touches};
ghost use Rattle.fact_model.specs.Listed.{is_point, key_of};
ghost use Rattle.version_store.specs.Tables.{table_of, bytes_cmp};
ghost use Rattle.version_store.specs.Lists.{fact_of, is_of};

use key_encoding::take_uvarint;
use mvcc_keys::{Blob, Entry, Hlc, Memory};
use std::alloc::Global;

/// The table of a key.
#[tactic(auto, unfolding(crate::specs::Tables::table_of))]
pub fn table_of(key: &[u8]) -> Option<u64>
    ensures { result ≡ table_of key.now }
{
    match take_uvarint(key) {
        Ok((id, _)) => Some(id),
        Err(_) => None,
    }
}

/// The key of a put or of a deletion, the first key of a range.
pub fn key_of(fact: &Entry) -> &[u8]
    ensures { result.now ≡ key_of (fact_of fact.now) }
{
    match fact {
        Entry::Put { key, .. } => key.as_slice(),
        Entry::Del { key, .. } => key.as_slice(),
        Entry::Range { lo, .. } => lo.as_slice(),
    }
}

pub fn is_of(fact: &Entry, table: u64) -> bool
    ensures { result ≡ is_of table fact.now }
{
    match table_of(key_of(fact)) {
        Some(own) => own == table,
        None => false,
    }
}

pub fn date_of(fact: &Entry) -> Hlc
    ensures { result ≡ date (fact_of fact.now) }
{
    match fact {
        Entry::Put { at, .. } => *at,
        Entry::Del { at, .. } => *at,
        Entry::Range { at, .. } => *at,
    }
}

pub fn is_point(fact: &Entry) -> bool
    ensures { result ≡ is_point (fact_of fact.now) }
{
    !matches!(fact, Entry::Range { .. })
}

pub fn touches(fact: &Entry, key: &[u8]) -> bool
    ensures { result ≡ touches bytes_cmp key.now (fact_of fact.now) }
{
    match fact {
        Entry::Put { key: own, .. } => own.as_slice().cmp(key).is_eq(),
        Entry::Del { key: own, .. } => own.as_slice().cmp(key).is_eq(),
        Entry::Range { lo, hi, .. } => {
            lo.as_slice().cmp(key).is_le() && key.cmp(hi.as_slice()).is_lt()
        }
    }
}

pub fn put_of(alloc: Global, key: &[u8], at: Hlc, value: &[u8]) -> Result<Entry, Memory>
    ensures { IfOk result (λ e. fact_of e ≡ Fact.Put key.now value.now at) }
{
    let key = Blob::copy_of(alloc, key)?;
    let value = Blob::copy_of(alloc, value)?;
    Ok(Entry::Put { key, at, value })
}

pub fn deletion_of(alloc: Global, key: &[u8], at: Hlc) -> Result<Entry, Memory>
    ensures { IfOk result (λ e. fact_of e ≡ Fact.Del key.now at) }
{
    let key = Blob::copy_of(alloc, key)?;
    Ok(Entry::Del { key, at })
}

pub fn range_of(alloc: Global, lo: &[u8], hi: &[u8], at: Hlc) -> Result<Entry, Memory>
    ensures { IfOk result (λ e. fact_of e ≡ Fact.DelRange lo.now hi.now at) }
{
    let lo = Blob::copy_of(alloc, lo)?;
    let hi = Blob::copy_of(alloc, hi)?;
    Ok(Entry::Range { lo, hi, at })
}

pub fn copy_of(alloc: Global, fact: &Entry) -> Result<Entry, Memory>
    ensures { IfOk result (λ e. e ≡ fact.now) }
{
    match fact {
        Entry::Put { key, at, value } => put_of(alloc, key.as_slice(), *at, value.as_slice()),
        Entry::Del { key, at } => deletion_of(alloc, key.as_slice(), *at),
        Entry::Range { lo, hi, at } => range_of(alloc, lo.as_slice(), hi.as_slice(), *at),
    }
}
